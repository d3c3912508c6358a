//! Notes in the order of their ids: the first of an id is found by binary search.

ghost use Rattle.std.specs.Prelude.{◌≡◌, ◌<◌, ◌≤◌, ◌++◌, ◌∷◌, [], length, IfOk};
ghost use Rattle.std.specs.List.Sorted.{IsPartitionPoint};
ghost use Rattle.acl_names.specs.Made.{MakesList};
ghost use Rattle.acl_people.specs.Kept.{AreInOrder, AreSorted, first_place, lowered, without_place};

use crate::places_by_id::Note;
use acl_entry::Id;
use std::alloc::{AllocError, Global};

/// Sorts notes by their ids. Those of one id stay in their order.
pub(crate) fn sorted(mut notes: Vec<Note>) -> Result<Vec<Note>, AllocError>
    ensures { IfOk result (λ new. AreSorted notes.items new.items) }
{
    notes.sort_by_key(|note| note.id.number())?;
    Ok(notes)
}

/// Returns where the notes of greater ids begin.
fn end_of_id(notes: &[Note], id: Id) -> usize
    requires { AreInOrder notes.now }
    ensures within { result ≤ length notes.now }
    ensures end { IsPartitionPoint (λ n. n.id ≤ id) (λ n. id < n.id) notes.now result }
{
    notes.partition_point(|note| note.id.number() <= id.number())
}

/// Copies notes, with a further one after those of its id.
pub(crate) fn with_note(alloc: Global, notes: &[Note], note: Note) -> Result<Vec<Note>, AllocError>
    requires { AreInOrder notes.now }
    ensures { IfOk result (λ new. AreSorted (notes.now ++ note ∷ []) new.items) }
{
    let end = end_of_id(notes, note.id);
    let mut more = Vec::with_capacity(alloc, notes.len() + 1)?;
    more.extend_from_slice(notes)?;
    more.insert(end, note)?;
    Ok(more)
}

/// Returns a note once the name at the place `gone` is removed.
fn lowered(note: Note, gone: usize) -> Note
    ensures { result ≡ lowered gone note }
{
    let place = if gone < note.place {
        note.place - 1
    } else {
        note.place
    };
    Note { id: note.id, place }
}

/// Copies notes without the one of the place `gone`. Those of later places get the places before theirs.
pub(crate) fn without_place(
    alloc: Global,
    notes: &[Note],
    gone: usize,
) -> Result<Vec<Note>, AllocError>
    ensures { MakesList result (without_place gone notes.now) }
{
    let mut others = Vec::with_capacity(alloc, notes.len())?;
    for note in notes {
        if note.place != gone {
            others.push(lowered(*note, gone))?;
        }
    }
    Ok(others)
}

/// Returns the place of the first note of an id.
pub(crate) fn first_of_id(notes: &[Note], id: Id) -> Option<usize>
    requires { AreInOrder notes.now }
    ensures { result ≡ first_place id notes.now }
{
    let at = notes.partition_point(|note| note.id.number() < id.number());
    match notes.get(at) {
        Some(note) => {
            if note.id == id {
                Some(note.place)
            } else {
                None
            }
        }
        None => None,
    }
}
