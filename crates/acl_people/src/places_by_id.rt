//! For each id, or group, the places of its users, in lists that copies share.

ghost use Rattle.std.specs.Prelude.{◌≡◌, ◌==◌, ◌&&◌, ◌≤◌, ◌++◌, [], not, if◌then◌else◌, map, filter, take, length, IfOk, OnOk};
ghost use Rattle.std.specs.List.{All};
ghost use Rattle.acl_entry.specs.Mentions.{is_one_of};
ghost use Rattle.acl_names.specs.Made.{values, MakesList};
ghost use Rattle.acl_people.specs.Places.{noted_for, is_noted, has_id, is_in, for_id, for_groups, for_others, AreListed, ArePlaces, AreNotes, AddsNotes, Notes, Forgets, Moves};

use acl_entry::{Id, Subject};
use std::alloc::{AllocError, Global};
use std::collections::BTreeMap;
use std::rc::Rc;

/// A place to be listed for an id.
#[derive(Clone, Copy)]
pub(crate) struct Note {
    pub id: Id,
    pub place: usize,
}

/// For each id the places of its users.
#[derive(Drop)]
pub(crate) struct PlacesById {
    lists: BTreeMap<Id, Rc<Vec<usize>>>,
}

/// Counts the notes before the first of another id.
fn count_of(notes: &[Note], id: Id) -> usize
    ensures most { result ≤ length notes.now }
    ensures all { All (λ n. n.id ≡ id) (take result notes.now) }
{
    for at in 0..notes.len() {
        if notes[at].id != id {
            return at;
        }
    }
    notes.len()
}

/// Joins places and those of notes.
fn joined(alloc: Global, places: &[usize], notes: &[Note]) -> Result<Vec<usize>, AllocError>
    ensures { MakesList result (places.now ++ map (λ n. n.place) notes.now) }
{
    let mut all = Vec::with_capacity(alloc, places.len() + notes.len())?;
    all.extend_from_slice(places)?;
    for note in notes {
        all.push(note.place)?;
    }
    Ok(all)
}

/// Removes a place.
fn without(alloc: Global, places: &[usize], place: usize) -> Result<Vec<usize>, AllocError>
    ensures { MakesList result (filter (λ x. not (x == place)) places.now) }
{
    let mut others = Vec::new(alloc);
    for other in places {
        if *other != place {
            others.push(*other)?;
        }
    }
    Ok(others)
}

impl PlacesById {
    fn new(alloc: Global) -> PlacesById
        ensures { AreListed result (λ _. []) }
    {
        PlacesById {
            lists: BTreeMap::new(alloc),
        }
    }

    /// Copies the map; both share the lists.
    pub fn copy(&self) -> Result<PlacesById, AllocError>
        ensures { IfOk result (λ copy. AreListed copy (noted_for self.now)) }
    {
        Ok(PlacesById {
            lists: self.lists.clone()?,
        })
    }

    /// Returns the places of an id.
    pub fn get(&self, id: Id) -> &[usize]
        ensures { result.now ≡ noted_for self.now id }
    {
        match self.lists.get(&id) {
            Some(places) => places,
            None => &[],
        }
    }

    /// Replaces the places of an id.
    fn put(&mut self, alloc: Global, id: Id, places: Vec<usize>) -> Result<(), AllocError>
        ensures { OnOk result (AreListed self.new (λ q. if id == q then places.items else noted_for self.old q)) }
    {
        let places = Rc::new(alloc, places)?;
        self.lists.insert(id, places)?;
        Ok(())
    }

    /// Adds the places of some notes to an id.
    fn add_all(&mut self, alloc: Global, id: Id, notes: &[Note]) -> Result<(), AllocError>
        ensures { OnOk result (Notes self.old self.new (λ q at. (id == q) && is_one_of at (map (λ n. n.place) notes.now))) }
    {
        let places = joined(alloc, self.get(id), notes)?;
        self.put(alloc, id, places)?;
        Ok(())
    }

    /// Adds a place to an id.
    pub fn add(&mut self, alloc: Global, id: Id, place: usize) -> Result<(), AllocError>
        ensures { OnOk result (Notes self.old self.new (for_id id place)) }
    {
        self.add_all(alloc, id, &[Note { id, place }])?;
        Ok(())
    }

    /// Removes a place from an id.
    pub fn remove(&mut self, alloc: Global, id: Id, place: usize) -> Result<(), AllocError>
        ensures { OnOk result (Forgets self.old self.new (for_id id place)) }
    {
        let places = without(alloc, self.get(id), place)?;
        self.put(alloc, id, places)?;
        Ok(())
    }

    /// Lists the places of notes by their ids.
    ///
    /// The notes are sorted by their ids first, so that the list of an id is made at once.
    pub fn of(alloc: Global, mut notes: Vec<Note>) -> Result<PlacesById, AllocError>
        ensures { IfOk result (λ noted. ArePlaces noted (λ id at. is_noted id at notes.items)) }
    {
        notes.sort_unstable_by_key(|note| note.id);
        let mut noted = PlacesById::new(alloc);
        let mut rest = notes.as_slice();
        while let Some((first, others)) = rest.split_first() {
            let count = count_of(others, first.id);
            noted.add_all(alloc, first.id, &rest[..count + 1])?;
            rest = &others[count..];
        }
        Ok(noted)
    }
}

/// Adds a note of a place for each of `groups`.
fn note_groups(notes: &mut Vec<Note>, groups: &[Id], place: usize) -> Result<(), AllocError>
    ensures { OnOk result (AddsNotes notes.old.items notes.new.items groups.now place) }
{
    for group in groups {
        notes.push(Note { id: *group, place })?;
    }
    Ok(())
}

/// Makes a note of each user's place for the user's id.
pub(crate) fn notes_by_id(alloc: Global, users: &[Rc<Subject>]) -> Result<Vec<Note>, AllocError>
    ensures { IfOk result (λ notes. AreNotes has_id (values users.now) notes.items) }
{
    let mut notes = Vec::with_capacity(alloc, users.len())?;
    for (place, user) in users.iter().enumerate() {
        notes.push(Note {
            id: user.uid(),
            place,
        })?;
    }
    Ok(notes)
}

/// Makes notes of each user's place for the user's groups.
pub(crate) fn notes_by_group(alloc: Global, users: &[Rc<Subject>]) -> Result<Vec<Note>, AllocError>
    ensures { IfOk result (λ notes. AreNotes is_in (values users.now) notes.items) }
{
    let mut notes = Vec::new(alloc);
    for (place, user) in users.iter().enumerate() {
        note_groups(&mut notes, user.groups(), place)?;
    }
    Ok(notes)
}

/// Removes a place from the groups of a user that another user is not in.
fn leave(
    alloc: Global,
    noted: &mut PlacesById,
    place: usize,
    user: &Subject,
    other: &Subject,
) -> Result<(), AllocError>
    ensures { OnOk result (Forgets noted.old noted.new (for_others user.now other.now place)) }
{
    for group in user.groups() {
        if !other.is_of(*group) {
            noted.remove(alloc, *group, place)?;
        }
    }
    Ok(())
}

/// Adds a place to the groups of a user that another user is not in.
fn join(
    alloc: Global,
    noted: &mut PlacesById,
    place: usize,
    user: &Subject,
    other: &Subject,
) -> Result<(), AllocError>
    ensures { OnOk result (Notes noted.old noted.new (for_others user.now other.now place)) }
{
    for group in user.groups() {
        if !other.is_of(*group) {
            noted.add(alloc, *group, place)?;
        }
    }
    Ok(())
}

/// Replaces the user at a place: only the lists of the groups that one of the two is in and the other is not are
/// copied.
pub(crate) fn moved(
    alloc: Global,
    noted: &PlacesById,
    place: usize,
    old: &Subject,
    new: &Subject,
) -> Result<PlacesById, AllocError>
    ensures { IfOk result (λ after. Moves noted.now after place old.now new.now) }
{
    let mut after = noted.copy()?;
    leave(alloc, &mut after, place, old, new)?;
    join(alloc, &mut after, place, new, old)?;
    Ok(after)
}

/// Adds the place of a further user to the user's groups.
pub(crate) fn joined_by(
    alloc: Global,
    noted: &PlacesById,
    place: usize,
    user: &Subject,
) -> Result<PlacesById, AllocError>
    ensures { IfOk result (λ after. Notes noted.now after (for_groups user.now place)) }
{
    let mut after = noted.copy()?;
    for group in user.groups() {
        after.add(alloc, *group, place)?;
    }
    Ok(after)
}
