//! Names with their ids, looked up by name and by id; and the hashes of names, keyed by all the names of a table.

ghost use Rattle.std.specs.Prelude.{◌≡◌, ◌++◌, ◌∷◌, [], ℕ, ◌||◌, not, true, false, if◌then◌else◌, map, position, None, IfOk, OnOk, option_map, slice_get, List};
ghost use Rattle.std.specs.List.{remove};
ghost use Rattle.std.specs.Option.{option_copied};
ghost use Rattle.acl_text.specs.Ids.{is_number};
ghost use Rattle.acl_people.specs.NameTables.{is_name, is_id, prints, id_named, name_shown, place_of_word, AreNames, IsPlaceIn};
ghost use Rattle.acl_people.specs.Hashes.{keyed};
ghost use Rattle.acl_people.specs.Kept.{named_in, has_note, notes_of, AreInOrder, AreSorted};
ghost use Rattle.acl_names.specs.Made.{Makes, MakesOne, MakesList};

use crate::places_by_id::Note;
use crate::sorted_notes::{first_of_id, sorted, with_note, without_place};
use acl_entry::Id;
use acl_text::{is_number, read_id};
use indexmap::IndexMap;
use sha2::{Digest, Sha256};
use std::alloc::{AllocError, Global};
use std::hash::{BuildHasher, DefaultHasher, Hasher};
use std::marker::Model;
use std::rc::Rc;

/// The most names that are added under one key of the hashes. Who knows the names of a table knows its key, and can
/// choose names to add that collide: a look-up then compares a name with this number of names. A new key takes a pass
/// over all names.
const MOST_ADDED: usize = 64;

/// Names in the order of their rows, each once, with their ids.
type Names = IndexMap<Vec<u8>, Id, NameHashes>;

/// Names with their ids. The places of all names, and of those that are not digits alone, are kept beside them in the
/// order of the ids.
#[derive(Drop)]
pub(crate) struct NameTable {
    names: Names,
    /// How many names were added since the key of the hashes was made.
    added: usize,
    by_id: Vec<Note>,
    shown: Vec<Note>,
}

impl Model for NameTable {
    ghost Value = { List (List ℕ × ℕ) };

    ghost view = { λ t. named_in t.names.entries };

    ghost invariant = { λ t.
        AreSorted (notes_of true (named_in t.names.entries)) t.by_id.items × AreSorted (notes_of false (named_in t.names.entries)) t.shown.items };
}

/// Adds a name, which is not among them, with its id.
fn add(alloc: Global, names: &mut Names, name: &[u8], id: Id) -> Result<(), AllocError>
    requires { position (is_name name.now) (named_in names.old.entries) ≡ None }
    ensures { OnOk result (named_in names.new.entries ≡ named_in names.old.entries ++ (name.now, id) ∷ []) }
{
    names.insert(Vec::from_slice(alloc, name)?, id)?;
    Ok(())
}

/// Returns the names of the rows, hashed with a key that all of them make.
fn names_of<R: NamedRow>(alloc: Global, rows: &[R]) -> Result<Names, AllocError>
    requires { AreNames (map R.named rows.now) }
    ensures { IfOk result (λ names. named_in names.entries ≡ map R.named rows.now) }
{
    let mut names = IndexMap::with_capacity_and_hasher(alloc, rows.len(), NameHashes::of(rows))?;
    for row in rows {
        add(alloc, &mut names, row.name(), row.id())?;
    }
    Ok(names)
}

/// Copies names, and the key of their hashes.
fn copied(names: &Names) -> Result<Names, AllocError>
    ensures { IfOk result (λ copy. named_in copy.entries ≡ named_in names.now.entries) }
{
    let copy = names.clone()?;
    Ok(copy)
}

/// Copies names, with a further one, which is not among them, the last.
fn with_name(alloc: Global, names: &Names, name: &[u8], id: Id) -> Result<Names, AllocError>
    requires { position (is_name name.now) (named_in names.now.entries) ≡ None }
    ensures { IfOk result (λ more. named_in more.entries ≡ named_in names.now.entries ++ (name.now, id) ∷ []) }
{
    let mut more = copied(names)?;
    add(alloc, &mut more, name, id)?;
    Ok(more)
}

/// Tells whether a name's place is noted: that of one of digits alone only if `digits`.
fn has_note(digits: bool, name: &[u8]) -> bool
    ensures { result ≡ (digits || not (is_number name.now)) }
{
    digits || !is_number(name)
}

/// Adds the note of a name, if it has one.
fn push_note(notes: &mut Vec<Note>, digits: bool, name: &[u8], note: Note) -> Result<(), AllocError>
    ensures { OnOk result (notes.new.items ≡ notes.old.items ++ (if has_note digits (name.now, note.id) then note ∷ [] else [])) }
{
    if has_note(digits, name) {
        notes.push(note)?;
    }
    Ok(())
}

/// Notes the place of each row for its id, where its name has a note.
fn notes_of<R: NamedRow>(alloc: Global, digits: bool, rows: &[R]) -> Result<Vec<Note>, AllocError>
    ensures { MakesList result (notes_of digits (map R.named rows.now)) }
{
    let mut notes = Vec::with_capacity(alloc, rows.len())?;
    for (place, row) in rows.iter().enumerate() {
        let note = Note {
            id: row.id(),
            place,
        };
        push_note(&mut notes, digits, row.name(), note)?;
    }
    Ok(notes)
}

/// Copies notes, with the note of a further name after those of its id, if it has one.
fn noted(
    alloc: Global,
    notes: &[Note],
    digits: bool,
    name: &[u8],
    note: Note,
) -> Result<Vec<Note>, AllocError>
    requires { AreInOrder notes.now }
    ensures { IfOk result (λ new. AreSorted (notes.now ++ (if has_note digits (name.now, note.id) then note ∷ [] else [])) new.items) }
{
    if has_note(digits, name) {
        return with_note(alloc, notes, note);
    }
    let copy = Vec::from_slice(alloc, notes)?;
    Ok(copy)
}

impl NameTable {
    /// Indexes the names of the rows, hashed with a key that all of them make.
    fn of<R: NamedRow>(alloc: Global, rows: &[R]) -> Result<NameTable, AllocError>
        requires { AreNames (map R.named rows.now) }
        ensures { Makes result (map R.named rows.now) }
    {
        let by_id = sorted(notes_of(alloc, true, rows)?)?;
        let shown = sorted(notes_of(alloc, false, rows)?)?;
        let names = names_of(alloc, rows)?;
        Ok(NameTable {
            names,
            added: 0,
            by_id,
            shown,
        })
    }

    /// Indexes the names of the rows, for those that share them.
    pub fn shared<R: NamedRow>(alloc: Global, rows: &[R]) -> Result<Rc<NameTable>, AllocError>
        requires { AreNames (map R.named rows.now) }
        ensures { MakesOne result (map R.named rows.now) }
    {
        let name_table = NameTable::of(alloc, rows)?;
        Ok(Rc::new(alloc, name_table)?)
    }

    /// Copies the table, with a further name, which is not among them, the last.
    fn with(&self, alloc: Global, name: &[u8], id: Id) -> Result<NameTable, AllocError>
        requires { position (is_name name.now) self.now ≡ None }
        ensures { Makes result (self.now ++ (name.now, id) ∷ []) }
    {
        let place = self.names.len();
        let by_id = noted(alloc, &self.by_id, true, name, Note { id, place })?;
        let shown = noted(alloc, &self.shown, false, name, Note { id, place })?;
        let names = with_name(alloc, &self.names, name, id)?;
        Ok(NameTable {
            names,
            added: self.added.saturating_add(1),
            by_id,
            shown,
        })
    }

    /// Indexes the names of the rows: those of this table, and that of `row`, the last.
    pub fn with_row<R: NamedRow>(
        &self,
        alloc: Global,
        rows: &[R],
        row: &R,
    ) -> Result<Rc<NameTable>, AllocError>
        requires names { AreNames (map R.named rows.now) }
        requires added { map R.named rows.now ≡ self.now ++ R.named row.now ∷ [] }
        ensures { MakesOne result (map R.named rows.now) }
    {
        if self.added >= MOST_ADDED {
            return NameTable::shared(alloc, rows);
        }
        let name_table = self.with(alloc, row.name(), row.id())?;
        Ok(Rc::new(alloc, name_table)?)
    }

    /// Copies the table without the name at a place.
    pub fn without(&self, alloc: Global, at: usize) -> Result<NameTable, AllocError>
        ensures { Makes result (remove self.now at) }
    {
        let by_id = without_place(alloc, &self.by_id, at)?;
        let shown = without_place(alloc, &self.shown, at)?;
        let mut names = copied(&self.names)?;
        let _gone = names.shift_remove_index(at);
        Ok(NameTable {
            names,
            added: self.added,
            by_id,
            shown,
        })
    }

    /// Returns the place of a name.
    pub fn place_of_name(&self, name: &[u8]) -> Option<usize>
        ensures { result ≡ position (is_name name.now) self.now }
    {
        self.names.get_index_of(name)
    }

    /// Returns the first place of an id.
    pub fn place_of_id(&self, id: Id) -> Option<usize>
        ensures { result ≡ position (is_id id) self.now }
    {
        first_of_id(&self.by_id, id)
    }

    /// Returns the place that a word means: digits alone are an id, any other word is a name.
    pub fn place_of_word(&self, word: &[u8]) -> Option<usize>
        ensures found { result ≡ place_of_word word.now self.now }
        ensures within { IsPlaceIn self.now result }
    {
        if is_number(word) {
            match read_id(word) {
                Some(id) => self.place_of_id(id),
                None => None,
            }
        } else {
            self.place_of_name(word)
        }
    }

    fn id_at(&self, place: usize) -> Option<Id>
        ensures { result ≡ option_map (λ e. e.1) (slice_get self.now place) }
    {
        match self.names.get_index(place) {
            Some((_, id)) => Some(*id),
            None => None,
        }
    }

    fn name_at(&self, place: usize) -> Option<&[u8]>
        ensures { option_copied result ≡ option_map (λ e. e.0) (slice_get self.now place) }
    {
        match self.names.get_index(place) {
            Some((name, _)) => Some(name),
            None => None,
        }
    }

    /// Returns the id of a name.
    pub fn id_named(&self, name: &[u8]) -> Option<Id>
        ensures { result ≡ id_named name.now self.now }
    {
        let place = self.place_of_name(name)?;
        self.id_at(place)
    }

    /// Returns the place of the name that an id prints as.
    fn place_shown(&self, id: Id) -> Option<usize>
        ensures { result ≡ position (prints id) self.now }
    {
        first_of_id(&self.shown, id)
    }

    /// Returns the name that an id prints as.
    pub fn name_shown(&self, id: Id) -> Option<&[u8]>
        ensures { option_copied result ≡ name_shown id self.now }
    {
        let place = self.place_shown(id)?;
        self.name_at(place)
    }
}

/// A row with a name and an id.
pub(crate) trait NamedRow {
    /// The name and the id.
    ghost named: { Self → List ℕ × ℕ };

    fn name(&self) -> &[u8]
        ensures { result.now ≡ (named self.now).0 };

    fn id(&self) -> Id
        ensures { result ≡ (named self.now).1 };
}

/// Hashes names: SipHash, keyed by the SHA-256 digest of all names that a table was made of. So names of these that are
/// to collide would have to be found for a key that each of them changes.
#[derive(Clone, Copy)]
pub(crate) struct NameHashes {
    start: DefaultHasher,
}

impl NameHashes {
    /// Keys the hashes by the names of these rows. A colon, which no name has, goes after each name into the digest,
    /// so that names that are cut in other places have another one.
    pub fn of<R: NamedRow>(rows: &[R]) -> NameHashes
        ensures { result.start ≡ keyed (map R.named rows.now) }
    {
        let mut digest = Sha256::new();
        for row in rows {
            digest.update(row.name());
            digest.update(b":");
        }
        let key = digest.finalize();
        let mut start = DefaultHasher::new();
        start.write(&key);
        NameHashes { start }
    }
}

impl BuildHasher for NameHashes {
    type Hasher = DefaultHasher;

    ghost build_hasher = { λ hashes. hashes.start };

    fn build_hasher(&self) -> DefaultHasher {
        self.start
    }
}
