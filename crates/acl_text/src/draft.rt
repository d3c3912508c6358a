//! An open record: the `# file:` line and the lines after it so far.

ghost use Rattle.std.specs.Prelude.{◌≡◌, ◌++◌, ◌∷◌, [], List, OnOk, is_some};
ghost use Rattle.acl_text.specs.InTurn.{Gives, GivesAt};
ghost use Rattle.acl_text.specs.Records.{has_no_entry, with_entry, with_item, add};
ghost use Rattle.acl_text.specs.Watched.{opened_draft};
ghost use Rattle.acl_text.specs.SameBodies.{content_added};
ghost use Rattle.acl_text.specs.DumpSeen.{SeenPathsAre};
ghost use Rattle.acl_text.specs.declared.record.DumpRecord.{DumpRecord};

use crate::fault::{FaultKind, TextFault};
use crate::item::{Item, bad_header, item_of};
use crate::line::LineKind;
use crate::naming::Names;
use crate::seen::{Seen, is_seen};
use acl_entry::{Entry, Id, Key, Perm};
use acl_names::{Path, read_path};
use std::alloc::{AllocError, Global};
use std::marker::Model;

/// The entries of one list in the order of their lines.
#[derive(Drop)]
pub(crate) struct EntryLines {
    entries: Vec<Entry>,
}

impl Model for EntryLines {
    ghost use Rattle.std.specs.Prelude.{List};
    ghost use Rattle.acl_entry.specs.declared.entry.Entry.{Entry};

    ghost Value = { List Entry };

    ghost view = { λ l. l.entries.items };
}

impl EntryLines {
    fn new(alloc: Global) -> EntryLines
        ensures { result ≡ [] }
    {
        EntryLines {
            entries: Vec::new(alloc),
        }
    }

    fn push(&mut self, key: Key, perm: Perm) -> Result<(), AllocError>
        ensures { OnOk result (self.new ≡ self.old ++ record { key = key; perm = perm } ∷ []) }
    {
        self.entries.push(Entry { key, perm })?;
        Ok(())
    }

    /// Returns the entries in the order of their lines.
    pub(crate) fn as_slice(&self) -> &[Entry]
        ensures { result.now ≡ self.now }
    {
        &self.entries
    }
}

/// A record of which more lines may come.
#[derive(Drop)]
pub(crate) struct RecordDraft {
    pub at: usize,
    pub path: Path,
    pub slash: bool,
    pub owner: Option<Id>,
    pub group: Option<Id>,
    pub flags: Option<[bool; 3]>,
    pub access: EntryLines,
    pub dacl: EntryLines,
}

impl RecordDraft {
    /// Tells whether no line so far was an entry.
    fn has_no_entry(&self) -> bool
        ensures { result ≡ has_no_entry self.now }
    {
        self.access.as_slice().is_empty() && self.dacl.as_slice().is_empty()
    }

    /// Adds the content of a line at a place.
    fn add_item(&mut self, at: usize, item: Item) -> Result<(), TextFault>
        ensures { GivesAt at (λ _. self.new) result (with_item item self.old) }
    {
        match item {
            Item::Owner(id) => {
                if self.owner.is_some() || !self.has_no_entry() {
                    return Err(bad_header(at));
                }
                self.owner = Some(id);
            }
            Item::OwningGroup(id) => {
                if self.group.is_some() || !self.has_no_entry() {
                    return Err(bad_header(at));
                }
                self.group = Some(id);
            }
            Item::Flags(flags) => {
                if self.flags.is_some() || !self.has_no_entry() {
                    return Err(bad_header(at));
                }
                self.flags = Some(flags);
            }
            Item::Entry(dflt, entry) => self.add_entry(dflt, entry)?,
        }
        Ok(())
    }

    /// Adds an entry after the others of its list.
    fn add_entry(&mut self, dflt: bool, entry: Entry) -> Result<(), AllocError>
        ensures { OnOk result (self.new ≡ with_entry dflt entry self.old) }
    {
        if dflt {
            self.dacl.push(entry.key, entry.perm)
        } else {
            self.access.push(entry.key, entry.perm)
        }
    }
}

/// Adds the content of a line to the open record, if there is one.
fn add(draft: &mut Option<RecordDraft>, at: usize, item: Option<Item>) -> Result<(), TextFault>
    ensures { GivesAt at (λ _. draft.new) result (add item draft.old) }
{
    let Some(item) = item else {
        return Ok(());
    };
    match draft {
        None => Err(TextFault {
            kind: FaultKind::MissingHeader,
            at,
        }),
        Some(draft) => draft.add_item(at, item),
    }
}

/// Adds a line of this content, which begins no record, to the open record, if there is one. Nothing else calls
/// what it calls, so that is inlined here.
#[inline(never)]
pub(crate) fn add_content<N: Names>(
    alloc: Global,
    names: &N,
    draft: &mut Option<RecordDraft>,
    at: usize,
    content: (LineKind, &[u8]),
) -> Result<(), TextFault>
    ensures { Gives (λ _. draft.new) result (content_added (N.naming names.now) draft.old at content.entry.0 content.entry.1.now) }
{
    let item = item_of(alloc, names, at, content.0, content.1)?;
    add(draft, at, item)
}

/// Opens the record that a `file:` line of this value begins. If `seen` is kept, no earlier record may have its path.
pub(crate) fn open_record(
    alloc: Global,
    seen: &Option<Seen>,
    at: usize,
    value: &[u8],
) -> Result<RecordDraft, TextFault>
    ensures { (records : List DumpRecord) → SeenPathsAre seen.now records
        → GivesAt at (λ draft. draft) result (opened_draft (is_some seen.now) records at value.now) }
{
    if value.is_empty() {
        return Err(bad_header(at));
    }
    let Some(path) = read_path(alloc, value)? else {
        return Err(TextFault {
            kind: FaultKind::BadPath,
            at,
        });
    };
    if is_seen(alloc, seen, &path)? {
        return Err(TextFault {
            kind: FaultKind::RepeatedFile,
            at,
        });
    }
    Ok(RecordDraft {
        at,
        path,
        slash: value.ends_with(b"/"),
        owner: None,
        group: None,
        flags: None,
        access: EntryLines::new(alloc),
        dacl: EntryLines::new(alloc),
    })
}
