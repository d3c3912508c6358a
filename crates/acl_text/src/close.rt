//! Records as a whole.

ghost use Rattle.std.specs.Prelude.{◌≡◌, ◌++◌, ◌∷◌, [], Some, OnOk, List, is_some};
ghost use Rattle.acl_text.specs.InTurn.{Gives, GivesAt};
ghost use Rattle.acl_text.specs.Records.{list_of, default_list_of, has_headers, record_with, record_of, close};
ghost use Rattle.acl_text.specs.DumpSeen.{SeenPathsAre};

use crate::draft::RecordDraft;
use crate::fault::{FaultKind, TextFault, Which};
use crate::record::{DumpRecord, DumpUse};
use crate::seen::{Seen, watch};
use crate::shared::Shared;
use acl_entry::{Acl, Entry, ListFault};
use std::alloc::{AllocError, Global};

/// Returns the list of a record's entries, or its fault.
fn list_of(
    alloc: Global,
    at: usize,
    which: Which,
    entries: &[Entry],
) -> Result<Shared<Acl>, TextFault>
    ensures { GivesAt at (λ acl. acl) result (list_of which entries.now) }
{
    match Acl::from_entries(alloc, entries) {
        Ok(acl) => Ok(Shared::new(alloc, acl)?),
        Err(ListFault::NoMemory) => Err(TextFault {
            kind: FaultKind::NoMemory,
            at,
        }),
        Err(fault) => Err(TextFault {
            kind: FaultKind::List(which, fault),
            at,
        }),
    }
}

/// Returns the default list of a record's entries; `None` without entries.
fn default_list_of(
    alloc: Global,
    at: usize,
    entries: &[Entry],
) -> Result<Option<Shared<Acl>>, TextFault>
    ensures { GivesAt at (λ acl. acl) result (default_list_of entries.now) }
{
    if entries.is_empty() {
        return Ok(None);
    }
    Ok(Some(list_of(alloc, at, Which::Default, entries)?))
}

/// Tells whether the record has the headers that its use needs.
fn has_headers(dump_use: DumpUse, draft: &RecordDraft) -> bool
    ensures { result ≡ has_headers dump_use draft.now }
{
    match dump_use {
        DumpUse::Load => draft.owner.is_some() && draft.group.is_some(),
        DumpUse::Restore => true,
    }
}

/// Returns the access list and the default list of a record, or what it lacks as a whole, at its `file:` line.
fn lists_of(
    alloc: Global,
    dump_use: DumpUse,
    draft: &RecordDraft,
) -> Result<(Shared<Acl>, Option<Shared<Acl>>), TextFault>
    ensures { GivesAt draft.now.at (λ lists. record_with draft.now lists.0 lists.1) result (record_of dump_use draft.now) }
{
    let at = draft.at;
    if !has_headers(dump_use, draft) {
        return Err(TextFault {
            kind: FaultKind::MissingHeader,
            at,
        });
    }
    let access = list_of(alloc, at, Which::Access, draft.access.as_slice())?;
    let dacl = default_list_of(alloc, at, draft.dacl.as_slice())?;
    Ok((access, dacl))
}

/// Returns the record that has these lists, and all else of its lines.
fn record_with(draft: RecordDraft, access: Shared<Acl>, dacl: Option<Shared<Acl>>) -> DumpRecord
    ensures { result ≡ record_with draft access dacl }
{
    DumpRecord {
        at: draft.at,
        path: draft.path,
        slash: draft.slash,
        owner: draft.owner,
        group: draft.group,
        flags: draft.flags,
        access,
        dacl,
    }
}

/// Returns the record of all its lines, or what it lacks as a whole, at its `file:` line.
pub(crate) fn record_of(
    alloc: Global,
    dump_use: DumpUse,
    draft: RecordDraft,
) -> Result<DumpRecord, TextFault>
    ensures { GivesAt draft.at (λ r. r) result (record_of dump_use draft) }
{
    let (access, dacl) = lists_of(alloc, dump_use, &draft)?;
    Ok(record_with(draft, access, dacl))
}

/// Adds a record to the others, and its path to `seen`, if that is kept.
fn push_record(
    alloc: Global,
    records: &mut Vec<DumpRecord>,
    seen: &mut Option<Seen>,
    dump_record: DumpRecord,
) -> Result<(), AllocError>
    requires { SeenPathsAre seen.old records.old.items }
    ensures pushed { OnOk result (records.new.items ≡ records.old.items ++ dump_record ∷ []) }
    ensures seen_are { OnOk result (SeenPathsAre seen.new records.new.items) }
    ensures watched { is_some seen.new ≡ is_some seen.old }
{
    watch(alloc, seen, &dump_record.path)?;
    records.push(dump_record)?;
    Ok(())
}

/// Adds the open record, if there is one, to the others.
pub(crate) fn close(
    alloc: Global,
    dump_use: DumpUse,
    records: &mut Vec<DumpRecord>,
    seen: &mut Option<Seen>,
    draft: Option<RecordDraft>,
) -> Result<(), TextFault>
    requires { SeenPathsAre seen.old records.old.items }
    ensures closed { Gives (λ _. records.new.items) result (close dump_use records.old.items draft) }
    ensures seen_are { OnOk result (SeenPathsAre seen.new records.new.items) }
    ensures watched { is_some seen.new ≡ is_some seen.old }
{
    let Some(draft) = draft else {
        return Ok(());
    };
    let record = record_of(alloc, dump_use, draft)?;
    push_record(alloc, records, seen, record)?;
    Ok(())
}
