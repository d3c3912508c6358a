//! Reads a dump without a fault: a body that comes again is mostly read once.

ghost use Rattle.std.specs.Prelude.{◌≡◌, ◌+◌, ◌^◌, ◌<◌, ◌≤◌, ◌++◌, ◌∷◌, ℕ, List, [], None, Ok, false, IfOk, OnOk, length, slice_index_or};
ghost use Rattle.acl_text.specs.InTurn.{Gives};
ghost use Rattle.acl_text.specs.declared.record.DumpRecord.{DumpRecord};
ghost use Rattle.acl_text.specs.declared.record.DumpUse.{DumpUse};
ghost use Rattle.acl_text.specs.Records.{lines_of};
ghost use Rattle.acl_text.specs.Watched as watched;
ghost use Rattle.acl_text.specs.SameBodies.{IsBody, Says, opened, moved, added, closed, rest_of, rest_if, ReadsTo, Ends};
ghost use Rattle.acl_text.specs.KnownBodies.{AreKnown};

use crate::bodies::{Bodies, Known, mark_of};
use crate::body::{Body, first_body};
use crate::close::{close, record_of};
use crate::draft::{RecordDraft, add_content, open_record};
use crate::fault::{FaultKind, TextFault};
use crate::item::bad_header;
use crate::line::{LineKind, content_of};
use crate::naming::Names;
use crate::record::{DumpReading, DumpRecord};
use crate::shared::Shared;
use acl_entry::Acl;
use acl_names::cut::{cut, first_piece};
use std::alloc::{AllocError, Global};

/// Reads the records of a dump, whether or not their paths are apart. If the dump has a fault, some fault is
/// returned, which need not be the first.
pub(crate) fn read_known<N: Names>(
    alloc: Global,
    bytes: &[u8],
    reading: &DumpReading<'_, N>,
) -> Result<Vec<DumpRecord>, TextFault>
    ensures { IfOk result (λ records. watched.stream (N.naming reading.now.names.now) false reading.now.dump_use [] None (lines_of bytes.now) ≡ Ok records.items) }
{
    let mut records = Vec::new(alloc);
    let mut bodies = Bodies::new(alloc, bytes.len())?;
    let mut rest = bytes;
    let mut at = 1;
    while !rest.is_empty() {
        let (lines, after) = read_next(reading, &mut bodies, &mut records, at, rest)?;
        at += lines;
        rest = after;
    }
    Ok(records)
}

/// Reads the record that begins at a line of a dump, or a line that is empty or a comment. Returns the number of
/// lines read, and the rest of the text.
fn read_next<'a, N: Names>(
    reading: &DumpReading<'_, N>,
    bodies: &mut Bodies<'a>,
    records: &mut Vec<DumpRecord>,
    at: usize,
    rest: &'a [u8],
) -> Result<(usize, &'a [u8]), TextFault>
    requires fits { at + length rest.now < 2 ^ 64 }
    requires known { AreKnown (N.naming reading.now.names.now) reading.now.dump_use records.old.items bodies.old }
    ensures read { IfOk result (λ next. rest_of (N.naming reading.now.names.now) reading.now.dump_use records.old.items at rest.now ≡ rest_of (N.naming reading.now.names.now) reading.now.dump_use records.new.items (at + next.0) next.1.now) }
    ensures fits { IfOk result (λ next. next.0 + length next.1.now ≤ length rest.now) }
    ensures shorter { IfOk result (λ next. length next.1.now < length rest.now) }
    ensures known { OnOk result (AreKnown (N.naming reading.now.names.now) reading.now.dump_use records.new.items bodies.new) }
{
    // A record of this line alone has no list.
    let Some((line, text)) = cut(rest, b'\n') else {
        return Err(bad_header(at));
    };
    let (kind, value) = content_of(line);
    match kind {
        LineKind::File => {
            let draft = open_record(*records.allocator(), &None, at, value)?;
            let (lines, after) = read_lines(reading, bodies, records, draft, text)?;
            Ok((lines + 1, after))
        }
        LineKind::Nothing => Ok((1, text)),
        _ => Err(TextFault {
            kind: FaultKind::MissingHeader,
            at,
        }),
    }
}

/// Reads the lines of a text that belong to the open record, and closes it.
fn read_lines<'a, N: Names>(
    reading: &DumpReading<'_, N>,
    bodies: &mut Bodies<'a>,
    records: &mut Vec<DumpRecord>,
    draft: RecordDraft,
    text: &'a [u8],
) -> Result<(usize, &'a [u8]), TextFault>
    requires known { AreKnown (N.naming reading.now.names.now) reading.now.dump_use records.old.items bodies.old }
    requires opened { draft ≡ opened draft.at draft.path draft.slash }
    ensures read { IfOk result (λ next. ReadsTo (N.naming reading.now.names.now) reading.now.dump_use records.old.items draft text.now records.new.items next.0 next.1.now) }
    ensures fits { IfOk result (λ next. next.0 + length next.1.now ≤ length text.now) }
    ensures known { OnOk result (AreKnown (N.naming reading.now.names.now) reading.now.dump_use records.new.items bodies.new) }
{
    if let Some((known, after)) = bodies.first_known(text) {
        bodies.missed = 0;
        push_like(records, known.place, draft)?;
        return Ok((known.body.lines, after));
    }
    if bodies.is_next_looked_for() {
        if let Some((body, after)) = first_body(text) {
            read_body(reading, bodies, records, draft, body)?;
            return Ok((body.lines, after));
        }
    }
    read_alone(reading, records, draft, text)
}

/// Reads the lines of a text that belong to the open record, and closes it. Other records are not looked up.
fn read_alone<'a, N: Names>(
    reading: &DumpReading<'_, N>,
    records: &mut Vec<DumpRecord>,
    draft: RecordDraft,
    text: &'a [u8],
) -> Result<(usize, &'a [u8]), TextFault>
    ensures read { IfOk result (λ next. ReadsTo (N.naming reading.now.names.now) reading.now.dump_use records.old.items draft text.now records.new.items next.0 next.1.now) }
    ensures fits { IfOk result (λ next. next.0 + length next.1.now ≤ length text.now) }
    ensures more { OnOk result ((more : List DumpRecord) × (records.new.items ≡ records.old.items ++ more)) }
{
    let alloc = *records.allocator();
    let mut open = Some(draft);
    let (lines, after) = add_record(alloc, reading.names, &mut open, text)?;
    close(alloc, reading.dump_use, records, &mut None, open)?;
    Ok((lines, after))
}

/// Adds the lines of a text before the first that begins a record to the open record. Returns their number, and the
/// rest of the text.
fn add_record<'a, N: Names>(
    alloc: Global,
    names: &N,
    draft: &mut Option<RecordDraft>,
    text: &'a [u8],
) -> Result<(usize, &'a [u8]), TextFault>
    ensures read { IfOk result (λ next. (dump_use : DumpUse) (records : List DumpRecord) (at : ℕ) →
        rest_if (N.naming names.now) dump_use records draft.old at text.now ≡ rest_if (N.naming names.now) dump_use records draft.new (at + next.0) next.1.now) }
    ensures fits { IfOk result (λ next. next.0 + length next.1.now ≤ length text.now) }
    ensures ends { IfOk result (λ next. Ends next.1.now) }
{
    let mut rest = text;
    let mut lines = 0;
    'each: while !rest.is_empty() {
        let (line, after) = first_piece(rest, b'\n');
        let (kind, value) = content_of(line);
        match kind {
            LineKind::File => return Ok((lines, rest)),
            _ => add_content(alloc, names, draft, lines, (kind, value))?,
        }
        lines += 1;
        rest = after;
    }
    Ok((lines, rest))
}

/// Reads a body as that of the open record, and closes it.
fn read_body<'a, N: Names>(
    reading: &DumpReading<'_, N>,
    bodies: &mut Bodies<'a>,
    records: &mut Vec<DumpRecord>,
    draft: RecordDraft,
    body: Body<'a>,
) -> Result<(), TextFault>
    requires known { AreKnown (N.naming reading.now.names.now) reading.now.dump_use records.old.items bodies.old }
    requires opened { draft ≡ opened draft.at draft.path draft.slash }
    requires body { IsBody body.bytes.now body.lines }
    ensures closed { OnOk result ((from : ℕ) → closed (N.naming reading.now.names.now) reading.now.dump_use records.old.items draft from body.entry.bytes.now ≡ Ok records.new.items) }
    ensures known { OnOk result (AreKnown (N.naming reading.now.names.now) reading.now.dump_use records.new.items bodies.new) }
{
    let mark = mark_of(body.bytes);
    if let Some(known) = bodies.find(mark, body.bytes) {
        push_like(records, known.place, draft)?;
        return Ok(());
    }
    let place = records.len();
    let record = record_in(*records.allocator(), reading, draft, body.bytes)?;
    records.push(record)?;
    bodies.keep(Known { body, mark, place });
    Ok(())
}

/// Adds a record that shares all but its `# file:` line with the one at a place.
fn push_like(
    records: &mut Vec<DumpRecord>,
    place: usize,
    draft: RecordDraft,
) -> Result<(), AllocError>
    requires { place < length records.old.items }
    ensures { OnOk result ((other : DumpRecord) → records.new.items ≡ records.old.items ++ moved draft.at draft.path draft.slash (slice_index_or records.old.items place other) ∷ []) }
{
    let record = record_like(&records[place], draft)?;
    records.push(record)?;
    Ok(())
}

/// Returns the record of a `# file:` line that shares all else with another.
fn record_like(other: &DumpRecord, draft: RecordDraft) -> Result<DumpRecord, AllocError>
    ensures { IfOk result (λ r. r ≡ moved draft.at draft.path draft.slash other.now) }
{
    let access = other.access.share()?;
    let dacl = share_if(&other.dacl)?;
    Ok(DumpRecord {
        at: draft.at,
        path: draft.path,
        slash: draft.slash,
        owner: other.owner,
        group: other.group,
        flags: other.flags,
        access,
        dacl,
    })
}

/// Shares a list, if there is one.
fn share_if(acl: &Option<Shared<Acl>>) -> Result<Option<Shared<Acl>>, AllocError>
    ensures { IfOk result (λ same. same ≡ acl.now) }
{
    match acl {
        None => Ok(None),
        Some(acl) => Ok(Some(acl.share()?)),
    }
}

/// Returns the record of an open record and the lines of a text, which are all its other lines.
fn record_in<N: Names>(
    alloc: Global,
    reading: &DumpReading<'_, N>,
    draft: RecordDraft,
    text: &[u8],
) -> Result<DumpRecord, TextFault>
    requires { draft ≡ opened draft.at draft.path draft.slash }
    ensures { IfOk result (λ r. Says (N.naming reading.now.names.now) reading.now.dump_use text.now r × (r ≡ moved draft.at draft.path draft.slash r)) }
{
    let mut open = Some(draft);
    add_lines(alloc, reading.names, &mut open, text)?;
    match open {
        Some(draft) => Ok(record_of(alloc, reading.dump_use, draft)?),
        // Lines close no record.
        None => Err(bad_header(0)),
    }
}

/// Adds the lines of a text to the open record.
fn add_lines<N: Names>(
    alloc: Global,
    names: &N,
    draft: &mut Option<RecordDraft>,
    text: &[u8],
) -> Result<(), TextFault>
    ensures { Gives (λ _. draft.new) result (added (N.naming names.now) draft.old 1 text.now) }
{
    let mut rest = text;
    let mut at = 0;
    while !rest.is_empty() {
        at += 1;
        let (line, after) = first_piece(rest, b'\n');
        let (kind, value) = content_of(line);
        add_content(alloc, names, draft, at, (kind, value))?;
        rest = after;
    }
    Ok(())
}
