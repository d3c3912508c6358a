//! Reading dumps.

ghost use Rattle.std.specs.Prelude.{◌≡◌, [], OnOk, IfOk, None, true, is_some};
ghost use Rattle.acl_text.specs.InTurn.{Gives};
ghost use Rattle.acl_text.specs.Records.{lines_of, line_in, begins, close, dump_of};
ghost use Rattle.acl_text.specs.Watched as watched;
ghost use Rattle.acl_text.specs.Groups.{stepped};
ghost use Rattle.acl_text.specs.DumpSeen.{SeenPathsAre};
ghost use Rattle.acl_text.specs.OwnPaths.{have_own_paths};

use crate::apart::are_apart;
use crate::close::close;
use crate::draft::{RecordDraft, add_content, open_record};
use crate::fault::{FaultKind, TextFault};
use crate::known::read_known;
use crate::line::{LineKind, content_of};
use crate::naming::Names;
use crate::record::{DumpReading, DumpRecord, DumpUse};
use crate::seen::Seen;
use acl_names::cut::first_piece;
use std::alloc::Global;

/// Returns the records of a dump, in their order: what getfacl(1) writes and setfacl(1) --restore reads.
///
/// A line is, after white space, a header `# file:`, `# owner:`, `# group:` or `# flags:`, or a comment, or empty, or
/// an entry as setfacl(1) takes it, without `X`. `# file:` begins a record; its other headers come once and before
/// its entries. Lines count from 1.
///
/// # Errors
///
/// The first faulty record's fault. It is the first faulty line of the record and there the first kind that applies
/// of: an entry's, `UnknownUser` and `UnknownGroup`, `BadHeader` (an empty value, flags that are not valid, a header
/// that comes twice or after an entry), `MissingHeader` (before the first `# file:`), `BadPath`, and `RepeatedFile`.
/// The fault of a record whose lines have none is at its `# file:` line: `MissingHeader` if it is loaded and has
/// no owner or no group, else `List` of its access list, else of its default list, whose places count the record's
/// entries of that list. Or `NoMemory`.
///
/// The records that are returned have different paths.
pub fn read_dump<N: Names>(
    alloc: Global,
    bytes: &[u8],
    dump_use: DumpUse,
    names: &N,
) -> Result<Vec<DumpRecord>, TextFault>
    ensures made { Gives (λ records. records.items) result (dump_of (N.naming names.now) dump_use bytes.now) }
    ensures apart { IfOk result (λ records. have_own_paths records.items ≡ true) }
{
    // A dump without a fault needs no set of paths: they are compared once all are known.
    let reading = DumpReading { dump_use, names };
    match read_known(alloc, bytes, &reading) {
        Ok(records) => {
            if are_apart(alloc, &records)? {
                return Ok(records);
            }
        }
        Err(fault) => {
            if matches!(fault.kind, FaultKind::NoMemory) {
                return Err(fault);
            }
        }
    }
    // Which fault is the first, a repeated path or another, is found by reading the dump again, line by line.
    read_stream(alloc, bytes, &reading, Some(Seen::new(alloc)))
}

/// Reads the records of a dump. A repeated path is a fault only if paths are kept in `seen`, which starts empty.
fn read_stream<N: Names>(
    alloc: Global,
    bytes: &[u8],
    reading: &DumpReading<'_, N>,
    mut seen: Option<Seen>,
) -> Result<Vec<DumpRecord>, TextFault>
    requires { SeenPathsAre seen [] }
    ensures { Gives (λ records. records.items) result (watched.stream (N.naming reading.now.names.now) (is_some seen) reading.now.dump_use [] None (lines_of bytes.now)) }
{
    let mut records = Vec::new(alloc);
    read_lines(bytes, reading, &mut records, &mut seen)?;
    Ok(records)
}

fn read_lines<N: Names>(
    bytes: &[u8],
    reading: &DumpReading<'_, N>,
    records: &mut Vec<DumpRecord>,
    seen: &mut Option<Seen>,
) -> Result<(), TextFault>
    requires { SeenPathsAre seen.old records.old.items }
    ensures { Gives (λ _. records.new.items) result (watched.stream (N.naming reading.now.names.now) (is_some seen.old) reading.now.dump_use records.old.items None (lines_of bytes.now)) }
{
    let alloc = *records.allocator();
    let mut draft = None;
    let mut rest = bytes;
    let mut at = 0;
    while !rest.is_empty() {
        at += 1;
        let (line, after) = first_piece(rest, b'\n');
        read_line(reading, records, seen, &mut draft, (at, line))?;
        rest = after;
    }
    close(alloc, reading.dump_use, records, seen, draft)
}

/// Reads a line with its number: one that begins a record closes the record before it, and any other belongs to the
/// open record.
fn read_line<N: Names>(
    reading: &DumpReading<'_, N>,
    records: &mut Vec<DumpRecord>,
    seen: &mut Option<Seen>,
    draft: &mut Option<RecordDraft>,
    line: (usize, &[u8]),
) -> Result<(), TextFault>
    requires { SeenPathsAre seen.old records.old.items }
    ensures stepped { Gives (λ _. (records.new.items, draft.new)) result (stepped begins (watched.open_record (is_some seen.old)) (line_in (N.naming reading.now.names.now)) (close reading.now.dump_use) records.old.items draft.old (line.entry.0, line.entry.1.now)) }
    ensures seen_are { OnOk result (SeenPathsAre seen.new records.new.items) }
    ensures watched { is_some seen.new ≡ is_some seen.old }
{
    let (at, bytes) = line;
    let (kind, value) = content_of(bytes);
    match kind {
        LineKind::File => begin_record(reading.dump_use, records, seen, draft, (at, value)),
        _ => {
            let alloc = *records.allocator();
            add_content(alloc, reading.names, draft, at, (kind, value))
        }
    }
}

/// Closes the open record, if there is one, and opens the one that a `file:` line of this number and value begins.
fn begin_record(
    dump_use: DumpUse,
    records: &mut Vec<DumpRecord>,
    seen: &mut Option<Seen>,
    draft: &mut Option<RecordDraft>,
    line: (usize, &[u8]),
) -> Result<(), TextFault>
    requires { SeenPathsAre seen.old records.old.items }
    ensures next_opened { Gives (λ _. (records.new.items, draft.new)) result
        (watched.next_opened (is_some seen.old) dump_use records.old.items draft.old line.entry.0 line.entry.1.now) }
    ensures seen_are { OnOk result (SeenPathsAre seen.new records.new.items) }
    ensures watched { is_some seen.new ≡ is_some seen.old }
{
    let alloc = *records.allocator();
    close(alloc, dump_use, records, seen, draft.take())?;
    *draft = Some(open_record(alloc, seen, line.0, line.1)?);
    Ok(())
}
