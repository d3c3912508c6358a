//! Runs over a reader or a writer that fails once, after each number of bytes, and would work again.

use crate::devices::{RecoveringReader, RecoveringWriter};
use crate::texts::WHOLE;
use facl::{Status, run};
use facl_output::RunFault;
use facl_script::{StdFeed, StdSink};
use std::alloc::Global;
use std::process::Abort;

/// Two lists.
const LISTS: &[u8] = b"chacl -l f\nchacl -l log\n";

/// What they print.
const LISTED: &[u8] = b"f [u::rw-,g::r--,o::---]\nlog [u::rw-,g::r--,o::---]\n";

fn failing_after(alloc: Global, taken: usize, takes_nothing: bool) -> RecoveringWriter {
    RecoveringWriter {
        held: Vec::new(alloc),
        calls: 0,
        faulty_call: taken,
        takes_nothing,
    }
}

/// Asserts what is said of a device that fails after `place` bytes.
fn expect_at(rt: &impl Abort, place: usize, is_so: bool) {
    assert!(rt; is_so, "at {place}");
}

/// A run ends by a failed write, or, where nothing failed, with this status.
fn ends(end_of_run: Result<Status, RunFault>, is_whole: bool, status: Status) -> bool {
    match end_of_run {
        Ok(found) => is_whole && found == status,
        Err(fault) => !is_whole && matches!(fault, RunFault::Write),
    }
}

/// The writer has taken these bytes, and was not called after the call that failed.
fn expect_taken(rt: &impl Abort, writer: RecoveringWriter, taken: &[u8], all: &[u8]) {
    let place = taken.len();
    expect_at(rt, place, writer.held.as_slice() == taken);
    let calls = all.len().min(place.saturating_add(1));
    expect_at(rt, place, writer.calls == calls);
}

fn expect_out_fails(rt: &impl Abort, alloc: Global, taken: &[u8], takes_nothing: bool) {
    let mut out = failing_after(alloc, taken.len(), takes_nothing);
    let mut err = Vec::new(alloc);
    let end_of_run = run(
        alloc,
        &WHOLE,
        &mut StdFeed::new(LISTS),
        &mut StdSink::new(&mut out),
        &mut StdSink::new(&mut err),
    );
    let is_whole = taken.len() == LISTED.len();
    let is_right = ends(end_of_run, is_whole, Status::Accepted);
    expect_at(rt, taken.len(), is_right && err.is_empty());
    expect_taken(rt, out, taken, LISTED);
}

#[test]
fn out_fails_after_each_byte(rt: HostRuntime) {
    for place in 0..LISTED.len() + 1 {
        expect_out_fails(&rt, rt.alloc(), &LISTED[..place], false);
        expect_out_fails(&rt, rt.alloc(), &LISTED[..place], true);
    }
}

/// A script whose second line has a message, and what it prints before that and in all.
struct Reported {
    script: &'static [u8],
    before: &'static [u8],
    out: &'static [u8],
    err: &'static [u8],
    status: Status,
}

static REPORTED: [Reported; 2] = [
    Reported {
        script: b"chacl -l f\nfrob\nchacl -l log\n",
        before: b"f [u::rw-,g::r--,o::---]\n",
        out: LISTED,
        err: b"line 2: facl: unknown tool\n",
        status: Status::Refused,
    },
    Reported {
        script: b"chacl -l f\nsetfacl -d -m u:joe:rw,d:g:adm:r pub\nchacl -l log\n",
        before: b"f [u::rw-,g::r--,o::---]\n",
        out: LISTED,
        err: b"line 2: setfacl: warning: default entries dropped\n",
        status: Status::Accepted,
    },
];

fn expect_err_fails(
    rt: &impl Abort,
    alloc: Global,
    row: &Reported,
    taken: &[u8],
    takes_nothing: bool,
) {
    let mut out = Vec::new(alloc);
    let mut err = failing_after(alloc, taken.len(), takes_nothing);
    let end_of_run = run(
        alloc,
        &WHOLE,
        &mut StdFeed::new(row.script),
        &mut StdSink::new(&mut out),
        &mut StdSink::new(&mut err),
    );
    let is_whole = taken.len() == row.err.len();
    let printed = if is_whole { row.out } else { row.before };
    let is_right = ends(end_of_run, is_whole, row.status);
    expect_at(rt, taken.len(), is_right && out.as_slice() == printed);
    expect_taken(rt, err, taken, row.err);
}

#[test]
fn err_fails_after_each_byte(rt: HostRuntime) {
    for row in &REPORTED {
        for place in 0..row.err.len() + 1 {
            expect_err_fails(&rt, rt.alloc(), row, &row.err[..place], false);
            expect_err_fails(&rt, rt.alloc(), row, &row.err[..place], true);
        }
    }
}

/// Lists, an edit whose entries are a text, and a line that is refused. The last line has no line feed.
const SCRIPT: &[u8] = b"chacl -l f\nsetfacl -M - f\nu:joe:r\n.\nchacl -l f\nfrob\nchacl -l log";

/// How many bytes are printed, and how many of messages, by the units whose last line feed is among the first `given`
/// bytes of the script: the first line has 11, those up to the dot 36, those up to the next listing 47, and those up to the
/// refused one 52.
fn written(given: usize) -> (usize, usize) {
    match given {
        0..11 => (0, 0),
        11..47 => (25, 0),
        47..52 => (67, 0),
        _ => (67, 27),
    }
}

const OUT: &[u8] = b"f [u::rw-,g::r--,o::---]\nf [u::rw-,u:joe:r--,g::r--,m::r--,o::---]\n";

const ERR: &[u8] = b"line 6: facl: unknown tool\n";

fn expect_reader_fails(rt: &impl Abort, alloc: Global, given: usize) {
    let mut reader = RecoveringReader {
        bytes: SCRIPT,
        calls: 0,
        faulty_call: given,
    };
    let mut out = Vec::new(alloc);
    let mut err = Vec::new(alloc);
    let end_of_run = run(
        alloc,
        &WHOLE,
        &mut StdFeed::new(&mut reader),
        &mut StdSink::new(&mut out),
        &mut StdSink::new(&mut err),
    );
    expect_at(rt, given, matches!(end_of_run, Err(RunFault::Read)));
    let (printed, reported) = written(given);
    expect_at(rt, given, out.len() == printed && OUT.starts_with(&out));
    expect_at(rt, given, err.len() == reported && ERR.starts_with(&err));
    expect_at(rt, given, reader.calls == given.saturating_add(1));
}

#[test]
fn reader_fails_after_each_byte(rt: HostRuntime) {
    for given in 0..SCRIPT.len() + 1 {
        expect_reader_fails(&rt, rt.alloc(), given);
    }
}
