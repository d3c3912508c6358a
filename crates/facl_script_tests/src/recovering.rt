//! Runs over devices that fail once and then work: they are not called again.
use crate::devices::{FaultyReader, FaultyWriter};
use crate::ran::{ERR, OUT, SCRIPT, answer_so_far, echo};
use facl_script::{ScriptFault, Sink, StdSink, write_whole};
use std::alloc::Global;
use std::process::Abort;

fn faulty_reader(call: usize, gives_nothing: bool) -> FaultyReader<'static> {
    FaultyReader {
        bytes: SCRIPT,
        calls: 0,
        faulty_call: call,
        gives_nothing,
    }
}

/// A read fails: the units before are answered, and no more is read.
fn expect_read_fails(rt: &impl Abort, alloc: Global, call: usize) {
    let mut reader = faulty_reader(call, false);
    let mut out = Vec::new(alloc);
    let mut err = Vec::new(alloc);
    let found = echo(alloc, &mut reader, &mut out, &mut err);
    assert!(rt; found == Err(ScriptFault::Read) && reader.calls == call.saturating_add(1));
    assert!(rt; out.len() == answer_so_far(call) && err.is_empty());
}

/// The script ends: no more is read.
fn expect_read_ends(rt: &impl Abort, alloc: Global, call: usize) {
    let mut reader = faulty_reader(call, true);
    let found = echo(alloc, &mut reader, Vec::new(alloc), Vec::new(alloc));
    assert!(rt; found.is_ok() && reader.calls == call.saturating_add(1));
}

#[test]
fn reads_nothing_more(rt: HostRuntime) {
    for call in 0..SCRIPT.len() + 1 {
        expect_read_fails(&rt, rt.alloc(), call);
        expect_read_ends(&rt, rt.alloc(), call);
    }
}

fn faulty_writer(alloc: Global, call: usize, takes_nothing: bool) -> FaultyWriter {
    FaultyWriter {
        held: Vec::new(alloc),
        calls: 0,
        faulty_call: call,
        takes_nothing,
    }
}

/// How a run ends whose writer takes `taken` of `all` bytes.
fn status_at(taken: usize, all: usize) -> Result<bool, ScriptFault> {
    if taken < all {
        Err(ScriptFault::Write)
    } else {
        Ok(true)
    }
}

/// Whether the writer took these bytes, one a call, and was called once more where they are not all.
fn has_taken(writer: &FaultyWriter, taken: &[u8], all: usize) -> bool {
    let calls = all.min(taken.len().saturating_add(1));
    writer.held.as_slice() == taken && writer.calls == calls
}

fn expect_out_fails(rt: &impl Abort, alloc: Global, taken: &[u8], takes_nothing: bool) {
    let mut out = faulty_writer(alloc, taken.len(), takes_nothing);
    let mut err = Vec::new(alloc);
    let found = echo(alloc, SCRIPT, &mut out, &mut err);
    assert!(rt; found == status_at(taken.len(), OUT.len()));
    assert!(rt; err.is_empty() == found.is_err());
    assert!(rt; has_taken(&out, taken, OUT.len()));
}

#[test]
fn writes_nothing_more_to_out(rt: HostRuntime) {
    for call in 0..OUT.len() + 1 {
        expect_out_fails(&rt, rt.alloc(), &OUT[..call], false);
        expect_out_fails(&rt, rt.alloc(), &OUT[..call], true);
    }
}

/// A line that is given back, a text without its end.
const REFUSED: &[u8] = b"ab\nload\nx\n";

fn expect_err_fails(rt: &impl Abort, alloc: Global, taken: &[u8], takes_nothing: bool) {
    let mut out = Vec::new(alloc);
    let mut err = faulty_writer(alloc, taken.len(), takes_nothing);
    let found = echo(alloc, REFUSED, &mut out, &mut err);
    assert!(rt; found == status_at(taken.len(), ERR.len()));
    assert!(rt; out.as_slice() == b"ab\n".as_slice());
    assert!(rt; has_taken(&err, taken, ERR.len()));
}

#[test]
fn writes_nothing_more_to_err(rt: HostRuntime) {
    for call in 0..ERR.len() + 1 {
        expect_err_fails(&rt, rt.alloc(), &ERR[..call], false);
        expect_err_fails(&rt, rt.alloc(), &ERR[..call], true);
    }
}

#[test]
fn a_sink_knows_that_it_failed(rt: HostRuntime) {
    let mut out = StdSink::new(faulty_writer(rt.alloc(), 1, false));
    assert!(rt; write_whole(&mut out, b"ab").is_err() && out.failed());
}
