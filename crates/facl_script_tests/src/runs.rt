//! Tests of whole runs.
use crate::devices::{CommentReader, EndingReader, WatchedWriter, WatchingReader};
use crate::echo::Echo;
use crate::ran::{ERR, OUT, SCRIPT, answer_so_far, echo, expect_echo};
use facl_script::{
    Feed, SCRIPT_LIMIT, ScriptFault, Sink, StdFeed, StdSink, run_session, write_answer, write_whole,
};
use std::alloc::Global;
use std::cell::Cell;
use std::process::Abort;

#[test]
fn runs_over_memory(rt: HostRuntime) {
    expect_echo(&rt, rt.alloc(), SCRIPT, Ok(true), (OUT, ERR));
}

#[test]
fn a_session_knows_what_it_refused(rt: HostRuntime) {
    let mut session = Echo::new(rt.alloc());
    let mut feed = StdFeed::new(SCRIPT);
    let mut out = StdSink::new(Vec::new(rt.alloc()));
    let mut err = StdSink::new(Vec::new(rt.alloc()));
    let status = run_session(rt.alloc(), &mut session, &mut feed, &mut out, &mut err);
    assert!(rt; status == Ok(true));
    assert!(rt; session.has_refused() && !feed.failed());
}

#[test]
fn only_a_dot_alone_ends_a_text(rt: HostRuntime) {
    let script = b"load\n. \n .\n..\n.\n".as_slice();
    let wanted = (b"load\n. \n .\n..\n".as_slice(), b"".as_slice());
    expect_echo(&rt, rt.alloc(), script, Ok(false), wanted);
}

const SCRIPTS: [&[u8]; 6] = [b"", b"a", b"a\n", b"load", b"load\nb", b"load\n."];

fn expect_end(rt: &impl Abort, alloc: Global, script: &[u8]) {
    let mut reader = EndingReader {
        bytes: script,
        has_ended: false,
    };
    let found = echo(alloc, &mut reader, Vec::new(alloc), Vec::new(alloc));
    assert!(rt; found.is_ok());
}

#[test]
fn reads_nothing_after_the_end(rt: HostRuntime) {
    for script in SCRIPTS {
        expect_end(&rt, rt.alloc(), script);
    }
}

/// What was written by each read: the answers to the units that were given in full, and no more.
fn expect_written(rt: &impl Abort, seen: &[(usize, usize)]) {
    assert!(rt; !seen.is_empty());
    for (given, written) in seen {
        assert!(rt; *written == answer_so_far(*given));
    }
}

fn expect_answers_before_reads(rt: &impl Abort, alloc: Global, gives_lines: bool) {
    let written = Cell::new(0);
    let mut reader = WatchingReader {
        bytes: SCRIPT,
        given: 0,
        gives_lines,
        written: &written,
        seen: Vec::new(alloc),
    };
    let out = WatchedWriter { written: &written };
    let found = echo(alloc, &mut reader, out, Vec::new(alloc));
    assert!(rt; found == Ok(true));
    expect_written(rt, &reader.seen);
}

#[test]
fn answers_each_unit_before_the_next_read(rt: HostRuntime) {
    expect_answers_before_reads(&rt, rt.alloc(), false);
    expect_answers_before_reads(&rt, rt.alloc(), true);
}

/// Adds a line of `n` times `#`, between `before` and `after`.
fn push_line(rt: &impl Abort, script: &mut Vec<u8>, before: &[u8], n: usize, after: &[u8]) {
    script.extend_from_slice(before).expect(rt, "memory");
    for _ in 0..n {
        script.push(b'#').expect(rt, "memory");
    }
    script.extend_from_slice(after).expect(rt, "memory");
}

/// A script with a line of `#`, and what it writes.
struct Long {
    before: &'static [u8],
    length: usize,
    after: &'static [u8],
    out: &'static [u8],
    err: &'static [u8],
}

static LONG: [Long; 6] = [
    Long {
        before: b"",
        length: 65_536,
        after: b"\nab\n",
        out: b"ab\n",
        err: b"",
    },
    Long {
        before: b"",
        length: 65_537,
        after: b"\nab\n",
        out: b"ab\n",
        err: b"line too long\n",
    },
    Long {
        before: b"",
        length: 65_537,
        after: b"",
        out: b"",
        err: b"line too long\n",
    },
    Long {
        before: b"load\n",
        length: 65_537,
        after: b"\n.\nab\n",
        out: b"ab\n",
        err: b"text line too long\n",
    },
    Long {
        before: b"load\n",
        length: 65_537,
        after: b"\nab\n",
        out: b"",
        err: b"text without end\n",
    },
    Long {
        before: b"load\n",
        length: 65_537,
        after: b"",
        out: b"",
        err: b"text without end\n",
    },
];

fn expect_long(rt: &impl Abort, alloc: Global, row: &Long) {
    let mut script = Vec::new(alloc);
    push_line(rt, &mut script, row.before, row.length, row.after);
    let status = Ok(!row.err.is_empty());
    expect_echo(rt, alloc, script.as_slice(), status, (row.out, row.err));
}

#[test]
fn looks_at_lengths(rt: HostRuntime) {
    for row in &LONG {
        expect_long(&rt, rt.alloc(), row);
    }
}

#[test]
fn keeps_bytes_at_the_edges_of_chunks(rt: HostRuntime) {
    let alloc = rt.alloc();
    let mut text = Vec::new(alloc);
    push_line(&rt, &mut text, b"x", 40_000, b"\n");
    push_line(&rt, &mut text, b"load\n", 65_536, b"\n");
    let mut script = text.clone().expect(&rt, "memory");
    script.extend_from_slice(b".\n").expect(&rt, "memory");
    expect_echo(&rt, alloc, script.as_slice(), Ok(false), (&text, b""));
}

fn push_all(rt: &impl Abort, text: &mut Vec<u8>, lines: &[u8], times: usize) {
    for _ in 0..times {
        text.extend_from_slice(lines).expect(rt, "memory");
    }
}

/// Lines that are taken many at a time, of several chunks: an empty one, and ones that begin as the last one does.
#[test]
fn keeps_a_text_of_many_lines(rt: HostRuntime) {
    let alloc = rt.alloc();
    let mut text = Vec::new(alloc);
    push_all(&rt, &mut text, b"load\n", 1);
    push_all(&rt, &mut text, b"\n..\n. \nline\n", 20_000);
    let mut script = text.clone().expect(&rt, "memory");
    push_all(&rt, &mut script, b".\n# silent\n", 1);
    expect_echo(&rt, alloc, script.as_slice(), Ok(false), (&text, b""));
}

const TOTALS: [(u64, Result<bool, ScriptFault>); 3] = [
    (SCRIPT_LIMIT, Ok(false)),
    (SCRIPT_LIMIT + 1, Err(ScriptFault::TooLong)),
    (u64::MAX, Err(ScriptFault::TooLong)),
];

#[test]
fn ends_long_scripts(rt: HostRuntime) {
    for (total, want) in TOTALS {
        let reader = CommentReader { given: 0, total };
        expect_echo(&rt, rt.alloc(), reader, want, (b"", b""));
    }
}

/// Whether the bytes are written, and the writer has not failed.
fn writes(out: &mut Vec<u8>, bytes: &[u8]) -> bool {
    let mut out = StdSink::new(out);
    write_whole(&mut out, bytes).is_ok() && !out.failed()
}

fn answers(out: &mut Vec<u8>, err: &mut Vec<u8>) -> bool {
    let mut out = StdSink::new(out);
    write_answer(&mut out, &mut StdSink::new(err), b"c", b"d").is_ok() && !out.failed()
}

#[test]
fn all_is_written(rt: HostRuntime) {
    let mut out = Vec::new(rt.alloc());
    let mut err = Vec::new(rt.alloc());
    assert!(rt; writes(&mut out, b"ab") && answers(&mut out, &mut err));
    assert!(rt; out.as_slice() == b"abc".as_slice() && err.as_slice() == b"d".as_slice());
}
