//! Runs of the session that gives back each line.
use crate::echo::Echo;
use facl_script::{ScriptFault, StdFeed, StdSink, run_session};
use std::alloc::Global;
use std::io::{Read, Write};
use std::process::Abort;

/// Lines that are given back, two with a text; a comment; an open quote, which the session gives back too; a text without end.
pub const SCRIPT: &[u8] = b"ab\n# x\nload c\nd\n\n.\ny -\n.\n'\nload\nz";

pub const OUT: &[u8] = b"ab\nload c\nd\n\ny -\n'\n";

pub const ERR: &[u8] = b"text without end\n";

/// How many bytes of the output come of the units whose last LF is among the first `j` bytes of the script.
pub fn answer_so_far(j: usize) -> usize {
    match j {
        0..3 => 0,
        3..19 => 3,
        19..25 => 13,
        25..27 => 17,
        _ => 19,
    }
}

/// Runs the session over these devices.
pub fn echo<R: Read + Drop, O: Write + Drop, E: Write + Drop>(
    alloc: Global,
    reader: R,
    out: O,
    err: E,
) -> Result<bool, ScriptFault> {
    run_session(
        alloc,
        &mut Echo::new(alloc),
        &mut StdFeed::new(reader),
        &mut StdSink::new(out),
        &mut StdSink::new(err),
    )
}

/// Runs the session over memory, and compares how it ends and what it writes.
pub fn expect_echo<R: Read + Drop>(
    rt: &impl Abort,
    alloc: Global,
    reader: R,
    status: Result<bool, ScriptFault>,
    wanted: (&[u8], &[u8]),
) {
    let mut out = Vec::new(alloc);
    let mut err = Vec::new(alloc);
    let found = echo(alloc, reader, &mut out, &mut err);
    assert!(rt; found == status);
    assert!(rt; out.as_slice() == wanted.0 && err.as_slice() == wanted.1);
}
