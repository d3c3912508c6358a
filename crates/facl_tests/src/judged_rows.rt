//! Scripts and what they print.

use crate::played::Played;
use facl::Status;
use std::process::Abort;

/// A script, and what it prints under a judge.
pub struct Row {
    pub name: &'static str,
    pub script: &'static [u8],
    pub out: &'static [u8],
}

/// Compares what a script of accepted lines printed.
pub fn expect(rt: &impl Abort, row: &Row, played: &Played) {
    assert!(rt;
        (played.status, played.out.as_slice(), played.err.as_slice())
            == (Some(Status::Accepted), row.out, b"".as_slice()),
        "{}",
        row.name
    );
}
