//! Files that are removed.
use crate::rows::{Line, Row};

pub const PLAIN: &[Row] = &[
    // The first operand that is refused, for either fault.
    Row {
        line: Line::Rm(false, &[b"pub", b"nosuch"]),
        outcome: "is a directory pub",
        files: &[],
    },
    Row {
        line: Line::Rm(false, &[b"nosuch", b"pub"]),
        outcome: "no such file nosuch",
        files: &[],
    },
    Row {
        line: Line::Rm(false, &[b"f", b"nosuch"]),
        outcome: "no such file nosuch",
        files: &[(b"f", "---- lisa:staff u::rw-,g::r--,o::---")],
    },
    // A file that is named twice is there for both.
    Row {
        line: Line::Rm(false, &[b"log", b"f", b"log"]),
        outcome: "done: 0 changed, 2 gone",
        files: &[
            (b"f", "not recorded"),
            (b"log", "not recorded"),
            (b"run", "---- lisa:staff u::rwx,g::r-x,o::r-x"),
        ],
    },
    Row {
        line: Line::Rm(true, &[b"log"]),
        outcome: "no such file log",
        files: &[],
    },
];

pub const RECURSIVE: &[Row] = &[
    Row {
        line: Line::Rm(true, &[b"d", b"d/nosuch"]),
        outcome: "no such file d/nosuch",
        files: &[],
    },
    // What is below a directory is there until all operands are looked up.
    Row {
        line: Line::Rm(true, &[b"d", b"d/e"]),
        outcome: "done: 0 changed, 2 gone",
        files: &[
            (b"d", "not recorded"),
            (b"d/e", "not recorded"),
            (b"f", "---- lisa:staff u::rw-,g::r--,o::---"),
        ],
    },
    Row {
        line: Line::Rm(true, &[b"."]),
        outcome: "done: 0 changed, 2 gone",
        files: &[(b".", "not recorded"), (b"f", "not recorded")],
    },
    Row {
        line: Line::Rm(true, &[b"."]),
        outcome: "no such file .",
        files: &[],
    },
];
