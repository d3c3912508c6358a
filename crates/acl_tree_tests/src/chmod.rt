//! chmod of one and of several files.
use crate::rows::{Line, Row};

pub const MODES: &[Row] = &[
    Row {
        line: Line::Chmod(0o4604, false, &[b"f"]),
        outcome: "done: 1 changed, 0 gone",
        files: &[
            (b"f", "-s-- lisa:staff u::rw-,g::---,o::r--"),
            (b".", "d--- lisa:staff u::rwx,g::r-x,o::r-x"),
        ],
    },
    Row {
        line: Line::Chmod(0o3750, false, &[b"."]),
        outcome: "done: 1 changed, 0 gone",
        files: &[(b".", "d-st lisa:staff u::rwx,g::r-x,o::---")],
    },
    // Setgid is kept, sticky is cleared.
    Row {
        line: Line::Chmod(0o705, false, &[b"."]),
        outcome: "done: 1 changed, 0 gone",
        files: &[(b".", "d-s- lisa:staff u::rwx,g::---,o::r-x")],
    },
    // The first operand that is not recorded.
    Row {
        line: Line::Chmod(0o777, false, &[b"f", b"d/nosuch", b"nosuch"]),
        outcome: "no such file d/nosuch",
        files: &[(b"f", "-s-- lisa:staff u::rw-,g::---,o::r--")],
    },
    Row {
        line: Line::Chmod(0o700, true, &[b"d", b"d/e"]),
        outcome: "done: 2 changed, 0 gone",
        files: &[
            (b"d", "d--- ann:users u::rwx,g::---,o::---"),
            (b"d/e", "---- ann:users u::rwx,g::---,o::---"),
            (b"f", "-s-- lisa:staff u::rw-,g::---,o::r--"),
        ],
    },
    // d/e has that mode.
    Row {
        line: Line::Chmod(0o700, true, &[b"d", b"f"]),
        outcome: "done: 1 changed, 0 gone",
        files: &[(b"f", "---- lisa:staff u::rwx,g::---,o::---")],
    },
    // Flags are no part of the check.
    Row {
        line: Line::Chmod(0o4700, false, &[b"f"]),
        outcome: "done: 0 changed, 0 gone",
        files: &[(b"f", "-s-- lisa:staff u::rwx,g::---,o::---")],
    },
];
