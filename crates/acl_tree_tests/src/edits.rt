//! setfacl(1) on one file and on several.
use crate::rows::{Line, Row};

pub const ENTRIES: &[Row] = &[
    // No file is edited where one is refused.
    Row {
        line: Line::Setfacl(b"m:", b"u:joe:r", true, &[b"."]),
        outcome: "edit of pub: List(Access, MissingMask { at: 2 })",
        files: &[(b"f", "---- lisa:staff u::rw-,g::r--,o::---")],
    },
    Row {
        line: Line::Setfacl(b"", b"u:joe:rwx", false, &[b"f"]),
        outcome: "done: 1 changed, 0 gone",
        files: &[
            (
                b"f",
                "---- lisa:staff u::rw-,u:joe:rwx,g::r--,m::rwx,o::---",
            ),
            (b".", "d--- lisa:staff u::rwx,g::r-x,o::r-x"),
        ],
    },
];

pub const DEFAULTS: &[Row] = &[
    Row {
        line: Line::Setfacl(b"", b"d:u:joe:rx", false, &[b"f"]),
        outcome: "edit of f: DefaultOnFile",
        files: &[],
    },
    // A missing operand comes first.
    Row {
        line: Line::Setfacl(b"", b"d:u:joe:rx", false, &[b"f", b"no"]),
        outcome: "no such file no",
        files: &[],
    },
    // Plain files below are skipped.
    Row {
        line: Line::Setfacl(b"", b"d:u:joe:rx", true, &[b"."]),
        outcome: "done: 0 changed, 0 gone",
        files: &[
            (
                b".",
                "d--- lisa:staff u::rwx,g::r-x,o::r-x/u::rwx,u:joe:r-x,g::r-x,m::r-x,o::r-x",
            ),
            (b"f", "---- lisa:staff u::rw-,g::r--,o::---"),
            (
                b"pub",
                "d--- ann:users u::rwx,g::r-x,g:adm:rwx,m::rwx,o::r-x/u::rwx,u:joe:r-x,g::r-x,m::r-x,o::r-x",
            ),
        ],
    },
];
