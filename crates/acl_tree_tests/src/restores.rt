//! setfacl(1) --restore.
use crate::rows::{Line, Row};

pub const RESTORES: &[Row] = &[
    Row {
        line: Line::Restore(
            b"# file: f\n# owner: ann\n# group: users\n# flags: s--\nuser::rwx\ngroup::r-x\nother::---\n",
        ),
        outcome: "done: 1 changed, 0 gone",
        files: &[(b"f", "-s-- ann:users u::rwx,g::r-x,o::---")],
    },
    // Flags that no line names are cleared, and an owner and a group stay; flags are no part of the check.
    Row {
        line: Line::Restore(b"# file: f\nuser::rwx\ngroup::r-x\nother::---\n"),
        outcome: "done: 0 changed, 0 gone",
        files: &[(b"f", "---- ann:users u::rwx,g::r-x,o::---")],
    },
    // A missing file comes before a refused one.
    Row {
        line: Line::Restore(
            b"# file: f\nuser::rwx\ngroup::r-x\nother::---\n\
default:user::rwx\ndefault:group::r-x\ndefault:other::---\n\n\
# file: no\nuser::rwx\ngroup::r-x\nother::---\n",
        ),
        outcome: "no such file no",
        files: &[],
    },
    // No file is restored where one is refused.
    Row {
        line: Line::Restore(
            b"# file: f\nuser::rwx\ngroup::r-x\nother::---\n\
default:user::rwx\ndefault:group::r-x\ndefault:other::---\n\n\
# file: d\nuser::rwx\ngroup::---\nother::---\n",
        ),
        outcome: "edit of f: DefaultOnFile",
        files: &[(b"d", "d--- ann:users u::rwx,g::r-x,o::r-x")],
    },
];
