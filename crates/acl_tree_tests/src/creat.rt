//! New files.
use crate::rows::{Line, Row};
use acl_edit::Kind;
use acl_tree::Table;

pub const FAULTS: &[Row] = &[
    // Before what the path has.
    Row {
        line: Line::Creat(b"nosuch", Kind::Plain, 0o600, 0o22, b"f"),
        outcome: "no such user nosuch",
        files: &[],
    },
    Row {
        line: Line::Creat(b"ann", Kind::Plain, 0o600, 0o22, b"f"),
        outcome: "exists f",
        files: &[],
    },
    Row {
        line: Line::Creat(b"ann", Kind::Plain, 0o600, 0o22, b"f/x"),
        outcome: "not a directory f",
        files: &[],
    },
    Row {
        line: Line::Creat(b"ann", Kind::Plain, 0o600, 0o22, b"no/x"),
        outcome: "no such file no",
        files: &[],
    },
];

pub const ROOT: &[Row] = &[
    // The root is its own parent.
    Row {
        line: Line::Creat(b"ann", Kind::Directory, 0o700, 0o22, b"."),
        outcome: "no such file .",
        files: &[],
    },
    Row {
        line: Line::Load(
            Table::Dump,
            b"# file: a/b\n# owner: lisa\n# group: staff\nuser::rw-\ngroup::r--\nother::---\n",
        ),
        outcome: "done: 1 changed, 0 gone",
        files: &[(b"a", "not recorded")],
    },
    // A file is recorded below it.
    Row {
        line: Line::Creat(b"ann", Kind::Directory, 0o700, 0o22, b"a"),
        outcome: "exists a",
        files: &[],
    },
    Row {
        line: Line::Creat(b"ann", Kind::Directory, 0o700, 0o22, b"."),
        outcome: "exists .",
        files: &[],
    },
];

pub const OWNERS: &[Row] = &[
    Row {
        line: Line::Creat(b"lisa", Kind::Plain, 0o600, 0o22, b"x\\012y"),
        outcome: "done: 1 changed, 0 gone",
        files: &[(b"x\ny", "---- lisa:staff u::rw-,g::---,o::---")],
    },
    // By id.
    Row {
        line: Line::Creat(b"1000", Kind::Plain, 0o666, 0o22, b"z"),
        outcome: "done: 1 changed, 0 gone",
        files: &[(b"z", "---- joe:users u::rw-,g::r--,o::r--")],
    },
    Row {
        line: Line::Chmod(0o2755, false, &[b"."]),
        outcome: "done: 0 changed, 0 gone",
        files: &[(b".", "d-s- lisa:staff u::rwx,g::r-x,o::r-x")],
    },
    // The group of the directory, which has setgid.
    Row {
        line: Line::Creat(b"joe", Kind::Directory, 0o750, 0o22, b"n"),
        outcome: "done: 1 changed, 0 gone",
        files: &[(b"n", "d-s- joe:staff u::rwx,g::r-x,o::---")],
    },
];

pub const DEFAULTS: &[Row] = &[
    Row {
        line: Line::Setfacl(b"", b"d:u:joe:rwx", false, &[b"pub"]),
        outcome: "done: 0 changed, 0 gone",
        files: &[],
    },
    // The umask has no effect.
    Row {
        line: Line::Creat(b"ann", Kind::Plain, 0o640, 0o77, b"pub/n"),
        outcome: "done: 1 changed, 0 gone",
        files: &[(
            b"pub/n",
            "---- ann:users u::rw-,u:joe:rwx,g::r-x,m::r--,o::---",
        )],
    },
    Row {
        line: Line::Creat(b"ann", Kind::Directory, 0o750, 0o22, b"pub/s"),
        outcome: "done: 1 changed, 0 gone",
        files: &[(
            b"pub/s",
            "d--- ann:users u::rwx,u:joe:rwx,g::r-x,m::r-x,o::---/u::rwx,u:joe:rwx,g::r-x,m::rwx,o::r-x",
        )],
    },
];
