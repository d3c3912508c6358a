//! Loads of people and of dumps.
use crate::rows::{Line, Row};
use crate::texts::{FOUR_FILES, GROUP, PASSWD};
use acl_tree::Table;

pub const FAULTS: &[Row] = &[
    Row {
        line: Line::Load(
            Table::Passwd,
            b"lisa:x:1001:50:Lisa:/home/lisa:/bin/sh\nno row\n",
        ),
        outcome: "text BadRow, 2",
        files: &[],
    },
    Row {
        line: Line::Load(Table::Group, b"staff:x:50:\nno row\n"),
        outcome: "text BadRow, 2",
        files: &[],
    },
    Row {
        line: Line::Load(Table::Dump, b"# file: a\n# owner: lisa\n"),
        outcome: "text UnknownUser, 2",
        files: &[],
    },
    Row {
        line: Line::Load(
            Table::Dump,
            b"# file: a\n# owner: 1\n# group: 5\nuser::rwx\ngroup::r-x\nother::r-x\n\n\
# file: a/\n# owner: 1\n# group: 5\nuser::rwx\ngroup::r-x\nother::r-x\n",
        ),
        outcome: "text RepeatedFile, 8",
        files: &[],
    },
];

/// Each text once.
pub const AGAIN: &[Row] = &[
    Row {
        line: Line::Load(Table::Passwd, PASSWD),
        outcome: "already loaded",
        files: &[],
    },
    Row {
        line: Line::Load(Table::Group, GROUP),
        outcome: "already loaded",
        files: &[],
    },
    Row {
        line: Line::Load(Table::Dump, FOUR_FILES),
        outcome: "already loaded",
        files: &[],
    },
];

/// People before files.
pub const ORDER: &[Row] = &[
    Row {
        line: Line::Load(Table::Passwd, PASSWD),
        outcome: "done: 0 changed, 0 gone, users loaded",
        files: &[],
    },
    Row {
        line: Line::Load(Table::Passwd, PASSWD),
        outcome: "already loaded",
        files: &[],
    },
    // Written with a final slash; the greatest id.
    Row {
        line: Line::Load(
            Table::Dump,
            b"# file: a/\n# owner: 4294967294\n# group: 50\nuser::rwx\ngroup::r-x\nother::r-x\n",
        ),
        outcome: "done: 1 changed, 0 gone",
        files: &[(b"a", "d--- 4294967294:50 u::rwx,g::r-x,o::r-x")],
    },
    // The text is not looked at.
    Row {
        line: Line::Load(Table::Group, b"not a row"),
        outcome: "already loaded",
        files: &[],
    },
];
