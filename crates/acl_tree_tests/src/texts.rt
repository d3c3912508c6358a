//! The users, groups and files that most tests begin with.
use crate::rows::{Line, Row};
use acl_tree::Table;

pub const PASSWD: &[u8] = b"lisa:x:1001:50:Lisa:/home/lisa:/bin/sh\n\
joe:x:1000:100:Joe:/home/joe:/bin/sh\nann:x:1002:100:Ann:/home/ann:/bin/sh\n";

pub const GROUP: &[u8] = b"staff:x:50:\nusers:x:100:\ncool:x:60:lisa\nadm:x:70:\n";

pub const FOUR_FILES: &[u8] =
    b"# file: f\n# owner: lisa\n# group: staff\nuser::rw-\ngroup::r--\nother::---\n\n\
# file: .\n# owner: lisa\n# group: staff\nuser::rwx\ngroup::r-x\nother::r-x\n\n\
# file: d/e\n# owner: ann\n# group: users\nuser::rw-\ngroup::r--\nother::r--\n\n\
# file: d\n# owner: ann\n# group: users\nuser::rwx\ngroup::r-x\nother::r-x\n\n";

pub const FIVE_FILES: &[u8] =
    b"# file: .\n# owner: lisa\n# group: staff\nuser::rwx\ngroup::r-x\nother::r-x\n\n\
# file: f\n# owner: lisa\n# group: staff\nuser::rw-\ngroup::r--\nother::---\n\n\
# file: run\n# owner: lisa\n# group: staff\nuser::rwx\ngroup::r-x\nother::r-x\n\n\
# file: pub/\n# owner: ann\n# group: users\nuser::rwx\ngroup::r-x\ngroup:adm:rwx\nmask::rwx\nother::r-x\n\n\
# file: log\n# owner: lisa\n# group: adm\nuser::rw-\ngroup::r--\nother::---\n\n";

pub const PEOPLE: &[Row] = &[
    Row {
        line: Line::Load(Table::Passwd, PASSWD),
        outcome: "done: 0 changed, 0 gone, users loaded",
        files: &[],
    },
    Row {
        line: Line::Load(Table::Group, GROUP),
        outcome: "done: 0 changed, 0 gone, users loaded",
        files: &[],
    },
];

/// A file of the root and one of a directory: the kinds are those that the dump shows.
pub const FOUR: &[Row] = &[Row {
    line: Line::Load(Table::Dump, FOUR_FILES),
    outcome: "done: 4 changed, 0 gone",
    files: &[
        (b".", "d--- lisa:staff u::rwx,g::r-x,o::r-x"),
        (b"d", "d--- ann:users u::rwx,g::r-x,o::r-x"),
        (b"d/e", "---- ann:users u::rw-,g::r--,o::r--"),
        (b"d/e/g", "not recorded"),
        (b"f", "---- lisa:staff u::rw-,g::r--,o::---"),
    ],
}];

pub const FIVE: &[Row] = &[Row {
    line: Line::Load(Table::Dump, FIVE_FILES),
    outcome: "done: 5 changed, 0 gone",
    files: &[(
        b"pub",
        "d--- ann:users u::rwx,g::r-x,g:adm:rwx,m::rwx,o::r-x",
    )],
}];
