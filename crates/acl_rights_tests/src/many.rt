//! Lines on as many files as there are kinds, or more.

use crate::lines::Line;
use crate::texts::{ANN, GROUP, JOE, LISA, PASSWD};
use crate::world::{FREE, Row, first_wrong, nothing};
use acl_tree::Table;

/// Twelve files of two labels.
const FILES: &[u8] =
    b"# file: .\n# owner: lisa\n# group: staff\nuser::rwx\ngroup::r-x\nother::r-x\n\n\
# file: a/\n# owner: lisa\n# group: staff\nuser::rwx\ngroup::r-x\nother::r-x\n\n\
# file: a/1\n# owner: lisa\n# group: staff\nuser::rw-\ngroup::r--\nother::---\n\n\
# file: a/2\n# owner: lisa\n# group: staff\nuser::rw-\ngroup::r--\nother::---\n\n\
# file: a/3\n# owner: lisa\n# group: staff\nuser::rw-\ngroup::r--\nother::---\n\n\
# file: a/4\n# owner: lisa\n# group: staff\nuser::rw-\ngroup::r--\nother::---\n\n\
# file: b/\n# owner: lisa\n# group: staff\nuser::rwx\ngroup::r-x\nother::r-x\n\n\
# file: b/1\n# owner: lisa\n# group: staff\nuser::rw-\ngroup::r--\nother::---\n\n\
# file: b/2\n# owner: lisa\n# group: staff\nuser::rw-\ngroup::r--\nother::---\n\n\
# file: b/3\n# owner: lisa\n# group: staff\nuser::rw-\ngroup::r--\nother::---\n\n\
# file: b/4\n# owner: lisa\n# group: staff\nuser::rw-\ngroup::r--\nother::---\n\n\
# file: c\n# owner: lisa\n# group: staff\nuser::rw-\ngroup::r--\nother::---\n";

static SETUP: [Row; 3] = [
    Row {
        line: Line::Load(Table::Passwd, PASSWD),
        ..FREE
    },
    Row {
        line: Line::Load(Table::Group, GROUP),
        ..FREE
    },
    Row {
        line: Line::Load(Table::Dump, FILES),
        asked: (0, 6),
        refreshed: 36,
        verdicts: &[(JOE, b"a/1", 0x01)],
        ..FREE
    },
];

/// Two lines on all files, and others from the rows that these leave. By the first joe's verdicts on the nine files that are no
/// directories become others, by the second none do.
static ALL_FILES: [Row; 5] = [
    Row {
        line: Line::Setfacl(b"u:joe:rX", true, b"."),
        asked: (0, 6),
        refreshed: 27,
        verdicts: &[(JOE, b"a/1", 0x11), (JOE, b"b", 0x33), (ANN, b"c", 0x01)],
        reach: &[(JOE, b"b/4", 0x11)],
        ..FREE
    },
    Row {
        line: Line::Setfacl(b"g:adm:r", true, b"."),
        asked: (0, 6),
        verdicts: &[(JOE, b"a/1", 0x11)],
        ..FREE
    },
    // Few files change.
    Row {
        line: Line::Setfacl(b"u:joe:rw", false, b"a/1"),
        asked: (0, 3),
        refreshed: 3,
        verdicts: &[(JOE, b"a/1", 0x55), (JOE, b"a/2", 0x11)],
        ..FREE
    },
    Row {
        line: Line::Rm(b"b/4"),
        ..FREE
    },
    // Each label mentions adm, and the files have three.
    Row {
        line: Line::Join(b"ann", b"adm"),
        asked: (1, 3),
        looked: 3,
        refreshed: 11,
        verdicts: &[(ANN, b"a/2", 0x11)],
        reach: &[(ANN, b"a/2", 0)],
    },
];

/// All files of one folder change, and what is below it is counted once.
static A_FOLDER: [Row; 3] = [
    Row {
        line: Line::Setfacl(b"u:joe:rX", true, b"a"),
        asked: (0, 6),
        refreshed: 12,
        verdicts: &[(JOE, b"a/4", 0x11), (JOE, b"b/1", 0x01)],
        ..FREE
    },
    // The label is one that files of the folder have.
    Row {
        line: Line::Setfacl(b"u:joe:r", false, b"c"),
        refreshed: 3,
        verdicts: &[(JOE, b"c", 0x11)],
        ..FREE
    },
    Row {
        line: Line::Chmod(0o700, b"b"),
        asked: (0, 3),
        refreshed: 15,
        reach: &[(JOE, b"b/1", 0)],
        ..FREE
    },
];

/// After a line on all files, one gets the label that others have: their row is there.
static THEN_ONE: [Row; 2] = [
    Row {
        line: Line::Setfacl(b"u:joe:rX", true, b"."),
        asked: (0, 6),
        refreshed: 27,
        ..FREE
    },
    Row {
        line: Line::Setfacl(b"u::rwx,u:joe:rx,g::rx,m::rx,o::rx", false, b"c"),
        refreshed: 3,
        verdicts: &[(ANN, b"c", 0x33)],
        ..FREE
    },
];

/// A directory has the label that files have, and a line on all files gives it another one than these: `X` is search for a
/// directory alone. So labels get other numbers, and all files count.
static A_LABEL_PARTS: [Row; 3] = [
    Row {
        line: Line::Chmod(0o640, b"b"),
        refreshed: 15,
        verdicts: &[(JOE, b"b", 0x01)],
        reach: &[(JOE, b"b/1", 0)],
        ..FREE
    },
    Row {
        line: Line::Setfacl(b"u:joe:rX", true, b"."),
        asked: (0, 9),
        refreshed: 36,
        verdicts: &[(JOE, b"b", 0x33), (JOE, b"c", 0x11)],
        reach: &[(JOE, b"b/1", 0x11), (ANN, b"b/1", 0)],
        ..FREE
    },
    // The label is that of the root: its row is found by its new number.
    Row {
        line: Line::Setfacl(b"u::rwx,u:joe:rx,g::rx,m::rx,o::rx", false, b"c"),
        refreshed: 3,
        verdicts: &[(ANN, b"c", 0x33)],
        ..FREE
    },
];

const TWO_FOLDERS: &[u8] = b"# file: a\nuser::rwx\ngroup::rwx\nother::r-x\n\n\
# file: a/1\nuser::rw-\ngroup::r--\nother::r--\n\n\
# file: b\nuser::rwx\ngroup::rwx\nother::r-x\n\n\
# file: b/1\nuser::rw-\ngroup::r--\nother::r--\n";

/// Four files get two labels by turns, each of which is judged once. Verdicts on the two files that are no directories become
/// others.
static BY_TURNS: [Row; 1] = [Row {
    line: Line::Restore(TWO_FOLDERS),
    asked: (0, 6),
    refreshed: 6,
    verdicts: &[(JOE, b"b", 0x33), (JOE, b"b/1", 0x11), (JOE, b"b/2", 0x01)],
    ..FREE
}];

const ROOT_AND_THREE: &[u8] = b"# file: .\nuser::rwx\ngroup::rwx\nother::r-x\n\n\
# file: a/1\nuser::rwx\ngroup::r-x\nother::r-x\n\n\
# file: a/2\nuser::rwx\ngroup::r-x\nother::r-x\n\n\
# file: a/3\nuser::rwx\ngroup::r-x\nother::r-x\n";

/// The root and three files change, as many as the tree has numbers then: two that stay, and two that are new. The root's
/// label alone is judged: the three files get that of the directories, which was the first. All files count.
static A_LABEL_STAYS: [Row; 1] = [Row {
    line: Line::Restore(ROOT_AND_THREE),
    asked: (0, 3),
    refreshed: 36,
    verdicts: &[(JOE, b".", 0x33), (JOE, b"a/3", 0x33), (JOE, b"a/4", 0x01)],
    ..FREE
}];

/// A user who comes is judged once on each of two labels, and has a verdict on each of twelve files.
static A_USER_COMES: [Row; 1] = [Row {
    line: Line::Useradd(b"bob", 1003, b"staff"),
    asked: (0, 2),
    refreshed: 12,
    verdicts: &[(3, b"b", 0x33), (3, b"c", 0x11), (LISA, b"c", 0x55)],
    ..FREE
}];

#[test]
fn lines_on_many_files_cost_their_labels(rt: HostRuntime) {
    for rows in [
        &ALL_FILES as &[Row],
        &A_FOLDER,
        &THEN_ONE,
        &A_LABEL_PARTS,
        &BY_TURNS,
        &A_LABEL_STAYS,
        &A_USER_COMES,
    ] {
        let mut world = nothing(rt.alloc()).expect(&rt, "memory");
        assert_eq!(rt; first_wrong(rt.alloc(), &mut world, &SETUP), None);
        assert_eq!(rt; first_wrong(rt.alloc(), &mut world, rows), None);
    }
}
