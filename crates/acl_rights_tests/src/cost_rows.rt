//! Lines on files, and what each costs and leaves.

use crate::lines::Line;
use crate::texts::{ANN, FILES, GROUP, JOE, LISA, PASSWD};
use crate::world::{FREE, Row};
use acl_tree::Table;

/// Five files of five kinds and four labels: the root and run have one, but the root alone is a directory. Each label is
/// judged once for three users.
pub static SETUP: [Row; 3] = [
    Row {
        line: Line::Load(Table::Passwd, PASSWD),
        ..FREE
    },
    Row {
        line: Line::Load(Table::Group, GROUP),
        ..FREE
    },
    Row {
        line: Line::Load(Table::Dump, FILES),
        asked: (0, 12),
        refreshed: 15,
        ..FREE
    },
];

pub static FILES_ALONE: [Row; 4] = [
    Row {
        line: Line::Setfacl(b"d:u:joe:rx", true, b"."),
        ..FREE
    },
    Row {
        line: Line::Setfacl(b"u:joe:r", false, b"f"),
        asked: (0, 3),
        refreshed: 3,
        ..FREE
    },
    Row {
        line: Line::Chmod(0o4640, b"f"),
        ..FREE
    },
    Row {
        line: Line::Rm(b"f"),
        ..FREE
    },
];

/// The root and run have the label that f gets first: its row is there. The one that f gets back is of no other file: its
/// row may be judged again.
pub static LIKE_ANOTHER: [Row; 2] = [
    Row {
        line: Line::Chmod(0o755, b"f"),
        refreshed: 3,
        verdicts: &[(JOE, b"f", 0x33)],
        ..FREE
    },
    Row {
        line: Line::Chmod(0o640, b"f"),
        asked: (0, 3),
        refreshed: 3,
        ..FREE
    },
];

/// The number that f's label had is given to the new label of log. So the label that f gets back has another number, and the
/// hint of the load leads to the label of log. Run then gets the label of f without a verdict: by the hint of the line
/// before, and again after two more lines, when this hint was merged with that of the load.
pub static ANOTHER_NUMBER: [Row; 7] = [
    Row {
        line: Line::Chmod(0o600, b"f"),
        asked: (0, 3),
        ..FREE
    },
    Row {
        line: Line::Chmod(0o604, b"log"),
        asked: (0, 3),
        refreshed: 3,
        verdicts: &[(JOE, b"log", 0x11)],
        ..FREE
    },
    Row {
        line: Line::Chmod(0o640, b"f"),
        asked: (0, 3),
        ..FREE
    },
    Row {
        line: Line::Chmod(0o640, b"run"),
        refreshed: 3,
        verdicts: &[(LISA, b"run", 0x55), (JOE, b"run", 0x01)],
        ..FREE
    },
    Row {
        line: Line::Chmod(0o611, b"run"),
        asked: (0, 3),
        refreshed: 3,
        verdicts: &[(JOE, b"run", 0x03)],
        ..FREE
    },
    Row {
        line: Line::Chmod(0o612, b"run"),
        asked: (0, 3),
        refreshed: 3,
        verdicts: &[(JOE, b"run", 0x05)],
        ..FREE
    },
    Row {
        line: Line::Chmod(0o640, b"run"),
        refreshed: 3,
        verdicts: &[(LISA, b"run", 0x55), (JOE, b"run", 0x01)],
        ..FREE
    },
];

/// All five files change, which are as many as the tree has numbers of kinds. Then there are four labels: the root and run have
/// the same owner, group and list. Joe's verdicts on f and log are others: these two files count.
pub static FOUR_LABELS: [Row; 1] = [Row {
    line: Line::Setfacl(b"u:joe:rX", true, b"."),
    asked: (0, 12),
    refreshed: 6,
    verdicts: &[
        (JOE, b"run", 0x33),
        (JOE, b"f", 0x11),
        (LISA, b"log", 0x55),
        (ANN, b"log", 0x01),
    ],
    ..FREE
}];

pub static SEARCH: [Row; 1] = [Row {
    line: Line::Chmod(0o754, b"."),
    asked: (0, 3),
    refreshed: 15,
    verdicts: &[(JOE, b"pub", 0x33)],
    reach: &[
        (JOE, b"pub", 0),
        (JOE, b".", 0x11),
        (LISA, b"run", 0xff),
        (ANN, b"run", 0),
    ],
    ..FREE
}];

const CLOSED: &[u8] = b"# file: .\nuser::rwx\ngroup::r-x\nother::r--\n\n\
# file: f\nuser::rw-\ngroup::r--\nother::r--\n\n\
# file: log\nuser::rw-\ngroup::r--\nother::r--\n";

const OPENED: &[u8] = b"# file: .\nuser::rwx\ngroup::r-x\nother::r-x\n\n\
# file: f\nuser::rw-\ngroup::r--\nother::---\n";

const WRITTEN: &[u8] = b"# file: .\nuser::rwx\ngroup::rwx\nother::r-x\n\n\
# file: f\nuser::rw-\ngroup::r--\nother::r--\n";

/// The root changes beside other files. Two of five files get other verdicts, and then the root and the four files below it are
/// found again: five are counted, since there are no more. So are they where the root is opened again, whose label is that of
/// run. Who writes the root changes no answer of joe or ann: then the root and one file count.
pub static RESTORED: [Row; 3] = [
    Row {
        line: Line::Restore(CLOSED),
        asked: (0, 9),
        refreshed: 15,
        verdicts: &[(JOE, b"f", 0x11), (ANN, b"log", 0x11)],
        reach: &[
            (JOE, b".", 0x11),
            (JOE, b"f", 0),
            (LISA, b"f", 0x55),
            (ANN, b"pub", 0),
        ],
        ..FREE
    },
    Row {
        line: Line::Restore(OPENED),
        asked: (0, 3),
        refreshed: 15,
        verdicts: &[(JOE, b"f", 0x01)],
        reach: &[
            (ANN, b"log", 0x11),
            (ANN, b"pub", 0xff),
            (JOE, b"run", 0x33),
        ],
        ..FREE
    },
    Row {
        line: Line::Restore(WRITTEN),
        asked: (0, 6),
        refreshed: 6,
        verdicts: &[(JOE, b".", 0x33)],
        reach: &[(JOE, b"f", 0x11)],
        ..FREE
    },
];
