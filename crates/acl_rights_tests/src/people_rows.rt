//! Lines on people, and what each costs and leaves.

use crate::lines::Line;
use crate::texts::{GROUP, JOE, LISA};
use crate::world::{FREE, Row};
use acl_tree::Table;

/// No file mentions cool, adm is mentioned by log and pub, users is joe's primary group.
pub static MEMBERSHIPS: [Row; 6] = [
    Row {
        line: Line::Join(b"joe", b"cool"),
        verdicts: &[(JOE, b"pub", 0x33)],
        ..FREE
    },
    Row {
        line: Line::Join(b"joe", b"users"),
        ..FREE
    },
    Row {
        line: Line::Join(b"joe", b"adm"),
        asked: (2, 2),
        looked: 2,
        refreshed: 2,
        verdicts: &[(JOE, b"log", 0x11), (JOE, b"pub", 0xff)],
        ..FREE
    },
    Row {
        line: Line::Leave(b"joe", b"adm"),
        asked: (2, 2),
        looked: 2,
        refreshed: 2,
        verdicts: &[(JOE, b"log", 0x01)],
        ..FREE
    },
    Row {
        line: Line::Chmod(0o770, b"pub"),
        asked: (3, 3),
        refreshed: 3,
        ..FREE
    },
    Row {
        line: Line::Leave(b"joe", b"users"),
        verdicts: &[(JOE, b"pub", 0x33)],
        ..FREE
    },
];

/// Users is left and staff joined. Four files mention one of them: no two are of one kind, since a directory has the label of
/// another file. Joe's verdict on f alone is another one.
pub static PRIMARY: [Row; 1] = [Row {
    line: Line::Usermod(b"joe", b"staff"),
    asked: (0, 4),
    looked: 4,
    refreshed: 1,
    verdicts: &[(JOE, b"f", 0x11)],
    ..FREE
}];

pub static NAMED: [Row; 2] = [
    Row {
        line: Line::Setfacl(b"g:users:r", false, b"f"),
        asked: (0, 3),
        refreshed: 3,
        ..FREE
    },
    Row {
        line: Line::Usermod(b"joe", b"staff"),
        asked: (0, 4),
        looked: 4,
        ..FREE
    },
];

/// The label of a file mentions adm, then another group too, and then the file goes: each time adm's list has the labels that
/// are there.
pub static LISTED: [Row; 6] = [
    Row {
        line: Line::Setfacl(b"g:adm:r", false, b"f"),
        asked: (0, 3),
        ..FREE
    },
    Row {
        line: Line::Join(b"joe", b"adm"),
        asked: (3, 3),
        looked: 3,
        refreshed: 3,
        verdicts: &[(JOE, b"f", 0x11)],
        ..FREE
    },
    Row {
        line: Line::Setfacl(b"g:cool:r", false, b"f"),
        asked: (0, 3),
        ..FREE
    },
    Row {
        line: Line::Join(b"ann", b"cool"),
        asked: (1, 1),
        looked: 1,
        refreshed: 1,
        ..FREE
    },
    Row {
        line: Line::Rm(b"f"),
        ..FREE
    },
    Row {
        line: Line::Leave(b"joe", b"adm"),
        asked: (2, 2),
        looked: 2,
        refreshed: 2,
        ..FREE
    },
];

pub static COMES_AND_GOES: [Row; 4] = [
    Row {
        line: Line::Useradd(b"bob", 1003, b"staff"),
        asked: (0, 5),
        refreshed: 5,
        verdicts: &[(3, b"f", 0x11)],
        ..FREE
    },
    Row {
        line: Line::Setfacl(b"u:joe:rw", false, b"f"),
        asked: (0, 4),
        refreshed: 4,
        ..FREE
    },
    Row {
        line: Line::Userdel(b"joe"),
        ..FREE
    },
    Row {
        line: Line::Useradd(b"zoe", 1000, b"cool"),
        asked: (0, 5),
        refreshed: 5,
        verdicts: &[(3, b"f", 0x55), (2, b"f", 0x11)],
        ..FREE
    },
];

/// The last user goes, and another one comes.
pub static NOBODY_IS_LEFT: [Row; 4] = [
    Row {
        line: Line::Userdel(b"joe"),
        ..FREE
    },
    Row {
        line: Line::Userdel(b"lisa"),
        ..FREE
    },
    Row {
        line: Line::Userdel(b"ann"),
        ..FREE
    },
    Row {
        line: Line::Useradd(b"bob", 1003, b"staff"),
        asked: (0, 5),
        refreshed: 5,
        verdicts: &[(0, b"f", 0x11)],
        ..FREE
    },
];

/// A file of users and groups without rows.
const FILE_OF_NUMBERS: &[u8] =
    b"# file: f\n# owner: 7\n# group: 8\nuser::rw-\ngroup::r--\nother::r--\n";

/// There is nobody until a user comes, who goes again. The label that the file had before is kept meanwhile.
pub static NOBODY_IS_LOADED: [Row; 5] = [
    Row {
        line: Line::Load(Table::Group, GROUP),
        ..FREE
    },
    Row {
        line: Line::Load(Table::Dump, FILE_OF_NUMBERS),
        ..FREE
    },
    Row {
        line: Line::Chmod(0o600, b"f"),
        ..FREE
    },
    Row {
        line: Line::Useradd(b"bob", 1003, b"staff"),
        asked: (0, 1),
        refreshed: 1,
        verdicts: &[(0, b"f", 0x01)],
        ..FREE
    },
    Row {
        line: Line::Userdel(b"bob"),
        ..FREE
    },
];

/// No file has f's label while a user comes. Run then gets the label that f has, which is not judged again.
pub static COMES_BACK: [Row; 4] = [
    Row {
        line: Line::Chmod(0o600, b"f"),
        asked: (0, 3),
        ..FREE
    },
    Row {
        line: Line::Useradd(b"bob", 1003, b"staff"),
        asked: (0, 5),
        refreshed: 5,
        verdicts: &[(3, b"f", 0x01)],
        ..FREE
    },
    Row {
        line: Line::Chmod(0o640, b"f"),
        asked: (0, 4),
        refreshed: 4,
        verdicts: &[(3, b"f", 0x11), (LISA, b"f", 0x55)],
        ..FREE
    },
    Row {
        line: Line::Chmod(0o640, b"run"),
        refreshed: 4,
        verdicts: &[(3, b"run", 0x11)],
        ..FREE
    },
];
