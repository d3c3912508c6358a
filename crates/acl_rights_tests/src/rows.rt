//! The rows of files, one after another, by their classes.
use crate::costs::after;
use crate::lines::Line;
use crate::world::{FREE, Row};
use acl_entry::Requests;
use acl_names::read_path;
use acl_rights::FileClasses;
use std::alloc::Global;
use std::cmp::Ordering;

/// Who may do nothing there cannot search the root.
static ROOT_CLOSED: [Row; 1] = [Row {
    line: Line::Chmod(0o700, b"."),
    asked: (0, 3),
    refreshed: 15,
    ..FREE
}];

/// A file, and for each user the byte of the requests.
pub type Wanted = (&'static [u8], [u8; 3]);

static ALONE: [Wanted; 5] = [
    (b".", [0xff, 0x01, 0x01]),
    (b"f", [0x55, 0x01, 0x01]),
    (b"log", [0x55, 0x01, 0x01]),
    (b"pub", [0x33, 0x33, 0xff]),
    (b"run", [0xff, 0x33, 0x33]),
];

static ALONG: [Wanted; 5] = [
    (b".", [0xff, 0x01, 0x01]),
    (b"f", [0x55, 0x00, 0x00]),
    (b"log", [0x55, 0x00, 0x00]),
    (b"pub", [0x33, 0x00, 0x00]),
    (b"run", [0xff, 0x00, 0x00]),
];

/// The byte of each user's requests.
pub fn bytes(alloc: Global, row: &[Requests]) -> Option<Vec<u8>> {
    let mut bytes = Vec::new(alloc);
    for requests in row {
        bytes.push(requests.bits()).ok()?;
    }
    Some(bytes)
}

/// Whether the verdicts on a class, user by user, are these.
fn are_cells(classes: &FileClasses<'_>, class: usize, wanted: &[u8; 3]) -> Option<bool> {
    for user in 0..wanted.len() {
        if classes.cell(class, user)?.bits() != wanted[user] {
            return Some(false);
        }
    }
    Some(classes.cell(class, wanted.len()).is_none())
}

/// Whether the next file is this one, and its class has this row.
pub fn is_next(alloc: Global, classes: &mut FileClasses<'_>, wanted: &Wanted) -> Option<bool> {
    let (path, class) = classes.next(alloc).ok()??;
    let cells = classes.row(alloc, class).ok()??;
    let row = bytes(alloc, cells.as_slice())?;
    let wanted_path = read_path(alloc, wanted.0).ok()??;
    let is_file = path.order(&wanted_path) == Ordering::Equal;
    let is_row = row.as_slice() == wanted.1.as_slice();
    Some(is_file && is_row && are_cells(classes, class, &wanted.1)?)
}

/// Whether the files are these, in this order, with these rows.
fn are(alloc: Global, classes: FileClasses<'_>, all: &[Wanted]) -> Option<bool> {
    let mut rest = classes;
    for wanted in all {
        if !is_next(alloc, &mut rest, wanted)? {
            return Some(false);
        }
    }
    Some(rest.path().is_none())
}

#[test]
fn each_file_has_a_row(rt: HostRuntime) {
    let alloc = rt.alloc();
    let world = after(&rt, alloc, &ROOT_CLOSED);
    let alone = are(alloc, world.index.file_classes(alloc, false), &ALONE);
    let along = are(alloc, world.index.file_classes(alloc, true), &ALONG);
    drop(world);
    assert!(rt; (alone, along) == (Some(true), Some(true)));
}
