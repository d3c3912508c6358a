//! Files by classes: the row of each file's class, how many classes there are, and how many files have each.
use crate::lines::Line;
use crate::rows::{Wanted, bytes, is_next};
use crate::texts::{GROUP, PASSWD};
use crate::world::{FREE, Row, World, first_wrong, nothing};
use acl_names::read_path;
use acl_rights::{ClassFiles, FileClasses};
use acl_tree::Table;
use std::alloc::Global;
use std::cmp::Ordering;
use std::process::Abort;

/// Two directories with files of one label.
const FILES: &[u8] =
    b"# file: .\n# owner: lisa\n# group: staff\nuser::rwx\ngroup::r-x\nother::r-x\n\n\
# file: a\n# owner: lisa\n# group: staff\nuser::rwx\ngroup::---\nother::---\n\n\
# file: a/f\n# owner: lisa\n# group: staff\nuser::rw-\ngroup::r--\nother::r--\n\n\
# file: b\n# owner: lisa\n# group: staff\nuser::rwx\ngroup::r-x\nother::r-x\n\n\
# file: b/f\n# owner: lisa\n# group: staff\nuser::rw-\ngroup::r--\nother::r--\n\n\
# file: b/g\n# owner: lisa\n# group: staff\nuser::rw-\ngroup::r--\nother::r--\n\n";

static SETUP: [Row; 3] = [
    Row {
        line: Line::Load(Table::Passwd, PASSWD),
        ..FREE
    },
    Row {
        line: Line::Load(Table::Group, GROUP),
        ..FREE
    },
    Row {
        line: Line::Load(Table::Dump, FILES),
        asked: (0, 9),
        refreshed: 18,
        ..FREE
    },
];

/// Three labels, three classes.
static ALONE: [Wanted; 6] = [
    (b".", [0xff, 0x33, 0x33]),
    (b"a", [0xff, 0x01, 0x01]),
    (b"a/f", [0x55, 0x11, 0x11]),
    (b"b", [0xff, 0x33, 0x33]),
    (b"b/f", [0x55, 0x11, 0x11]),
    (b"b/g", [0x55, 0x11, 0x11]),
];

/// The files of one label are of two classes, below two directories, of which one is closed to joe and ann. The root and
/// `b` are of two classes, since nothing is above the root.
static ALONG: [Wanted; 6] = [
    (b".", [0xff, 0x33, 0x33]),
    (b"a", [0xff, 0x01, 0x01]),
    (b"a/f", [0x55, 0x00, 0x00]),
    (b"b", [0xff, 0x33, 0x33]),
    (b"b/f", [0x55, 0x11, 0x11]),
    (b"b/g", [0x55, 0x11, 0x11]),
];

/// Whether the files are `all`, in this order, in `count` classes.
fn are(alloc: Global, classes: FileClasses<'_>, all: &[Wanted], count: usize) -> Option<bool> {
    let mut rest = classes;
    for wanted in all {
        if !is_next(alloc, &mut rest, wanted)? {
            return Some(false);
        }
    }
    let last = rest.row(alloc, count.checked_sub(1)?).ok()?;
    let none = rest.row(alloc, count).ok()?;
    Some(last.is_some() && none.is_none())
}

#[test]
fn each_file_has_a_class(rt: HostRuntime) {
    let alloc = rt.alloc();
    let mut world = nothing(alloc).expect(&rt, "memory");
    assert_eq!(rt; first_wrong(alloc, &mut world, &SETUP), None);
    let alone = are(alloc, world.index.file_classes(alloc, false), &ALONE, 3);
    let along = are(alloc, world.index.file_classes(alloc, true), &ALONG, 5);
    drop(world);
    assert!(rt; (alone, along) == (Some(true), Some(true)));
}

/// The files from one on, below a directory that is closed to joe and ann.
#[test]
fn each_file_from_a_path_on_has_a_class(rt: HostRuntime) {
    let alloc = rt.alloc();
    let mut world = nothing(alloc).expect(&rt, "memory");
    assert_eq!(rt; first_wrong(alloc, &mut world, &SETUP), None);
    let file = read_path(alloc, b"a/f").expect(&rt, "memory");
    let top = file.expect(&rt, "a path");
    let alone = world.index.file_classes_from(alloc, false, &top);
    let is_alone = are(alloc, alone, ALONE.split_at(2).1, 2);
    let along = world.index.file_classes_from(alloc, true, &top);
    let is_along = are(alloc, along, ALONG.split_at(2).1, 3);
    drop(world);
    assert!(rt; (is_alone, is_along) == (Some(true), Some(true)));
}

/// Three directories, of which the last has the label of the first; files of one label below each of them.
const FILES_APART: &[u8] =
    b"# file: .\n# owner: lisa\n# group: staff\nuser::rwx\ngroup::r-x\nother::r-x\n\n\
# file: a\n# owner: lisa\n# group: staff\nuser::rwx\ngroup::---\nother::---\n\n\
# file: a/f\n# owner: lisa\n# group: staff\nuser::rw-\ngroup::r--\nother::r--\n\n\
# file: b\n# owner: lisa\n# group: staff\nuser::rwx\ngroup::r-x\nother::r-x\n\n\
# file: b/f\n# owner: lisa\n# group: staff\nuser::rw-\ngroup::r--\nother::r--\n\n\
# file: b/g\n# owner: lisa\n# group: staff\nuser::rw-\ngroup::r--\nother::r--\n\n\
# file: c\n# owner: lisa\n# group: staff\nuser::rwx\ngroup::---\nother::---\n\n\
# file: c/f\n# owner: lisa\n# group: staff\nuser::rw-\ngroup::r--\nother::r--\n\n";

static SETUP_APART: [Row; 3] = [
    Row {
        line: Line::Load(Table::Passwd, PASSWD),
        ..FREE
    },
    Row {
        line: Line::Load(Table::Group, GROUP),
        ..FREE
    },
    Row {
        line: Line::Load(Table::Dump, FILES_APART),
        asked: (0, 9),
        refreshed: 24,
        ..FREE
    },
];

/// A file leaves its class and comes back, while another one has it.
static COMES_BACK: [Row; 2] = [
    Row {
        line: Line::Chmod(0o600, b"b/f"),
        asked: (0, 3),
        refreshed: 3,
        ..FREE
    },
    Row {
        line: Line::Chmod(0o644, b"b/f"),
        refreshed: 3,
        ..FREE
    },
];

static ALONG_APART: [Wanted; 8] = [
    (b".", [0xff, 0x33, 0x33]),
    (b"a", [0xff, 0x01, 0x01]),
    (b"a/f", [0x55, 0x00, 0x00]),
    (b"b", [0xff, 0x33, 0x33]),
    (b"b/f", [0x55, 0x11, 0x11]),
    (b"b/g", [0x55, 0x11, 0x11]),
    (b"c", [0xff, 0x01, 0x01]),
    (b"c/f", [0x55, 0x00, 0x00]),
];

/// The files along their paths have five classes, although no rows are compared: `c` has that of `a`, `c/f` that of `a/f`,
/// and `b/g` that of `b/f`.
fn expect_five(rt: &impl Abort, alloc: Global, world: &World) {
    let mut classes = world.index.file_classes(alloc, true);
    classes.keep_apart();
    assert!(rt; are(alloc, classes, &ALONG_APART, 5) == Some(true));
}

#[test]
fn files_share_a_class_without_their_rows(rt: HostRuntime) {
    let alloc = rt.alloc();
    let mut world = nothing(alloc).expect(&rt, "memory");
    assert_eq!(rt; first_wrong(alloc, &mut world, &SETUP_APART), None);
    expect_five(&rt, alloc, &world);
    assert_eq!(rt; first_wrong(alloc, &mut world, &COMES_BACK), None);
    expect_five(&rt, alloc, &world);
}

/// The first file of a class, with the row of the class, and how many files have it.
type Counted = (Wanted, usize);

static COUNTED_ALONE: [Counted; 3] = [
    ((b".", [0xff, 0x33, 0x33]), 2),
    ((b"a", [0xff, 0x01, 0x01]), 1),
    ((b"a/f", [0x55, 0x11, 0x11]), 3),
];

static COUNTED_ALONG: [Counted; 5] = [
    ((b".", [0xff, 0x33, 0x33]), 1),
    ((b"a", [0xff, 0x01, 0x01]), 1),
    ((b"a/f", [0x55, 0x00, 0x00]), 1),
    ((b"b", [0xff, 0x33, 0x33]), 1),
    ((b"b/f", [0x55, 0x11, 0x11]), 2),
];

/// Whether files of a class are these.
fn is_counted(
    alloc: Global,
    classes: &FileClasses<'_>,
    files: &ClassFiles<'_>,
    counted: &Counted,
) -> Option<bool> {
    let (wanted, count) = counted;
    let first = read_path(alloc, wanted.0).ok()??;
    let cells = classes.row(alloc, files.class).ok()??;
    let row = bytes(alloc, cells.as_slice())?;
    let is_first = files.first.order(&first) == Ordering::Equal;
    Some(is_first && files.count == *count && row.as_slice() == wanted.1.as_slice())
}

/// Whether the classes that were counted are `all`, in this order.
fn are_counted(
    alloc: Global,
    classes: &FileClasses<'_>,
    found: &[ClassFiles<'_>],
    all: &[Counted],
) -> Option<bool> {
    for at in 0..all.len() {
        if !is_counted(alloc, classes, found.get(at)?, all.get(at)?)? {
            return Some(false);
        }
    }
    Some(found.len() == all.len())
}

#[test]
fn files_are_counted_by_their_classes(rt: HostRuntime) {
    let alloc = rt.alloc();
    let mut world = nothing(alloc).expect(&rt, "memory");
    assert_eq!(rt; first_wrong(alloc, &mut world, &SETUP), None);
    let alone = world.index.counted_classes(alloc, false);
    let (classes, found) = alone.expect(&rt, "memory");
    assert!(rt; are_counted(alloc, &classes, &found, &COUNTED_ALONE) == Some(true));
    let along = world.index.counted_classes(alloc, true);
    let (classes, found) = along.expect(&rt, "memory");
    assert!(rt; are_counted(alloc, &classes, &found, &COUNTED_ALONG) == Some(true));
}
