//! The nearest entry above a path: in a map without the root, and in one with it.
use crate::numbered_paths::{map_of, path, rows};
use acl_names::Path;
use path_map::PathMap;
use std::alloc::Global;
use std::process::Abort;

static WITHOUT_ROOT: [(&[u8], usize); 5] = [
    (b"a", 1),
    (b"a/b", 2),
    (b"a/b/x/y", 3),
    (b"a/bc", 4),
    (b"c", 5),
];

/// Paths, each with the value of the nearest entry above it.
static ABOVE: [(&[u8], Option<usize>); 10] = [
    // It is below three entries.
    (b"a/b/x/y/z", Some(3)),
    (b"a/b/x/z", Some(2)),
    // The entry before it is a/b/x/y, which is not above it.
    (b"a/b/y/z", Some(2)),
    // The entry before it is a/bc, whose name begins alike.
    (b"a/bcd/e", Some(1)),
    (b"a/b", Some(1)),
    (b"c/d/e/f", Some(5)),
    // No entry is above these.
    (b"a", None),
    (b"b/d", None),
    (b"ab/d", None),
    (b".", None),
];

static WITH_ROOT: [(&[u8], usize); 3] = [(b".", 1), (b"a/b", 2), (b"ab", 3)];

static ABOVE_WITH_ROOT: [(&[u8], Option<usize>); 5] = [
    (b"a", Some(1)),
    (b"a/c/d", Some(1)),
    (b"a/b/c", Some(2)),
    (b"ab/c", Some(3)),
    (b".", None),
];

fn value_above(map: &PathMap<usize>, path: &Path) -> Option<usize> {
    match map.nearest_above(path) {
        Some(entry) => Some(entry.1),
        None => None,
    }
}

fn expect_above(
    rt: &impl Abort,
    alloc: Global,
    map: &PathMap<usize>,
    text: &[u8],
    want: Option<usize>,
) {
    let below = path(rt, alloc, text);
    assert!(rt; value_above(map, &below) == want);
}

#[test]
fn the_nearest_entry_above_a_path(rt: HostRuntime) {
    let map = map_of(&rt, rt.alloc(), &rows(&rt, rt.alloc(), &WITHOUT_ROOT));
    for (text, want) in &ABOVE {
        expect_above(&rt, rt.alloc(), &map, text, *want);
    }
}

#[test]
fn the_root_is_above_all_other_paths(rt: HostRuntime) {
    let map = map_of(&rt, rt.alloc(), &rows(&rt, rt.alloc(), &WITH_ROOT));
    for (text, want) in &ABOVE_WITH_ROOT {
        expect_above(&rt, rt.alloc(), &map, text, *want);
    }
}

#[test]
fn nothing_is_above_in_an_empty_map(rt: HostRuntime) {
    let empty: PathMap<usize> = PathMap::new(rt.alloc());
    expect_above(&rt, rt.alloc(), &empty, b"a/b", None);
}
