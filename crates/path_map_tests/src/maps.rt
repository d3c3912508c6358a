//! A map of four paths. What is found is printed, each path with its value.
use crate::numbered_paths::{digit, map_of, path, rows};
use acl_names::{Path, append_path};
use path_map::{Entries, PathMap, PathMapBuilder, Within};
use std::alloc::Global;
use std::process::Abort;

static FOUR: [(&[u8], usize); 4] = [(b".", 1), (b"a", 2), (b"a/b", 3), (b"ab", 4)];

fn four(rt: &impl Abort, alloc: Global) -> PathMap<usize> {
    map_of(rt, alloc, &rows(rt, alloc, &FOUR))
}

fn push_entry(rt: &impl Abort, text: &mut Vec<u8>, path: &Path, value: usize) {
    append_path(text, path).expect(rt, "memory");
    text.extend_from_slice(&[b'=', digit(value), b' '])
        .expect(rt, "memory");
}

fn printed(rt: &impl Abort, alloc: Global, mut entries: Entries<'_, usize>) -> Vec<u8> {
    let mut text = Vec::new(alloc);
    for _ in 0..9 {
        match entries.next() {
            Some(entry) => push_entry(rt, &mut text, entry.0, entry.1),
            None => break,
        }
    }
    text
}

fn printed_within(rt: &impl Abort, alloc: Global, mut entries: Within<'_, '_, usize>) -> Vec<u8> {
    let mut text = Vec::new(alloc);
    for _ in 0..9 {
        match entries.next() {
            Some(entry) => push_entry(rt, &mut text, entry.0, entry.1),
            None => break,
        }
    }
    text
}

/// A path, its value, and what is printed from it on, after all below it, and within it.
struct Look {
    path: &'static [u8],
    value: Option<usize>,
    from: &'static [u8],
    after: &'static [u8],
    within: &'static [u8],
}

static LOOKS: [Look; 4] = [
    Look {
        path: b".",
        value: Some(1),
        from: b".=1 a=2 a/b=3 ab=4 ",
        after: b"",
        within: b".=1 a=2 a/b=3 ab=4 ",
    },
    // A sibling whose name begins alike is not below.
    Look {
        path: b"a",
        value: Some(2),
        from: b"a=2 a/b=3 ab=4 ",
        after: b"ab=4 ",
        within: b"a=2 a/b=3 ",
    },
    Look {
        path: b"a/b",
        value: Some(3),
        from: b"a/b=3 ab=4 ",
        after: b"ab=4 ",
        within: b"a/b=3 ",
    },
    Look {
        path: b"a/c",
        value: None,
        from: b"ab=4 ",
        after: b"ab=4 ",
        within: b"",
    },
];

fn expect_look(rt: &impl Abort, alloc: Global, map: &PathMap<usize>, look: &Look) {
    let path = path(rt, alloc, look.path);
    assert!(rt; map.get(&path) == look.value);
    assert!(rt; printed(rt, alloc, map.from(&path)).as_slice() == look.from);
    assert!(rt; printed(rt, alloc, map.after(&path)).as_slice() == look.after);
    assert!(rt; printed_within(rt, alloc, map.within(&path)).as_slice() == look.within);
}

#[test]
fn a_map_is_looked_at(rt: HostRuntime) {
    let map = four(&rt, rt.alloc());
    for look in &LOOKS {
        expect_look(&rt, rt.alloc(), &map, look);
    }
}

#[test]
fn the_first_entry(rt: HostRuntime) {
    let map = four(&rt, rt.alloc());
    let root = path(&rt, rt.alloc(), b".");
    let entries = map.iter();
    let first = entries.peek().expect(&rt, "an entry");
    assert!(rt; first.order(&root).is_eq());
}

#[test]
fn an_empty_map_has_no_entry(rt: HostRuntime) {
    let empty: PathMap<usize> = PathMap::new(rt.alloc());
    assert!(rt; empty.iter().peek().is_none());
}

/// The map is printed like this.
fn expect_printed(rt: &impl Abort, alloc: Global, map: &PathMap<usize>, want: &[u8]) {
    assert!(rt; printed(rt, alloc, map.iter()).as_slice() == want);
}

/// The map of two entries whose paths are moved into it.
fn built(rt: &impl Abort, alloc: Global, first: Path, second: Path) -> PathMap<usize> {
    assert!(rt; first.order(&second).is_lt());
    let mut builder = PathMapBuilder::new(alloc);
    builder.push(alloc, first, 1).expect(rt, "memory");
    builder.push(alloc, second, 2).expect(rt, "memory");
    builder.finish(alloc).expect(rt, "memory")
}

#[test]
fn paths_are_moved_into_a_map(rt: HostRuntime) {
    let first = path(&rt, rt.alloc(), b"a");
    let map = built(&rt, rt.alloc(), first, path(&rt, rt.alloc(), b"a/b"));
    expect_printed(&rt, rt.alloc(), &map, b"a=1 a/b=2 ");
}

/// The map with two entries put.
fn put(
    rt: &impl Abort,
    alloc: Global,
    map: &PathMap<usize>,
    first: &Path,
    second: &Path,
) -> PathMap<usize> {
    assert!(rt; first.order(second).is_lt());
    map.put_all(alloc, &[(first, 7), (second, 5)])
        .expect(rt, "memory")
}

#[test]
fn entries_are_put(rt: HostRuntime) {
    let map = four(&rt, rt.alloc());
    let first = path(&rt, rt.alloc(), b"a");
    let new = put(
        &rt,
        rt.alloc(),
        &map,
        &first,
        &path(&rt, rt.alloc(), b"a/c"),
    );
    expect_printed(&rt, rt.alloc(), &map, b".=1 a=2 a/b=3 ab=4 ");
    drop(map);
    expect_printed(&rt, rt.alloc(), &new, b".=1 a=7 a/b=3 a/c=5 ab=4 ");
}

/// The map without two paths.
fn without(
    rt: &impl Abort,
    alloc: Global,
    map: &PathMap<usize>,
    first: &Path,
    second: &Path,
) -> PathMap<usize> {
    assert!(rt; first.order(second).is_lt());
    map.without_all(alloc, &[(first, ()), (second, ())])
        .expect(rt, "memory")
}

#[test]
fn entries_are_removed(rt: HostRuntime) {
    let map = four(&rt, rt.alloc());
    let copy = map.share().expect(&rt, "memory");
    let first = path(&rt, rt.alloc(), b"a");
    let new = without(
        &rt,
        rt.alloc(),
        &map,
        &first,
        &path(&rt, rt.alloc(), b"a/c"),
    );
    drop(map);
    expect_printed(&rt, rt.alloc(), &new, b".=1 a/b=3 ab=4 ");
    expect_printed(&rt, rt.alloc(), &copy, b".=1 a=2 a/b=3 ab=4 ");
}

/// The map with other values of two paths.
fn with_values(
    rt: &impl Abort,
    alloc: Global,
    map: &PathMap<usize>,
    first: &Path,
    second: &Path,
) -> PathMap<usize> {
    assert!(rt; first.order(second).is_lt());
    map.with_values(alloc, &[(first, 7), (second, 8)])
        .expect(rt, "memory")
}

// A path that the map has not is passed over.
#[test]
fn values_are_replaced_by_their_paths(rt: HostRuntime) {
    let map = four(&rt, rt.alloc());
    let first = path(&rt, rt.alloc(), b"a");
    let new = with_values(
        &rt,
        rt.alloc(),
        &map,
        &first,
        &path(&rt, rt.alloc(), b"a/c"),
    );
    expect_printed(&rt, rt.alloc(), &map, b".=1 a=2 a/b=3 ab=4 ");
    drop(map);
    expect_printed(&rt, rt.alloc(), &new, b".=1 a=7 a/b=3 ab=4 ");
}

/// The map with other values of two paths, and those that they had.
fn replaced(
    rt: &impl Abort,
    alloc: Global,
    map: &PathMap<usize>,
    first: &Path,
    second: &Path,
) -> (PathMap<usize>, Vec<Option<usize>>) {
    assert!(rt; first.order(second).is_lt());
    map.replaced(alloc, &[(first, 8), (second, 9)])
        .expect(rt, "memory")
}

#[test]
fn replaced_values_are_returned(rt: HostRuntime) {
    let map = four(&rt, rt.alloc());
    let first = path(&rt, rt.alloc(), b"a/c");
    let (new, was) = replaced(&rt, rt.alloc(), &map, &first, &path(&rt, rt.alloc(), b"ab"));
    expect_printed(&rt, rt.alloc(), &new, b".=1 a=2 a/b=3 ab=9 ");
    assert!(rt; was.as_slice() == [None, Some(4)].as_slice());
}

/// The values of two paths.
fn values_of(
    rt: &impl Abort,
    alloc: Global,
    map: &PathMap<usize>,
    first: &Path,
    second: &Path,
) -> Vec<Option<usize>> {
    assert!(rt; first.order(second).is_lt());
    map.get_all(alloc, &[(first, ()), (second, ())])
        .expect(rt, "memory")
}

#[test]
fn many_paths_are_looked_up(rt: HostRuntime) {
    let map = four(&rt, rt.alloc());
    let first = path(&rt, rt.alloc(), b"a/c");
    let found = values_of(&rt, rt.alloc(), &map, &first, &path(&rt, rt.alloc(), b"ab"));
    assert!(rt; found.as_slice() == [None, Some(4)].as_slice());
}
