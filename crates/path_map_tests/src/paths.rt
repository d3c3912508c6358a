//! Paths: their texts, order, parents and beginnings in common, of those held whole and in parts.
use crate::numbered_paths::{expect_row, expect_same, path};
use acl_names::{Path, read_path, write_path};
use std::alloc::Global;
use std::cmp::Ordering;
use std::process::Abort;

/// The path is written like this.
fn expect_text(rt: &impl Abort, alloc: Global, path: &Path, want: &[u8]) {
    let text = write_path(alloc, path).expect(rt, "memory");
    expect_same(rt, &text, want);
}

#[test]
fn paths(rt: HostRuntime) {
    let path = path(&rt, rt.alloc(), b"/a//./x\\012y\\ z/");
    let mut components = path.components();
    expect_same(&rt, components.next().expect(&rt, "a"), b"a");
    expect_same(&rt, components.next().expect(&rt, "x"), b"x\ny\\ z");
    assert!(rt; components.is_empty());
    expect_text(&rt, rt.alloc(), &path, b"a/x\\012y\\134 z");
}

#[test]
fn copies(rt: HostRuntime) {
    let path = path(&rt, rt.alloc(), b"a/b");
    let again = path.try_clone(rt.alloc()).expect(&rt, "memory");
    assert!(rt; matches!(again.order(&path), Ordering::Equal));
}

fn is_refused(rt: &impl Abort, alloc: Global, text: &[u8]) -> bool {
    read_path(alloc, text).expect(rt, "memory").is_none()
}

static REFUSED: [&[u8]; 3] = [b"a/../b", b"..", b"a\\000"];

#[test]
fn refused_paths(rt: HostRuntime) {
    for (at, text) in REFUSED.iter().enumerate() {
        expect_row(&rt, at, is_refused(&rt, rt.alloc(), text));
    }
}

fn root(rt: &impl Abort, alloc: Global) -> Path {
    Path::new(Vec::new(alloc)).expect(rt, "the top")
}

#[test]
fn the_top(rt: HostRuntime) {
    let root = root(&rt, rt.alloc());
    expect_text(&rt, rt.alloc(), &root, b".");
    let path = path(&rt, rt.alloc(), b"/a//./x\\012y\\ z/");
    assert!(rt; matches!(root.order(&path), Ordering::Less));
}

/// Paths, the first of each two before the second: what is below a directory comes before its next sibling.
static ORDERED: [(&[u8], &[u8]); 4] = [
    (b".", b"a"),
    (b"a", b"a/b"),
    (b"a/b", b"a-b"),
    (b"a-b", b"b"),
];

/// The path of the text, each of its components in an allocation of its own.
fn path_in_parts(rt: &impl Abort, alloc: Global, text: &[u8]) -> Path {
    let whole = path(rt, alloc, text);
    let mut parts = Vec::new(alloc);
    let mut rest = whole.components();
    while let Some(name) = rest.next() {
        let part = Vec::from_slice(alloc, name).expect(rt, "memory");
        parts.push(part).expect(rt, "memory");
    }
    Path::new(parts).expect(rt, "a path")
}

/// How a path is held: whole, or in parts.
fn held(rt: &impl Abort, alloc: Global, text: &[u8], in_parts: bool) -> Path {
    if in_parts {
        path_in_parts(rt, alloc, text)
    } else {
        path(rt, alloc, text)
    }
}

/// Whether a path and another one are held in parts.
static HELD: [(bool, bool); 4] = [(false, false), (true, true), (true, false), (false, true)];

fn expect_order(rt: &impl Abort, alloc: Global, first_in_parts: bool, second_in_parts: bool) {
    for (at, (first, second)) in ORDERED.iter().enumerate() {
        let first = held(rt, alloc, first, first_in_parts);
        let second = held(rt, alloc, second, second_in_parts);
        expect_row(rt, at, first.order(&second).is_lt());
        expect_row(rt, at, second.order(&first).is_gt());
    }
}

#[test]
fn paths_are_in_order(rt: HostRuntime) {
    for (first, second) in &HELD {
        expect_order(&rt, rt.alloc(), *first, *second);
    }
}

/// A path, and another one: whether the path is the other one or below it, and whether it is below it.
static BELOW: [(&[u8], &[u8], bool, bool); 6] = [
    (b"a/b", b"a", true, true),
    (b"a", b"a", true, false),
    (b"ab", b"a", false, false),
    (b"a", b"a/b", false, false),
    (b"a", b".", true, true),
    (b".", b".", true, false),
];

fn expect_below(rt: &impl Abort, alloc: Global, below_in_parts: bool, top_in_parts: bool) {
    for (at, (below, top, is_within, is_below)) in BELOW.iter().enumerate() {
        let below = held(rt, alloc, below, below_in_parts);
        let top = held(rt, alloc, top, top_in_parts);
        expect_row(rt, at, below.is_within(&top) == *is_within);
        expect_row(rt, at, below.is_below(&top) == *is_below);
    }
}

#[test]
fn paths_below_others(rt: HostRuntime) {
    for (below, top) in &HELD {
        expect_below(&rt, rt.alloc(), *below, *top);
    }
}

fn parent(rt: &impl Abort, alloc: Global, text: &[u8]) -> Path {
    path(rt, alloc, text).parent(alloc).expect(rt, "memory")
}

/// A path, and its parent.
static PARENTS: [(&[u8], &[u8]); 3] = [(b"a/b/c", b"a/b"), (b"a", b"."), (b".", b".")];

#[test]
fn parents(rt: HostRuntime) {
    for (below, want) in &PARENTS {
        expect_text(&rt, rt.alloc(), &parent(&rt, rt.alloc(), below), want);
    }
}

/// Paths with their parents: of some bytes less than lie in the value of a path, as many, one more, and many more.
static LENGTHS: [(&[u8], &[u8]); 7] = [
    (b"dev", b"."),
    (
        b"012345678/012345678/012345678/abcdef",
        b"012345678/012345678/012345678",
    ),
    (
        b"012345678/012345678/012345678/abcdefg",
        b"012345678/012345678/012345678",
    ),
    (
        b"012345678/012345678/012345678/abcdefgh",
        b"012345678/012345678/012345678",
    ),
    (
        b"012345678/012345678/012345678/0123456/a",
        b"012345678/012345678/012345678/0123456",
    ),
    (
        b"012345678/012345678/012345678/01234567/a",
        b"012345678/012345678/012345678/01234567",
    ),
    (
        b"a-name-of-more-than-thirty-eight-bytes-012345678/012345678/012345678/b/c",
        b"a-name-of-more-than-thirty-eight-bytes-012345678/012345678/012345678/b",
    ),
];

/// The path is written like this, and so are its parent and what it begins with as its parent does.
fn expect_whole(rt: &impl Abort, alloc: Global, path: Path, want: &[u8], parent: &[u8]) {
    expect_text(rt, alloc, &path, want);
    let above = path.parent(alloc).expect(rt, "memory");
    expect_text(rt, alloc, &above, parent);
    assert!(rt; path.borrowed().parent().order(&above).is_eq());
    assert!(rt; path.borrowed().common(&above).order(&above).is_eq());
}

#[test]
fn paths_of_each_length(rt: HostRuntime) {
    for (text, parent) in &LENGTHS {
        let path = path(&rt, rt.alloc(), text);
        expect_whole(&rt, rt.alloc(), path, text, parent);
    }
}

#[test]
fn copies_of_each_length(rt: HostRuntime) {
    for (text, parent) in &LENGTHS {
        let path = path(&rt, rt.alloc(), text);
        let again = path.try_clone(rt.alloc()).expect(&rt, "memory");
        expect_whole(&rt, rt.alloc(), again, text, parent);
    }
}

#[test]
fn paths_in_parts_of_each_length(rt: HostRuntime) {
    for (text, parent) in &LENGTHS {
        let path = path_in_parts(&rt, rt.alloc(), text);
        expect_whole(&rt, rt.alloc(), path, text, parent);
    }
}

/// Two paths, and what they begin with: of one path few components are left, or many.
static COMMON: [(&[u8], &[u8], &[u8]); 6] = [
    (b"a/b/c", b"a/b/d", b"a/b"),
    (b"a/b", b"a/b", b"a/b"),
    (b"a/b", b"ab", b"."),
    (b"a", b"a/b", b"a"),
    (b"a/b/1/2/3/4/5/6/7/8/9/0", b"a/b/c", b"a/b"),
    (b"1/2/3/4/5/6/7/8/9/0", b"0/2/3", b"."),
];

fn expect_common(rt: &impl Abort, alloc: Global, left_in_parts: bool, right_in_parts: bool) {
    for (at, (left, right, want)) in COMMON.iter().enumerate() {
        let left = held(rt, alloc, left, left_in_parts);
        let right = held(rt, alloc, right, right_in_parts);
        let want = path(rt, alloc, want);
        expect_row(rt, at, left.borrowed().common(&right).order(&want).is_eq());
    }
}

#[test]
fn beginnings_in_common(rt: HostRuntime) {
    for (left, right) in &HELD {
        expect_common(&rt, rt.alloc(), *left, *right);
    }
}

/// Whether a path without its last component is the root, and whether it is `a` or below it.
fn expect_above(rt: &impl Abort, alloc: Global, text: &[u8], is_root: bool, is_within: bool) {
    let a = path(rt, alloc, b"a");
    for in_parts in [false, true] {
        let below = held(rt, alloc, text, in_parts);
        let above = below.borrowed().parent();
        assert!(rt; above.is_root() == is_root);
        assert!(rt; above.is_within(&a) == is_within);
    }
}

#[test]
fn borrowed_parents(rt: HostRuntime) {
    expect_above(&rt, rt.alloc(), b".", true, false);
    expect_above(&rt, rt.alloc(), b"a", true, false);
    expect_above(&rt, rt.alloc(), b"a/b", false, true);
    expect_above(&rt, rt.alloc(), b"ab/c", false, false);
}
