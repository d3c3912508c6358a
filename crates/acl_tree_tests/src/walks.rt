//! The recorded files around a path.
use crate::rows::{after, path};
use crate::shown::expect_text;
use crate::texts::{FOUR, PEOPLE};
use acl_names::{Path, append_path};
use acl_tree::Tree;
use std::alloc::Global;
use std::process::Abort;

/// The paths, each with a space after it.
fn joined(rt: &impl Abort, alloc: Global, paths: &[Path]) -> Vec<u8> {
    let mut text = Vec::new(alloc);
    for path in paths {
        append_path(&mut text, path).expect(rt, "memory");
        text.push(b' ').expect(rt, "memory");
    }
    text
}

fn expect_above(rt: &impl Abort, alloc: Global, tree: &Tree, name: &[u8], want: &str) {
    let paths = tree.ancestors(alloc, &path(rt, alloc, name));
    expect_text(rt, joined(rt, alloc, &paths.expect(rt, "memory")), want);
}

fn expect_all_above(rt: &impl Abort, alloc: Global, tree: &Tree, rows: &[(&[u8], &str)]) {
    for (name, want) in rows {
        expect_above(rt, alloc, tree, name, want);
    }
}

fn expect_within(rt: &impl Abort, alloc: Global, tree: &Tree, name: &[u8], want: &str) {
    let paths = tree.within(alloc, &path(rt, alloc, name));
    expect_text(rt, joined(rt, alloc, &paths.expect(rt, "memory")), want);
}

fn expect_all_within(rt: &impl Abort, alloc: Global, tree: &Tree, rows: &[(&[u8], &str)]) {
    for (name, want) in rows {
        expect_within(rt, alloc, tree, name, want);
    }
}

/// Paths, each with the recorded files that it is below.
static ABOVE: [(&[u8], &str); 5] = [
    (b"d/e", ". d "),
    (b"d/x/y", ". d "),
    (b"d/e/z", ". d d/e "),
    (b"e/f", ". "),
    (b".", ""),
];

/// Paths, each with the recorded files at or below it.
static WITHIN: [(&[u8], &str); 2] = [(b"d", "d d/e "), (b"x", "")];

#[test]
fn recorded_files_around_a_path(rt: HostRuntime) {
    let state = after(&rt, rt.alloc(), &[PEOPLE, FOUR]);
    expect_all_above(&rt, rt.alloc(), state.tree(), &ABOVE);
    expect_all_within(&rt, rt.alloc(), state.tree(), &WITHIN);
    drop(state);
}
