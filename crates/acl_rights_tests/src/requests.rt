//! The line of the requests that are granted, and the parts of other lines: a byte and a file.
use crate::small_tree::{load, path};
use acl_entry::{Perm, Requests};
use acl_names::Path;
use acl_tree::{FoundFile, Tree};
use facl_answers::{append_requests, push_file, push_hex};
use std::alloc::Global;
use std::process::Abort;

fn within(rt: &impl Abort, number: u8) -> Requests {
    Requests::within(Perm::from_number(number).expect(rt, "a set"))
}

fn expect_requests(rt: &impl Abort, alloc: Global, granted: Requests, want: &str) {
    let mut text = Vec::new(alloc);
    append_requests(&mut text, granted).expect(rt, "memory");
    assert!(rt; text.as_slice() == want.as_bytes(), "{want}");
}

#[test]
fn granted_requests(rt: HostRuntime) {
    let alloc = rt.alloc();
    expect_requests(&rt, alloc, within(&rt, 0), "none\n");
    expect_requests(&rt, alloc, within(&rt, 7), "--x -w- -wx r-- r-x rw- rwx\n");
    expect_requests(&rt, alloc, within(&rt, 5), "--x r-- r-x\n");
    let two = within(&rt, 2).union(within(&rt, 4));
    expect_requests(&rt, alloc, two, "-w- r--\n");
}

#[test]
fn a_byte_has_two_digits(rt: HostRuntime) {
    let mut text = Vec::new(rt.alloc());
    push_hex(&mut text, 0x0f).expect(&rt, "memory");
    push_hex(&mut text, 0xa1).expect(&rt, "memory");
    assert!(rt; text.as_slice() == b"0fa1".as_slice());
}

/// The line of a file of the tree that has no other one below.
fn line_of(rt: &impl Abort, alloc: Global, tree: &Tree, path: &Path) -> Vec<u8> {
    let node = tree.get(path).expect(rt, "a file");
    let mut text = Vec::new(alloc);
    push_file(&mut text, &FoundFile::new(path, node, false)).expect(rt, "memory");
    text
}

#[test]
fn a_directory_ends_in_a_slash(rt: HostRuntime) {
    let (tree, people) = load(&rt, rt.alloc());
    drop(people);
    let directory = path(&rt, rt.alloc(), b"pub");
    let text = line_of(&rt, rt.alloc(), &tree, &directory);
    drop(tree);
    assert!(rt; text.as_slice() == b"pub/\n".as_slice());
}
