//! Modes, and files beside one another.
use crate::files_as_texts::{expect_label, expect_lists, file};
use crate::lists_by_number::{ANN, JOE, LISA, STAFF, USERS, id};
use acl_edit::{Node, chmod};
use acl_entry::{Subject, granted};
use std::alloc::Global;
use std::process::Abort;

/// A file, modes that it is given in turn, and its lists and flags afterwards.
static MODES: [(&str, &[u16], &str, [bool; 3]); 7] = [
    (
        "u::rw-,u:1000:rwx,g::r--,m::rwx,o::---",
        &[0o600],
        "u::rw-,u:1000:rwx,g::r--,m::---,o::---",
        [false; 3],
    ),
    (
        "u::rw-,g::r--,o::---",
        &[0o4604],
        "u::rw-,g::---,o::r--",
        [true, false, false],
    ),
    (
        "u::rw-,g::r--,o::---",
        &[0o4604, 0o604],
        "u::rw-,g::---,o::r--",
        [false; 3],
    ),
    (
        "u::rwx,g::r-x,o::r-x/",
        &[0o3750],
        "u::rwx,g::r-x,o::---/",
        [false, true, true],
    ),
    (
        "u::rwx,g::r-x,o::r-x/",
        &[0o3750, 0o705],
        "u::rwx,g::---,o::r-x/",
        [false, true, false],
    ),
    // A directory keeps its set user ID, and a plain file no set group ID.
    (
        "u::rwx,g::r-x,o::r-x/",
        &[0o4755, 0o755],
        "u::rwx,g::r-x,o::r-x/",
        [true, false, false],
    ),
    (
        "u::rw-,g::r--,o::---",
        &[0o2640, 0o640],
        "u::rw-,g::r--,o::---",
        [false; 3],
    ),
];

/// The file, after the modes.
fn with_modes(rt: &impl Abort, alloc: Global, text: &str, modes: &[u16]) -> Node {
    let mut node = file(rt, alloc, text);
    for mode in modes {
        chmod(&mut node, *mode);
    }
    node
}

#[test]
fn modes_are_put(rt: HostRuntime) {
    for (text, modes, lists, flags) in &MODES {
        let node = with_modes(&rt, rt.alloc(), text, modes);
        expect_lists(&rt, rt.alloc(), &node, lists);
        expect_label(&rt, &node, LISA, STAFF, *flags);
    }
}

/// A user of users.
fn of_users(rt: &impl Abort, alloc: Global, user: u32) -> Subject {
    Subject::from_groups(alloc, id(rt, user), &[id(rt, USERS)]).expect(rt, "memory")
}

/// Users, and what they are granted, as a byte: joe's entry denies what users and the others may do.
static GRANTED: [(u32, u8); 2] = [(JOE, 0x01), (ANN, 0xff)];

#[test]
fn a_named_user_is_not_one_of_the_others(rt: HostRuntime) {
    let text = "u::rw-,u:1000:---,g::r--,g:100:rwx,m::rwx,o::r--";
    let node = file(&rt, rt.alloc(), text);
    for (user, want) in &GRANTED {
        let asking = of_users(&rt, rt.alloc(), *user);
        assert!(rt; granted(&asking, &node.label).bits() == *want);
    }
}

/// Modes that a copy of a file is given, and whether its label is that of the file.
static LABELS: [(&[u16], bool); 3] = [(&[], true), (&[0o4640], true), (&[0o4640, 0o644], false)];

fn copy(rt: &impl Abort, alloc: Global, node: &Node, modes: &[u16]) -> Node {
    let mut copy = node.try_clone(alloc).expect(rt, "memory");
    for mode in modes {
        chmod(&mut copy, *mode);
    }
    copy
}

#[test]
fn a_changed_list_is_another_label(rt: HostRuntime) {
    let node = file(&rt, rt.alloc(), "u::rw-,g::r--,o::---");
    for (modes, want) in &LABELS {
        assert!(rt; node.same_label(&copy(&rt, rt.alloc(), &node, modes)) == *want);
    }
}
