//! Attributes: lists both ways, refused ones, and the most entries.
use crate::compared::{expect_same, push};
use crate::lists_by_number::Who::{Mask, Other, Owner, OwningGroup, User};
use crate::lists_by_number::{Row, list};
use acl_text::{FaultKind, TextFault, decode_attr, encode_attr};
use std::alloc::Global;
use std::process::Abort;

/// `user::rw-`, `user:1000:rwx`, `group::r--`, `mask::rwx`, `other::---`.
const WORKED: [u8; 44] = [
    2, 0, 0, 0, 1, 0, 6, 0, 255, 255, 255, 255, 2, 0, 7, 0, 232, 3, 0, 0, 4, 0, 4, 0, 255, 255,
    255, 255, 16, 0, 7, 0, 255, 255, 255, 255, 32, 0, 0, 0, 255, 255, 255, 255,
];

/// `user::rw-`, `group::r--`, `other::---`.
const MINIMAL: [u8; 28] = [
    2, 0, 0, 0, 1, 0, 6, 0, 255, 255, 255, 255, 4, 0, 4, 0, 255, 255, 255, 255, 32, 0, 0, 0, 255,
    255, 255, 255,
];

/// The same, with other bytes where no id is.
const MINIMAL_WITH_IDS: [u8; 28] = [
    2, 0, 0, 0, 1, 0, 6, 0, 1, 2, 3, 4, 4, 0, 4, 0, 0, 0, 0, 0, 32, 0, 0, 0, 9, 0, 0, 0,
];

const WORKED_LIST: &[Row] = &[
    (Owner, 6),
    (User(1000), 7),
    (OwningGroup, 4),
    (Mask, 7),
    (Other, 0),
];

const MINIMAL_LIST: &[Row] = &[(Owner, 6), (OwningGroup, 4), (Other, 0)];

/// Lists, and how they are written.
static WRITTEN: [(&[Row], &[u8]); 2] = [(WORKED_LIST, &WORKED), (MINIMAL_LIST, &MINIMAL)];

#[test]
fn lists_are_written(rt: HostRuntime) {
    for (rows, want) in &WRITTEN {
        let acl = list(&rt, rt.alloc(), rows);
        let bytes = encode_attr(rt.alloc(), &acl).expect(&rt, "memory");
        expect_same(&rt, &bytes, want);
    }
}

/// Attributes, and their lists.
static READ: [(&[u8], &[Row]); 3] = [
    (&WORKED, WORKED_LIST),
    (&MINIMAL, MINIMAL_LIST),
    (&MINIMAL_WITH_IDS, MINIMAL_LIST),
];

#[test]
fn attributes_are_read(rt: HostRuntime) {
    for (bytes, rows) in &READ {
        let acl = list(&rt, rt.alloc(), rows);
        let found = decode_attr(rt.alloc(), bytes).expect(&rt, "an attribute");
        assert!(rt; found.same(&acl));
    }
}

/// How many entries the attribute has, or its fault.
fn length_of(alloc: Global, bytes: &[u8]) -> Result<usize, TextFault> {
    match decode_attr(alloc, bytes) {
        Ok(acl) => Ok(acl.entries().len()),
        Err(fault) => Err(fault),
    }
}

fn bad(at: usize) -> TextFault {
    TextFault {
        kind: FaultKind::BadAttr,
        at,
    }
}

const HEAD: &[u8] = &[2, 0, 0, 0];

const OWNER: &[u8] = &[1, 0, 6, 0, 255, 255, 255, 255];

const JOE: &[u8] = &[2, 0, 7, 0, 232, 3, 0, 0];

const OWNING_GROUP: &[u8] = &[4, 0, 4, 0, 255, 255, 255, 255];

const MASK: &[u8] = &[16, 0, 7, 0, 255, 255, 255, 255];

const OTHER: &[u8] = &[32, 0, 0, 0, 255, 255, 255, 255];

/// Attributes in parts, each with the place of its fault.
static REFUSED: [(&str, &[&[u8]], usize); 10] = [
    ("another number in front", &[&[3, 0, 0, 0]], 0),
    ("a part of the number", &[&[2, 0, 0]], 0),
    ("no entries", &[HEAD], 1),
    (
        "permissions of 8",
        &[HEAD, &[1, 0, 8, 0, 255, 255, 255, 255]],
        1,
    ),
    ("no entry of the others", &[HEAD, OWNER, OWNING_GROUP], 3),
    ("no mask", &[HEAD, OWNER, JOE, OWNING_GROUP], 4),
    (
        "a byte is missing",
        &[
            HEAD,
            OWNER,
            JOE,
            OWNING_GROUP,
            MASK,
            &[32, 0, 0, 0, 255, 255, 255],
        ],
        5,
    ),
    (
        "an entry is repeated",
        &[HEAD, OWNER, JOE, JOE, OWNING_GROUP, MASK, OTHER],
        3,
    ),
    (
        "a user after the owning group",
        &[HEAD, OWNER, OWNING_GROUP, JOE, MASK, OTHER],
        3,
    ),
    (
        "an id that names nobody",
        &[
            HEAD,
            OWNER,
            &[2, 0, 7, 0, 255, 255, 255, 255],
            OWNING_GROUP,
            MASK,
            OTHER,
        ],
        2,
    ),
];

fn joined(rt: &impl Abort, alloc: Global, parts: &[&[u8]]) -> Vec<u8> {
    let mut bytes = Vec::new(alloc);
    for part in parts {
        push(rt, &mut bytes, part);
    }
    bytes
}

#[test]
fn attributes_are_refused(rt: HostRuntime) {
    for (name, parts, at) in &REFUSED {
        let bytes = joined(&rt, rt.alloc(), parts);
        assert!(rt; length_of(rt.alloc(), &bytes) == Err(bad(*at)), "{name}");
    }
}

/// An attribute of the owner, so many named users, and the other entries that a list needs.
fn with_users(rt: &impl Abort, alloc: Global, users: u32) -> Vec<u8> {
    let mut bytes = joined(rt, alloc, &[HEAD, OWNER]);
    for user in 0..users {
        let [a, b, c, d] = user.to_le_bytes();
        push(rt, &mut bytes, &[2, 0, 4, 0, a, b, c, d]);
    }
    push(rt, &mut bytes, &WORKED[20..]);
    bytes
}

#[test]
fn the_most_entries(rt: HostRuntime) {
    let most = with_users(&rt, rt.alloc(), 4092);
    assert!(rt; length_of(rt.alloc(), &most) == Ok(4096));
    let more = with_users(&rt, rt.alloc(), 4093);
    assert!(rt; length_of(rt.alloc(), &more) == Err(bad(4097)));
}
