//! Ids, permission sets, entries and lists from numbers, which a table can contain.
use acl_entry::{Acl, Entry, Id, Key, Perm};
use std::alloc::Global;
use std::process::Abort;

pub const JOE: u32 = 1000;

pub const LISA: u32 = 1001;

pub const ANN: u32 = 1002;

pub const STAFF: u32 = 50;

pub const ADM: u32 = 70;

pub const USERS: u32 = 100;

/// A key, its user or group by number.
pub enum Who {
    Owner,
    User(u32),
    OwningGroup,
    Group(u32),
    Mask,
    Other,
}

/// An entry: its key, and its permissions as a digit.
pub type Row = (Who, u8);

pub fn id(rt: &impl Abort, number: u32) -> Id {
    Id::new(number).expect(rt, "an id")
}

pub fn perm(rt: &impl Abort, number: u8) -> Perm {
    Perm::from_number(number).expect(rt, "a permission set")
}

pub fn key(rt: &impl Abort, who: &Who) -> Key {
    match who {
        Who::Owner => Key::Owner,
        Who::User(number) => Key::User(id(rt, *number)),
        Who::OwningGroup => Key::OwningGroup,
        Who::Group(number) => Key::Group(id(rt, *number)),
        Who::Mask => Key::Mask,
        Who::Other => Key::Other,
    }
}

/// Adds an entry with this key.
pub fn push(rt: &impl Abort, entries: &mut Vec<Entry>, key: Key, number: u8) {
    let perm = perm(rt, number);
    entries.push(Entry { key, perm }).expect(rt, "memory");
}

/// Adds the entries of the rows.
pub fn push_rows(rt: &impl Abort, entries: &mut Vec<Entry>, rows: &[Row]) {
    for (who, number) in rows {
        push(rt, entries, key(rt, who), *number);
    }
}

/// The entries of the rows.
pub fn entries(rt: &impl Abort, alloc: Global, rows: &[Row]) -> Vec<Entry> {
    let mut entries = Vec::new(alloc);
    push_rows(rt, &mut entries, rows);
    entries
}

/// The list of the rows.
pub fn list(rt: &impl Abort, alloc: Global, rows: &[Row]) -> Acl {
    Acl::from_entries(alloc, &entries(rt, alloc, rows)).expect(rt, "a valid list")
}

/// The entries of the list are these, in this order.
pub fn expect_entries(rt: &impl Abort, alloc: Global, acl: &Acl, rows: &[Row]) {
    let want = entries(rt, alloc, rows);
    assert!(rt; acl.entries() == want.as_slice(), "other entries");
}
