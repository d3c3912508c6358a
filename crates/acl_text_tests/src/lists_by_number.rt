//! Keys, permission sets and lists from numbers, which a table can contain.

use acl_entry::{Acl, Entry, Id, Key, Perm};
use std::alloc::Global;
use std::process::Abort;

/// A key, its user or group by number.
pub enum Who {
    Owner,
    User(u32),
    OwningGroup,
    Group(u32),
    Mask,
    Other,
}

/// An entry: its key, and its permissions as a digit.
pub type Row = (Who, u8);

pub fn id(rt: &impl Abort, number: u32) -> Id {
    Id::new(number).expect(rt, "an id")
}

pub fn perm(rt: &impl Abort, number: u8) -> Perm {
    Perm::from_number(number).expect(rt, "a permission set")
}

pub fn key(rt: &impl Abort, who: &Who) -> Key {
    match who {
        Who::Owner => Key::Owner,
        Who::User(number) => Key::User(id(rt, *number)),
        Who::OwningGroup => Key::OwningGroup,
        Who::Group(number) => Key::Group(id(rt, *number)),
        Who::Mask => Key::Mask,
        Who::Other => Key::Other,
    }
}

/// The list of the rows.
pub fn list(rt: &impl Abort, alloc: Global, rows: &[Row]) -> Acl {
    let mut entries = Vec::new(alloc);
    for (who, number) in rows {
        let entry = Entry {
            key: key(rt, who),
            perm: perm(rt, *number),
        };
        entries.push(entry).expect(rt, "memory");
    }
    Acl::from_entries(alloc, &entries).expect(rt, "a list")
}
