//! Entry texts.

use crate::compared::{expect_fault, expect_row};
use crate::lists_by_number::Who::{Group, Mask, Other, User};
use crate::lists_by_number::{Who, key, perm};
use crate::people::People;
use acl_text::{PermSpec, Sep, Spec, TextFault, Want, read_entries, read_perms};
use std::alloc::Global;
use std::process::Abort;

/// The fault of a text of entries; none where it is read.
pub fn fault_of(alloc: Global, text: &[u8], sep: Sep, want: Want) -> Option<TextFault> {
    read_entries(alloc, text, sep, want, &People).err()
}

/// A text of entries, what it is for, and its first fault, with the entry's number.
static FIRST_FAULTS: [(&str, Want, &str); 16] = [
    (
        "u:ann:r,u:nosuch:q,u:none:r",
        Want::WithPerms,
        "BadPerms, 2",
    ),
    ("u:4294967295:r", Want::WithPerms, "UnknownUser, 1"),
    ("u:joe:r", Want::WithoutPerms, "UnwantedPerms, 1"),
    ("u:", Want::WithoutPerms, "BaseEntry, 1"),
    ("u:joe", Want::WithPerms, "MissingPerms, 1"),
    ("joe:r,,x:y:z:7", Want::WithPerms, "BadTag, 3"),
    ("m:x:7", Want::WithPerms, "BadTag, 1"),
    ("o:x:7", Want::WithPerms, "BadTag, 1"),
    ("d:u:joe:7", Want::Plain, "BadTag, 1"),
    ("u:joe:rX", Want::Plain, "BadPerms, 1"),
    ("u:joe:8", Want::Plain, "BadPerms, 1"),
    // A carriage return is no blank.
    ("u:joe:r\r", Want::Plain, "BadPerms, 1"),
    ("g:joe:7", Want::Plain, "UnknownGroup, 1"),
    ("u:4294967295:q", Want::Plain, "BadPerms, 1"),
    // One more than the greatest id.
    ("4294967295:r", Want::Plain, "UnknownUser, 1"),
    ("g:4294967295:r", Want::Plain, "UnknownGroup, 1"),
];

#[test]
fn first_faults(rt: HostRuntime) {
    for (text, want, fault) in &FIRST_FAULTS {
        let found = fault_of(rt.alloc(), text.as_bytes(), Sep::Comma, *want);
        expect_fault(&rt, rt.alloc(), found, fault);
    }
}

static MAX_IDS: [&str; 2] = ["u:4294967294:r", "g:0004294967294:r"];

#[test]
fn greatest_ids(rt: HostRuntime) {
    for text in &MAX_IDS {
        let found = fault_of(rt.alloc(), text.as_bytes(), Sep::Comma, Want::Plain);
        assert!(rt; found.is_none(), "{text}");
    }
}

/// The text is read as these entries.
fn expect_specs(rt: &impl Abort, alloc: Global, text: &[u8], sep: Sep, want: Want, specs: &[Spec]) {
    let found = read_entries(alloc, text, sep, want, &People).expect(rt, "entries");
    assert!(rt; found.as_slice() == specs);
}

/// What is read of an entry: its number, whether it is of the default list, its key, its permissions as a digit,
/// and whether `X` is among them.
type Row = (usize, bool, Who, Option<(u8, bool)>);

fn perm_spec(rt: &impl Abort, perms: &Option<(u8, bool)>) -> Option<PermSpec> {
    match perms {
        Some((digit, cond_x)) => Some(PermSpec {
            fixed: perm(rt, *digit),
            cond_x: *cond_x,
        }),
        None => None,
    }
}

fn specs(rt: &impl Abort, alloc: Global, rows: &[Row]) -> Vec<Spec> {
    let mut specs = Vec::new(alloc);
    for (at, dflt, who, perms) in rows {
        let spec = Spec {
            at: *at,
            dflt: *dflt,
            key: key(rt, who),
            perm: perm_spec(rt, perms),
        };
        specs.push(spec).expect(rt, "memory");
    }
    specs
}

/// A text, how its entries are separated, what it is for, and the entries.
static READ: [(&[u8], Sep, Want, [Row; 4]); 2] = [
    (
        b" d : user : ann : rX #x\n\n \t \nm::7\n # nothing\ngroup:cool:-\no:",
        Sep::Line,
        Want::WithPerms,
        [
            (1, true, User(1002), Some((4, true))),
            (4, false, Mask, Some((7, false))),
            (6, false, Group(60), Some((0, false))),
            (7, false, Other, Some((0, false))),
        ],
    ),
    (
        b"m:,joe,d:g:50:,\\152oe",
        Sep::Comma,
        Want::WithoutPerms,
        [
            (1, false, Mask, None),
            (2, false, User(1000), None),
            (3, true, Group(50), None),
            (4, false, User(1000), None),
        ],
    ),
];

#[test]
fn entries_are_read(rt: HostRuntime) {
    for (text, sep, want, rows) in &READ {
        let specs = specs(&rt, rt.alloc(), rows);
        expect_specs(&rt, rt.alloc(), text, *sep, *want, &specs);
    }
}

/// A text, and the permissions that it is read as.
static PERMISSIONS: [(&[u8], Option<u8>); 10] = [
    (b"", Some(0)),
    (b"-", Some(0)),
    (b"0", Some(0)),
    (b"5", Some(5)),
    (b"xr", Some(5)),
    (b"w-w", Some(2)),
    (b"X", None),
    (b"8", None),
    (b"44", None),
    (b" r", None),
];

#[test]
fn permissions(rt: HostRuntime) {
    for (at, (text, want)) in PERMISSIONS.iter().enumerate() {
        let found = match read_perms(text) {
            Some(perm) => Some(perm.number()),
            None => None,
        };
        expect_row(&rt, at, found == *want);
    }
}
