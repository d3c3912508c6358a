//! The rows of passwd(5) and group(5). What is read is printed: `name:uid:gid` or `name:gid:members` for a counted row,
//! or `bad row` and the line. And the names that a new row of passwd(5) may have.

use crate::compared::{expect_bytes, expect_row, push};
use acl_text::{FaultKind, GroupRow, PasswdRow, TextFault, is_user_name, read_group, read_passwd};
use std::alloc::Global;
use std::process::Abort;

/// A passwd text.
const PASSWD: &[u8] = b"lisa:x:1001:50:Lisa:/home/lisa:/bin/sh
joe:x:1000:100:Joe:/home/joe:/bin/sh
ann:x:1002:100:Ann:/home/ann:/bin/sh
";

/// A group text.
const GROUP: &[u8] = b"staff:x:50:
users:x:100:
cool:x:60:lisa
adm:x:70:
";

fn push_number(rt: &impl Abort, printed: &mut Vec<u8>, alloc: Global, number: usize) {
    let digits = format!(in alloc; "{number}").expect(rt, "memory");
    push(rt, printed, digits.as_bytes());
}

fn bad_row(rt: &impl Abort, alloc: Global, line: usize) -> Vec<u8> {
    let mut printed = Vec::new(alloc);
    push(rt, &mut printed, b"bad row ");
    push_number(rt, &mut printed, alloc, line);
    printed
}

fn print_passwd(rt: &impl Abort, alloc: Global, rows: &[PasswdRow]) -> Vec<u8> {
    let mut printed = Vec::new(alloc);
    for row in rows {
        push(rt, &mut printed, row.name.as_bytes());
        push(rt, &mut printed, b":");
        push_number(rt, &mut printed, alloc, row.uid.number() as usize);
        push(rt, &mut printed, b":");
        push_number(rt, &mut printed, alloc, row.gid.number() as usize);
        push(rt, &mut printed, b"\n");
    }
    printed
}

fn print_group_row(rt: &impl Abort, printed: &mut Vec<u8>, alloc: Global, row: &GroupRow) {
    push(rt, printed, row.name.as_bytes());
    push(rt, printed, b":");
    push_number(rt, printed, alloc, row.gid.number() as usize);
    push(rt, printed, b":");
    for name in row.names.as_slice() {
        push(rt, printed, name.as_bytes());
        push(rt, printed, b",");
    }
    push(rt, printed, b"\n");
}

fn print_group(rt: &impl Abort, alloc: Global, rows: &[GroupRow]) -> Vec<u8> {
    let mut printed = Vec::new(alloc);
    for row in rows {
        print_group_row(rt, &mut printed, alloc, row);
    }
    printed
}

fn print_fault(rt: &impl Abort, alloc: Global, fault: TextFault) -> Vec<u8> {
    assert!(rt; fault.kind == FaultKind::BadRow);
    bad_row(rt, alloc, fault.at)
}

/// What is read of a passwd text.
fn printed_users(rt: &impl Abort, alloc: Global, text: &[u8]) -> Vec<u8> {
    match read_passwd(alloc, text) {
        Ok(rows) => print_passwd(rt, alloc, &rows),
        Err(fault) => print_fault(rt, alloc, fault),
    }
}

/// What is read of a group text.
fn printed_groups(rt: &impl Abort, alloc: Global, text: &[u8]) -> Vec<u8> {
    match read_group(alloc, text) {
        Ok(rows) => print_group(rt, alloc, &rows),
        Err(fault) => print_fault(rt, alloc, fault),
    }
}

/// Passwd texts, and what is read of them.
static USERS: [(&[u8], &[u8]); 11] = [
    (PASSWD, b"lisa:1001:50\njoe:1000:100\nann:1002:100\n"),
    // Blank lines and comments are ignored, and repeated users.
    (
        b"#x\n\njoe:x:1000:100:::\njoe:x:1:1:::\nal b:x:7:8:A:/:/sh",
        b"joe:1000:100\nal b:7:8\n",
    ),
    (
        b"a:x:4294967294:4294967294:::",
        b"a:4294967294:4294967294\n",
    ),
    // The first bad row is reported.
    (b"joe:x:1000:100:::\njoe:x:1:1::\n", b"bad row 2"),
    (b"#\n \n", b"bad row 2"),
    (b"\n:x:1:1:::", b"bad row 2"),
    (b"\na:x:1:1::::", b"bad row 2"),
    (b"\na:x:4294967295:1:::", b"bad row 2"),
    (b"\na:x:1:4294967295:::", b"bad row 2"),
    (b"\na:x::1:::", b"bad row 2"),
    (b"\na:x:+1:1:::", b"bad row 2"),
];

#[test]
fn users(rt: HostRuntime) {
    for (at, (text, want)) in USERS.iter().enumerate() {
        let printed = printed_users(&rt, rt.alloc(), text);
        expect_bytes(&rt, at, &printed, want);
    }
}

/// Group texts, and what is read of them.
static GROUPS: [(&[u8], &[u8]); 9] = [
    (GROUP, b"staff:50:\nusers:100:\ncool:60:lisa,\nadm:70:\n"),
    // Repeated groups are ignored, and empty members.
    (b"a:x:1:\na:x:2:b\n", b"a:1:\n"),
    (b"a:x:1:,b,,c,", b"a:1:b,c,\n"),
    (b"a:x:4294967294:", b"a:4294967294:\n"),
    // The first bad row is reported.
    (b"a:x:1:\na:x:1", b"bad row 2"),
    (b"\na:x:1:b:c", b"bad row 2"),
    (b"\n:x:1:", b"bad row 2"),
    (b"\na:x:4294967295:", b"bad row 2"),
    (b"\na:x: 1:", b"bad row 2"),
];

#[test]
fn groups(rt: HostRuntime) {
    for (at, (text, want)) in GROUPS.iter().enumerate() {
        let printed = printed_groups(&rt, rt.alloc(), text);
        expect_bytes(&rt, at, &printed, want);
    }
}

/// Names, and whether a new user may have them.
static USER_NAMES: [(&[u8], bool); 7] = [
    (b"joe", true),
    (b"7up", true),
    (b"1000", false),
    (b"", false),
    (b"a:b", false),
    (b"a,b", false),
    (b"a\nb", false),
];

#[test]
fn names_of_new_users(rt: HostRuntime) {
    for (at, (name, want)) in USER_NAMES.iter().enumerate() {
        expect_row(&rt, at, is_user_name(name) == *want);
    }
}
