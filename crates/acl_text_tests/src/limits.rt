//! The greatest sizes of texts, and one more.

use crate::compared::push;
use acl_text::{FaultKind, NoNames, Sep, TextFault, Want, read_entries, read_group, read_passwd};
use std::alloc::Global;
use std::process::Abort;

/// A line so many times.
fn lines(rt: &impl Abort, alloc: Global, line: &[u8], count: usize) -> Vec<u8> {
    let mut text = Vec::new(alloc);
    for _ in 0..count {
        push(rt, &mut text, line);
    }
    text
}

/// So many rows, each with another name of five letters, and what follows the name.
fn rows(rt: &impl Abort, alloc: Global, rest: &[u8], count: u32) -> Vec<u8> {
    let mut text = Vec::new(alloc);
    for i in 0..count {
        push(rt, &mut text, &name(i));
        push(rt, &mut text, rest);
    }
    text
}

/// A name of five letters, its number in base 16.
fn name(number: u32) -> [u8; 5] {
    let mut name = [b'a'; 5];
    let mut left = number;
    for letter in &mut name {
        *letter = b'a' + (left % 16) as u8;
        left /= 16;
    }
    name
}

const TOO_MANY_ROWS: TextFault = TextFault {
    kind: FaultKind::TooMany,
    at: 65537,
};

const TOO_MANY_ENTRIES: TextFault = TextFault {
    kind: FaultKind::TooMany,
    at: 16388,
};

/// A text, and a line more.
fn with_line(rt: &impl Abort, alloc: Global, text: &[u8], line: &[u8]) -> Vec<u8> {
    let mut longer = Vec::from_slice(alloc, text).expect(rt, "memory");
    push(rt, &mut longer, line);
    longer
}

/// How many there are, or the fault.
type Count = Result<usize, TextFault>;

fn entries_of(alloc: Global, text: &[u8]) -> Count {
    match read_entries(alloc, text, Sep::Line, Want::WithPerms, &NoNames) {
        Ok(specs) => Ok(specs.len()),
        Err(fault) => Err(fault),
    }
}

/// Lines after the most entries.
const ENTRIES: [(&[u8], Count); 2] = [(b"", Ok(16384)), (b"\n \n#\no:r\n", Err(TOO_MANY_ENTRIES))];

#[test]
fn entries(rt: HostRuntime) {
    let most = lines(&rt, rt.alloc(), b"o:r\n", 16384);
    for (line, want) in &ENTRIES {
        let text = with_line(&rt, rt.alloc(), &most, line);
        assert!(rt; entries_of(rt.alloc(), &text) == *want);
    }
}

fn users_of(alloc: Global, text: &[u8]) -> Count {
    match read_passwd(alloc, text) {
        Ok(rows) => Ok(rows.len()),
        Err(fault) => Err(fault),
    }
}

/// Lines after the most rows of passwd(5).
const USERS: [(&[u8], Count); 3] = [
    (b"", Ok(65536)),
    (b"aaaaa:x:1:1:::\n", Ok(65536)),
    (b"one:x:1:1:::\n", Err(TOO_MANY_ROWS)),
];

#[test]
fn passwd_rows(rt: HostRuntime) {
    let most = rows(&rt, rt.alloc(), b":x:1:1:::\n", 65536);
    for (line, want) in &USERS {
        let text = with_line(&rt, rt.alloc(), &most, line);
        assert!(rt; users_of(rt.alloc(), &text) == *want);
    }
}

fn groups_of(alloc: Global, text: &[u8]) -> Count {
    match read_group(alloc, text) {
        Ok(rows) => Ok(rows.len()),
        Err(fault) => Err(fault),
    }
}

/// Lines after the most rows of group(5).
const GROUPS: [(&[u8], Count); 3] = [
    (b"", Ok(65536)),
    (b"aaaaa:x:1:a,b\n", Ok(65536)),
    (b"one:x:1:\n", Err(TOO_MANY_ROWS)),
];

#[test]
fn group_rows(rt: HostRuntime) {
    let most = rows(&rt, rt.alloc(), b":x:1:\n", 65536);
    for (line, want) in &GROUPS {
        let text = with_line(&rt, rt.alloc(), &most, line);
        assert!(rt; groups_of(rt.alloc(), &text) == *want);
    }
}
