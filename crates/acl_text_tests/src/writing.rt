//! Written lists.

use crate::compared::{expect_same, push};
use crate::lists_by_number::Who::{Group, Mask, Other, Owner, OwningGroup, User};
use crate::lists_by_number::{Row, id, list, perm};
use crate::people::People;
use acl_entry::{Entry, Key};
use acl_text::{
    Effective, Form, NoNames, Which, append_entry, append_short, push_line, write_long, write_short,
};

static ENTRIES: [Row; 7] = [
    (Owner, 6),
    (User(1000), 7),
    (OwningGroup, 4),
    (Group(7), 1),
    (Group(60), 2),
    (Mask, 7),
    (Other, 0),
];

#[test]
fn short_form(rt: HostRuntime) {
    let acl = list(&rt, rt.alloc(), &ENTRIES);
    let short = write_short(rt.alloc(), &acl, &People).expect(&rt, "memory");
    expect_same(
        &rt,
        &short,
        b"u::rw-,u:joe:rwx,g::r--,g:7:--x,g:cool:-w-,m::rwx,o::---",
    );
}

#[test]
fn long_form(rt: HostRuntime) {
    let acl = list(&rt, rt.alloc(), &ENTRIES);
    let long = write_long(rt.alloc(), &acl, &People).expect(&rt, "memory");
    expect_same(
        &rt,
        &long,
        b"user::rw-\nuser:joe:rwx\ngroup::r--\ngroup:7:--x\ngroup:cool:-w-\nmask::rwx\nother::---\n",
    );
}

#[test]
fn numbers_after_a_text(rt: HostRuntime) {
    let acl = list(&rt, rt.alloc(), &ENTRIES);
    let mut text = Vec::new(rt.alloc());
    push(&rt, &mut text, b"f [");
    append_short(&mut text, &acl, &NoNames).expect(&rt, "memory");
    expect_same(
        &rt,
        &text,
        b"f [u::rw-,u:1000:rwx,g::r--,g:7:--x,g:60:-w-,m::rwx,o::---",
    );
}

#[test]
fn names_with_escapes(rt: HostRuntime) {
    let entry = Entry {
        key: Key::User(id(&rt, 2000)),
        perm: perm(&rt, 4),
    };
    let mut text = Vec::new(rt.alloc());
    append_entry(&mut text, &entry, Form::Long, &People).expect(&rt, "memory");
    expect_same(&rt, &text, b"user:al\\040b:r--");
}

#[test]
fn a_line_of_an_entry_under_a_mask(rt: HostRuntime) {
    let entry = Entry {
        key: Key::User(id(&rt, 1000)),
        perm: perm(&rt, 7),
    };
    let mask = Some(perm(&rt, 5));
    let mut text = Vec::new(rt.alloc());
    let how = Effective::WhereMasked;
    push_line(&mut text, how, Which::Default, &mask, &entry, &People).expect(&rt, "memory");
    expect_same(&rt, &text, b"default:user:joe:rwx\t\t#effective:r-x\n");
}
