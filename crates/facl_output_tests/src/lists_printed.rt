//! What setfacl(1) prints with `--test`, chacl(1) with `-l`, and `attr`; and the path of a file.
use crate::found_files::{all_found, setup};
use acl_tree::State;
use facl_output::{
    append_test_listing, end_line, push_path, push_path_shown, write_attributes,
    write_chacl_listing,
};
use std::alloc::Global;
use std::process::Abort;

/// A file, a directory with nothing below, and one with a default list.
static THREE: [&[u8]; 3] = [b"f", b"pub", b"somedir"];

const TESTED: &[u8] = b"f: u::rw-,g::r--,o::---\n\
pub/: u::rwx,g::r-x,g:adm:rwx,m::rwx,o::r-x\n\
somedir: u::rwx,u:joe:rwx,g::rwx,g:cool:r-x,m::r-x,o::r-x,d:u::rwx,d:u:joe:rwx,d:g::r-x,d:m::r-x,d:o::---\n";

const LISTED: &[u8] = b"f [u::rw-,g::r--,o::---]\n\
pub/ [u::rwx,g::r-x,g:adm:rwx,m::rwx,o::r-x]\n\
somedir [u::rwx,u:joe:rwx,g::rwx,g:cool:r-x,m::r-x,o::r-x/u::rwx,u:joe:rwx,g::r-x,m::r-x,o::---]\n";

/// The text is this one.
fn expect_text(rt: &impl Abort, found: &[u8], want: &[u8]) {
    assert!(rt; found == want);
}

fn expect_tested(rt: &impl Abort, alloc: Global, state: &State) {
    let files = all_found(rt, alloc, state.tree(), &THREE, false);
    let mut text = Vec::new(alloc);
    append_test_listing(&mut text, state.people(), &files).expect(rt, "memory");
    expect_text(rt, &text, TESTED);
}

fn expect_listed(rt: &impl Abort, alloc: Global, state: &State) {
    let files = all_found(rt, alloc, state.tree(), &THREE, false);
    let text = write_chacl_listing(alloc, state.people(), &files).expect(rt, "memory");
    expect_text(rt, &text, LISTED);
}

static PLAIN: [&[u8]; 1] = [b"f"];

const ATTRIBUTES: &[u8] = b"# file: f\n\
system.posix_acl_access=0x0200000001000600ffffffff04000400ffffffff20000000ffffffff\n\n";

fn expect_attributes(rt: &impl Abort, alloc: Global, state: &State) {
    let files = all_found(rt, alloc, state.tree(), &PLAIN, false);
    let text = write_attributes(alloc, &files).expect(rt, "memory");
    expect_text(rt, &text, ATTRIBUTES);
}

#[test]
fn lists_are_printed(rt: HostRuntime) {
    let state = setup(&rt, rt.alloc());
    expect_tested(&rt, rt.alloc(), &state);
    expect_listed(&rt, rt.alloc(), &state);
    expect_attributes(&rt, rt.alloc(), &state);
    drop(state);
}

static DIRECTORY: [&[u8]; 1] = [b"pub"];

fn expect_path(rt: &impl Abort, alloc: Global, state: &State) {
    let files = all_found(rt, alloc, state.tree(), &DIRECTORY, false);
    let mut text = Vec::new(alloc);
    for file in &files {
        push_path_shown(&mut text, file).expect(rt, "memory");
        end_line(&mut text).expect(rt, "memory");
        push_path(&mut text, file).expect(rt, "memory");
    }
    expect_text(rt, &text, b"pub/\n# file: pub/\n");
}

#[test]
fn a_slash_shows_a_directory(rt: HostRuntime) {
    let state = setup(&rt, rt.alloc());
    expect_path(&rt, rt.alloc(), &state);
    drop(state);
}
