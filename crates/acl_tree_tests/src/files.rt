//! The files of a tree, and a command that is prepared and not put in place.
use crate::rows::{Line, after, command, paths};
use crate::shown::{expect_text, listing};
use crate::texts::{FOUR, PEOPLE};
use acl_names::append_path;
use acl_text::append_id;
use acl_tree::{
    FoundFile, Paths, Selection, Staged, State, Tree, each_file_is_edited, each_record_is_a_file,
};
use std::alloc::Global;
use std::process::Abort;

const BEFORE: &str = "pgd\n\
. d--- lisa:staff u::rwx,g::r-x,o::r-x\n\
d d--- ann:users u::rwx,g::r-x,o::r-x\n\
d/e ---- ann:users u::rw-,g::r--,o::r--\n\
f ---- lisa:staff u::rw-,g::r--,o::---\n\
lisa: staff cool\njoe: users\nann: users\n";

const PREPARED: &str = "pgd\n\
. d--- lisa:staff u::rwx,g::r-x,o::r-x\n\
f ---- lisa:staff u::rw-,g::r--,o::---\n\
lisa: staff cool\njoe: users\nann: users\n";

fn prepared(rt: &impl Abort, alloc: Global, state: &State, line: &Line) -> Staged {
    let command = command(rt, alloc, state.people(), line);
    let prepared = state.prepare(alloc, &command);
    drop(command);
    prepared.expect(rt, "a command")
}

/// What a prepared command would leave, which is given up.
fn prepared_listing(rt: &impl Abort, alloc: Global, staged: Staged) -> Vec<u8> {
    let text = listing(rt, alloc, staged.tree(), staged.people());
    staged.give_up();
    text
}

fn expect_prepared(rt: &impl Abort, alloc: Global, state: &State, line: &Line, want: &str) {
    let staged = prepared(rt, alloc, state, line);
    expect_text(rt, prepared_listing(rt, alloc, staged), want);
}

fn expect_state(rt: &impl Abort, alloc: Global, state: &State, want: &str) {
    let text = listing(rt, alloc, state.tree(), state.people());
    expect_text(rt, text, want);
}

#[test]
fn files_come_in_path_order(rt: HostRuntime) {
    each_record_is_a_file();
    each_file_is_edited();
    let state = after(&rt, rt.alloc(), &[PEOPLE, FOUR]);
    state.tree().soundness_law();
    expect_state(&rt, rt.alloc(), &state, BEFORE);
    drop(state);
}

static REMOVAL: Line = Line::Rm(true, &[b"d"]);

#[test]
fn a_prepared_command_is_given_up(rt: HostRuntime) {
    let alloc = rt.alloc();
    let state = after(&rt, alloc, &[PEOPLE, FOUR]);
    expect_prepared(&rt, alloc, &state, &REMOVAL, PREPARED);
    expect_state(&rt, alloc, &state, BEFORE);
    drop(state);
}

fn line_end(has_below: bool) -> &'static [u8] {
    if has_below { b" above\n" } else { b"\n" }
}

/// A path with the owner's id, and whether files are below it.
fn push_found(rt: &impl Abort, text: &mut Vec<u8>, file: &FoundFile<'_>) {
    append_path(text, file.path()).expect(rt, "memory");
    text.push(b' ').expect(rt, "memory");
    append_id(text, file.node().label.owner, None).expect(rt, "memory");
    text.extend_from_slice(line_end(file.has_below()))
        .expect(rt, "memory");
}

fn found_text(rt: &impl Abort, alloc: Global, files: &[FoundFile<'_>]) -> Vec<u8> {
    let mut text = Vec::new(alloc);
    for file in files {
        push_found(rt, &mut text, file);
    }
    text
}

/// All files at or below some operands.
fn found<'a>(
    rt: &impl Abort,
    alloc: Global,
    tree: &'a Tree,
    operands: &Paths,
) -> Vec<FoundFile<'a>> {
    let selection = Selection {
        operands,
        recursive: true,
    };
    tree.files(alloc, &selection).expect(rt, "memory")
}

fn expect_found(rt: &impl Abort, alloc: Global, tree: &Tree, names: &[&[u8]], want: &str) {
    let files = found(rt, alloc, tree, &paths(rt, alloc, names));
    expect_text(rt, found_text(rt, alloc, &files), want);
}

static OPERANDS: [&[u8]; 3] = [b"f", b"d", b"d/e"];

#[test]
fn operands_mean_their_files_once(rt: HostRuntime) {
    let state = after(&rt, rt.alloc(), &[PEOPLE, FOUR]);
    let want = "d 1002 above\nd/e 1002\nf 1001\n";
    expect_found(&rt, rt.alloc(), state.tree(), &OPERANDS, want);
    drop(state);
}
