//! The state after the texts were loaded, beside the one after a line.
use crate::asked::prepared;
use crate::lines::Line;
use crate::small_tree::path;
use crate::texts::{FILES, GROUP, JOE, PASSWD};
use acl_names::Path;
use acl_rights::{IndexedState, IndexedStates, Posix};
use acl_tree::{Command, State, Table};
use std::alloc::Global;
use std::process::Abort;

fn put(rt: &impl Abort, alloc: Global, state: &mut State, which: Table, bytes: &[u8]) {
    let command = Command::Load { which, bytes };
    let staged = state.prepare(alloc, &command);
    drop(command);
    state.commit(staged.expect(rt, "a text"));
}

/// The state of the texts.
fn loaded(rt: &impl Abort, alloc: Global) -> State {
    let mut state = State::new(alloc).expect(rt, "memory");
    put(rt, alloc, &mut state, Table::Passwd, PASSWD);
    put(rt, alloc, &mut state, Table::Group, GROUP);
    put(rt, alloc, &mut state, Table::Dump, FILES);
    state
}

/// A state and the one after a line, which is the same if the line is refused; if it `loads`, the state after it is the
/// loaded one too. None if memory runs out.
fn after(alloc: Global, state: State, line: &Line, loads: bool) -> Option<IndexedStates<Posix>> {
    let mut judge = Posix::new();
    let mut states = IndexedStates::new(alloc, &mut judge, state).ok()?;
    let staged = prepared(alloc, states.state().state(), line);
    match states.replace_if(alloc, &mut judge, staged, loads) {
        Ok(()) => Some(states),
        Err(_) => None,
    }
}

/// What joe may do with a file, as a byte.
fn requests(rt: &impl Abort, indexed: &IndexedState<Posix>, path: &Path) -> u8 {
    let found = indexed.verdicts(false).get(JOE, path);
    found.expect(rt, "a file").bits()
}

/// A line, how many parts of the tree it changes, and what joe may do with `f` after it.
fn expect_after(rt: &impl Abort, alloc: Global, line: &Line, parts: usize, byte: u8) {
    let states = after(alloc, loaded(rt, alloc), line, false).expect(rt, "memory");
    let file = path(rt, alloc, b"f");
    assert!(rt; requests(rt, states.loaded(), &file) == 0x01);
    assert!(rt; requests(rt, states.state(), &file) == byte);
    assert!(rt; states.changed().len() == parts);
    drop(states);
}

#[test]
fn the_loaded_state_is_kept(rt: HostRuntime) {
    expect_after(&rt, rt.alloc(), &Line::Chmod(0o644, b"f"), 1, 0x11);
    expect_after(&rt, rt.alloc(), &Line::Chmod(0o644, b"gone"), 0, 0x01);
}

// What changed before a load is no part of what changed since.
#[test]
fn a_load_begins_again(rt: HostRuntime) {
    let state = loaded(&rt, rt.alloc());
    let states = after(rt.alloc(), state, &Line::Chmod(0o644, b"f"), true).expect(&rt, "memory");
    let file = path(&rt, rt.alloc(), b"f");
    assert!(rt; requests(&rt, states.loaded(), &file) == 0x11);
    assert!(rt; states.changed().is_empty());
    drop(states);
}
