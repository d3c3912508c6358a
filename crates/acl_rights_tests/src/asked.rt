//! How a question is tested here: rows, each of some lines, what is then asked, and what is printed.
//!
//! A row is data, so a new one needs no code.

ghost use Rattle.std.specs.Prelude.{IfSome};
ghost use Rattle.acl_tree.specs.Reports.{Reports};

use crate::lines::{Line, command, path, paths};
use acl_edit::Kind;
use acl_entry::Perm;
use acl_rights::{IndexedState, Judge, Posix, Verdicts};
use acl_tree::{Staged, State};
use facl_answers::{files_asked, write_changes, write_index, write_may, write_who, write_why};
use facl_counts::{Asked, Folders, Listing, write_below, write_folders, write_gains, write_listed};
use std::alloc::Global;
use std::mem;
use std::process::Abort;

/// What is asked, its operands as they are written.
pub enum Question {
    Index,
    /// A user and a file. Its answer is the byte of the requests.
    Can(&'static [u8], &'static [u8]),
    /// A request and a file.
    Who(u8, &'static [u8]),
    /// A user and a request.
    May(&'static [u8], u8),
    /// A user and a file.
    Why(&'static [u8], &'static [u8]),
    /// A request, a kind of files, and a file that is asked about with all below it.
    Below(u8, Option<Kind>, &'static [u8]),
    /// A user, how many files, a request, and a file that is asked about with all below it.
    Listed(&'static [u8], usize, u8, &'static [u8]),
    /// One user or all, how many levels below, a request, and a file.
    Folders(Option<&'static [u8]>, usize, u8, &'static [u8]),
    /// Since the state after the setup.
    Changes,
    /// How many files changed, since the state after the setup.
    Gains,
}

/// Lines after the setup, what is then asked, and what is answered.
pub struct Row {
    pub lines: &'static [Line],
    pub question: Question,
    /// Whether search on the directories above counts too.
    pub along: bool,
    /// None where a file is not recorded, or nobody has the user's name.
    pub answer: Option<&'static [u8]>,
}

/// A state with its index, and the judge of the index.
#[derive(Drop)]
struct World {
    indexed: IndexedState<Posix>,
    judge: Posix,
}

/// The state after the setup, and the one after a row's lines.
#[derive(Drop)]
struct Worlds {
    loaded: World,
    now: World,
}

fn can(alloc: Global, verdicts: &Verdicts<'_, Posix>, user: &[u8], text: &[u8]) -> Option<Vec<u8>> {
    let user = verdicts.state.state().people().find_user(user)?;
    let requests = verdicts.get(user, &path(alloc, text)?)?;
    let mut answer = Vec::new(alloc);
    answer.push(requests.bits()).ok()?;
    Some(answer)
}

fn who(alloc: Global, verdicts: &Verdicts<'_, Posix>, request: u8, text: &[u8]) -> Option<Vec<u8>> {
    let path = path(alloc, text)?;
    let request = Perm::from_number(request)?;
    write_who(alloc, verdicts, &path, request).ok()?
}

fn may(alloc: Global, verdicts: &Verdicts<'_, Posix>, user: &[u8], request: u8) -> Option<Vec<u8>> {
    let user = verdicts.state.state().people().find_user(user)?;
    let request = Perm::from_number(request)?;
    write_may(alloc, verdicts, user, request).ok()?
}

fn why(
    alloc: Global,
    indexed: &IndexedState<Posix>,
    user: &[u8],
    text: &[u8],
    along: bool,
) -> Option<Vec<u8>> {
    let state = indexed.state();
    let user = state.people().find_user(user)?;
    let subject = state.people().subject_at(user)?;
    let paths = paths(alloc, text)?;
    let files = files_asked(alloc, state.tree(), paths, along).ok()?;
    write_why(alloc, indexed, subject, &files).ok()
}

fn below(
    alloc: Global,
    verdicts: &Verdicts<'_, Posix>,
    request: u8,
    kind: Option<Kind>,
    text: &[u8],
) -> Option<Vec<u8>> {
    let asked = Asked {
        request: Perm::from_number(request)?,
        kind,
    };
    let paths = paths(alloc, text)?;
    write_below(alloc, verdicts, &asked, &paths).ok()
}

fn listed(
    alloc: Global,
    verdicts: &Verdicts<'_, Posix>,
    user: &[u8],
    most: usize,
    request: u8,
    text: &[u8],
) -> Option<Vec<u8>> {
    let user = verdicts.state.state().people().find_user(user)?;
    let asked = Asked {
        request: Perm::from_number(request)?,
        kind: None,
    };
    let listing = Listing { asked, user, most };
    let paths = paths(alloc, text)?;
    write_listed(alloc, verdicts, &listing, &paths).ok()
}

fn folders(
    alloc: Global,
    verdicts: &Verdicts<'_, Posix>,
    user: Option<&[u8]>,
    depth: usize,
    request: u8,
    text: &[u8],
) -> Option<Vec<u8>> {
    let user = match user {
        Some(name) => Some(verdicts.state.state().people().find_user(name)?),
        None => None,
    };
    let asked = Asked {
        request: Perm::from_number(request)?,
        kind: None,
    };
    let which = Folders { asked, user, depth };
    let paths = paths(alloc, text)?;
    write_folders(alloc, verdicts, &which, &paths).ok()
}

/// What a question prints; none where it is not answered.
fn answer(alloc: Global, worlds: &Worlds, question: &Question, along: bool) -> Option<Vec<u8>> {
    let loaded = &worlds.loaded.indexed;
    let indexed = &worlds.now.indexed;
    let verdicts = indexed.verdicts(along);
    match question {
        Question::Index => write_index(alloc, indexed).ok(),
        Question::Can(user, text) => can(alloc, &verdicts, user, text),
        Question::Who(request, text) => who(alloc, &verdicts, *request, text),
        Question::May(user, request) => may(alloc, &verdicts, user, *request),
        Question::Why(user, text) => why(alloc, indexed, user, text, along),
        Question::Below(request, kind, text) => below(alloc, &verdicts, *request, *kind, text),
        Question::Listed(user, most, request, text) => {
            listed(alloc, &verdicts, user, *most, *request, text)
        }
        Question::Folders(user, depth, request, text) => {
            folders(alloc, &verdicts, *user, *depth, *request, text)
        }
        Question::Changes => write_changes(alloc, loaded, &verdicts).ok(),
        Question::Gains => write_gains(alloc, loaded, &verdicts).ok(),
    }
}

fn is_answered(found: Option<Vec<u8>>, wanted: Option<&[u8]>) -> bool {
    match found {
        Some(text) => wanted == Some(text.as_slice()),
        None => wanted.is_none(),
    }
}

/// No file, and nobody.
fn nothing(alloc: Global) -> Option<World> {
    let state = State::new(alloc).ok()?;
    let mut judge = Posix::new();
    let indexed = IndexedState::build(alloc, &mut judge, state).ok()?;
    Some(World { indexed, judge })
}

/// The prepared state after a line; none where the line is refused.
pub fn prepared(alloc: Global, state: &State, line: &Line) -> Option<Staged>
    ensures { IfSome result (λ staged. Reports state.now staged) }
{
    let command = command(alloc, state.people(), line)?;
    let outcome = state.prepare(alloc, &command);
    drop(command);
    match outcome {
        Ok(staged) => Some(staged),
        Err(_) => None,
    }
}

/// Runs a line; whether it is accepted.
fn is_accepted(alloc: Global, world: &mut World, line: &Line) -> bool {
    let before = world.judge.asked();
    if before > 1_000_000 {
        return false;
    }
    let staged = match prepared(alloc, world.indexed.state(), line) {
        Some(staged) => staged,
        None => return false,
    };
    staged.tree().soundness_law();
    staged.people().soundness_law();
    match world.indexed.after(alloc, &mut world.judge, staged) {
        Ok(indexed) => {
            drop(mem::replace(&mut world.indexed, indexed));
            true
        }
        Err(_) => false,
    }
}

/// Runs some lines; whether all of them are accepted.
fn are_accepted(alloc: Global, world: &mut World, lines: &[Line]) -> bool {
    for line in lines {
        if !is_accepted(alloc, world, line) {
            return false;
        }
    }
    true
}

/// The state after the setup and some lines.
fn after(rt: &impl Abort, alloc: Global, setup: &[Line], lines: &[Line]) -> World {
    let mut world = nothing(alloc).expect(rt, "memory");
    assert!(rt; are_accepted(alloc, &mut world, setup), "the setup");
    assert!(rt; are_accepted(alloc, &mut world, lines), "the lines");
    world
}

/// Asks a row's question of the state after its lines.
fn expect_row(rt: &impl Abort, alloc: Global, setup: &[Line], row: &Row, at: usize) {
    let worlds = Worlds {
        loaded: after(rt, alloc, setup, &[]),
        now: after(rt, alloc, setup, row.lines),
    };
    let found = answer(alloc, &worlds, &row.question, row.along);
    drop(worlds);
    assert!(rt; is_answered(found, row.answer), "row {at}");
}

/// Asks each row's question.
pub fn expect_rows(rt: &impl Abort, alloc: Global, setup: &[Line], rows: &[Row]) {
    for at in 0..rows.len() {
        expect_row(rt, alloc, setup, &rows[at], at);
    }
}
