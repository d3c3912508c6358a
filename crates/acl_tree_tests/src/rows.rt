//! How a test is written here: rows, each of a command, what comes of it, and what files are afterwards.
//!
//! A row is data. What comes of a command and what a file is are compared as texts, so a new test needs no code.
use crate::shown::{are_shown, listing, outcome};
use acl_edit::{Edit, Kind, Specs};
use acl_entry::Id;
use acl_names::{Name, Path, read_path};
use acl_people::{People, UserName};
use acl_text::{DumpUse, Sep, Want, read_dump, read_entries};
use acl_tree::{Command, DumpRecords, Membership, NewFile, NewUser, Paths, State, Table};
use std::alloc::Global;
use std::process::Abort;

/// A command, its operands and texts as they are written.
pub enum Line {
    Load(Table, &'static [u8]),
    /// A mode, and whether it is also put into all files below.
    Chmod(u16, bool, &'static [&'static [u8]]),
    /// Entries that are removed, entries that are modified, and whether all files below are edited too.
    Setfacl(&'static [u8], &'static [u8], bool, &'static [&'static [u8]]),
    Restore(&'static [u8]),
    /// A user, a kind, a mode and a umask.
    Creat(&'static [u8], Kind, u16, u16, &'static [u8]),
    /// Whether directories are removed too, with all files below.
    Rm(bool, &'static [&'static [u8]]),
    /// A user and a group.
    Gpasswd(&'static [u8], &'static [u8], Membership),
    Usermod(&'static [u8], &'static [u8]),
    /// A name, an id and a group.
    Useradd(&'static [u8], u32, &'static [u8]),
    Userdel(&'static [u8]),
}

/// A command and what comes of it.
pub struct Row {
    pub line: Line,
    /// As [`outcome`] writes it.
    pub outcome: &'static str,
    /// Paths, each with what `shown` writes of it afterwards.
    pub files: &'static [(&'static [u8], &'static str)],
}

/// The path of a text; none where it is not one, or memory runs out.
fn path_of(alloc: Global, text: &[u8]) -> Option<Path> {
    read_path(alloc, text).ok()?
}

pub fn path(rt: &impl Abort, alloc: Global, text: &[u8]) -> Path {
    path_of(alloc, text).expect(rt, "a path")
}

pub fn paths(rt: &impl Abort, alloc: Global, texts: &[&[u8]]) -> Paths {
    let mut list = Vec::new(alloc);
    for text in texts {
        list.push(path(rt, alloc, text)).expect(rt, "memory");
    }
    Paths::new(list)
}

fn entries(rt: &impl Abort, alloc: Global, text: &[u8], want: Want, people: &People) -> Specs {
    Specs::new(read_entries(alloc, text, Sep::Comma, want, people).expect(rt, "entries"))
}

fn change(rt: &impl Abort, alloc: Global, people: &People, remove: &[u8], modify: &[u8]) -> Edit {
    Edit::Change {
        strip: false,
        drop_default: false,
        as_default: false,
        no_mask: false,
        remask: false,
        remove: entries(rt, alloc, remove, Want::WithoutPerms, people),
        set: Specs::new(Vec::new(alloc)),
        modify: entries(rt, alloc, modify, Want::WithPerms, people),
    }
}

fn records(rt: &impl Abort, alloc: Global, people: &People, text: &[u8]) -> DumpRecords {
    DumpRecords::new(read_dump(alloc, text, DumpUse::Restore, people).expect(rt, "records"))
}

fn name(rt: &impl Abort, alloc: Global, text: &[u8]) -> Name {
    Name::from_bytes(alloc, text).expect(rt, "memory")
}

fn new_user(rt: &impl Abort, alloc: Global, text: &[u8], uid: u32, group: &[u8]) -> NewUser {
    NewUser {
        name: UserName::new(name(rt, alloc, text)).expect(rt, "a user's name"),
        uid: Id::new(uid).expect(rt, "an id"),
        group: name(rt, alloc, group),
    }
}

/// The command of a row.
pub fn command(rt: &impl Abort, alloc: Global, people: &People, line: &Line) -> Command<'static> {
    match line {
        Line::Load(which, bytes) => Command::Load {
            which: *which,
            bytes,
        },
        Line::Chmod(mode, recursive, names) => Command::Chmod {
            paths: paths(rt, alloc, names),
            mode: *mode,
            recursive: *recursive,
        },
        Line::Setfacl(remove, modify, recursive, names) => Command::Edit {
            paths: paths(rt, alloc, names),
            edit: change(rt, alloc, people, remove, modify),
            recursive: *recursive,
        },
        Line::Restore(text) => Command::Restore {
            records: records(rt, alloc, people, text),
        },
        Line::Creat(user, kind, mode, umask, text) => Command::Creat(NewFile {
            path: path(rt, alloc, text),
            kind: *kind,
            user: name(rt, alloc, user),
            mode: *mode,
            umask: *umask,
        }),
        Line::Rm(recursive, names) => Command::Rm {
            paths: paths(rt, alloc, names),
            recursive: *recursive,
        },
        Line::Gpasswd(user, group, change) => Command::Gpasswd {
            user: name(rt, alloc, user),
            group: name(rt, alloc, group),
            change: *change,
        },
        Line::Usermod(user, group) => Command::Usermod {
            user: name(rt, alloc, user),
            group: name(rt, alloc, group),
        },
        Line::Useradd(text, uid, group) => {
            Command::Useradd(new_user(rt, alloc, text, *uid, group))
        }
        Line::Userdel(user) => Command::Userdel {
            user: name(rt, alloc, user),
        },
    }
}

/// Whether a command ends as the text describes; a refused one has to change nothing.
pub fn ends_as(
    rt: &impl Abort,
    alloc: Global,
    state: &mut State,
    command: Command<'_>,
    want: &str,
) -> bool {
    let before = listing(rt, alloc, state.tree(), state.people());
    let found = outcome(rt, alloc, state, command);
    let after = listing(rt, alloc, state.tree(), state.people());
    found.as_slice() == want.as_bytes() && (want.starts_with("done") || before == after)
}

fn is_as_expected(rt: &impl Abort, alloc: Global, state: &mut State, row: &Row) -> bool {
    let command = command(rt, alloc, state.people(), &row.line);
    ends_as(rt, alloc, state, command, row.outcome) && are_shown(rt, alloc, state, row.files)
}

/// The first of some rows that differs from what it expects.
fn first_wrong(rt: &impl Abort, alloc: Global, state: &mut State, rows: &[Row]) -> Option<usize> {
    for at in 0..rows.len() {
        if !is_as_expected(rt, alloc, state, &rows[at]) {
            return Some(at);
        }
    }
    None
}

/// No row of a table is wrong, which is named by its place among the tables.
fn expect_none(rt: &impl Abort, wrong: Option<usize>, table: usize) {
    assert_eq!(rt; wrong, None, "a row of table {table}");
}

/// The state after tables of rows, which begin with no file and nobody.
pub fn after(rt: &impl Abort, alloc: Global, tables: &[&[Row]]) -> State {
    let mut state = State::new(alloc).expect(rt, "memory");
    for at in 0..tables.len() {
        expect_none(rt, first_wrong(rt, alloc, &mut state, tables[at]), at);
    }
    state
}

/// Plays a table of rows after those of a setup.
fn expect_table(rt: &impl Abort, alloc: Global, setup: &[&[Row]], rows: &[Row], at: usize) {
    let mut state = after(rt, alloc, setup);
    let wrong = first_wrong(rt, alloc, &mut state, rows);
    drop(state);
    expect_none(rt, wrong, at);
}

/// Plays each of some tables of rows after those of a setup.
pub fn expect_all(rt: &impl Abort, alloc: Global, setup: &[&[Row]], tables: &[&[Row]]) {
    for at in 0..tables.len() {
        expect_table(rt, alloc, setup, tables[at], at);
    }
}
