//! Memberships, primary groups, and users who come and go.
use crate::rows::{Line, Row, after, command, ends_as};
use crate::shown::{expect_granted, expect_text, listing};
use crate::texts::{FIVE, GROUP, PEOPLE};
use acl_tree::{Command, Membership, State, Table};
use std::alloc::Global;
use std::process::Abort;

pub const FAULTS: &[Row] = &[
    // The user before the group.
    Row {
        line: Line::Gpasswd(b"nosuch", b"none", Membership::Add),
        outcome: "no such user nosuch",
        files: &[],
    },
    Row {
        line: Line::Gpasswd(b"joe", b"none", Membership::Remove),
        outcome: "no such group none",
        files: &[],
    },
    Row {
        line: Line::Gpasswd(b"joe", b"adm", Membership::Remove),
        outcome: "not a member",
        files: &[],
    },
    // The primary group does not make a member.
    Row {
        line: Line::Gpasswd(b"joe", b"users", Membership::Remove),
        outcome: "not a member",
        files: &[],
    },
    Row {
        line: Line::Usermod(b"1003", b"99"),
        outcome: "no such user 1003",
        files: &[],
    },
    Row {
        line: Line::Usermod(b"joe", b"99"),
        outcome: "no such group 99",
        files: &[],
    },
    // The name before the id, the id before the group.
    Row {
        line: Line::Useradd(b"joe", 1001, b"none"),
        outcome: "user exists joe",
        files: &[],
    },
    Row {
        line: Line::Useradd(b"eve", 1001, b"none"),
        outcome: "user id in use 1001",
        files: &[],
    },
    Row {
        line: Line::Useradd(b"eve", 1003, b"none"),
        outcome: "no such group none",
        files: &[],
    },
    Row {
        line: Line::Userdel(b"nosuch"),
        outcome: "no such user nosuch",
        files: &[],
    },
    // Digits alone are an id.
    Row {
        line: Line::Userdel(b"50"),
        outcome: "no such user 50",
        files: &[],
    },
    Row {
        line: Line::Usermod(b"4294967295", b"staff"),
        outcome: "no such user 4294967295",
        files: &[],
    },
];

/// Users is the primary group of joe.
const JOINS: &[Row] = &[
    Row {
        line: Line::Gpasswd(b"joe", b"users", Membership::Add),
        outcome: "done: 0 changed, 0 gone",
        files: &[],
    },
    Row {
        line: Line::Gpasswd(b"joe", b"adm", Membership::Add),
        outcome: "done: 0 changed, 0 gone, user 1 moved: 70",
        files: &[],
    },
    // Once more, by ids.
    Row {
        line: Line::Gpasswd(b"1000", b"70", Membership::Add),
        outcome: "done: 0 changed, 0 gone",
        files: &[],
    },
];

const LEAVES: &[Row] = &[
    Row {
        line: Line::Gpasswd(b"joe", b"adm", Membership::Remove),
        outcome: "done: 0 changed, 0 gone, user 1 moved: 70",
        files: &[],
    },
    Row {
        line: Line::Chmod(0o770, false, &[b"pub"]),
        outcome: "done: 1 changed, 0 gone",
        files: &[],
    },
    Row {
        line: Line::Gpasswd(b"joe", b"users", Membership::Remove),
        outcome: "done: 0 changed, 0 gone",
        files: &[],
    },
];

const TWO_GROUPS: &[Row] = &[
    Row {
        line: Line::Gpasswd(b"joe", b"adm", Membership::Add),
        outcome: "done: 0 changed, 0 gone, user 1 moved: 70",
        files: &[],
    },
    Row {
        line: Line::Setfacl(
            b"",
            b"u::rw-,g::---,g:users:r,g:adm:w,m::rwx,o::-",
            false,
            &[b"f"],
        ),
        outcome: "done: 1 changed, 0 gone",
        files: &[(
            b"f",
            "---- lisa:staff u::rw-,g::---,g:adm:-w-,g:users:r--,m::rwx,o::---",
        )],
    },
];

const PRIMARY: &[Row] = &[
    Row {
        line: Line::Usermod(b"joe", b"staff"),
        outcome: "done: 0 changed, 0 gone, user 1 moved: 50 100",
        files: &[],
    },
    Row {
        line: Line::Usermod(b"joe", b"staff"),
        outcome: "done: 0 changed, 0 gone",
        files: &[],
    },
];

/// A name twice in a row, and two rows of one group.
const TWICE: &[Row] = &[
    Row {
        line: Line::Load(
            Table::Group,
            b"staff:x:50:\nusers:x:100:\ncool:x:60:lisa,joe,lisa\nsquad:x:60:joe\n",
        ),
        outcome: "done: 0 changed, 0 gone, users loaded",
        files: &[],
    },
    Row {
        line: Line::Gpasswd(b"lisa", b"cool", Membership::Remove),
        outcome: "done: 0 changed, 0 gone, user 0 moved: 60",
        files: &[],
    },
    Row {
        line: Line::Gpasswd(b"lisa", b"cool", Membership::Remove),
        outcome: "not a member",
        files: &[],
    },
    Row {
        line: Line::Gpasswd(b"joe", b"cool", Membership::Remove),
        outcome: "done: 0 changed, 0 gone",
        files: &[],
    },
    Row {
        line: Line::Gpasswd(b"joe", b"squad", Membership::Remove),
        outcome: "done: 0 changed, 0 gone, user 1 moved: 60",
        files: &[],
    },
    Row {
        line: Line::Gpasswd(b"joe", b"squad", Membership::Remove),
        outcome: "not a member",
        files: &[],
    },
];

const COMES: &[Row] = &[
    Row {
        line: Line::Useradd(b"bob", 1003, b"staff"),
        outcome: "done: 0 changed, 0 gone, a user joined",
        files: &[],
    },
    Row {
        line: Line::Useradd(b"eve", 1003, b"staff"),
        outcome: "user id in use 1003",
        files: &[],
    },
    Row {
        line: Line::Useradd(b"bob", 9, b"staff"),
        outcome: "user exists bob",
        files: &[],
    },
];

const GOES: &[Row] = &[
    Row {
        line: Line::Setfacl(b"", b"u:joe:rw", false, &[b"f"]),
        outcome: "done: 1 changed, 0 gone",
        files: &[],
    },
    Row {
        line: Line::Userdel(b"joe"),
        outcome: "done: 0 changed, 0 gone, user 1 left",
        files: &[(
            b"f",
            "---- lisa:staff u::rw-,u:1000:rw-,g::r--,m::rw-,o::---",
        )],
    },
    Row {
        line: Line::Userdel(b"joe"),
        outcome: "no such user joe",
        files: &[],
    },
    Row {
        line: Line::Useradd(b"zoe", 1000, b"cool"),
        outcome: "done: 0 changed, 0 gone, a user joined",
        files: &[(
            b"f",
            "---- lisa:staff u::rw-,u:zoe:rw-,g::r--,m::rw-,o::---",
        )],
    },
];

const COMES_AGAIN: &[Row] = &[
    Row {
        line: Line::Gpasswd(b"joe", b"adm", Membership::Add),
        outcome: "done: 0 changed, 0 gone, user 1 moved: 70",
        files: &[],
    },
    Row {
        line: Line::Userdel(b"1000"),
        outcome: "done: 0 changed, 0 gone, user 1 left",
        files: &[],
    },
    Row {
        line: Line::Useradd(b"joe", 1000, b"60"),
        outcome: "done: 0 changed, 0 gone, a user joined",
        files: &[],
    },
];

/// The groups alone.
const GROUPS: &[Row] = &[Row {
    line: Line::Load(Table::Group, GROUP),
    outcome: "done: 0 changed, 0 gone, users loaded",
    files: &[],
}];

const FIRST_USER: &[Row] = &[
    Row {
        line: Line::Useradd(b"bob", 0, b"adm"),
        outcome: "done: 0 changed, 0 gone, a user joined",
        files: &[],
    },
    Row {
        line: Line::Load(Table::Passwd, b""),
        outcome: "already loaded",
        files: &[],
    },
];

/// After tables of rows there are these users with their groups, in the order of their rows.
fn expect_users(rt: &impl Abort, alloc: Global, tables: &[&[Row]], want: &str) {
    let state = after(rt, alloc, tables);
    let text = listing(rt, alloc, state.tree(), state.people());
    drop(state);
    expect_text(rt, text, want);
}

/// A user, a file, and the requests that the user is granted on it.
type Granted = (&'static [u8], &'static [u8], &'static str);

fn expect_each_granted(rt: &impl Abort, alloc: Global, state: &State, granted: &[Granted]) {
    for (user, file, want) in granted {
        expect_granted(rt, alloc, state, user, file, want);
    }
}

/// What users are granted after tables of rows.
fn expect_grants(rt: &impl Abort, alloc: Global, tables: &[&[Row]], granted: &[Granted]) {
    let state = after(rt, alloc, tables);
    expect_each_granted(rt, alloc, &state, granted);
    drop(state);
}

static AS_A_MEMBER: [Granted; 2] = [
    (b"joe", b"log", " r--"),
    (b"joe", b"pub", " --x -w- -wx r-- r-x rw- rwx"),
];

#[test]
fn a_member_is_granted_what_the_group_is(rt: HostRuntime) {
    expect_grants(&rt, rt.alloc(), &[PEOPLE, FIVE, JOINS], &AS_A_MEMBER);
}

static AS_NO_MEMBER: [Granted; 2] = [(b"joe", b"log", ""), (b"joe", b"pub", " --x r-- r-x")];

#[test]
fn who_leaves_is_not(rt: HostRuntime) {
    expect_grants(
        &rt,
        rt.alloc(),
        &[PEOPLE, FIVE, JOINS, LEAVES],
        &AS_NO_MEMBER,
    );
}

static BY_TWO_GROUPS: [Granted; 1] = [(b"joe", b"f", " -w- r--")];

#[test]
fn each_group_grants_by_itself(rt: HostRuntime) {
    expect_grants(&rt, rt.alloc(), &[PEOPLE, FIVE, TWO_GROUPS], &BY_TWO_GROUPS);
}

static BY_PRIMARY: [Granted; 1] = [(b"joe", b"f", " r--")];

#[test]
fn another_primary_group(rt: HostRuntime) {
    expect_grants(&rt, rt.alloc(), &[PEOPLE, FIVE, PRIMARY], &BY_PRIMARY);
}

#[test]
fn every_occurrence_is_removed(rt: HostRuntime) {
    let want = "pg-\nlisa: staff\njoe: users\nann: users\n";
    expect_users(&rt, rt.alloc(), &[&PEOPLE[..1], TWICE], want);
}

static TO_WHO_COMES: [Granted; 1] = [(b"bob", b"f", " r--")];

#[test]
fn a_user_comes(rt: HostRuntime) {
    expect_grants(&rt, rt.alloc(), &[PEOPLE, FIVE, COMES], &TO_WHO_COMES);
}

static TO_THE_ID: [Granted; 1] = [(b"zoe", b"f", " -w- r-- rw-")];

#[test]
fn a_user_goes(rt: HostRuntime) {
    expect_grants(&rt, rt.alloc(), &[PEOPLE, FIVE, GOES], &TO_THE_ID);
}

#[test]
fn a_user_comes_again_without_groups(rt: HostRuntime) {
    let want = "pg-\nlisa: staff cool\nann: users\njoe: cool\n";
    expect_users(&rt, rt.alloc(), &[PEOPLE, COMES_AGAIN], want);
}

#[test]
fn users_count_as_loaded(rt: HostRuntime) {
    let want = "pg-\nbob: adm\n";
    expect_users(&rt, rt.alloc(), &[GROUPS, FIRST_USER], want);
}

/// The largest number of users.
const MAX_USERS: u32 = 65536;

fn row_of(rt: &impl Abort, alloc: Global, number: u32) -> String {
    format!(in alloc; "u{number}:x:{number}:50:::\n").expect(rt, "memory")
}

fn push_row(rt: &impl Abort, text: &mut Vec<u8>, row: &str) {
    text.extend_from_slice(row.as_bytes()).expect(rt, "memory");
}

fn many_users(rt: &impl Abort, alloc: Global) -> Vec<u8> {
    let mut text = Vec::new(alloc);
    for number in 0..MAX_USERS {
        push_row(rt, &mut text, row_of(rt, alloc, number).as_str());
    }
    text
}

static ONE_MORE: Line = Line::Useradd(b"bob", MAX_USERS, b"staff");

fn are_loaded(rt: &impl Abort, alloc: Global, state: &mut State, passwd: &[u8]) -> bool {
    let load = Command::Load {
        which: Table::Passwd,
        bytes: passwd,
    };
    ends_as(
        rt,
        alloc,
        state,
        load,
        "done: 0 changed, 0 gone, users loaded",
    )
}

fn is_one_too_many(rt: &impl Abort, alloc: Global, state: &mut State, line: &Line) -> bool {
    let new = command(rt, alloc, state.people(), line);
    ends_as(rt, alloc, state, new, "too many users")
}

#[test]
fn at_most_so_many_users(rt: HostRuntime) {
    let alloc = rt.alloc();
    let mut state = after(&rt, alloc, &[GROUPS]);
    let passwd = many_users(&rt, alloc);
    assert!(rt; are_loaded(&rt, alloc, &mut state, &passwd));
    assert!(rt; is_one_too_many(&rt, alloc, &mut state, &ONE_MORE));
    drop(state);
}
