//! What the tools answer on one state, line after line.

use crate::asked::{Question, Row, expect_rows};
use crate::lines::Line;
use crate::texts::{FILES, GROUP, PASSWD};
use acl_edit::Kind;
use acl_tree::Table;

static SETUP: [Line; 3] = [
    Line::Load(Table::Passwd, PASSWD),
    Line::Load(Table::Group, GROUP),
    Line::Load(Table::Dump, FILES),
];

const INDEX: &[u8] = b"ff lisa .\n33 joe .\n33 ann .\n\
55 lisa f\n01 joe f\n01 ann f\n\
55 lisa log\n01 joe log\n01 ann log\n\
33 lisa pub/\n33 joe pub/\nff ann pub/\n\
ff lisa run\n33 joe run\n33 ann run\n";

const READ: u8 = 4;

const WRITE: u8 = 2;

const READ_AND_SEARCH: u8 = 5;

static ALONE: [Row; 6] = [
    Row {
        lines: &[],
        question: Question::Index,
        along: false,
        answer: Some(INDEX),
    },
    Row {
        lines: &[],
        question: Question::Who(WRITE, b"pub"),
        along: false,
        answer: Some(b"ann\n"),
    },
    Row {
        lines: &[],
        question: Question::May(b"joe", READ_AND_SEARCH),
        along: false,
        answer: Some(b".\npub/\nrun\n"),
    },
    Row {
        lines: &[],
        question: Question::Who(0, b"f"),
        along: false,
        answer: Some(b"lisa\njoe\nann\n"),
    },
    Row {
        lines: &[],
        question: Question::Who(READ, b"gone"),
        along: false,
        answer: None,
    },
    Row {
        lines: &[],
        question: Question::May(b"bob", READ),
        along: false,
        answer: None,
    },
];

static ALONG: [Row; 6] = [
    Row {
        lines: &[],
        question: Question::May(b"joe", READ_AND_SEARCH),
        along: true,
        answer: Some(b".\npub/\nrun\n"),
    },
    Row {
        lines: &[Line::Chmod(0o754, b".")],
        question: Question::Can(b"joe", b"pub"),
        along: true,
        answer: Some(b"\x00"),
    },
    Row {
        lines: &[Line::Chmod(0o754, b".")],
        question: Question::Can(b"joe", b"pub"),
        along: false,
        answer: Some(b"\x33"),
    },
    Row {
        lines: &[Line::Chmod(0o754, b".")],
        question: Question::Who(READ, b"run"),
        along: true,
        answer: Some(b"lisa\n"),
    },
    Row {
        lines: &[Line::Chmod(0o754, b".")],
        question: Question::May(b"ann", WRITE),
        along: true,
        answer: Some(b""),
    },
    Row {
        lines: &[Line::Chmod(0o754, b".")],
        question: Question::May(b"joe", READ),
        along: true,
        answer: Some(b".\n"),
    },
];

static NAMES: [Row; 1] = [Row {
    lines: &[Line::Useradd(b"al #1", 7, b"staff")],
    question: Question::Who(READ, b"f"),
    along: false,
    answer: Some(b"lisa\nal\\040\\0431\n"),
}];

static WHY: [Row; 3] = [
    Row {
        lines: &[],
        question: Question::Why(b"ann", b"pub"),
        along: false,
        answer: Some(b"# file: pub/\nuser::rwx\n\n"),
    },
    Row {
        lines: &[Line::Chmod(0o705, b"pub")],
        question: Question::Why(b"joe", b"pub"),
        along: true,
        answer: Some(b"# file: .\nother::r-x\n\n# file: pub/\ngroup::r-x\t\t\t#effective:---\n\n"),
    },
    Row {
        lines: &[Line::Chmod(0o705, b"pub")],
        question: Question::Why(b"joe", b"gone"),
        along: true,
        answer: None,
    },
];

/// How many files, and the first of them in path order: those at or below a path on which a request is granted, and those that
/// a line changed.
static COUNTS: [Row; 5] = [
    Row {
        lines: &[],
        question: Question::Below(WRITE, None, b"."),
        along: false,
        answer: Some(b"4 lisa .\n1 ann pub/\n"),
    },
    Row {
        lines: &[],
        question: Question::Below(WRITE, Some(Kind::Plain), b"."),
        along: false,
        answer: Some(b"3 lisa f\n"),
    },
    Row {
        lines: &[],
        question: Question::Below(WRITE, Some(Kind::Directory), b"."),
        along: true,
        answer: Some(b"1 lisa .\n1 ann pub/\n"),
    },
    Row {
        lines: &[],
        question: Question::Below(READ, None, b"gone"),
        along: false,
        answer: None,
    },
    Row {
        lines: &[Line::Chmod(0o644, b"f"), Line::Chmod(0o644, b"log")],
        question: Question::Gains,
        along: false,
        answer: Some(b"01 11 2 joe f\n01 11 2 ann f\n"),
    },
];

/// The first files of a user at or below a path on which a request is granted, up to the number in the line; those before them
/// that are not granted do not count.
static LISTED: [Row; 7] = [
    Row {
        lines: &[],
        question: Question::Listed(b"joe", 9, READ_AND_SEARCH, b"."),
        along: false,
        answer: Some(b".\npub/\nrun\n"),
    },
    Row {
        lines: &[],
        question: Question::Listed(b"joe", 2, READ_AND_SEARCH, b"."),
        along: false,
        answer: Some(b".\npub/\n"),
    },
    Row {
        lines: &[],
        question: Question::Listed(b"ann", 1, WRITE, b"."),
        along: false,
        answer: Some(b"pub/\n"),
    },
    Row {
        lines: &[],
        question: Question::Listed(b"joe", 0, READ_AND_SEARCH, b"."),
        along: false,
        answer: Some(b""),
    },
    Row {
        lines: &[],
        question: Question::Listed(b"joe", 9, READ_AND_SEARCH, b"run"),
        along: false,
        answer: Some(b"run\n"),
    },
    Row {
        lines: &[Line::Chmod(0o754, b".")],
        question: Question::Listed(b"joe", 9, READ, b"."),
        along: true,
        answer: Some(b".\n"),
    },
    Row {
        lines: &[],
        question: Question::Listed(b"joe", 9, READ, b"gone"),
        along: false,
        answer: None,
    },
];

/// How many files, folder by folder.
static FOLDERS: [Row; 4] = [
    Row {
        lines: &[],
        question: Question::Folders(None, 0, WRITE, b"."),
        along: false,
        answer: Some(b"4 lisa .\n1 ann .\n"),
    },
    Row {
        lines: &[],
        question: Question::Folders(Some(b"ann"), 1, WRITE, b"."),
        along: false,
        answer: Some(b"1 ann .\n1 ann pub/\n"),
    },
    Row {
        lines: &[],
        question: Question::Folders(Some(b"joe"), 0, READ_AND_SEARCH, b"run"),
        along: false,
        answer: Some(b"1 joe run\n"),
    },
    Row {
        lines: &[],
        question: Question::Folders(None, 9, READ, b"gone"),
        along: false,
        answer: None,
    },
];

#[test]
fn answers_are_of_the_lists_alone(rt: HostRuntime) {
    expect_rows(&rt, rt.alloc(), &SETUP, &ALONE);
}

#[test]
fn answers_are_of_the_way_too(rt: HostRuntime) {
    expect_rows(&rt, rt.alloc(), &SETUP, &ALONG);
}

#[test]
fn names_are_of_the_rows(rt: HostRuntime) {
    expect_rows(&rt, rt.alloc(), &SETUP, &NAMES);
}

#[test]
fn files_are_counted(rt: HostRuntime) {
    expect_rows(&rt, rt.alloc(), &SETUP, &COUNTS);
}

#[test]
fn the_first_files_of_a_user(rt: HostRuntime) {
    expect_rows(&rt, rt.alloc(), &SETUP, &LISTED);
}

#[test]
fn files_are_counted_by_folder(rt: HostRuntime) {
    expect_rows(&rt, rt.alloc(), &SETUP, &FOLDERS);
}

#[test]
fn entries_that_decide(rt: HostRuntime) {
    expect_rows(&rt, rt.alloc(), &SETUP, &WHY);
}
