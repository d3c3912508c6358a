//! What `changes` prints between two states.

use crate::asked::{Question, Row, expect_rows};
use crate::lines::Line;
use crate::texts::{GROUP, PASSWD};
use acl_tree::Table;

const FILES: &[u8] =
    b"# file: .\n# owner: lisa\n# group: staff\nuser::rwx\ngroup::r-x\nother::r-x\n\n\
# file: f\n# owner: lisa\n# group: staff\nuser::rw-\ngroup::r--\nother::---\n\n\
# file: pub/\n# owner: ann\n# group: users\nuser::rwx\ngroup::r-x\nother::r-x\n\n\
# file: run\n# owner: lisa\n# group: staff\nuser::rwx\ngroup::r-x\nother::r-x\n\n";

static SETUP: [Line; 3] = [
    Line::Load(Table::Passwd, PASSWD),
    Line::Load(Table::Group, GROUP),
    Line::Load(Table::Dump, FILES),
];

const OPENED: &[u8] = b"lisa loses -w-,rw- f\njoe gains r-- f\nann gains r-- f\n";

const CLOSED: &[u8] = b"joe loses --x,r-x .\nann loses --x,r-x .\n";

const CLOSED_BELOW: &[u8] = b"joe loses --x,r-x .\nann loses --x,r-x .\n\
joe loses --x,r--,r-x pub/\nann loses --x,-w-,-wx,r--,r-x,rw-,rwx pub/\n\
joe loses --x,r--,r-x run\nann loses --x,r--,r-x run\n";

const CAME_AND_WENT: &[u8] = b"al\\040\\0431 gains --x,r--,r-x .\njoe loses --x,r--,r-x .\n\
al\\040\\0431 gains r-- f\n\
al\\040\\0431 gains --x,r--,r-x pub/\njoe loses --x,r--,r-x pub/\n\
lisa loses --x,-w-,-wx,r--,r-x,rw-,rwx run\nann loses --x,r--,r-x run\njoe loses --x,r--,r-x run\n";

static BACK: [Row; 3] = [
    Row {
        lines: &[],
        question: Question::Changes,
        along: true,
        answer: Some(b""),
    },
    Row {
        lines: &[Line::Chmod(0o404, b"f")],
        question: Question::Changes,
        along: false,
        answer: Some(OPENED),
    },
    Row {
        lines: &[Line::Chmod(0o404, b"f"), Line::Chmod(0o640, b"f")],
        question: Question::Changes,
        along: false,
        answer: Some(b""),
    },
];

static ALONG: [Row; 2] = [
    Row {
        lines: &[Line::Chmod(0o754, b".")],
        question: Question::Changes,
        along: false,
        answer: Some(CLOSED),
    },
    Row {
        lines: &[Line::Chmod(0o754, b".")],
        question: Question::Changes,
        along: true,
        answer: Some(CLOSED_BELOW),
    },
];

static MOVES: [Row; 1] = [Row {
    lines: &[
        Line::Userdel(b"joe"),
        Line::Useradd(b"al #1", 7, b"staff"),
        Line::Rm(b"run"),
    ],
    question: Question::Changes,
    along: false,
    answer: Some(CAME_AND_WENT),
}];

#[test]
fn of_a_list_and_back(rt: HostRuntime) {
    expect_rows(&rt, rt.alloc(), &SETUP, &BACK);
}

#[test]
fn along_paths(rt: HostRuntime) {
    expect_rows(&rt, rt.alloc(), &SETUP, &ALONG);
}

#[test]
fn of_users_and_files_that_came_and_went(rt: HostRuntime) {
    expect_rows(&rt, rt.alloc(), &SETUP, &MOVES);
}
