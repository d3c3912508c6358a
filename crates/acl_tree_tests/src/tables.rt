//! The tables of rows after which nothing more is asked: each is played after the texts that it begins with.
use crate::rows::{Row, expect_all};
use crate::texts::{FIVE, FOUR, PEOPLE};
use crate::{chmod, creat, edits, loads, people, restores, rm};

static EMPTY: [&[Row]; 2] = [loads::FAULTS, loads::ORDER];

#[test]
fn loads_into_an_empty_state(rt: HostRuntime) {
    expect_all(&rt, rt.alloc(), &[], &EMPTY);
}

static WITH_PEOPLE: [&[Row]; 1] = [PEOPLE];

static PEOPLE_ALONE: [&[Row]; 2] = [creat::ROOT, people::FAULTS];

#[test]
fn commands_on_people_alone(rt: HostRuntime) {
    expect_all(&rt, rt.alloc(), &WITH_PEOPLE, &PEOPLE_ALONE);
}

static WITH_FOUR_FILES: [&[Row]; 2] = [PEOPLE, FOUR];

static FOUR_FILES: [&[Row]; 6] = [
    chmod::MODES,
    creat::FAULTS,
    creat::OWNERS,
    loads::AGAIN,
    restores::RESTORES,
    rm::RECURSIVE,
];

#[test]
fn commands_on_four_files(rt: HostRuntime) {
    expect_all(&rt, rt.alloc(), &WITH_FOUR_FILES, &FOUR_FILES);
}

static WITH_FIVE_FILES: [&[Row]; 2] = [PEOPLE, FIVE];

static FIVE_FILES: [&[Row]; 4] = [creat::DEFAULTS, edits::ENTRIES, edits::DEFAULTS, rm::PLAIN];

#[test]
fn commands_on_five_files(rt: HostRuntime) {
    expect_all(&rt, rt.alloc(), &WITH_FIVE_FILES, &FIVE_FILES);
}
