//! What lines cost.
ghost use Rattle.acl_entry.specs.Check.{rights};
ghost use Rattle.acl_rights.specs.Tables.{IsWhole};

use crate::cost_rows::{
    ANOTHER_NUMBER, FILES_ALONE, FOUR_LABELS, LIKE_ANOTHER, RESTORED, SEARCH, SETUP,
};
use crate::people_rows::{
    COMES_AND_GOES, COMES_BACK, LISTED, MEMBERSHIPS, NAMED, NOBODY_IS_LEFT, NOBODY_IS_LOADED,
    PRIMARY,
};
use crate::world::{Row, World, asked_by_build, first_wrong, indexed_anew, nothing};
use std::alloc::Global;
use std::process::Abort;

fn expect_none(rt: &impl Abort, wrong: Option<usize>) {
    assert_eq!(rt; wrong, None);
}

/// Plays rows after the setup, and compares what each costs and leaves.
pub fn after(rt: &impl Abort, alloc: Global, rows: &[Row]) -> World
    ensures { IsWhole rights result.state result.index }
{
    let mut world = nothing(alloc).expect(rt, "memory");
    expect_none(rt, first_wrong(alloc, &mut world, &SETUP));
    expect_none(rt, first_wrong(alloc, &mut world, rows));
    world
}

/// Plays each of some tables of rows after the setup.
fn expect_all(rt: &impl Abort, alloc: Global, tables: &[&[Row]]) {
    for rows in tables {
        drop(after(rt, alloc, rows));
    }
}

#[test]
fn lines_on_files_cost_what_they_change(rt: HostRuntime) {
    expect_all(
        &rt,
        rt.alloc(),
        &[
            &ANOTHER_NUMBER,
            &FILES_ALONE,
            &FOUR_LABELS,
            &LIKE_ANOTHER,
            &RESTORED,
            &SEARCH,
        ],
    );
}

#[test]
fn lines_on_people_cost_what_they_change(rt: HostRuntime) {
    expect_all(
        &rt,
        rt.alloc(),
        &[
            &MEMBERSHIPS,
            &PRIMARY,
            &NAMED,
            &LISTED,
            &COMES_AND_GOES,
            &COMES_BACK,
            &NOBODY_IS_LEFT,
        ],
    );
}

#[test]
fn lines_cost_nothing_where_nobody_is(rt: HostRuntime) {
    let mut world = nothing(rt.alloc()).expect(&rt, "memory");
    expect_none(&rt, first_wrong(rt.alloc(), &mut world, &NOBODY_IS_LOADED));
}

/// An index that is made of a state asks for `asked` verdicts.
fn expect_build(rt: &impl Abort, alloc: Global, world: World, asked: u64) {
    let found = asked_by_build(alloc, &world.state);
    drop(world);
    assert!(rt; found == Some(asked));
}

#[test]
fn a_build_without_files_asks_for_nothing(rt: HostRuntime) {
    let empty = nothing(rt.alloc()).expect(&rt, "memory");
    expect_build(&rt, rt.alloc(), empty, 0);
}

#[test]
fn a_build_asks_for_each_user_on_each_file(rt: HostRuntime) {
    expect_build(&rt, rt.alloc(), after(&rt, rt.alloc(), &[]), 15);
}

#[test]
fn labels_are_found_after_a_build(rt: HostRuntime) {
    let loaded = after(&rt, rt.alloc(), &[]);
    let mut world = indexed_anew(rt.alloc(), loaded).expect(&rt, "memory");
    expect_none(&rt, first_wrong(rt.alloc(), &mut world, &LIKE_ANOTHER));
}
