//! A map of several branches: the even numbers below 70,000 as names, each with itself as value.
use crate::numbered_paths::{Row, digit, map_of, path};
use path_map::{Entries, PathMap};
use std::alloc::Global;
use std::process::Abort;

/// The row of a number below 100,000.
fn numbered(rt: &impl Abort, alloc: Global, number: usize) -> Row {
    let name = [
        digit(number / 10_000),
        digit(number / 1_000),
        digit(number / 100),
        digit(number / 10),
        digit(number),
    ];
    (path(rt, alloc, &name), number)
}

/// The rows of every second number from one to before another.
fn numbers(rt: &impl Abort, alloc: Global, first: usize, end: usize) -> Vec<Row> {
    let mut rows = Vec::new(alloc);
    for number in (first..end).step_by(2) {
        rows.push(numbered(rt, alloc, number)).expect(rt, "memory");
    }
    rows
}

fn evens(rt: &impl Abort, alloc: Global) -> PathMap<usize> {
    map_of(rt, alloc, &numbers(rt, alloc, 0, 70_000))
}

fn next_value(entries: &mut Entries<'_, usize>) -> Option<usize> {
    match entries.next() {
        Some(entry) => Some(entry.1),
        None => None,
    }
}

/// Whether the values are the even numbers from one to before another.
fn are_evens(mut entries: Entries<'_, usize>, first: usize, end: usize) -> bool {
    for number in (first..end).step_by(2) {
        if next_value(&mut entries) != Some(number) {
            return false;
        }
    }
    next_value(&mut entries).is_none()
}

fn expect_number(rt: &impl Abort, alloc: Global, map: &PathMap<usize>, number: usize) {
    let row = numbered(rt, alloc, number);
    assert!(rt; map.get(&row.0) == Some(number));
    assert!(rt; are_evens(map.from(&row.0), number, 70_000));
    assert!(rt; are_evens(map.after(&row.0), number.wrapping_add(2), 70_000));
}

#[test]
fn each_number_is_found_and_followed(rt: HostRuntime) {
    let map = evens(&rt, rt.alloc());
    assert!(rt; are_evens(map.iter(), 0, 70_000));
    for number in (0..70_000).step_by(3_500) {
        expect_number(&rt, rt.alloc(), &map, number);
    }
}

/// Whether the values are 0, 1 and then the even numbers to before the last.
fn are_changed(mut entries: Entries<'_, usize>) -> bool {
    next_value(&mut entries) == Some(0)
        && next_value(&mut entries) == Some(1)
        && are_evens(entries, 2, 69_998)
}

/// The map with one row put and another one removed.
fn changed(
    rt: &impl Abort,
    alloc: Global,
    map: &PathMap<usize>,
    put: &Row,
    gone: &Row,
) -> PathMap<usize> {
    let more = map.put_all(alloc, &[(&put.0, put.1)]).expect(rt, "memory");
    more.without_all(alloc, &[(&gone.0, ())])
        .expect(rt, "memory")
}

#[test]
fn the_first_and_the_last_branch_are_changed(rt: HostRuntime) {
    let map = evens(&rt, rt.alloc());
    let changed = changed(
        &rt,
        rt.alloc(),
        &map,
        &numbered(&rt, rt.alloc(), 1),
        &numbered(&rt, rt.alloc(), 69_998),
    );
    assert!(rt; are_evens(map.iter(), 0, 70_000));
    drop(map);
    assert!(rt; are_changed(changed.iter()));
}

/// Whether a look-up finds each even number from one to before another, in turn, and no odd one.
fn finds_evens(
    rt: &impl Abort,
    alloc: Global,
    map: &PathMap<usize>,
    first: usize,
    end: usize,
) -> bool {
    let mut finder = map.finder();
    for number in first..end {
        let row = numbered(rt, alloc, number);
        let want = if number % 2 == 0 { Some(number) } else { None };
        if finder.get(&row.0) != want {
            return false;
        }
    }
    true
}

#[test]
fn numbers_are_looked_up_in_turn(rt: HostRuntime) {
    let map = evens(&rt, rt.alloc());
    assert!(rt; finds_evens(&rt, rt.alloc(), &map, 0, 300));
    assert!(rt; finds_evens(&rt, rt.alloc(), &map, 69_800, 70_000));
}
