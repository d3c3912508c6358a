//! Random changes of small sets of pairs, each compared with a table; and a set of several branches.
use kinds::{Pair, PairSet};
use std::alloc::Global;
use std::process::Abort;

/// The numbers of the table are below this one.
const SIDE: usize = 40;

fn next(seed: u64) -> u64 {
    seed.wrapping_mul(6364136223846793005)
        .wrapping_add(1442695040888963407)
}

/// The second numbers that a table has for a first one.
fn seconds_in(rt: &impl Abort, alloc: Global, table: &[bool], first: usize) -> Vec<usize> {
    let mut seconds = Vec::new(alloc);
    for second in 0..SIDE {
        if table.get(first.wrapping_mul(SIDE).wrapping_add(second)) == Some(&true) {
            seconds.push(second).expect(rt, "memory");
        }
    }
    seconds
}

/// The second numbers that a set has for a first one.
fn seconds_of(rt: &impl Abort, alloc: Global, set: &PairSet, first: usize) -> Vec<usize> {
    let mut seconds = Vec::new(alloc);
    set.push_seconds(&mut seconds, first).expect(rt, "memory");
    seconds
}

fn expect_table(rt: &impl Abort, alloc: Global, set: &PairSet, table: &[bool]) {
    for first in 0..SIDE {
        let found = seconds_of(rt, alloc, set, first);
        assert!(rt; found.as_slice() == seconds_in(rt, alloc, table, first).as_slice());
    }
}

/// Some pairs at random, last ones first, which a table has from now on or has no longer.
fn chosen(
    rt: &impl Abort,
    alloc: Global,
    table: &mut [bool],
    seed: &mut u64,
    of_forty: u64,
    is_put: bool,
) -> Vec<Pair> {
    let mut pairs = Vec::new(alloc);
    for at in 0..table.len() {
        *seed = next(*seed);
        if (*seed >> 33) % 40 <= of_forty {
            let back = table.len() - 1 - at;
            let pair = Pair::of(back / SIDE, back % SIDE).expect(rt, "small numbers");
            pairs.push(pair).expect(rt, "memory");
            table[back] = is_put;
        }
    }
    pairs
}

#[test]
fn changes_as_in_a_table(rt: HostRuntime) {
    let mut table = vec![in rt.alloc(); false; 1600].expect(&rt, "memory");
    let mut set = PairSet::new(rt.alloc());
    let mut seed = 1u64;
    for round in 0..40u64 {
        let old = set.share().expect(&rt, "memory");
        let before = Vec::from_slice(rt.alloc(), &table).expect(&rt, "memory");
        let is_put = round % 3 != 2;
        let pairs = chosen(&rt, rt.alloc(), &mut table, &mut seed, round % 20, is_put);
        set = set
            .with_pairs(rt.alloc(), pairs, is_put)
            .expect(&rt, "memory");
        expect_table(&rt, rt.alloc(), &set, &table);
        expect_table(&rt, rt.alloc(), &old, &before);
    }
}

/// The pairs of the first numbers below `firsts` and the first `seconds` even numbers.
fn even_pairs(rt: &impl Abort, alloc: Global, firsts: usize, seconds: usize) -> Vec<Pair> {
    let mut pairs = Vec::new(alloc);
    for first in 0..firsts {
        for half in 0..seconds {
            let pair = Pair::of(first, half.wrapping_mul(2)).expect(rt, "small numbers");
            pairs.push(pair).expect(rt, "memory");
        }
    }
    pairs
}

/// The set with one pair put, or taken out.
fn with_one(
    rt: &impl Abort,
    alloc: Global,
    set: &PairSet,
    first: usize,
    second: usize,
    is_put: bool,
) -> PairSet {
    let mut pairs = Vec::new(alloc);
    let pair = Pair::of(first, second).expect(rt, "small numbers");
    pairs.push(pair).expect(rt, "memory");
    set.with_pairs(alloc, pairs, is_put).expect(rt, "memory")
}

#[test]
fn a_large_set(rt: HostRuntime) {
    let none = PairSet::new(rt.alloc());
    let mut set = none
        .with_pairs(rt.alloc(), even_pairs(&rt, rt.alloc(), 300, 1000), true)
        .expect(&rt, "memory");
    for at in 0..1000usize {
        set = with_one(&rt, rt.alloc(), &set, at % 300, 2 * at + 1, true);
        set = with_one(&rt, rt.alloc(), &set, at % 300 + 1, 2 * at, false);
    }
    let found = seconds_of(&rt, rt.alloc(), &set, 7);
    assert!(rt; found.len() == 1000);
    assert!(rt; found.contains(&15));
    let after = seconds_of(&rt, rt.alloc(), &set, 8);
    assert!(rt; !after.contains(&14));
}

#[test]
fn numbers_of_more_than_32_bits_are_refused(rt: HostRuntime) {
    assert!(rt; Pair::of(1 << 32, 0).is_err());
    assert!(rt; Pair::of(0, 1 << 32).is_err());
    assert!(rt; Pair::of((1 << 32) - 1, (1 << 32) - 1).is_ok());
    let mut seconds = Vec::new(rt.alloc());
    assert!(rt;
        PairSet::new(rt.alloc())
            .push_seconds(&mut seconds, 1 << 32)
            .is_err()
    );
}
