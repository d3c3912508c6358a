//! Equal nodes get one number when a map is built, each number becomes one other when it is edited, and numbers that are
//! freed one by one are all given again: no clause says how many numbers a map has.

ghost use Rattle.std.specs.Prelude.{Ok};

use crate::kind_maps::{built, expect_entry};
use crate::numbered_paths::path;
use acl_names::Path;
use kinds::{KindEdit, KindMap, KindMapBuilder, KindPuts, Likeness, Stop};
use std::alloc::Global;
use std::process::Abort;

/// The mark of a node is the node itself.
struct ByNumber;

impl Likeness<u32> for ByNumber {
    fn mark(&self, node: &u32) -> u64 {
        u64::from(*node)
    }

    fn is_same(&self, one: &u32, other: &u32) -> bool {
        *one == *other
    }
}

/// The map of four paths in path order with these nodes.
fn built_of_four(
    rt: &impl Abort,
    alloc: Global,
    paths: (Path, Path, Path, Path),
    nodes: [u32; 4],
) -> KindMap<u32> {
    let (first, second, third, fourth) = paths;
    assert!(rt; first.order(&second).is_lt());
    assert!(rt; first.order(&third).is_lt());
    assert!(rt; first.order(&fourth).is_lt());
    assert!(rt; second.order(&third).is_lt());
    assert!(rt; second.order(&fourth).is_lt());
    assert!(rt; third.order(&fourth).is_lt());
    let builder = KindMapBuilder::new(alloc);
    let builder = builder
        .push(alloc, first, nodes[0], &ByNumber)
        .expect(rt, "memory");
    let builder = builder
        .push(alloc, second, nodes[1], &ByNumber)
        .expect(rt, "memory");
    let builder = builder
        .push(alloc, third, nodes[2], &ByNumber)
        .expect(rt, "memory");
    let builder = builder
        .push(alloc, fourth, nodes[3], &ByNumber)
        .expect(rt, "memory");
    builder.finish(alloc).expect(rt, "memory")
}

// No path has the node of the one before it. There are two nodes, so there are two numbers.
#[test]
fn each_node_is_found_again_at_a_build(rt: HostRuntime) {
    let paths = (
        path(&rt, rt.alloc(), b"a"),
        path(&rt, rt.alloc(), b"b"),
        path(&rt, rt.alloc(), b"c"),
        path(&rt, rt.alloc(), b"d"),
    );
    let map = built_of_four(&rt, rt.alloc(), paths, [5, 6, 5, 6]);
    expect_entry(&rt, rt.alloc(), &map, b"c", 5, 0);
    expect_entry(&rt, rt.alloc(), &map, b"d", 6, 1);
    assert!(rt; map.numbers_len() == 2);
}

/// An edit by which each node stays.
#[derive(Drop)]
struct Stays;

impl KindEdit<u32> for Stays {
    type Fault = ();

    ghost edited = { λ edit node. Ok node };

    fn edited(&self, _alloc: Global, node: &u32) -> Result<u32, Stop<()>> {
        Ok(*node)
    }
}

/// The map after an edit of three of its paths, in path order.
fn edited(
    rt: &impl Abort,
    alloc: Global,
    map: &KindMap<u32>,
    first: &Path,
    second: &Path,
    third: &Path,
) -> KindMap<u32> {
    assert!(rt; first.order(second).is_lt());
    assert!(rt; first.order(third).is_lt());
    assert!(rt; second.order(third).is_lt());
    let numbers = map.numbers();
    let entries = [
        (first, numbers.get(first).expect(rt, "a number")),
        (second, numbers.get(second).expect(rt, "a number")),
        (third, numbers.get(third).expect(rt, "a number")),
    ];
    match map.edited(alloc, &entries, &Stays) {
        Ok(edited) => edited.map,
        Err(_) => panic!(rt; "memory"),
    }
}

/// Edits the paths a, b and c of a map, and compares their numbers after it, and the count of `all` numbers.
fn expect_edited(rt: &impl Abort, alloc: Global, nodes: [u32; 3], numbers: [usize; 3], all: usize) {
    let map = built(rt, alloc, nodes);
    let first = path(rt, alloc, b"a");
    let second = path(rt, alloc, b"b");
    let third = path(rt, alloc, b"c");
    let new = edited(rt, alloc, &map, &first, &second, &third);
    expect_entry(rt, alloc, &new, b"a", nodes[0], numbers[0]);
    expect_entry(rt, alloc, &new, b"b", nodes[1], numbers[1]);
    expect_entry(rt, alloc, &new, b"c", nodes[2], numbers[2]);
    assert!(rt; new.numbers_len() == all);
}

// Each number becomes one new number, also if b has another one than a and c. The old ones are free, and count.
#[test]
fn each_number_is_edited_once(rt: HostRuntime) {
    expect_edited(&rt, rt.alloc(), [5, 6, 5], [2, 3, 2], 4);
    expect_edited(&rt, rt.alloc(), [5, 6, 6], [2, 3, 3], 4);
    expect_edited(&rt, rt.alloc(), [5, 6, 7], [3, 4, 5], 6);
}

/// The map without a path.
fn without(rt: &impl Abort, alloc: Global, map: &KindMap<u32>, text: &[u8]) -> KindMap<u32> {
    let path = path(rt, alloc, text);
    map.without_all(alloc, &[(&path, ())]).expect(rt, "memory")
}

/// The map with nodes put at three paths, in path order.
fn put_three(
    rt: &impl Abort,
    alloc: Global,
    map: &KindMap<u32>,
    first: &Path,
    second: &Path,
    third: &Path,
) -> KindMap<u32> {
    assert!(rt; first.order(second).is_lt());
    assert!(rt; first.order(third).is_lt());
    assert!(rt; second.order(third).is_lt());
    let puts = KindPuts::new(alloc, map).expect(rt, "memory");
    let puts = puts.push(alloc, first, 1, &ByNumber).expect(rt, "memory");
    let puts = puts.push(alloc, second, 2, &ByNumber).expect(rt, "memory");
    let puts = puts.push(alloc, third, 3, &ByNumber).expect(rt, "memory");
    puts.finish(alloc).expect(rt, "memory")
}

// When c goes, the free list is 0 and 1. The number of c comes before these.
#[test]
fn numbers_that_are_freed_one_by_one_are_all_given_again(rt: HostRuntime) {
    let map = built(&rt, rt.alloc(), [5, 6, 7]);
    let map = without(&rt, rt.alloc(), &map, b"b");
    let map = without(&rt, rt.alloc(), &map, b"a");
    let map = without(&rt, rt.alloc(), &map, b"c");
    let first = path(&rt, rt.alloc(), b"d");
    let second = path(&rt, rt.alloc(), b"e");
    let third = path(&rt, rt.alloc(), b"f");
    let new = put_three(&rt, rt.alloc(), &map, &first, &second, &third);
    expect_entry(&rt, rt.alloc(), &new, b"d", 1, 2);
    expect_entry(&rt, rt.alloc(), &new, b"e", 2, 0);
    expect_entry(&rt, rt.alloc(), &new, b"f", 3, 1);
    assert!(rt; new.numbers_len() == 3);
}
