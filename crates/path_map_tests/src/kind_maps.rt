//! Maps by kinds of three paths. Numbers are compared, since paths that have one share its node.
use crate::numbered_paths::path;
use acl_names::Path;
use kinds::{GivenNode, KindMap, KindMapBuilder, KindPuts, Likeness};
use std::alloc::Global;
use std::process::Abort;
use std::rc::Rc;

/// Nodes with one last digit have one mark.
struct ByLastDigit;

impl Likeness<u32> for ByLastDigit {
    fn mark(&self, node: &u32) -> u64 {
        u64::from(*node % 10)
    }

    fn is_same(&self, one: &u32, other: &u32) -> bool {
        *one == *other
    }
}

/// The map of three paths in path order with these nodes.
fn built_of(
    rt: &impl Abort,
    alloc: Global,
    first: Path,
    second: Path,
    third: Path,
    nodes: [u32; 3],
) -> KindMap<u32> {
    assert!(rt; first.order(&second).is_lt());
    assert!(rt; first.order(&third).is_lt());
    assert!(rt; second.order(&third).is_lt());
    let builder = KindMapBuilder::new(alloc);
    let builder = builder
        .push(alloc, first, nodes[0], &ByLastDigit)
        .expect(rt, "memory");
    let builder = builder
        .push(alloc, second, nodes[1], &ByLastDigit)
        .expect(rt, "memory");
    let builder = builder
        .push(alloc, third, nodes[2], &ByLastDigit)
        .expect(rt, "memory");
    builder.finish(alloc).expect(rt, "memory")
}

/// The map of the paths a, b and c with these nodes.
pub(crate) fn built(rt: &impl Abort, alloc: Global, nodes: [u32; 3]) -> KindMap<u32> {
    let first = path(rt, alloc, b"a");
    let second = path(rt, alloc, b"b");
    let third = path(rt, alloc, b"c");
    built_of(rt, alloc, first, second, third, nodes)
}

/// The map with a node put at a path.
fn put_one(
    rt: &impl Abort,
    alloc: Global,
    map: &KindMap<u32>,
    text: &[u8],
    node: u32,
) -> KindMap<u32> {
    let path = path(rt, alloc, text);
    let puts = KindPuts::new(alloc, map).expect(rt, "memory");
    let puts = puts
        .push(alloc, &path, node, &ByLastDigit)
        .expect(rt, "memory");
    puts.finish(alloc).expect(rt, "memory")
}

/// The map where the node of b is that of a, so that no path has the number 1.
pub(crate) fn b_freed(rt: &impl Abort, alloc: Global) -> KindMap<u32> {
    put_one(rt, alloc, &built(rt, alloc, [5, 6, 5]), b"b", 5)
}

/// The map with nodes put at two paths, in path order.
fn put_two(
    rt: &impl Abort,
    alloc: Global,
    map: &KindMap<u32>,
    first: &Path,
    second: &Path,
    nodes: [u32; 2],
) -> KindMap<u32> {
    assert!(rt; first.order(second).is_lt());
    let puts = KindPuts::new(alloc, map).expect(rt, "memory");
    let puts = puts
        .push(alloc, first, nodes[0], &ByLastDigit)
        .expect(rt, "memory");
    let puts = puts
        .push(alloc, second, nodes[1], &ByLastDigit)
        .expect(rt, "memory");
    puts.finish(alloc).expect(rt, "memory")
}

/// The map where the nodes of a and b are that of c, so that no path has the numbers 0 and 1.
pub(crate) fn two_freed(rt: &impl Abort, alloc: Global) -> KindMap<u32> {
    let first = path(rt, alloc, b"a");
    let second = path(rt, alloc, b"b");
    let map = built(rt, alloc, [5, 6, 7]);
    put_two(rt, alloc, &map, &first, &second, [7, 7])
}

/// A path has this node, by this number.
pub(crate) fn expect_entry(
    rt: &impl Abort,
    alloc: Global,
    map: &KindMap<u32>,
    text: &[u8],
    node: u32,
    number: usize,
) {
    let path = path(rt, alloc, text);
    assert!(rt; *map.get(&path).expect(rt, "a node") == node);
    assert!(rt; map.numbers().get(&path).expect(rt, "a number") == number);
}

#[test]
fn nodes_that_are_the_same_share_a_number(rt: HostRuntime) {
    let map = built(&rt, rt.alloc(), [5, 6, 5]);
    expect_entry(&rt, rt.alloc(), &map, b"a", 5, 0);
    expect_entry(&rt, rt.alloc(), &map, b"b", 6, 1);
    expect_entry(&rt, rt.alloc(), &map, b"c", 5, 0);
}

#[test]
fn nodes_that_have_one_mark_do_not(rt: HostRuntime) {
    let map = built(&rt, rt.alloc(), [5, 15, 25]);
    expect_entry(&rt, rt.alloc(), &map, b"a", 5, 0);
    expect_entry(&rt, rt.alloc(), &map, b"b", 15, 1);
    expect_entry(&rt, rt.alloc(), &map, b"c", 25, 2);
}

#[test]
fn a_path_that_is_there_gets_another_node(rt: HostRuntime) {
    let map = built(&rt, rt.alloc(), [5, 6, 5]);
    let new = put_one(&rt, rt.alloc(), &map, b"a", 7);
    expect_entry(&rt, rt.alloc(), &map, b"a", 5, 0);
    drop(map);
    expect_entry(&rt, rt.alloc(), &new, b"a", 7, 2);
    expect_entry(&rt, rt.alloc(), &new, b"c", 5, 0);
}

/// A map where no path has the number 1 gives it to a node that is put.
pub(crate) fn expect_given_again(rt: &impl Abort, alloc: Global, map: &KindMap<u32>) {
    let new = put_one(rt, alloc, map, b"d", 8);
    expect_entry(rt, alloc, &new, b"b", 5, 0);
    expect_entry(rt, alloc, &new, b"d", 8, 1);
    assert!(rt; new.numbers_len() == 2);
}

/// A map of four numbers, of which two are free, gives both to nodes that are put, in this order.
pub(crate) fn expect_both_given_again(
    rt: &impl Abort,
    alloc: Global,
    map: &KindMap<u32>,
    numbers: [usize; 2],
) {
    let first = path(rt, alloc, b"d");
    let second = path(rt, alloc, b"e");
    let new = put_two(rt, alloc, map, &first, &second, [1, 2]);
    expect_entry(rt, alloc, &new, b"d", 1, numbers[0]);
    expect_entry(rt, alloc, &new, b"e", 2, numbers[1]);
    assert!(rt; new.numbers_len() == 4);
}

#[test]
fn both_numbers_that_are_free_are_given_again(rt: HostRuntime) {
    let map = two_freed(&rt, rt.alloc());
    expect_both_given_again(&rt, rt.alloc(), &map, [1, 0]);
}

#[test]
fn a_number_whose_last_path_goes_is_given_again(rt: HostRuntime) {
    let map = b_freed(&rt, rt.alloc());
    assert!(rt; map.kinds().get(1).is_none());
    expect_given_again(&rt, rt.alloc(), &map);
}

/// The node of b and b/x has the number 2, and no path has the number 1.
fn expect_nines(rt: &impl Abort, alloc: Global, map: &KindMap<u32>) {
    expect_entry(rt, alloc, map, b"b", 9, 2);
    expect_entry(rt, alloc, map, b"b/x", 9, 2);
    expect_entry(rt, alloc, map, b"c", 5, 0);
    assert!(rt; map.kinds().get(1).is_none());
}

#[test]
fn a_path_that_is_there_is_put_with_one_that_is_not(rt: HostRuntime) {
    let new = put_two(
        &rt,
        rt.alloc(),
        &built(&rt, rt.alloc(), [5, 6, 5]),
        &path(&rt, rt.alloc(), b"b"),
        &path(&rt, rt.alloc(), b"b/x"),
        [9, 9],
    );
    expect_nines(&rt, rt.alloc(), &new);
}

/// The nearest entry above a path is that of this path, with this node.
fn expect_nearest(
    rt: &impl Abort,
    alloc: Global,
    map: &KindMap<u32>,
    text: &[u8],
    above: &[u8],
    node: u32,
) {
    let below = path(rt, alloc, text);
    let above = path(rt, alloc, above);
    let found = map.nearest_above(&below).expect(rt, "an entry above");
    assert!(rt; found.0.order(&above).is_eq());
    assert!(rt; *found.1 == node);
}

/// Paths that have no entry above.
static WITHOUT_ABOVE: [&[u8]; 3] = [b"b", b".", b"bb/x"];

fn expect_none_above(rt: &impl Abort, alloc: Global, map: &KindMap<u32>, text: &[u8]) {
    let below = path(rt, alloc, text);
    assert!(rt; map.nearest_above(&below).is_none());
}

#[test]
fn the_nearest_entry_above_a_path(rt: HostRuntime) {
    let map = put_one(
        &rt,
        rt.alloc(),
        &built(&rt, rt.alloc(), [5, 6, 5]),
        b"b/x",
        7,
    );
    expect_nearest(&rt, rt.alloc(), &map, b"b/x/y/z", b"b/x", 7);
    expect_nearest(&rt, rt.alloc(), &map, b"b/xy/z", b"b", 6);
    expect_nearest(&rt, rt.alloc(), &map, b"c/d", b"c", 5);
    for text in &WITHOUT_ABOVE {
        expect_none_above(&rt, rt.alloc(), &map, text);
    }
}

/// The map with one node put at two paths, in path order.
fn put_at_both(
    rt: &impl Abort,
    alloc: Global,
    map: &KindMap<u32>,
    first: &Path,
    second: &Path,
    node: u32,
) -> KindMap<u32> {
    assert!(rt; first.order(second).is_lt());
    let node = Rc::new(alloc, node).expect(rt, "memory");
    let new = map
        .put_placed(alloc, &[(first, 0), (second, 0)], &[GivenNode::New(node)])
        .expect(rt, "memory");
    assert!(rt; new.numbers.len() == 1);
    new.map
}

#[test]
fn entries_of_one_place_share_a_number(rt: HostRuntime) {
    let new = put_at_both(
        &rt,
        rt.alloc(),
        &built(&rt, rt.alloc(), [5, 6, 5]),
        &path(&rt, rt.alloc(), b"b"),
        &path(&rt, rt.alloc(), b"b/x"),
        9,
    );
    expect_nines(&rt, rt.alloc(), &new);
}
