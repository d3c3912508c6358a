//! Maps of the same paths with other nodes: what no clause states of them, which numbers are free, and how often a node is
//! renewed.

ghost use Rattle.std.specs.Prelude.{false};

use crate::kind_maps::{
    b_freed, built, expect_both_given_again, expect_entry, expect_given_again, two_freed,
};
use kinds::{KindMap, Renewal};
use std::alloc::{AllocError, Global};
use std::process::Abort;

/// How many nodes were renewed.
#[derive(Drop)]
struct Count {
    nodes: u64,
}

/// Each node becomes this one.
#[derive(Drop)]
struct Becomes {
    node: u32,
}

impl Renewal<u32, u32, Count> for Becomes {
    ghost renewed = { λ becomes node. becomes.node };

    ghost counted = { λ count. 0 };

    ghost weight = { λ becomes node. 0 };

    ghost is_exact = { false };

    fn renew(
        &self,
        _alloc: Global,
        count: &mut Count,
        _node: &u32,
        _paths: usize,
    ) -> Result<u32, AllocError> {
        count.nodes = count.nodes.wrapping_add(1);
        Ok(self.node)
    }
}

/// The map of the same paths with the same nodes, one for each number.
fn with_its_nodes(rt: &impl Abort, alloc: Global, map: &KindMap<u32>) -> KindMap<u32> {
    let mut nodes = Vec::new(alloc);
    let _kinds = map.kinds();
    for number in 0..map.numbers_len() {
        let node = map.shared_node(number).expect(rt, "memory");
        nodes.push(node).expect(rt, "memory");
    }
    map.with_nodes(alloc, &nodes).expect(rt, "memory")
}

/// The map where each node becomes 9, and how many nodes were renewed.
fn with_nines(rt: &impl Abort, alloc: Global, map: &KindMap<u32>) -> (KindMap<u32>, u64) {
    let mut count = Count { nodes: 0 };
    let new = map
        .renewed(alloc, &mut count, &Becomes { node: 9 })
        .expect(rt, "memory");
    (new, count.nodes)
}

#[test]
fn a_map_with_other_nodes_has_the_same_numbers(rt: HostRuntime) {
    let map = built(&rt, rt.alloc(), [5, 6, 5]);
    let new = with_its_nodes(&rt, rt.alloc(), &map);
    assert!(rt; new.numbers_len() == 2);
    expect_entry(&rt, rt.alloc(), &new, b"a", 5, 0);
    expect_entry(&rt, rt.alloc(), &new, b"b", 6, 1);
}

// No path has the number of b. So the node that is put gets it, in the other map too.
#[test]
fn a_number_that_is_free_is_free_in_a_map_with_other_nodes(rt: HostRuntime) {
    let new = with_its_nodes(&rt, rt.alloc(), &b_freed(&rt, rt.alloc()));
    assert!(rt; new.used(1).is_none());
    expect_given_again(&rt, rt.alloc(), &new);
}

#[test]
fn both_numbers_that_are_free_are_free_in_a_map_with_other_nodes(rt: HostRuntime) {
    let new = with_its_nodes(&rt, rt.alloc(), &two_freed(&rt, rt.alloc()));
    expect_both_given_again(&rt, rt.alloc(), &new, [1, 0]);
}

// The lowest one is given first.
#[test]
fn both_numbers_that_are_free_are_free_in_a_renewed_map(rt: HostRuntime) {
    let (new, renewed) = with_nines(&rt, rt.alloc(), &two_freed(&rt, rt.alloc()));
    assert!(rt; renewed == 2);
    expect_both_given_again(&rt, rt.alloc(), &new, [0, 1]);
}

#[test]
fn a_node_that_two_paths_have_is_renewed_once(rt: HostRuntime) {
    let map = built(&rt, rt.alloc(), [6, 5, 6]);
    let (new, renewed) = with_nines(&rt, rt.alloc(), &map);
    expect_entry(&rt, rt.alloc(), &map, b"a", 6, 0);
    drop(map);
    assert!(rt; renewed == 2);
    expect_entry(&rt, rt.alloc(), &new, b"a", 9, 0);
    expect_entry(&rt, rt.alloc(), &new, b"b", 9, 1);
    expect_entry(&rt, rt.alloc(), &new, b"c", 9, 0);
}

#[test]
fn a_node_that_no_path_has_is_not_renewed(rt: HostRuntime) {
    let (new, renewed) = with_nines(&rt, rt.alloc(), &b_freed(&rt, rt.alloc()));
    assert!(rt; renewed == 1);
    assert!(rt; new.used(1).is_none());
    assert!(rt; new.numbers_len() == 1);
}
