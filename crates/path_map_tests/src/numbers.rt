//! Nodes by numbers.
use kinds::Kinds;
use std::alloc::Global;
use std::process::Abort;
use std::rc::Rc;

/// The nodes with one more, whose number is this one.
fn added(rt: &impl Abort, alloc: Global, kinds: Kinds<u32>, node: u32, want: usize) -> Kinds<u32> {
    let node = Rc::new(alloc, node).expect(rt, "memory");
    let (kinds, number) = kinds.add(alloc, node).expect(rt, "memory");
    assert!(rt; number == want);
    kinds
}

fn expect_node(rt: &impl Abort, kinds: &Kinds<u32>, number: usize, want: u32) {
    let node = kinds.get(number).expect(rt, "a node");
    assert!(rt; *node == want);
}

#[test]
fn a_number_that_is_given_back_is_given_again(rt: HostRuntime) {
    let kinds = added(&rt, rt.alloc(), Kinds::new(rt.alloc()), 5, 0);
    let kinds = added(&rt, rt.alloc(), kinds, 6, 1);
    let kinds = kinds.release(0, 1).expect(&rt, "memory");
    assert!(rt; kinds.get(0).is_none());
    let kinds = added(&rt, rt.alloc(), kinds, 7, 0);
    let kinds = added(&rt, rt.alloc(), kinds, 8, 2);
    expect_node(&rt, &kinds, 0, 7);
    expect_node(&rt, &kinds, 1, 6);
    expect_node(&rt, &kinds, 2, 8);
}

/// Four nodes, of which three are given back, in this order. Their numbers are given again, the last one first, and then one
/// that is new.
fn expect_given_again(rt: &impl Abort, alloc: Global, back: [usize; 3]) {
    let kinds = added(rt, alloc, Kinds::new(alloc), 5, 0);
    let kinds = added(rt, alloc, kinds, 6, 1);
    let kinds = added(rt, alloc, kinds, 7, 2);
    let kinds = added(rt, alloc, kinds, 8, 3);
    let kinds = kinds.release(back[0], 1).expect(rt, "memory");
    let kinds = kinds.release(back[1], 1).expect(rt, "memory");
    let kinds = kinds.release(back[2], 1).expect(rt, "memory");
    let kinds = kinds.share().expect(rt, "memory");
    let kinds = added(rt, alloc, kinds, 9, back[2]);
    let kinds = added(rt, alloc, kinds, 10, back[1]);
    let kinds = added(rt, alloc, kinds, 11, back[0]);
    let kinds = added(rt, alloc, kinds, 12, 4);
    expect_node(rt, &kinds, 1, 6);
}

#[test]
fn numbers_that_are_given_back_are_all_given_again(rt: HostRuntime) {
    expect_given_again(&rt, rt.alloc(), [0, 2, 3]);
    expect_given_again(&rt, rt.alloc(), [3, 0, 2]);
}

/// A node that replaces another one, whose number it gets.
fn replaced(rt: &impl Abort, alloc: Global, kinds: Kinds<u32>, number: usize) -> Kinds<u32> {
    let node = Rc::new(alloc, 11).expect(rt, "memory");
    assert!(rt; kinds.get(number).is_some());
    kinds.with_node(number, node).expect(rt, "memory")
}

#[test]
fn numbers_that_are_free_stay_so_where_a_node_is_replaced(rt: HostRuntime) {
    let kinds = added(&rt, rt.alloc(), Kinds::new(rt.alloc()), 5, 0);
    let kinds = added(&rt, rt.alloc(), kinds, 6, 1);
    let kinds = kinds.release(0, 1).expect(&rt, "memory");
    let kinds = replaced(&rt, rt.alloc(), kinds, 1);
    let kinds = added(&rt, rt.alloc(), kinds, 7, 0);
    expect_node(&rt, &kinds, 1, 11);
}
