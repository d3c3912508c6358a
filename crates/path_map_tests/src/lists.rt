//! A list of more items than a block of blocks has.
use kinds::SharedList;
use std::alloc::Global;
use std::process::Abort;

/// The numbers up to one, in their order.
fn numbers(rt: &impl Abort, alloc: Global, end: usize) -> SharedList<usize> {
    let mut list = SharedList::new(alloc);
    for number in 0..end {
        list = list.pushed(alloc, number).expect(rt, "memory");
    }
    list
}

fn expect_item(rt: &impl Abort, list: &SharedList<usize>, at: usize, want: usize) {
    let item = list.get(at).expect(rt, "an item");
    assert!(rt; *item == want);
}

#[test]
fn a_list_is_changed_and_its_copies_are_not(rt: HostRuntime) {
    let list = numbers(&rt, rt.alloc(), 4_200);
    let copy = list.share().expect(&rt, "memory");
    let changed = list.with(4_150, 7).expect(&rt, "memory");
    expect_item(&rt, &changed, 4_150, 7);
    expect_item(&rt, &changed, 4_149, 4_149);
    expect_item(&rt, &copy, 4_150, 4_150);
    assert!(rt; changed.len() == 4_200);
    assert!(rt; changed.get(4_200).is_none());
}

#[test]
fn each_item_is_at_its_place(rt: HostRuntime) {
    let list = numbers(&rt, rt.alloc(), 4_200);
    for at in 0..4_200 {
        expect_item(&rt, &list, at, at);
    }
}
