//! Nodes by numbers, with the count of the paths of each, and a free list of numbers.

ghost use Rattle.std.specs.Prelude.{◌≡◌, ◌+◌, ◌-◌, ◌<◌, ◌≤◌, ◌^◌, [], ℕ, List, Option, Some, None, true, length, IfOk, OnOk, option_map, slice_get, slice_set, IfSome};
ghost use Rattle.std.specs.Option.{option_copied};
ghost use Rattle.kinds.specs.Renewed.{renewed_if, weight_at, weight_before, Renews};
ghost use Rattle.kinds.specs.Kinds.{KindsOf, kinds_of, node_at, count_at, IsNode, Adds, Grants, Releases};

use crate::blocks::Same;
use crate::list::SharedList;
use crate::renew::Renewal;
use std::alloc::{AllocError, Global};
use std::clone::Clone;
use std::marker::Model;
use std::rc::Rc;

/// The node of a number, if it has one, with the count of its paths; a free number has the next one of the free list.
#[derive(Drop)]
pub(crate) struct Slot<N> {
    pub(crate) node: Option<Rc<N>>,
    pub(crate) count: usize,
    pub(crate) next: usize,
}

impl<N> Model for Slot<N> {
    ghost Value = { Option N × ℕ };

    ghost view = { λ s. (option_map (λ r. r.value) s.node, s.count) };
}

/// Shares a node, if there is one.
pub(crate) fn shared<N: Drop>(node: &Option<Rc<N>>) -> Result<Option<Rc<N>>, AllocError>
    ensures { IfOk result (λ same. option_map (λ r. r.value) same ≡ option_map (λ r. r.value) node.now) }
{
    match node {
        Some(node) => Ok(Some(node.clone()?)),
        None => Ok(None),
    }
}

impl<N: Drop> Clone for Slot<N> {
    ghost is_clone = { λ slot copy. copy ≡ slot };

    fn clone(&self) -> Result<Slot<N>, AllocError> {
        Ok(Slot {
            node: shared(&self.node)?,
            count: self.count,
            next: self.next,
        })
    }
}

impl<N: Drop> Same for Slot<N> {
    ghost same = { λ x y h. h };
}

impl Same for usize {
    ghost same = { λ x y h. h };
}

/// The number of a kind: its place in [`Kinds`].
pub type KindNumber = usize;

/// The end of the free list: no slot has this number.
pub(crate) const NONE: usize = usize::MAX;

/// For each number a node and the count of its paths. A copy shares all nodes. Numbers that are given back are in a
/// free list, and given again.
#[derive(Drop)]
pub struct Kinds<N> {
    pub(crate) slots: SharedList<Slot<N>>,
    pub(crate) free: usize,
}

impl<N> Model for Kinds<N> {
    ghost Value = { List (Option N) × List ℕ };

    ghost view = { λ k. kinds_of k.slots };
}

impl<N> Kinds<N> {
    /// Returns an empty list of nodes.
    pub fn new(alloc: Global) -> Kinds<N>
        ensures { result ≡ ([], []) }
    {
        Kinds {
            slots: SharedList::new(alloc),
            free: NONE,
        }
    }

    /// Returns the node of a number, if it has one.
    pub fn get(&self, number: KindNumber) -> Option<&N>
        ensures { option_copied result ≡ node_at self.now number }
    {
        match self.slots.get(number) {
            Some(slot) => slot.node(),
            None => None,
        }
    }

    /// Returns how many numbers there are, free ones included.
    pub(crate) fn len(&self) -> usize
        ensures nodes { result ≡ length self.now.0 }
        ensures counts { result ≡ length self.now.1 }
    {
        self.slots.len()
    }

    /// Returns how many paths have a number.
    pub fn count(&self, number: KindNumber) -> usize
        ensures { result ≡ count_at self.now number }
    {
        count_in(&self.slots, number)
    }

    /// Returns the node of a number that has one.
    pub fn node(&self, number: KindNumber) -> &N
        requires { IsNode self.now number }
        ensures { node_at self.now number ≡ Some result.now }
    {
        match self.get(number) {
            Some(node) => node,
            None => unreachable!(),
        }
    }
}

impl<N> Slot<N> {
    /// Returns the node, if there is one.
    fn node(&self) -> Option<&N>
        ensures { option_copied result ≡ self.now.0 }
    {
        match &self.node {
            Some(node) => Some(node),
            None => None,
        }
    }

    fn count(&self) -> usize
        ensures { result ≡ self.now.1 }
    {
        self.count
    }
}

impl<N: Drop> Slot<N> {
    /// Returns the slot with this count.
    fn with_count(&self, count: usize) -> Result<Slot<N>, AllocError>
        ensures { IfOk result (λ new. new ≡ (self.now.0, count)) }
    {
        Ok(Slot {
            node: shared(&self.node)?,
            count,
            next: self.next,
        })
    }
}

impl<N: Drop> Kinds<N> {
    /// Copies the nodes and counts; both share all nodes.
    pub fn share(&self) -> Result<Kinds<N>, AllocError>
        ensures { IfOk result (λ same. same ≡ self.now) }
    {
        Ok(Kinds {
            slots: self.slots.share()?,
            free: self.free,
        })
    }

    /// Adds a node, with a number that no path has.
    pub fn add(self, alloc: Global, node: Rc<N>) -> Result<(Kinds<N>, usize), AllocError>
        ensures { IfOk result (λ new. Adds self node.value new.1 new.0) }
    {
        let slot = Slot {
            node: Some(node),
            count: 0,
            next: NONE,
        };
        let Kinds { slots, free } = self;
        if let Some(next) = next_free(&slots, free) {
            let slots = slots.with(free, slot)?;
            let kinds = Kinds { slots, free: next };
            return Ok((kinds, free));
        }
        let number = slots.len();
        let slots = slots.pushed(alloc, slot)?;
        let kinds = Kinds { slots, free: NONE };
        Ok((kinds, number))
    }

    /// Adds `more` to the number's count of paths.
    pub fn grant(self, number: KindNumber, more: usize) -> Result<Kinds<N>, AllocError>
        requires { IsNode self number }
        ensures { IfOk result (λ new. Grants self number more new) }
    {
        let Kinds { slots, free } = self;
        let Some(count) = count_in(&slots, number).checked_add(more) else {
            return Err(AllocError);
        };
        let slots = slots_with_count(slots, number, count)?;
        Ok(Kinds { slots, free })
    }

    /// Takes `fewer` from the number's count of paths; at 0 its node is dropped, and the number is free.
    pub fn release(self, number: KindNumber, fewer: usize) -> Result<Kinds<N>, AllocError>
        ensures { IfOk result (λ new. Releases self number fewer new) }
    {
        let Kinds { slots, free } = self;
        let count = count_in(&slots, number);
        if count > fewer {
            let slots = slots_with_count(slots, number, count.saturating_sub(fewer))?;
            return Ok(Kinds { slots, free });
        }
        let slot = Slot {
            node: None,
            count: 0,
            next: free,
        };
        let slots = slots.with(number, slot)?;
        Ok(Kinds {
            slots,
            free: number,
        })
    }
}

impl<N> Kinds<N> {
    /// Returns the slot of a number with what its node becomes, if a path has it; else a slot that is free if this
    /// one is.
    fn renewed_slot<M: Drop, S, R: Renewal<N, M, S>>(
        &self,
        alloc: Global,
        state: &mut S,
        renewal: &R,
        number: KindNumber,
    ) -> Result<Slot<M>, AllocError>
        requires room { R.counted state.old + weight_at (R.weight renewal.now) self.now number < 2 ^ 64 }
        ensures slot { IfOk result (λ slot. slot ≡ (renewed_if (R.renewed renewal.now) (node_at self.now number) (count_at self.now number), count_at self.now number)) }
        ensures exact { OnOk result (R.is_exact ≡ true → R.counted state.new ≡ R.counted state.old + weight_at (R.weight renewal.now) self.now number) }
        ensures at_most { R.counted state.new ≤ R.counted state.old + weight_at (R.weight renewal.now) self.now number }
    {
        let paths = count_in(&self.slots, number);
        match self.get(number) {
            Some(node) if paths > 0 => {
                let node = renewal.renew(alloc, state, node, paths)?;
                Ok(Slot {
                    node: Some(Rc::new(alloc, node)?),
                    count: paths,
                    next: NONE,
                })
            }
            _ => Ok(Slot {
                node: None,
                count: paths,
                next: self.unused_from(number.saturating_add(1)),
            }),
        }
    }

    /// Returns the first number from `start` on that no path has.
    fn unused_from(&self, start: usize) -> usize {
        for number in start..self.len() {
            if self.count(number) == 0 {
                return number;
            }
        }
        NONE
    }

    /// Returns the number after the last one that paths have; 0 if there is none.
    fn used_end(&self) -> usize
        ensures within { result ≤ length self.now.0 }
        ensures past { (n : ℕ) → result ≤ n → count_at self.now n ≡ 0 }
    {
        let mut end = self.len();
        while 0 < end {
            let paths = self.count(end - 1);
            if paths > 0 {
                return end;
            }
            end -= 1;
        }
        end
    }

    /// Returns the number after a free one in the free list.
    pub(crate) fn next_of(&self, number: KindNumber) -> usize {
        match self.slots.get(number) {
            Some(slot) => slot.next,
            None => NONE,
        }
    }

    /// Renews the node of each number that paths have, with the same counts. Free numbers after the last of these are
    /// left out, and the lowest free one is given first.
    pub(crate) fn renewed<M: Drop, S, R: Renewal<N, M, S>>(
        &self,
        alloc: Global,
        state: &mut S,
        renewal: &R,
    ) -> Result<Kinds<M>, AllocError>
        requires room { R.counted state.old + weight_before (R.weight renewal.now) self.now (length self.now.0) < 2 ^ 64 }
        ensures renews { IfOk result (λ new. Renews (R.renewed renewal.now) self.now new) }
        ensures exact { OnOk result (R.is_exact ≡ true → R.counted state.new ≡ R.counted state.old + weight_before (R.weight renewal.now) self.now (length self.now.0)) }
        ensures at_most { R.counted state.new ≤ R.counted state.old + weight_before (R.weight renewal.now) self.now (length self.now.0) }
    {
        let mut slots = SharedList::new(alloc);
        for number in 0..self.used_end() {
            let slot = self.renewed_slot(alloc, state, renewal, number)?;
            slots = slots.pushed(alloc, slot)?;
        }
        let free = self.unused_from(0);
        Ok(Kinds { slots, free })
    }
}

/// Returns the number after a free one in the free list.
fn next_free<N>(slots: &SharedList<Slot<N>>, free: usize) -> Option<usize>
    ensures { IfSome result (λ _. slice_get slots.now free ≡ Some (None, 0)) }
{
    let slot = slots.get(free)?;
    if slot.node().is_some() || slot.count() > 0 {
        return None;
    }
    Some(slot.next)
}

fn count_in<N>(slots: &SharedList<Slot<N>>, number: KindNumber) -> usize
    ensures { result ≡ count_at (kinds_of slots.now) number }
{
    match slots.get(number) {
        Some(slot) => slot.count(),
        None => 0,
    }
}

/// Gives a number this count.
fn slots_with_count<N: Drop>(
    slots: SharedList<Slot<N>>,
    number: KindNumber,
    count: usize,
) -> Result<SharedList<Slot<N>>, AllocError>
    ensures { IfOk result (λ new. kinds_of new ≡ ((kinds_of slots).0, slice_set (kinds_of slots).1 number count)) }
{
    let slot = match slots.get(number) {
        Some(slot) => slot.with_count(count)?,
        None => return Ok(slots),
    };
    slots.with(number, slot)
}
