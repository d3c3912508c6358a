//! Replaces the nodes of some numbers.

ghost use Rattle.std.specs.Prelude.{◌≡◌, ◌+◌, ◌++◌, ◌∷◌, ◌<◌, ◌≤◌, ◌^◌, [], ℕ, List, length, option_map, IfOk, MatchOption};
ghost use Rattle.std.specs.Option.{option_map_or};
ghost use Rattle.kinds.specs.Kinds.{kinds_of, node_at, count_at, IsNode};
ghost use Rattle.kinds.specs.Tagged.{ChangesEach, AreNoted};

use crate::kinds::{KindNumber, Kinds, NONE, Slot};
use crate::list::SharedList;
use crate::map::KindMap;
use std::alloc::{AllocError, Global};
use std::rc::Rc;

/// Changes nodes. Each change counts in a state at most once, as a verdict of a judge.
pub trait NodeChange<N, S> {
    /// What a node becomes.
    ghost changed: { Self → N → N };

    /// What was counted.
    ghost counted: { S → ℕ };

    /// Returns what a node becomes, which may be an equal one; `None` if it stays.
    fn change(&self, alloc: Global, state: &mut S, node: &N) -> Result<Option<N>, AllocError>
        requires room { counted state.old + 1 < 2 ^ 64 }
        ensures node { IfOk result (λ new. option_map_or (λ x. x) new node.now ≡ changed self.now node.now) }
        ensures at_most { counted state.new ≤ counted state.old + 1 };
}

impl<N: Drop> Kinds<N> {
    /// Returns the slot of a number with what its node becomes, which may be an equal one; `None` if it stays.
    fn changed_slot<S, C: NodeChange<N, S>>(
        &self,
        alloc: Global,
        state: &mut S,
        change: &C,
        number: KindNumber,
    ) -> Result<Option<Slot<N>>, AllocError>
        requires room { C.counted state.old + 1 < 2 ^ 64 }
        ensures slot { IfOk result (λ some. MatchOption some
            (option_map (C.changed change.now) (node_at self.now number) ≡ node_at self.now number)
            (λ slot. IsNode self.now number × (slot ≡ (option_map (C.changed change.now) (node_at self.now number), count_at self.now number)))) }
        ensures at_most { C.counted state.new ≤ C.counted state.old + 1 }
    {
        let Some(node) = self.get(number) else {
            return Ok(None);
        };
        let some = change.change(alloc, state, node)?;
        let Some(new) = some else {
            return Ok(None);
        };
        Ok(Some(Slot {
            node: Some(Rc::new(alloc, new)?),
            count: self.count(number),
            next: NONE,
        }))
    }

    /// Changes the slot of a number, if its node may become another one: then the number is added to `changed`. All
    /// other slots are shared.
    fn slots_changed<S, C: NodeChange<N, S>>(
        &self,
        alloc: Global,
        state: &mut S,
        change: &C,
        slots: SharedList<Slot<N>>,
        number: KindNumber,
        changed: &mut Vec<usize>,
    ) -> Result<SharedList<Slot<N>>, AllocError>
        requires room { C.counted state.old + 1 < 2 ^ 64 }
        ensures slots { IfOk result (λ new. (done : List ℕ) → ChangesEach (C.changed change.now) done self.now (kinds_of slots)
            → ChangesEach (C.changed change.now) (done ++ number ∷ []) self.now (kinds_of new)) }
        ensures noted { IfOk result (λ new. (done : List ℕ) → AreNoted done self.now (kinds_of slots) changed.old.items
            → AreNoted (done ++ number ∷ []) self.now (kinds_of new) changed.new.items) }
        ensures at_most { C.counted state.new ≤ C.counted state.old + 1 }
    {
        let some = self.changed_slot(alloc, state, change, number)?;
        let Some(slot) = some else {
            return Ok(slots);
        };
        let slots = slots.with(number, slot)?;
        changed.push(number)?;
        Ok(slots)
    }

    /// Changes the nodes of `numbers`, and returns the numbers of the nodes that may have become others.
    pub(crate) fn changed_at<S, C: NodeChange<N, S>>(
        &self,
        alloc: Global,
        state: &mut S,
        change: &C,
        numbers: &[usize],
    ) -> Result<(Kinds<N>, Vec<usize>), AllocError>
        requires room { C.counted state.old + length numbers.now < 2 ^ 64 }
        ensures kinds { IfOk result (λ new. ChangesEach (C.changed change.now) numbers.now self.now new.0) }
        ensures noted { IfOk result (λ new. AreNoted numbers.now self.now new.0 new.1.items) }
        ensures at_most { C.counted state.new ≤ C.counted state.old + length numbers.now }
    {
        let mut slots = self.slots.share()?;
        let mut changed = Vec::new(alloc);
        for number in numbers {
            slots = self.slots_changed(alloc, state, change, slots, *number, &mut changed)?;
        }
        let free = self.free;
        Ok((Kinds { slots, free }, changed))
    }
}

impl<N: Drop> KindMap<N> {
    /// Changes the nodes of `numbers`, and returns the numbers of the nodes that may have become others. Both maps share
    /// the paths, their numbers and all other nodes.
    pub(crate) fn changed_at<S, C: NodeChange<N, S>>(
        &self,
        alloc: Global,
        state: &mut S,
        change: &C,
        numbers: &[usize],
    ) -> Result<(KindMap<N>, Vec<usize>), AllocError>
        requires room { C.counted state.old + length numbers.now < 2 ^ 64 }
        ensures kinds { IfOk result (λ new. ChangesEach (C.changed change.now) numbers.now self.now.0 new.0.0) }
        ensures paths { IfOk result (λ new. new.0.1 ≡ self.now.1) }
        ensures noted { IfOk result (λ new. AreNoted numbers.now self.now.0 new.0.0 new.1.items) }
        ensures at_most { C.counted state.new ≤ C.counted state.old + length numbers.now }
    {
        let (kinds, changed) = self.kinds().changed_at(alloc, state, change, numbers)?;
        let paths = self.numbers().share()?;
        let map = KindMap::of(alloc, kinds, paths)?;
        Ok((map, changed))
    }
}
