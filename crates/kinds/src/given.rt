//! Nodes by the numbers that paths have, and maps of the same paths with other nodes, one for each number.

ghost use Rattle.std.specs.Prelude.{◌≡◌, length, option_map, IfOk, IfSome};
ghost use Rattle.kinds.specs.Kinds.{node_at, count_at};
ghost use Rattle.kinds.specs.Numbered.{entries_in};
ghost use Rattle.kinds.specs.Renewed.{renewed_if, Renews};
ghost use Rattle.kinds.specs.Placed.{placed, IsOfEntry};
ghost use Rattle.kinds.specs.Given.{used_at, shared_nodes, HaveNodes};

use crate::kinds::{KindNumber, Kinds, NONE, Slot, shared};
use crate::list::SharedList;
use crate::map::KindMap;
use std::alloc::{AllocError, Global};
use std::rc::Rc;

impl<N: Drop> Slot<N> {
    /// Shares the node, if there is one.
    fn shared_node(&self) -> Result<Option<Rc<N>>, AllocError>
        ensures { IfOk result (λ some. option_map (λ r. r.value) some ≡ self.now.0) }
    {
        shared(&self.node)
    }
}

impl<N: Drop> Kinds<N> {
    /// Shares the node of a number, if it has one.
    pub(crate) fn shared_node(&self, number: KindNumber) -> Result<Option<Rc<N>>, AllocError>
        ensures { IfOk result (λ some. option_map (λ r. r.value) some ≡ node_at self.now number) }
    {
        match self.slots.get(number) {
            Some(slot) => slot.shared_node(),
            None => Ok(None),
        }
    }
}

impl<N> Kinds<N> {
    /// Returns the slot of a number with this node, if a path has the number; else a slot that is free if this one
    /// is.
    fn slot_with<M: Drop>(&self, number: KindNumber, node: Option<Rc<M>>) -> Slot<M>
        ensures { result ≡ (renewed_if (λ x. x) (option_map (λ r. r.value) node) (count_at self.now number), count_at self.now number) }
    {
        let count = self.count(number);
        if count > 0 {
            return Slot {
                node,
                count,
                next: NONE,
            };
        }
        Slot {
            node: None,
            count,
            next: self.next_of(number),
        }
    }

    /// Gives each number that paths have the node at its place, with the same counts.
    pub(crate) fn with_nodes<M: Drop>(
        &self,
        alloc: Global,
        nodes: &[Option<Rc<M>>],
    ) -> Result<Kinds<M>, AllocError>
        requires { length nodes.now ≡ length self.now.0 }
        ensures { IfOk result (λ new. Renews (λ x. x) (shared_nodes nodes.now, self.now.1) new) }
    {
        let mut slots = SharedList::new(alloc);
        for number in 0..nodes.len() {
            let slot = self.slot_with(number, shared(&nodes[number])?);
            slots = slots.pushed(alloc, slot)?;
        }
        let free = self.free;
        Ok(Kinds { slots, free })
    }
}

impl<N> KindMap<N> {
    /// Returns how many numbers there are, free ones included.
    pub fn numbers_len(&self) -> usize
        ensures { result ≡ length self.now.0.0 }
    {
        self.kinds().len()
    }
}

impl<N: Drop> KindMap<N> {
    /// Shares the node of a number, if a path has the number.
    pub fn shared_node(&self, number: KindNumber) -> Result<Option<Rc<N>>, AllocError>
        ensures node { IfOk result (λ some. option_map (λ r. r.value) some ≡ used_at self.now.0 number) }
        ensures entry { IfOk result (λ some. IfSome some (λ node. IsOfEntry node.value (entries_in self.now))) }
    {
        match self.used(number) {
            Some(_node) => self.kinds().shared_node(number),
            None => Ok(None),
        }
    }

    /// Returns the map of the same paths with other nodes, one for each number. Both maps share the paths and their
    /// numbers.
    pub fn with_nodes<M: Drop>(
        &self,
        alloc: Global,
        nodes: &[Option<Rc<M>>],
    ) -> Result<KindMap<M>, AllocError>
        requires long { length nodes.now ≡ length self.now.0.0 }
        requires used { HaveNodes (shared_nodes nodes.now) self.now.1 }
        ensures entries { IfOk result (λ new. entries_in new ≡ placed (shared_nodes nodes.now) self.now.1) }
        ensures paths { IfOk result (λ new. new.1 ≡ self.now.1) }
    {
        let kinds = self.kinds().with_nodes(alloc, nodes)?;
        let numbers = self.numbers().share()?;
        let map = KindMap::of(alloc, kinds, numbers)?;
        Ok(map)
    }
}
