//! A branch: some parts that follow one another, shared by the sets that contain them.

ghost use Rattle.std.specs.Prelude.{◌≡◌, ◌<◌, ◌≤◌, length, List};
ghost use Rattle.kinds.specs.declared.pairs.pair.Pair.{Pair};
ghost use Rattle.kinds.specs.PairSets.{AreRising};
ghost use Rattle.kinds.specs.PairParts.{pairs_in};

use crate::pairs::change::push_branches;
use crate::pairs::pair::{Change, Pair};
use crate::pairs::part::{Part, push_changed_in, push_seconds_in};
use std::alloc::{AllocError, Global};
use std::marker::Model;
use std::rc::Rc;

/// The largest number of parts of a branch.
pub(crate) const MAX_PARTS: usize = 32;

/// Parts whose pairs are in order, at least one part and at most 32.
#[derive(Drop)]
pub(crate) struct Branch<P: Part> {
    parts: Vec<Rc<P>>,
}

impl<P: Part> Model for Branch<P> {
    ghost Value = { List Pair };

    ghost view = { λ b. pairs_in P.pairs_of b.parts.items };

    ghost invariant = { λ b. AreRising (pairs_in P.pairs_of b.parts.items) × (0 < length b.parts.items) × (length b.parts.items ≤ 32) };
}

impl<P: Part> Branch<P> {
    pub fn new(parts: Vec<Rc<P>>) -> Branch<P>
        requires rising { AreRising (pairs_in P.pairs_of parts.items) }
        requires some { 0 < length parts.items }
        requires few { length parts.items ≤ 32 }
        ensures { result ≡ pairs_in P.pairs_of parts.items }
    {
        Branch { parts }
    }

    fn parts(&self) -> &[Rc<P>]
        ensures all { pairs_in P.pairs_of result.now ≡ self.now }
        ensures rising { AreRising self.now }
        ensures some { 0 < length result.now }
    {
        &self.parts
    }
}

impl<P: Part> Part for Branch<P> {
    ghost pairs_of = { λ b. b };

    fn first(&self) -> Pair {
        self.parts()[0].first()
    }

    fn push_seconds(&self, new: &mut Vec<usize>, first: u32) -> Result<(), AllocError> {
        push_seconds_in(new, self.parts(), first)
    }

    fn push_changed(
        &self,
        alloc: Global,
        new: &mut Vec<Rc<Branch<P>>>,
        changes: &[Change],
    ) -> Result<(), AllocError> {
        let mut parts = Vec::with_capacity(alloc, self.parts().len())?;
        push_changed_in(alloc, &mut parts, self.parts(), changes)?;
        push_branches(alloc, new, &parts)
    }
}
