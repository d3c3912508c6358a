//! The set.

ghost use Rattle.std.specs.Prelude.{◌≡◌, ◌++◌, [], List, IfOk, OnOk, if◌then◌else◌};
ghost use Rattle.kinds.specs.declared.pairs.pair.Pair.{Pair};
ghost use Rattle.kinds.specs.PairSets.{AreRising, has, seconds_of, pairs_named};
ghost use Rattle.kinds.specs.PairParts.{pairs_in, changed};

use crate::pairs::branch::Branch;
use crate::pairs::change::{push_branches, push_chunks};
use crate::pairs::chunk::{Chunk, changed_pairs};
use crate::pairs::pair::{Change, Pair, changes_of, rising};
use crate::pairs::part::{push_changed_in, push_seconds_in};
use std::alloc::{AllocError, Global};
use std::marker::Model;
use std::rc::Rc;

/// A branch of branches of chunks.
type Top = Branch<Branch<Chunk>>;

/// A set of pairs, in order. A set and its copies share the pairs in which they do not differ, by branches and chunks.
#[derive(Drop)]
pub struct PairSet {
    tops: Vec<Rc<Top>>,
}

impl Model for PairSet {
    ghost Value = { List Pair };

    ghost view = { λ s. pairs_in (λ b. b) s.tops.items };

    ghost invariant = { λ s. AreRising (pairs_in (λ b. b) s.tops.items) };
}

impl PairSet {
    /// Returns an empty set.
    pub fn new(alloc: Global) -> PairSet
        ensures { result ≡ [] }
    {
        PairSet {
            tops: Vec::new(alloc),
        }
    }

    /// Returns the pairs, by branches.
    fn tops(&self) -> &[Rc<Top>]
        ensures all { pairs_in (λ b. b) result.now ≡ self.now }
        ensures rising { AreRising self.now }
    {
        &self.tops
    }

    /// Returns the set of some pairs, which rise.
    fn from_sorted(alloc: Global, pairs: &[Pair]) -> Result<PairSet, AllocError>
        requires { AreRising pairs.now }
        ensures { IfOk result (λ set. set ≡ pairs.now) }
    {
        let mut chunks = Vec::new(alloc);
        push_chunks(alloc, &mut chunks, pairs)?;
        let mut branches = Vec::new(alloc);
        push_branches(alloc, &mut branches, &chunks)?;
        let mut tops = Vec::new(alloc);
        push_branches(alloc, &mut tops, &branches)?;
        Ok(PairSet { tops })
    }

    /// Copies the set; both share all pairs.
    pub fn share(&self) -> Result<PairSet, AllocError>
        ensures { IfOk result (λ set. set ≡ self.now) }
    {
        Ok(PairSet {
            tops: self.tops.clone()?,
        })
    }

    /// Adds the second numbers of the pairs whose first one is `first`. Fails, as if memory ran out, if `first` has
    /// more than 32 bits.
    pub fn push_seconds(&self, new: &mut Vec<usize>, first: usize) -> Result<(), AllocError>
        ensures { OnOk result (new.new.items ≡ new.old.items ++ seconds_of first self.now) }
    {
        let Ok(first) = u32::try_from(first) else {
            return Err(AllocError);
        };
        push_seconds_in(new, self.tops(), first)
    }

    /// Puts and removes pairs, by their list.
    fn changed(&self, alloc: Global, changes: &[Change]) -> Result<PairSet, AllocError>
        requires { AreRising (pairs_named changes.now) }
        ensures { IfOk result (λ set. set ≡ changed changes.now self.now) }
    {
        let tops = self.tops();
        if tops.is_empty() {
            let pairs = changed_pairs(alloc, &[], changes)?;
            return PairSet::from_sorted(alloc, &pairs);
        }
        let mut new = Vec::with_capacity(alloc, tops.len())?;
        push_changed_in(alloc, &mut new, tops, changes)?;
        Ok(PairSet { tops: new })
    }

    /// Puts pairs, or removes them. This set stays as it is. Only the branches and chunks of these pairs are copied.
    pub fn with_pairs(
        &self,
        alloc: Global,
        pairs: Vec<Pair>,
        is_put: bool,
    ) -> Result<PairSet, AllocError>
        ensures { (p : Pair) → IfOk result (λ set. has p set ≡ (if has p pairs.items then is_put else has p self.now)) }
    {
        let pairs = rising(pairs);
        let changes = changes_of(alloc, &pairs, is_put)?;
        let set = self.changed(alloc, &changes)?;
        Ok(set)
    }
}
