//! Maps of the same paths whose kinds have other nodes, which may be of another type.

ghost use Rattle.std.specs.Prelude.{◌≡◌, ◌+◌, ◌*◌, ◌<◌, ◌≤◌, ◌^◌, ℕ, Bool, true, IfOk, OnOk};
ghost use Rattle.kinds.specs.Numbered.{entries_in};
ghost use Rattle.kinds.specs.Renewed.{renewed, weight_of, Renews};

use crate::map::KindMap;
use std::alloc::{AllocError, Global};

/// Makes another node of each node. What that takes counts in a state, as the verdicts of a judge.
pub trait Renewal<N, M, S> {
    /// What a node becomes.
    ghost renewed: { Self → N → M };

    /// What was counted.
    ghost counted: { S → ℕ };

    /// What counts for each path that has a node.
    ghost weight: { Self → N → ℕ };

    /// Whether just this counts; else it may be less.
    ghost is_exact: { Bool };

    /// Makes what a node of `paths` paths becomes.
    fn renew(&self, alloc: Global, state: &mut S, node: &N, paths: usize) -> Result<M, AllocError>
        requires some { 0 < paths }
        requires room { counted state.old + paths * weight self.now node.now < 2 ^ 64 }
        ensures node { IfOk result (λ new. new ≡ renewed self.now node.now) }
        ensures exact { OnOk result (is_exact ≡ true → counted state.new ≡ counted state.old + paths * weight self.now node.now) }
        ensures at_most { counted state.new ≤ counted state.old + paths * weight self.now node.now };
}

/// Tells nodes that pass from those that do not.
pub trait KindTest<N> {
    /// Whether a node passes.
    ghost passes: { Self → N → Bool };

    /// Tells whether a node passes.
    fn passes(&self, node: &N) -> bool
        ensures { result ≡ passes self.now node.now };
}

impl<N: Drop> KindMap<N> {
    /// Renews each kind once. Both maps share the paths and their numbers.
    pub fn renewed<M: Drop, S, R: Renewal<N, M, S>>(
        &self,
        alloc: Global,
        state: &mut S,
        renewal: &R,
    ) -> Result<KindMap<M>, AllocError>
        requires room { R.counted state.old + weight_of (R.weight renewal.now) (entries_in self.now) < 2 ^ 64 }
        ensures entries { IfOk result (λ new. entries_in new ≡ renewed (R.renewed renewal.now) (entries_in self.now)) }
        ensures kinds { IfOk result (λ new. Renews (R.renewed renewal.now) self.now.0 new.0) }
        ensures paths { IfOk result (λ new. new.1 ≡ self.now.1) }
        ensures exact { OnOk result (R.is_exact ≡ true → R.counted state.new ≡ R.counted state.old + weight_of (R.weight renewal.now) (entries_in self.now)) }
        ensures at_most { R.counted state.new ≤ R.counted state.old + weight_of (R.weight renewal.now) (entries_in self.now) }
    {
        let kinds = self.kinds().renewed(alloc, state, renewal)?;
        let numbers = self.numbers().share()?;
        let map = KindMap::of(alloc, kinds, numbers)?;
        Ok(map)
    }
}
