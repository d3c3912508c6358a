//! Pairs of numbers in their order, and changes of a set of them.

ghost use Rattle.std.specs.Prelude.{◌≡◌, filter, map, IfOk};
ghost use Rattle.kinds.specs.PairSets.{is_before, AreRising, has, pairs_named};
ghost use Rattle.kinds.specs.declared.pairs.pair.Pair.{Pair};
ghost use Rattle.kinds.specs.PairParts.{AreSplit};

use std::alloc::{AllocError, Global};

/// Two numbers. Pairs are in order by the first one, then by the second.
#[derive(Clone, Copy, PartialEq, Eq, PartialOrd, Ord)]
pub struct Pair {
    pub first: u32,
    pub second: u32,
}

/// A pair that is put into a set, or removed.
#[derive(Clone, Copy)]
pub struct Change {
    pub pair: Pair,
    /// Whether the pair is put into the set.
    pub is_put: bool,
}

impl Pair {
    /// Makes a pair of two numbers. Fails, as if memory ran out, if one of them has more than 32 bits.
    pub fn of(first: usize, second: usize) -> Result<Pair, AllocError>
        ensures { IfOk result (λ pair. pair ≡ record { first = first; second = second }) }
    {
        let (Ok(first), Ok(second)) = (u32::try_from(first), u32::try_from(second)) else {
            return Err(AllocError);
        };
        Ok(Pair { first, second })
    }

    /// Tells whether the pair is before another one.
    pub fn is_before(&self, other: &Pair) -> bool
        ensures { result ≡ is_before self.now other.now }
    {
        self.first < other.first || (self.first == other.first && self.second < other.second)
    }
}

/// Sorts pairs and drops repeats.
pub(crate) fn rising(pairs: Vec<Pair>) -> Vec<Pair>
    ensures rising { AreRising result.items }
    ensures same { (p : Pair) → has p result.items ≡ has p pairs.items }
{
    let mut rising = pairs;
    rising.sort_unstable();
    rising.dedup();
    rising
}

/// Makes changes that put pairs into a set, or remove them.
pub(crate) fn changes_of(
    alloc: Global,
    pairs: &[Pair],
    is_put: bool,
) -> Result<Vec<Change>, AllocError>
    ensures { IfOk result (λ changes. changes.items ≡ map (λ p. record { pair = p; is_put = is_put }) pairs.now) }
{
    let mut changes = Vec::with_capacity(alloc, pairs.len())?;
    for pair in pairs {
        changes.push(Change {
            pair: *pair,
            is_put,
        })?;
    }
    Ok(changes)
}

/// Splits pairs into those before a pair and those after it.
pub(crate) fn split_around<'a>(pairs: &'a [Pair], pair: &Pair) -> (&'a [Pair], &'a [Pair])
    requires { AreRising pairs.now }
    ensures before { result.0.now ≡ filter (λ p. is_before p pair.now) pairs.now }
    ensures after { result.1.now ≡ filter (λ p. is_before pair.now p) pairs.now }
{
    let before = pairs.partition_point(|other| other.is_before(pair));
    let up_to = pairs.partition_point(|other| !pair.is_before(other));
    (pairs.split_at(before).0, pairs.split_at(up_to).1)
}

/// Splits changes into those of pairs before a pair and the others.
pub(crate) fn split_changes<'a>(changes: &'a [Change], pair: &Pair) -> (&'a [Change], &'a [Change])
    requires { AreRising (pairs_named changes.now) }
    ensures { AreSplit pair.now result.0.now result.1.now changes.now }
{
    changes.split_at(changes.partition_point(|change| change.pair.is_before(pair)))
}
