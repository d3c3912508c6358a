//! Chunks: pairs that follow one another, behind one pointer.

ghost use Rattle.std.specs.Prelude.{◌≡◌, ◌<◌, ◌≤◌, ◌++◌, ◌∷◌, [], length, List, IfOk, OnOk, if◌then◌else◌};
ghost use Rattle.kinds.specs.declared.pairs.pair.Pair.{Pair};
ghost use Rattle.kinds.specs.PairSets.{AreRising, pairs_named};
ghost use Rattle.kinds.specs.PairParts.{changed};

use crate::pairs::change::push_chunks;
use crate::pairs::pair::{Change, Pair, split_around};
use crate::pairs::part::Part;
use std::alloc::{AllocError, Global};
use std::marker::Model;
use std::rc::Rc;

/// The largest number of pairs of a chunk.
pub(crate) const MAX_PAIRS: usize = 128;

/// Pairs in order, at least one and at most 128.
#[derive(Drop)]
pub(crate) struct Chunk {
    pairs: Vec<Pair>,
}

impl Model for Chunk {
    ghost Value = { List Pair };

    ghost view = { λ c. c.pairs.items };

    ghost invariant = { λ c. AreRising c.pairs.items × (0 < length c.pairs.items) × (length c.pairs.items ≤ 128) };
}

impl Chunk {
    pub fn new(pairs: Vec<Pair>) -> Chunk
        requires rising { AreRising pairs.items }
        requires some { 0 < length pairs.items }
        requires few { length pairs.items ≤ 128 }
        ensures { result ≡ pairs.items }
    {
        Chunk { pairs }
    }

    fn pairs(&self) -> &[Pair]
        ensures all { result.now ≡ self.now }
        ensures rising { AreRising self.now }
        ensures some { 0 < length self.now }
    {
        &self.pairs
    }
}

/// Adds the pair of a change, if it is put.
fn push_put(new: &mut Vec<Pair>, change: &Change) -> Result<(), AllocError>
    ensures { OnOk result (new.new.items ≡ new.old.items ++ (if change.now.is_put then change.now.pair ∷ [] else [])) }
{
    if change.is_put {
        new.push(change.pair)?;
    }
    Ok(())
}

/// Puts and removes pairs.
pub(crate) fn changed_pairs(
    alloc: Global,
    pairs: &[Pair],
    changes: &[Change],
) -> Result<Vec<Pair>, AllocError>
    requires pairs { AreRising pairs.now }
    requires changes { AreRising (pairs_named changes.now) }
    ensures { IfOk result (λ new. new.items ≡ changed changes.now pairs.now) }
{
    let mut new = Vec::with_capacity(alloc, pairs.len().saturating_add(changes.len()))?;
    let mut rest = pairs;
    for change in changes {
        let (before, after) = split_around(rest, &change.pair);
        new.extend_from_slice(before)?;
        push_put(&mut new, change)?;
        rest = after;
    }
    new.extend_from_slice(rest)?;
    Ok(new)
}

impl Part for Chunk {
    ghost pairs_of = { λ c. c };

    fn first(&self) -> Pair {
        self.pairs()[0]
    }

    fn push_seconds(&self, new: &mut Vec<usize>, first: u32) -> Result<(), AllocError> {
        for pair in self.pairs() {
            if pair.first == first {
                new.push(pair.second as usize)?;
            }
        }
        Ok(())
    }

    fn push_changed(
        &self,
        alloc: Global,
        new: &mut Vec<Rc<Chunk>>,
        changes: &[Change],
    ) -> Result<(), AllocError> {
        let pairs = changed_pairs(alloc, self.pairs(), changes)?;
        push_chunks(alloc, new, &pairs)
    }
}
