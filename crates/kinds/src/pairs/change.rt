//! Builds parts: pairs are cut into chunks, chunks into branches, and these into branches.

ghost use Rattle.std.specs.Prelude.{◌≡◌, ◌++◌, ◌<◌, ◌≤◌, length, OnOk, IfOk};
ghost use Rattle.kinds.specs.PairSets.{AreRising};
ghost use Rattle.kinds.specs.PairParts.{pairs_in};

use crate::pairs::branch::{Branch, MAX_PARTS};
use crate::pairs::chunk::{Chunk, MAX_PAIRS};
use crate::pairs::pair::Pair;
use crate::pairs::part::Part;
use std::alloc::{AllocError, Global};
use std::rc::Rc;

/// Returns the length of equal pieces of `count` items: as few pieces as possible, none longer than `limit`.
fn piece_length(count: usize, limit: usize) -> usize
    requires { 0 < limit }
    ensures some { 0 < result }
    ensures few { result ≤ limit }
{
    let last = count.saturating_sub(1);
    let pieces = last / limit + 1;
    last / pieces + 1
}

/// Makes pairs one chunk.
fn chunk_of(alloc: Global, pairs: &[Pair]) -> Result<Rc<Chunk>, AllocError>
    requires rising { AreRising pairs.now }
    requires some { 0 < length pairs.now }
    requires few { length pairs.now ≤ 128 }
    ensures { IfOk result (λ chunk. chunk.value ≡ pairs.now) }
{
    Ok(Rc::new(alloc, Chunk::new(Vec::from_slice(alloc, pairs)?))?)
}

fn branch_of<P: Part>(alloc: Global, parts: &[Rc<P>]) -> Result<Rc<Branch<P>>, AllocError>
    requires rising { AreRising (pairs_in P.pairs_of parts.now) }
    requires some { 0 < length parts.now }
    requires few { length parts.now ≤ 32 }
    ensures { IfOk result (λ branch. branch.value ≡ pairs_in P.pairs_of parts.now) }
{
    Ok(Rc::new(alloc, Branch::new(parts.to_vec(alloc)?))?)
}

/// Adds pairs, in chunks.
pub(crate) fn push_chunks(
    alloc: Global,
    new: &mut Vec<Rc<Chunk>>,
    pairs: &[Pair],
) -> Result<(), AllocError>
    requires { AreRising pairs.now }
    ensures { OnOk result (pairs_in (λ c. c) new.new.items ≡ pairs_in (λ c. c) new.old.items ++ pairs.now) }
{
    let most = piece_length(pairs.len(), MAX_PAIRS);
    let mut rest = pairs;
    while !rest.is_empty() {
        let (piece, after) = rest.split_at(rest.len().min(most));
        new.push(chunk_of(alloc, piece)?)?;
        rest = after;
    }
    Ok(())
}

/// Adds parts, in branches.
pub(crate) fn push_branches<P: Part>(
    alloc: Global,
    new: &mut Vec<Rc<Branch<P>>>,
    parts: &[Rc<P>],
) -> Result<(), AllocError>
    requires { AreRising (pairs_in P.pairs_of parts.now) }
    ensures { OnOk result (pairs_in (λ b. b) new.new.items ≡ pairs_in (λ b. b) new.old.items ++ pairs_in P.pairs_of parts.now) }
{
    let most = piece_length(parts.len(), MAX_PARTS);
    let mut rest = parts;
    while !rest.is_empty() {
        let (piece, after) = rest.split_at(rest.len().min(most));
        new.push(branch_of(alloc, piece)?)?;
        rest = after;
    }
    Ok(())
}
