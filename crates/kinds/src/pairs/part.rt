//! Parts of a set: pairs in order, at least one.

ghost use Rattle.std.specs.Prelude.{◌≡◌, ◌++◌, ◌∷◌, [], ◌≤◌, ◌<◌, length, map, take, List, OnOk};
ghost use Rattle.kinds.specs.declared.pairs.pair.Pair.{Pair};
ghost use Rattle.kinds.specs.PairSets.{AreRising, seconds_of, pairs_named};
ghost use Rattle.kinds.specs.PairParts.{changed, pairs_in, AreHalves};

use crate::pairs::pair::{Change, Pair, split_changes};
use std::alloc::{AllocError, Global};
use std::rc::Rc;

/// Pairs in order, at least one: a chunk, or a branch of parts.
pub(crate) trait Part: Drop + Sized {
    /// The pairs.
    ghost pairs_of: { Self → List Pair };

    fn first(&self) -> Pair
        ensures { take 1 (pairs_of self.now) ≡ result ∷ [] };

    /// Adds the second numbers of the pairs with a first one.
    fn push_seconds(&self, new: &mut Vec<usize>, first: u32) -> Result<(), AllocError>
        ensures { OnOk result (new.new.items ≡ new.old.items ++ seconds_of first (pairs_of self.now)) };

    /// Adds the part with some pairs put and others removed, as new parts.
    fn push_changed(
        &self,
        alloc: Global,
        new: &mut Vec<Rc<Self>>,
        changes: &[Change],
    ) -> Result<(), AllocError>
        requires { AreRising (pairs_named changes.now) }
        ensures { OnOk result (pairs_in Self.pairs_of new.new.items
            ≡ pairs_in Self.pairs_of new.old.items ++ changed changes.now (Self.pairs_of self.now)) };
}

/// Cuts parts in two halves, and returns the first pair of the second half too.
fn halves<P: Part>(parts: &[Rc<P>]) -> (&[Rc<P>], &[Rc<P>], Pair)
    requires several { 2 ≤ length parts.now }
    requires rising { AreRising (pairs_in P.pairs_of parts.now) }
    ensures { AreHalves (λ c. P.pairs_of c.value) result.2 result.0.now result.1.now parts.now }
{
    let (left, right) = parts.split_at(parts.len() / 2);
    (left, right, right[0].first())
}

/// Adds the second numbers of the pairs with a first one. Only the parts that may have some are searched.
pub(crate) fn push_seconds_in<P: Part>(
    new: &mut Vec<usize>,
    parts: &[Rc<P>],
    first: u32,
) -> Result<(), AllocError>
    requires { AreRising (pairs_in P.pairs_of parts.now) }
    ensures { OnOk result (new.new.items ≡ new.old.items ++ seconds_of first (pairs_in P.pairs_of parts.now)) }
{
    match parts {
        [] => Ok(()),
        [part] => {
            part.push_seconds(new, first)?;
            Ok(())
        }
        _ => {
            let (left, right, middle) = halves(parts);
            if first < middle.first {
                push_seconds_in(new, left, first)?;
                Ok(())
            } else if middle.first < first {
                push_seconds_in(new, right, first)?;
                Ok(())
            } else {
                push_seconds_in(new, left, first)?;
                push_seconds_in(new, right, first)?;
                Ok(())
            }
        }
    }
}

/// Adds parts; they are shared.
fn share_all<P: Part>(new: &mut Vec<Rc<P>>, parts: &[Rc<P>]) -> Result<(), AllocError>
    ensures { OnOk result (map (λ r. r.value) new.new.items ≡ map (λ r. r.value) new.old.items ++ map (λ r. r.value) parts.now) }
{
    for part in parts {
        new.push(part.clone()?)?;
    }
    Ok(())
}

/// Adds parts with some pairs put and others removed. Parts without a change are shared.
pub(crate) fn push_changed_in<P: Part>(
    alloc: Global,
    new: &mut Vec<Rc<P>>,
    parts: &[Rc<P>],
    changes: &[Change],
) -> Result<(), AllocError>
    requires some { 0 < length parts.now }
    requires rising { AreRising (pairs_in P.pairs_of parts.now) }
    requires changes { AreRising (pairs_named changes.now) }
    ensures { OnOk result (pairs_in P.pairs_of new.new.items
        ≡ pairs_in P.pairs_of new.old.items ++ changed changes.now (pairs_in P.pairs_of parts.now)) }
{
    if changes.is_empty() {
        share_all(new, parts)?;
        return Ok(());
    }
    match parts {
        [] => Ok(()),
        [part] => {
            part.push_changed(alloc, new, changes)?;
            Ok(())
        }
        _ => {
            let (left, right, middle) = halves(parts);
            let (first, last) = split_changes(changes, &middle);
            push_changed_in(alloc, new, left, first)?;
            push_changed_in(alloc, new, right, last)?;
            Ok(())
        }
    }
}
