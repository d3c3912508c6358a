//! The memo of an edit: the numbers that were edited, with their results.

ghost use Rattle.std.specs.Prelude.{◌≡◌, true, ◌+◌, ◌<◌, ◌++◌, ◌∷◌, [], IfOk, IfSome, OnOk, length, get_or, slice_set};
ghost use Rattle.std.specs.List.{AllByRecursion};
ghost use Rattle.kinds.specs.Kinds.{IsNode};
ghost use Rattle.kinds.specs.Memo.{IsMetAt, CountsAgain, GrantsMet, ReleasesMet, Moves};

use crate::kinds::{KindNumber, Kinds};
use std::alloc::{AllocError, Global};
use std::collections::BTreeMap;

/// A number that was edited, its result, and how many of the edited paths have it.
#[derive(Clone, Copy)]
pub struct Met {
    pub old: usize,
    pub new: usize,
    pub count: usize,
}

/// The numbers that were edited, with an index of their places.
#[derive(Drop)]
pub struct Memo {
    pub met: Vec<Met>,
    /// The place of the number of the last entry.
    pub last: usize,
    places: BTreeMap<usize, usize>,
}

impl Memo {
    /// Returns an empty memo.
    pub fn new(alloc: Global) -> Memo
        ensures { result.met.items ≡ [] }
    {
        Memo {
            met: Vec::new(alloc),
            last: 0,
            places: BTreeMap::new(alloc),
        }
    }

    /// Returns the place of a number, if it was edited: `last` is tried first.
    pub fn place(&self, number: KindNumber) -> Option<usize>
        ensures { IfSome result (λ at. IsMetAt self.now.met.items number at) }
    {
        if self.has_at(self.last, number) {
            return Some(self.last);
        }
        let at = *self.places.get(&number)?;
        if self.has_at(at, number) {
            return Some(at);
        }
        None
    }

    /// Tells whether `number` is the one at the place `at`.
    fn has_at(&self, at: usize, number: KindNumber) -> bool
        ensures { result ≡ true → IsMetAt self.now.met.items number at }
    {
        at < self.met.len() && self.met[at].old == number
    }

    /// Records the result `new` of the number `old`, which the memo does not have yet, for one path.
    pub fn note(&mut self, old: usize, new: usize) -> Result<(), AllocError>
        ensures { OnOk result (self.new.met.items ≡ self.old.met.items ++ record { old = old; new = new; count = 1 } ∷ []) }
    {
        self.places.insert(old, self.met.len())?;
        self.note_alone(old, new)
    }

    /// Records the result without an entry in `places`: no other path has this number.
    pub(crate) fn note_alone(&mut self, old: usize, new: usize) -> Result<(), AllocError>
        ensures { OnOk result (self.new.met.items ≡ self.old.met.items ++ record { old = old; new = new; count = 1 } ∷ []) }
    {
        self.last = self.met.len();
        self.met.push(Met { old, new, count: 1 })?;
        Ok(())
    }
}

/// Adds one to the count of paths at a place, and returns the result there.
pub(crate) fn count_again(met: &mut Vec<Met>, at: usize) -> Result<usize, AllocError>
    requires { at < length met.old.items }
    ensures { IfOk result (λ number. CountsAgain at met.old.items met.new.items number) }
{
    let one = met[at];
    let Some(count) = one.count.checked_add(1) else {
        return Err(AllocError);
    };
    met[at] = Met {
        old: one.old,
        new: one.new,
        count,
    };
    Ok(one.new)
}

/// Adds the edited paths to the counts of their new numbers.
fn grant_met<N: Drop>(kinds: Kinds<N>, met: &[Met]) -> Result<Kinds<N>, AllocError>
    requires { AllByRecursion (λ m. IsNode kinds m.new) met.now }
    ensures { IfOk result (λ new. GrantsMet kinds met.now new) }
{
    let mut kinds = kinds;
    for one in met {
        kinds = kinds.grant(one.new, one.count)?;
    }
    Ok(kinds)
}

/// Takes the edited paths from the counts of their old numbers.
fn release_met<N: Drop>(kinds: Kinds<N>, met: &[Met]) -> Result<Kinds<N>, AllocError>
    ensures { IfOk result (λ new. ReleasesMet kinds met.now new) }
{
    let mut kinds = kinds;
    for one in met {
        kinds = kinds.release(one.old, one.count)?;
    }
    Ok(kinds)
}

/// Gives the edited paths their new numbers. All are counted before any is taken back, so that a number that an edit
/// keeps in use is not free in between.
pub(crate) fn settle<N: Drop>(kinds: Kinds<N>, met: &[Met]) -> Result<Kinds<N>, AllocError>
    requires { AllByRecursion (λ m. IsNode kinds m.new) met.now }
    ensures { IfOk result (λ new. Moves kinds met.now new) }
{
    let kinds = grant_met(kinds, met)?;
    release_met(kinds, met)
}
