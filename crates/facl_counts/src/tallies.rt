//! Counts of files by keys: a key, how many files are counted for it, and which is the first of them.

ghost use Rattle.std.specs.Prelude.{◌≡◌, ◌+◌, ◌++◌, ◌∷◌, [], List, true, IfOk, map};
ghost use Rattle.facl_counts.specs.Counting.{tallied, HasKey};
ghost use Rattle.facl_answers.specs.BothStates.{Sides};
ghost use Rattle.path_classes.specs.Tallies.{Tallied, SaysAs};

use acl_names::Path;
use facl_answers::{Sides, same_place};
use std::alloc::{AllocError, Global};
use std::marker::Model;

/// A count of a key: how many files are counted for it here, and the first of them.
#[derive(Drop)]
pub(crate) struct Tally<'a> {
    pub key: Sides,
    pub count: u64,
    pub first: &'a Path,
}

/// Adds two counts. Fails if the sum does not fit.
pub(crate) fn together(count: u64, more: u64) -> Result<u64, AllocError>
    ensures { IfOk result (λ sum. sum ≡ count + more) }
{
    match count.checked_add(more) {
        Some(sum) => Ok(sum),
        None => Err(AllocError),
    }
}

/// Counts of files by keys. A key may have several: together they count its files, and the first one has the first file.
#[derive(Drop)]
pub(crate) struct Tallies<'a> {
    list: Vec<Tally<'a>>,
}

impl<'a> Model for Tallies<'a> {
    ghost Value = { List (Tallied Sides) };

    ghost view = { λ t. map (λ tally. record { key = tally.key; count = tally.count; first = tally.first.now }) t.list.items };
}

impl<'a> Tallies<'a> {
    pub fn new(alloc: Global) -> Tallies<'a>
        ensures { result ≡ [] }
    {
        Tallies {
            list: Vec::new(alloc),
        }
    }

    pub fn as_slice(&self) -> &[Tally<'a>]
        ensures { map tallied result.now ≡ self.now }
    {
        &self.list
    }

    /// Tells whether the count at a place has a key.
    fn has(&self, at: usize, key: Sides) -> bool
        ensures { result ≡ true → HasKey self.now at key }
    {
        match self.list.get(at) {
            Some(tally) => same_place(tally.key.0, key.0) && same_place(tally.key.1, key.1),
            None => false,
        }
    }

    /// Returns the place of the count of a key: `hint` is tried first. Past the counts if there is none.
    pub fn place_of(&self, hint: usize, key: Sides) -> usize {
        if self.has(hint, key) {
            return hint;
        }
        for at in 0..self.list.len() {
            if self.has(at, key) {
                return at;
            }
        }
        self.list.len()
    }

    /// Adds `count` files to the count of a key; `first` is the first of them. The count is expected at `at`; if it is not
    /// there, one more is added, also if the key has one elsewhere. Returns the place.
    pub fn add(
        &mut self,
        at: usize,
        key: Sides,
        count: u64,
        first: &'a Path,
    ) -> Result<usize, AllocError>
        ensures { IfOk result (λ _. (others : List (Tallied Sides)) → SaysAs self.old others
            → SaysAs self.new (others ++ record { key = key; count = count; first = first.now } ∷ [])) }
    {
        if self.has(at, key) {
            let tally = &mut self.list[at];
            tally.count = together(tally.count, count)?;
            return Ok(at);
        }
        let at = self.list.len();
        self.list.push(Tally { key, count, first })?;
        Ok(at)
    }
}
