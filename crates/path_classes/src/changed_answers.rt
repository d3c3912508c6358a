//! How many files may have other answers along their paths, after their classes may have become others.

ghost use Rattle.std.specs.Prelude.{◌≡◌, ◌<◌, ◌≤◌, ℕ, suc, Some, None, true, length, map, IfOk, OnOk, IfSome, if◌then◌else◌};
ghost use Rattle.std.specs.Option.{option_copied};
ghost use Rattle.std.specs.Ordering.{nat_cmp};
ghost use Rattle.std.specs.BTreeMap.{get};
ghost use Rattle.path_map.specs.Entries.{IsInOrder, seen};
ghost use Rattle.kinds.specs.Inner.{AreAmong};
ghost use Rattle.kinds.specs.Kinds.{node_at};
ghost use Rattle.path_classes.specs.PathClasses.{kept_search, search_above, AreClasses};
ghost use Rattle.path_classes.specs.ClassedRows.{AreCountedOf};
ghost use Rattle.path_classes.specs.ChangedAnswers.{SameRow, SameReach, HadSameReach, IsTrueFor, AreTrue};

use crate::cells::same_row;
use crate::label_row::{BothRows, LabelRow};
use crate::path_class::PathClass;
use crate::same_rows::StateClasses;
use crate::searchers::Searchers;
use acl_names::Path;
use kinds::{KindMap, Kinds};
use std::alloc::{AllocError, Global};
use std::collections::BTreeMap;

/// The cached result for two classes, by their numbers: whether files of the class `was` before have the same answers
/// as files of the class `is` now.
#[derive(Clone, Copy)]
pub(crate) struct Comparison {
    pub(crate) was: usize,
    pub(crate) is: usize,
    pub(crate) is_same: bool,
}

/// A cache of comparisons: the last one, and all by a hash of the two classes.
#[derive(Drop)]
pub(crate) struct Comparisons {
    pub(crate) last: Option<Comparison>,
    pub(crate) all: BTreeMap<u64, Comparison>,
}

/// Hashes two classes. If two pairs have the same hash, the first is compared again.
fn key(was: usize, is: usize) -> u64 {
    (was as u64).wrapping_mul(1 << 32).wrapping_add(is as u64)
}

/// Tells whether two labels have the same row.
fn has_same_row(old: &Kinds<LabelRow>, rows: &Kinds<LabelRow>, was: usize, is: usize) -> bool
    ensures { result ≡ true → SameRow old.now rows.now was is }
{
    match old.get(was) {
        Some(was) => match rows.get(is) {
            Some(is) => same_row(was.row.as_slice(), is.row.as_slice()),
            None => false,
        },
        None => false,
    }
}

/// Returns who can search down to a class, if the class keeps that.
pub(crate) fn kept_search(classes: &Kinds<PathClass>, number: usize) -> Option<&Searchers>
    ensures { option_copied result ≡ kept_search (node_at classes.now number) }
{
    match classes.get(number) {
        Some(class) => match &class.search {
            Some(search) => Some(search),
            None => None,
        },
        None => None,
    }
}

/// Tells whether the same users can search down to two classes, which both keep that.
fn has_same_search(
    before: &Kinds<PathClass>,
    after: &Kinds<PathClass>,
    was: usize,
    is: usize,
) -> bool
    ensures { result ≡ true → search_above before.now (Some was) ≡ search_above after.now (Some is) }
{
    match kept_search(before, was) {
        Some(was) => match kept_search(after, is) {
            Some(is) => was.is_same(is),
            None => false,
        },
        None => false,
    }
}

/// Tells whether the same users get through the two parent classes, if there are any.
fn has_same_above(
    before: &Kinds<PathClass>,
    after: &Kinds<PathClass>,
    was: Option<usize>,
    is: Option<usize>,
) -> bool
    ensures { result ≡ true → search_above before.now was ≡ search_above after.now is }
{
    match was {
        Some(was) => match is {
            Some(is) => has_same_search(before, after, was, is),
            None => false,
        },
        None => is.is_none(),
    }
}

/// Tells whether files of the class `was` before have the same answers as files of the class `is` now.
fn has_same_reach(
    before: &StateClasses<'_, '_>,
    after: &StateClasses<'_, '_>,
    was: usize,
    is: usize,
) -> bool
    ensures { result ≡ true → SameReach before.now.labels.now before.now.classes.now after.now.labels.now after.now.classes.now was is }
{
    match before.classes.get(was) {
        Some(was) => match after.classes.get(is) {
            Some(is) => {
                has_same_row(before.labels, after.labels, was.kind, is.kind)
                    && has_same_above(before.classes, after.classes, was.above, is.above)
            }
            None => false,
        },
        None => false,
    }
}

/// Returns the cached result, if it is for this pair of classes.
fn found_for(found: Option<Comparison>, was: usize, is: usize) -> Option<Comparison>
    ensures same { IfSome result (λ c. found ≡ Some c) }
    ensures pair { IfSome result (λ c. (c.was ≡ was) × (c.is ≡ is)) }
{
    let found = found?;
    if found.was == was && found.is == is {
        Some(found)
    } else {
        None
    }
}

impl Comparisons {
    fn new(alloc: Global) -> Comparisons
        ensures last { result.last ≡ None }
        ensures all { (key : ℕ) → get nat_cmp result.all key ≡ None }
    {
        Comparisons {
            last: None,
            all: BTreeMap::new(alloc),
        }
    }

    /// Returns the cached result of a hash.
    fn at(&self, key: u64) -> Option<Comparison>
        ensures { result ≡ get nat_cmp self.now.all key }
    {
        match self.all.get(&key) {
            Some(found) => Some(*found),
            None => None,
        }
    }

    /// Tells whether files of the class `was` before are found to have the same answers as files of the class `is` now.
    /// A pair of classes is mostly compared once.
    fn are_same(
        &mut self,
        before: &StateClasses<'_, '_>,
        after: &StateClasses<'_, '_>,
        was: usize,
        is: usize,
    ) -> Result<bool, AllocError>
        requires { AreTrue before.now.labels.now before.now.classes.now after.now.labels.now after.now.classes.now self.old }
        ensures kept { OnOk result (AreTrue before.now.labels.now before.now.classes.now after.now.labels.now after.now.classes.now self.new) }
        ensures same { IfOk result (IsTrueFor before.now.labels.now before.now.classes.now after.now.labels.now after.now.classes.now was is) }
    {
        if let Some(found) = found_for(self.last, was, is) {
            return Ok(found.is_same);
        }
        let key = key(was, is);
        if let Some(found) = found_for(self.at(key), was, is) {
            self.last = Some(found);
            return Ok(found.is_same);
        }
        let is_same = has_same_reach(before, after, was, is);
        let found = Comparison { was, is, is_same };
        let _before = self.all.insert(key, found)?;
        self.last = Some(found);
        Ok(is_same)
    }

    /// Tells whether a file of the class `was`, if it had one, has the same answers with the class `is`.
    fn is_same(
        &mut self,
        before: &StateClasses<'_, '_>,
        after: &StateClasses<'_, '_>,
        was: Option<usize>,
        is: usize,
    ) -> Result<bool, AllocError>
        requires { AreTrue before.now.labels.now before.now.classes.now after.now.labels.now after.now.classes.now self.old }
        ensures kept { OnOk result (AreTrue before.now.labels.now before.now.classes.now after.now.labels.now after.now.classes.now self.new) }
        ensures same { IfOk result (λ same. same ≡ true
            → HadSameReach before.now.labels.now before.now.classes.now after.now.labels.now after.now.classes.now was is) }
    {
        match was {
            Some(was) => self.are_same(before, after, was, is),
            None => Ok(false),
        }
    }
}

/// Adds 1 to `count`, unless answers are the same.
fn count_unless(count: usize, is_same: bool) -> usize
    requires { count < 18446744073709551615 }
    ensures { result ≡ (if is_same then count else suc count) }
{
    if is_same { count } else { count + 1 }
}

/// Counts the files that may have other answers than before: at least those that have.
pub(crate) fn changed_answers(
    alloc: Global,
    rows: &BothRows<'_, '_>,
    before: &KindMap<PathClass>,
    after: &KindMap<PathClass>,
    files: &[(&Path, usize)],
) -> Result<usize, AllocError>
    requires were { AreClasses rows.now.before.now before.now }
    requires are { AreClasses rows.now.after.now after.now }
    requires order { IsInOrder (map seen files.now) }
    requires among { AreAmong after.now.1 (map seen files.now) }
    ensures least { IfOk result (AreCountedOf rows.now.before.now rows.now.after.now (map seen files.now)) }
    ensures most { IfOk result (λ count. count ≤ length files.now) }
{
    rows.before.order_law();
    rows.after.order_law();
    let state_before = StateClasses {
        labels: rows.before.kinds(),
        classes: before.kinds(),
    };
    let state_after = StateClasses {
        labels: rows.after.kinds(),
        classes: after.kinds(),
    };
    let found = before.numbers().get_all(alloc, files)?;
    let mut compared = Comparisons::new(alloc);
    let mut count = 0;
    for at in 0..files.len() {
        let was = found[at];
        let is = files[at].1;
        let is_same = compared.is_same(&state_before, &state_after, was, is)?;
        count = count_unless(count, is_same);
    }
    Ok(count)
}
