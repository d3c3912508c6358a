//! A map by kinds that keeps for each tag the numbers of the nodes that have it.

ghost use Rattle.std.specs.Prelude.{◌≡◌, ◌+◌, ◌++◌, ◌∷◌, ◌<◌, ◌≤◌, ◌^◌, [], ℕ, List, map, length, count_by, true, false, IfOk, OnOk};
ghost use Rattle.std.specs.List.{sum_by};
ghost use Rattle.kinds.specs.Kinds.{node_at, count_at};
ghost use Rattle.std.specs.List.Sorted.{IsStrictlyIncreasing};
ghost use Rattle.kinds.specs.declared.pairs.pair.Pair.{Pair};
ghost use Rattle.kinds.specs.PairSets.{tagged_pairs};
ghost use Rattle.kinds.specs.Numbered.{entries_in};
ghost use Rattle.kinds.specs.Renewed.{renewed, weight_of, changed_where, Renews};
ghost use Rattle.kinds.specs.Tagged.{is_one, meets, tags_at, AreTagsOf, SameBut, SameTagsBut, AreSettled, ChangesTagged, numbers_found};

use crate::changed::NodeChange;
use crate::kinds::{KindNumber, Kinds};
use crate::map::KindMap;
use crate::pairs::pair::Pair;
use crate::pairs::set::PairSet;
use crate::renew::Renewal;
use std::alloc::{AllocError, Global};
use std::marker::Model;

/// Values with tags: numbers by which they are found.
pub trait Tagged {
    /// The tags, in which one may repeat.
    ghost tags_of: { Self → List ℕ };

    /// Adds the tags.
    fn push_tags(&self, alloc: Global, new: &mut Vec<usize>) -> Result<(), AllocError>
        ensures { OnOk result (new.new.items ≡ new.old.items ++ tags_of self.now) };
}

/// A map by kinds, and for each tag the numbers that paths have and whose nodes have it. To a contract it is the map.
#[derive(Drop)]
pub struct TaggedMap<N: Tagged> {
    map: KindMap<N>,
    pairs: PairSet,
}

impl<N: Tagged> Model for TaggedMap<N> {
    ghost use Rattle.kinds.specs.Numbered.{Kept};
    ghost use Rattle.kinds.specs.Tagged.{AreTagsOf};

    ghost Value = { Kept N };

    ghost view = { λ t. t.map };

    ghost invariant = { λ t. AreTagsOf N.tags_of t.map.0 t.pairs };
}

/// Sorts numbers and drops repeats.
pub fn rising_numbers(numbers: Vec<usize>) -> Vec<usize>
    ensures rising { IsStrictlyIncreasing result.items }
    ensures same { (n : ℕ) → is_one n result.items ≡ is_one n numbers.items }
{
    let mut rising = numbers;
    rising.sort_unstable();
    rising.dedup();
    rising
}

/// Returns the numbers below `end`.
fn numbers_before(alloc: Global, end: usize) -> Result<Vec<usize>, AllocError>
    ensures { IfOk result (λ numbers. (n : ℕ) → n < end → is_one n numbers.items ≡ true) }
{
    let mut numbers = Vec::with_capacity(alloc, end)?;
    for number in 0..end {
        numbers.push(number)?;
    }
    Ok(numbers)
}

/// Adds a number, if it was found.
fn push_if(new: &mut Vec<usize>, found: Option<usize>) -> Result<(), AllocError>
    ensures { OnOk result (new.new.items ≡ new.old.items ++ numbers_found (found ∷ [])) }
{
    if let Some(number) = found {
        new.push(number)?;
    }
    Ok(())
}

/// Adds the numbers that were found.
pub fn push_found(new: &mut Vec<usize>, found: &[Option<usize>]) -> Result<(), AllocError>
    ensures { OnOk result (new.new.items ≡ new.old.items ++ numbers_found found.now) }
{
    for one in found {
        push_if(new, *one)?;
    }
    Ok(())
}

/// Returns the tags of the node of a number, if a path has the number.
fn tags_at<N: Tagged>(
    alloc: Global,
    map: &KindMap<N>,
    number: KindNumber,
) -> Result<Vec<usize>, AllocError>
    ensures { IfOk result (λ tags. tags.items ≡ tags_at N.tags_of map.now.0 number) }
{
    let mut tags = Vec::new(alloc);
    if let Some(node) = map.used(number) {
        node.push_tags(alloc, &mut tags)?;
    }
    Ok(tags)
}

/// Adds the pairs of some tags and a number.
fn push_pairs(pairs: &mut Vec<Pair>, tags: &[usize], number: KindNumber) -> Result<(), AllocError>
    ensures { OnOk result (pairs.new.items ≡ pairs.old.items ++ tagged_pairs tags.now number) }
{
    for tag in tags {
        pairs.push(Pair::of(*tag, number)?)?;
    }
    Ok(())
}

/// Adds the pairs of a number that a set loses, and those that it gets, as the tags of the number's node change.
fn push_changed<N: Tagged>(
    gone: &mut Vec<Pair>,
    new: &mut Vec<Pair>,
    before: &KindMap<N>,
    after: &KindMap<N>,
    number: KindNumber,
) -> Result<(), AllocError>
    ensures { OnOk result ((done : List ℕ) → AreSettled N.tags_of before.now.0 after.now.0 done gone.old.items new.old.items
        → AreSettled N.tags_of before.now.0 after.now.0 (done ++ number ∷ []) gone.new.items new.new.items) }
{
    let alloc = *gone.allocator();
    let old_tags = tags_at(alloc, before, number)?;
    let new_tags = tags_at(alloc, after, number)?;
    if old_tags.as_slice() == new_tags.as_slice() {
        return Ok(());
    }
    push_pairs(gone, &old_tags, number)?;
    push_pairs(new, &new_tags, number)?;
    Ok(())
}

/// Returns the pairs that a set loses, and those that it gets, as the tags of the nodes of `numbers` change.
fn changed_pairs<N: Tagged>(
    alloc: Global,
    before: &KindMap<N>,
    after: &KindMap<N>,
    numbers: &[usize],
) -> Result<(Vec<Pair>, Vec<Pair>), AllocError>
    ensures { IfOk result (λ pairs. AreSettled N.tags_of before.now.0 after.now.0 numbers.now pairs.0.items pairs.1.items) }
{
    let mut gone = Vec::new(alloc);
    let mut new = Vec::new(alloc);
    for number in numbers {
        push_changed(&mut gone, &mut new, before, after, *number)?;
    }
    Ok((gone, new))
}

/// Counts the paths that have one of `numbers`.
fn paths_of<N>(kinds: &Kinds<N>, numbers: &[usize]) -> Result<usize, AllocError>
    ensures { IfOk result (λ count. count ≡ sum_by (count_at kinds.now) numbers.now) }
{
    let mut count = 0usize;
    for number in numbers {
        let Some(more) = count.checked_add(kinds.count(*number)) else {
            return Err(AllocError);
        };
        count = more;
    }
    Ok(count)
}

impl<N: Tagged> TaggedMap<N> {
    /// Returns the map.
    pub fn map(&self) -> &KindMap<N>
        ensures { result.now ≡ self.now }
    {
        &self.map
    }

    fn pairs(&self) -> &PairSet
        ensures { AreTagsOf N.tags_of self.now.0 result.now }
    {
        &self.pairs
    }

    /// Returns the numbers that paths have and whose nodes have one of `tags`, rising.
    pub fn numbers_tagged(&self, alloc: Global, tags: &[usize]) -> Result<Vec<usize>, AllocError>
        ensures rising { IfOk result (λ numbers. IsStrictlyIncreasing numbers.items) }
        ensures exact { IfOk result (λ numbers. (n : ℕ) → is_one n numbers.items ≡ meets (tags_at N.tags_of self.now.0 n) tags.now) }
    {
        let pairs = self.pairs();
        let mut numbers = Vec::new(alloc);
        for tag in tags {
            pairs.push_seconds(&mut numbers, *tag)?;
        }
        Ok(rising_numbers(numbers))
    }

    /// Counts the paths whose nodes have one of `tags`.
    pub fn paths_tagged(&self, alloc: Global, tags: &[usize]) -> Result<usize, AllocError>
        ensures { IfOk result (λ count. count ≡ count_by (λ e. meets (N.tags_of e.1) tags.now) (entries_in self.now)) }
    {
        let kinds = self.map().kinds();
        let numbers = self.numbers_tagged(alloc, tags)?;
        let count = paths_of(kinds, &numbers)?;
        Ok(count)
    }
}

impl<N> KindMap<N> {
    /// Counts the paths that have one of `numbers`, which rise.
    pub fn paths_numbered(&self, numbers: &[usize]) -> Result<usize, AllocError>
        requires { IsStrictlyIncreasing numbers.now }
        ensures { IfOk result (λ count. count ≡ count_by (λ e. is_one e.1 numbers.now) self.now.1) }
    {
        let kinds = self.kinds();
        let count = paths_of(kinds, numbers)?;
        Ok(count)
    }
}

impl<N: Tagged + Drop> TaggedMap<N> {
    /// Returns an empty map.
    pub fn new(alloc: Global) -> Result<TaggedMap<N>, AllocError>
        ensures { IfOk result (λ map. entries_in map ≡ []) }
    {
        let map = KindMap::new(alloc)?;
        let _kinds = map.kinds();
        let pairs = PairSet::new(alloc);
        Ok(TaggedMap { map, pairs })
    }

    /// Adds the tags of a map: one sort.
    pub fn of(alloc: Global, map: KindMap<N>) -> Result<TaggedMap<N>, AllocError>
        ensures { IfOk result (λ new. new ≡ map) }
    {
        let none = TaggedMap::new(alloc)?;
        let new = none.replaced(alloc, map)?;
        Ok(new)
    }

    /// Copies the map; both share the entries.
    pub fn share(&self) -> Result<TaggedMap<N>, AllocError>
        ensures { IfOk result (λ same. same ≡ self.now) }
    {
        Ok(TaggedMap {
            map: self.map.share()?,
            pairs: self.pairs.share()?,
        })
    }

    /// Replaces the map by one whose tags may differ only at `numbers`. Only these are compared.
    pub(crate) fn after_tags(
        &self,
        alloc: Global,
        map: KindMap<N>,
        numbers: Vec<usize>,
    ) -> Result<TaggedMap<N>, AllocError>
        requires { SameTagsBut N.tags_of numbers.items self.now.0 map.0 }
        ensures { IfOk result (λ new. new ≡ map) }
    {
        let numbers = rising_numbers(numbers);
        let (gone, new) = changed_pairs(alloc, self.map(), &map, &numbers)?;
        let left = self.pairs().with_pairs(alloc, gone, false)?;
        let pairs = left.with_pairs(alloc, new, true)?;
        Ok(TaggedMap { map, pairs })
    }

    /// Replaces the map by one whose nodes may differ only at `numbers`. Only the tags of these are compared.
    pub fn after(
        &self,
        alloc: Global,
        map: KindMap<N>,
        numbers: Vec<usize>,
    ) -> Result<TaggedMap<N>, AllocError>
        requires { SameBut numbers.items self.now.0 map.0 }
        ensures { IfOk result (λ new. new ≡ map) }
    {
        let new = self.after_tags(alloc, map, numbers)?;
        Ok(new)
    }

    /// Replaces the map. The tags are compared number by number.
    pub fn replaced(&self, alloc: Global, map: KindMap<N>) -> Result<TaggedMap<N>, AllocError>
        ensures { IfOk result (λ new. new ≡ map) }
    {
        let end = self.map().numbers_len().max(map.numbers_len());
        let numbers = numbers_before(alloc, end)?;
        let new = self.after(alloc, map, numbers)?;
        Ok(new)
    }

    /// Replaces the map by one in which each number has the same tags: both share these.
    pub fn with_same_tags(&self, map: KindMap<N>) -> Result<TaggedMap<N>, AllocError>
        requires { (n : ℕ) → tags_at N.tags_of map.0 n ≡ tags_at N.tags_of self.now.0 n }
        ensures { IfOk result (λ new. new ≡ map) }
    {
        let pairs = self.pairs().share()?;
        Ok(TaggedMap { map, pairs })
    }

    /// Renews each kind once; the tags stay.
    pub fn renewed<S, R: Renewal<N, N, S>>(
        &self,
        alloc: Global,
        state: &mut S,
        renewal: &R,
    ) -> Result<TaggedMap<N>, AllocError>
        requires room { R.counted state.old + weight_of (R.weight renewal.now) (entries_in self.now) < 2 ^ 64 }
        requires tags { (x : N) → N.tags_of (R.renewed renewal.now x) ≡ N.tags_of x }
        ensures entries { IfOk result (λ new. entries_in new ≡ renewed (R.renewed renewal.now) (entries_in self.now)) }
        ensures kinds { IfOk result (λ new. Renews (R.renewed renewal.now) self.now.0 new.0) }
        ensures paths { IfOk result (λ new. new.1 ≡ self.now.1) }
        ensures at_most { R.counted state.new ≤ R.counted state.old + weight_of (R.weight renewal.now) (entries_in self.now) }
    {
        let map = self.map().renewed(alloc, state, renewal)?;
        let pairs = self.pairs().share()?;
        Ok(TaggedMap { map, pairs })
    }

    /// Changes the nodes that have one of `tags`, which keep their tags. Returns also how many nodes were fetched for
    /// that, and the numbers of those that may have become others, rising. All other nodes stay.
    pub fn with_tagged<S, C: NodeChange<N, S>>(
        &self,
        alloc: Global,
        state: &mut S,
        tags: &[usize],
        change: &C,
    ) -> Result<(TaggedMap<N>, usize, Vec<usize>), AllocError>
        requires room { C.counted state.old + count_by (λ e. meets (N.tags_of e.1) tags.now) (entries_in self.now) < 2 ^ 64 }
        requires tags { (x : N) → N.tags_of (C.changed change.now x) ≡ N.tags_of x }
        ensures entries { IfOk result (λ new. entries_in new.0 ≡ renewed (changed_where (λ x. meets (N.tags_of x) tags.now) (C.changed change.now)) (entries_in self.now)) }
        ensures kinds { IfOk result (λ new. ChangesTagged (C.changed change.now) N.tags_of tags.now self.now.0 new.0.0) }
        ensures paths { IfOk result (λ new. new.0.1 ≡ self.now.1) }
        ensures few { IfOk result (λ new. new.1 ≤ count_by (λ e. meets (N.tags_of e.1) tags.now) (entries_in self.now)) }
        ensures rising { IfOk result (λ new. IsStrictlyIncreasing new.2.items) }
        ensures among { IfOk result (λ new. (n : ℕ) → is_one n new.2.items ≡ true → meets (tags_at N.tags_of self.now.0 n) tags.now ≡ true) }
        ensures same { IfOk result (λ new. (n : ℕ) → is_one n new.2.items ≡ false → node_at new.0.0 n ≡ node_at self.now.0 n) }
        ensures none { IfOk result (λ new. new.1 ≡ 0 → count_by (λ e. meets (N.tags_of e.1) tags.now) (entries_in self.now) ≡ 0) }
        ensures counted { IfOk result (λ new. C.counted state.new ≤ C.counted state.old + new.1) }
        ensures at_most { C.counted state.new ≤ C.counted state.old + count_by (λ e. meets (N.tags_of e.1) tags.now) (entries_in self.now) }
    {
        let before = self.map();
        let _kinds = before.kinds();
        let numbers = self.numbers_tagged(alloc, tags)?;
        let fetched = numbers.len();
        let (map, changed) = before.changed_at(alloc, state, change, &numbers)?;
        let pairs = self.pairs().share()?;
        let changed = rising_numbers(changed);
        Ok((TaggedMap { map, pairs }, fetched, changed))
    }
}
