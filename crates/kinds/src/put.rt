//! Puts entries among those of a map: equal new nodes mostly get one number.

ghost use Rattle.std.specs.Prelude.{◌≡◌, ◌<◌, ◌++◌, ◌∷◌, [], ℕ, Some, true, false, is_some, map, IfOk};
ghost use Rattle.std.specs.List.{AllByRecursion};
ghost use Rattle.path_map.specs.Entries.{IsInOrder, seen, found};
ghost use Rattle.path_map.specs.Merged.{put_all};
ghost use Rattle.kinds.specs.Kinds.{node_at, count_at};
ghost use Rattle.kinds.specs.Numbered.{entries_in, entries_by, paths_with};
ghost use Rattle.kinds.specs.Given.{used_at};
ghost use Rattle.kinds.specs.Tagged.{is_one, numbers_found};
ghost use Rattle.kinds.specs.Counted.{AddsUncounted};

use crate::counted::count_entries;
use crate::kinds::Kinds;
use crate::map::KindMap;
use crate::numbering::{Likeness, Numbering};
use crate::release::release_all;
use acl_names::Path;
use path_map::PathMap;
use std::alloc::{AllocError, Global};
use std::marker::Model;

/// The entries of a map, and those that are to be put among them.
#[derive(Drop)]
pub struct KindPuts<'a, N> {
    before: &'a KindMap<N>,
    numbering: Numbering<N>,
    entries: Vec<(&'a Path, usize)>,
}

impl<'a, N> Model for KindPuts<'a, N> {
    ghost use Rattle.std.specs.Prelude.{List, map};
    ghost use Rattle.acl_names.specs.Paths.{PathOf};
    ghost use Rattle.path_map.specs.Entries.{seen};
    ghost use Rattle.kinds.specs.Numbered.{entries_by, entries_in};
    ghost use Rattle.kinds.specs.Counted.{AddsUncounted};

    ghost Value = { List (PathOf × N) × List (PathOf × N) };

    ghost view = { λ p. (entries_in p.before.now, entries_by p.numbering.kinds (map seen p.entries.items)) };

    ghost invariant = { λ p. AddsUncounted p.before.now.0 p.numbering.kinds (map seen p.entries.items) };
}

/// Tells whether each path that was looked up was found.
fn are_found(found: &[Option<usize>]) -> bool
    ensures { result ≡ true → AllByRecursion (λ o. is_some o ≡ true) found.now }
{
    for one in found {
        if one.is_none() {
            return false;
        }
    }
    true
}

/// Tells whether the first of some entries has a number already.
fn has_first(numbers: &PathMap<usize>, entries: &[(&Path, usize)]) -> bool {
    match entries {
        [first, ..] => numbers.get(first.0).is_some(),
        [] => false,
    }
}

/// Puts entries, and returns the numbers that their paths had. If each path is there already, both share all paths.
pub(crate) fn numbers_with(
    alloc: Global,
    numbers: &PathMap<usize>,
    entries: &[(&Path, usize)],
) -> Result<(PathMap<usize>, Vec<Option<usize>>), AllocError>
    requires { IsInOrder (map seen entries.now) }
    ensures new { IfOk result (λ new. new.0 ≡ put_all (map seen entries.now) numbers.now) }
    ensures old { IfOk result (λ new. new.1.items ≡ found (map seen entries.now) numbers.now) }
{
    numbers.order_law();
    if has_first(numbers, entries) {
        let (new, found) = numbers.replaced(alloc, entries)?;
        if are_found(&found) {
            return Ok((new, found));
        }
    }
    let found = numbers.get_all(alloc, entries)?;
    let new = numbers.put_all(alloc, entries)?;
    Ok((new, found))
}

/// Puts entries by their numbers, which are not counted yet, and returns the numbers that their paths had. If each
/// path is there already, both share all paths.
pub(crate) fn put_numbered<N: Drop>(
    alloc: Global,
    before: &KindMap<N>,
    kinds: Kinds<N>,
    entries: &[(&Path, usize)],
) -> Result<(KindMap<N>, Vec<Option<usize>>), AllocError>
    requires added { AddsUncounted before.now.0 kinds (map seen entries.now) }
    requires order { IsInOrder (entries_by kinds (map seen entries.now)) }
    ensures entries { IfOk result (λ new. entries_in new.0 ≡ put_all (entries_by kinds (map seen entries.now)) (entries_in before.now)) }
    ensures numbers { IfOk result (λ new. new.0.1 ≡ put_all (map seen entries.now) before.now.1) }
    ensures nodes { IfOk result (λ new. (n : ℕ) (x : N) → node_at before.now.0 n ≡ Some x → 0 < count_at new.0.0 n → node_at new.0.0 n ≡ Some x) }
    ensures same { IfOk result (λ new. (n : ℕ) → paths_with n (map seen entries.now) ≡ 0 → is_one n (numbers_found new.1.items) ≡ false → used_at new.0.0 n ≡ used_at before.now.0 n) }
{
    let kinds = count_entries(alloc, kinds, entries)?;
    let (numbers, found) = numbers_with(alloc, before.numbers(), entries)?;
    let kinds = release_all(alloc, kinds, &found)?;
    let map = KindMap::of(alloc, kinds, numbers)?;
    Ok((map, found))
}

impl<'a, N: Drop> KindPuts<'a, N> {
    /// Returns the map, with nothing to be put.
    pub fn new(alloc: Global, map: &'a KindMap<N>) -> Result<KindPuts<'a, N>, AllocError>
        ensures { IfOk result (λ puts. puts ≡ (entries_in map.now, [])) }
    {
        let kinds = map.kinds().share()?;
        Ok(KindPuts {
            before: map,
            numbering: Numbering::new(alloc, kinds),
            entries: Vec::new(alloc),
        })
    }

    /// Adds an entry to be put; its node is moved.
    pub fn push<L: Likeness<N>>(
        self,
        alloc: Global,
        path: &'a Path,
        node: N,
        likeness: &L,
    ) -> Result<KindPuts<'a, N>, AllocError>
        ensures { IfOk result (λ new. new ≡ (self.entry.0, self.entry.1 ++ (path.now, node) ∷ [])) }
    {
        let KindPuts {
            before,
            numbering,
            mut entries,
        } = self;
        let numbering = numbering.number(alloc, node, likeness)?;
        entries.push((path, numbering.last))?;
        Ok(KindPuts {
            before,
            numbering,
            entries,
        })
    }

    /// Puts the entries, which are in path order. The first map stays as it is, and if each path is there already
    /// both share all paths.
    pub fn finish(self, alloc: Global) -> Result<KindMap<N>, AllocError>
        requires { IsInOrder self.1 }
        ensures { IfOk result (λ new. entries_in new ≡ put_all self.entry.1 self.entry.0) }
    {
        let KindPuts {
            before,
            numbering,
            entries,
        } = self;
        let (map, _found) = put_numbered(alloc, before, numbering.into_kinds(), &entries)?;
        Ok(map)
    }
}
