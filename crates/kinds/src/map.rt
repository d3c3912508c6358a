//! The map by kinds.

ghost use Rattle.std.specs.Prelude.{◌≡◌, ◌<◌, ◌∷◌, [], ℕ, Some, length, map, IfOk, IfSome};
ghost use Rattle.std.specs.Option.{option_copied};
ghost use Rattle.std.specs.FinMap.{find};
ghost use Rattle.acl_names.specs.Paths.{path_cmp};
ghost use Rattle.path_map.specs.Entries.{IsInOrder, seen};
ghost use Rattle.std.specs.List.{list_any};
ghost use Rattle.acl_names.specs.Below.{encloses};
ghost use Rattle.path_map.specs.Below.{from, within};
ghost use Rattle.path_map.specs.Merged.{without_all};
ghost use Rattle.kinds.specs.Numbered.{AreSound, entries_in};
ghost use Rattle.kinds.specs.Kinds.{node_at, count_at};
ghost use Rattle.kinds.specs.Placed.{IsOfEntry};
ghost use Rattle.kinds.specs.Given.{used_at};
ghost use Rattle.kinds.specs.Tagged.{SameBut, numbers_found};

use crate::iter::KindsIter;
use crate::kinds::{KindNumber, Kinds};
use crate::release::release_all;
use acl_names::Path;
use path_map::{PathMap, Within};
use std::alloc::{AllocError, Global};
use std::marker::Model;
use std::rc::Rc;

/// A map from paths to nodes: for each path a number, for each number a node and the count of its paths. Contracts
/// see both; a caller sees the entries, by [`entries_in`].
#[derive(Drop)]
pub struct KindMap<N> {
    kinds: Rc<Kinds<N>>,
    numbers: PathMap<usize>,
}

impl<N> Model for KindMap<N> {
    ghost use Rattle.kinds.specs.Numbered.{Kept, AreSound};

    ghost Value = { Kept N };

    ghost view = { λ m. (m.kinds.value, m.numbers) };

    ghost invariant = { λ m. AreSound m.kinds.value m.numbers };
}

impl<N> KindMap<N> {
    /// Returns the nodes by their numbers.
    pub fn kinds(&self) -> &Kinds<N>
        ensures all { result.now ≡ self.now.0 }
        ensures sound { AreSound self.now.0 self.now.1 }
    {
        &self.kinds
    }

    /// Returns the paths with their numbers.
    pub fn numbers(&self) -> &PathMap<usize>
        ensures all { result.now ≡ self.now.1 }
        ensures sound { AreSound self.now.0 self.now.1 }
    {
        &self.numbers
    }

    /// Proof only: the entries are in path order, each path once.
    pub fn order_law(&self)
        ensures { IsInOrder (entries_in self.now) }
    {
        let _numbers = self.numbers();
    }

    /// Returns how many entries there are.
    pub fn len(&self) -> usize
        requires few { length (entries_in self.now) < 18446744073709551616 }
        ensures { result ≡ length (entries_in self.now) }
    {
        self.numbers().len()
    }

    /// Returns the node of a path, if it has one.
    pub fn get(&self, path: &Path) -> Option<&N>
        ensures { option_copied result ≡ find path_cmp path.now (entries_in self.now) }
    {
        match self.numbers().get(path) {
            Some(number) => self.kinds().get(number),
            None => None,
        }
    }

    /// Returns the node of a number, if a path has it.
    pub fn used(&self, number: KindNumber) -> Option<&N>
        ensures node { IfSome result (λ node. node_at self.now.0 number ≡ Some node.now) }
        ensures entry { IfSome result (λ node. IsOfEntry node.now (entries_in self.now)) }
        ensures exact { option_copied result ≡ used_at self.now.0 number }
    {
        let kinds = self.kinds();
        if kinds.count(number) == 0 {
            return None;
        }
        match kinds.get(number) {
            Some(node) => Some(node),
            None => None,
        }
    }

    /// Iterates over the entries in path order.
    pub fn iter(&self) -> KindsIter<'_, N>
        ensures { result ≡ entries_in self.now }
    {
        KindsIter::new(self.numbers().iter(), self.kinds())
    }

    /// Iterates over the entries from a path on.
    pub fn from(&self, path: &Path) -> KindsIter<'_, N>
        ensures { result ≡ from path.now (entries_in self.now) }
    {
        KindsIter::new(self.numbers().from(path), self.kinds())
    }

    /// Returns the paths at or below a path, each with its number.
    pub fn paths_within<'a, 'p>(&'a self, path: &'p Path) -> Within<'a, 'p, usize>
        ensures { map (λ e. e.0) result ≡ map (λ e. e.0) (within path.now (entries_in self.now)) }
    {
        self.numbers().within(path)
    }

    /// Tells whether there is an entry at or below a path.
    pub fn has_within(&self, path: &Path) -> bool
        ensures { result ≡ list_any (λ e. encloses path.now e.0) (entries_in self.now) }
    {
        self.paths_within(path).next().is_some()
    }
}

impl<N: Drop> KindMap<N> {
    /// Returns an empty map.
    pub fn new(alloc: Global) -> Result<KindMap<N>, AllocError>
        ensures { IfOk result (λ map. entries_in map ≡ []) }
    {
        Ok(KindMap {
            kinds: Rc::new(alloc, Kinds::new(alloc))?,
            numbers: PathMap::new(alloc),
        })
    }

    /// Returns the map of these numbers and their nodes.
    pub fn of(
        alloc: Global,
        kinds: Kinds<N>,
        numbers: PathMap<usize>,
    ) -> Result<KindMap<N>, AllocError>
        requires { AreSound kinds numbers }
        ensures { IfOk result (λ map. map ≡ (kinds, numbers)) }
    {
        Ok(KindMap {
            kinds: Rc::new(alloc, kinds)?,
            numbers,
        })
    }

    /// Copies the map; both share the entries.
    pub fn share(&self) -> Result<KindMap<N>, AllocError>
        ensures { IfOk result (λ same. same ≡ self.now) }
    {
        Ok(KindMap {
            kinds: self.kinds.clone()?,
            numbers: self.numbers.share()?,
        })
    }

    /// Removes the paths of `gone`, which are in path order, and returns the numbers that these had: all other
    /// numbers are as before. This map stays as it is.
    pub fn without_found<W>(
        &self,
        alloc: Global,
        gone: &[(&Path, W)],
    ) -> Result<(KindMap<N>, Vec<Option<usize>>), AllocError>
        requires { IsInOrder (map seen gone.now) }
        ensures entries { IfOk result (λ new. entries_in new.0 ≡ without_all (map seen gone.now) (entries_in self.now)) }
        ensures same { IfOk result (λ new. SameBut (numbers_found new.1.items) self.now.0 new.0.0) }
        ensures numbers { IfOk result (λ new. new.0.1 ≡ without_all (map seen gone.now) self.now.1) }
        ensures nodes { IfOk result (λ new. (n : ℕ) → 0 < count_at new.0.0 n → node_at new.0.0 n ≡ node_at self.now.0 n) }
    {
        let found = self.numbers().get_all(alloc, gone)?;
        let numbers = self.numbers().without_all(alloc, gone)?;
        let kinds = release_all(alloc, self.kinds().share()?, &found)?;
        let map = KindMap::of(alloc, kinds, numbers)?;
        Ok((map, found))
    }

    /// Removes the paths of `gone`, which are in path order. This map stays as it is.
    pub fn without_all<W>(
        &self,
        alloc: Global,
        gone: &[(&Path, W)],
    ) -> Result<KindMap<N>, AllocError>
        requires { IsInOrder (map seen gone.now) }
        ensures { IfOk result (λ new. entries_in new ≡ without_all (map seen gone.now) (entries_in self.now)) }
    {
        let (map, _found) = self.without_found(alloc, gone)?;
        Ok(map)
    }
}
