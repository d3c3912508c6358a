//! Reads of a map with tags, all by the map.

ghost use Rattle.std.specs.Prelude.{◌≡◌, ◌<◌, map, filter, length, IfOk};
ghost use Rattle.std.specs.Option.{option_copied};
ghost use Rattle.std.specs.FinMap.{find};
ghost use Rattle.acl_names.specs.Paths.{path_cmp};
ghost use Rattle.path_map.specs.Entries.{IsInOrder};
ghost use Rattle.kinds.specs.Numbered.{AreSound, entries_in};

use crate::kinds::Kinds;
use crate::renew::KindTest;
use crate::tagged::{Tagged, TaggedMap};
use acl_names::Path;
use path_map::PathMap;
use std::alloc::{AllocError, Global};

impl<N: Tagged> TaggedMap<N> {
    /// Returns the nodes by their numbers.
    pub fn kinds(&self) -> &Kinds<N>
        ensures all { result.now ≡ self.now.0 }
        ensures sound { AreSound self.now.0 self.now.1 }
    {
        self.map().kinds()
    }

    /// Returns the paths with their numbers.
    pub fn numbers(&self) -> &PathMap<usize>
        ensures all { result.now ≡ self.now.1 }
        ensures sound { AreSound self.now.0 self.now.1 }
    {
        self.map().numbers()
    }

    /// Proof only: the entries are in path order, each path once.
    pub fn order_law(&self)
        ensures { IsInOrder (entries_in self.now) }
    {
        self.map().order_law();
    }

    /// Returns how many entries there are.
    pub fn len(&self) -> usize
        requires few { length (entries_in self.now) < 18446744073709551616 }
        ensures { result ≡ length (entries_in self.now) }
    {
        self.map().len()
    }

    /// Returns the node of a path, if it has one.
    pub fn get(&self, path: &Path) -> Option<&N>
        ensures { option_copied result ≡ find path_cmp path.now (entries_in self.now) }
    {
        self.map().get(path)
    }

    /// Returns the paths whose nodes pass a test, in path order: each kind is tested once.
    pub fn paths_where<T: KindTest<N>>(
        &self,
        alloc: Global,
        test: &T,
    ) -> Result<Vec<&Path>, AllocError>
        ensures { IfOk result (λ paths. map (λ p. p.now) paths.items ≡ map (λ e. e.0) (filter (λ e. T.passes test.now e.1) (entries_in self.now))) }
    {
        self.map().paths_where(alloc, test)
    }
}
