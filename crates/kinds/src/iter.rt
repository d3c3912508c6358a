//! The iterator over the entries of a map by kinds.

ghost use Rattle.std.specs.Prelude.{◌≡◌, List, option_map};
ghost use Rattle.std.specs.Iterator.{YieldsFirstBy, item_count};
ghost use Rattle.acl_names.specs.Paths.{PathOf};
ghost use Rattle.path_map.specs.Entries.{first};
ghost use Rattle.kinds.specs.Numbered.{entries_by, AreUsed};
ghost use Rattle.kinds.specs.Puts.{borrowed};

use crate::kinds::Kinds;
use acl_names::Path;
use path_map::Entries;
use std::marker::Model;

/// An iterator over the entries of a map in path order.
#[derive(Drop)]
pub struct KindsIter<'a, N> {
    rest: Entries<'a, usize>,
    kinds: &'a Kinds<N>,
}

impl<'a, N> Model for KindsIter<'a, N> {
    ghost Value = { List (PathOf × N) };

    ghost view = { λ f. entries_by f.kinds.now f.rest };

    ghost invariant = { λ f. AreUsed f.kinds.now f.rest };
}

impl<'a, N> Iterator for KindsIter<'a, N> {
    type Item = (&'a Path, &'a N);

    ghost next_gives = { YieldsFirstBy borrowed (λ entries. entries) };

    ghost remaining = { item_count (λ entries. entries) };

    fn next(&mut self) -> Option<(&'a Path, &'a N)> {
        let Some(entry) = self.rest.next() else {
            return None;
        };
        let node = self.kinds.node(entry.1);
        Some((entry.0, node))
    }
}

impl<'a, N> KindsIter<'a, N> {
    pub(crate) fn new(rest: Entries<'a, usize>, kinds: &'a Kinds<N>) -> KindsIter<'a, N>
        requires { AreUsed kinds.now rest }
        ensures { result ≡ entries_by kinds.now rest.entry }
    {
        KindsIter { rest, kinds }
    }

    /// Returns the path of the entry that `next` would return.
    pub fn peek(&self) -> Option<&'a Path>
        ensures { option_map (λ p. p.now) result ≡ option_map (λ e. e.0) (first self.now) }
    {
        self.rest.peek()
    }
}
