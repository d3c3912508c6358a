//! Builds a map from entries in path order: equal nodes mostly get one number.

ghost use Rattle.std.specs.Prelude.{◌≡◌, ◌++◌, ◌∷◌, [], IfOk};
ghost use Rattle.path_map.specs.Entries.{IsInOrder};
ghost use Rattle.kinds.specs.Numbered.{entries_in};

use crate::kinds::Kinds;
use crate::map::KindMap;
use crate::numbering::{Likeness, Numbering};
use acl_names::Path;
use path_map::PathMapBuilder;
use std::alloc::{AllocError, Global};
use std::marker::Model;

/// A map under construction: the entries so far, in path order.
#[derive(Drop)]
pub struct KindMapBuilder<N> {
    numbering: Numbering<N>,
    numbers: PathMapBuilder<usize>,
}

impl<N> Model for KindMapBuilder<N> {
    ghost use Rattle.std.specs.Prelude.{List, []};
    ghost use Rattle.acl_names.specs.Paths.{PathOf};
    ghost use Rattle.kinds.specs.Numbered.{entries_by};
    ghost use Rattle.kinds.specs.Inner.{AddsBut};

    ghost Value = { List (PathOf × N) };

    ghost view = { λ b. entries_by b.numbering.kinds b.numbers };

    ghost invariant = { λ b. AddsBut ([], []) (entries_by b.numbering.kinds b.numbers) b.numbering.kinds b.numbers b.numbering.last b.numbering.pending };
}

impl<N> KindMapBuilder<N> {
    /// Returns a builder without entries.
    pub fn new(alloc: Global) -> KindMapBuilder<N>
        ensures { result ≡ [] }
    {
        KindMapBuilder {
            numbering: Numbering::new(alloc, Kinds::new(alloc)),
            numbers: PathMapBuilder::new(alloc),
        }
    }
}

impl<N: Drop> KindMapBuilder<N> {
    /// Adds an entry, which is the last in path order; path and node are moved into the map.
    pub fn push<L: Likeness<N>>(
        self,
        alloc: Global,
        path: Path,
        node: N,
        likeness: &L,
    ) -> Result<KindMapBuilder<N>, AllocError>
        requires { IsInOrder (self ++ (path, node) ∷ []) }
        ensures { IfOk result (λ new. new ≡ self ++ (path, node) ∷ []) }
    {
        let KindMapBuilder {
            numbering,
            mut numbers,
        } = self;
        let numbering = numbering.give(alloc, node, likeness)?;
        numbers.push(alloc, path, numbering.last)?;
        Ok(KindMapBuilder { numbering, numbers })
    }

    /// Returns the map of the entries.
    pub fn finish(self, alloc: Global) -> Result<KindMap<N>, AllocError>
        ensures { IfOk result (λ map. entries_in map ≡ self) }
    {
        let KindMapBuilder { numbering, numbers } = self;
        let kinds = numbering.counted()?;
        let numbers = numbers.finish(alloc)?;
        numbers.order_law();
        let map = KindMap::of(alloc, kinds, numbers)?;
        Ok(map)
    }
}
