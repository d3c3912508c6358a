//! A map with tags after some paths got other numbers, and others were removed.

ghost use Rattle.std.specs.Prelude.{◌≡◌, ℕ, IfOk, map};
ghost use Rattle.path_map.specs.Entries.{IsInOrder, seen};
ghost use Rattle.kinds.specs.Kinds.{count_at};
ghost use Rattle.kinds.specs.Numbered.{AreUsed};
ghost use Rattle.kinds.specs.Tagged.{KeepsTags};
ghost use Rattle.kinds.specs.Renumbered.{IsPut};

use crate::kinds::Kinds;
use crate::tagged::{Tagged, TaggedMap, push_found};
use acl_names::Path;
use std::alloc::{AllocError, Global};

fn numbers_of(alloc: Global, entries: &[(&Path, usize)]) -> Result<Vec<usize>, AllocError>
    ensures { IfOk result (λ numbers. numbers.items ≡ map (λ e. e.1) entries.now) }
{
    let mut numbers = Vec::with_capacity(alloc, entries.len())?;
    for entry in entries {
        numbers.push(entry.1)?;
    }
    Ok(numbers)
}

impl<N: Tagged + Drop> TaggedMap<N> {
    /// Returns the map of [`KindMap::put_found`], in which a number that had a node has one, with the same tags
    /// unless it is one of `others`. Only the tags of these and of the numbers that paths got or lost are compared.
    pub fn put_counted(
        &self,
        alloc: Global,
        kinds: Kinds<N>,
        puts: &[(&Path, usize)],
        gone: &[(&Path, usize)],
        others: &[usize],
    ) -> Result<TaggedMap<N>, AllocError>
        requires tags { KeepsTags N.tags_of others.now self.now.0 kinds }
        requires counts { (n : ℕ) → count_at kinds n ≡ count_at self.now.0 n }
        requires used { AreUsed kinds (map seen puts.now) }
        requires puts { IsInOrder (map seen puts.now) }
        requires gone { IsInOrder (map seen gone.now) }
        ensures { IfOk result (λ new. IsPut self.now kinds (map seen puts.now) (map seen gone.now) new) }
    {
        let before = self.map();
        let _kinds = before.kinds();
        let (map, gone_found, put_found) = before.put_found(alloc, kinds, puts, gone)?;
        let mut numbers = numbers_of(alloc, puts)?;
        numbers.extend_from_slice(others)?;
        push_found(&mut numbers, &gone_found)?;
        push_found(&mut numbers, &put_found)?;
        let new = self.after_tags(alloc, map, numbers)?;
        Ok(new)
    }
}
