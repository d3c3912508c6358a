//! Other nodes for numbers, and other numbers for the paths of a map.

ghost use Rattle.std.specs.Prelude.{◌≡◌, ℕ, false, IfOk, map};
ghost use Rattle.path_map.specs.Entries.{IsInOrder, seen, found};
ghost use Rattle.path_map.specs.Merged.{without_all, merged};
ghost use Rattle.kinds.specs.Kinds.{IsNode, count_at};
ghost use Rattle.kinds.specs.Numbered.{AreUsed, paths_with};
ghost use Rattle.kinds.specs.Tagged.{is_one, numbers_found};
ghost use Rattle.kinds.specs.Renumbered.{Replaces, SamePaths, IsRenumbered, IsPut};

use crate::counted::count_entries;
use crate::kinds::{KindNumber, Kinds, NONE, Slot};
use crate::map::KindMap;
use crate::put::numbers_with;
use crate::release::release_all;
use acl_names::Path;
use path_map::PathMap;
use std::alloc::{AllocError, Global};
use std::rc::Rc;

impl<N: Drop> Kinds<N> {
    /// Replaces the node of a number that has one; its paths keep the number.
    pub fn with_node(self, number: KindNumber, node: Rc<N>) -> Result<Kinds<N>, AllocError>
        requires { IsNode self number }
        ensures { IfOk result (λ new. Replaces self node.value number new) }
    {
        let slot = Slot {
            node: Some(node),
            count: self.count(number),
            next: NONE,
        };
        let Kinds { slots, free } = self;
        let slots = slots.with(number, slot)?;
        Ok(Kinds { slots, free })
    }
}

/// Removes the paths of `gone`, then puts `puts`; and returns the numbers that the paths had: those that are gone,
/// and then those that are put and are not gone.
fn numbers_merged(
    alloc: Global,
    numbers: &PathMap<usize>,
    puts: &[(&Path, usize)],
    gone: &[(&Path, usize)],
) -> Result<(PathMap<usize>, Vec<Option<usize>>, Vec<Option<usize>>), AllocError>
    requires puts { IsInOrder (map seen puts.now) }
    requires gone { IsInOrder (map seen gone.now) }
    ensures new { IfOk result (λ new. new.0 ≡ merged (map seen puts.now) (map seen gone.now) numbers.now) }
    ensures gone_found { IfOk result (λ new. new.1.items ≡ found (map seen gone.now) numbers.now) }
    ensures put_found { IfOk result (λ new. new.2.items ≡ found (map seen puts.now) (without_all (map seen gone.now) numbers.now)) }
{
    let gone_found = numbers.get_all(alloc, gone)?;
    let left = numbers.without_all(alloc, gone)?;
    let (new, put_found) = numbers_with(alloc, &left, puts)?;
    Ok((new, gone_found, put_found))
}

impl<N: Drop> KindMap<N> {
    /// Returns the map of the paths of another one with the numbers of `entries`, whose nodes have no paths so far:
    /// each number gets its paths. Both maps share the paths.
    pub fn renumbered(
        alloc: Global,
        paths: &PathMap<usize>,
        kinds: Kinds<N>,
        entries: &[(&Path, usize)],
    ) -> Result<KindMap<N>, AllocError>
        requires paths { SamePaths paths.now (map seen entries.now) }
        requires used { AreUsed kinds (map seen entries.now) }
        requires fresh { (n : ℕ) → count_at kinds n ≡ 0 }
        ensures { IfOk result (λ new. IsRenumbered kinds (map seen entries.now) new) }
    {
        paths.order_law();
        let kinds = count_entries(alloc, kinds, entries)?;
        let numbers = paths.with_values(alloc, entries)?;
        let map = KindMap::of(alloc, kinds, numbers)?;
        Ok(map)
    }

    /// Puts `puts`, whose numbers are counted, removes `gone`, and returns the numbers that the paths had: those that
    /// are gone, and then those that are put and are not gone. Both lists are in path order, and a path in both is
    /// put. `kinds` may have other nodes at some numbers and some more, but lacks none. This map stays as it is.
    pub(crate) fn put_found(
        &self,
        alloc: Global,
        kinds: Kinds<N>,
        puts: &[(&Path, usize)],
        gone: &[(&Path, usize)],
    ) -> Result<(KindMap<N>, Vec<Option<usize>>, Vec<Option<usize>>), AllocError>
        requires there { (n : ℕ) → IsNode self.now.0 n → IsNode kinds n }
        requires counts { (n : ℕ) → count_at kinds n ≡ count_at self.now.0 n }
        requires used { AreUsed kinds (map seen puts.now) }
        requires puts { IsInOrder (map seen puts.now) }
        requires gone { IsInOrder (map seen gone.now) }
        ensures put { IfOk result (λ new. IsPut self.now kinds (map seen puts.now) (map seen gone.now) new.0) }
        ensures same { IfOk result (λ new. (n : ℕ) → paths_with n (map seen puts.now) ≡ 0 → is_one n (numbers_found new.1.items) ≡ false
            → is_one n (numbers_found new.2.items) ≡ false → count_at new.0.0 n ≡ count_at self.now.0 n) }
    {
        let kinds = count_entries(alloc, kinds, puts)?;
        let (numbers, gone_found, put_found) = numbers_merged(alloc, self.numbers(), puts, gone)?;
        let left = release_all(alloc, kinds, &gone_found)?;
        let kinds = release_all(alloc, left, &put_found)?;
        let map = KindMap::of(alloc, kinds, numbers)?;
        Ok((map, gone_found, put_found))
    }
}
