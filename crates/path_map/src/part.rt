//! Parts of a map: entries in path order, at least one.

ghost use Rattle.std.specs.Prelude.{◌≡◌, ◌<◌, ◌++◌, None, length, List, OnOk, slice_index_or, option_map, map};
ghost use Rattle.std.specs.FinMap.{find};
ghost use Rattle.acl_names.specs.Paths.{path_cmp, PathOf};
ghost use Rattle.path_map.specs.Entries.{IsInOrder, IsCount, entries_of_parts, seen, found};
ghost use Rattle.path_map.specs.Below.{up_to, is_passed};
ghost use Rattle.path_map.specs.Inner.{IsCountUpTo, ArePassed, IsStart};

use acl_names::{Path, PathRef};
use std::alloc::AllocError;
use std::cmp::Ordering;
use std::rc::Rc;

/// Entries in path order, at least one: a chunk, or a branch of parts.
pub(crate) trait Part<V> {
    /// The entries.
    ghost entries_of: { Self → List (PathOf × V) };

    fn first(&self) -> &Path
        ensures some { 0 < length (entries_of self.now) }
        ensures path { (d : PathOf × V) → result.now ≡ (slice_index_or (entries_of self.now) 0 d).0 };

    /// Returns the value of a path.
    fn get(&self, path: &Path) -> Option<V>
        ensures { result ≡ find path_cmp path.now (entries_of self.now) };

    /// Returns the last entry up to a path.
    fn up_to(&self, path: &PathRef<'_>) -> Option<(&Path, V)>
        ensures { option_map seen result ≡ up_to path.now (entries_of self.now) };

    /// Returns how many entries there are.
    fn len(&self) -> usize
        ensures { IsCount result (length (entries_of self.now)) };

    /// Adds the values of paths that are in path order.
    fn push_found<W>(
        &self,
        new: &mut Vec<Option<V>>,
        asked: &[(&Path, W)],
    ) -> Result<(), AllocError>
        requires { IsInOrder (map seen asked.now) }
        ensures { OnOk result (new.new.items ≡ new.old.items ++ found (map seen asked.now) (entries_of self.now)) };
}

/// Returns how many entries are before a path.
pub(crate) fn start<V>(all: &[(&Path, V)], path: &Path) -> usize
    requires { IsInOrder (map seen all.now) }
    ensures { IsStart (map seen all.now) path.now result }
{
    all.partition_point(|entry| path.order(entry.0).is_gt())
}

/// Returns how many parts begin at a path or before it.
pub(crate) fn count_up_to<V, P: Part<V>>(parts: &[Rc<P>], path: &Path) -> usize
    ensures { IsCountUpTo (λ c. P.entries_of c.value) parts.now path.now result }
{
    count_up_to_borrowed(parts, &path.borrowed())
}

/// Returns how many parts begin at a borrowed path or before it.
fn count_up_to_borrowed<V, P: Part<V>>(parts: &[Rc<P>], path: &PathRef<'_>) -> usize
    ensures { IsCountUpTo (λ c. P.entries_of c.value) parts.now path.now result }
{
    let mut low = 0;
    let mut high = parts.len();
    while low < high {
        let middle = low + (high - low) / 2;
        match path.order(parts[middle].first()) {
            Ordering::Less => high = middle,
            _ => low = middle + 1,
        }
    }
    low
}

/// Returns the value of a path, found in the last part that begins at it or before it.
pub(crate) fn value_in<V, P: Part<V>>(parts: &[Rc<P>], path: &Path) -> Option<V>
    requires { IsInOrder (entries_of_parts P.entries_of parts.now) }
    ensures { result ≡ find path_cmp path.now (entries_of_parts P.entries_of parts.now) }
{
    let at = count_up_to(parts, path).checked_sub(1)?;
    parts[at].get(path)
}

/// Returns the last entry up to a path: it is in the last part that begins at the path or before it.
pub(crate) fn last_up_to<'a, V, P: Part<V>>(
    parts: &'a [Rc<P>],
    path: &PathRef<'_>,
) -> Option<(&'a Path, V)>
    requires { IsInOrder (entries_of_parts P.entries_of parts.now) }
    ensures { option_map seen result ≡ up_to path.now (entries_of_parts P.entries_of parts.now) }
{
    let at = count_up_to_borrowed(parts, path).checked_sub(1)?;
    parts[at].up_to(path)
}

/// Returns how many entries the parts have.
pub(crate) fn count_entries<V, P: Part<V>>(parts: &[Rc<P>]) -> usize
    ensures { IsCount result (length (entries_of_parts P.entries_of parts.now)) }
{
    let mut count = 0usize;
    let mut rest = parts;
    while let Some((part, more)) = rest.split_first() {
        count = count.saturating_add(part.len());
        rest = more;
    }
    count
}

/// Tells whether a path is before another one, at it or below it.
pub(crate) fn is_passed(top: &Path, path: &Path) -> bool
    ensures { result ≡ is_passed top.now path.now }
{
    top.order(path).is_gt() || path.is_within(top)
}

/// Returns how many parts begin before a path, at it or below it.
pub(crate) fn count_passed<V, P: Part<V>>(parts: &[Rc<P>], top: &Path) -> usize
    ensures { ArePassed (λ c. P.entries_of c.value) parts.now top.now result }
{
    let mut low = 0;
    let mut high = parts.len();
    while low < high {
        let middle = low + (high - low) / 2;
        if is_passed(top, parts[middle].first()) {
            low = middle + 1;
        } else {
            high = middle;
        }
    }
    low
}

/// Adds `None` for each path.
pub(crate) fn push_none<V: Copy, W>(
    new: &mut Vec<Option<V>>,
    asked: &[(&Path, W)],
) -> Result<(), AllocError>
    ensures { OnOk result (new.new.items ≡ new.old.items ++ map (λ a. None) (map seen asked.now)) }
{
    for _entry in asked {
        new.push(None)?;
    }
    Ok(())
}

/// Adds the values of paths that are in path order: each half of the parts is searched for the paths that it may
/// have, down to one part.
pub(crate) fn push_found_in<V: Copy, W, P: Part<V>>(
    new: &mut Vec<Option<V>>,
    parts: &[Rc<P>],
    asked: &[(&Path, W)],
) -> Result<(), AllocError>
    requires entries { IsInOrder (entries_of_parts P.entries_of parts.now) }
    requires asked { IsInOrder (map seen asked.now) }
    ensures { OnOk result (new.new.items ≡ new.old.items ++ found (map seen asked.now) (entries_of_parts P.entries_of parts.now)) }
{
    if asked.is_empty() {
        return Ok(());
    }
    match parts {
        [] => push_none(new, asked),
        [part] => {
            part.push_found(new, asked)?;
            Ok(())
        }
        _ => {
            let (left, right) = parts.split_at(parts.len() / 2);
            let (asked_left, asked_right) = asked.split_at(start(asked, right[0].first()));
            push_found_in(new, left, asked_left)?;
            push_found_in(new, right, asked_right)?;
            Ok(())
        }
    }
}
