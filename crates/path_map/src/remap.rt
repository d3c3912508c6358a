//! Replaces values: the new map shares all paths.

ghost use Rattle.std.specs.Prelude.{◌≡◌, ◌++◌, ◌+◌, ◌<◌, [], ◌∷◌, length, IfOk, OnOk, map, take};
ghost use Rattle.std.specs.FinMap.{find};
ghost use Rattle.acl_names.specs.Paths.{path_cmp};
ghost use Rattle.path_map.specs.Entries.{IsInOrder, entries_of_parts, found, seen};
ghost use Rattle.path_map.specs.Changed.{with_values};
ghost use Rattle.path_map.specs.Inner.{IsPassed};

use crate::branch::Branch;
use crate::chunk::Chunk;
use crate::map::PathMap;
use crate::merge::share_all;
use crate::part::{Part, push_none, start};
use crate::run::Run;
use acl_names::Path;
use std::alloc::{AllocError, Global};
use std::rc::Rc;

/// A part whose values can be replaced, while its paths stay.
pub(crate) trait Remap<V: Copy>: Part<V> + Sized + Drop {
    /// Returns the part with the values of `puts` at the paths that it has, and adds to `was` what each of these
    /// paths had.
    fn replaced(
        &self,
        alloc: Global,
        was: &mut Vec<Option<V>>,
        puts: &[(&Path, V)],
    ) -> Result<Self, AllocError>
        requires { IsInOrder (map seen puts.now) }
        ensures part { IfOk result (λ new. Self.entries_of new ≡ with_values (map seen puts.now) (Self.entries_of self.now)) }
        ensures was { IfOk result (λ _. was.new.items ≡ was.old.items ++ found (map seen puts.now) (Self.entries_of self.now)) };
}

/// Adds the values up to `path`, with `value` in place of the one at that path, which is added to `was`.
fn replace_next<V: Copy>(
    new: &mut Vec<V>,
    was: &mut Vec<Option<V>>,
    rest: &Run<'_, V>,
    path: &Path,
    value: V,
) -> Result<usize, AllocError>
    requires { IsInOrder rest.now }
    ensures passed { IfOk result (λ n. IsPassed rest.now path.now n) }
    ensures added { IfOk result (λ n. new.new.items ≡ new.old.items ++ map (λ e. e.1) (take n (with_values ((path.now, value) ∷ []) rest.now))) }
    ensures was { IfOk result (λ _. was.new.items ≡ was.old.items ++ find path_cmp path.now rest.now ∷ []) }
{
    let (before, there) = rest.find_near(path);
    new.extend_from_slice(rest.front(before).values())?;
    was.push(there)?;
    if there.is_none() {
        return Ok(before);
    }
    new.push(value)?;
    Ok(before + 1)
}

/// Replaces the values at the paths of `puts`, and adds to `was` what each of these paths had.
fn values_replaced<V: Copy>(
    alloc: Global,
    was: &mut Vec<Option<V>>,
    run: &Run<'_, V>,
    puts: &[(&Path, V)],
) -> Result<Vec<V>, AllocError>
    requires entries { IsInOrder run.now }
    requires puts { IsInOrder (map seen puts.now) }
    ensures values { IfOk result (λ new. new.items ≡ map (λ e. e.1) (with_values (map seen puts.now) run.now)) }
    ensures was { IfOk result (λ _. was.new.items ≡ was.old.items ++ found (map seen puts.now) run.now) }
{
    let mut new = Vec::with_capacity(alloc, run.len())?;
    let mut at = 0;
    for put in puts {
        at += replace_next(&mut new, was, &run.back(at), put.0, put.1)?;
    }
    new.extend_from_slice(run.back(at).values())?;
    Ok(new)
}

/// Adds parts with the values of `puts`, and to `was` what each of these paths had. If `puts` is empty the parts are
/// shared; else each half is changed by itself, down to one part.
fn push_replaced<V: Copy, P: Remap<V>>(
    alloc: Global,
    new: &mut Vec<Rc<P>>,
    was: &mut Vec<Option<V>>,
    parts: &[Rc<P>],
    puts: &[(&Path, V)],
) -> Result<(), AllocError>
    requires entries { IsInOrder (entries_of_parts P.entries_of parts.now) }
    requires puts { IsInOrder (map seen puts.now) }
    ensures entries { OnOk result (entries_of_parts P.entries_of new.new.items
        ≡ entries_of_parts P.entries_of new.old.items ++ with_values (map seen puts.now) (entries_of_parts P.entries_of parts.now)) }
    ensures count { OnOk result (length new.new.items ≡ length new.old.items + length parts.now) }
    ensures was { OnOk result (was.new.items ≡ was.old.items ++ found (map seen puts.now) (entries_of_parts P.entries_of parts.now)) }
{
    if puts.is_empty() {
        share_all(new, parts)?;
        return Ok(());
    }
    match parts {
        [] => push_none(was, puts),
        [part] => {
            new.push(Rc::new(alloc, part.replaced(alloc, was, puts)?)?)?;
            Ok(())
        }
        _ => {
            let (left, right) = parts.split_at(parts.len() / 2);
            let middle = right[0].first();
            let (puts_left, puts_right) = puts.split_at(start(puts, middle));
            push_replaced(alloc, new, was, left, puts_left)?;
            push_replaced(alloc, new, was, right, puts_right)?;
            Ok(())
        }
    }
}

impl<V: Copy> Remap<V> for Chunk<V> {
    fn replaced(
        &self,
        alloc: Global,
        was: &mut Vec<Option<V>>,
        puts: &[(&Path, V)],
    ) -> Result<Chunk<V>, AllocError> {
        let values = values_replaced(alloc, was, &self.run(), puts)?;
        Ok(self.with(values)?)
    }
}

impl<V: Copy, P: Remap<V>> Remap<V> for Branch<V, P> {
    fn replaced(
        &self,
        alloc: Global,
        was: &mut Vec<Option<V>>,
        puts: &[(&Path, V)],
    ) -> Result<Branch<V, P>, AllocError> {
        let mut parts = Vec::with_capacity(alloc, self.parts().len())?;
        push_replaced(alloc, &mut parts, was, self.parts(), puts)?;
        Ok(self.with(parts))
    }
}

impl<V: Copy> PathMap<V> {
    /// Replaces the values at the paths of `puts`, which are in path order, and returns for each of these paths the
    /// value that it had: `None` for a path without an entry, which is skipped. This map stays as it is, and both
    /// share all paths.
    pub fn replaced(
        &self,
        alloc: Global,
        puts: &[(&Path, V)],
    ) -> Result<(PathMap<V>, Vec<Option<V>>), AllocError>
        requires { IsInOrder (map seen puts.now) }
        ensures map { IfOk result (λ made. made.0 ≡ with_values (map seen puts.now) self.now) }
        ensures was { IfOk result (λ made. made.1.items ≡ found (map seen puts.now) self.now) }
    {
        let mut new = Vec::with_capacity(alloc, self.tops().len())?;
        let mut was = Vec::with_capacity(alloc, puts.len())?;
        push_replaced(alloc, &mut new, &mut was, self.tops(), puts)?;
        Ok((PathMap::of(new), was))
    }

    /// Returns the map of `replaced` alone.
    pub fn with_values(&self, alloc: Global, puts: &[(&Path, V)]) -> Result<PathMap<V>, AllocError>
        requires { IsInOrder (map seen puts.now) }
        ensures { IfOk result (λ new. new ≡ with_values (map seen puts.now) self.now) }
    {
        let (new, _was) = self.replaced(alloc, puts)?;
        Ok(new)
    }
}
