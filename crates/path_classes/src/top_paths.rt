//! The tops among paths: those that are below none of the others.

ghost use Rattle.std.specs.Prelude.{◌≡◌, [], map, drop, IfOk, OnOk, MatchOption};
ghost use Rattle.acl_names.specs.Paths.{PathOf};
ghost use Rattle.path_map.specs.Entries.{IsInOrder, seen};
ghost use Rattle.path_classes.specs.ClassesWithin.{paths_seen, is_inside, AreTops};
ghost use Rattle.path_classes.specs.Tops.{AreBefore, is_in_two, is_in_last, IsNext, AddsTop};

use acl_names::Path;
use std::alloc::{AllocError, Global};

/// Returns the first of the next paths of two lists, and the place after it in both.
fn next_path<'a, V, W>(
    changed: &[(&'a Path, V)],
    gone: &[(&'a Path, W)],
    change: usize,
    other: usize,
) -> Option<(&'a Path, usize, usize)>
    ensures { MatchOption result ((drop change changed.now ≡ []) × (drop other gone.now ≡ [])) (λ next. IsNext (map seen (drop change changed.now)) (map seen (drop other gone.now)) next.0.now (map seen (drop next.1 changed.now)) (map seen (drop next.2 gone.now))) }
{
    match changed.get(change) {
        Some(first) => match gone.get(other) {
            Some(second) => {
                if second.0.order(first.0).is_lt() {
                    return Some((second.0, change, other + 1));
                }
                Some((first.0, change + 1, other))
            }
            None => Some((first.0, change + 1, other)),
        },
        None => match gone.get(other) {
            Some(second) => Some((second.0, change, other + 1)),
            None => None,
        },
    }
}

/// Tells whether a path is at or below the last top.
fn is_in_last(tops: &[&Path], path: &Path) -> bool
    ensures { result ≡ is_in_last (paths_seen tops.now) path.now }
{
    match tops.split_last() {
        Some((last, _before)) => path.is_within(*last),
        None => false,
    }
}

/// Adds a path that comes after all tops, unless it is at or below one of them.
fn push_top<'a>(tops: &mut Vec<&'a Path>, path: &'a Path) -> Result<(), AllocError>
    requires tops { AreTops (paths_seen tops.old.items) }
    requires after { AreBefore (paths_seen tops.old.items) path.now }
    ensures { OnOk result (AddsTop (paths_seen tops.old.items) path.now (paths_seen tops.new.items)) }
{
    if is_in_last(tops, path) {
        return Ok(());
    }
    tops.push(path)?;
    Ok(())
}

/// Merges the paths of two lists, without those below another one, in path order.
pub fn tops_of<'a, V, W>(
    alloc: Global,
    changed: &[(&'a Path, V)],
    gone: &[(&'a Path, W)],
) -> Result<Vec<&'a Path>, AllocError>
    requires changed { IsInOrder (map seen changed.now) }
    requires gone { IsInOrder (map seen gone.now) }
    ensures tops { IfOk result (λ tops. AreTops (paths_seen tops.items)) }
    ensures covers { IfOk result (λ tops. (q : PathOf) → is_inside (paths_seen tops.items) q ≡ is_in_two (map seen changed.now) (map seen gone.now) q) }
{
    let mut tops = Vec::new(alloc);
    let mut change = 0;
    let mut other = 0;
    while let Some((path, after, after_other)) = next_path(changed, gone, change, other) {
        push_top(&mut tops, path)?;
        change = after;
        other = after_other;
    }
    Ok(tops)
}
