//! A slice of entries: their paths, and as many values.

ghost use Rattle.std.specs.Prelude.{◌≡◌, ◌<◌, ◌≤◌, ◌==◌, length, List, [], ◌∷◌, slice_index_or, option_map, take, drop, map};
ghost use Rattle.std.specs.List.{zip};
ghost use Rattle.std.specs.FinMap.{find};
ghost use Rattle.std.specs.Iterator.{YieldsFirstBy, item_count};
ghost use Rattle.acl_names.specs.Paths.{path_cmp, PathOf};
ghost use Rattle.path_map.specs.Entries.{IsInOrder, seen};
ghost use Rattle.path_map.specs.Below.{up_to, after};
ghost use Rattle.path_map.specs.Inner.{IsStart, IsCountUpTo};

use crate::part::is_passed;
use acl_names::{Path, PathRef};
use std::cmp::Ordering;
use std::marker::Model;

fn item<T>(items: &[T], at: usize) -> &T
    requires { at < length items.now }
    ensures { (d : T) → result.now ≡ slice_index_or items.now at d }
{
    &items[at]
}

/// A slice of entries: their paths, and as many values.
#[derive(Drop)]
pub(crate) struct Run<'a, V> {
    paths: &'a [Path],
    values: &'a [V],
}

impl<'a, V> Model for Run<'a, V> {
    ghost Value = { List (PathOf × V) };

    ghost view = { λ r. zip r.paths.now r.values.now };

    ghost invariant = { λ r. length r.values.now ≡ length r.paths.now };
}

impl<'a, V> Run<'a, V> {
    pub fn new(paths: &'a [Path], values: &'a [V]) -> Run<'a, V>
        requires { length values.now ≡ length paths.now }
        ensures { result ≡ zip paths.now values.now }
    {
        Run { paths, values }
    }

    /// Returns how many entries there are.
    pub fn len(&self) -> usize
        ensures { result ≡ length self.now }
    {
        self.paths.len()
    }

    /// Tells whether there is no entry.
    pub fn is_empty(&self) -> bool
        ensures { result ≡ (length self.now == 0) }
    {
        self.paths.is_empty()
    }

    /// Returns the first `count` entries.
    pub fn front(&self, count: usize) -> Run<'a, V>
        requires { count ≤ length self.now }
        ensures { result ≡ take count self.now }
    {
        Run {
            paths: self.paths.split_at(count).0,
            values: self.values.split_at(count).0,
        }
    }

    /// Returns the entries after the first `count`.
    pub fn back(&self, count: usize) -> Run<'a, V>
        requires { count ≤ length self.now }
        ensures { result ≡ drop count self.now }
    {
        Run {
            paths: self.paths.split_at(count).1,
            values: self.values.split_at(count).1,
        }
    }

    /// Returns the values.
    pub fn values(&self) -> &'a [V]
        ensures { result.now ≡ map (λ e. e.1) self.now }
    {
        self.values
    }

    /// Returns the path of an entry.
    pub fn path(&self, at: usize) -> &'a Path
        requires { at < length self.now }
        ensures { (d : PathOf × V) → result.now ≡ (slice_index_or self.now at d).0 }
    {
        item(self.paths, at)
    }

    /// Counts the entries before a path, by binary search.
    pub fn start(&self, path: &Path) -> usize
        requires { IsInOrder self.now }
        ensures { IsStart self.now path.now result }
    {
        self.paths
            .partition_point(|other| path.order(other).is_gt())
    }

    /// Counts the entries up to a path, by binary search.
    fn end(&self, path: &PathRef<'_>) -> usize
        requires { IsInOrder self.now }
        ensures { IsCountUpTo (λ e. e ∷ []) self.now path.now result }
    {
        self.paths
            .partition_point(|other| !path.order(other).is_lt())
    }
}

impl<'a, V> Run<'a, V> {
    /// Counts the entries that are before a path, at it or below it.
    pub fn passed(&self, top: &Path) -> usize
        requires { IsInOrder self.now }
        ensures few { result ≤ length self.now }
        ensures rest { after top.now self.now ≡ drop result self.now }
    {
        self.paths.partition_point(|path| is_passed(top, path))
    }
}

impl<'a, V: Copy> Run<'a, V> {
    /// Returns the value of a path.
    pub fn get(&self, path: &Path) -> Option<V>
        requires { IsInOrder self.now }
        ensures { result ≡ find path_cmp path.now self.now }
    {
        let before = self.start(path);
        if before == self.len() {
            return None;
        }
        let (other, value) = self.at(before);
        match path.order(other) {
            Ordering::Equal => Some(value),
            _ => None,
        }
    }

    /// Returns how many entries are before a path, and its value, if it has one. Galloping search: an entry near the
    /// front is found in few steps.
    pub fn find_near(&self, path: &Path) -> (usize, Option<V>)
        requires { IsInOrder self.now }
        ensures start { IsStart self.now path.now result.0 }
        ensures found { result.1 ≡ find path_cmp path.now self.now }
    {
        let mut low = 0;
        let mut high = self.len();
        while low < high {
            let step = low.saturating_sub(1).min((high - low) / 2);
            let at = low + step;
            let (other, value) = self.at(at);
            match path.order(other) {
                Ordering::Greater => low = at + 1,
                Ordering::Equal => return (at, Some(value)),
                Ordering::Less => high = at,
            }
        }
        (low, None)
    }

    /// Returns the last entry up to a path.
    pub fn up_to(&self, path: &PathRef<'_>) -> Option<(&'a Path, V)>
        requires { IsInOrder self.now }
        ensures { option_map seen result ≡ up_to path.now self.now }
    {
        let at = self.end(path).checked_sub(1)?;
        Some(self.at(at))
    }

    pub fn at(&self, at: usize) -> (&'a Path, V)
        requires { at < length self.now }
        ensures { (d : PathOf × V) → seen result ≡ slice_index_or self.now at d }
    {
        (item(self.paths, at), *item(self.values, at))
    }
}

impl<'a, V: Copy> Iterator for Run<'a, V> {
    type Item = (&'a Path, V);

    ghost next_gives = { YieldsFirstBy seen (λ entries. entries) };

    ghost remaining = { item_count (λ entries. entries) };

    fn next(&mut self) -> Option<(&'a Path, V)> {
        let [path, paths @ ..] = self.paths else {
            return None;
        };
        let [value, values @ ..] = self.values else {
            return None;
        };
        self.paths = paths;
        self.values = values;
        Some((path, *value))
    }
}
