//! The paths of a map whose nodes pass a test: each kind is tested once.

ghost use Rattle.std.specs.Prelude.{◌≡◌, false, map, filter, get_or, count_by, IfOk};
ghost use Rattle.kinds.specs.Numbered.{entries_in};
ghost use Rattle.kinds.specs.Kinds.{node_at};
ghost use Rattle.kinds.specs.Passing.{passed, count_passed};

use crate::kinds::{KindNumber, Kinds};
use crate::map::KindMap;
use crate::renew::KindTest;
use acl_names::Path;
use path_map::PathMap;
use std::alloc::{AllocError, Global};

/// Tells whether a number has a node that passes the test.
fn passes<N, T: KindTest<N>>(kinds: &Kinds<N>, test: &T, number: KindNumber) -> bool
    ensures { result ≡ passed (T.passes test.now) (node_at kinds.now number) }
{
    match kinds.get(number) {
        Some(node) => test.passes(node),
        None => false,
    }
}

/// Returns how many paths have a number, if its node passes a test.
fn count_passing<N, T: KindTest<N>>(kinds: &Kinds<N>, test: &T, number: KindNumber) -> usize
    ensures { result ≡ count_passed (T.passes test.now) kinds.now number }
{
    if passes(kinds, test, number) {
        kinds.count(number)
    } else {
        0
    }
}

/// Tests the node of each number.
fn table_of<N, T: KindTest<N>>(
    alloc: Global,
    kinds: &Kinds<N>,
    test: &T,
) -> Result<Vec<bool>, AllocError>
    ensures { IfOk result (λ table. table.items ≡ map (passed (T.passes test.now)) kinds.now.0) }
{
    let mut table = Vec::with_capacity(alloc, kinds.len())?;
    for number in 0..kinds.len() {
        table.push(passes(kinds, test, number))?;
    }
    Ok(table)
}

/// Returns what a table has for a number.
fn is_set(table: &[bool], number: KindNumber) -> bool
    ensures { result ≡ get_or table.now number false }
{
    number < table.len() && table[number]
}

/// Returns the paths with numbers that a table has, in path order.
fn paths_of<'a>(
    alloc: Global,
    numbers: &'a PathMap<usize>,
    table: &[bool],
) -> Result<Vec<&'a Path>, AllocError>
    ensures { IfOk result (λ paths. map (λ p. p.now) paths.items ≡ map (λ e. e.0) (filter (λ e. get_or table.now e.1 false) numbers.now)) }
{
    let mut paths = Vec::new(alloc);
    let mut rest = numbers.iter();
    while let Some(entry) = rest.next() {
        if is_set(table, entry.1) {
            paths.push(entry.0)?;
        }
    }
    Ok(paths)
}

impl<N> KindMap<N> {
    /// Returns the paths whose nodes pass a test, in path order: each kind is tested once.
    pub fn paths_where<T: KindTest<N>>(
        &self,
        alloc: Global,
        test: &T,
    ) -> Result<Vec<&Path>, AllocError>
        ensures { IfOk result (λ paths. map (λ p. p.now) paths.items ≡ map (λ e. e.0) (filter (λ e. T.passes test.now e.1) (entries_in self.now))) }
    {
        let table = table_of(alloc, self.kinds(), test)?;
        paths_of(alloc, self.numbers(), &table)
    }
    /// Counts the paths whose nodes pass a test: each kind is tested once, and no path is visited.
    pub fn count_where<T: KindTest<N>>(&self, test: &T) -> Result<usize, AllocError>
        ensures { IfOk result (λ count. count ≡ count_by (λ e. T.passes test.now e.1) (entries_in self.now)) }
    {
        let kinds = self.kinds();
        let mut count = 0usize;
        for number in 0..kinds.len() {
            let Some(sum) = count.checked_add(count_passing(kinds, test, number)) else {
                return Err(AllocError);
            };
            count = sum;
        }
        Ok(count)
    }
}
