//! The files that some paths mean, as a part of the tree.

ghost use Rattle.std.specs.Prelude.{◌≡◌, Bool, false, true, ◌∷◌, [], IfOk, map};
ghost use Rattle.path_map.specs.Entries.{seen};
ghost use Rattle.acl_names.specs.Paths.{PathOf};
ghost use Rattle.acl_tree.specs.Inner.{Ascend};
ghost use Rattle.acl_tree.specs.Operands.{is_file, in_region, files_meant};

use crate::selection::Selection;
use crate::walk::Walk;
use acl_names::Path;
use path_map::PathMap;
use std::alloc::{AllocError, Global};
use std::marker::Model;

/// The files at some paths, or also all files below these.
#[derive(Drop)]
pub struct Region {
    recursive: bool,
    paths: Vec<Path>,
}

impl Model for Region {
    ghost use Rattle.std.specs.Prelude.{Bool, List, ℕ};
    ghost use Rattle.acl_tree.specs.Inner.{Ascend};

    ghost Value = { Bool × List (List (List ℕ)) };

    ghost view = { λ r. (r.recursive, r.paths.items) };

    ghost invariant = { λ r. Ascend r.paths.items };
}

fn copies(alloc: Global, paths: &[Path]) -> Result<Vec<Path>, AllocError>
    ensures { IfOk result (λ all. all.items ≡ paths.now) }
{
    let mut all = Vec::with_capacity(alloc, paths.len())?;
    for path in paths {
        all.push(path.try_clone(alloc)?)?;
    }
    Ok(all)
}

fn sorted(paths: Vec<Path>) -> Vec<Path>
    ensures same { (recursive : Bool) (q : PathOf) → is_file recursive result.items q ≡ is_file recursive paths.items q }
    ensures order { Ascend result.items }
{
    let mut sorted = paths;
    sorted.sort_unstable_by(|a, b| a.order(b));
    sorted
}

impl Region {
    /// Makes the region of the files at some paths, or also of all files below these.
    pub fn new(paths: Vec<Path>, recursive: bool) -> Region
        ensures { (q : PathOf) → in_region result q ≡ is_file recursive paths.items q }
    {
        Region {
            recursive,
            paths: sorted(paths),
        }
    }

    /// Makes the region of a selection.
    pub fn of(alloc: Global, selection: &Selection<'_>) -> Result<Region, AllocError>
        ensures { IfOk result (λ region. (q : PathOf) → in_region region q ≡ is_file selection.now.recursive selection.now.operands.now q) }
    {
        let paths = copies(alloc, selection.operands.as_slice())?;
        Ok(Region::new(paths, selection.recursive))
    }

    /// Makes the region of the file at a path.
    pub fn at(alloc: Global, path: &Path) -> Result<Region, AllocError>
        ensures { IfOk result (λ region. (q : PathOf) → in_region region q ≡ is_file false (path.now ∷ []) q) }
    {
        let mut paths = Vec::new(alloc);
        paths.push(path.try_clone(alloc)?)?;
        Ok(Region::new(paths, false))
    }

    /// Makes the region of no file.
    pub fn nothing(alloc: Global) -> Region
        ensures { (q : PathOf) → in_region result q ≡ false }
    {
        Region::new(Vec::new(alloc), false)
    }

    /// Makes the region of all files.
    pub fn everything(alloc: Global) -> Result<Region, AllocError>
        ensures { IfOk result (λ region. (q : PathOf) → in_region region q ≡ true) }
    {
        let mut paths = Vec::new(alloc);
        paths.push(Path::new(Vec::new(alloc)).unwrap())?;
        Ok(Region::new(paths, true))
    }

    /// Tells whether it is known that the region means every file: its first path is the root, and it means the files
    /// below.
    pub(crate) fn is_everything(&self) -> bool
        ensures { result ≡ true → (q : PathOf) → in_region self.now q ≡ true }
    {
        match self.paths.first() {
            Some(first) => self.recursive && first.borrowed().is_root(),
            None => false,
        }
    }

    /// Walks over the entries of a map that the region means.
    pub(crate) fn walk<'a, 'p>(&'p self, numbers: &'a PathMap<usize>) -> Walk<'a, 'p>
        ensures { result ≡ (files_meant self.now.0 self.now.1 numbers.now, numbers.now) }
    {
        Walk::new(numbers, self.recursive, &self.paths)
    }
}

/// Returns the paths that a region means, with their numbers.
pub(crate) fn numbers_in<'a>(
    alloc: Global,
    numbers: &'a PathMap<usize>,
    region: &Region,
) -> Result<Vec<(&'a Path, usize)>, AllocError>
    ensures { IfOk result (λ entries. map seen entries.items ≡ files_meant region.now.0 region.now.1 numbers.now) }
{
    let mut entries = Vec::new(alloc);
    let mut walk = region.walk(numbers);
    while let Some(entry) = walk.next() {
        entries.push(entry)?;
    }
    Ok(entries)
}
