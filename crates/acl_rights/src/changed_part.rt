//! The part of the tree in which lines changed files since the texts were loaded: some paths, its tops, with all that
//! is below them.

ghost use Rattle.std.specs.Prelude.{◌≡◌, ◌||◌, [], ◌∷◌, true, false, map, IfOk};
ghost use Rattle.acl_names.specs.Below.{encloses};
ghost use Rattle.acl_names.specs.Paths.{PathOf};
ghost use Rattle.path_classes.specs.ClassesWithin.{AreTops, is_inside, paths_seen};
ghost use Rattle.acl_rights.specs.Outside.{Holds, HoldsChanges, is_outside};

use acl_names::Path;
use acl_tree::{Differences, Staged, UserChange};
use path_classes::tops_of;
use std::alloc::{AllocError, Global};

/// The most tops of a part. Of more changed files than these, apart from one another, no list is made.
const MAX_TOPS: usize = 64;

fn whole_tree(alloc: Global) -> Result<Vec<Path>, AllocError>
    ensures { IfOk result (λ tops. tops.items ≡ [] ∷ []) }
{
    let mut tops = Vec::new(alloc);
    tops.push(Path::new(Vec::new(alloc)).unwrap())?;
    Ok(tops)
}

/// Tells whether a part is the whole tree.
fn is_whole(tops: &[Path]) -> bool
    ensures { result ≡ true → (p : PathOf) → is_outside tops.now p ≡ false }
{
    match tops.first() {
        Some(top) => top.borrowed().is_root(),
        None => false,
    }
}

/// Tells whether a path is one of `tops`, or below one.
fn is_inside(tops: &[Path], path: &Path) -> bool
    ensures { result ≡ is_inside tops.now path.now }
{
    tops.iter().any(|top| path.is_within(top))
}

fn copied(alloc: Global, paths: &[&Path]) -> Result<Vec<Path>, AllocError>
    ensures { IfOk result (λ copies. copies.items ≡ paths_seen paths.now) }
{
    let mut copies = Vec::with_capacity(alloc, paths.len())?;
    for path in paths {
        copies.push(path.try_clone(alloc)?)?;
    }
    Ok(copies)
}

/// Adds a top, and drops those below it.
fn with_top(alloc: Global, tops: &[Path], top: &Path) -> Result<Vec<Path>, AllocError>
    requires { AreTops tops.now }
    ensures tops { IfOk result (λ new. AreTops new.items) }
    ensures covers { IfOk result (λ new. (q : PathOf) → is_inside new.items q ≡ (is_inside tops.now q || encloses top.now q)) }
{
    let mut old = Vec::with_capacity(alloc, tops.len())?;
    for path in tops {
        old.push((path, ()))?;
    }
    let new = tops_of(alloc, &old, &[(top, ())])?;
    copied(alloc, &new)
}

/// Extends a part by a path. If the tops would be too many, the path is replaced by an ancestor that holds enough of
/// them.
fn with_path(alloc: Global, tops: Vec<Path>, path: &Path) -> Result<Vec<Path>, AllocError>
    requires { AreTops tops.items }
    ensures tops { IfOk result (λ new. AreTops new.items) }
    ensures wider { IfOk result (λ new. Holds new.items tops.items []) }
    ensures holds { IfOk result (λ new. is_inside new.items path.now ≡ true) }
{
    if is_inside(&tops, path) {
        return Ok(tops);
    }
    let mut top = path.try_clone(alloc)?;
    let mut new = with_top(alloc, &tops, &top)?;
    while new.len() > MAX_TOPS && !top.borrowed().is_root() {
        top = top.parent(alloc)?;
        new = with_top(alloc, &tops, &top)?;
    }
    Ok(new)
}

/// Extends a part by files, or to the whole tree if many files are not below one another. No file is looked at if the
/// part is the whole tree already.
fn with_files(
    alloc: Global,
    tops: Vec<Path>,
    files: Differences<'_>,
) -> Result<Vec<Path>, AllocError>
    requires { AreTops tops.items }
    ensures tops { IfOk result (λ new. AreTops new.items) }
    ensures holds { IfOk result (λ new. Holds new.items tops.items files.entry) }
{
    let mut new = tops;
    let mut left = MAX_TOPS;
    let mut rest = files;
    while left > 0 && !is_whole(&new) {
        let Some(file) = rest.next_top() else {
            return Ok(new);
        };
        left -= 1;
        new = with_path(alloc, new, file.0)?;
    }
    whole_tree(alloc)
}

fn same_part(alloc: Global, tops: &[Path]) -> Result<Vec<Path>, AllocError>
    ensures { IfOk result (λ copies. copies.items ≡ tops.now) }
{
    let mut copies = Vec::with_capacity(alloc, tops.len())?;
    for top in tops {
        copies.push(top.try_clone(alloc)?)?;
    }
    Ok(copies)
}

/// Extends a part by all files that a line changed. If users moved it is the whole tree.
pub(crate) fn with_changes(
    alloc: Global,
    tops: &[Path],
    staged: &Staged,
) -> Result<Vec<Path>, AllocError>
    requires { AreTops tops.now }
    ensures tops { IfOk result (λ new. AreTops new.items) }
    ensures holds { IfOk result (λ new. HoldsChanges new.items tops.now staged.now) }
{
    match staged.user_change() {
        UserChange::Unchanged => {
            let old = same_part(alloc, tops)?;
            let new = with_files(alloc, old, staged.changed())?;
            let both = with_files(alloc, new, staged.gone())?;
            Ok(both)
        }
        _ => whole_tree(alloc),
    }
}
