//! Gives a file another label in place, if its class is its own: the class gets the label, and all files below keep
//! theirs.

ghost use Rattle.std.specs.Prelude.{◌≡◌, ◌≤◌, ◌∷◌, ◌++◌, [], length, map, IfOk, IfSome};
ghost use Rattle.path_map.specs.Entries.{seen};
ghost use Rattle.path_classes.specs.ClassedRows.{AreCounted, PutsRow, PutsRows, paths_of};
ghost use Rattle.path_classes.specs.ClassesWithin.{inside};
ghost use Rattle.path_classes.specs.PathClasses.{AreClasses};
ghost use Rattle.path_classes.specs.Renewing.{IsOwnClass};

use crate::label_row::{BothRows, LabelRow};
use crate::path_class::PathClass;
use crate::renewed_searches::relabelled_classes;
use crate::rerowed_classes::paths_below;
use crate::tagged_classes::classes_below;
use acl_names::Path;
use kinds::{KindMap, TaggedMap};
use std::alloc::{AllocError, Global};

/// Returns the class of a file, if no other file has it and some lie right below the file.
fn own_class(
    alloc: Global,
    classes: &TaggedMap<PathClass>,
    path: &Path,
) -> Result<Option<usize>, AllocError>
    ensures { IfOk result (λ own. IfSome own (IsOwnClass classes.now path.now)) }
{
    let Some(number) = classes.numbers().get(path) else {
        return Ok(None);
    };
    if classes.kinds().count(number) != 1 {
        return Ok(None);
    }
    let below = classes_below(alloc, classes, number)?;
    if below.is_empty() {
        return Ok(None);
    }
    Ok(Some(number))
}

/// Returns the classes after one file got another label, and how many files may have other answers by that: the file,
/// and those right below a class to which others may search now. `None` if the file was not there, if other files
/// have its class, or if nothing lies right below it.
pub(crate) fn relabelled_file(
    alloc: Global,
    old: &KindMap<LabelRow>,
    rows: &KindMap<LabelRow>,
    before: &TaggedMap<PathClass>,
    path: &Path,
) -> Result<Option<(TaggedMap<PathClass>, usize)>, AllocError>
    requires were { AreClasses old.now before.now }
    requires puts { PutsRow old.now path.now rows.now }
    ensures classes { IfOk result (λ new. IfSome new (λ new. AreClasses rows.now new.0)) }
    ensures least { IfOk result (λ new. IfSome new (λ new. AreCounted old.now rows.now new.1)) }
    ensures most { IfOk result (λ new. IfSome new (λ new. new.1 ≤ length (inside (path.now ∷ []) rows.now.1))) }
{
    old.order_law();
    rows.order_law();
    let _labels_before = old.kinds();
    let _labels = rows.kinds();
    let _classes = before.kinds();
    let Some(number) = own_class(alloc, before, path)? else {
        return Ok(None);
    };
    let Some(kind) = rows.numbers().get(path) else {
        return Ok(None);
    };
    let new = relabelled_classes(alloc, rows, before, number, kind)?;
    let (classes, changed) = new;
    let below = paths_below(alloc, &classes, changed)?;
    let Some(count) = below.checked_add(1) else {
        return Err(AllocError);
    };
    Ok(Some((classes, count)))
}

/// Calls `relabelled_file` if exactly one file changed and none is gone; else returns `None`.
pub(crate) fn relabelled_alone<V, W>(
    alloc: Global,
    rows: &BothRows<'_, '_>,
    before: &TaggedMap<PathClass>,
    changed: &[(&Path, V)],
    gone: &[(&Path, W)],
) -> Result<Option<(TaggedMap<PathClass>, usize)>, AllocError>
    requires were { AreClasses rows.now.before.now before.now }
    requires puts { PutsRows rows.now.before.now (map seen changed.now) (map seen gone.now) rows.now.after.now }
    ensures classes { IfOk result (λ new. IfSome new (λ new. AreClasses rows.now.after.now new.0)) }
    ensures least { IfOk result (λ new. IfSome new (λ new. AreCounted rows.now.before.now rows.now.after.now new.1)) }
    ensures most { IfOk result (λ new. IfSome new (λ new. new.1 ≤ length (inside (paths_of (map seen changed.now) ++ paths_of (map seen gone.now)) rows.now.after.now.1))) }
{
    if changed.len() != 1 || !gone.is_empty() {
        return Ok(None);
    }
    let (path, _) = &changed[0];
    let new = relabelled_file(alloc, rows.before, rows.after, before, path)?;
    Ok(new)
}
