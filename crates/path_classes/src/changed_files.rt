//! Classes after some files got other labels or are new, and others are gone.

ghost use Rattle.std.specs.Prelude.{◌≤◌, ◌++◌, length, map, IfOk};
ghost use Rattle.path_map.specs.Entries.{IsInOrder, seen};
ghost use Rattle.path_classes.specs.PathClasses.{AreClasses};
ghost use Rattle.path_classes.specs.ClassesWithin.{inside};
ghost use Rattle.path_classes.specs.ClassedRows.{AreCounted, PutsRows, paths_of};

use crate::classes_within::classes_after;
use crate::label_row::BothRows;
use crate::path_class::PathClass;
use crate::relabelled_file::relabelled_alone;
use crate::top_paths::tops_of;
use acl_names::Path;
use kinds::TaggedMap;
use std::alloc::{AllocError, Global};

/// Returns the classes after some files changed and others are gone, and how many files at or below these may have
/// other answers by that: one file alone gets its label in place if it can, else the classes there are found again.
pub(crate) fn classes_with_files<V, W>(
    alloc: Global,
    rows: &BothRows<'_, '_>,
    before: &TaggedMap<PathClass>,
    changed: &[(&Path, V)],
    gone: &[(&Path, W)],
) -> Result<(TaggedMap<PathClass>, usize), AllocError>
    requires changed { IsInOrder (map seen changed.now) }
    requires gone { IsInOrder (map seen gone.now) }
    requires were { AreClasses rows.now.before.now before.now }
    requires puts { PutsRows rows.now.before.now (map seen changed.now) (map seen gone.now) rows.now.after.now }
    ensures classes { IfOk result (λ new. AreClasses rows.now.after.now new.0) }
    ensures least { IfOk result (λ new. AreCounted rows.now.before.now rows.now.after.now new.1) }
    ensures most { IfOk result (λ new. new.1 ≤ length (inside (paths_of (map seen changed.now) ++ paths_of (map seen gone.now)) rows.now.after.now.1)) }
{
    if let Some(alone) = relabelled_alone(alloc, rows, before, changed, gone)? {
        return Ok(alone);
    }
    let _files_before = rows.before.numbers();
    let _files = rows.after.numbers();
    let tops = tops_of(alloc, changed, gone)?;
    let new = classes_after(alloc, rows, before, &tops)?;
    Ok(new)
}
