//! The classes of the files at or below some paths, the tops, while all other files keep theirs.

ghost use Rattle.std.specs.Prelude.{◌≡◌, ◌≤◌, ◌++◌, ◌∷◌, [], not, is_none, length, map, filter, IfOk, OnOk, if◌then◌else◌};
ghost use Rattle.path_map.specs.Entries.{IsInOrder, seen};
ghost use Rattle.path_map.specs.Merged.{has};
ghost use Rattle.path_classes.specs.PathClasses.{class_above, AreClasses};
ghost use Rattle.path_classes.specs.ClassBuilding.{AreKept, SameClassesBut};
ghost use Rattle.path_classes.specs.ClassesWithin.{paths_seen, inside, outside, AreTops, FitOutside, ChangesInside, AreFound};
ghost use Rattle.path_classes.specs.ClassedRows.{AreCounted};

use crate::changed_answers::changed_answers;
use crate::class_builder::ClassBuilder;
use crate::class_walk::walk;
use crate::kept_classes::{ClassSources, KeptClasses};
use crate::label_row::{BothRows, LabelRow};
use crate::path_class::PathClass;
use acl_names::Path;
use kinds::{KindMap, Kinds, TaggedMap};
use path_map::{PathMap, Within};
use std::alloc::{AllocError, Global};

/// Returns the class of the nearest recorded ancestor of a path, if there is one.
fn class_over(classes: &PathMap<usize>, path: &Path) -> Option<usize>
    ensures { result ≡ class_above path.now classes.now }
{
    match classes.nearest_above(path) {
        Some(entry) => Some(entry.1),
        None => None,
    }
}

/// Returns the classes of the files at or below `tops`, of which none is below another one, beside the classes that
/// were there; these files with their classes, in path order; and the numbers of the classes that were there and may
/// be others now. Of the classes that were there those can be found that paths outside have.
fn classes_within<'a>(
    alloc: Global,
    rows: &'a KindMap<LabelRow>,
    before: &KindMap<PathClass>,
    kept: &KeptClasses,
    tops: &[&Path],
) -> Result<(Kinds<PathClass>, Vec<(&'a Path, usize)>, Vec<usize>), AllocError>
    requires tops { AreTops (paths_seen tops.now) }
    requires fits { FitOutside rows.now (paths_seen tops.now) before.now }
    requires kept { AreKept rows.now.0 before.now.0 kept.now.outside }
    ensures found { IfOk result (λ new. AreFound rows.now (paths_seen tops.now) (outside (paths_seen tops.now) before.now.1) before.now.0 new.0 (map seen new.1.items)) }
    ensures begun { IfOk result (λ new. SameClassesBut new.2.items before.now.0 new.0) }
{
    let numbers = rows.numbers();
    let kinds = rows.kinds();
    let paths = before.numbers();
    let old = before.kinds();
    let classes = old.share()?;
    let sources = ClassSources { rows: kinds, kept };
    let mut builder = ClassBuilder::new(alloc, classes);
    let mut made = Vec::new(alloc);
    numbers.order_law();
    for top in tops {
        let over = class_over(paths, *top);
        let below = numbers.within(*top);
        let (next, own) = walk(alloc, &sources, builder, over, below)?;
        made.extend_from_slice(&own)?;
        builder = next;
    }
    let (classes, begun) = builder.into_parts();
    Ok((classes, made, begun))
}

fn push_all<'a, 'p>(
    all: &mut Vec<(&'a Path, usize)>,
    files: Within<'a, 'p, usize>,
) -> Result<(), AllocError>
    ensures { OnOk result (map seen all.new.items ≡ map seen all.old.items ++ files.entry) }
{
    let mut rest = files;
    while let Some(entry) = rest.next() {
        all.push(entry)?;
    }
    Ok(())
}

/// Returns the files at or below some tops, in path order.
fn files_within<'a>(
    alloc: Global,
    files: &'a PathMap<usize>,
    tops: &[&Path],
) -> Result<Vec<(&'a Path, usize)>, AllocError>
    requires { AreTops (paths_seen tops.now) }
    ensures { IfOk result (λ all. map seen all.items ≡ inside (paths_seen tops.now) files.now) }
{
    files.order_law();
    let mut all = Vec::new(alloc);
    for top in tops {
        let below = files.within(*top);
        push_all(&mut all, below)?;
    }
    Ok(all)
}

/// Adds a file that was looked up, unless it was found.
fn push_unless<'a>(
    gone: &mut Vec<(&'a Path, usize)>,
    file: (&'a Path, usize),
    found: Option<usize>,
) -> Result<(), AllocError>
    ensures { OnOk result (map seen gone.new.items ≡ (if is_none found then map seen gone.old.items ++ seen file.entry ∷ [] else map seen gone.old.items)) }
{
    match found {
        Some(_) => Ok(()),
        None => {
            gone.push(file)?;
            Ok(())
        }
    }
}

/// Returns those of `files` that are not among `others`; both are in path order.
fn gone_of<'a>(
    alloc: Global,
    others: &PathMap<usize>,
    files: &[(&'a Path, usize)],
) -> Result<Vec<(&'a Path, usize)>, AllocError>
    requires { IsInOrder (map seen files.now) }
    ensures { IfOk result (λ gone. map seen gone.items ≡ filter (λ e. not (has e.0 others.now)) (map seen files.now)) }
{
    let found = others.get_all(alloc, files)?;
    let mut gone = Vec::new(alloc);
    for at in 0..files.len() {
        push_unless(&mut gone, files[at], found[at])?;
    }
    Ok(gone)
}

/// Returns what `classes_within` finds, and the files inside that are gone.
fn found_within<'a>(
    alloc: Global,
    rows: &'a KindMap<LabelRow>,
    before: &'a TaggedMap<PathClass>,
    tops: &[&Path],
) -> Result<
    (
        Kinds<PathClass>,
        Vec<(&'a Path, usize)>,
        Vec<usize>,
        Vec<(&'a Path, usize)>,
    ),
    AllocError,
>
    requires tops { AreTops (paths_seen tops.now) }
    requires fits { FitOutside rows.now (paths_seen tops.now) before.now }
    ensures found { IfOk result (λ new. AreFound rows.now (paths_seen tops.now) (outside (paths_seen tops.now) before.now.1) before.now.0 new.0 (map seen new.1.items)) }
    ensures begun { IfOk result (λ new. SameClassesBut new.2.items before.now.0 new.0) }
    ensures gone { IfOk result (λ new. map seen new.3.items ≡ filter (λ e. not (has e.0 rows.now.1)) (inside (paths_seen tops.now) before.now.1)) }
{
    let classes_before = before.map();
    let paths = classes_before.numbers();
    let files = rows.numbers();
    let inside = files_within(alloc, paths, tops)?;
    let kept = KeptClasses::of(before, &inside)?;
    let (classes, made, begun) = classes_within(alloc, rows, classes_before, &kept, tops)?;
    let gone = gone_of(alloc, files, &inside)?;
    Ok((classes, made, begun, gone))
}

/// Returns the classes of all files, of which those outside of `tops` keep theirs: none of the tops is below another
/// one. Returns also how many of the files inside may have other answers than before.
pub(crate) fn classes_after(
    alloc: Global,
    rows: &BothRows<'_, '_>,
    before: &TaggedMap<PathClass>,
    tops: &[&Path],
) -> Result<(TaggedMap<PathClass>, usize), AllocError>
    requires tops { AreTops (paths_seen tops.now) }
    requires were { AreClasses rows.now.before.now before.now }
    requires changes { ChangesInside rows.now.before.now (paths_seen tops.now) rows.now.after.now }
    ensures classes { IfOk result (λ new. AreClasses rows.now.after.now new.0) }
    ensures least { IfOk result (λ new. AreCounted rows.now.before.now rows.now.after.now new.1) }
    ensures most { IfOk result (λ new. new.1 ≤ length (inside (paths_seen tops.now) rows.now.after.now.1)) }
{
    rows.before.order_law();
    rows.after.order_law();
    let _files = rows.after.numbers();
    let classes_before = before.map();
    let _paths = classes_before.numbers();
    let (classes, made, begun, gone) = found_within(alloc, rows.after, before, tops)?;
    let after = before.put_counted(alloc, classes, &made, &gone, &begun)?;
    let new = after.map();
    let changed = changed_answers(alloc, rows, classes_before, new, &made)?;
    Ok((after, changed))
}
