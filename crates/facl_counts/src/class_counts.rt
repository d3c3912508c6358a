//! Files at or below some paths, counted by their classes, and what they add to the sums of users.

ghost use Rattle.std.specs.Prelude.{◌≡◌, ◌++◌, ◌∷◌, [], List, None, Some, true, if◌then◌else◌, map, filter, option_map, IfOk, OnOk};
ghost use Rattle.path_map.specs.Entries.{seen};
ghost use Rattle.facl_counts.specs.BelowText.{is_of_kind};
ghost use Rattle.facl_counts.specs.Counting.{tallied};
ghost use Rattle.facl_answers.specs.BothStates.{front};
ghost use Rattle.facl_counts.specs.Sums.{of_class, after_tally, after_tallies, rows_with, AreCounted, TakesKind, TakesWithin};
ghost use Rattle.facl_answers.specs.BothStates.{Sides};
ghost use Rattle.path_classes.specs.Tallies.{Tallied, SaysAs, class_tally};

use crate::sums::UserSums;
use crate::tallies::{Tallies, Tally};
use acl_edit::{Kind, Node};
use acl_entry::Perm;
use acl_names::Path;
use acl_rights::{ClassFiles, FileClasses};
use acl_tree::FilesIter;
use facl_answers::Sides;
use std::alloc::{AllocError, Global};
use std::collections::BTreeMap;

/// Adds files of a class to the counts. Classes have numbers in the order in which their files come first, so if all files
/// are counted, the count of a class is at its number.
fn count<'a>(tallies: &mut Tallies<'a>, files: ClassFiles<'a>) -> Result<(), AllocError>
    ensures { OnOk result ((others : List (Tallied Sides)) → SaysAs tallies.old others
        → SaysAs tallies.new (others ++ of_class (class_tally files.entry) ∷ [])) }
{
    let key = (None, Some(files.class));
    tallies.add(files.class, key, files.count as u64, files.first)?;
    Ok(())
}

/// Returns the next file with its class, if it is at a path or below it.
pub(crate) fn next_within<'a>(
    alloc: Global,
    classes: &mut FileClasses<'a>,
    top: &Path,
) -> Result<Option<(&'a Path, usize)>, AllocError>
    ensures { IfOk result (λ found. TakesWithin top.now classes.old (option_map seen found) classes.new) }
{
    match classes.path() {
        Some(path) if path.is_within(top) => classes.next(alloc),
        _ => Ok(None),
    }
}

/// Counts the next files by their classes, as long as they are at or below a path.
pub(crate) fn count_files<'a>(
    alloc: Global,
    classes: &mut FileClasses<'a>,
    top: &Path,
) -> Result<Tallies<'a>, AllocError>
    ensures { IfOk result (λ tallies. AreCounted classes.new.0 (front top.now classes.old.1) tallies) }
{
    let mut tallies = Tallies::new(alloc);
    while let Some((first, class)) = next_within(alloc, classes, top)? {
        let file = ClassFiles {
            class,
            count: 1,
            first,
        };
        count(&mut tallies, file)?;
    }
    Ok(tallies)
}

/// Tells whether a file is of a kind.
pub(crate) fn is_of_kind(kind: Kind, node: &Node) -> bool
    ensures { result ≡ is_of_kind (Some kind) node.now }
{
    let is_directory = node.kind == Kind::Directory;
    match kind {
        Kind::Plain => !is_directory,
        Kind::Directory => is_directory,
    }
}

/// Takes the first of some files, and tells whether it is of a kind.
fn takes_kind(files: &mut FilesIter<'_>, kind: Kind) -> bool
    ensures { TakesKind kind files.old result files.new }
{
    match files.next() {
        Some((_, node)) => is_of_kind(kind, node),
        None => false,
    }
}

/// Adds files of a class to the counts, if they count. `places` has the place of the count of each class.
fn count_if<'a>(
    tallies: &mut Tallies<'a>,
    places: &mut BTreeMap<usize, usize>,
    are_counted: bool,
    files: ClassFiles<'a>,
) -> Result<(), AllocError>
    ensures { OnOk result ((others : List (Tallied Sides)) → SaysAs tallies.old others
        → SaysAs tallies.new (others ++ (if are_counted then of_class (class_tally files.entry) ∷ [] else []))) }
{
    if are_counted {
        let expected = places.get(&files.class).copied().unwrap_or(usize::MAX);
        let key = (None, Some(files.class));
        let place = tallies.add(expected, key, files.count as u64, files.first)?;
        if place != expected {
            let _before = places.insert(files.class, place)?;
        }
    }
    Ok(())
}

/// Counts those of the next files by their classes that are of a kind, as long as they are at or below a path. `files`
/// has the same files as `classes`.
pub(crate) fn count_kind<'a>(
    alloc: Global,
    files: &mut FilesIter<'_>,
    classes: &mut FileClasses<'a>,
    kind: Kind,
    top: &Path,
) -> Result<Tallies<'a>, AllocError>
    ensures { IfOk result (λ tallies. AreCounted classes.new.0 (rows_with kind files.old (front top.now classes.old.1)) tallies) }
{
    let mut places = BTreeMap::new(alloc);
    let mut tallies = Tallies::new(alloc);
    while let Some((first, class)) = next_within(alloc, classes, top)? {
        let is_of_it = takes_kind(files, kind);
        let file = ClassFiles {
            class,
            count: 1,
            first,
        };
        count_if(&mut tallies, &mut places, is_of_it, file)?;
    }
    Ok(tallies)
}

/// Joins counts by classes, in which a class may come more than once.
pub(crate) fn count_found<'a>(
    alloc: Global,
    found: &[ClassFiles<'a>],
) -> Result<Tallies<'a>, AllocError>
    ensures { IfOk result (λ tallies. SaysAs tallies (map (λ files. of_class (class_tally files)) found.now)) }
{
    let mut tallies = Tallies::new(alloc);
    for files in found {
        count(&mut tallies, *files)?;
    }
    Ok(tallies)
}

/// Adds files of a class to the sums.
fn add_tally<'a>(
    alloc: Global,
    sums: &mut UserSums<'a>,
    classes: &FileClasses<'a>,
    request: Perm,
    tally: &Tally<'a>,
) -> Result<(), AllocError>
    ensures { OnOk result (sums.new ≡ after_tally classes.now.0 request (tallied tally.now) sums.old) }
{
    let Some(class) = tally.key.1 else {
        return Ok(());
    };
    match classes.row(alloc, class)? {
        Some(row) => sums.add_row(row.as_slice(), request, tally),
        None => Ok(()),
    }
}

/// Adds all counted files to the sums.
pub(crate) fn add_tallies<'a>(
    alloc: Global,
    sums: &mut UserSums<'a>,
    classes: &FileClasses<'a>,
    request: Perm,
    tallies: &[Tally<'a>],
) -> Result<(), AllocError>
    ensures { OnOk result (sums.new ≡ after_tallies classes.now.0 request (map tallied tallies.now) sums.old) }
{
    for tally in tallies {
        add_tally(alloc, sums, classes, request, tally)?;
    }
    Ok(())
}
