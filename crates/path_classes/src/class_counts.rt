//! Counts files by classes: the counts of the classes say how many files have each, so the walk over the files may
//! end as soon as each class was seen.

ghost use Rattle.std.specs.Prelude.{◌≡◌, ◌<◌, ◌≤◌, ◌∷◌, [], ℕ, None, Some, map, slice_get, option_map, IfOk, OnOk, IfSome};
ghost use Rattle.std.specs.List.{AllByRecursion};
ghost use Rattle.kinds.specs.Numbered.{Numbers, entries_in, paths_with};
ghost use Rattle.path_map.specs.Entries.{seen, first};
ghost use Rattle.path_classes.specs.KindRows.{rows_at};
ghost use Rattle.path_classes.specs.ReachedRows.{rows_along};
ghost use Rattle.path_classes.specs.NumberedRows.{rows_left, rows_met, files_with, HasRow, AreMet};
ghost use Rattle.path_classes.specs.ClassCounts.{AreAll, AreMetBelow, AreMeeting, IsNextFile};
ghost use Rattle.path_classes.specs.Tallies.{class_tally, AreTallied};

use crate::classed_rows::ClassedRows;
use crate::file_classes::FileClasses;
use crate::met_rows::MetRows;
use crate::numbered_files::NumberedFiles;
use crate::path_class::ClassNumber;
use acl_names::Path;
use std::alloc::{AllocError, Global};

/// Files of a class, which may have more than one of these.
#[derive(Clone, Copy)]
pub struct ClassFiles<'a> {
    /// The number of the class: the place of its row.
    pub class: ClassNumber,
    /// How many files there are.
    pub count: usize,
    /// The first of them in path order.
    pub first: &'a Path,
}

/// Returns the first number from `number` on that files have and that was not seen; `end` if there is none below it.
fn next_unmet(files: &NumberedFiles<'_>, met: &MetRows, number: usize, end: usize) -> usize
    requires { AreMetBelow files.now met.now.places.items number }
    ensures { AreMetBelow files.now met.now.places.items result }
{
    let mut number = number;
    while number < end && (met.is_met(number) || files.count(number) == 0) {
        number += 1;
    }
    number
}

/// Counts all files that have the number of the current file, if that was not seen yet.
fn meet<'a>(
    files: &NumberedFiles<'a>,
    met: &mut MetRows,
    found: &mut Vec<ClassFiles<'a>>,
    file: (&'a Path, usize),
) -> Result<(), AllocError>
    requires row { HasRow files.now.rows files.now.classes file.1 }
    requires met { AreMet files.now met.old.places.items met.old.numbers.items }
    ensures met { AreMet files.now met.new.places.items met.new.numbers.items }
    ensures below { OnOk result ((end : ℕ) → AreMetBelow files.now met.old.places.items end → AreMetBelow files.now met.new.places.items end) }
    ensures meeting { OnOk result ((all left : Numbers) → files_with files.now file.entry.1 ≡ paths_with file.entry.1 all
        → AreMeeting all (seen file.entry ∷ left) met.old.places.items (map class_tally found.old.items)
        → AreMeeting all left met.new.places.items (map class_tally found.new.items)) }
{
    let (first, number) = file;
    if met.is_met(number) {
        return Ok(());
    }
    let class = met.place_of(files, number)?;
    let count = files.count(number);
    found.push(ClassFiles {
        class,
        count,
        first,
    })?;
    Ok(())
}

/// Returns the current file, as long as a number below `end` was not seen.
fn next_file<'a>(files: &NumberedFiles<'a>, unmet: usize, end: usize) -> Option<(&'a Path, usize)>
    ensures row { IfSome result (λ e. HasRow files.now.rows files.now.classes e.1) }
    ensures next { IsNextFile (option_map seen result) files.now.left unmet end }
{
    if unmet < end { files.first() } else { None }
}

/// Counts all files by their classes. The walk may end as soon as each number below `end` was seen.
fn meet_all<'a>(
    alloc: Global,
    files: &mut NumberedFiles<'a>,
    met: &mut MetRows,
    end: usize,
) -> Result<Vec<ClassFiles<'a>>, AllocError>
    requires all { AreAll files.old }
    requires end { AllByRecursion (λ e. e.1 < end) files.old.left }
    requires none { met.old.places.items ≡ [] }
    requires met { AreMet files.old met.old.places.items met.old.numbers.items }
    ensures met { AreMet files.new met.new.places.items met.new.numbers.items }
    ensures counted { IfOk result (λ found. AreTallied (slice_get (rows_met files.new met.new.numbers.items)) (rows_left files.old) (map class_tally found.items)) }
{
    let mut found = Vec::new(alloc);
    let mut unmet = next_unmet(files, met, 0, end);
    while let Some(file) = next_file(files, unmet, end) {
        meet(files, met, &mut found, file)?;
        unmet = next_unmet(files, met, unmet, end);
        files.advance();
    }
    Ok(found)
}

impl ClassedRows {
    /// Returns all files by their classes: how many files have each, which may be counted in parts, and the first of
    /// them.
    pub fn counted_classes(
        &self,
        alloc: Global,
        along: bool,
    ) -> Result<(FileClasses<'_>, Vec<ClassFiles<'_>>), AllocError>
        ensures { IfOk result (λ found. AreTallied (slice_get found.0.0) (rows_along along (rows_at (entries_in self.now))) (map class_tally found.1.items)) }
    {
        let (all, end) = self.all_numbered(along);
        let mut files = all;
        let mut met = MetRows::new(alloc);
        let found = meet_all(alloc, &mut files, &mut met, end)?;
        Ok((FileClasses { files, met }, found))
    }
}
