//! Iterates over files with the numbers by which their rows are found: those of labels, or along paths those of path
//! classes.

ghost use Rattle.std.specs.Prelude.{◌≡◌, ◌<◌, true, drop, option_map, slice_get, IfOk, IfSome};
ghost use Rattle.std.specs.List.{AllByRecursion};
ghost use Rattle.path_map.specs.Below.{from};
ghost use Rattle.path_map.specs.Entries.{first, seen};
ghost use Rattle.kinds.specs.Kinds.{IsNode};
ghost use Rattle.kinds.specs.Numbered.{entries_in};
ghost use Rattle.path_classes.specs.KindRows.{rows_at};
ghost use Rattle.path_classes.specs.ReachedRows.{rows_along};
ghost use Rattle.path_classes.specs.ClassBuilding.{IsRightAt};
ghost use Rattle.path_classes.specs.ClassCounts.{AreAll};
ghost use Rattle.path_classes.specs.NumberedRows.{label_row, class_row, files_with, HasRow, HaveRows, AreNumbers, row_at, rows_left};

use crate::cells::{Cells, UserPlace};
use crate::classed_rows::ClassedRows;
use crate::label_row::LabelRow;
use crate::left_rows::{class_cell, class_row, label_cell};
use crate::path_class::{ClassNumber, PathClass};
use crate::same_rows::{StateClasses, has_same_cells, is_same_row, kept_search, leaves_same_row};
use acl_entry::Requests;
use acl_names::Path;
use kinds::Kinds;
use path_map::{Entries, PathMap};
use std::alloc::{AllocError, Global};
use std::marker::Model;

/// An iterator over files with their numbers, in path order.
#[derive(Drop)]
pub(crate) struct NumberedFiles<'a> {
    labels: &'a Kinds<LabelRow>,
    classes: Option<&'a Kinds<PathClass>>,
    first: Option<(&'a Path, usize)>,
    rest: Entries<'a, usize>,
}

impl<'a> Model for NumberedFiles<'a> {
    ghost use Rattle.std.specs.Prelude.{option_map};
    ghost use Rattle.path_classes.specs.NumberedRows.{numbers_left, FilesLeft, HaveRows};
    ghost use Rattle.path_classes.specs.Codes.{coded_left};

    ghost Value = { FilesLeft };

    ghost coded = { coded_left };

    ghost view = { λ f. record { rows = f.labels.now; classes = option_map (λ k. k.now) f.classes; left = numbers_left f.first f.rest } };

    ghost invariant = { λ f. HaveRows f.labels.now (option_map (λ k. k.now) f.classes) (numbers_left f.first f.rest) };
}

/// Returns the row of a label, shared.
fn shared_row(labels: &Kinds<LabelRow>, number: usize) -> Result<Cells, AllocError>
    requires { IsNode labels.now number }
    ensures { IfOk result (λ row. row ≡ label_row labels.now number) }
{
    labels.node(number).row.share()
}

/// Returns what a path class leaves of the row of its label: shared with that row, if all of it is left.
fn left_or_shared(
    alloc: Global,
    labels: &Kinds<LabelRow>,
    classes: &Kinds<PathClass>,
    number: usize,
) -> Result<Cells, AllocError>
    requires { IsRightAt labels.now classes.now number }
    ensures { IfOk result (λ row. row ≡ class_row labels.now classes.now number) }
{
    let left = class_row(alloc, labels, classes, number)?;
    let whole = labels.get(classes.node(number).kind);
    Cells::new_or_shared(alloc, left, whole.map(|node| &node.row))
}

impl<'a> NumberedFiles<'a> {
    fn new(
        labels: &'a Kinds<LabelRow>,
        classes: Option<&'a Kinds<PathClass>>,
        files: Entries<'a, usize>,
    ) -> NumberedFiles<'a>
        requires { HaveRows labels.now (option_map (λ k. k.now) classes) files }
        ensures { result ≡ record { rows = labels.now; classes = option_map (λ k. k.now) classes.entry; left = files.entry } }
    {
        let mut rest = files;
        let first = rest.next();
        NumberedFiles {
            labels,
            classes,
            first,
            rest,
        }
    }

    /// Returns the current file, with its number.
    pub fn first(&self) -> Option<(&'a Path, usize)>
        ensures first { option_map seen result ≡ first self.now.left }
        ensures row { IfSome result (λ e. HasRow self.now.rows self.now.classes e.1) }
    {
        self.first
    }

    /// Returns the path of the current file.
    pub fn path(&self) -> Option<&'a Path>
        ensures { option_map (λ path. path.now) result ≡ option_map (λ row. row.0) (first (rows_left self.now)) }
    {
        match self.first {
            Some((path, _)) => Some(path),
            None => None,
        }
    }

    /// Goes on to the next file.
    pub fn advance(&mut self)
        ensures { self.new ≡ record self.old { left = drop 1 self.old.left } }
    {
        if self.first.is_some() {
            self.first = self.rest.next();
        }
    }

    /// Returns the number of the label of a number's files.
    pub fn label(&self, number: usize) -> usize {
        let Some(classes) = self.classes else {
            return number;
        };
        match classes.get(number) {
            Some(class) => class.kind,
            None => number,
        }
    }

    /// Returns the path class of the nearest recorded directory above a number's files, if the numbers are those of
    /// path classes.
    pub fn above(&self, number: usize) -> Option<usize> {
        self.classes?.get(number)?.above
    }

    /// Tells whether the numbers are those of path classes.
    pub fn are_classes(&self) -> bool {
        self.classes.is_some()
    }

    /// Returns a hash of who gets through a path class.
    pub fn searchers_hash(&self, above: ClassNumber) -> u64 {
        let Some(classes) = self.classes else {
            return 0;
        };
        match kept_search(classes, Some(above)) {
            Some(searchers) => searchers.hash(),
            None => 0,
        }
    }

    /// Tells whether two numbers have the same row, as far as that is seen without the rows.
    pub fn is_same_row(&self, number: usize, other: usize) -> bool
        ensures { result ≡ true → row_at self.now number ≡ row_at self.now other }
    {
        match self.classes {
            Some(classes) => is_same_row(classes, number, other),
            None => number == other,
        }
    }

    /// Tells whether a number of these files has the row that a number of others has, as far as that is seen without
    /// the rows.
    pub fn has_row_of(&self, number: usize, others: &NumberedFiles<'_>, other: usize) -> bool
        ensures { result ≡ true → row_at self.now number ≡ row_at others.now other }
    {
        match self.classes {
            Some(classes) => match others.classes {
                Some(other_classes) => {
                    let state = StateClasses {
                        labels: self.labels,
                        classes,
                    };
                    let others = StateClasses {
                        labels: others.labels,
                        classes: other_classes,
                    };
                    leaves_same_row(&state, number, &others, other)
                }
                None => false,
            },
            None => {
                others.classes.is_none()
                    && has_same_cells(self.labels, number, others.labels, other)
            }
        }
    }

    /// Returns how many of all files have a number.
    pub fn count(&self, number: usize) -> usize
        ensures { result ≡ files_with self.now number }
    {
        match self.classes {
            Some(classes) => classes.count(number),
            None => self.labels.count(number),
        }
    }

    /// Returns the verdict on a user in the row of a number, if both are there. Makes no row.
    pub fn cell(&self, number: usize, user: UserPlace) -> Option<Requests>
        ensures { result ≡ slice_get (row_at self.now number) user }
    {
        match self.classes {
            Some(classes) => class_cell(self.labels, classes, number, user),
            None => label_cell(self.labels, number, user),
        }
    }

    /// Returns the row of a number: shared with that of a label, if both are the same.
    pub fn row(&self, alloc: Global, number: usize) -> Result<Cells, AllocError>
        requires { HasRow self.now.rows self.now.classes number }
        ensures { IfOk result (λ row. row ≡ row_at self.now number) }
    {
        match self.classes {
            Some(classes) => left_or_shared(alloc, self.labels, classes, number),
            None => shared_row(self.labels, number),
        }
    }
}

impl ClassedRows {
    /// Returns the numbers by which files' rows are found, alone or along paths; the path classes, if the numbers are
    /// theirs; and a number above all of these.
    fn file_numbers(&self, along: bool) -> (&PathMap<usize>, Option<&Kinds<PathClass>>, usize)
        ensures numbers { AreNumbers along self.now (option_map (λ k. k.now) result.1) result.0.now }
        ensures end { AllByRecursion (λ e. e.1 < result.2) result.0.now }
    {
        let rows = self.rows();
        rows.order_law();
        let labels = rows.numbers();
        if !along {
            return (labels, None, rows.map().numbers_len());
        }
        let classes = self.classes();
        let end = classes.map().numbers_len();
        (classes.numbers(), Some(classes.kinds()), end)
    }

    /// Iterates over all files with their numbers.
    pub(crate) fn numbered_files(&self, along: bool) -> NumberedFiles<'_>
        ensures { rows_left result ≡ rows_along along (rows_at (entries_in self.now)) }
    {
        let (files, _end) = self.all_numbered(along);
        files
    }

    /// Iterates over all files with their numbers, and returns a number above all of these.
    pub(crate) fn all_numbered(&self, along: bool) -> (NumberedFiles<'_>, usize)
        ensures rows { rows_left result.0 ≡ rows_along along (rows_at (entries_in self.now)) }
        ensures all { AreAll result.0 }
        ensures end { AllByRecursion (λ e. e.1 < result.1) result.0.left }
    {
        let (numbers, classes, end) = self.file_numbers(along);
        let files = NumberedFiles::new(self.rows().kinds(), classes, numbers.iter());
        (files, end)
    }

    /// Iterates over the files from a path on, with their numbers.
    pub(crate) fn numbered_files_from(&self, along: bool, top: &Path) -> NumberedFiles<'_>
        ensures { rows_left result ≡ from top.now (rows_along along (rows_at (entries_in self.now))) }
    {
        let (numbers, classes, _end) = self.file_numbers(along);
        NumberedFiles::new(self.rows().kinds(), classes, numbers.from(top))
    }
}
