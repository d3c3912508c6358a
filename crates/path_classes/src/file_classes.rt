//! Iterates over files by classes: all files of a class have the same row of verdicts, alone, or along paths if each
//! directory above has to grant search.

ghost use Rattle.std.specs.Prelude.{◌≡◌, [], true, slice_get, option_map, option_and_then, IfOk, OnErr};
ghost use Rattle.path_map.specs.Below.{from};
ghost use Rattle.path_map.specs.Entries.{first, seen};
ghost use Rattle.kinds.specs.Numbered.{entries_in};
ghost use Rattle.path_classes.specs.KindRows.{rows_at};
ghost use Rattle.path_classes.specs.ReachedRows.{rows_along};
ghost use Rattle.path_classes.specs.Classes.{KeepRows, TakesFile};

use crate::cells::{Cells, UserPlace};
use crate::classed_rows::ClassedRows;
use crate::met_rows::MetRows;
use crate::numbered_files::NumberedFiles;
use crate::path_class::ClassNumber;
use acl_entry::Requests;
use acl_names::Path;
use std::alloc::{AllocError, Global};
use std::marker::Model;

/// An iterator over files with their classes, in path order. To a contract it is the rows of the classes so far, and
/// the rows of the files that are left. The row of a class is made when it is taken: none is kept.
#[derive(Drop)]
pub struct FileClasses<'a> {
    pub(crate) files: NumberedFiles<'a>,
    pub(crate) met: MetRows,
}

impl<'a> Model for FileClasses<'a> {
    ghost use Rattle.path_classes.specs.Classes.{Classed, coded_classed};
    ghost use Rattle.path_classes.specs.NumberedRows.{rows_met, rows_left, AreMet};

    ghost Value = { Classed };

    ghost coded = { coded_classed };

    ghost view = { λ f. (rows_met f.files f.met.numbers.items, rows_left f.files) };

    ghost invariant = { λ f. AreMet f.files f.met.places.items f.met.numbers.items };
}

impl<'a> FileClasses<'a> {
    /// Returns the next file in path order with its class. After an error the file comes again.
    pub fn next(&mut self, alloc: Global) -> Result<Option<(&'a Path, usize)>, AllocError>
        ensures file { IfOk result (λ found. TakesFile self.old (option_map seen found) self.new) }
        ensures same { OnErr result (self.new.1 ≡ self.old.1) }
        ensures rows { OnErr result (KeepRows self.old.0 self.new.0) }
    {
        let Some((path, number)) = self.files.first() else {
            return Ok(None);
        };
        let class = self.met.place_of(&self.files, number)?;
        self.files.advance();
        Ok(Some((path, class)))
    }

    /// Compares no classes from now on, so that files may be of different classes although these have the same row:
    /// for a question that looks at one verdict of each class.
    pub fn keep_apart(&mut self)
        ensures { self.new ≡ self.old }
    {
        self.met.keep_apart();
    }

    /// Returns the path of the file that `next` would return.
    pub fn path(&self) -> Option<&'a Path>
        ensures { option_map (λ path. path.now) result ≡ option_map (λ row. row.0) (first self.now.1) }
    {
        self.files.path()
    }

    /// Tells whether a class has the row that a class of other files has, as far as that is seen without the rows.
    pub fn has_row_of(&self, class: ClassNumber, others: &FileClasses<'_>, other: usize) -> bool
        ensures { result ≡ true → slice_get self.now.0 class ≡ slice_get others.now.0 other }
    {
        let Some(number) = self.met.number(class) else {
            return false;
        };
        match others.met.number(other) {
            Some(other) => self.files.has_row_of(number, &others.files, other),
            None => false,
        }
    }

    /// Returns what the user at a place may do with the files of a class, if both are there. Makes no row.
    pub fn cell(&self, class: ClassNumber, user: UserPlace) -> Option<Requests>
        ensures { result ≡ option_and_then (λ row. slice_get row user) (slice_get self.now.0 class) }
    {
        match self.met.number(class) {
            Some(number) => self.files.cell(number, user),
            None => None,
        }
    }

    /// Returns the row of a class, if there is one: what each user may do with its files, in the order of the users.
    /// It shares that of a label if nobody is kept out above.
    pub fn row(&self, alloc: Global, class: ClassNumber) -> Result<Option<Cells>, AllocError>
        ensures { IfOk result (λ row. row ≡ slice_get self.now.0 class) }
    {
        match self.met.number(class) {
            Some(number) => Ok(Some(self.files.row(alloc, number)?)),
            None => Ok(None),
        }
    }
}

impl ClassedRows {
    /// Iterates over all files with their classes: by their rows, or by what is left of these if each directory above
    /// has to grant search.
    pub fn file_classes(&self, alloc: Global, along: bool) -> FileClasses<'_>
        ensures { result ≡ ([], rows_along along (rows_at (entries_in self.now))) }
    {
        FileClasses {
            files: self.numbered_files(along),
            met: MetRows::new(alloc),
        }
    }

    /// Iterates over the files from a path on, as [`ClassedRows::file_classes`] does.
    pub fn file_classes_from(&self, alloc: Global, along: bool, top: &Path) -> FileClasses<'_>
        ensures { result ≡ ([], from top.now (rows_along along (rows_at (entries_in self.now)))) }
    {
        FileClasses {
            files: self.numbered_files_from(along, top),
            met: MetRows::new(alloc),
        }
    }
}
