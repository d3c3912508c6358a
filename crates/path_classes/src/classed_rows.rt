//! Rows of labels by kinds with the path classes of their files.

ghost use Rattle.std.specs.Prelude.{◌≡◌, ◌≤◌, ◌++◌, [], length, map, IfOk, List};
ghost use Rattle.std.specs.List.Sorted.{IsStrictlyIncreasing};
ghost use Rattle.acl_names.specs.Paths.{PathOf};
ghost use Rattle.path_map.specs.Entries.{IsInOrder, seen};
ghost use Rattle.kinds.specs.Numbered.{entries_in};
ghost use Rattle.path_classes.specs.ClassesWithin.{inside};
ghost use Rattle.path_classes.specs.ClassedRows.{AreCounted, PutsRows, paths_of, AllInside, ChangesRows};
ghost use Rattle.path_classes.specs.PathClasses.{AreClasses};

use crate::changed_files::classes_with_files;
use crate::label_row::{BothRows, LabelRow};
use crate::marked_classes::changed_count;
use crate::path_class::PathClass;
use crate::path_classes::classes_of;
use crate::rerowed_classes::{all_rerowed_classes, rerowed_classes};
use acl_names::Path;
use kinds::TaggedMap;
use std::alloc::{AllocError, Global};
use std::marker::Model;

/// The rows of files, and path classes of these files that fit the rows. To a contract it is the rows.
#[derive(Drop)]
pub struct ClassedRows {
    rows: TaggedMap<LabelRow>,
    classes: TaggedMap<PathClass>,
}

impl Model for ClassedRows {
    ghost use Rattle.kinds.specs.Numbered.{Kept};
    ghost use Rattle.path_classes.specs.declared.label_row.LabelRow.{LabelRow as RowOfLabel};
    ghost use Rattle.path_classes.specs.PathClasses.{AreClasses};
    ghost use Rattle.path_classes.specs.Codes.{coded_kept};

    ghost Value = { Kept RowOfLabel };

    ghost coded = { coded_kept };

    ghost view = { λ c. c.rows };

    ghost invariant = { λ c. AreClasses c.rows c.classes };
}

impl ClassedRows {
    /// Returns the rows of no files.
    pub fn none(alloc: Global) -> Result<ClassedRows, AllocError>
        ensures { IfOk result (λ none. entries_in none ≡ []) }
    {
        let rows = TaggedMap::new(alloc)?;
        let none = ClassedRows::of(alloc, rows)?;
        Ok(none)
    }

    /// Finds the classes of the files of these rows, in one pass.
    pub fn of(alloc: Global, rows: TaggedMap<LabelRow>) -> Result<ClassedRows, AllocError>
        ensures { IfOk result (λ new. new ≡ rows) }
    {
        let classes = classes_of(alloc, rows.map())?;
        let classes = TaggedMap::of(alloc, classes)?;
        Ok(ClassedRows { rows, classes })
    }

    /// Copies the rows; both share rows and classes.
    pub fn share(&self) -> Result<ClassedRows, AllocError>
        ensures { IfOk result (λ same. same ≡ self.now) }
    {
        let rows = self.rows.share()?;
        let classes = self.classes.share()?;
        Ok(ClassedRows { rows, classes })
    }

    /// Returns the rows.
    pub fn rows(&self) -> &TaggedMap<LabelRow>
        ensures { result.now ≡ self.now }
    {
        &self.rows
    }

    /// Returns the path classes of the files.
    pub(crate) fn classes(&self) -> &TaggedMap<PathClass>
        ensures { AreClasses self.now result.now }
    {
        &self.classes
    }

    /// Replaces the rows of the same files, whose labels keep their numbers: only those of `labels`, which rise, may
    /// have other verdicts. Returns also how many files' answers along their paths may be others: at least those that
    /// are.
    pub fn with_rows(
        &self,
        alloc: Global,
        rows: TaggedMap<LabelRow>,
        labels: &[usize],
    ) -> Result<(ClassedRows, usize), AllocError>
        requires rising { IsStrictlyIncreasing labels.now }
        requires changes { ChangesRows self.now labels.now rows }
        ensures rows { IfOk result (λ new. new.0 ≡ rows) }
        ensures least { IfOk result (λ new. AreCounted self.now rows new.1) }
        ensures most { IfOk result (λ new. (tops : List PathOf) → AllInside labels.now tops rows.1 → new.1 ≤ length (inside tops rows.1)) }
    {
        let old = self.rows();
        let before = self.classes();
        let new = rerowed_classes(alloc, old.map(), rows.map(), before, labels)?;
        let (classes, count) = new;
        Ok((ClassedRows { rows, classes }, count))
    }

    /// Replaces the rows of the same files, whose labels keep their numbers.
    pub fn with_all_rows(
        &self,
        alloc: Global,
        rows: TaggedMap<LabelRow>,
    ) -> Result<ClassedRows, AllocError>
        requires { rows.1 ≡ self.now.1 }
        ensures { IfOk result (λ new. new ≡ rows) }
    {
        let old = self.rows();
        let before = self.classes();
        let classes = all_rerowed_classes(alloc, old.map(), rows.map(), before)?;
        Ok(ClassedRows { rows, classes })
    }

    /// Returns the rows of `with_all_rows`, and how many files' answers along their paths may be others: at least those
    /// that are.
    pub fn with_counted_rows(
        &self,
        alloc: Global,
        rows: TaggedMap<LabelRow>,
    ) -> Result<(ClassedRows, usize), AllocError>
        requires { rows.1 ≡ self.now.1 }
        ensures rows { IfOk result (λ new. new.0 ≡ rows) }
        ensures least { IfOk result (λ new. AreCounted self.now rows new.1) }
        ensures most { IfOk result (λ new. new.1 ≤ length rows.1) }
    {
        let old = self.rows();
        let before = self.classes();
        let classes = all_rerowed_classes(alloc, old.map(), rows.map(), before)?;
        let count = changed_count(alloc, old.map(), rows.map(), before, &classes)?;
        Ok((ClassedRows { rows, classes }, count))
    }

    /// Returns the rows after some files got other labels, or are new, and others are gone: the paths of both are in
    /// path order. All other files keep their labels' numbers. Returns also how many files' answers along their paths
    /// may be others: at least those that are.
    pub fn with_files<V, W>(
        &self,
        alloc: Global,
        rows: TaggedMap<LabelRow>,
        changed: &[(&Path, V)],
        gone: &[(&Path, W)],
    ) -> Result<(ClassedRows, usize), AllocError>
        requires changed { IsInOrder (map seen changed.now) }
        requires gone { IsInOrder (map seen gone.now) }
        requires puts { PutsRows self.now (map seen changed.now) (map seen gone.now) rows }
        ensures rows { IfOk result (λ new. new.0 ≡ rows) }
        ensures least { IfOk result (λ new. AreCounted self.now rows new.1) }
        ensures most { IfOk result (λ new. new.1 ≤ length (inside (paths_of (map seen changed.now) ++ paths_of (map seen gone.now)) rows.1)) }
    {
        let old = self.rows();
        let before = self.classes();
        let both = BothRows {
            before: old.map(),
            after: rows.map(),
        };
        let new = classes_with_files(alloc, &both, before, changed, gone)?;
        let (classes, count) = new;
        Ok((ClassedRows { rows, classes }, count))
    }
}
