//! Walks over the files of two states at once and finds their classes in both.

ghost use Rattle.std.specs.Prelude.{◌≡◌, true, Some, option_map, IfOk};
ghost use Rattle.std.specs.declared.cmp.Ordering.TheVariants as orders;
ghost use Rattle.path_map.specs.Below.{from, within};
ghost use Rattle.path_map.specs.Entries.{IsInOrder, seen};
ghost use Rattle.acl_rights.specs.Verdicts.{rows_granted};
ghost use Rattle.facl_answers.specs.BothStates.{TakesNext, TakesNextWithin, both_of, front, next_path_of, path_order, row_of_class, rows_in_both, rows_of_both};

use crate::two_paths::path_order;
use acl_names::Path;
use acl_rights::{Cells, FileClasses, IndexedState, Judge, Verdicts};
use std::alloc::{AllocError, Global};
use std::cmp::Ordering;

/// Returns the row of a class, if there is one.
fn row_of_class(
    alloc: Global,
    classes: &FileClasses<'_>,
    class: Option<usize>,
) -> Result<Option<Cells>, AllocError>
    ensures { IfOk result (λ row. row ≡ row_of_class classes.now.0 class) }
{
    match class {
        Some(class) => classes.row(alloc, class),
        None => Ok(None),
    }
}

/// Iterates over the files of a state from a path on, by classes.
pub(crate) fn classes_from<'a, J: Judge>(
    alloc: Global,
    verdicts: &Verdicts<'a, J>,
    top: &Path,
) -> FileClasses<'a>
    ensures all { result.1 ≡ from top.now (rows_granted J.verdict_of verdicts.now.along verdicts.now.state.now) }
    ensures order { IsInOrder result.1 }
    ensures tree { IsInOrder verdicts.now.state.now.tree.files }
{
    verdicts.state.state().tree().soundness_law();
    verdicts.classes_from(alloc, top)
}

/// A number before and one after: of classes of files, or of granted requests. `None` on the side that lacks the file
/// or the user.
pub type Sides = (Option<usize>, Option<usize>);

/// An iterator over the files of two states in path order, and the classes so far.
#[derive(Drop)]
pub struct BothClasses<'a> {
    pub before: FileClasses<'a>,
    pub after: FileClasses<'a>,
}

impl<'a> BothClasses<'a> {
    /// Iterates over the files of two states from a path on.
    pub fn of_states<J: Judge>(
        alloc: Global,
        loaded: &'a IndexedState<J>,
        verdicts: &Verdicts<'a, J>,
        top: &Path,
    ) -> BothClasses<'a>
        ensures before { IsInOrder result.before.1 }
        ensures after { IsInOrder result.after.1 }
        ensures files { front top.now (rows_of_both result.before.1 result.after.1)
            ≡ within top.now (rows_in_both J.verdict_of verdicts.now.along loaded.now verdicts.now.state.now) }
    {
        let verdicts_before = loaded.verdicts(verdicts.along);
        let before = classes_from(alloc, &verdicts_before, top);
        let after = classes_from(alloc, verdicts, top);
        BothClasses { before, after }
    }

    fn next_gone(&mut self, alloc: Global) -> Result<Option<(&'a Path, Sides)>, AllocError>
        requires before { IsInOrder self.old.before.1 }
        requires after { IsInOrder self.old.after.1 }
        requires is { path_order (next_path_of self.old.before) (next_path_of self.old.after) ≡ Some orders.Less }
        ensures { IfOk result (λ found. TakesNext (both_of self.old) (option_map seen found) (both_of self.new)) }
    {
        match self.before.next(alloc)? {
            Some((path, class)) => Ok(Some((path, (Some(class), None)))),
            None => Ok(None),
        }
    }

    fn next_new(&mut self, alloc: Global) -> Result<Option<(&'a Path, Sides)>, AllocError>
        requires before { IsInOrder self.old.before.1 }
        requires after { IsInOrder self.old.after.1 }
        requires is { path_order (next_path_of self.old.before) (next_path_of self.old.after) ≡ Some orders.Greater }
        ensures { IfOk result (λ found. TakesNext (both_of self.old) (option_map seen found) (both_of self.new)) }
    {
        match self.after.next(alloc)? {
            Some((path, class)) => Ok(Some((path, (None, Some(class))))),
            None => Ok(None),
        }
    }

    /// Returns the next file, which is in both states.
    fn next_kept(&mut self, alloc: Global) -> Result<Option<(&'a Path, Sides)>, AllocError>
        requires before { IsInOrder self.old.before.1 }
        requires after { IsInOrder self.old.after.1 }
        requires is { path_order (next_path_of self.old.before) (next_path_of self.old.after) ≡ Some orders.Equal }
        ensures { IfOk result (λ found. TakesNext (both_of self.old) (option_map seen found) (both_of self.new)) }
    {
        let old = self.before.next(alloc)?;
        let new = self.after.next(alloc)?;
        let Some((_, old)) = old else {
            return Ok(None);
        };
        match new {
            Some((path, new)) => Ok(Some((path, (Some(old), Some(new))))),
            None => Ok(None),
        }
    }

    /// Returns the next file of either state in path order, with its classes in both.
    fn next(&mut self, alloc: Global) -> Result<Option<(&'a Path, Sides)>, AllocError>
        requires before { IsInOrder self.old.before.1 }
        requires after { IsInOrder self.old.after.1 }
        ensures { IfOk result (λ found. TakesNext (both_of self.old) (option_map seen found) (both_of self.new)) }
    {
        match path_order(self.before.path(), self.after.path()) {
            Some(Ordering::Less) => self.next_gone(alloc),
            Some(Ordering::Equal) => self.next_kept(alloc),
            Some(Ordering::Greater) => self.next_new(alloc),
            None => Ok(None),
        }
    }

    /// Tells whether files of a class before and of one after have the same row, as far as that is seen without the
    /// rows.
    pub fn keeps_row(&self, classes: Sides) -> bool
        ensures { result ≡ true → row_of_class self.now.before.0 classes.0 ≡ row_of_class self.now.after.0 classes.1 }
    {
        match classes.0 {
            Some(before) => match classes.1 {
                Some(after) => self.before.has_row_of(before, &self.after, after),
                None => false,
            },
            None => false,
        }
    }

    /// Returns the row of a class before, if there is one.
    pub fn row_before(
        &self,
        alloc: Global,
        class: Option<usize>,
    ) -> Result<Option<Cells>, AllocError>
        ensures { IfOk result (λ row. row ≡ row_of_class self.now.before.0 class) }
    {
        row_of_class(alloc, &self.before, class)
    }

    /// Returns the row of a class after, if there is one.
    pub fn row_after(
        &self,
        alloc: Global,
        class: Option<usize>,
    ) -> Result<Option<Cells>, AllocError>
        ensures { IfOk result (λ row. row ≡ row_of_class self.now.after.0 class) }
    {
        row_of_class(alloc, &self.after, class)
    }

    /// Returns the next file of either state, if it is at a path or below it. After `None` the walk is over, since a
    /// file that is not below may have been skipped.
    pub fn next_within(
        &mut self,
        alloc: Global,
        top: &Path,
    ) -> Result<Option<(&'a Path, Sides)>, AllocError>
        requires before { IsInOrder self.old.before.1 }
        requires after { IsInOrder self.old.after.1 }
        ensures { IfOk result (λ found. TakesNextWithin top.now (both_of self.old) (option_map seen found) (both_of self.new)) }
    {
        let Some((path, key)) = self.next(alloc)? else {
            return Ok(None);
        };
        if path.is_within(top) {
            Ok(Some((path, key)))
        } else {
            Ok(None)
        }
    }
}
