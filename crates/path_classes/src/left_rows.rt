//! What is left of a row for those who can search all directories above, and of the verdict on one user.

ghost use Rattle.std.specs.Prelude.{◌≡◌, Some, IfOk, if◌then◌else◌, slice_get};
ghost use Rattle.std.specs.Option.{option_copied};
ghost use Rattle.path_classes.specs.ClassBuilding.{IsRightAt};
ghost use Rattle.path_classes.specs.NumberedRows.{left_from, left_to, label_row, class_row};
ghost use Rattle.path_classes.specs.PathClasses.{search_above};
ghost use Rattle.path_classes.specs.Searching.{gets_through};

use crate::cells::UserPlace;
use crate::class_builder::search_of;
use crate::label_row::LabelRow;
use crate::path_class::{ClassNumber, PathClass};
use crate::searchers::Searchers;
use acl_entry::Requests;
use kinds::Kinds;
use std::alloc::{AllocError, Global};

/// Returns the verdict, or nothing if the user does not get through.
fn where_through(through: bool, cell: Requests) -> Requests
    ensures { result ≡ (if through then cell else 0) }
{
    if through { cell } else { Requests::none() }
}

/// Clears the verdicts of users who do not get through. The loop always writes, so that it writes many at a time.
fn leave_to(through: &[bool], cells: &mut [Requests])
    ensures { cells.new ≡ left_to through.now cells.old }
{
    let users = through.len().min(cells.len());
    for at in 0..users {
        cells[at] = where_through(through[at], cells[at]);
    }
}

/// Copies the verdicts of those who get through from above, and nothing for others, who may have no place in `above`.
fn left_row_below(
    alloc: Global,
    above: &Searchers,
    cells: &[Requests],
) -> Result<Vec<Requests>, AllocError>
    ensures { IfOk result (λ new. new.items ≡ left_from (Some above.now) 0 cells.now) }
{
    let through = above.as_slice();
    let users = through.len().min(cells.len());
    let mut new = Vec::new(alloc);
    new.extend_from_slice(&cells[..users])?;
    leave_to(through, new.as_mut_slice());
    new.resize(cells.len(), Requests::none())?;
    Ok(new)
}

/// Copies the verdicts of those who get through from above, and nothing for others.
fn left_row(
    alloc: Global,
    above: Option<&Searchers>,
    cells: &[Requests],
) -> Result<Vec<Requests>, AllocError>
    ensures { IfOk result (λ new. new.items ≡ left_from (option_copied above.entry) 0 cells.now) }
{
    if let Some(above) = above {
        return left_row_below(alloc, above, cells);
    }
    let mut new = Vec::new(alloc);
    new.extend_from_slice(cells)?;
    Ok(new)
}

/// Returns what a path class leaves of the row of its label.
pub(crate) fn class_row(
    alloc: Global,
    labels: &Kinds<LabelRow>,
    classes: &Kinds<PathClass>,
    number: usize,
) -> Result<Vec<Requests>, AllocError>
    requires { IsRightAt labels.now classes.now number }
    ensures { IfOk result (λ row. row.items ≡ class_row labels.now classes.now number) }
{
    let class = classes.node(number);
    let row = &labels.node(class.kind).row;
    let above = search_of(classes, class.above);
    left_row(alloc, above, row.as_slice())
}

/// Tells whether a user gets through the class above, if there is one: nobody does if it does not keep who can
/// search.
pub(crate) fn passes_above(
    classes: &Kinds<PathClass>,
    above: Option<ClassNumber>,
    user: UserPlace,
) -> bool
    ensures { result ≡ gets_through (search_above classes.now above) user }
{
    let Some(number) = above else {
        return true;
    };
    match classes.get(number) {
        Some(class) => match &class.search {
            Some(search) => search.has(user),
            None => false,
        },
        None => false,
    }
}

/// Returns the verdict on a user in the row of a label, if both are there.
pub(crate) fn label_cell(
    labels: &Kinds<LabelRow>,
    number: usize,
    user: UserPlace,
) -> Option<Requests>
    ensures { result ≡ slice_get (label_row labels.now number) user }
{
    match labels.get(number) {
        Some(label) => label.row.get(user),
        None => None,
    }
}

/// Returns what a path class leaves of the verdict on a user in the row of its label, if both are there. Makes no
/// row.
pub(crate) fn class_cell(
    labels: &Kinds<LabelRow>,
    classes: &Kinds<PathClass>,
    number: usize,
    user: UserPlace,
) -> Option<Requests>
    ensures { result ≡ slice_get (class_row labels.now classes.now number) user }
{
    let class = classes.get(number)?;
    let cell = label_cell(labels, class.kind, user)?;
    let through = passes_above(classes, class.above, user);
    Some(where_through(through, cell))
}
