//! Rows of labels after many files changed: labels may keep their numbers, if files that had one label have one label
//! again.

ghost use Rattle.std.specs.Prelude.{◌≡◌, ◌<◌, true, None, Some, get_or, slice_set, length, option_map, IfOk, IfSome};
ghost use Rattle.std.specs.Option.{option_copied};
ghost use Rattle.kinds.specs.Numbered.{entries_in};
ghost use Rattle.kinds.specs.Placed.{placed};
ghost use Rattle.kinds.specs.Given.{shared_nodes};
ghost use Rattle.acl_rights.specs.KindRows.{AsManyAreSame};
ghost use Rattle.acl_rights.specs.KeptLabels.{row_by, rows_by, IsSameRow, IsRowAt, HaveRows, Keeps};

use crate::changed_rows::is_same_label;
use acl_edit::Node;
use kinds::KindMap;
use path_classes::{LabelRow, same_row};
use std::alloc::{AllocError, Global};
use std::rc::Rc;

/// Tells whether two rows and their labels are the same.
fn is_same(one: &LabelRow, other: &LabelRow) -> bool
    ensures { result ≡ true → one.now ≡ other.now }
{
    is_same_label(&one.label, &other.label) && same_row(one.row.as_slice(), other.row.as_slice())
}

/// Returns the row at a place, if one is there.
fn row_at(rows: &[Option<Rc<LabelRow>>], at: usize) -> Option<&LabelRow>
    ensures { option_copied result ≡ get_or (shared_nodes rows.now) at None }
{
    match rows.get(at) {
        Some(Some(row)) => Some(row),
        _ => None,
    }
}

/// Returns the number at a place, if one is there.
fn number_at(numbers: &[Option<usize>], at: usize) -> Option<usize>
    ensures { result ≡ get_or numbers.now at None }
{
    match numbers.get(at) {
        Some(number) => *number,
        None => None,
    }
}

fn set_number(numbers: &mut Vec<Option<usize>>, at: usize, number: usize)
    requires { at < length numbers.old.items }
    ensures { numbers.new.items ≡ slice_set numbers.old.items at (Some number) }
{
    numbers[at] = Some(number);
}

/// Tells whether two numbers of a tree have the same row.
fn has_same_row(rows: &[Option<Rc<LabelRow>>], number: usize, other: usize) -> bool
    ensures { result ≡ true → IsSameRow (shared_nodes rows.now) number other }
{
    let Some(row) = row_at(rows, number) else {
        return false;
    };
    if number == other {
        return true;
    }
    match row_at(rows, other) {
        Some(same) => is_same(row, same),
        None => false,
    }
}

/// Keeps the number of a label's first file. Tells whether a file of the label has the same row as that one.
fn gets_row(
    numbers: &mut Vec<Option<usize>>,
    rows: &[Option<Rc<LabelRow>>],
    label: usize,
    number: usize,
) -> bool
    ensures long { length numbers.new.items ≡ length numbers.old.items }
    ensures kept { Keeps numbers.old.items numbers.new.items }
    ensures row { result ≡ true → IsRowAt (shared_nodes rows.now) numbers.new.items label number }
{
    if label >= numbers.len() {
        return false;
    }
    match number_at(numbers, label) {
        Some(first) => has_same_row(rows, first, number),
        None => {
            set_number(numbers, label, number);
            has_same_row(rows, number, number)
        }
    }
}

/// Returns for each number of a label the number that its first file has in a tree, which has as many files in the
/// same order: `rows` has a row for each number of the tree. `None` if two files of a label have different rows, or
/// the files are not as many. No path is read.
fn kept_numbers(
    alloc: Global,
    labels: &KindMap<LabelRow>,
    files: &KindMap<Node>,
    rows: &[Option<Rc<LabelRow>>],
) -> Result<Option<Vec<Option<usize>>>, AllocError>
    ensures long { IfOk result (λ some. IfSome some (λ numbers. length numbers.items ≡ length labels.now.0.0)) }
    ensures rows { IfOk result (λ some. IfSome some (λ numbers. HaveRows (shared_nodes rows.now) numbers.items labels.now.1 files.now.1)) }
{
    let mut numbers = vec![in alloc; None; labels.numbers_len()]?;
    let mut labelled = labels.numbers().iter();
    let mut rest = files.numbers().iter();
    while let Some(path) = labelled.next() {
        let Some(file) = rest.next() else {
            return Ok(None);
        };
        if !gets_row(&mut numbers, rows, path.1, file.1) {
            return Ok(None);
        }
    }
    match rest.next() {
        Some(_file) => Ok(None),
        None => Ok(Some(numbers)),
    }
}

/// Shares the row of a number, if there is a number and it has one.
fn shared_row(
    rows: &[Option<Rc<LabelRow>>],
    number: Option<usize>,
) -> Result<Option<Rc<LabelRow>>, AllocError>
    ensures { IfOk result (λ row. option_map (λ r. r.value) row ≡ row_by (shared_nodes rows.now) number) }
{
    let Some(number) = number else {
        return Ok(None);
    };
    match rows.get(number) {
        Some(Some(row)) => Ok(Some(row.clone()?)),
        _ => Ok(None),
    }
}

/// Returns for each label the row that it gets.
fn rows_of_labels(
    alloc: Global,
    numbers: &[Option<usize>],
    rows: &[Option<Rc<LabelRow>>],
) -> Result<Vec<Option<Rc<LabelRow>>>, AllocError>
    ensures { IfOk result (λ own. shared_nodes own.items ≡ rows_by (shared_nodes rows.now) numbers.now) }
{
    let mut own = Vec::with_capacity(alloc, numbers.len())?;
    for number in numbers {
        let row = shared_row(rows, *number)?;
        own.push(row)?;
    }
    Ok(own)
}

/// Returns the labels of files with other rows, by the numbers that they have: `rows` has a row for each number of
/// the tree of these files, and as `same` says, they are the same files if they are as many. `None` if `same` does
/// not say so, and if two files that had one label have different ones now.
pub(crate) fn kept_labels(
    alloc: Global,
    labels: &KindMap<LabelRow>,
    files: &KindMap<Node>,
    rows: &[Option<Rc<LabelRow>>],
    same: bool,
) -> Result<Option<KindMap<LabelRow>>, AllocError>
    requires { same ≡ true → AsManyAreSame (entries_in labels.now) (entries_in files.now) }
    ensures rows { IfOk result (λ new. IfSome new (λ new. entries_in new ≡ placed (shared_nodes rows.now) files.now.1)) }
    ensures paths { IfOk result (λ new. IfSome new (λ new. new.1 ≡ labels.now.1)) }
{
    if !same {
        return Ok(None);
    }
    let _labels = labels.kinds();
    let _files = files.kinds();
    let some = kept_numbers(alloc, labels, files, rows)?;
    let Some(numbers) = some else {
        return Ok(None);
    };
    let own = rows_of_labels(alloc, &numbers, rows)?;
    let new = labels.with_nodes(alloc, &own)?;
    Ok(Some(new))
}
