//! Path classes of one label that leave the same of its row, since the same users get through above.

ghost use Rattle.std.specs.Prelude.{◌≡◌, true, Some, IfSome};
ghost use Rattle.kinds.specs.Kinds.{KindsOf};
ghost use Rattle.path_classes.specs.declared.label_row.LabelRow.{LabelRow};
ghost use Rattle.path_classes.specs.PathClasses.{search_above};
ghost use Rattle.path_classes.specs.NumberedRows.{label_row, class_row};

use crate::cells::same_row;
use crate::label_row::LabelRow;
use crate::path_class::{ClassNumber, PathClass};
use crate::searchers::Searchers;
use kinds::Kinds;

/// The labels and the path classes of a state.
#[derive(Clone, Copy)]
pub(crate) struct StateClasses<'l, 'c> {
    pub labels: &'l Kinds<LabelRow>,
    pub classes: &'c Kinds<PathClass>,
}

/// Returns who gets through the class above, if there is one that keeps it.
pub(crate) fn kept_search(
    classes: &Kinds<PathClass>,
    above: Option<ClassNumber>,
) -> Option<&Searchers>
    ensures { IfSome result (λ search. search_above classes.now above ≡ Some search.now) }
{
    match &classes.get(above?)?.search {
        Some(search) => Some(search),
        None => None,
    }
}

/// Tells whether the same users get through the two classes above, if any. Compares the users, not the classes.
fn is_same_search(
    classes: &Kinds<PathClass>,
    above: Option<ClassNumber>,
    others: &Kinds<PathClass>,
    other: Option<usize>,
) -> bool
    ensures { result ≡ true → search_above classes.now above ≡ search_above others.now other }
{
    match kept_search(classes, above) {
        Some(search) => match kept_search(others, other) {
            Some(users) => search.is_same(users),
            None => false,
        },
        None => above.is_none() && other.is_none(),
    }
}

/// Tells whether two classes are of one label, and the same users get through above.
pub(crate) fn is_same_row(classes: &Kinds<PathClass>, number: usize, other: usize) -> bool
    ensures { result ≡ true → (rows : KindsOf LabelRow) → class_row rows classes.now number ≡ class_row rows classes.now other }
{
    match classes.get(number) {
        Some(class) => match classes.get(other) {
            Some(others) => {
                class.kind == others.kind
                    && is_same_search(classes, class.above, classes, others.above)
            }
            None => false,
        },
        None => false,
    }
}

/// Tells whether two labels of two states are there, with the same verdicts.
pub(crate) fn has_same_cells(
    labels: &Kinds<LabelRow>,
    label: usize,
    others: &Kinds<LabelRow>,
    other: usize,
) -> bool
    ensures { result ≡ true → label_row labels.now label ≡ label_row others.now other }
{
    let Some(row) = labels.get(label) else {
        return false;
    };
    let Some(other) = others.get(other) else {
        return false;
    };
    same_row(row.row.as_slice(), other.row.as_slice())
}

/// Tells whether two classes of two states are of labels with the same verdicts, and the same users get through
/// above.
pub(crate) fn leaves_same_row(
    state: &StateClasses<'_, '_>,
    number: usize,
    others: &StateClasses<'_, '_>,
    other: usize,
) -> bool
    ensures { result ≡ true → class_row state.now.labels.now state.now.classes.now number ≡ class_row others.now.labels.now others.now.classes.now other }
{
    let Some(class) = state.classes.get(number) else {
        return false;
    };
    let Some(other) = others.classes.get(other) else {
        return false;
    };
    has_same_cells(state.labels, class.kind, others.labels, other.kind)
        && is_same_search(state.classes, class.above, others.classes, other.above)
}
