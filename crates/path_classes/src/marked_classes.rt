//! How many files may have other answers if the rows of all labels may be others: by marks of labels and of classes,
//! and by the counts of classes.

ghost use Rattle.std.specs.Prelude.{◌≡◌, ◌≤◌, ℕ, true, false, length, get_or, IfOk};
ghost use Rattle.std.specs.Option.{option_map_or, unwrap_or};
ghost use Rattle.path_classes.specs.ClassedRows.{AreCounted, verdicts_at};
ghost use Rattle.path_classes.specs.PathClasses.{AreClasses, search_at};

use crate::cells::same_row;
use crate::changed_answers::kept_search;
use crate::label_row::LabelRow;
use crate::path_class::{ClassNumber, PathClass};
use kinds::{KindMap, KindTest, Kinds, TaggedMap};
use std::alloc::{AllocError, Global};

/// Tells whether a label is there before and after, with the same verdicts.
fn has_same_verdicts(old: &Kinds<LabelRow>, rows: &Kinds<LabelRow>, label: usize) -> bool
    ensures { result ≡ true → verdicts_at rows.now label ≡ verdicts_at old.now label }
{
    let Some(old) = old.get(label) else {
        return false;
    };
    let Some(new) = rows.get(label) else {
        return false;
    };
    same_row(old.row.as_slice(), new.row.as_slice())
}

/// Tells for each number of a label whether its verdicts are others.
fn changed_verdicts(
    alloc: Global,
    old: &KindMap<LabelRow>,
    rows: &KindMap<LabelRow>,
) -> Result<Vec<bool>, AllocError>
    ensures { IfOk result (λ marks. (n : ℕ) → get_or marks.items n true ≡ false → verdicts_at rows.now.0 n ≡ verdicts_at old.now.0 n) }
{
    let before = old.kinds();
    let after = rows.kinds();
    let mut marks = Vec::with_capacity(alloc, rows.numbers_len())?;
    for label in 0..rows.numbers_len() {
        marks.push(!has_same_verdicts(before, after, label))?;
    }
    Ok(marks)
}

/// Tells whether the same users can search down to a class before and after.
fn has_same_search(before: &Kinds<PathClass>, after: &Kinds<PathClass>, number: usize) -> bool
    ensures { result ≡ true → search_at after.now number ≡ search_at before.now number }
{
    let Some(old) = kept_search(before, number) else {
        return kept_search(after, number).is_none();
    };
    match kept_search(after, number) {
        Some(new) => new.is_same(old),
        None => false,
    }
}

/// Tells for each number of a class whether other users can search down to it.
fn changed_searches(
    alloc: Global,
    before: &KindMap<PathClass>,
    after: &KindMap<PathClass>,
) -> Result<Vec<bool>, AllocError>
    ensures { IfOk result (λ marks. (n : ℕ) → get_or marks.items n true ≡ false → search_at after.now.0 n ≡ search_at before.now.0 n) }
{
    let old = before.kinds();
    let new = after.kinds();
    let mut marks = Vec::with_capacity(alloc, after.numbers_len())?;
    for number in 0..after.numbers_len() {
        marks.push(!has_same_search(old, new, number))?;
    }
    Ok(marks)
}

/// Tells whether a number is marked, or has no mark.
fn is_marked(marks: &[bool], number: usize) -> bool
    ensures { result ≡ get_or marks.now number true }
{
    match marks.get(number) {
        Some(mark) => *mark,
        None => true,
    }
}

/// Tells whether the class above is marked, if there is one.
fn is_marked_above(marks: &[bool], above: Option<ClassNumber>) -> bool
    ensures { result ≡ option_map_or (λ a. get_or marks.now a true) above false }
{
    match above {
        Some(class) => is_marked(marks, class),
        None => false,
    }
}

/// The test that a class has a marked label, or a marked class above.
#[derive(Drop)]
struct MarkedClasses<'a> {
    labels: &'a [bool],
    searches: &'a [bool],
}

impl KindTest<PathClass> for MarkedClasses<'_> {
    ghost use Rattle.path_classes.specs.FoundClasses as found;

    ghost passes = { λ marked class. found.is_marked marked.labels.now marked.searches.now class };

    fn passes(&self, node: &PathClass) -> bool {
        is_marked(self.labels, node.kind) || is_marked_above(self.searches, node.above)
    }
}

/// Counts the files that have a label with other verdicts, or are right below a class to which others may search, if
/// paths keep the numbers of their labels and classes: all others have the answers that they had.
pub(crate) fn changed_count(
    alloc: Global,
    old: &KindMap<LabelRow>,
    rows: &KindMap<LabelRow>,
    before: &TaggedMap<PathClass>,
    classes: &TaggedMap<PathClass>,
) -> Result<usize, AllocError>
    requires were { AreClasses old.now before.now }
    requires are { AreClasses rows.now classes.now }
    requires labels { rows.now.1 ≡ old.now.1 }
    requires paths { classes.now.1 ≡ before.now.1 }
    ensures least { IfOk result (λ count. AreCounted old.now rows.now count) }
    ensures most { IfOk result (λ count. count ≤ length rows.now.1) }
{
    old.order_law();
    rows.order_law();
    let _before = old.kinds();
    let _after = rows.kinds();
    let _were = before.kinds();
    let _are = classes.kinds();
    let labels = changed_verdicts(alloc, old, rows)?;
    let searches = changed_searches(alloc, before.map(), classes.map())?;
    let marked = MarkedClasses {
        labels: &labels,
        searches: &searches,
    };
    let count = classes.map().count_where(&marked)?;
    Ok(count)
}
