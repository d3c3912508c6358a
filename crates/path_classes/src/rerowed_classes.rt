//! The classes of the same paths after the rows of labels changed, and how many files may have other answers by that.

ghost use Rattle.std.specs.Prelude.{◌≡◌, ◌≤◌, ◌++◌, ◌∷◌, ◌&&◌, [], ℕ, List, false, not, length, map, count_by, IfOk, OnOk, if◌then◌else◌};
ghost use Rattle.std.specs.List.Sorted.{IsStrictlyIncreasing};
ghost use Rattle.std.specs.Option.{option_map_or};
ghost use Rattle.acl_names.specs.Paths.{PathOf};
ghost use Rattle.kinds.specs.Given.{used_at};
ghost use Rattle.kinds.specs.Numbered.{entries_in};
ghost use Rattle.path_classes.specs.ClassTags.{below_tag};
ghost use Rattle.path_classes.specs.ClassedRows.{AreCounted, AllInside, ChangesRows};
ghost use Rattle.path_classes.specs.ClassesWithin.{inside};
ghost use Rattle.path_classes.specs.FoundClasses.{is_below_some, is_touched, is_searched};
ghost use Rattle.path_classes.specs.PathClasses.{AreClasses, kind_at};
ghost use Rattle.path_classes.specs.Renewing.{AreSearched, is_one};

use crate::class_tags::below_tag;
use crate::label_row::LabelRow;
use crate::path_class::{ClassNumber, PathClass};
use crate::renewed_searches::{renewed_classes, with_searches};
use crate::searched_once::searched_once;
use crate::tagged_classes::classes_of_labels;
use kinds::{KindMap, Kinds, TaggedMap, rising_numbers};
use std::alloc::{AllocError, Global};

/// Adds the tags of the classes right below those of `above`.
fn push_below_tags(tags: &mut Vec<usize>, above: &[ClassNumber]) -> Result<(), AllocError>
    ensures { OnOk result (tags.new.items ≡ tags.old.items ++ map below_tag above.now) }
{
    for class in above {
        tags.push(below_tag(*class)?)?;
    }
    Ok(())
}

/// Returns the classes of paths right below those of `above`, rising.
fn classes_below_some(
    alloc: Global,
    classes: &TaggedMap<PathClass>,
    above: &[ClassNumber],
) -> Result<Vec<usize>, AllocError>
    ensures { IfOk result (λ below. (n : ℕ) → is_one n below.items ≡ option_map_or (is_below_some above.now) (used_at classes.now.0 n) false) }
{
    let mut tags = Vec::with_capacity(alloc, above.len())?;
    push_below_tags(&mut tags, above)?;
    let numbers = classes.numbers_tagged(alloc, &tags)?;
    Ok(numbers)
}

/// Returns the number of the label of a class; 0 if there is none.
fn kind_of(classes: &Kinds<PathClass>, number: usize) -> usize
    ensures { result ≡ kind_at classes.now number }
{
    match classes.get(number) {
        Some(class) => class.kind,
        None => 0,
    }
}

/// Tells whether the label of a class is one of `labels`, which rise.
fn has_label(classes: &Kinds<PathClass>, labels: &[usize], number: usize) -> bool
    requires { IsStrictlyIncreasing labels.now }
    ensures { result ≡ is_one (kind_at classes.now number) labels.now }
{
    let kind = kind_of(classes, number);
    labels.binary_search(&kind).is_ok()
}

/// Adds a class, unless its label is one of `labels`, which rise.
fn push_unless(
    left: &mut Vec<usize>,
    classes: &Kinds<PathClass>,
    labels: &[usize],
    number: usize,
) -> Result<(), AllocError>
    requires { IsStrictlyIncreasing labels.now }
    ensures { OnOk result (left.new.items ≡ (if is_one (kind_at classes.now number) labels.now then left.old.items else left.old.items ++ number ∷ [])) }
{
    if has_label(classes, labels, number) {
        return Ok(());
    }
    left.push(number)?;
    Ok(())
}

/// Returns those of `numbers` whose labels are not among `labels`, which rise; rising.
fn without_labels(
    alloc: Global,
    classes: &Kinds<PathClass>,
    labels: &[usize],
    numbers: &[usize],
) -> Result<Vec<usize>, AllocError>
    requires { IsStrictlyIncreasing labels.now }
    ensures rising { IfOk result (λ left. IsStrictlyIncreasing left.items) }
    ensures exact { IfOk result (λ left. (n : ℕ) → is_one n left.items ≡ (is_one n numbers.now && not (is_one (kind_at classes.now n) labels.now))) }
{
    let mut left = Vec::new(alloc);
    for number in numbers {
        push_unless(&mut left, classes, labels, *number)?;
    }
    Ok(rising_numbers(left))
}

/// Counts the paths that have one of `labels`, which rise, or a class right below one of `above`: each path counts
/// once. Classes of the labels are not looked at.
fn touched_paths(
    alloc: Global,
    rows: &KindMap<LabelRow>,
    classes: &TaggedMap<PathClass>,
    labels: &[usize],
    above: &[ClassNumber],
) -> Result<usize, AllocError>
    requires rising { IsStrictlyIncreasing labels.now }
    requires kinds { map (λ e. (e.0, kind_at classes.now.0 e.1)) classes.now.1 ≡ rows.now.1 }
    ensures { IfOk result (λ count. count ≡ count_by (λ e. is_touched classes.now.0 labels.now above.now e.1) classes.now.1) }
{
    let labelled = rows.paths_numbered(labels)?;
    let below = classes_below_some(alloc, classes, above)?;
    let others = without_labels(alloc, classes.kinds(), labels, &below)?;
    let more = classes.map().paths_numbered(&others)?;
    let Some(count) = labelled.checked_add(more) else {
        return Err(AllocError);
    };
    Ok(count)
}

/// Counts the paths that have a class right below one of `above`: each path counts once. They are counted class by
/// class, so that only the classes above are sorted.
pub(crate) fn paths_below(
    alloc: Global,
    classes: &TaggedMap<PathClass>,
    above: Vec<ClassNumber>,
) -> Result<usize, AllocError>
    ensures { IfOk result (λ count. count ≡ count_by (λ e. is_below_some above.items e.1) (entries_in classes.now)) }
{
    let above = rising_numbers(above);
    let mut count = 0usize;
    for class in above.as_slice() {
        let tag = below_tag(*class)?;
        let more = classes.paths_tagged(alloc, &[tag])?;
        let Some(sum) = count.checked_add(more) else {
            return Err(AllocError);
        };
        count = sum;
    }
    Ok(count)
}

/// Returns the classes of the same paths after the verdicts on `labels`, which rise, changed. Counts also the files
/// that have one of these labels, or are right below a class to which others may search now: all others have the
/// answers that they had. Classes are looked at by their tags alone.
pub(crate) fn rerowed_classes(
    alloc: Global,
    old: &KindMap<LabelRow>,
    rows: &KindMap<LabelRow>,
    before: &TaggedMap<PathClass>,
    labels: &[usize],
) -> Result<(TaggedMap<PathClass>, usize), AllocError>
    requires were { AreClasses old.now before.now }
    requires rising { IsStrictlyIncreasing labels.now }
    requires changes { ChangesRows old.now labels.now rows.now }
    ensures classes { IfOk result (λ new. AreClasses rows.now new.0) }
    ensures least { IfOk result (λ new. AreCounted old.now rows.now new.1) }
    ensures most { IfOk result (λ new. (tops : List PathOf) → AllInside labels.now tops rows.now.1 → new.1 ≤ length (inside tops rows.now.1)) }
{
    old.order_law();
    rows.order_law();
    let _labels_before = old.kinds();
    let _labels = rows.kinds();
    let _classes = before.kinds();
    let waiting = classes_of_labels(alloc, before, labels)?;
    let new = renewed_classes(alloc, rows, before, waiting)?;
    let (classes, changed) = new;
    let count = touched_paths(alloc, rows, before, labels, &changed)?;
    Ok((classes, count))
}

/// Tells whether paths have a number, and its class keeps who can search down to it.
fn keeps_search(classes: &KindMap<PathClass>, number: usize) -> bool
    ensures { result ≡ is_searched (used_at classes.now.0 number) }
{
    let kinds = classes.kinds();
    match kinds.get(number) {
        Some(class) => class.search.is_some() && kinds.count(number) > 0,
        None => false,
    }
}

/// Returns the classes of paths that keep who can search down to them.
fn searched_classes(alloc: Global, classes: &KindMap<PathClass>) -> Result<Vec<usize>, AllocError>
    ensures { IfOk result (λ numbers. AreSearched classes.now.0 numbers.items) }
{
    let mut numbers = Vec::new(alloc);
    for number in 0..classes.numbers_len() {
        if keeps_search(classes, number) {
            numbers.push(number)?;
        }
    }
    Ok(numbers)
}

/// Returns the classes of the same paths after all rows may have changed.
pub(crate) fn all_rerowed_classes(
    alloc: Global,
    old: &KindMap<LabelRow>,
    rows: &KindMap<LabelRow>,
    before: &TaggedMap<PathClass>,
) -> Result<TaggedMap<PathClass>, AllocError>
    requires were { AreClasses old.now before.now }
    requires paths { rows.now.1 ≡ old.now.1 }
    ensures classes { IfOk result (λ new. AreClasses rows.now new) }
    ensures paths { IfOk result (λ new. new.1 ≡ before.now.1) }
{
    let labels = rows.kinds();
    let _classes = before.kinds();
    let searched = searched_classes(alloc, before.map())?;
    let found = searched_once(alloc, labels, before, &searched)?;
    if let Some(classes) = found {
        let new = with_searches(alloc, before, classes)?;
        return Ok(new);
    }
    let (new, _changed) = renewed_classes(alloc, rows, before, searched)?;
    Ok(new)
}
