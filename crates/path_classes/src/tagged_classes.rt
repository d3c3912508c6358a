//! Classes of paths that are found by their tags: nothing else of the classes is looked at.

ghost use Rattle.std.specs.Prelude.{◌≡◌, ℕ, IfOk};
ghost use Rattle.std.specs.List.Sorted.{IsStrictlyIncreasing};
ghost use Rattle.kinds.specs.Given.{used_at};
ghost use Rattle.path_classes.specs.FoundClasses.{is_searched_of};
ghost use Rattle.path_classes.specs.Renewing.{is_one, AreBelow};

use crate::class_tags::{below_tag, label_tags};
use crate::path_class::{ClassNumber, PathClass};
use kinds::TaggedMap;
use std::alloc::{AllocError, Global};

/// Returns the classes of paths right below a class.
pub(crate) fn classes_below(
    alloc: Global,
    classes: &TaggedMap<PathClass>,
    above: ClassNumber,
) -> Result<Vec<usize>, AllocError>
    ensures { IfOk result (λ below. AreBelow classes.now.0 above below.items) }
{
    let tag = below_tag(above)?;
    let numbers = classes.numbers_tagged(alloc, &[tag])?;
    Ok(numbers)
}

/// Returns the classes of paths that have one of `labels` and keep who can search down to them, rising.
pub(crate) fn classes_of_labels(
    alloc: Global,
    classes: &TaggedMap<PathClass>,
    labels: &[usize],
) -> Result<Vec<usize>, AllocError>
    ensures rising { IfOk result (λ numbers. IsStrictlyIncreasing numbers.items) }
    ensures exact { IfOk result (λ numbers. (n : ℕ) → is_one n numbers.items ≡ is_searched_of labels.now (used_at classes.now.0 n)) }
{
    let tags = label_tags(alloc, labels)?;
    let numbers = classes.numbers_tagged(alloc, &tags)?;
    Ok(numbers)
}
