//! Tags of classes: a class is found by the class above, by a hash of its key (this class and its label), and by its
//! label alone if it keeps who can search down to it.

ghost use Rattle.std.specs.Prelude.{◌≡◌, ◌++◌, map, is_some, IfOk, OnOk};
ghost use Rattle.path_classes.specs.ClassTags.{label_tag, below_tag, search_tags, above_tags, pair_hash, pair_tag, class_tags};

use crate::hash::mixed;
use crate::path_class::{ClassNumber, PathClass};
use crate::searchers::Searchers;
use kinds::{KindNumber, Tagged};
use std::alloc::{AllocError, Global};

/// Returns the tag of the classes of a label that keep who can search down to them. Fails, as if memory ran out, if
/// it is too large.
pub(crate) fn label_tag(kind: KindNumber) -> Result<usize, AllocError>
    ensures { IfOk result (λ tag. tag ≡ label_tag kind) }
{
    match kind.checked_mul(3) {
        Some(tag) => Ok(tag),
        None => Err(AllocError),
    }
}

/// Returns the tag of the classes right below a class. Fails, as if memory ran out, if it is too large.
pub(crate) fn below_tag(above: ClassNumber) -> Result<usize, AllocError>
    ensures { IfOk result (λ tag. tag ≡ below_tag above) }
{
    let tag = label_tag(above)?;
    match tag.checked_add(1) {
        Some(tag) => Ok(tag),
        None => Err(AllocError),
    }
}

fn pair_hash(above: Option<ClassNumber>, kind: KindNumber) -> u64
    ensures { result ≡ pair_hash above kind }
{
    let hash = mixed(0, kind as u64);
    match above {
        Some(above) => mixed(hash, above as u64),
        None => hash,
    }
}

/// Returns the tag of the class of a key. Others may have it too.
pub(crate) fn pair_tag(above: Option<ClassNumber>, kind: KindNumber) -> usize
    ensures { result ≡ pair_tag above kind }
{
    let hash = (pair_hash(above, kind) % (1 << 30)) as usize;
    3 * hash + 2
}

/// Adds the tag of a label, if the class keeps who can search.
fn push_label(
    new: &mut Vec<usize>,
    search: &Option<Searchers>,
    kind: KindNumber,
) -> Result<(), AllocError>
    ensures { OnOk result (new.new.items ≡ new.old.items ++ search_tags (is_some search.now) kind) }
{
    if let Some(_search) = search {
        new.push(label_tag(kind)?)?;
    }
    Ok(())
}

/// Adds the tag of the class above, if there is one.
fn push_above(new: &mut Vec<usize>, above: Option<ClassNumber>) -> Result<(), AllocError>
    ensures { OnOk result (new.new.items ≡ new.old.items ++ above_tags above) }
{
    if let Some(above) = above {
        new.push(below_tag(above)?)?;
    }
    Ok(())
}

pub(crate) fn label_tags(alloc: Global, labels: &[usize]) -> Result<Vec<usize>, AllocError>
    ensures { IfOk result (λ tags. tags.items ≡ map label_tag labels.now) }
{
    let mut tags = Vec::with_capacity(alloc, labels.len())?;
    for label in labels {
        tags.push(label_tag(*label)?)?;
    }
    Ok(tags)
}

impl Tagged for PathClass {
    ghost tags_of = { λ class. class_tags (is_some class.search) class.above class.kind };

    fn push_tags(&self, alloc: Global, new: &mut Vec<usize>) -> Result<(), AllocError> {
        new.push(pair_tag(self.above, self.kind))?;
        push_label(new, &self.search, self.kind)?;
        push_above(new, self.above)
    }
}
