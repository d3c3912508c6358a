//! The classes that paths outside of some tops have: files inside can get them too.

ghost use Rattle.std.specs.Prelude.{◌≡◌, ◌+◌, ◌-◌, ◌<◌, ◌≤◌, [], ℕ, true, map, IfOk, IfSome};
ghost use Rattle.path_map.specs.Entries.{seen};
ghost use Rattle.kinds.specs.Kinds.{count_at};
ghost use Rattle.kinds.specs.Inner.{pending_at};
ghost use Rattle.kinds.specs.Numbered.{one_if, paths_with};
ghost use Rattle.path_classes.specs.ClassBuilding.{IsClassOf, IsKeptClass};

use crate::class_tags::pair_tag;
use crate::label_row::LabelRow;
use crate::path_class::{ClassNumber, PathClass};
use acl_names::Path;
use kinds::{KindNumber, Kinds, TaggedMap};
use std::alloc::{AllocError, Global};

/// Classes with their tags, and how many paths outside have each.
#[derive(Drop)]
pub(crate) struct KeptClasses {
    tagged: TaggedMap<PathClass>,
    pub(crate) outside: Kinds<PathClass>,
}

/// What the classes of files are found with: the rows of their labels, and the classes that paths outside have.
#[derive(Clone, Copy)]
pub(crate) struct ClassSources<'r, 'k> {
    pub rows: &'r Kinds<LabelRow>,
    pub kept: &'k KeptClasses,
}

fn is_same_class(some: Option<usize>, other: Option<usize>) -> bool
    ensures { result ≡ true → some ≡ other }
{
    match some {
        Some(some) => match other {
            Some(other) => some == other,
            None => false,
        },
        None => other.is_none(),
    }
}

/// Tells whether a number is that of the class of the key (`above`, `kind`).
pub(crate) fn is_class_of(
    classes: &Kinds<PathClass>,
    number: usize,
    above: Option<ClassNumber>,
    kind: KindNumber,
) -> bool
    ensures { result ≡ true → IsClassOf classes.now above kind number }
{
    match classes.get(number) {
        Some(class) => class.kind == kind && is_same_class(class.above, above),
        None => false,
    }
}

/// Takes `fewer` from the number's count of paths, if it is not 0.
fn release_if(
    kinds: Kinds<PathClass>,
    number: usize,
    fewer: usize,
) -> Result<Kinds<PathClass>, AllocError>
    ensures { IfOk result (λ new. (n : ℕ) → count_at new n ≡ count_at kinds n - pending_at n number fewer) }
{
    if fewer == 0 {
        return Ok(kinds);
    }
    kinds.release(number, fewer)
}

/// Takes one path off the number's count. Runs of one number are kept in `pending` and subtracted at once: `last` is
/// the number of the run before. Returns the length of the current run.
fn release_run(
    kinds: Kinds<PathClass>,
    last: usize,
    pending: usize,
    number: usize,
) -> Result<(Kinds<PathClass>, usize), AllocError>
    requires { pending < 18446744073709551615 }
    ensures most { IfOk result (λ new. new.1 ≤ pending + 1) }
    ensures counts { IfOk result (λ new. (n : ℕ) → count_at new.0 n - pending_at n number new.1 ≡ (count_at kinds n - pending_at n last pending) - one_if n number) }
{
    if number == last {
        return Ok((kinds, pending + 1));
    }
    let kinds = release_if(kinds, last, pending)?;
    Ok((kinds, 1))
}

/// Takes the paths of `entries` from the counts: at once for those of a run that have one number.
fn without_paths(
    kinds: Kinds<PathClass>,
    entries: &[(&Path, usize)],
) -> Result<Kinds<PathClass>, AllocError>
    ensures { IfOk result (λ new. (n : ℕ) → count_at new n ≡ count_at kinds n - paths_with n (map seen entries.now)) }
{
    let mut kinds = kinds;
    let mut last = 0;
    let mut pending = 0;
    for entry in entries {
        let (released, count) = release_run(kinds, last, pending, entry.1)?;
        kinds = released;
        last = entry.1;
        pending = count;
    }
    release_if(kinds, last, pending)
}

impl KeptClasses {
    pub fn none(alloc: Global) -> Result<KeptClasses, AllocError>
        ensures { IfOk result (λ none. none.outside ≡ ([], [])) }
    {
        Ok(KeptClasses {
            tagged: TaggedMap::new(alloc)?,
            outside: Kinds::new(alloc),
        })
    }

    /// Returns the classes of all paths but those of `inside`.
    pub fn of(
        classes: &TaggedMap<PathClass>,
        inside: &[(&Path, usize)],
    ) -> Result<KeptClasses, AllocError>
        ensures { IfOk result (λ new. (n : ℕ) → count_at new.outside n ≡ count_at classes.now.0 n - paths_with n (map seen inside.now)) }
    {
        let kinds = classes.map().kinds().share()?;
        Ok(KeptClasses {
            tagged: classes.share()?,
            outside: without_paths(kinds, inside)?,
        })
    }

    /// Tells whether a number is that of the class of a key, and paths outside have it.
    fn is_kept(
        &self,
        classes: &Kinds<PathClass>,
        number: usize,
        above: Option<ClassNumber>,
        kind: KindNumber,
    ) -> Result<bool, AllocError>
        ensures { IfOk result (λ kept. kept ≡ true → IsKeptClass classes.now self.now.outside above kind number) }
    {
        let count = self.outside.count(number);
        Ok(count > 0 && is_class_of(classes, number, above, kind))
    }

    /// Returns the class of a key, if paths outside have it: it is found by its tag.
    pub fn find(
        &self,
        alloc: Global,
        classes: &Kinds<PathClass>,
        above: Option<ClassNumber>,
        kind: KindNumber,
    ) -> Result<Option<usize>, AllocError>
        ensures { IfOk result (λ found. IfSome found (IsKeptClass classes.now self.now.outside above kind)) }
    {
        let tag = pair_tag(above, kind);
        let numbers = self.tagged.numbers_tagged(alloc, &[tag])?;
        for number in numbers.as_slice() {
            if self.is_kept(classes, *number, above, kind)? {
                return Ok(Some(*number));
            }
        }
        Ok(None)
    }
}
