//! Counts paths by number, many paths at once.

ghost use Rattle.std.specs.Prelude.{IfOk, OnOk, map};
ghost use Rattle.path_map.specs.Entries.{seen};
ghost use Rattle.kinds.specs.Numbered.{AreUsed};
ghost use Rattle.kinds.specs.Counted.{CountsOne, CountsFound, CountsPaths, CountsAll};

use crate::kinds::Kinds;
use crate::numbering::{Numbering, grant_each};
use acl_names::Path;
use std::alloc::{AllocError, Global};

/// Adds one to the count of a number that `counts` has; no number adds nothing.
fn count_one(counts: &mut Vec<usize>, number: Option<usize>) -> Result<(), AllocError>
    ensures { OnOk result (CountsOne counts.old.items number counts.new.items) }
{
    let Some(at) = number else {
        return Ok(());
    };
    if at >= counts.len() {
        return Ok(());
    }
    let Some(count) = counts[at].checked_add(1) else {
        return Err(AllocError);
    };
    counts[at] = count;
    Ok(())
}

/// Counts, for each number below `numbers`, the looked-up paths that have it.
pub(crate) fn counts_found(
    alloc: Global,
    numbers: usize,
    found: &[Option<usize>],
) -> Result<Vec<usize>, AllocError>
    ensures { IfOk result (λ counts. CountsFound numbers found.now counts.items) }
{
    let mut counts = vec![in alloc; 0; numbers]?;
    for one in found {
        count_one(&mut counts, *one)?;
    }
    Ok(counts)
}

/// Counts, for each number below `numbers`, the paths of entries that have it.
pub(crate) fn counts_of(
    alloc: Global,
    numbers: usize,
    entries: &[(&Path, usize)],
) -> Result<Vec<usize>, AllocError>
    ensures { IfOk result (λ counts. CountsPaths numbers (map seen entries.now) counts.items) }
{
    let mut counts = vec![in alloc; 0; numbers]?;
    for entry in entries {
        count_one(&mut counts, Some(entry.1))?;
    }
    Ok(counts)
}

/// Adds the paths of `entries` to the counts of their numbers, by runs of one number.
fn count_runs<N: Drop>(
    alloc: Global,
    kinds: Kinds<N>,
    entries: &[(&Path, usize)],
) -> Result<Kinds<N>, AllocError>
    requires { AreUsed kinds (map seen entries.now) }
    ensures { IfOk result (λ new. CountsAll kinds (map seen entries.now) new) }
{
    let mut numbering = Numbering::new(alloc, kinds);
    for entry in entries {
        numbering = numbering.give_at(entry.1)?;
    }
    let kinds = numbering.counted()?;
    Ok(kinds)
}

/// Adds the paths of `entries` to the counts of their numbers, each number's paths at once.
fn count_each<N: Drop>(
    alloc: Global,
    kinds: Kinds<N>,
    entries: &[(&Path, usize)],
) -> Result<Kinds<N>, AllocError>
    requires { AreUsed kinds (map seen entries.now) }
    ensures { IfOk result (λ new. CountsAll kinds (map seen entries.now) new) }
{
    let counts = counts_of(alloc, kinds.len(), entries)?;
    let kinds = grant_each(kinds, &counts)?;
    Ok(kinds)
}

/// Adds the paths of `entries` to the counts of their numbers. If there are as many paths as numbers, each number
/// gets its paths at once.
pub(crate) fn count_entries<N: Drop>(
    alloc: Global,
    kinds: Kinds<N>,
    entries: &[(&Path, usize)],
) -> Result<Kinds<N>, AllocError>
    requires { AreUsed kinds (map seen entries.now) }
    ensures { IfOk result (λ new. CountsAll kinds (map seen entries.now) new) }
{
    if entries.len() < kinds.len() {
        return count_runs(alloc, kinds, entries);
    }
    count_each(alloc, kinds, entries)
}
