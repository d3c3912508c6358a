//! Takes paths from the counts of their numbers.

ghost use Rattle.std.specs.Prelude.{IfOk};
ghost use Rattle.kinds.specs.Kinds.{Releases};
ghost use Rattle.kinds.specs.Inner.{ReleasesAll, ReleasesRun};
ghost use Rattle.kinds.specs.Counted.{ReleasesEach};

use crate::counted::counts_found;
use crate::kinds::{KindNumber, Kinds};
use std::alloc::{AllocError, Global};

/// Takes `fewer` from the number's count of paths, if it is not 0.
fn release_if<N: Drop>(
    kinds: Kinds<N>,
    number: KindNumber,
    fewer: usize,
) -> Result<Kinds<N>, AllocError>
    ensures { IfOk result (λ new. Releases kinds number fewer new) }
{
    if fewer == 0 {
        return Ok(kinds);
    }
    kinds.release(number, fewer)
}

/// Takes one path off the count of its number, if it was found. Runs of one number are kept in `pending` and
/// subtracted at once: `last` is the number of the run before. Returns the number of the current run and its length.
fn release_run<N: Drop>(
    kinds: Kinds<N>,
    last: usize,
    pending: usize,
    found: Option<usize>,
) -> Result<(Kinds<N>, usize, usize), AllocError>
    ensures { IfOk result (λ new. ReleasesRun kinds last pending found new.0 new.1 new.2) }
{
    let Some(number) = found else {
        return Ok((kinds, last, pending));
    };
    if number == last && pending < usize::MAX {
        return Ok((kinds, number, pending + 1));
    }
    let kinds = release_if(kinds, last, pending)?;
    Ok((kinds, number, 1))
}

/// Takes the paths that were found from the counts of their numbers, by runs of one number.
fn release_runs<N: Drop>(kinds: Kinds<N>, found: &[Option<usize>]) -> Result<Kinds<N>, AllocError>
    ensures { IfOk result (λ new. ReleasesAll kinds found.now new) }
{
    let mut kinds = kinds;
    let mut last = 0;
    let mut pending = 0;
    for one in found {
        let (released, number, count) = release_run(kinds, last, pending, *one)?;
        kinds = released;
        last = number;
        pending = count;
    }
    let kinds = release_if(kinds, last, pending)?;
    Ok(kinds)
}

/// Takes from each number's count of paths what `counts` has at its place.
fn release_each<N: Drop>(kinds: Kinds<N>, counts: &[usize]) -> Result<Kinds<N>, AllocError>
    ensures { IfOk result (λ new. ReleasesEach kinds counts.now new) }
{
    let mut kinds = kinds;
    for number in 0..counts.len() {
        kinds = release_if(kinds, number, counts[number])?;
    }
    Ok(kinds)
}

/// Takes the paths that were found from the counts of their numbers. If there are as many paths as numbers, each
/// number loses its paths at once.
pub(crate) fn release_all<N: Drop>(
    alloc: Global,
    kinds: Kinds<N>,
    found: &[Option<usize>],
) -> Result<Kinds<N>, AllocError>
    ensures { IfOk result (λ new. ReleasesAll kinds found.now new) }
{
    let numbers = kinds.len();
    if found.len() < numbers {
        return release_runs(kinds, found);
    }
    let counts = counts_found(alloc, numbers, found)?;
    let kinds = release_each(kinds, &counts)?;
    Ok(kinds)
}
