//! Whether the paths of records are apart.

ghost use Rattle.std.specs.Prelude.{◌≡◌, ◌↔◌, IfOk, true, map};
ghost use Rattle.std.specs.List.{IsDistinct};
ghost use Rattle.std.specs.List.Sorted.{IsStrictlySortedBy};
ghost use Rattle.acl_names.specs.Paths.{path_cmp};
ghost use Rattle.acl_text.specs.Records.{same_path};
ghost use Rattle.acl_text.specs.RoundTrips.{paths};

use crate::record::DumpRecord;
use acl_names::Path;
use std::alloc::{AllocError, Global};
use std::cmp::Ordering;

/// Tells whether no two of the records have one path. It takes one walk if they come in path order.
pub(crate) fn are_apart(alloc: Global, records: &[DumpRecord]) -> Result<bool, AllocError>
    ensures { IfOk result (λ apart. (apart ≡ true) ↔ IsDistinct same_path (paths records.now)) }
{
    let mut paths = paths_of(alloc, records)?;
    if rise(&paths) {
        return Ok(true);
    }
    paths.sort_by(|a, b| a.order(b))?;
    Ok(rise(&paths))
}

fn paths_of<'a>(alloc: Global, records: &'a [DumpRecord]) -> Result<Vec<&'a Path>, AllocError>
    ensures { IfOk result (λ all. map (λ p. p.now) all.items ≡ paths records.now) }
{
    let mut all = Vec::with_capacity(alloc, records.len())?;
    for record in records {
        all.push(&record.path)?;
    }
    Ok(all)
}

/// Tells whether each path comes after the one before it.
fn rise(all: &[&Path]) -> bool
    ensures { (result ≡ true) ↔ IsStrictlySortedBy path_cmp (map (λ p. p.now) all.now) }
{
    let mut place = 1;
    while place < all.len() {
        if all[place - 1].order(all[place]) != Ordering::Less {
            return false;
        }
        place += 1;
    }
    true
}
