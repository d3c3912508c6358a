//! Counts of the files of two states by the pairs of their classes in both.

ghost use Rattle.std.specs.Prelude.{IfOk};
ghost use Rattle.path_map.specs.Entries.{IsInOrder};
ghost use Rattle.facl_answers.specs.BothStates.{both_of, rows_of_both};
ghost use Rattle.facl_answers.specs.BothStates.{front};
ghost use Rattle.facl_counts.specs.InnerGains.{AreCounted};

use crate::tallies::Tallies;
use acl_names::Path;
use facl_answers::{BothClasses, Sides};
use std::alloc::{AllocError, Global};
use std::collections::BTreeMap;

/// Encodes a class as a number; 0 is none.
fn number(class: Option<usize>) -> u64 {
    match class {
        Some(class) => (class as u64).wrapping_add(1),
        None => 0,
    }
}

/// Hashes a key for `hints`. Two keys may have the same hash.
fn code(key: Sides) -> u64 {
    number(key.0)
        .wrapping_mul(1 << 32)
        .wrapping_add(number(key.1))
}

/// Counts by keys the next files of both, as long as they are at a path or below it.
pub(crate) fn count_within<'a>(
    alloc: Global,
    both: &mut BothClasses<'a>,
    top: &Path,
) -> Result<Tallies<'a>, AllocError>
    requires before { IsInOrder both.old.before.1 }
    requires after { IsInOrder both.old.after.1 }
    ensures { IfOk result (λ tallies. AreCounted (both_of both.new) tallies (front top.now (rows_of_both both.old.before.1 both.old.after.1))) }
{
    let mut tallies = Tallies::new(alloc);
    let mut hints = BTreeMap::new(alloc);
    while let Some((path, key)) = both.next_within(alloc, top)? {
        let code = code(key);
        let hint = hints.get(&code).copied().unwrap_or(0);
        let at = tallies.add(hint, key, 1, path)?;
        if at != hint {
            let _before = hints.insert(code, at)?;
        }
    }
    Ok(tallies)
}
