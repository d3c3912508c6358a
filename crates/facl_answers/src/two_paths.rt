//! Compares the next paths of two parallel walks.

ghost use Rattle.std.specs.Prelude.{◌≡◌, option_map};
ghost use Rattle.facl_answers.specs.BothStates.{path_order};

use acl_names::Path;
use std::cmp::Ordering;

/// Compares the next paths; a path comes before an absent one. `None` if both are absent.
pub(crate) fn path_order(before: Option<&Path>, after: Option<&Path>) -> Option<Ordering>
    ensures { result ≡ path_order (option_map (λ path. path.now) before.entry) (option_map (λ path. path.now) after.entry) }
{
    match before {
        Some(old) => match after {
            Some(new) => Some(old.order(new)),
            None => Some(Ordering::Less),
        },
        None => match after {
            Some(_) => Some(Ordering::Greater),
            None => None,
        },
    }
}
