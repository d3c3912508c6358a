//! The nearest ancestor of a path that has an entry, found by binary search.

ghost use Rattle.std.specs.Prelude.{◌≡◌, option_map};
ghost use Rattle.path_map.specs.Entries.{seen};
ghost use Rattle.path_map.specs.Below.{nearest_above};

use crate::map::PathMap;
use acl_names::Path;

impl<V: Copy> PathMap<V> {
    /// Returns the entry of the nearest ancestor of a path, if there is one. It searches for the last entry up to the
    /// parent, then, while that is no ancestor, for the last entry up to the longest common prefix.
    pub fn nearest_above(&self, path: &Path) -> Option<(&Path, V)>
        ensures { option_map seen result ≡ nearest_above path.now self.now }
    {
        self.order_law();
        let whole = path.borrowed();
        if whole.is_root() {
            return None;
        }
        let mut top = whole.parent();
        while let Some(entry) = self.up_to(&top) {
            if top.is_within(entry.0) {
                return Some(entry);
            }
            top = top.common(entry.0);
        }
        None
    }
}
