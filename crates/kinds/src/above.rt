//! The nearest ancestor of a path that has an entry.

ghost use Rattle.std.specs.Prelude.{◌≡◌, option_map};
ghost use Rattle.path_map.specs.Below.{nearest_above};
ghost use Rattle.kinds.specs.Numbered.{entries_in};
ghost use Rattle.kinds.specs.Puts.{borrowed};

use crate::map::KindMap;
use acl_names::Path;

impl<N> KindMap<N> {
    /// Returns the entry of the nearest ancestor of a path, if there is one.
    pub fn nearest_above(&self, path: &Path) -> Option<(&Path, &N)>
        ensures { option_map borrowed result ≡ nearest_above path.now (entries_in self.now) }
    {
        let entry = self.numbers().nearest_above(path)?;
        let node = self.kinds().node(entry.1);
        Some((entry.0, node))
    }
}
