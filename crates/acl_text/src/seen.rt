//! The paths of the records that were read.

ghost use Rattle.std.specs.Prelude.{◌≡◌, ◌++◌, ◌∷◌, [], ℕ, List, IfOk, OnOk, false, ◌||◌, ◌&&◌, map, is_some};
ghost use Rattle.acl_text.specs.declared.record.DumpRecord.{DumpRecord};
ghost use Rattle.acl_text.specs.Records.{same_path, is_repeated};
ghost use Rattle.acl_text.specs.DumpSeen.{has_path, SeenPathsAre};

use acl_names::Path;
use std::alloc::{AllocError, Global};
use std::collections::BTreeSet;

/// A set of paths, each by its components.
#[derive(Drop)]
pub(crate) struct Seen {
    paths: BTreeSet<Vec<Vec<u8>>>,
}

impl Seen {
    pub(crate) fn new(alloc: Global) -> Seen
        ensures { (path : List (List ℕ)) → has_path result path ≡ false }
    {
        Seen {
            paths: BTreeSet::new(alloc),
        }
    }

    /// Tells whether a path is in the set.
    pub(crate) fn contains(&self, alloc: Global, path: &Path) -> Result<bool, AllocError>
        ensures { IfOk result (λ is. is ≡ has_path self.now path.now) }
    {
        let components = components_of(alloc, path)?;
        Ok(self.paths.contains(components.as_slice()))
    }

    pub(crate) fn insert(&mut self, alloc: Global, path: &Path) -> Result<(), AllocError>
        ensures { OnOk result ((other : List (List ℕ)) → has_path self.new other ≡ (same_path other path.now || has_path self.old other)) }
    {
        let components = components_of(alloc, path)?;
        self.paths.insert(components)?;
        Ok(())
    }
}

/// Tells whether a set is kept, and has this path.
pub(crate) fn is_seen(alloc: Global, seen: &Option<Seen>, path: &Path) -> Result<bool, AllocError>
    ensures { (records : List DumpRecord) → SeenPathsAre seen.now records → IfOk result (λ is. is ≡ (is_some seen.now && is_repeated records path.now)) }
{
    match seen {
        None => Ok(false),
        Some(seen) => seen.contains(alloc, path),
    }
}

/// Adds the path of a record that follows others, if a set is kept.
pub(crate) fn watch(alloc: Global, seen: &mut Option<Seen>, path: &Path) -> Result<(), AllocError>
    ensures watched { is_some seen.new ≡ is_some seen.old }
    ensures added { OnOk result ((records : List DumpRecord) (r : DumpRecord) → r.path ≡ path.now → SeenPathsAre seen.old records
        → SeenPathsAre seen.new (records ++ r ∷ [])) }
{
    match seen {
        None => Ok(()),
        Some(seen) => seen.insert(alloc, path),
    }
}

/// Returns the components of a path, each in an allocation of its own.
fn components_of(alloc: Global, path: &Path) -> Result<Vec<Vec<u8>>, AllocError>
    ensures { IfOk result (λ components. map (λ v. v.items) components.items ≡ path.now) }
{
    let mut components = Vec::new(alloc);
    let mut rest = path.components();
    while let Some(component) = rest.next() {
        push_copy(alloc, &mut components, component)?;
    }
    Ok(components)
}

fn push_copy(
    alloc: Global,
    components: &mut Vec<Vec<u8>>,
    component: &[u8],
) -> Result<(), AllocError>
    ensures { OnOk result (map (λ v. v.items) components.new.items ≡ map (λ v. v.items) components.old.items ++ component.now ∷ []) }
{
    let copy = Vec::from_slice(alloc, component)?;
    components.push(copy)?;
    Ok(())
}
