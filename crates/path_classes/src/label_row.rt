//! Labels with their rows of verdicts.

ghost use Rattle.std.specs.Prelude.{◌≡◌, ◌++◌, OnOk};
ghost use Rattle.acl_entry.specs.Mentions.{mentions};

use crate::cells::Cells;
use acl_entry::{Id, Label};
use kinds::{KindMap, Tagged};
use std::alloc::{AllocError, Global};

/// A label, and what each user may do with a file of this label, in the order of the users.
#[derive(Drop)]
pub struct LabelRow {
    pub label: Label,
    pub row: Cells,
}

/// The rows before some files changed, and after.
#[derive(Clone, Copy)]
pub(crate) struct BothRows<'b, 'a> {
    pub before: &'b KindMap<LabelRow>,
    pub after: &'a KindMap<LabelRow>,
}

/// Adds the numbers of groups.
pub fn push_groups(new: &mut Vec<usize>, ids: &[Id]) -> Result<(), AllocError>
    ensures { OnOk result (new.new.items ≡ new.old.items ++ ids.now) }
{
    for id in ids {
        new.push(id.number() as usize)?;
    }
    Ok(())
}

impl Tagged for LabelRow {
    ghost tags_of = { λ row. mentions row.label };

    /// Adds the groups that the label mentions.
    fn push_tags(&self, alloc: Global, new: &mut Vec<usize>) -> Result<(), AllocError> {
        let ids = self.label.mentions(alloc)?;
        push_groups(new, &ids)?;
        Ok(())
    }
}
