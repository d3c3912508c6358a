//! The groups that just one of two users has: those that a user joined or left, if the two are that user before and after.

ghost use Rattle.std.specs.Prelude.{IfOk, OnOk};
ghost use Rattle.acl_entry.specs.GroupsOfOne.{AddsOthers, AreMoved};

use crate::label::rising_ids;
use crate::{Id, Subject};
use std::alloc::{AllocError, Global};

/// Adds the groups of one user that another is not of.
fn add_others(groups: &mut Vec<Id>, of: &Subject, but: &Subject) -> Result<(), AllocError>
    ensures { OnOk result (AddsOthers groups.old.items groups.new.items of.now but.now) }
{
    for group in of.groups() {
        if !but.is_of(*group) {
            groups.push(*group)?;
        }
    }
    Ok(())
}

/// Returns the groups that just one of two users has, rising.
pub fn groups_of_one(
    alloc: Global,
    before: &Subject,
    after: &Subject,
) -> Result<Vec<Id>, AllocError>
    ensures { IfOk result (λ ids. AreMoved before.now after.now ids.items) }
{
    let mut groups = Vec::new(alloc);
    add_others(&mut groups, before, after)?;
    add_others(&mut groups, after, before)?;
    let groups = rising_ids(groups)?;
    Ok(groups)
}
