//! usermod(8): changes a user's primary group.

ghost use Rattle.acl_tree.specs.InnerCommands.{whole};
ghost use Rattle.acl_tree.specs.Reports.{Prepares};
ghost use Rattle.acl_tree.specs.declared.command.Command.TheVariants.{Usermod};

use crate::fault::TreeFault;
use crate::stage_people::{find_group, find_user, stage_user_change};
use crate::state::BorrowedState;
use crate::step::Staged;
use acl_names::Name;
use std::alloc::Global;

/// Changes the primary group of a user.
pub(crate) fn prepare_usermod(
    alloc: Global,
    state: &BorrowedState<'_>,
    user: &Name,
    group: &Name,
) -> Result<Staged, TreeFault>
    ensures { Prepares (whole state.now) (Usermod user.now group.now) result }
{
    let people = state.people;
    let user = find_user(alloc, people, user)?;
    let group = find_group(alloc, people, group)?;
    let next = people.with_primary_group(alloc, user, group)?;
    let staged = stage_user_change(alloc, state, next, user)?;
    Ok(staged)
}
