//! userdel(8): removes a user.

ghost use Rattle.acl_tree.specs.InnerCommands.{whole};
ghost use Rattle.acl_tree.specs.Reports.{Prepares};
ghost use Rattle.acl_tree.specs.declared.command.Command.TheVariants.{Userdel};

use crate::fault::TreeFault;
use crate::stage_people::{find_user, stage_people};
use crate::state::BorrowedState;
use crate::step::Staged;
use crate::user_change::UserChange;
use acl_names::Name;
use std::alloc::Global;

/// Removes a user.
pub(crate) fn prepare_userdel(
    alloc: Global,
    state: &BorrowedState<'_>,
    user: &Name,
) -> Result<Staged, TreeFault>
    ensures { Prepares (whole state.now) (Userdel user.now) result }
{
    let people = state.people;
    let user = find_user(alloc, people, user)?;
    let next = people.without_user(alloc, user)?;
    let staged = stage_people(alloc, state.tree, next, UserChange::Removed { user })?;
    Ok(staged)
}
