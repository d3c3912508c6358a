//! gpasswd(1): a user joins or leaves the row of a group.

ghost use Rattle.std.specs.Prelude.{◌≡◌, ◌<◌, length, Err, IfOk, IfErr};
ghost use Rattle.acl_people.specs.KnownPeople.{persons};
ghost use Rattle.acl_people.specs.Moves.{ChangesUser};
ghost use Rattle.acl_tree.specs.InnerCommands.{Gives, whole};
ghost use Rattle.acl_tree.specs.Reports.{Prepares, RefusesAtOnce};
ghost use Rattle.acl_tree.specs.Gpasswd.{membership_changed};
ghost use Rattle.acl_tree.specs.declared.command.Command.TheVariants.{Gpasswd};

use crate::command::Membership;
use crate::fault::TreeFault;
use crate::stage_people::{find_group, find_user, stage_user_change};
use crate::state::BorrowedState;
use crate::step::Staged;
use acl_names::Name;
use acl_people::People;
use std::alloc::Global;

/// Adds a user to the row of a group, or removes the user from it.
fn change_membership(
    alloc: Global,
    people: &People,
    user: usize,
    group: usize,
    change: Membership,
) -> Result<People, TreeFault>
    requires user { user < length people.now.users }
    requires group { group < length people.now.groups }
    ensures made { Gives (λ next. next) result (membership_changed user group change people.now) }
    ensures change { IfOk result (λ next. ChangesUser (persons people.now) (persons next) user) }
    ensures at_once { IfErr (membership_changed user group change people.now) (λ fault. result ≡ Err fault) }
{
    match change {
        Membership::Add => {
            let next = people.with_member(alloc, user, group)?;
            Ok(next)
        }
        Membership::Remove => {
            if !people.is_member(user, group) {
                return Err(TreeFault::NotMember);
            }
            let next = people.without_member(alloc, user, group)?;
            Ok(next)
        }
    }
}

/// Changes the membership of a user.
pub(crate) fn prepare_gpasswd(
    alloc: Global,
    state: &BorrowedState<'_>,
    user: &Name,
    group: &Name,
    change: Membership,
) -> Result<Staged, TreeFault>
    ensures prepares { Prepares (whole state.now) (Gpasswd user.now group.now change) result }
    ensures at_once { RefusesAtOnce (whole state.now) (Gpasswd user.now group.now change) result }
{
    let people = state.people;
    let user = find_user(alloc, people, user)?;
    let group = find_group(alloc, people, group)?;
    let next = change_membership(alloc, people, user, group, change)?;
    let staged = stage_user_change(alloc, state, next, user)?;
    Ok(staged)
}
