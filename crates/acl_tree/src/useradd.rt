//! useradd(8): adds a user.

ghost use Rattle.std.specs.Prelude.{◌≡◌, length, Err, IfOk, IfSome};
ghost use Rattle.acl_people.specs.KnownPeople.{persons};
ghost use Rattle.acl_people.specs.Moves.{JoinsUser};
ghost use Rattle.acl_tree.specs.Useradd.{useradd};
ghost use Rattle.acl_tree.specs.InnerCommands.{Gives, whole};
ghost use Rattle.acl_tree.specs.Reports.{Prepares, RefusesAtOnce};
ghost use Rattle.acl_tree.specs.Step.{nameless};
ghost use Rattle.acl_tree.specs.declared.command.Command.TheVariants.{Useradd};

use crate::command::NewUser;
use crate::fault::TreeFault;
use crate::stage_people::{find_group, stage_people};
use crate::state::BorrowedState;
use crate::step::Staged;
use crate::user_change::UserChange;
use acl_people::People;
use std::alloc::Global;

fn add_user(alloc: Global, people: &People, new: &NewUser) -> Result<People, TreeFault>
    ensures made { Gives (λ next. record { user = length people.now.users; people = next }) result (useradd new.now people.now) }
    ensures joins { IfOk result (λ next. JoinsUser (persons people.now) (persons next)) }
    ensures at_once { IfSome (nameless (useradd new.now people.now)) (λ fault. result ≡ Err fault) }
{
    if people.has_user_named(new.name.as_name().as_bytes()) {
        return Err(TreeFault::UserExists {
            name: new.name.as_name().try_clone(alloc)?,
        });
    }
    if people.has_user_id(new.uid) {
        return Err(TreeFault::UidExists { id: new.uid });
    }
    let group = find_group(alloc, people, &new.group)?;
    if people.is_full() {
        return Err(TreeFault::TooManyUsers);
    }
    let next = people.with_user(alloc, &new.name, new.uid, group)?;
    Ok(next)
}

/// Adds a user.
pub(crate) fn prepare_useradd(
    alloc: Global,
    state: &BorrowedState<'_>,
    new: &NewUser,
) -> Result<Staged, TreeFault>
    ensures prepares { Prepares (whole state.now) (Useradd new.now) result }
    ensures at_once { RefusesAtOnce (whole state.now) (Useradd new.now) result }
{
    let next = add_user(alloc, state.people, new)?;
    let staged = stage_people(alloc, state.tree, next, UserChange::Added)?;
    Ok(staged)
}
