//! The users and groups that words mean, and a change of people, staged: no file changes.

ghost use Rattle.std.specs.Prelude.{◌≡◌, ◌<◌, length, Err, IfOk, OnErr};
ghost use Rattle.acl_people.specs.KnownPeople.{persons};
ghost use Rattle.acl_people.specs.Moves.{ChangesUser, moved_groups};
ghost use Rattle.acl_tree.specs.InnerCommands.{Gives, IsStaged, StagesPeople, whole};
ghost use Rattle.acl_tree.specs.State.{state_from};
ghost use Rattle.acl_tree.specs.UserMoves.{move_of};
ghost use Rattle.acl_tree.specs.Memberships.{user_at, group_at};

use crate::fault::TreeFault;
use crate::files::Files;
use crate::region::Region;
use crate::state::BorrowedState;
use crate::step::Staged;
use crate::user_change::{GroupIds, UserChange};
use acl_entry::Id;
use acl_names::Name;
use acl_people::People;
use std::alloc::{AllocError, Global};

/// Returns the same files with other people.
pub(crate) fn stage_people(
    alloc: Global,
    tree: &Files,
    people: People,
    user_change: UserChange,
) -> Result<Staged, AllocError>
    ensures { IfOk result (StagesPeople tree.now people user_change) }
{
    tree.soundness_law();
    let files = tree.share()?;
    let before = tree.share()?;
    Ok(Staged::of(files, people, before, Region::nothing(alloc), user_change))
}

/// Returns how the users move if one joined or left `groups`.
fn move_of(user: usize, groups: Vec<Id>) -> UserChange
    ensures { result ≡ move_of user groups.items }
{
    if groups.is_empty() {
        UserChange::Unchanged
    } else {
        UserChange::Memberships {
            user,
            groups: GroupIds::new(groups),
        }
    }
}

/// Returns the same files with people of whom one may have other groups.
pub(crate) fn stage_user_change(
    alloc: Global,
    state: &BorrowedState<'_>,
    next: People,
    user: usize,
) -> Result<Staged, AllocError>
    requires { ChangesUser (persons state.now.people.now) (persons next) user }
    ensures state { IfOk result (λ staged. staged.state ≡ state_from state.now.tree.now next) }
    ensures staged { IfOk result (IsStaged (whole state.now) (move_of user (moved_groups state.now.people.now next user))) }
{
    let groups = state.people.moved_groups(alloc, &next, user)?;
    let staged = stage_people(alloc, state.tree, next, move_of(user, groups))?;
    Ok(staged)
}

/// Finds the place of the user that a word means.
pub(crate) fn find_user(alloc: Global, people: &People, word: &Name) -> Result<usize, TreeFault>
    ensures found { Gives (λ user. user) result (user_at people.now word.now) }
    ensures within { IfOk result (λ user. user < length people.now.users) }
    ensures unknown { OnErr result (user_at people.now word.now ≡ Err (TreeFault.NoSuchUser word.now)) }
{
    match people.find_user(word.as_bytes()) {
        Some(user) => Ok(user),
        None => Err(TreeFault::NoSuchUser {
            name: word.try_clone(alloc)?,
        }),
    }
}

/// Finds the place of the group that a word means.
pub(crate) fn find_group(alloc: Global, people: &People, word: &Name) -> Result<usize, TreeFault>
    ensures found { Gives (λ group. group) result (group_at people.now word.now) }
    ensures within { IfOk result (λ group. group < length people.now.groups) }
    ensures unknown { OnErr result (group_at people.now word.now ≡ Err (TreeFault.NoSuchGroup word.now)) }
{
    match people.find_group(word.as_bytes()) {
        Some(group) => Ok(group),
        None => Err(TreeFault::NoSuchGroup {
            name: word.try_clone(alloc)?,
        }),
    }
}
