//! The users of two states, with the places of their rows in both.

ghost use Rattle.std.specs.Prelude.{◌≡◌, ◌++◌, ◌∷◌, not, map, filter, IfOk, OnOk, if◌then◌else◌, []};
ghost use Rattle.std.specs.List.{list_all};
ghost use Rattle.acl_people.specs.KnownPeople.{users_of};
ghost use Rattle.acl_people.specs.NameTables.{has_name};
ghost use Rattle.facl_answers.specs.Inner.{placed_of, placed_in, same_place, keeps_place};

use acl_names::write_name;
use acl_people::People;
use std::alloc::{AllocError, Global};

/// A user of either state: the name as it is printed, and the places of the user's rows in both.
#[derive(Drop)]
pub struct PlacedUser {
    pub name: Vec<u8>,
    pub before: Option<usize>,
    pub after: Option<usize>,
}

/// The users of two states. If `keep_places` is set, each has the same place in both, or none in both.
#[derive(Clone, Copy)]
pub(crate) struct PlacedUsers<'a> {
    pub list: &'a [PlacedUser],
    pub keep_places: bool,
}

/// Returns the user of a name, who is in either state.
fn placed_user(
    alloc: Global,
    name: &[u8],
    loaded: &People,
    now: &People,
) -> Result<PlacedUser, AllocError>
    ensures { IfOk result (λ user. placed_of user ≡ placed_in loaded.now now.now name.now) }
{
    Ok(PlacedUser {
        name: write_name(alloc, name)?,
        before: loaded.user_named(name),
        after: now.user_named(name),
    })
}

/// Collects the users who are there now, in the order of their rows.
fn present_users(
    alloc: Global,
    loaded: &People,
    now: &People,
) -> Result<Vec<PlacedUser>, AllocError>
    ensures { IfOk result (λ users. map placed_of users.items ≡ map (λ row. placed_in loaded.now now.now row.name) now.now.users) }
{
    let mut users = Vec::new(alloc);
    for user in 0..now.users() {
        if let Some(row) = now.user_row(user) {
            users.push(placed_user(alloc, row.name.as_bytes(), loaded, now)?)?;
        }
    }
    Ok(users)
}

/// Adds the user of a name, if the user is gone.
fn add_if_gone(
    alloc: Global,
    users: &mut Vec<PlacedUser>,
    name: &[u8],
    loaded: &People,
    now: &People,
) -> Result<(), AllocError>
    ensures { OnOk result (map placed_of users.new.items ≡ map placed_of users.old.items
        ++ (if has_name name.now (users_of now.now) then [] else placed_in loaded.now now.now name.now ∷ [])) }
{
    if !now.has_user_named(name) {
        users.push(placed_user(alloc, name, loaded, now)?)?;
    }
    Ok(())
}

/// Adds the users who are gone, in the order of their rows.
fn add_gone(
    alloc: Global,
    users: &mut Vec<PlacedUser>,
    loaded: &People,
    now: &People,
) -> Result<(), AllocError>
    ensures { OnOk result (map placed_of users.new.items ≡ map placed_of users.old.items
        ++ map (λ row. placed_in loaded.now now.now row.name) (filter (λ row. not (has_name row.name (users_of now.now))) loaded.now.users)) }
{
    for user in 0..loaded.users() {
        if let Some(row) = loaded.user_row(user) {
            add_if_gone(alloc, users, row.name.as_bytes(), loaded, now)?;
        }
    }
    Ok(())
}

/// Collects the users of both states, by their names.
pub fn users_of_both(
    alloc: Global,
    loaded: &People,
    now: &People,
) -> Result<Vec<PlacedUser>, AllocError>
    ensures { IfOk result (λ users. map placed_of users.items ≡ map (λ row. placed_in loaded.now now.now row.name) (now.now.users
        ++ filter (λ row. not (has_name row.name (users_of now.now))) loaded.now.users)) }
{
    let mut users = present_users(alloc, loaded, now)?;
    add_gone(alloc, &mut users, loaded, now)?;
    Ok(users)
}

/// Tells whether a user has the same place in both states, or none in both.
pub fn same_place(before: Option<usize>, after: Option<usize>) -> bool
    ensures { result ≡ same_place before after }
{
    match before {
        None => after.is_none(),
        Some(before) => match after {
            Some(after) => before == after,
            None => false,
        },
    }
}

/// Tells whether the users are the same, and in the same order.
pub(crate) fn keep_places(users: &[PlacedUser]) -> bool
    ensures { result ≡ list_all keeps_place users.now }
{
    users.iter().all(|user| same_place(user.before, user.after))
}
