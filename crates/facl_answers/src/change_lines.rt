//! The lines of one file that `changes` prints: for each user those of the requests that the user gains and loses.

ghost use Rattle.std.specs.Prelude.{◌≡◌, ◌&&◌, ℕ, IfOk, List, [], false, not};
ghost use Rattle.std.specs.List.{flat_map, list_any};
ghost use Rattle.acl_entry.specs.Check.{has};
ghost use Rattle.acl_names.specs.Appends.{Appends};
ghost use Rattle.facl_answers.specs.ChangesText.{requests_gained, after_comma, change_line, change_lines};
ghost use Rattle.facl_answers.specs.Inner.{KnowPlaces, differs, lines_between, verdict_or_none};

use crate::placed_users::{PlacedUser, PlacedUsers};
use crate::requests::NUMBERS;
use acl_entry::{Perm, Requests};
use acl_rights::same_row;
use std::alloc::{AllocError, Global};

/// Tells whether a request is granted after, and was not before.
fn is_gained(before: Requests, after: Requests, request: Perm) -> bool
    ensures { result ≡ (has after request && not (has before request)) }
{
    after.has(request) && !before.has(request)
}

/// Returns the requests that are granted after and were not before, in rising number.
fn requests_gained(
    alloc: Global,
    before: Requests,
    after: Requests,
) -> Result<Vec<Perm>, AllocError>
    ensures { IfOk result (λ requests. requests.items ≡ requests_gained before after) }
{
    let mut requests = Vec::new(alloc);
    for number in &NUMBERS {
        if let Some(request) = Perm::from_number(*number) {
            if is_gained(before, after, request) {
                requests.push(request)?;
            }
        }
    }
    Ok(requests)
}

/// Adds the requests after the first one, each after a comma.
fn push_more(text: &mut Vec<u8>, requests: &[Perm]) -> Result<(), AllocError>
    ensures { Appends result text.old text.new (flat_map after_comma requests.now) }
{
    for request in requests {
        text.push(b',')?;
        text.extend_from_slice(&request.text())?;
    }
    Ok(())
}

/// Adds a line of the requests that a user gains or loses on a file, if there are any.
fn push_line(
    text: &mut Vec<u8>,
    path: &[u8],
    user: &[u8],
    word: &[u8],
    requests: &[Perm],
) -> Result<(), AllocError>
    ensures { Appends result text.old text.new (change_line path.now user.now word.now requests.now) }
{
    let Some((request, more)) = requests.split_first() else {
        return Ok(());
    };
    text.extend_from_slice(user)?;
    text.push(b' ')?;
    text.extend_from_slice(word)?;
    text.push(b' ')?;
    text.extend_from_slice(&request.text())?;
    push_more(text, more)?;
    text.push(b' ')?;
    text.extend_from_slice(path)?;
    text.push(b'\n')?;
    Ok(())
}

/// Adds what a user gains on a file, and what the user loses there.
fn push_user(
    text: &mut Vec<u8>,
    path: &[u8],
    user: &[u8],
    before: Requests,
    after: Requests,
) -> Result<(), AllocError>
    ensures { Appends result text.old text.new (change_lines path.now user.now before after) }
{
    let gained = requests_gained(*text.allocator(), before, after)?;
    let lost = requests_gained(*text.allocator(), after, before)?;
    push_line(text, path, user, b"gains", &gained)?;
    push_line(text, path, user, b"loses", &lost)
}

/// Returns what a row grants the user at a place, if there is one.
fn verdict_or_none(row: &[Requests], place: Option<usize>) -> Requests
    ensures { result ≡ verdict_or_none row.now place }
{
    let Some(at) = place else {
        return Requests::none();
    };
    match row.get(at) {
        Some(requests) => *requests,
        None => Requests::none(),
    }
}

/// Tells whether what a user is granted differs.
fn differs(user: &PlacedUser, before: &[Requests], after: &[Requests]) -> bool
    ensures { result ≡ differs before.now after.now user.now }
{
    let had = verdict_or_none(before, user.before);
    let has = verdict_or_none(after, user.after);
    had.bits() != has.bits()
}

/// Tells whether what some user is granted differs.
fn some_differs(users: &[PlacedUser], before: &[Requests], after: &[Requests]) -> bool
    ensures { result ≡ list_any (differs before.now after.now) users.now }
{
    users.iter().any(|user| differs(user, before, after))
}

/// Tells whether a file with these rows may have lines. If all users keep their places, the rows are compared at
/// once.
pub(crate) fn has_lines(users: &PlacedUsers<'_>, before: &[Requests], after: &[Requests]) -> bool
    requires { KnowPlaces users.now }
    ensures { result ≡ false → (path : List ℕ) → lines_between users.now.list.now path before.now after.now ≡ [] }
{
    if users.keep_places {
        !same_row(before, after)
    } else {
        some_differs(users.list, before, after)
    }
}

/// Adds the lines of a file, by its rows before and after.
#[tactic(auto, using(crate::proofs::Unchanged::no_change))]
pub(crate) fn push_rows(
    text: &mut Vec<u8>,
    users: &[PlacedUser],
    path: &[u8],
    before: &[Requests],
    after: &[Requests],
) -> Result<(), AllocError>
    ensures { Appends result text.old text.new (lines_between users.now path.now before.now after.now) }
{
    for user in users {
        let had = verdict_or_none(before, user.before);
        let has = verdict_or_none(after, user.after);
        if had.bits() != has.bits() {
            push_user(text, path, &user.name, had, has)?;
        }
    }
    Ok(())
}
