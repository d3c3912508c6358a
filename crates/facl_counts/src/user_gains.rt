//! Counts for each user how many files have each change of what the user is granted, and finds the first.

ghost use Rattle.std.specs.Prelude.{◌≡◌, ◌<◌, ◌||◌, [], true, IfOk, OnOk, map, unwrap_or};
ghost use Rattle.std.specs.Option.{option_copied};
ghost use Rattle.std.specs.List.{list_all};
ghost use Rattle.facl_counts.specs.Counting.{tallied};
ghost use Rattle.facl_counts.specs.GainsText.{is_change, is_gained};
ghost use Rattle.facl_answers.specs.Inner.{placed_of};
ghost use Rattle.facl_answers.specs.BothStates.{both_of, rows_of_key};
ghost use Rattle.facl_counts.specs.InnerGains.{AreCountedFor, ArePassed, IsCountedFor, RowStays, verdict_given, change_of, gained_of, keeps, row_given};

use crate::tallies::{Tallies, Tally};
use acl_entry::Requests;
use acl_names::Path;
use acl_rights::{Cells, same_row};
use facl_answers::{BothClasses, PlacedUser, Sides, same_place};
use std::alloc::{AllocError, Global};

/// A user of either state, with counts of the files that have a change, and hints at the places of these counts.
#[derive(Drop)]
pub(crate) struct UserGains<'a> {
    pub user: PlacedUser,
    pub tallies: Tallies<'a>,
    hints: [u8; 64],
}

/// The row of a file, if the file is there.
#[derive(Clone, Copy)]
pub(crate) struct GivenRow<'r> {
    pub is_there: bool,
    pub row: &'r [Requests],
}

/// Borrows a row, if there is one.
fn given(row: &Option<Cells>) -> GivenRow<'_>
    ensures { row_given result ≡ row.now }
{
    match row {
        Some(row) => GivenRow {
            is_there: true,
            row: row.as_slice(),
        },
        None => GivenRow {
            is_there: false,
            row: &[],
        },
    }
}

/// Returns what a row grants the user at a place, if both are there.
fn cell(given: &GivenRow<'_>, place: Option<usize>) -> Option<Requests>
    ensures { result ≡ verdict_given (row_given given.now) place }
{
    if !given.is_there {
        return None;
    }
    let Some(place) = place else {
        return None;
    };
    match given.row.get(place) {
        Some(requests) => Some(*requests),
        None => None,
    }
}

/// Encodes what is granted as a byte; 0 if the user or the file is absent.
fn byte_of(granted: Option<Requests>) -> u8
    ensures { result ≡ unwrap_or granted 0 }
{
    match granted {
        Some(requests) => requests.bits(),
        None => 0,
    }
}

/// Tells whether a request is granted `before` and not `after`, or the other way round. Ignores the lowest bit, the
/// request for nothing.
fn differ(before: u8, after: u8) -> bool
    ensures { result ≡ (is_gained before after || is_gained after before) }
{
    before >> 1 != after >> 1
}

/// Tells whether it is a change that these requests are granted before and after.
fn is_change(is_kept: bool, before: Option<Requests>, after: Option<Requests>) -> bool
    ensures { result ≡ is_change is_kept (before, after) }
{
    if !is_kept {
        return before.is_some() || after.is_some();
    }
    differ(byte_of(before), byte_of(after))
}

/// Encodes what is granted as a number.
fn side(granted: Option<Requests>) -> Option<usize>
    ensures { result ≡ granted }
{
    match granted {
        Some(requests) => Some(requests.bits() as usize),
        None => None,
    }
}

/// Returns the change of a file with these rows for a user, if it is one.
fn change_of(user: &PlacedUser, before: &GivenRow<'_>, after: &GivenRow<'_>) -> Option<Sides>
    ensures { result ≡ change_of (placed_of user.now).1 (row_given before.now, row_given after.now) }
{
    let had = cell(before, user.before);
    let has = cell(after, user.after);
    if is_change(before.is_there && after.is_there, had, has) {
        Some((side(had), side(has)))
    } else {
        None
    }
}

/// Returns which of the requests for execute, write and read alone `side` grants, the bits 1, 2 and 4 of it, as a
/// number below 8. They mostly decide the other requests.
fn digit(side: Option<usize>) -> usize
    ensures { result < 8 }
{
    let granted = side.unwrap_or(0);
    granted / 2 % 4 + granted / 16 % 2 * 4
}

impl<'a> UserGains<'a> {
    /// Counts `count` further files with these rows; `first` is the first of them.
    fn count(
        &mut self,
        before: &GivenRow<'_>,
        after: &GivenRow<'_>,
        count: u64,
        first: &'a Path,
    ) -> Result<(), AllocError>
        ensures { OnOk result (IsCountedFor (row_given before.now, row_given after.now) count first.now (gained_of self.old) (gained_of self.new)) }
    {
        if let Some(key) = change_of(&self.user, before, after) {
            // Two changes may have the same hint.
            let number = digit(key.0) * 8 + digit(key.1);
            let at = self.tallies.place_of(self.hints[number] as usize, key);
            let at = self.tallies.add(at, key, count, first)?;
            // Keeps a wrong hint for a place past 255, which costs a search alone.
            self.hints[number] = at.min(255) as u8;
        }
        Ok(())
    }
}

/// Counts `count` further files with these rows for each user.
fn count_for_each<'a>(
    users: &mut [UserGains<'a>],
    before: &GivenRow<'_>,
    after: &GivenRow<'_>,
    count: u64,
    first: &'a Path,
) -> Result<(), AllocError>
    ensures { OnOk result (AreCountedFor (row_given before.now, row_given after.now) count first.now users.old users.new) }
{
    for user in users.iter_mut() {
        user.count(before, after, count, first)?;
    }
    Ok(())
}

/// Tells whether a file is there before and after, with the same row.
fn row_stays(before: &GivenRow<'_>, after: &GivenRow<'_>) -> bool
    ensures { result ≡ true → RowStays (row_given before.now, row_given after.now) }
{
    if before.is_there {
        if after.is_there {
            return same_row(before.row, after.row);
        }
    }
    false
}

/// Tells whether each user has the same place in both states, or none in both.
pub(crate) fn keep_places(users: &[UserGains<'_>]) -> bool
    ensures { result ≡ list_all keeps users.now }
{
    users
        .iter()
        .all(|entry| same_place(entry.user.before, entry.user.after))
}

/// Counts the files of one key for each user: `is_kept` says that all keep their places. Nothing changes if the rows
/// and the users are the same.
fn count_tally<'a>(
    alloc: Global,
    users: &mut [UserGains<'a>],
    is_kept: bool,
    both: &BothClasses<'_>,
    tally: &Tally<'a>,
) -> Result<(), AllocError>
    requires kept { is_kept ≡ true → list_all keeps users.old ≡ true }
    ensures { OnOk result (AreCountedFor (rows_of_key (both_of both.now) tally.now.key) tally.now.count tally.now.first.now users.old users.new) }
{
    if is_kept && both.keeps_row(tally.key) {
        return Ok(());
    }
    let before = both.row_before(alloc, tally.key.0)?;
    let after = both.row_after(alloc, tally.key.1)?;
    let had = given(&before);
    let has = given(&after);
    if is_kept && row_stays(&had, &has) {
        return Ok(());
    }
    count_for_each(users, &had, &has, tally.count, tally.first)
}

/// Counts the changes of each user from counts of files by classes.
pub(crate) fn count_changes<'a>(
    alloc: Global,
    users: &mut [UserGains<'a>],
    both: &BothClasses<'_>,
    tallies: &[Tally<'a>],
) -> Result<(), AllocError>
    ensures { OnOk result (ArePassed (both_of both.now) (map tallied tallies.now) users.old users.new) }
{
    let is_kept = keep_places(users);
    for tally in tallies {
        count_tally(alloc, users, is_kept, both, tally)?;
    }
    Ok(())
}

/// Returns the users, with no file counted.
pub(crate) fn without_counts<'a>(
    alloc: Global,
    users: Vec<PlacedUser>,
) -> Result<Vec<UserGains<'a>>, AllocError>
    ensures { IfOk result (λ all. map gained_of all.items ≡ map (λ user. (placed_of user, [])) users.items) }
{
    let mut all = Vec::new(alloc);
    for user in users {
        all.push(UserGains {
            user,
            tallies: Tallies::new(alloc),
            hints: [0; 64],
        })?;
    }
    Ok(all)
}
