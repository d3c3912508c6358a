//! For each user on how many files a request is granted, and the first of these files.

ghost use Rattle.std.specs.Prelude.{◌≡◌, map, length, slice_get, option_map, Some, if◌then◌else◌, IfOk, OnOk};
ghost use Rattle.std.specs.Option.{option_or};
ghost use Rattle.acl_entry.specs.Check.{has};
ghost use Rattle.facl_counts.specs.Counting.{tallied};
ghost use Rattle.facl_counts.specs.SumLists.{firsts_after, grants_one, waits_of};
ghost use Rattle.facl_counts.specs.Sums.{sum_of, no_sum, after_row};

use crate::tallies::Tally;
use crate::user_counts::{UserCounts, item_at, repeated};
use acl_entry::{Perm, Requests};
use acl_names::Path;
use std::alloc::{AllocError, Global};
use std::marker::Model;

/// On how many files a user is granted a request, and the first of them.
#[derive(Clone, Copy)]
pub(crate) struct UserSum<'a> {
    pub count: u64,
    pub first: Option<&'a Path>,
}

/// Tells whether a row grants a request to one of the users who wait. The loop does not end early, so that it looks
/// at many at a time.
fn grants_one(waits: &[bool], row: &[Requests], request: Perm) -> bool
    ensures { result ≡ grants_one request row.now waits.now }
{
    let users = waits.len().min(row.len());
    let mut found = false;
    for at in 0..users {
        found |= waits[at] & row[at].has(request);
    }
    found
}

/// Returns the first file of a user: `before`, or else `first`, if its verdict grants the request.
fn first_where<P: Copy>(before: Option<P>, granted: Requests, request: Perm, first: P) -> Option<P>
    ensures { result ≡ (if has granted request then option_or before (Some first) else before) }
{
    match before {
        Some(path) => Some(path),
        None => {
            if granted.has(request) {
                Some(first)
            } else {
                None
            }
        }
    }
}

/// Records a file for the users to whom a row grants a request, and who have none.
fn add_firsts<P: Copy>(firsts: &mut [Option<P>], row: &[Requests], request: Perm, first: P)
    ensures { firsts.new ≡ firsts_after request first row.now firsts.old }
{
    let users = firsts.len().min(row.len());
    for at in 0..users {
        firsts[at] = first_where(firsts[at], row[at], request, first);
    }
}

/// Recomputes `waits`: true for users without a first file.
fn look_again(waits: &mut [bool], firsts: &[Option<&Path>])
    requires { length waits.old ≡ length firsts.now }
    ensures { waits.new ≡ waits_of firsts.now }
{
    for at in 0..firsts.len() {
        waits[at] = firsts[at].is_none();
    }
}

/// The sums of all users: the counts and the first files apart, and who has no file yet.
#[derive(Drop)]
pub(crate) struct UserSums<'a> {
    counts: UserCounts,
    firsts: Vec<Option<&'a Path>>,
    waits: Vec<bool>,
}

impl<'a> Model for UserSums<'a> {
    ghost use Rattle.std.specs.Prelude.{◌≡◌, List, map, not, is_some};
    ghost use Rattle.facl_counts.specs.Sums.{Sum};
    ghost use Rattle.facl_counts.specs.SumLists.{sums_kept, waits_of};

    ghost Value = { List Sum };

    ghost view = { λ s. sums_kept s.counts s.firsts.items };

    ghost invariant = { λ s. s.waits.items ≡ waits_of s.firsts.items };
}

impl<'a> UserSums<'a> {
    /// Returns sums without files, for each user of these names.
    pub fn new(alloc: Global, names: &[Vec<u8>]) -> Result<UserSums<'a>, AllocError>
        ensures { IfOk result (λ sums. sums ≡ map no_sum names.now) }
    {
        let counts = UserCounts::new(alloc, names.len())?;
        let firsts = repeated(alloc, names.len(), None)?;
        let waits = repeated(alloc, names.len(), true)?;
        Ok(UserSums {
            counts,
            firsts,
            waits,
        })
    }

    /// Adds files to the sums of the users to whom their row grants a request. They come after the files so far.
    pub fn add_row(
        &mut self,
        row: &[Requests],
        request: Perm,
        tally: &Tally<'a>,
    ) -> Result<(), AllocError>
        ensures { OnOk result (self.new ≡ after_row request (tallied tally.now) row.now self.old) }
    {
        self.counts.add(row, request, tally.count)?;
        if grants_one(&self.waits, row, request) {
            add_firsts(&mut self.firsts, row, request, tally.first);
            look_again(&mut self.waits, &self.firsts);
        }
        Ok(())
    }

    /// Returns the sum of the user at a place, if there is one.
    pub fn get(&self, at: usize) -> Option<UserSum<'a>>
        ensures { option_map sum_of result ≡ slice_get self.now at }
    {
        let Some(count) = self.counts.get(at) else {
            return None;
        };
        let Some(first) = item_at(&self.firsts, at) else {
            return None;
        };
        Some(UserSum { count, first })
    }
}
