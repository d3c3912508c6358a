//! Counts for each user on how many files a request is granted: in a narrow number, to which few files are added for
//! many users at a time, and a wide one, to which narrow ones are added before they overflow.

ghost use Rattle.std.specs.Prelude.{◌≡◌, ◌+◌, ◌<◌, ◌^◌, length, replicate, slice_get, if◌then◌else◌, IfOk, OnOk};
ghost use Rattle.acl_entry.specs.Check.{has};
ghost use Rattle.facl_counts.specs.SumLists.{counts_after, totals, AreSmall, AreWithin};

use crate::tallies::together;
use acl_entry::{Perm, Requests};
use std::alloc::{AllocError, Global};
use std::marker::Model;

/// From this many files on a count is added to the wide numbers. A narrow number holds nearly four times as many.
const MIN_WIDE: u64 = 64;

/// Returns `more`, if a file's verdict grants the request, else 0.
fn where_granted(granted: Requests, request: Perm, more: u64) -> u64
    ensures { result ≡ (if has granted request then more else 0) }
{
    if granted.has(request) { more } else { 0 }
}

/// Returns `more`, if a file's verdict grants the request, else 0.
fn few_where_granted(granted: Requests, request: Perm, more: u8) -> u8
    ensures { result ≡ (if has granted request then more else 0) }
{
    if granted.has(request) { more } else { 0 }
}

/// Adds `more` to the counts of the users to whom a row grants a request. The loop always writes, so that it adds
/// many at a time.
fn add_counts(counts: &mut [u64], row: &[Requests], request: Perm, more: u64)
    requires { AreSmall (2 ^ 64) more counts.old }
    ensures { counts.new ≡ counts_after request more row.now counts.old }
{
    let users = counts.len().min(row.len());
    for at in 0..users {
        counts[at] += where_granted(row[at], request, more);
    }
}

/// Adds `more` to narrow counts, as `add_counts` does to wide ones: to eight times as many at a time.
fn add_few(counts: &mut [u8], row: &[Requests], request: Perm, more: u8)
    requires { AreSmall (2 ^ 8) more counts.old }
    ensures { counts.new ≡ counts_after request more row.now counts.old }
{
    let users = counts.len().min(row.len());
    for at in 0..users {
        counts[at] += few_where_granted(row[at], request, more);
    }
}

/// Makes room for `more` in narrow counts, of which none is above `most`: if there is none, adds them to the wide
/// ones. Returns the new `most`.
fn make_room(wide: &mut [u64], narrow: &mut [u8], most: u8, more: u8) -> u8
    requires long { length wide.old ≡ length narrow.old }
    requires small { AreSmall (2 ^ 64) 0 (totals wide.old narrow.old) }
    requires few { AreWithin most narrow.old }
    ensures same { totals wide.new narrow.new ≡ totals wide.old narrow.old }
    ensures few { AreWithin result narrow.new }
    ensures room { result + more < 2 ^ 8 }
{
    if most <= 255 - more {
        return most;
    }
    for at in 0..narrow.len() {
        wide[at] += narrow[at] as u64;
    }
    for place in 0..narrow.len() {
        narrow[place] = 0;
    }
    0
}

/// Adds `more` to the counts of the users to whom a row grants a request: to the narrow ones, of which none is above
/// `most`, unless it is too large for them. Returns the new `most`.
fn add_to_parts(
    wide: &mut [u64],
    narrow: &mut [u8],
    most: u8,
    row: &[Requests],
    request: Perm,
    more: u64,
) -> u8
    requires long { length wide.old ≡ length narrow.old }
    requires small { AreSmall (2 ^ 64) more (totals wide.old narrow.old) }
    requires few { AreWithin most narrow.old }
    ensures added { totals wide.new narrow.new ≡ counts_after request more row.now (totals wide.old narrow.old) }
    ensures few { AreWithin result narrow.new }
{
    if more >= MIN_WIDE {
        add_counts(wide, row, request, more);
        return most;
    }
    let few = more as u8;
    let most = make_room(wide, narrow, most, few);
    add_few(narrow, row, request, few);
    most + few
}

/// Returns a list that has a value `count` times.
pub(crate) fn repeated<T: Copy>(alloc: Global, count: usize, value: T) -> Result<Vec<T>, AllocError>
    ensures { IfOk result (λ list. list.items ≡ replicate count value) }
{
    let mut list = Vec::new(alloc);
    list.resize(count, value)?;
    Ok(list)
}

/// Returns the item at a place, if there is one.
pub(crate) fn item_at<T: Copy>(items: &[T], at: usize) -> Option<T>
    ensures { result ≡ slice_get items.now at }
{
    items.get(at).copied()
}

/// The counts of users: wide and narrow numbers, which are added when a count is read.
#[derive(Drop)]
pub(crate) struct UserCounts {
    wide: Vec<u64>,
    narrow: Vec<u8>,
    /// No count is above that of all files.
    all: u64,
    /// No narrow number is above this.
    most: u8,
}

impl Model for UserCounts {
    ghost use Rattle.std.specs.Prelude.{List, ℕ};
    ghost use Rattle.facl_counts.specs.SumLists.{totals, AreKept};

    ghost Value = { List ℕ };

    ghost view = { λ c. totals c.wide.items c.narrow.items };

    ghost invariant = { λ c. AreKept c.all c.most c.wide.items c.narrow.items };
}

impl UserCounts {
    /// Returns counts of no file, for `users` users.
    pub fn new(alloc: Global, users: usize) -> Result<UserCounts, AllocError>
        ensures { IfOk result (λ counts. counts ≡ replicate users 0) }
    {
        let wide = repeated(alloc, users, 0)?;
        let narrow = repeated(alloc, users, 0)?;
        Ok(UserCounts {
            wide,
            narrow,
            all: 0,
            most: 0,
        })
    }

    /// Adds `more` to the counts of the users to whom a row grants a request.
    pub fn add(&mut self, row: &[Requests], request: Perm, more: u64) -> Result<(), AllocError>
        ensures { OnOk result (self.new ≡ counts_after request more row.now self.old) }
    {
        let all = together(self.all, more)?;
        let most = add_to_parts(
            &mut self.wide,
            &mut self.narrow,
            self.most,
            row,
            request,
            more,
        );
        self.all = all;
        self.most = most;
        Ok(())
    }

    /// Returns the count of the user at a place, if there is one.
    pub fn get(&self, at: usize) -> Option<u64>
        ensures { result ≡ slice_get self.now at }
    {
        let Some(wide) = item_at(&self.wide, at) else {
            return None;
        };
        let Some(narrow) = item_at(&self.narrow, at) else {
            return None;
        };
        Some(wide + narrow as u64)
    }
}
