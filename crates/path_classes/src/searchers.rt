//! Which users can search all directories down to some place.

ghost use Rattle.std.specs.Prelude.{◌≡◌, ◌&&◌, IfOk, List, Bool, true, get_or, false};
ghost use Rattle.std.specs.Option.{option_copied};
ghost use Rattle.acl_entry.specs.Check.{has};
ghost use Rattle.path_classes.specs.ReachedRows.{execute};
ghost use Rattle.path_classes.specs.Searching.{searches_kept, through_from, searchers};

use crate::cells::{UserPlace, search};
use crate::hash::mixed;
use acl_entry::Requests;
use std::alloc::{AllocError, Global};
use std::marker::Model;
use std::rc::Rc;

/// For each user whether the user can search a directory and all directories above it. Equal ones can be shared.
#[derive(Drop)]
pub struct Searchers {
    users: Rc<Vec<bool>>,
}

impl Model for Searchers {
    ghost Value = { List Bool };

    ghost view = { λ s. s.users.value.items };
}

impl Searchers {
    pub(crate) fn as_slice(&self) -> &[bool]
        ensures { result.now ≡ self.now }
    {
        &self.users
    }

    /// Tells whether a user gets through.
    pub fn has(&self, user: UserPlace) -> bool
        ensures { result ≡ get_or self.now user false }
    {
        let users = self.as_slice();
        user < users.len() && users[user]
    }

    /// Copies the set; both share the users.
    pub fn share(&self) -> Result<Searchers, AllocError>
        ensures { IfOk result (λ same. same ≡ self.now) }
    {
        Ok(Searchers {
            users: self.users.clone()?,
        })
    }

    pub(crate) fn hash(&self) -> u64 {
        let mut hash = 0;
        for user in self.as_slice() {
            hash = mixed(hash, u64::from(*user));
        }
        hash
    }

    /// Tells whether these are the same users.
    pub(crate) fn is_same(&self, other: &Searchers) -> bool
        ensures { result ≡ true → self.now ≡ other.now }
    {
        is_same(self.as_slice(), other.as_slice())
    }

    /// Shares users: with those of another place, if both are the same.
    fn new_or_shared(
        alloc: Global,
        users: Vec<bool>,
        other: Option<&Searchers>,
    ) -> Result<Searchers, AllocError>
        ensures { IfOk result (λ new. new ≡ users.items) }
    {
        if let Some(other) = other {
            if is_same(other.as_slice(), &users) {
                return other.share();
            }
        }
        Ok(Searchers {
            users: Rc::new(alloc, users)?,
        })
    }
}

/// Compares two sets of users.
fn is_same(some: &[bool], others: &[bool]) -> bool
    ensures { result ≡ true → some.now ≡ others.now }
{
    if some.len() != others.len() {
        return false;
    }
    let mut is_same = true;
    for at in 0..some.len() {
        is_same &= some[at] == others[at];
    }
    is_same
}

fn grants_search(cell: Requests) -> bool
    ensures { result ≡ has cell execute }
{
    cell.has(search())
}

/// Removes users to whom a row does not grant search. The loop does not branch, so that it writes many at a time.
fn keep_searches(cells: &[Requests], users: &mut [bool])
    ensures { users.new ≡ searches_kept cells.now users.old }
{
    let count = cells.len().min(users.len());
    for at in 0..count {
        users[at] &= grants_search(cells[at]);
    }
}

/// Returns which of the first `count` users get through from above: all, if nothing is above.
fn through_from(
    alloc: Global,
    above: Option<&Searchers>,
    count: usize,
) -> Result<Vec<bool>, AllocError>
    ensures { IfOk result (λ users. users.items ≡ through_from (option_copied above.entry) 0 count) }
{
    let mut users = Vec::new(alloc);
    if let Some(above) = above {
        users.extend_from_slice(above.as_slice())?;
        users.resize(count, false)?;
        return Ok(users);
    }
    users.resize(count, true)?;
    Ok(users)
}

/// Returns which users get through from above and can search by a row: shared with those from above, if they are the
/// same.
pub(crate) fn searchers_below(
    alloc: Global,
    above: Option<&Searchers>,
    cells: &[Requests],
) -> Result<Searchers, AllocError>
    ensures { IfOk result (λ new. new ≡ searchers (option_copied above.entry) cells.now) }
{
    let mut users = through_from(alloc, above, cells.len())?;
    keep_searches(cells, users.as_mut_slice());
    Searchers::new_or_shared(alloc, users, above)
}
