//! The verdicts of all users on one file.

ghost use Rattle.std.specs.Prelude.{◌≡◌, ◌↔◌, true, IfOk, slice_get, ℕ, List};
ghost use Rattle.path_classes.specs.ReachedRows.{execute};

use acl_entry::{Perm, Requests};
use std::alloc::{AllocError, Global};
use std::marker::Model;
use std::rc::Rc;

/// The place of a user among all users, from 0.
pub type UserPlace = usize;

/// What each user may do with a file, in the order of the users. Files of equal verdicts can share them.
#[derive(Drop)]
pub struct Cells {
    requests: Rc<Vec<Requests>>,
}

impl Model for Cells {
    ghost Value = { List ℕ };

    ghost view = { λ c. c.requests.value.items };
}

/// Compares two rows of verdicts. The loop does not end early, so that it compares many at a time.
pub fn same_row(some: &[Requests], others: &[Requests]) -> bool
    ensures { (result ≡ true) ↔ (some.now ≡ others.now) }
{
    if some.len() != others.len() {
        return false;
    }
    let mut is_same = true;
    for at in 0..some.len() {
        is_same &= some[at].bits() == others[at].bits();
    }
    is_same
}

impl Clone for Cells {
    ghost is_clone = { λ cells copy. copy ≡ cells };

    fn clone(&self) -> Result<Cells, AllocError> {
        self.share()
    }
}

impl Cells {
    /// Shares verdicts.
    pub fn new(alloc: Global, requests: Vec<Requests>) -> Result<Cells, AllocError>
        ensures { IfOk result (λ cells. cells ≡ requests.items) }
    {
        Ok(Cells {
            requests: Rc::new(alloc, requests)?,
        })
    }

    /// Shares verdicts: with `other`, if they are the same.
    pub fn new_or_shared(
        alloc: Global,
        requests: Vec<Requests>,
        other: Option<&Cells>,
    ) -> Result<Cells, AllocError>
        ensures { IfOk result (λ cells. cells ≡ requests.items) }
    {
        if let Some(other) = other {
            if same_row(other.as_slice(), &requests) {
                let same = other.share()?;
                return Ok(same);
            }
        }
        let new = Cells::new(alloc, requests)?;
        Ok(new)
    }

    /// Copies the row; both share the verdicts.
    pub fn share(&self) -> Result<Cells, AllocError>
        ensures { IfOk result (λ cells. cells ≡ self.now) }
    {
        Ok(Cells {
            requests: self.requests.clone()?,
        })
    }

    /// Returns the verdicts, one for each user.
    pub fn as_slice(&self) -> &[Requests]
        ensures { result.now ≡ self.now }
    {
        &self.requests
    }

    /// Returns what a user may do.
    pub fn get(&self, user: UserPlace) -> Option<Requests>
        ensures { result ≡ slice_get self.now user }
    {
        match self.as_slice().get(user) {
            Some(requests) => Some(*requests),
            None => None,
        }
    }
}

/// Returns the request to search.
pub fn search() -> Perm
    ensures { result ≡ execute }
{
    Perm::EXECUTE
}
