//! What a command changes of the users.

ghost use Rattle.std.specs.Prelude.{◌≡◌};

use acl_entry::Id;
use std::marker::Model;

/// What a command changes of the users, their ids and groups.
#[derive(Drop)]
pub enum UserChange {
    /// Each user has the same id and the same groups as before.
    Unchanged,
    /// Users or groups were loaded. No file is recorded yet.
    Loaded,
    /// One user joined or left these groups, at least one. No file changed.
    Memberships { user: usize, groups: GroupIds },
    /// A user was added, the last. No file changed.
    Added,
    /// The user at this place was removed. No file changed.
    Removed { user: usize },
}

/// Ids of groups, rising, each once.
#[derive(Drop)]
pub struct GroupIds {
    ids: Vec<Id>,
}

impl Model for GroupIds {
    ghost use Rattle.std.specs.Prelude.{ℕ, List};

    ghost Value = { List ℕ };

    ghost view = { λ g. g.ids.items };
}

impl GroupIds {
    pub(crate) fn new(ids: Vec<Id>) -> GroupIds
        ensures { result ≡ ids.items }
    {
        GroupIds { ids }
    }

    pub fn as_slice(&self) -> &[Id]
        ensures { result.now ≡ self.now }
    {
        &self.ids
    }
}
