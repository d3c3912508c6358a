//! New and removed users: useradd(8) and userdel(8).

ghost use Rattle.std.specs.Prelude.{◌≡◌, ◌<◌, length, position, IfOk, OnOk};
ghost use Rattle.acl_people.specs.NameTables.{is_name, has_name, has_id, AreBytes};
ghost use Rattle.acl_people.specs.Entries.{user_row};
ghost use Rattle.acl_people.specs.KnownPeople.{users_of, is_full};
ghost use Rattle.acl_people.specs.Changes.{with_user, without_user, CanBeAdded};
ghost use Rattle.acl_people.specs.Moves.{GainsOne, LosesOne};
ghost use Rattle.acl_names.specs.Made.{Makes};

use crate::people::People;
use crate::user_name::UserName;
use acl_entry::Id;
use acl_names::Name;
use acl_text::{MAX_ROWS, PasswdRow};
use std::alloc::{AllocError, Global};
use std::rc::Rc;

fn new_row(alloc: Global, name: &[u8], uid: Id, gid: Id) -> Result<PasswdRow, AllocError>
    ensures made { Makes result (user_row name.now uid gid) }
    ensures bytes { OnOk result (AreBytes name.now) }
{
    Ok(PasswdRow {
        name: Name::from_bytes(alloc, name)?,
        uid,
        gid,
    })
}

impl People {
    /// Returns the place of the user of this name, which may be digits alone.
    pub fn user_named(&self, name: &[u8]) -> Option<usize>
        ensures { result ≡ position (is_name name.now) (users_of self.now) }
    {
        self.user_rows().name_table().place_of_name(name)
    }

    /// Tells whether a user has this name.
    pub fn has_user_named(&self, name: &[u8]) -> bool
        ensures { result ≡ has_name name.now (users_of self.now) }
    {
        self.user_named(name).is_some()
    }

    /// Tells whether a user has this id.
    pub fn has_user_id(&self, id: Id) -> bool
        ensures { result ≡ has_id id (users_of self.now) }
    {
        self.user_rows().name_table().place_of_id(id).is_some()
    }

    /// Tells whether there is no room for a further user.
    pub fn is_full(&self) -> bool
        ensures { result ≡ is_full self.now }
    {
        self.user_rows().rows().len() >= MAX_ROWS
    }

    /// Adds a user, the last, with `group` as the primary group.
    pub fn with_user(
        &self,
        alloc: Global,
        name: &UserName,
        uid: Id,
        group: usize,
    ) -> Result<People, AllocError>
        requires { CanBeAdded name.now group self.now }
        ensures rows { Makes result (with_user name.now uid group self.now) }
        ensures joins { IfOk result (GainsOne self.now) }
    {
        self.soundness_law();
        let gid = self.gid_of(group);
        let row = new_row(alloc, name.as_name().as_bytes(), uid, gid)?;
        self.with_user_row(alloc, row)
    }

    /// Removes a user, and the name of the user from the rows of all groups.
    pub fn without_user(&self, alloc: Global, user: usize) -> Result<People, AllocError>
        requires { user < length self.now.users }
        ensures rows { Makes result (without_user user self.now) }
        ensures leaves { IfOk result (LosesOne user self.now) }
    {
        let users = Rc::new(alloc, self.user_rows().without_row(alloc, user)?)?;
        let groups = Rc::new(
            alloc,
            self.group_rows().without_user(alloc, self.name_of(user))?,
        )?;
        self.without_subject(alloc, users, groups, user)
    }
}
