//! The groups of users: gpasswd(1) and usermod(8), the groups whose rows name a user, and those that a user joined or left.

ghost use Rattle.std.specs.Prelude.{◌≡◌, ◌<◌, length, IfOk, OnOk};
ghost use Rattle.acl_people.specs.Members.{Joins, JoinsAll, AreMembers};
ghost use Rattle.acl_people.specs.Changes.{gid_of, is_member, with_member, without_member, with_primary_group, AreThere};
ghost use Rattle.acl_people.specs.Moves.{ChangesOne, AreMovedGroups};
ghost use Rattle.acl_names.specs.Made.{values, Makes};

use crate::groups::Group;
use crate::people::People;
use acl_entry::{Id, groups_of_one};
use std::alloc::{AllocError, Global};
use std::collections::BTreeMap;
use std::rc::Rc;

impl People {
    /// Tells whether the row of a group names a user.
    pub fn is_member(&self, user: usize, group: usize) -> bool
        requires { AreThere user group self.now }
        ensures { result ≡ is_member user group self.now }
    {
        self.group_rows().rows()[group].names_user(self.name_of(user))
    }

    /// Returns the id of a group.
    pub(crate) fn gid_of(&self, group: usize) -> Id
        requires { group < length self.now.groups }
        ensures { result ≡ gid_of group self.now }
    {
        self.group_rows().rows()[group].gid()
    }

    /// Puts a user's name last in the row of a group, unless the row names the user already.
    pub fn with_member(
        &self,
        alloc: Global,
        user: usize,
        group: usize,
    ) -> Result<People, AllocError>
        requires { AreThere user group self.now }
        ensures rows { Makes result (with_member user group self.now) }
        ensures change { IfOk result (ChangesOne user self.now) }
    {
        if self.is_member(user, group) {
            return self.share();
        }
        let groups = self
            .group_rows()
            .with_name(alloc, group, self.name_of(user))?;
        let groups = Rc::new(alloc, groups)?;
        self.with_rows(alloc, self.user_rows(), &groups, user)
    }

    /// Removes a user's name from the row of a group, however often it occurs.
    pub fn without_member(
        &self,
        alloc: Global,
        user: usize,
        group: usize,
    ) -> Result<People, AllocError>
        requires { AreThere user group self.now }
        ensures rows { Makes result (without_member user group self.now) }
        ensures change { IfOk result (ChangesOne user self.now) }
    {
        let groups = self
            .group_rows()
            .without_name(alloc, group, self.name_of(user))?;
        let groups = Rc::new(alloc, groups)?;
        self.with_rows(alloc, self.user_rows(), &groups, user)
    }

    /// Makes a group the primary group of a user.
    pub fn with_primary_group(
        &self,
        alloc: Global,
        user: usize,
        group: usize,
    ) -> Result<People, AllocError>
        requires { AreThere user group self.now }
        ensures rows { Makes result (with_primary_group user group self.now) }
        ensures change { IfOk result (ChangesOne user self.now) }
    {
        let users = self.user_rows().with_gid(alloc, user, self.gid_of(group))?;
        let users = Rc::new(alloc, users)?;
        self.with_rows(alloc, &users, self.group_rows(), user)
    }
}

/// Records a group for a name.
fn join<'a>(
    alloc: Global,
    members: &mut BTreeMap<&'a [u8], Vec<Id>>,
    name: &'a [u8],
    gid: Id,
) -> Result<(), AllocError>
    ensures { OnOk result (Joins members.old members.new name.now gid) }
{
    let mut gids = members.remove(name).unwrap_or(Vec::new(alloc));
    gids.push(gid)?;
    members.insert(name, gids)?;
    Ok(())
}

/// Records a row's group for each name in it.
fn add_row<'a>(
    alloc: Global,
    members: &mut BTreeMap<&'a [u8], Vec<Id>>,
    row: &'a Group,
) -> Result<(), AllocError>
    ensures { OnOk result (JoinsAll members.old members.new row.now) }
{
    for name in row.members() {
        join(alloc, members, name.as_bytes(), row.gid())?;
    }
    Ok(())
}

/// Maps each user's name to the groups whose rows name the user: one pass over the rows.
pub(crate) fn members_of<'a>(
    alloc: Global,
    rows: &'a [Rc<Group>],
) -> Result<BTreeMap<&'a [u8], Vec<Id>>, AllocError>
    ensures { IfOk result (AreMembers (values rows.now)) }
{
    let mut members = BTreeMap::new(alloc);
    for row in rows {
        add_row(alloc, &mut members, row)?;
    }
    Ok(members)
}

impl People {
    /// Returns the ids of the groups that a user joined or left between these people and the next, rising. If there
    /// are none, all users are as they were.
    pub fn moved_groups(
        &self,
        alloc: Global,
        next: &People,
        user: usize,
    ) -> Result<Vec<Id>, AllocError>
        requires { ChangesOne user self.now next.now }
        ensures { IfOk result (λ ids. AreMovedGroups self.now next.now user ids.items) }
    {
        let groups = groups_of_one(alloc, &self.subjects()[user], &next.subjects()[user])?;
        Ok(groups)
    }
}
