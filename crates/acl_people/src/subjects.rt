//! All users in their order, found by id and by group.

ghost use Rattle.std.specs.Prelude.{◌≡◌, ◌<◌, ◌++◌, ◌∷◌, [], Some, length, option_map, slice_get, slice_set, List};
ghost use Rattle.std.specs.List.{remove};
ghost use Rattle.std.specs.Coded.{coded_list};
ghost use Rattle.acl_entry.specs.Person.{Person, coded_person};
ghost use Rattle.acl_names.specs.Made.{values, Makes, MakesShared};
ghost use Rattle.acl_people.specs.Places.{has_id, is_in, AreThose, AreNoted};

use crate::places_by_id::{PlacesById, joined_by, moved, notes_by_group, notes_by_id};
use acl_entry::{Id, Subject};
use std::alloc::{AllocError, Global};
use std::marker::Model;
use std::rc::Rc;

/// All users in their order, with the places of the users of each id and of each group. Two users may have one id.
/// Copies share their memory.
#[derive(Drop)]
pub struct Subjects {
    users: Rc<Vec<Rc<Subject>>>,
    by_id: Rc<PlacesById>,
    by_group: Rc<PlacesById>,
}

impl Model for Subjects {
    ghost Value = { List Person };

    ghost coded = { coded_list coded_person };

    ghost view = { λ u. values u.users.value.items };

    ghost invariant = { λ u. AreNoted has_id u.by_id.value (values u.users.value.items)
        × AreNoted is_in u.by_group.value (values u.users.value.items) };
}

/// Copies the pointers of users, with room for a further one.
fn copied(alloc: Global, users: &[Rc<Subject>]) -> Result<Vec<Rc<Subject>>, AllocError>
    ensures { MakesShared result (values users.now) }
{
    let mut all = Vec::with_capacity(alloc, users.len() + 1)?;
    for user in users {
        all.push(user.clone()?)?;
    }
    Ok(all)
}

impl Subjects {
    /// Makes users of a list and the places in it.
    fn found_by(
        alloc: Global,
        users: Vec<Rc<Subject>>,
        by_id: Rc<PlacesById>,
        by_group: PlacesById,
    ) -> Result<Subjects, AllocError>
        requires ids { AreNoted has_id by_id.value (values users.items) }
        requires groups { AreNoted is_in by_group (values users.items) }
        ensures { Makes result (values users.items) }
    {
        Ok(Subjects {
            users: Rc::new(alloc, users)?,
            by_id,
            by_group: Rc::new(alloc, by_group)?,
        })
    }

    fn ids(&self) -> &Rc<PlacesById>
        ensures { AreNoted has_id result.now.value self.now }
    {
        &self.by_id
    }

    fn groups(&self) -> &PlacesById
        ensures { AreNoted is_in result.now self.now }
    {
        &self.by_group
    }

    /// Indexes users by id and by group.
    pub fn of(alloc: Global, users: Vec<Rc<Subject>>) -> Result<Subjects, AllocError>
        ensures { Makes result (values users.items) }
    {
        let by_id = PlacesById::of(alloc, notes_by_id(alloc, &users)?)?;
        let by_group = PlacesById::of(alloc, notes_by_group(alloc, &users)?)?;
        let by_id = Rc::new(alloc, by_id)?;
        Subjects::found_by(alloc, users, by_id, by_group)
    }

    /// Copies the users; both share their memory.
    pub fn share(&self) -> Result<Subjects, AllocError>
        ensures { Makes result self.now }
    {
        Ok(Subjects {
            users: self.users.clone()?,
            by_id: self.by_id.clone()?,
            by_group: self.by_group.clone()?,
        })
    }

    /// Returns how many users there are.
    pub fn len(&self) -> usize
        ensures { result ≡ length self.now }
    {
        self.users.len()
    }

    /// Returns the users in their order.
    pub fn as_slice(&self) -> &[Rc<Subject>]
        ensures { values result.now ≡ self.now }
    {
        &self.users
    }

    /// Returns the user at a place.
    pub fn get(&self, at: usize) -> Option<&Rc<Subject>>
        ensures { option_map (λ s. s.now.value) result ≡ slice_get self.now at }
    {
        self.users.get(at)
    }

    /// Returns the places of the users of an id.
    pub fn of_id(&self, id: Id) -> &[usize]
        ensures { AreThose (has_id id) self.now result.now }
    {
        self.by_id.get(id)
    }

    /// Returns the places of the users in a group.
    pub fn of_group(&self, group: Id) -> &[usize]
        ensures { AreThose (is_in group) self.now result.now }
    {
        self.by_group.get(group)
    }

    /// Replaces the user at a place by one of the same id. Only the lists of the groups that the user joined or left
    /// are copied.
    pub fn with(&self, alloc: Global, at: usize, user: Rc<Subject>) -> Result<Subjects, AllocError>
        requires { option_map (λ u. u.uid) (slice_get self.now at) ≡ Some user.value.uid }
        ensures { Makes result (slice_set self.now at user.value) }
    {
        let users = self.as_slice();
        let by_group = moved(alloc, self.groups(), at, &users[at], &user)?;
        let mut all = copied(alloc, users)?;
        all[at] = user;
        let all = Subjects::found_by(alloc, all, self.ids().clone()?, by_group)?;
        Ok(all)
    }

    /// Adds a user, the last. Only the lists of this user's id and groups are copied.
    pub fn with_last(&self, alloc: Global, user: Rc<Subject>) -> Result<Subjects, AllocError>
        ensures { Makes result (self.now ++ user.value ∷ []) }
    {
        let users = self.as_slice();
        let mut by_id = self.ids().copy()?;
        by_id.add(alloc, user.uid(), users.len())?;
        let by_group = joined_by(alloc, self.groups(), users.len(), &user)?;
        let mut all = copied(alloc, users)?;
        all.push(user)?;
        let all = Subjects::found_by(alloc, all, Rc::new(alloc, by_id)?, by_group)?;
        Ok(all)
    }

    /// Removes a user. Those after it have other places then, so all lists are built again.
    pub fn without(&self, alloc: Global, at: usize) -> Result<Subjects, AllocError>
        requires { at < length self.now }
        ensures { Makes result (remove self.now at) }
    {
        let mut users = copied(alloc, self.as_slice())?;
        let _gone = users.remove(at);
        let others = Subjects::of(alloc, users)?;
        Ok(others)
    }
}
