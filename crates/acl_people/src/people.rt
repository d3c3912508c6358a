//! People: who is known by passwd(5) and group(5).

ghost use Rattle.std.specs.Prelude.{◌≡◌, ◌<◌, ◌++◌, ◌∷◌, [], length, map, slice_get, option_map};
ghost use Rattle.std.specs.Option.{option_copied};
ghost use Rattle.acl_people.specs.NameTables.{place_of_word, IsPlaceIn};
ghost use Rattle.acl_people.specs.Entries.{AreUsers};
ghost use Rattle.acl_people.specs.KnownPeople.{KnownPeople, person, nobody, known_by, users_of, groups_of, persons, subject, load_passwd, load_group, naming_of, IsSound, Loads, LoadsOnce, UsersAreReadBack, GroupsAreReadBack};
ghost use Rattle.acl_people.specs.Changes.{name_of, with_rows, with_user_row};
ghost use Rattle.acl_people.specs.Moves.{ChangesOne, LosesOne};
ghost use Rattle.acl_names.specs.Made.{values, Makes};

use crate::fault::{LoadFault, text_fault};
use crate::groups::Groups;
use crate::persons::{shared_person, subjects_of};
use crate::subjects::Subjects;
use crate::users::Users;
use acl_entry::{Id, Subject};
use acl_text::{Names, PasswdRow};
use std::alloc::{AllocError, Global};
use std::marker::Model;
use std::rc::Rc;

/// The users and groups of a passwd and a group text, each loaded at most once. What is known is shared
/// among copies.
#[derive(Drop)]
pub struct People {
    users: Rc<Users>,
    groups: Rc<Groups>,
    subjects: Subjects,
    passwd_loaded: bool,
    group_loaded: bool,
}

impl Model for People {
    ghost Value = { KnownPeople };

    ghost view = { λ p. known_by p.users.value p.groups.value p.passwd_loaded p.group_loaded };

    ghost invariant = { λ p. p.subjects ≡ map (person p.groups.value) p.users.value };
}

impl People {
    /// Returns nobody: no text is loaded.
    pub fn new(alloc: Global) -> Result<People, AllocError>
        ensures { Makes result nobody }
    {
        let users = Rc::new(alloc, Users::new(alloc)?)?;
        let groups = Rc::new(alloc, Groups::new(alloc)?)?;
        People::of_rows(alloc, users, groups, false, false)
    }

    /// Computes every user's groups from rows.
    fn of_rows(
        alloc: Global,
        users: Rc<Users>,
        groups: Rc<Groups>,
        passwd_loaded: bool,
        group_loaded: bool,
    ) -> Result<People, AllocError>
        ensures { Makes result (known_by users.value groups.value passwd_loaded group_loaded) }
    {
        let subjects = subjects_of(alloc, users.rows(), groups.rows())?;
        let subjects = Subjects::of(alloc, subjects)?;
        Ok(People {
            users,
            groups,
            subjects,
            passwd_loaded,
            group_loaded,
        })
    }

    /// Copies the people; both share the rows.
    pub fn share(&self) -> Result<People, AllocError>
        ensures { Makes result self.now }
    {
        Ok(People {
            users: self.users.clone()?,
            groups: self.groups.clone()?,
            subjects: self.subjects.share()?,
            passwd_loaded: self.passwd_loaded(),
            group_loaded: self.group_loaded(),
        })
    }

    /// Tells whether a passwd text was loaded.
    pub fn passwd_loaded(&self) -> bool
        ensures { result ≡ self.now.passwd_loaded }
    {
        self.passwd_loaded
    }

    /// Tells whether a group text was loaded.
    pub fn group_loaded(&self) -> bool
        ensures { result ≡ self.now.group_loaded }
    {
        self.group_loaded
    }

    /// Returns the number of users.
    pub fn users(&self) -> usize
        ensures { result ≡ length self.now.users }
    {
        self.users.rows().len()
    }

    /// Returns the place of the user that a word means: digits alone are the first user of that id, any other word is
    /// a name.
    pub fn find_user(&self, word: &[u8]) -> Option<usize>
        ensures found { result ≡ place_of_word word.now (users_of self.now) }
        ensures within { IsPlaceIn self.now.users result }
    {
        self.users.name_table().place_of_word(word)
    }

    /// Returns the place of the group that a word means: digits alone are the first group of that id, any other word
    /// is a name.
    pub fn find_group(&self, word: &[u8]) -> Option<usize>
        ensures found { result ≡ place_of_word word.now (groups_of self.now) }
        ensures within { IsPlaceIn self.now.groups result }
    {
        self.groups.name_table().place_of_word(word)
    }

    /// Returns the name in the user's row; `None` past the last user.
    pub fn name(&self, user: usize) -> Option<&[u8]>
        ensures { option_copied result ≡ option_map (λ row. row.name) (slice_get self.now.users user) }
    {
        match self.users.rows().get(user) {
            Some(row) => Some(row.name.as_bytes()),
            None => None,
        }
    }

    /// Returns the user's row; `None` past the last user.
    pub fn user_row(&self, user: usize) -> Option<&PasswdRow>
        ensures { option_copied result ≡ slice_get self.now.users user }
    {
        match self.users.rows().get(user) {
            Some(row) => Some(row),
            None => None,
        }
    }

    /// Copies the user's id and groups; `None` past the last user. [`People::subject_at`] borrows them.
    pub fn subject(&self, alloc: Global, user: usize) -> Result<Option<Subject>, AllocError>
        ensures { Makes result (subject self.now user) }
    {
        match self.subject_at(user) {
            Some(subject) => Ok(Some(subject.try_clone(alloc)?)),
            None => Ok(None),
        }
    }

    /// Returns the user's id and groups; `None` past the last user.
    pub fn subject_at(&self, user: usize) -> Option<&Subject>
        ensures { option_copied result ≡ subject self.now user }
    {
        match self.subjects().get(user) {
            Some(subject) => Some(subject),
            None => None,
        }
    }

    /// Returns every user's id and groups, in the order of their rows.
    pub fn subjects(&self) -> &[Rc<Subject>]
        ensures { values result.now ≡ persons self.now }
    {
        self.subjects.as_slice()
    }

    /// Returns every user's id and groups, in the order of their rows, found by id and by group.
    pub fn all_subjects(&self) -> &Subjects
        ensures { result.now ≡ persons self.now }
    {
        &self.subjects
    }

    /// Adds the users of a passwd text. Refused if one was loaded, whatever memory there is, for the text's first
    /// fault, or if memory runs out.
    pub fn load_passwd(&self, alloc: Global, bytes: &[u8]) -> Result<People, LoadFault>
        ensures reported { Loads result (load_passwd self.now bytes.now) }
        ensures again { LoadsOnce result self.now.passwd_loaded }
    {
        if self.passwd_loaded {
            return Err(LoadFault::AlreadyLoaded);
        }
        let users = match Users::read(alloc, bytes) {
            Ok(users) => users,
            Err(fault) => return Err(text_fault(fault)),
        };
        let users = Rc::new(alloc, users)?;
        let groups = self.groups.clone()?;
        let people = People::of_rows(alloc, users, groups, true, self.group_loaded)?;
        Ok(people)
    }

    /// Adds the groups of a group text. Refused if one was loaded, whatever memory there is, for the text's first
    /// fault, or if memory runs out.
    pub fn load_group(&self, alloc: Global, bytes: &[u8]) -> Result<People, LoadFault>
        ensures reported { Loads result (load_group self.now bytes.now) }
        ensures again { LoadsOnce result self.now.group_loaded }
    {
        if self.group_loaded {
            return Err(LoadFault::AlreadyLoaded);
        }
        let groups = match Groups::read(alloc, bytes) {
            Ok(groups) => groups,
            Err(fault) => return Err(text_fault(fault)),
        };
        let groups = Rc::new(alloc, groups)?;
        let users = self.users.clone()?;
        let people = People::of_rows(alloc, users, groups, self.passwd_loaded, true)?;
        Ok(people)
    }

    pub(crate) fn user_rows(&self) -> &Rc<Users>
        ensures rows { result.now.value ≡ self.now.users }
        ensures sound { IsSound self.now }
    {
        self.soundness_law();
        &self.users
    }

    pub(crate) fn group_rows(&self) -> &Rc<Groups>
        ensures rows { result.now.value ≡ self.now.groups }
        ensures sound { IsSound self.now }
    {
        self.soundness_law();
        &self.groups
    }

    /// Returns the name in the row of a user.
    pub(crate) fn name_of(&self, user: usize) -> &[u8]
        requires { user < length self.now.users }
        ensures { result.now ≡ name_of user self.now }
    {
        self.users.rows()[user].name.as_bytes()
    }

    /// Takes these rows, in which only one user's groups may have changed: only these are computed.
    pub(crate) fn with_rows(
        &self,
        alloc: Global,
        users: &Rc<Users>,
        groups: &Rc<Groups>,
        user: usize,
    ) -> Result<People, AllocError>
        requires { ChangesOne user self.now (with_rows users.now.value groups.now.value self.now) }
        ensures { Makes result (with_rows users.now.value groups.now.value self.now) }
    {
        let subject = shared_person(alloc, groups, &users.rows()[user])?;
        let subjects = self.all_subjects().with(alloc, user, subject)?;
        Ok(People {
            users: users.clone()?,
            groups: groups.clone()?,
            subjects,
            passwd_loaded: self.passwd_loaded,
            group_loaded: self.group_loaded,
        })
    }

    /// Adds a user's row, the last. The users count as loaded.
    pub(crate) fn with_user_row(&self, alloc: Global, row: PasswdRow) -> Result<People, AllocError>
        requires { AreUsers (self.now.users ++ row ∷ []) }
        ensures { Makes result (with_user_row row self.now) }
    {
        let subject = shared_person(alloc, &self.groups, &row)?;
        let subjects = self.all_subjects().with_last(alloc, subject)?;
        Ok(People {
            users: Rc::new(alloc, self.users.with_row(alloc, row)?)?,
            groups: self.groups.clone()?,
            subjects,
            passwd_loaded: true,
            group_loaded: self.group_loaded,
        })
    }

    /// Takes these rows, in which a user is gone and no other changed.
    pub(crate) fn without_subject(
        &self,
        alloc: Global,
        users: Rc<Users>,
        groups: Rc<Groups>,
        user: usize,
    ) -> Result<People, AllocError>
        requires { LosesOne user self.now (with_rows users.value groups.value self.now) }
        ensures { Makes result (with_rows users.value groups.value self.now) }
    {
        let subjects = self.all_subjects().without(alloc, user)?;
        Ok(People {
            users,
            groups,
            subjects,
            passwd_loaded: self.passwd_loaded,
            group_loaded: self.group_loaded,
        })
    }

    /// Proof only: there are at most `MAX_ROWS` users and as many groups, and each name is in one row.
    pub fn soundness_law(&self)
        ensures { IsSound self.now }
    {
        let _users = self.users.name_table();
        let _groups = self.groups.name_table();
    }

    /// Proof only: the names that ids print as are found under these ids, are made of bytes, are not empty, and are
    /// not digits alone.
    pub fn naming_is_read_back(&self)
        ensures users { UsersAreReadBack self.now }
        ensures groups { GroupsAreReadBack self.now }
    {
        let _users = self.users.name_table();
        let _groups = self.groups.name_table();
    }
}

impl Names for People {
    ghost naming = { λ known. naming_of known };

    fn user_id(&self, name: &[u8]) -> Option<Id> {
        self.users.name_table().id_named(name)
    }

    fn group_id(&self, name: &[u8]) -> Option<Id> {
        self.groups.name_table().id_named(name)
    }

    fn user_name(&self, id: Id) -> Option<&[u8]> {
        self.users.name_table().name_shown(id)
    }

    fn group_name(&self, id: Id) -> Option<&[u8]> {
        self.groups.name_table().name_shown(id)
    }
}
