//! What a file has for the check, and who asks: acl(5), "ACCESS CHECK ALGORITHM"; and the groups that a label mentions.

ghost use Rattle.std.specs.Prelude.{◌≡◌, ℕ, IfOk};
ghost use Rattle.std.specs.List.Sorted.{IsStrictlyIncreasing};
ghost use Rattle.std.specs.FinSet as sets;
ghost use Rattle.std.specs.Ordering.{nat_cmp};
ghost use Rattle.acl_entry.specs.Mentions.{is_one_of, mentions, meets};

use crate::{Acl, Id, Key};
use std::alloc::{AllocError, Global};
use std::marker::Model;

/// What the check reads of a file: its owner, its group and its access list.
#[derive(Drop)]
pub struct Label {
    pub owner: Id,
    pub group: Id,
    pub acl: Acl,
}

/// Who asks: a user's id and groups.
#[derive(Drop)]
pub struct Subject {
    uid: Id,
    groups: Vec<Id>,
}

impl Model for Subject {
    ghost use Rattle.std.specs.List.Sorted.{IsStrictlyIncreasing};
    ghost use Rattle.std.specs.FinSet.{from_list};
    ghost use Rattle.acl_entry.specs.Person.{Person, coded_person};

    ghost Value = { Person };

    ghost coded = { coded_person };

    ghost view = { λ s. record { uid = s.uid; groups = from_list s.groups.items } };

    ghost invariant = { λ s. IsStrictlyIncreasing s.groups.items };
}

impl Subject {
    /// Returns a user of these groups, which rise, each once.
    pub fn new(uid: Id, groups: Vec<Id>) -> Subject
        requires { IsStrictlyIncreasing groups.items }
        ensures { result ≡ record { uid = uid; groups = sets.from_list groups.items } }
    {
        Subject { uid, groups }
    }

    /// Returns a user of these groups, in any order and with repeats.
    pub fn from_groups(alloc: Global, uid: Id, groups: &[Id]) -> Result<Subject, AllocError>
        ensures { IfOk result (λ subject. subject ≡ record { uid = uid; groups = sets.from_list groups.now }) }
    {
        let rising = rising_ids(groups.to_vec(alloc)?)?;
        Ok(Subject::new(uid, rising))
    }

    /// Copies the user's id and groups.
    pub fn try_clone(&self, alloc: Global) -> Result<Subject, AllocError>
        ensures { IfOk result (λ subject. subject ≡ self.now) }
    {
        Ok(Subject {
            uid: self.uid,
            groups: self.groups.to_vec(alloc)?,
        })
    }

    /// Returns the user's id.
    pub fn uid(&self) -> Id
        ensures { result ≡ self.now.uid }
    {
        self.uid
    }

    /// Returns the user's groups, which rise, each once.
    pub fn groups(&self) -> &[Id]
        ensures all { sets.from_list result.now ≡ self.now.groups }
        ensures rising { IsStrictlyIncreasing result.now }
    {
        &self.groups
    }

    /// Tells whether the user is of the group.
    pub fn is_of(&self, group: Id) -> bool
        ensures { result ≡ sets.contains self.now.groups group }
    {
        self.groups.binary_search(&group).is_ok()
    }
}

/// Sorts `ids` and drops repeats.
pub(crate) fn rising_ids(ids: Vec<Id>) -> Result<Vec<Id>, AllocError>
    ensures rising { IfOk result (λ rising. IsStrictlyIncreasing rising.items) }
    ensures set { IfOk result (λ rising. sets.from_list {R = nat_cmp} rising.items ≡ sets.from_list ids.items) }
    ensures same { IfOk result (λ rising. (id : ℕ) → is_one_of id rising.items ≡ is_one_of id ids.items) }
{
    let mut rising = ids;
    rising.sort()?;
    rising.dedup();
    Ok(rising)
}

impl Label {
    /// Returns the file's group, then the groups that entries name, in list order.
    ///
    /// What the check grants a user rests, of the user's groups, on these alone.
    pub fn mentions(&self, alloc: Global) -> Result<Vec<Id>, AllocError>
        ensures { IfOk result (λ ids. ids.items ≡ mentions self.now) }
    {
        let mut ids = Vec::new(alloc);
        ids.push(self.group)?;
        for entry in self.acl.entries() {
            if let Key::Group(id) = entry.key {
                ids.push(id)?;
            }
        }
        Ok(ids)
    }

    /// Tells whether the label mentions one of the groups.
    pub fn mentions_one_of(&self, groups: &[Id]) -> bool
        ensures { result ≡ meets (mentions self.now) groups.now }
    {
        if groups.contains(&self.group) {
            return true;
        }
        for entry in self.acl.entries() {
            if let Key::Group(id) = entry.key {
                if groups.contains(&id) {
                    return true;
                }
            }
        }
        false
    }
}
