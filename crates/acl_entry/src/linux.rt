//! What Linux grants (fs/namei.c, `acl_permission_check`): acl(5)'s check, but for a list whose mask grants nothing. There
//! the mode decides: the owner has the owner's digit, a member of the file's group nothing, and everybody else, also a
//! user or a member of a group whom the list names, the digit of others.

ghost use Rattle.std.specs.Prelude.{◌≡◌};
ghost use Rattle.acl_entry.specs.Linux.{check_mode, has_empty_mask, linux_check, linux_rights, LinuxChecksListOrMode};
ghost use Rattle.acl_entry.specs.Check.{byte_of, has};
ghost use Rattle.acl_entry.specs.Mentions.{AgreeOnMentions};
ghost use Rattle.acl_entry.specs.Perms.{Perms};
ghost use Rattle.acl_entry.specs.Person.{Person};

use crate::{Acl, Key, Label, Perm, Requests, Subject, granted};

impl Acl {
    /// Tells whether the list has a mask that grants nothing, as `chmod 604` makes one of a list with named entries.
    pub fn has_empty_mask(&self) -> bool
        ensures { result ≡ has_empty_mask self.now }
    {
        match self.get(Key::Mask) {
            Some(mask) => mask.number() == 0,
            None => false,
        }
    }
}

/// Returns what a mode grants whose group digit is 0.
fn granted_by_mode(subject: &Subject, label: &Label) -> Requests
    ensures { result ≡ byte_of (check_mode subject.now label.now) }
{
    if subject.uid() == label.owner {
        return Requests::within(label.acl.perm_or_none(&Key::Owner));
    }
    if subject.is_of(label.group) {
        return Requests::within(Perm::none());
    }
    Requests::within(label.acl.perm_or_none(&Key::Other))
}

/// Returns the requests that Linux grants, by the list or by the mode.
fn all_granted(subject: &Subject, label: &Label) -> Requests
    ensures { result ≡ linux_rights subject.now label.now }
{
    if label.acl.has_empty_mask() {
        granted_by_mode(subject, label)
    } else {
        granted(subject, label)
    }
}

/// Returns the requests that Linux grants a user on a file.
///
/// It differs from [`granted`] only on a list whose mask grants nothing, and grants there what the list of the mode alone
/// grants ([`linux_checks_the_list_or_the_mode`]).
pub fn granted_by_linux(subject: &Subject, label: &Label) -> Requests
    ensures all { result ≡ linux_rights subject.now label.now }
    ensures each { (q : Perms) → has result q ≡ linux_check subject.now label.now q }
    ensures local { (other : Person) → AgreeOnMentions subject.now other label.now → result ≡ linux_rights other label.now }
{
    all_granted(subject, label)
}

/// Proof only: Linux grants what acl(5)'s check grants on the file's list; or, if the list has a mask that grants nothing, on
/// the list that has the entries of the file's mode alone.
pub fn linux_checks_the_list_or_the_mode()
    ensures { LinuxChecksListOrMode }
{}
