//! Who decides on a user and a file; and two judges, the access check of acl(5) and what Linux grants.

ghost use Rattle.std.specs.Prelude.{◌≡◌, ◌+◌, ◌*◌, ◌<◌, ◌^◌, ℕ, length};
ghost use Rattle.acl_entry.proofs.Local.{linux_rights_local, rights_local};
ghost use Rattle.acl_entry.specs.Check.{rights};
ghost use Rattle.acl_entry.specs.Linux.{linux_rights};
ghost use Rattle.acl_rights.specs.Deciders.{Decider, linux_sole_key, sole_key};
ghost use Rattle.acl_rights.specs.Rows.{Verdict, row_of, IsLocal};

use crate::deciding::{linux_sole_key, sole_key};
use acl_entry::{Key, Label, Requests, Subject, granted, granted_by_linux};
use acl_people::{Subjects, granted_to_all, granted_to_all_by_linux};

/// Decides what a user may do with a file, by one definition for all values of the type, and counts its
/// verdicts.
pub trait Judge {
    /// The verdict on a user and a label.
    ghost verdict_of: { Verdict };

    /// The key of the entry that alone decides on a user and a label, if there is one.
    ghost decider_of: { Decider };

    /// How many verdicts were decided.
    ghost asked_of: { Self → ℕ };

    /// Returns the verdict on a user and a label.
    fn verdict(&mut self, subject: &Subject, label: &Label) -> Requests
        requires { asked_of self.old + 1 < 2 ^ 64 }
        ensures verdict { result ≡ verdict_of subject.now label.now }
        ensures asked { asked_of self.new ≡ asked_of self.old + 1 };

    /// Writes the verdicts on all users and a label into `row`, in the order of the users, for `files` files that
    /// have this label.
    ///
    /// One verdict counts for each user and each of these files, however they are found. A judge that has no quicker
    /// way decides them one by one, as this body does.
    fn verdicts(&mut self, users: &Subjects, label: &Label, files: u64, row: &mut [Requests])
        requires room { asked_of self.old + files * length users.now < 2 ^ 64 }
        requires some { 0 < files }
        requires length { length row.old ≡ length users.now }
        ensures row { row.new ≡ row_of verdict_of users.now label.now }
        ensures asked { asked_of self.new ≡ asked_of self.old + files * length users.now }
    {
        for _ in 0..files {
            for (at, user) in users.as_slice().iter().enumerate() {
                row[at] = self.verdict(user, label);
            }
        }
    }

    /// Returns the key whose entry alone decides on a user and a label; `None` if the entries of the user's groups do.
    fn sole_key(subject: &Subject, label: &Label) -> Option<Key>
        ensures { result ≡ decider_of subject.now label.now };

    /// Returns how many verdicts were decided.
    fn asked(&self) -> u64
        ensures { result ≡ asked_of self.now };

    /// Locality: the verdicts on two users of one id are the same if their groups agree on those that the
    /// label mentions.
    ghost local: { IsLocal verdict_of };
}

/// The access check of acl(5).
#[derive(Drop)]
pub struct Posix {
    asked: u64,
}

impl Posix {
    /// Returns a judge that has decided no verdict yet.
    pub fn new() -> Posix
        ensures { result.asked ≡ 0 }
    {
        Posix { asked: 0 }
    }
}

impl Judge for Posix {
    ghost verdict_of = { rights };

    ghost decider_of = { sole_key };

    ghost asked_of = { λ judge. judge.asked };

    fn verdict(&mut self, subject: &Subject, label: &Label) -> Requests {
        self.asked += 1;
        granted(subject, label)
    }

    fn verdicts(&mut self, users: &Subjects, label: &Label, files: u64, row: &mut [Requests]) {
        self.asked += files * users.len() as u64;
        granted_to_all(users, label, row);
    }

    fn sole_key(subject: &Subject, label: &Label) -> Option<Key> {
        sole_key(subject, label)
    }

    fn asked(&self) -> u64 {
        self.asked
    }

    ghost local = { rights_local };
}

/// What Linux grants: acl(5)'s check, but on a list whose mask grants nothing the mode alone.
#[derive(Drop)]
pub struct Linux {
    asked: u64,
}

impl Linux {
    /// No verdict was decided yet.
    pub fn new() -> Linux
        ensures { result.asked ≡ 0 }
    {
        Linux { asked: 0 }
    }
}

impl Judge for Linux {
    ghost verdict_of = { linux_rights };

    ghost decider_of = { linux_sole_key };

    ghost asked_of = { λ judge. judge.asked };

    fn verdict(&mut self, subject: &Subject, label: &Label) -> Requests {
        self.asked += 1;
        granted_by_linux(subject, label)
    }

    fn verdicts(&mut self, users: &Subjects, label: &Label, files: u64, row: &mut [Requests]) {
        self.asked += files * users.len() as u64;
        granted_to_all_by_linux(users, label, row);
    }

    fn sole_key(subject: &Subject, label: &Label) -> Option<Key> {
        linux_sole_key(subject, label)
    }

    fn asked(&self) -> u64 {
        self.asked
    }

    ghost local = { linux_rights_local };
}
