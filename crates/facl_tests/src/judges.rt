//! Judges whose verdicts are not those of acl(5)'s check.

ghost use Rattle.std.specs.Prelude.{◌≡◌, ◌^◌, Some, length, map};
ghost use Rattle.acl_entry.specs.Lists.{perm_at};
ghost use Rattle.acl_entry.specs.Perms.{number};
ghost use Rattle.acl_entry.specs.declared.entry.Key.TheVariants.{Owner};
ghost use Rattle.facl_tests.specs.Verdicts.{class_key, owner_alone, owner_alone_local, whole_class, whole_class_local};

use acl_entry::{Key, Label, Perm, Requests, Subject};
use acl_people::Subjects;
use acl_rights::Judge;

fn set_of(label: &Label, key: Key) -> Perm
    ensures { result ≡ perm_at label.now.acl key }
{
    label.acl.get(key).unwrap_or(Perm::none())
}

/// What the owner's entry grants, to the owner alone.
fn owner_alone(subject: &Subject, label: &Label) -> Requests
    ensures { result ≡ owner_alone subject.now label.now }
{
    if subject.uid() == label.owner {
        Requests::within(set_of(label, Key::Owner))
    } else {
        Requests::none()
    }
}

/// Grants the owner what the owner's entry contains, and nobody else anything.
#[derive(Drop)]
pub struct OwnerAlone {
    asked: u64,
}

impl OwnerAlone {
    /// Returns a judge that has decided no verdict yet.
    pub fn new() -> OwnerAlone
        ensures { result.asked ≡ 0 }
    {
        OwnerAlone { asked: 0 }
    }
}

impl Judge for OwnerAlone {
    ghost verdict_of = { owner_alone };

    ghost decider_of = { λ _ _. Some Owner };

    ghost asked_of = { λ judge. judge.asked };

    fn verdict(&mut self, subject: &Subject, label: &Label) -> Requests {
        self.asked += 1;
        owner_alone(subject, label)
    }

    fn sole_key(_subject: &Subject, _label: &Label) -> Option<Key> {
        Some(Key::Owner)
    }

    fn asked(&self) -> u64 {
        self.asked
    }

    ghost local = { owner_alone_local };
}

/// What the owner's entry grants each user.
fn owners_at_once(users: &Subjects, label: &Label, row: &mut [Requests])
    requires { length row.old ≡ length users.now }
    ensures { row.new ≡ map (λ u. owner_alone u label.now) users.now }
{
    for (at, user) in users.as_slice().iter().enumerate() {
        row[at] = owner_alone(user, label);
    }
}

/// Grants as [`OwnerAlone`] does, and looks at each user once for all files of a label.
#[derive(Drop)]
pub struct OwnerAtOnce {
    asked: u64,
}

impl OwnerAtOnce {
    /// Returns a judge that has decided no verdict yet.
    pub fn new() -> OwnerAtOnce
        ensures { result.asked ≡ 0 }
    {
        OwnerAtOnce { asked: 0 }
    }
}

impl Judge for OwnerAtOnce {
    ghost verdict_of = { owner_alone };

    ghost decider_of = { λ _ _. Some Owner };

    ghost asked_of = { λ judge. judge.asked };

    fn verdict(&mut self, subject: &Subject, label: &Label) -> Requests {
        self.asked += 1;
        owner_alone(subject, label)
    }

    fn verdicts(&mut self, users: &Subjects, label: &Label, files: u64, row: &mut [Requests]) {
        self.asked += files * users.len() as u64;
        owners_at_once(users, label, row);
    }

    fn sole_key(_subject: &Subject, _label: &Label) -> Option<Key> {
        Some(Key::Owner)
    }

    fn asked(&self) -> u64 {
        self.asked
    }

    ghost local = { owner_alone_local };
}

/// The key of the user's class: of the owner, of the owning group, or of the others.
fn class_key(subject: &Subject, label: &Label) -> Key
    ensures { result ≡ class_key subject.now label.now }
{
    if subject.uid() == label.owner {
        Key::Owner
    } else if subject.is_of(label.group) {
        Key::OwningGroup
    } else {
        Key::Other
    }
}

/// Grants one request, the whole permission set of the user's class, and no smaller one.
#[derive(Drop)]
pub struct WholeClass {
    asked: u64,
}

impl WholeClass {
    /// Returns a judge that has decided no verdict yet.
    pub fn new() -> WholeClass
        ensures { result.asked ≡ 0 }
    {
        WholeClass { asked: 0 }
    }
}

impl Judge for WholeClass {
    ghost verdict_of = { whole_class };

    ghost decider_of = { λ u f. Some (class_key u f) };

    ghost asked_of = { λ judge. judge.asked };

    fn verdict(&mut self, subject: &Subject, label: &Label) -> Requests {
        self.asked += 1;
        one_request(set_of(label, class_key(subject, label)))
    }

    fn sole_key(subject: &Subject, label: &Label) -> Option<Key> {
        Some(class_key(subject, label))
    }

    fn asked(&self) -> u64 {
        self.asked
    }

    ghost local = { whole_class_local };
}

/// A request alone.
fn one_request(request: Perm) -> Requests
    ensures { result ≡ 2 ^ number request }
{
    Requests::from_byte(1 << request.number())
}

/// Grants as [`OwnerAlone`] does, and counts what it is asked about joe, and about files of ann.
#[derive(Drop)]
pub struct Watching {
    asked: u64,
    pub about_joe: u64,
    pub on_files_of_ann: u64,
}

impl Watching {
    /// Returns a judge that has decided no verdict yet.
    pub fn new() -> Watching
        ensures { result.asked ≡ 0 }
    {
        Watching {
            asked: 0,
            about_joe: 0,
            on_files_of_ann: 0,
        }
    }

    /// Counts a verdict for what it is about.
    fn note(&mut self, subject: &Subject, label: &Label)
        ensures { self.new.asked ≡ self.old.asked }
    {
        if subject.uid().number() == 1000 {
            self.about_joe = self.about_joe.saturating_add(1);
        }
        if label.owner.number() == 1002 {
            self.on_files_of_ann = self.on_files_of_ann.saturating_add(1);
        }
    }
}

impl Judge for Watching {
    ghost verdict_of = { owner_alone };

    ghost decider_of = { λ _ _. Some Owner };

    ghost asked_of = { λ judge. judge.asked };

    fn verdict(&mut self, subject: &Subject, label: &Label) -> Requests {
        self.asked += 1;
        self.note(subject, label);
        owner_alone(subject, label)
    }

    fn sole_key(_subject: &Subject, _label: &Label) -> Option<Key> {
        Some(Key::Owner)
    }

    fn asked(&self) -> u64 {
        self.asked
    }

    ghost local = { owner_alone_local };
}
