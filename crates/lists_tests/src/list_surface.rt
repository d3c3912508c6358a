//! The public surface of acl_entry as a user sees it, with its types written out: permission sets, lists, and the check.
use acl_entry::{
    Acl, Entry, Id, Key, Label, ListFault, NoMemory, Perm, Requests, Subject, granted,
    groups_of_one,
};
use std::alloc::Global;
use std::process::Abort;

#[test]
fn permission_sets_and_ids(rt: HostRuntime) {
    let above_seven: Option<Perm> = Perm::from_number(8);
    let read: Perm = Perm::from_number(4).expect(&rt, "r--");
    let number: u8 = read.number();
    let text: [u8; 3] = read.text();
    assert!(rt; above_seven.is_none() && number == 4 && text == *b"r--");
    let nobody: Option<Id> = Id::new(4_294_967_295);
    let last: Option<Id> = Id::new(4_294_967_294);
    assert!(rt; nobody.is_none() && last.is_some());
}

/// The entry of a key with the permissions of a digit.
fn entry(rt: &impl Abort, key: Key, digit: u8) -> Entry {
    let perm = Perm::from_number(digit).expect(rt, "a digit");
    Entry { key, perm }
}

/// `user::rw-`, `user:1000:rwx`, `group::r--`, `mask::rwx`, `other::---`.
fn five(rt: &impl Abort, alloc: Global) -> Acl {
    let joe: Id = Id::new(1000).expect(rt, "an id");
    let entries = [
        entry(rt, Key::Owner, 6),
        entry(rt, Key::User(joe), 7),
        entry(rt, Key::OwningGroup, 4),
        entry(rt, Key::Mask, 7),
        entry(rt, Key::Other, 0),
    ];
    let made: Result<Acl, ListFault> = Acl::from_entries(alloc, &entries);
    made.expect(rt, "a list")
}

#[test]
fn a_minimal_list(rt: HostRuntime) {
    let minimal: Result<Acl, NoMemory> = Acl::minimal(rt.alloc(), 0o640);
    assert!(rt; minimal.expect(&rt, "memory").is_minimal());
}

#[test]
fn a_list(rt: HostRuntime) {
    let list: Acl = five(&rt, rt.alloc());
    let entries: &[Entry] = list.entries();
    assert!(rt; entries.len() == 5);
    let group: Option<Perm> = list.get(Key::OwningGroup);
    let effective: Option<Perm> = list.effective(Key::OwningGroup);
    assert!(rt; group == effective);
    let union: Perm = list.class_union();
    let mode: u16 = list.mode();
    assert!(rt; (union.number(), mode) == (7, 0o670));
}

#[test]
fn modes_of_a_list(rt: HostRuntime) {
    let mut list: Acl = five(&rt, rt.alloc());
    list.chmod(0o600);
    assert!(rt; list.mode() == 0o600);
    list.restrict(0o400);
    let copy: Result<Acl, NoMemory> = list.try_clone(rt.alloc());
    assert!(rt; copy.expect(&rt, "memory").mode() == 0o400);
}

/// The number of a fault among the faults of a list.
fn number(fault: ListFault) -> (u8, usize, Option<Key>) {
    match fault {
        ListFault::Repeated { at } => (1, at, None),
        ListFault::MissingBase { key } => (2, 0, Some(key)),
        ListFault::MissingMask { at } => (3, at, None),
        ListFault::TooLong => (4, 0, None),
        ListFault::NoMemory => (5, 0, None),
    }
}

#[test]
fn a_fault_of_a_list(rt: HostRuntime) {
    let twice = [entry(&rt, Key::Owner, 6), entry(&rt, Key::Owner, 6)];
    let fault: ListFault = Acl::from_entries(rt.alloc(), &twice)
        .err()
        .expect(&rt, "a fault");
    let (kind, at, _) = number(fault);
    assert!(rt; kind == 1 && at == 2);
}

/// A file of five entries.
fn label(rt: &impl Abort, alloc: Global, group: Id) -> Label {
    Label {
        owner: Id::new(1001).expect(rt, "an id"),
        group,
        acl: five(rt, alloc),
    }
}

#[test]
fn the_check(rt: HostRuntime) {
    let joe: Id = Id::new(1000).expect(&rt, "an id");
    let staff: Id = Id::new(50).expect(&rt, "an id");
    let subject: Result<Subject, NoMemory> = Subject::from_groups(rt.alloc(), joe, &[staff]);
    let subject: Subject = subject.expect(&rt, "memory");
    let groups: &[Id] = subject.groups();
    assert!(rt; subject.uid() == joe && groups.len() == 1 && groups[0] == staff);
    let is_matched: bool = subject.matches(staff, &Key::OwningGroup);
    assert!(rt; is_matched && !subject.matches(joe, &Key::OwningGroup));
    let requests: Requests = granted(&subject, &label(&rt, rt.alloc(), staff));
    let Requests(byte) = requests;
    assert!(rt; byte == 0xff);
}

#[test]
fn requests(rt: HostRuntime) {
    let whole: Perm = Perm::from_number(7).expect(&rt, "rwx");
    assert!(rt; Requests(0xff).has(whole) && !Requests(0x7f).has(whole));
}

#[test]
fn a_subject_without_groups(rt: HostRuntime) {
    let joe: Id = Id::new(1000).expect(&rt, "an id");
    let alone: Subject = Subject::new(joe, Vec::new(rt.alloc()));
    assert!(rt; alone.uid().number() == 1000 && alone.groups().is_empty());
}

/// A user of two groups.
fn of_two(rt: &impl Abort, alloc: Global, groups: [u32; 2]) -> Subject {
    let joe: Id = Id::new(1000).expect(rt, "an id");
    let one: Id = Id::new(groups[0]).expect(rt, "an id");
    let other: Id = Id::new(groups[1]).expect(rt, "an id");
    Subject::from_groups(alloc, joe, &[one, other]).expect(rt, "memory")
}

#[test]
fn groups_that_a_user_joined_or_left(rt: HostRuntime) {
    let before: Subject = of_two(&rt, rt.alloc(), [70, 50]);
    let after: Subject = of_two(&rt, rt.alloc(), [50, 60]);
    let moved: Result<Vec<Id>, NoMemory> = groups_of_one(rt.alloc(), &before, &after);
    let moved: Vec<Id> = moved.expect(&rt, "memory");
    assert!(rt; moved.len() == 2);
    assert!(rt; (moved[0].number(), moved[1].number()) == (60, 70));
}
