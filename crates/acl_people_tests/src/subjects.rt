//! Where users are found, and what all of them are granted at once.
ghost use Rattle.std.specs.Prelude.{◌≡◌, IfSome};

use acl_entry::{Acl, Entry, Id, Key, Label, Perm, Requests, Subject, granted};
use acl_people::{Subjects, granted_to_all};
use std::alloc::Global;
use std::rc::Rc;

/// Each user's id and groups. Two users have one id.
static USERS: [(u32, &[u32]); 4] = [
    (1001, &[50, 60]),
    (1000, &[100]),
    (1002, &[70, 100]),
    (1001, &[70]),
];

fn id(number: u32) -> Option<Id> {
    Id::new(number)
}

/// The ids of some numbers.
fn ids(alloc: Global, numbers: &[u32]) -> Option<Vec<Id>> {
    let mut all = Vec::new(alloc);
    for number in numbers {
        all.push(id(*number)?).ok()?;
    }
    Some(all)
}

/// A user of an id and groups.
fn user(alloc: Global, uid: Id, groups: &[u32]) -> Option<Rc<Subject>>
    ensures { IfSome result (λ user. user.value.uid ≡ uid) }
{
    let subject = Subject::from_groups(alloc, uid, &ids(alloc, groups)?).ok()?;
    let shared = Rc::new(alloc, subject).ok()?;
    Some(shared)
}

/// The users.
fn users(alloc: Global) -> Option<Subjects> {
    let mut all = Vec::new(alloc);
    for (uid, groups) in &USERS {
        all.push(user(alloc, id(*uid)?, groups)?).ok()?;
    }
    Subjects::of(alloc, all).ok()
}

/// Whether places are these, in any order.
fn are(alloc: Global, places: &[usize], wanted: &[usize]) -> Option<bool> {
    let mut rising = places.to_vec(alloc).ok()?;
    rising.sort_unstable();
    Some(rising.as_slice() == wanted)
}

/// Whether the users of an id have these places.
fn have_id(alloc: Global, users: &Subjects, number: u32, wanted: &[usize]) -> Option<bool> {
    are(alloc, users.of_id(id(number)?), wanted)
}

/// Whether the users in a group have these places.
fn are_in(alloc: Global, users: &Subjects, number: u32, wanted: &[usize]) -> Option<bool> {
    are(alloc, users.of_group(id(number)?), wanted)
}

/// The users where the one at a place is in other groups.
fn moved(alloc: Global, users: &Subjects, at: usize, groups: &[u32]) -> Option<Subjects> {
    let old = users.get(at)?;
    let new = user(alloc, old.uid(), groups)?;
    users.with(alloc, at, new).ok()
}

/// The users without one.
fn without(alloc: Global, users: &Subjects, at: usize) -> Option<Subjects> {
    if at >= users.len() {
        return None;
    }
    users.without(alloc, at).ok()
}

/// What acl(5)'s check grants all users, as bytes, found at once.
fn at_once(alloc: Global, users: &Subjects, label: &Label) -> Option<Vec<u8>> {
    let mut row = vec![in alloc; Requests::none(); users.len()].ok()?;
    granted_to_all(users, label, &mut row);
    let mut bytes = Vec::new(alloc);
    for requests in &row {
        bytes.push(requests.bits()).ok()?;
    }
    Some(bytes)
}

/// The same, found user by user.
fn one_by_one(alloc: Global, users: &Subjects, label: &Label) -> Option<Vec<u8>> {
    let mut bytes = Vec::new(alloc);
    for user in users.as_slice() {
        bytes.push(granted(user, label).bits()).ok()?;
    }
    Some(bytes)
}

/// A minimal list's label.
fn label(alloc: Global, owner: u32, group: u32, mode: u16) -> Option<Label> {
    Some(Label {
        owner: id(owner)?,
        group: id(group)?,
        acl: Acl::minimal(alloc, mode).ok()?,
    })
}

/// An entry of a permission set's number.
fn entry(key: Key, number: u8) -> Option<Entry> {
    let perm = Perm::from_number(number)?;
    Some(Entry { key, perm })
}

/// A label whose list names a user and two groups, under a mask.
fn label_with_names(alloc: Global) -> Option<Label> {
    let entries = [
        entry(Key::Owner, 4)?,
        entry(Key::User(id(1002)?), 6)?,
        entry(Key::OwningGroup, 1)?,
        entry(Key::Group(id(50)?), 7)?,
        entry(Key::Group(id(100)?), 3)?,
        entry(Key::Mask, 5)?,
        entry(Key::Other, 4)?,
    ];
    Some(Label {
        owner: id(1000)?,
        group: id(70)?,
        acl: Acl::from_entries(alloc, &entries).ok()?,
    })
}

/// Whether all users are granted at once what they are granted one by one.
fn agree(alloc: Global, users: &Subjects, label: &Label) -> Option<bool> {
    Some(at_once(alloc, users, label)? == one_by_one(alloc, users, label)?)
}

#[test]
fn users_are_found(rt: HostRuntime) {
    let alloc = rt.alloc();
    let users = users(alloc).expect(&rt, "users");
    assert!(rt; users.len() == 4);
    assert!(rt; have_id(alloc, &users, 1001, &[0, 3]) == Some(true));
    assert!(rt; are_in(alloc, &users, 70, &[2, 3]) == Some(true));
    assert!(rt; are_in(alloc, &users, 9, &[]) == Some(true));
}

#[test]
fn a_user_moves(rt: HostRuntime) {
    let alloc = rt.alloc();
    let users = users(alloc).expect(&rt, "users");
    let after = moved(alloc, &users, 1, &[60, 70]).expect(&rt, "users");
    assert!(rt; are_in(alloc, &after, 60, &[0, 1]) == Some(true));
    assert!(rt; are_in(alloc, &after, 70, &[1, 2, 3]) == Some(true));
    assert!(rt; are_in(alloc, &after, 100, &[2]) == Some(true));
    assert!(rt; are_in(alloc, &users, 100, &[1, 2]) == Some(true));
}

#[test]
fn a_user_comes(rt: HostRuntime) {
    let alloc = rt.alloc();
    let uid = id(1000).expect(&rt, "an id");
    let new = user(alloc, uid, &[50]).expect(&rt, "a user");
    let users = users(alloc).expect(&rt, "users");
    let after = users
        .share()
        .expect(&rt, "memory")
        .with_last(alloc, new)
        .expect(&rt, "memory");
    assert!(rt; have_id(alloc, &after, 1000, &[1, 4]) == Some(true));
    assert!(rt; are_in(alloc, &after, 50, &[0, 4]) == Some(true));
    assert!(rt; are_in(alloc, &users, 50, &[0]) == Some(true));
}

#[test]
fn a_user_goes(rt: HostRuntime) {
    let alloc = rt.alloc();
    let users = users(alloc).expect(&rt, "users");
    let after = without(alloc, &users, 1).expect(&rt, "users");
    assert!(rt; have_id(alloc, &after, 1001, &[0, 2]) == Some(true));
    assert!(rt; are_in(alloc, &after, 100, &[1]) == Some(true));
    assert!(rt; have_id(alloc, &after, 1000, &[]) == Some(true));
}

#[test]
fn all_users_are_granted_what_each_one_is(rt: HostRuntime) {
    let alloc = rt.alloc();
    let users = users(alloc).expect(&rt, "users");
    let of_two = label(alloc, 1001, 70, 0o740).expect(&rt, "a label");
    let of_none = label(alloc, 9, 9, 0o754).expect(&rt, "a label");
    assert!(rt; agree(alloc, &users, &of_two) == Some(true));
    assert!(rt; agree(alloc, &users, &of_none) == Some(true));
    let with_names = label_with_names(alloc).expect(&rt, "a label");
    assert!(rt; agree(alloc, &users, &with_names) == Some(true));
}
