//! Memberships, primary groups, and users that come and go.
use acl_entry::Id;
use acl_names::Name;
use acl_people::{
    People, UserName, added_member_is_removed, added_user_is_removed, group_held_otherwise_stays,
};
use acl_text::Names;
use std::alloc::Global;
use std::mem;
use std::process::Abort;

const PASSWD: &[u8] = b"lisa:x:1001:50:Lisa:/home/lisa:/bin/sh\n\
joe:x:1000:100:Joe:/home/joe:/bin/sh\n\
ann:x:1002:100:Ann:/home/ann:/bin/sh\n";

const GROUP: &[u8] = b"staff:x:50:\nusers:x:100:\ncool:x:60:lisa,joe,lisa\n\
adm:x:70:\nbob:x:80:bob\nsquad:x:60:joe\n";

fn known(rt: &impl Abort, alloc: Global) -> People {
    let nobody = People::new(alloc).expect(rt, "memory");
    let users = nobody.load_passwd(alloc, PASSWD).expect(rt, "users");
    let people = users.load_group(alloc, GROUP).expect(rt, "groups");
    drop(users);
    drop(nobody);
    people
}

fn id(rt: &impl Abort, number: u32) -> Id {
    Id::new(number).expect(rt, "an id")
}

fn are(ids: &[Id], numbers: &[u32]) -> bool {
    ids.len() == numbers.len()
        && ids
            .iter()
            .zip(numbers)
            .all(|(id, number)| id.number() == *number)
}

/// A change of a user's groups.
enum Command {
    /// `gpasswd -a USER GROUP`
    Add,
    /// `gpasswd -d USER GROUP`
    Remove,
    /// `usermod -g GROUP USER`
    Primary,
}

/// A change, the groups that the user joins or leaves by it, and what is true afterwards.
struct Step {
    command: Command,
    user: &'static [u8],
    group: &'static [u8],
    moved: &'static [u32],
    /// Users, and all their groups.
    groups: &'static [(&'static [u8], &'static [u32])],
    /// A user, a group, and whether the user is a member.
    members: &'static [(&'static [u8], &'static [u8], bool)],
}

static ADDED: [Step; 4] = [
    Step {
        command: Command::Add,
        user: b"joe",
        group: b"adm",
        moved: &[70],
        groups: &[
            (b"joe", &[60, 70, 100]),
            (b"lisa", &[50, 60]),
            (b"ann", &[100]),
        ],
        members: &[],
    },
    // The row names joe already.
    Step {
        command: Command::Add,
        user: b"joe",
        group: b"adm",
        moved: &[],
        groups: &[],
        members: &[],
    },
    // The primary group of joe.
    Step {
        command: Command::Add,
        user: b"joe",
        group: b"users",
        moved: &[],
        groups: &[],
        members: &[(b"joe", b"users", true)],
    },
    // One name was in the row.
    Step {
        command: Command::Remove,
        user: b"joe",
        group: b"adm",
        moved: &[70],
        groups: &[],
        members: &[(b"joe", b"adm", false)],
    },
];

static REMOVED: [Step; 3] = [
    // The row had the name twice.
    Step {
        command: Command::Remove,
        user: b"lisa",
        group: b"cool",
        moved: &[60],
        groups: &[],
        members: &[(b"lisa", b"cool", false), (b"joe", b"cool", true)],
    },
    // squad has the same id.
    Step {
        command: Command::Remove,
        user: b"joe",
        group: b"cool",
        moved: &[],
        groups: &[],
        members: &[],
    },
    Step {
        command: Command::Remove,
        user: b"joe",
        group: b"squad",
        moved: &[60],
        groups: &[(b"joe", &[100])],
        members: &[],
    },
];

static PRIMARY: [Step; 3] = [
    Step {
        command: Command::Primary,
        user: b"joe",
        group: b"staff",
        moved: &[50, 100],
        groups: &[(b"joe", &[50, 60])],
        members: &[],
    },
    Step {
        command: Command::Primary,
        user: b"joe",
        group: b"staff",
        moved: &[],
        groups: &[],
        members: &[],
    },
    // joe is of group 60 already.
    Step {
        command: Command::Primary,
        user: b"joe",
        group: b"cool",
        moved: &[50],
        groups: &[(b"ann", &[100])],
        members: &[],
    },
];

fn added(rt: &impl Abort, alloc: Global, people: &People, step: &Step) -> People {
    let user = people.find_user(step.user).expect(rt, "a user");
    let group = people.find_group(step.group).expect(rt, "a group");
    let next = people.with_member(alloc, user, group).expect(rt, "memory");
    let joined = people.moved_groups(alloc, &next, user).expect(rt, "memory");
    assert!(rt; are(&joined, step.moved));
    next
}

fn removed(rt: &impl Abort, alloc: Global, people: &People, step: &Step) -> People {
    let user = people.find_user(step.user).expect(rt, "a user");
    let group = people.find_group(step.group).expect(rt, "a group");
    let next = people
        .without_member(alloc, user, group)
        .expect(rt, "memory");
    let left = people.moved_groups(alloc, &next, user).expect(rt, "memory");
    assert!(rt; are(&left, step.moved));
    next
}

fn with_primary(rt: &impl Abort, alloc: Global, people: &People, step: &Step) -> People {
    let user = people.find_user(step.user).expect(rt, "a user");
    let group = people.find_group(step.group).expect(rt, "a group");
    let next = people
        .with_primary_group(alloc, user, group)
        .expect(rt, "memory");
    let moved = people.moved_groups(alloc, &next, user).expect(rt, "memory");
    assert!(rt; are(&moved, step.moved));
    next
}

fn changed(rt: &impl Abort, alloc: Global, people: &People, step: &Step) -> People {
    match step.command {
        Command::Add => added(rt, alloc, people, step),
        Command::Remove => removed(rt, alloc, people, step),
        Command::Primary => with_primary(rt, alloc, people, step),
    }
}

/// These are the user's groups.
fn expect_groups(rt: &impl Abort, people: &People, name: &[u8], numbers: &[u32]) {
    let user = people.find_user(name).expect(rt, "a user");
    let subject = people.subject_at(user).expect(rt, "a user");
    assert!(rt; are(subject.groups(), numbers));
}

fn expect_member(rt: &impl Abort, people: &People, user: &[u8], group: &[u8], want: bool) {
    let user = people.find_user(user).expect(rt, "a user");
    let group = people.find_group(group).expect(rt, "a group");
    assert!(rt; people.is_member(user, group) == want);
}

fn expect_all_groups(rt: &impl Abort, people: &People, step: &Step) {
    for (user, numbers) in step.groups {
        expect_groups(rt, people, user, numbers);
    }
}

fn expect_members(rt: &impl Abort, people: &People, step: &Step) {
    for (user, group, want) in step.members {
        expect_member(rt, people, user, group, *want);
    }
}

fn expect_steps(rt: &impl Abort, alloc: Global, steps: &[Step]) {
    let mut people = known(rt, alloc);
    for step in steps {
        let next = changed(rt, alloc, &people, step);
        drop(mem::replace(&mut people, next));
        expect_all_groups(rt, &people, step);
        expect_members(rt, &people, step);
    }
    drop(people);
}

#[test]
fn members_are_added(rt: HostRuntime) {
    expect_steps(&rt, rt.alloc(), &ADDED);
}

#[test]
fn members_are_removed(rt: HostRuntime) {
    expect_steps(&rt, rt.alloc(), &REMOVED);
    added_member_is_removed();
    group_held_otherwise_stays();
}

#[test]
fn primary_groups_change(rt: HostRuntime) {
    expect_steps(&rt, rt.alloc(), &PRIMARY);
}

/// A word, and the place of the group that it names.
static WORDS: [(&[u8], Option<usize>); 5] = [
    (b"adm", Some(3)),
    // The first of two rows.
    (b"60", Some(2)),
    (b"0080", Some(4)),
    (b"99", None),
    (b"lisa", None),
];

#[test]
fn words_name_groups(rt: HostRuntime) {
    let people = known(&rt, rt.alloc());
    for (word, want) in &WORDS {
        assert!(rt; people.find_group(word) == *want);
    }
    drop(people);
}

fn user_name(rt: &impl Abort, alloc: Global, name: &[u8]) -> Option<UserName> {
    UserName::new(Name::from_bytes(alloc, name).expect(rt, "memory"))
}

const NO_USER_NAMES: [&[u8]; 6] = [b"", b"1000", b"a:b", b"a,b", b"a\nb", b"a\0"];

#[test]
fn names_of_new_users(rt: HostRuntime) {
    let alloc = rt.alloc();
    for name in &NO_USER_NAMES {
        assert!(rt; user_name(&rt, alloc, name).is_none());
    }
    assert!(rt; user_name(&rt, alloc, b"-1").is_some());
    assert!(rt; user_name(&rt, alloc, b"\xff b").is_some());
}

/// `useradd -u NUMBER -g GROUP NAME`
fn with_user(
    rt: &impl Abort,
    alloc: Global,
    people: &People,
    name: &[u8],
    number: u32,
    group: &[u8],
) -> People {
    let group = people.find_group(group).expect(rt, "a group");
    let new = user_name(rt, alloc, name).expect(rt, "a name");
    let taken = people.has_user_named(new.as_name().as_bytes());
    assert!(rt; !taken, "the name of a user");
    assert!(rt; !people.is_full(), "no room");
    let with_new = people
        .with_user(alloc, &new, id(rt, number), group)
        .expect(rt, "memory");
    drop(new);
    with_new
}

#[test]
fn names_and_ids_of_users(rt: HostRuntime) {
    let people = known(&rt, rt.alloc());
    assert!(rt; people.has_user_named(b"joe") && !people.has_user_named(b"bob"));
    assert!(rt; people.has_user_id(id(&rt, 1000)) && !people.has_user_id(id(&rt, 1003)));
    assert!(rt; !people.has_user_named(b"1000"), "an id is no name");
    drop(people);
}

#[test]
fn users_come(rt: HostRuntime) {
    let alloc = rt.alloc();
    let before = known(&rt, alloc);
    let people = with_user(&rt, alloc, &before, b"bob", 1003, b"staff");
    drop(before);
    assert!(rt; people.find_user(b"bob") == Some(3));
    assert!(rt; people.find_user(b"1003") == Some(3));
    assert!(rt; people.user_name(id(&rt, 1003)) == Some(b"bob".as_slice()));
    // A row named bob before.
    expect_groups(&rt, &people, b"bob", &[50, 80]);
    expect_groups(&rt, &people, b"joe", &[60, 100]);
    drop(people);
}

/// `userdel joe`
fn without_joe(rt: &impl Abort, alloc: Global) -> People {
    let people = known(rt, alloc);
    let user = people.find_user(b"joe").expect(rt, "a user");
    let left = people.without_user(alloc, user).expect(rt, "memory");
    drop(people);
    left
}

#[test]
fn users_go(rt: HostRuntime) {
    let people = without_joe(&rt, rt.alloc());
    assert!(rt; people.users() == 2);
    assert!(rt; people.find_user(b"joe").is_none());
    assert!(rt; people.find_user(b"ann") == Some(1));
    assert!(rt; people.user_name(id(&rt, 1000)).is_none());
    expect_groups(&rt, &people, b"lisa", &[50, 60]);
    expect_groups(&rt, &people, b"ann", &[100]);
    drop(people);
    added_user_is_removed();
}

/// No row names joe.
#[test]
fn users_come_again(rt: HostRuntime) {
    let alloc = rt.alloc();
    let before = without_joe(&rt, alloc);
    let people = with_user(&rt, alloc, &before, b"joe", 1000, b"users");
    drop(before);
    expect_groups(&rt, &people, b"joe", &[100]);
    drop(people);
}

/// Adds 72 users, more than there are under one key of the hashes: ia has the place 67 and the id 2936, ih, the last,
/// the place 74 and the id 2929.
fn with_many(rt: &impl Abort, alloc: Global) -> People {
    let mut people = known(rt, alloc);
    let mut number: u32 = 3000;
    for first in b"abcdefghi".as_slice() {
        for second in b"abcdefgh".as_slice() {
            let next = with_user(rt, alloc, &people, &[*first, *second], number, b"staff");
            drop(mem::replace(&mut people, next));
            number = number.saturating_sub(1);
        }
    }
    people
}

#[test]
fn many_users_come(rt: HostRuntime) {
    let people = with_many(&rt, rt.alloc());
    assert!(rt; people.users() == 75);
    assert!(rt; people.find_user(b"joe") == Some(1) && people.find_user(b"1000") == Some(1));
    assert!(rt; people.find_user(b"aa") == Some(3) && people.find_user(b"3000") == Some(3));
    assert!(rt; people.find_user(b"ia") == Some(67) && people.find_user(b"2936") == Some(67));
    assert!(rt; people.find_user(b"ih") == Some(74) && people.find_user(b"2929") == Some(74));
    assert!(rt; people.user_name(id(&rt, 2936)) == Some(b"ia".as_slice()));
    expect_groups(&rt, &people, b"ia", &[50]);
    drop(people);
}

/// The users after the one who goes have the places before theirs.
#[test]
fn one_of_many_users_goes(rt: HostRuntime) {
    let alloc = rt.alloc();
    let before = with_many(&rt, alloc);
    let user = before.find_user(b"ia").expect(&rt, "a user");
    let people = before.without_user(alloc, user).expect(&rt, "memory");
    drop(before);
    assert!(rt; people.find_user(b"ia").is_none() && people.find_user(b"2936").is_none());
    assert!(rt; people.user_name(id(&rt, 2936)).is_none());
    assert!(rt; people.find_user(b"aa") == Some(3) && people.find_user(b"3000") == Some(3));
    assert!(rt; people.find_user(b"ih") == Some(73) && people.find_user(b"2929") == Some(73));
    assert!(rt; people.user_name(id(&rt, 2929)) == Some(b"ih".as_slice()));
    drop(people);
}
