//! Users, groups, and the words and ids that mean them.
use acl_entry::Id;
use acl_people::{LoadFault, People};
use acl_text::{FaultKind, Names, TextFault};
use std::alloc::Global;
use std::process::Abort;

const PASSWD: &[u8] = b"lisa:x:1001:50:Lisa:/home/lisa:/bin/sh\n\
joe:x:1000:100:Joe:/home/joe:/bin/sh\n\
1001:x:7:100:Digits:/:/bin/sh\n\
twin:x:1001:100:Twin:/:/bin/sh\n\
joe:x:9:9:Again:/:/bin/sh\n";

const GROUP: &[u8] = b"staff:x:50:\nusers:x:100:joe\ncool:x:60:lisa,joe,lisa\n\
8:x:8:\nwheel:x:8:twin\nother:x:60:twin\n";

fn nobody(rt: &impl Abort, alloc: Global) -> People {
    People::new(alloc).expect(rt, "memory")
}

fn known(rt: &impl Abort, alloc: Global) -> People {
    let nobody = nobody(rt, alloc);
    assert!(rt; !nobody.passwd_loaded() && !nobody.group_loaded());
    let with_users = nobody.load_passwd(alloc, PASSWD).expect(rt, "users");
    assert!(rt; with_users.passwd_loaded() && !with_users.group_loaded());
    let people = with_users.load_group(alloc, GROUP).expect(rt, "groups");
    drop(with_users);
    drop(nobody);
    people
}

fn id(rt: &impl Abort, number: u32) -> Id {
    Id::new(number).expect(rt, "an id")
}

/// A word, and the place of the user that it names.
static WORDS: [(&[u8], Option<usize>); 7] = [
    (b"joe", Some(1)),
    // An id, though a user has this name.
    (b"1001", Some(0)),
    (b"7", Some(2)),
    (b"0001000", Some(1)),
    // A repeated row is not counted.
    (b"9", None),
    (b"4294967295", None),
    (b"nosuch", None),
];

#[test]
fn words_name_users(rt: HostRuntime) {
    let people = known(&rt, rt.alloc());
    assert!(rt; people.users() == 4);
    for (word, want) in &WORDS {
        assert!(rt; people.find_user(word) == *want);
    }
    assert!(rt; people.name(3) == Some(b"twin".as_slice()));
    assert!(rt; people.name(4).is_none());
    drop(people);
}

#[test]
fn users_have_rows(rt: HostRuntime) {
    let people = known(&rt, rt.alloc());
    let twin = people.user_row(3).expect(&rt, "a user");
    assert!(rt; twin.uid == id(&rt, 1001) && twin.gid == id(&rt, 100));
    assert!(rt; people.user_row(4).is_none());
    drop(people);
}

/// A name, and the place of the first user of it: digits too are a name.
static NAMES: [(&[u8], Option<usize>); 4] = [
    (b"joe", Some(1)),
    (b"1001", Some(2)),
    (b"twin", Some(3)),
    (b"1000", None),
];

#[test]
fn users_have_names(rt: HostRuntime) {
    let people = known(&rt, rt.alloc());
    for (name, want) in &NAMES {
        assert!(rt; people.user_named(name) == *want);
    }
    drop(people);
}

#[test]
fn ids_print_as_names(rt: HostRuntime) {
    let people = known(&rt, rt.alloc());
    assert!(rt; people.user_name(id(&rt, 1001)) == Some(b"lisa".as_slice()));
    assert!(rt;
        people.user_name(id(&rt, 7)).is_none(),
        "its name is digits alone"
    );
    assert!(rt; people.group_name(id(&rt, 8)) == Some(b"wheel".as_slice()));
    assert!(rt; people.group_name(id(&rt, 60)) == Some(b"cool".as_slice()));
    drop(people);
}

#[test]
fn names_have_ids(rt: HostRuntime) {
    let people = known(&rt, rt.alloc());
    assert!(rt; people.user_id(b"twin") == Some(id(&rt, 1001)));
    assert!(rt; people.group_id(b"other") == Some(id(&rt, 60)));
    assert!(rt; people.group_id(b"joe").is_none());
    people.naming_is_read_back();
    people.soundness_law();
    drop(people);
}

/// The place of a user, a group, and whether it is one of the user's groups.
static GROUPS: [(usize, u32, bool); 10] = [
    (0, 50, true),
    (0, 60, true),
    (0, 100, false),
    (0, 8, false),
    (1, 100, true),
    (1, 60, true),
    (1, 50, false),
    (3, 100, true),
    (3, 8, true),
    (3, 60, true),
];

fn shared(rt: &impl Abort, alloc: Global) -> People {
    let people = known(rt, alloc);
    let shared = people.share().expect(rt, "memory");
    drop(people);
    shared
}

#[test]
fn users_have_their_groups(rt: HostRuntime) {
    let shared = shared(&rt, rt.alloc());
    for (user, group, want) in &GROUPS {
        let subject = shared.subject_at(*user).expect(&rt, "a user");
        assert!(rt; subject.is_of(id(&rt, *group)) == *want);
    }
    drop(shared);
}

#[test]
fn people_are_shared(rt: HostRuntime) {
    let shared = shared(&rt, rt.alloc());
    assert!(rt; shared.subjects().len() == 4);
    let lisa = shared.subject_at(0).expect(&rt, "lisa");
    assert!(rt; lisa.uid() == id(&rt, 1001));
    assert!(rt; shared.subject_at(4).is_none());
    drop(shared);
}

fn expect_fault(rt: &impl Abort, loaded: Result<People, LoadFault>, want: LoadFault) {
    assert!(rt; loaded.err() == Some(want));
}

#[test]
fn texts_are_loaded_once(rt: HostRuntime) {
    let people = known(&rt, rt.alloc());
    let users = people.load_passwd(rt.alloc(), b"not a row");
    expect_fault(&rt, users, LoadFault::AlreadyLoaded);
    let groups = people.load_group(rt.alloc(), b"");
    expect_fault(&rt, groups, LoadFault::AlreadyLoaded);
    drop(people);
}

#[test]
fn bad_rows_are_not_loaded(rt: HostRuntime) {
    let nobody = nobody(&rt, rt.alloc());
    let bad = TextFault {
        kind: FaultKind::BadRow,
        at: 2,
    };
    let groups = nobody.load_group(rt.alloc(), b"a:x:1:\nnot a row");
    expect_fault(&rt, groups, LoadFault::Text(bad));
    assert!(rt; !nobody.group_loaded());
    drop(nobody);
}

#[test]
fn no_users_are_loaded(rt: HostRuntime) {
    let nobody = nobody(&rt, rt.alloc());
    let empty = nobody.load_passwd(rt.alloc(), b"").expect(&rt, "users");
    drop(nobody);
    assert!(rt; empty.passwd_loaded());
    assert!(rt; empty.users() == 0);
    drop(empty);
}
