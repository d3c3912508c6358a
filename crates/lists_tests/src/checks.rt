//! The check: worked examples, by the byte of the requests that are granted.
use crate::lists_by_number::Who::{Group, Mask, Other, Owner, OwningGroup, User};
use crate::lists_by_number::{ADM, ANN, JOE, LISA, Row, STAFF, USERS, id, list, perm};
use acl_entry::{Acl, Id, Label, Perm, Requests, Subject, granted};
use std::alloc::Global;
use std::process::Abort;

/// The list of a file of lisa and staff, modes that it is given in turn, a user and the user's groups, and the
/// requests granted, as a byte: bit i is request i.
struct Check {
    list: &'static [Row],
    modes: &'static [u16],
    user: u32,
    groups: &'static [u32],
    granted: u8,
}

const MINIMAL: &[Row] = &[(Owner, 6), (OwningGroup, 4), (Other, 0)];

const NAMED_USER: &[Row] = &[
    (Owner, 6),
    (User(JOE), 7),
    (OwningGroup, 4),
    (Mask, 7),
    (Other, 0),
];

const TWO_GROUPS: &[Row] = &[
    (Owner, 6),
    (OwningGroup, 0),
    (Group(USERS), 4),
    (Group(ADM), 2),
    (Mask, 7),
    (Other, 0),
];

const STAFF_TWICE: &[Row] = &[
    (Owner, 6),
    (OwningGroup, 4),
    (Group(STAFF), 2),
    (Mask, 7),
    (Other, 0),
];

const NAMED_USER_DENIED: &[Row] = &[
    (Owner, 6),
    (User(JOE), 0),
    (OwningGroup, 4),
    (Group(USERS), 7),
    (Mask, 7),
    (Other, 4),
];

const OWNER_NAMED: &[Row] = &[
    (Owner, 6),
    (User(LISA), 7),
    (OwningGroup, 4),
    (Mask, 7),
    (Other, 0),
];

const MASKED: &[Row] = &[
    (Owner, 6),
    (OwningGroup, 6),
    (Group(ADM), 6),
    (Group(USERS), 0),
    (Mask, 4),
    (Other, 6),
];

static CHECKS: [Check; 16] = [
    // The owner may write and read, a user of another group may do nothing, and after `chmod 604` read.
    Check {
        list: MINIMAL,
        modes: &[],
        user: LISA,
        groups: &[STAFF],
        granted: 0b0101_0101,
    },
    Check {
        list: MINIMAL,
        modes: &[],
        user: JOE,
        groups: &[USERS],
        granted: 0b0000_0001,
    },
    Check {
        list: MINIMAL,
        modes: &[0o4604],
        user: JOE,
        groups: &[USERS],
        granted: 0b0001_0001,
    },
    // A named user is granted what the entry and the mask contain, and after `chmod 600` nothing.
    Check {
        list: NAMED_USER,
        modes: &[],
        user: JOE,
        groups: &[USERS],
        granted: 0xff,
    },
    Check {
        list: NAMED_USER,
        modes: &[0o600],
        user: JOE,
        groups: &[USERS],
        granted: 0x01,
    },
    // joe is of users, who may read, and of adm, who may write: each alone is granted, and not both.
    Check {
        list: TWO_GROUPS,
        modes: &[],
        user: JOE,
        groups: &[USERS, ADM],
        granted: 0b0001_0101,
    },
    // staff owns the file and has an entry of its own beside: each alone is granted, and not both.
    Check {
        list: STAFF_TWICE,
        modes: &[],
        user: JOE,
        groups: &[3, STAFF],
        granted: 0b0001_0101,
    },
    // The entry of a named user denies, whatever the groups and the others are granted.
    Check {
        list: NAMED_USER_DENIED,
        modes: &[],
        user: JOE,
        groups: &[USERS],
        granted: 0x01,
    },
    Check {
        list: NAMED_USER_DENIED,
        modes: &[],
        user: ANN,
        groups: &[USERS],
        granted: 0xff,
    },
    // The owner is judged by the owner's entry, also where the owner is named.
    Check {
        list: OWNER_NAMED,
        modes: &[],
        user: LISA,
        groups: &[STAFF],
        granted: 0b0101_0101,
    },
    // The mask cuts the entries of groups, and neither the owner's nor that of the others.
    Check {
        list: MASKED,
        modes: &[],
        user: LISA,
        groups: &[STAFF],
        granted: 0b0101_0101,
    },
    Check {
        list: MASKED,
        modes: &[],
        user: JOE,
        groups: &[STAFF],
        granted: 0b0001_0001,
    },
    Check {
        list: MASKED,
        modes: &[],
        user: JOE,
        groups: &[ADM],
        granted: 0b0001_0001,
    },
    Check {
        list: MASKED,
        modes: &[],
        user: ANN,
        groups: &[3],
        granted: 0b0101_0101,
    },
    // An entry of a group of the user denies, whatever the others are granted.
    Check {
        list: MASKED,
        modes: &[],
        user: JOE,
        groups: &[USERS],
        granted: 0x01,
    },
    // The superuser is judged as any other user.
    Check {
        list: MASKED,
        modes: &[],
        user: 0,
        groups: &[0],
        granted: 0b0101_0101,
    },
];

/// A file of lisa and staff with the list.
fn file(rt: &impl Abort, acl: Acl) -> Label {
    Label {
        owner: id(rt, LISA),
        group: id(rt, STAFF),
        acl,
    }
}

fn ids(rt: &impl Abort, alloc: Global, numbers: &[u32]) -> Vec<Id> {
    let mut ids = Vec::new(alloc);
    for number in numbers {
        ids.push(id(rt, *number)).expect(rt, "memory");
    }
    ids
}

fn subject(rt: &impl Abort, alloc: Global, uid: u32, groups: &[u32]) -> Subject {
    Subject::from_groups(alloc, id(rt, uid), &ids(rt, alloc, groups)).expect(rt, "memory")
}

/// The file of a row, after its modes.
fn checked(rt: &impl Abort, alloc: Global, check: &Check) -> Label {
    let mut label = file(rt, list(rt, alloc, check.list));
    for mode in check.modes {
        label.acl.chmod(*mode);
    }
    label
}

/// The requests that the user of a row is granted, as a byte.
fn bits(rt: &impl Abort, alloc: Global, check: &Check) -> u8 {
    let label = checked(rt, alloc, check);
    granted(&subject(rt, alloc, check.user, check.groups), &label).bits()
}

#[test]
fn requests_are_granted(rt: HostRuntime) {
    for check in &CHECKS {
        let found = bits(&rt, rt.alloc(), check);
        assert!(rt; found == check.granted, "{found} and not {}", check.granted);
    }
}

#[test]
fn what_a_label_mentions(rt: HostRuntime) {
    let label = file(&rt, list(&rt, rt.alloc(), TWO_GROUPS));
    let mentioned = label.mentions(rt.alloc()).expect(&rt, "memory");
    let want = ids(&rt, rt.alloc(), &[STAFF, ADM, USERS]);
    assert!(rt; mentioned.as_slice() == want.as_slice());
}

/// Ids, and whether that file mentions one of them.
static MENTIONED: [([u32; 2], bool); 2] = [([3, ADM], true), ([3, JOE], false)];

#[test]
fn a_label_mentions_one_of_the_ids(rt: HostRuntime) {
    let label = file(&rt, list(&rt, rt.alloc(), TWO_GROUPS));
    for (numbers, want) in &MENTIONED {
        let ids = ids(&rt, rt.alloc(), numbers);
        assert!(rt; label.mentions_one_of(&ids) == *want);
    }
}

#[test]
fn the_groups_of_a_user(rt: HostRuntime) {
    let joe = subject(&rt, rt.alloc(), JOE, &[USERS, ADM, USERS]);
    let groups = ids(&rt, rt.alloc(), &[ADM, USERS]);
    assert!(rt; joe.groups() == groups.as_slice());
}

#[test]
fn who_a_user_is(rt: HostRuntime) {
    let (users, staff) = (id(&rt, USERS), id(&rt, STAFF));
    let joe = subject(&rt, rt.alloc(), JOE, &[USERS, ADM, USERS]);
    assert!(rt; joe.uid().number() == JOE && joe.is_of(users) && !joe.is_of(staff));
}

#[test]
fn requests(rt: HostRuntime) {
    let read = Requests::within(perm(&rt, 4));
    let both = read.union(Requests::within(perm(&rt, 2)));
    assert!(rt; both.union(Requests::none()).bits() == 0b0001_0101);
    assert!(rt; Requests::from_byte(0b0001_0101) == both);
    assert!(rt; Requests::from_byte(0b0001_0001).has(perm(&rt, 4)));
    assert!(rt; !Requests::from_byte(0b0001_0001).has(perm(&rt, 6)));
}

#[test]
fn permission_sets(rt: HostRuntime) {
    let met = Perm::none().union(perm(&rt, 5)).meet(perm(&rt, 6));
    assert!(rt; met == perm(&rt, 4));
    assert!(rt; perm(&rt, 6).contains(perm(&rt, 2)));
}
