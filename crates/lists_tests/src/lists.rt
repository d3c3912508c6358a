//! Lists: what is refused, list order, the mode.
use crate::lists_by_number::Who::{Group, Mask, Other, Owner, OwningGroup, User};
use crate::lists_by_number::{
    ADM, JOE, Row, Who, entries, expect_entries, id, key, list, perm, push, push_rows,
};
use acl_entry::{
    Acl, Draft, Entry, INLINE_ENTRIES, Id, Key, ListFault, MAX_ENTRIES, Perm, limits_are_as_defined,
};
use std::alloc::Global;
use std::process::Abort;

/// Entries, and the fault of their list, where it has one.
static FAULTS: [(&[Row], &str); 8] = [
    // A base entry is missing.
    (&[], "Some(MissingBase { key: Owner })"),
    (&[(Owner, 4)], "Some(MissingBase { key: OwningGroup })"),
    (
        &[(Mask, 4), (OwningGroup, 4), (Owner, 4)],
        "Some(MissingBase { key: Other })",
    ),
    // A key is repeated.
    (
        &[(OwningGroup, 4), (Owner, 4), (Owner, 4), (OwningGroup, 4)],
        "Some(Repeated { at: 3 })",
    ),
    (
        &[(User(JOE), 4), (User(JOE), 4)],
        "Some(Repeated { at: 2 })",
    ),
    (
        &[(User(JOE), 4), (Group(JOE), 4)],
        "Some(MissingBase { key: Owner })",
    ),
    // A mask is missing.
    (
        &[
            (Owner, 4),
            (Group(ADM), 4),
            (User(JOE), 4),
            (OwningGroup, 4),
            (Other, 4),
        ],
        "Some(MissingMask { at: 2 })",
    ),
    (
        &[
            (Other, 4),
            (User(JOE), 4),
            (Mask, 4),
            (OwningGroup, 4),
            (Owner, 4),
        ],
        "None",
    ),
];

fn fault_of(alloc: Global, entries: &[Entry]) -> Option<ListFault> {
    Acl::from_entries(alloc, entries).err()
}

/// The fault reads like this.
fn expect_fault(rt: &impl Abort, alloc: Global, fault: Option<ListFault>, want: &str) {
    let found = format!(in alloc; "{fault:?}").expect(rt, "memory");
    assert!(rt; found.as_str() == want, "not {want}");
}

#[test]
fn lists_are_refused(rt: HostRuntime) {
    for (rows, want) in &FAULTS {
        let fault = fault_of(rt.alloc(), &entries(&rt, rt.alloc(), rows));
        expect_fault(&rt, rt.alloc(), fault, want);
    }
}

static BASE_AND_MASK: [Row; 4] = [(Owner, 6), (OwningGroup, 4), (Mask, 7), (Other, 0)];

/// The named users 0, 1, .. (`named` of them), and after them the base entries and a mask.
fn with_users(rt: &impl Abort, alloc: Global, named: u32) -> Vec<Entry> {
    let mut entries = Vec::new(alloc);
    for number in 0..named {
        push(rt, &mut entries, Key::User(id(rt, number)), 4);
    }
    push_rows(rt, &mut entries, &BASE_AND_MASK);
    entries
}

fn number_of(perm: Option<Perm>) -> Option<u8> {
    match perm {
        Some(perm) => Some(perm.number()),
        None => None,
    }
}

/// Whether a copy of the list is the same.
fn is_copied(rt: &impl Abort, alloc: Global, acl: &Acl) -> bool {
    acl.try_clone(alloc).expect(rt, "memory").same(acl)
}

/// How many users are named, and how many entries the list has.
static KEPT: [(u32, usize); 3] = [(4, 8), (5, 9), (4092, 4096)];

#[test]
fn keeps_the_most_entries(rt: HostRuntime) {
    for (named, want) in &KEPT {
        let last = Key::User(id(&rt, named.saturating_sub(1)));
        let entries = with_users(&rt, rt.alloc(), *named);
        let acl = Acl::from_entries(rt.alloc(), &entries).expect(&rt, "a valid list");
        assert!(rt;
            acl.entries().len() == *want && number_of(acl.get(last)) == Some(4),
            "{named}"
        );
        assert!(rt; is_copied(&rt, rt.alloc(), &acl), "{named}");
    }
}

/// More entries than a list keeps with no allocation, in falling order, and one of them again.
#[test]
fn entries_in_falling_order_make_the_same_list(rt: HostRuntime) {
    let rising = with_users(&rt, rt.alloc(), 300);
    let mut falling = with_users(&rt, rt.alloc(), 300);
    falling.reverse();
    let list = Acl::from_entries(rt.alloc(), &rising).expect(&rt, "a list");
    let same = Acl::from_entries(rt.alloc(), &falling).expect(&rt, "a list");
    assert!(rt; list.same(&same));
    let again = *falling.last().expect(&rt, "an entry");
    falling.push(again).expect(&rt, "memory");
    let fault = fault_of(rt.alloc(), &falling);
    assert!(rt; fault == Some(ListFault::Repeated { at: 305 }));
}

#[test]
fn refuses_one_entry_more(rt: HostRuntime) {
    let fault = fault_of(rt.alloc(), &with_users(&rt, rt.alloc(), 4093));
    assert!(rt; fault == Some(ListFault::TooLong));
}

#[test]
fn limits(rt: HostRuntime) {
    limits_are_as_defined();
    assert!(rt; INLINE_ENTRIES == 8 && MAX_ENTRIES == 4096);
}

static SHUFFLED: [Row; 8] = [
    (Other, 0),
    (Mask, 6),
    (Group(9), 1),
    (Group(8), 2),
    (OwningGroup, 4),
    (User(4294967294), 5),
    (User(0), 4),
    (Owner, 7),
];

static IN_ORDER: [Row; 8] = [
    (Owner, 7),
    (User(0), 4),
    (User(4294967294), 5),
    (OwningGroup, 4),
    (Group(8), 2),
    (Group(9), 1),
    (Mask, 6),
    (Other, 0),
];

#[test]
fn entries_are_in_list_order(rt: HostRuntime) {
    let acl = list(&rt, rt.alloc(), &SHUFFLED);
    expect_entries(&rt, rt.alloc(), &acl, &IN_ORDER);
    assert!(rt; acl.class_union().number() == 7 && !acl.is_minimal());
}

static UNION_OF_THREE: [Row; 6] = [
    (Owner, 0),
    (User(JOE), 4),
    (OwningGroup, 2),
    (Group(ADM), 1),
    (Mask, 0),
    (Other, 0),
];

#[test]
fn the_class_is_named_entries_and_the_owning_group(rt: HostRuntime) {
    let acl = list(&rt, rt.alloc(), &UNION_OF_THREE);
    assert!(rt; acl.class_union().number() == 7);
}

/// The entry for joe that setfacl makes in a file of mode 0640.
static NAMED_USER: [Row; 5] = [
    (Owner, 6),
    (User(JOE), 7),
    (OwningGroup, 4),
    (Mask, 7),
    (Other, 0),
];

/// A key of that list, its permissions after `chmod 600`, and those of them that are in effect.
static MASKED: [(Who, u8, u8); 3] = [(User(JOE), 7, 0), (OwningGroup, 4, 0), (Owner, 6, 6)];

#[test]
fn mode_shows_the_mask(rt: HostRuntime) {
    let mut acl = list(&rt, rt.alloc(), &NAMED_USER);
    assert!(rt; acl.mode() == 0o670);
    acl.chmod(0o600);
    assert!(rt; acl.mode() == 0o600);
    for (who, is, effective) in &MASKED {
        assert!(rt; number_of(acl.get(key(&rt, who))) == Some(*is));
        assert!(rt; number_of(acl.effective(key(&rt, who))) == Some(*effective));
    }
}

fn minimal(rt: &impl Abort, alloc: Global, mode: u16) -> Acl {
    Acl::minimal(alloc, mode).expect(rt, "memory")
}

#[test]
fn mode_of_a_minimal_list(rt: HostRuntime) {
    let mut acl = minimal(&rt, rt.alloc(), 0o2750);
    assert!(rt; acl.is_minimal() && acl.mode() == 0o750);
    acl.chmod(0o705);
    expect_entries(&rt, rt.alloc(), &acl, &CHANGED);
}

/// The entries of a minimal list after `chmod 705`.
static CHANGED: [Row; 3] = [(Owner, 7), (OwningGroup, 0), (Other, 5)];

#[test]
fn a_minimal_list_is_restricted(rt: HostRuntime) {
    let mut acl = minimal(&rt, rt.alloc(), 0o705);
    acl.restrict(0o644);
    assert!(rt; acl.mode() == 0o604);
    acl.restrict(0o777);
    assert!(rt; acl.mode() == 0o604);
}

/// A key of the list for joe, and its permissions once the list is restricted.
static RESTRICTED: [Row; 3] = [(Mask, 4), (OwningGroup, 4), (User(JOE), 7)];

#[test]
fn creation_cuts_the_mask(rt: HostRuntime) {
    let mut acl = list(&rt, rt.alloc(), &NAMED_USER);
    acl.restrict(0o646);
    assert!(rt; acl.mode() == 0o640);
    for (who, is) in &RESTRICTED {
        assert!(rt; number_of(acl.get(key(&rt, who))) == Some(*is));
    }
}

/// Entries that a draft of the list of mode 0640 takes in turn, the mask twice.
static INSERTED: [Row; 3] = [(User(JOE), 7), (Mask, 5), (Mask, 7)];

fn insert(rt: &impl Abort, draft: &mut Draft, who: &Who, number: u8) {
    let perm = perm(rt, number);
    draft.insert(key(rt, who), perm).expect(rt, "memory");
}

fn draft(rt: &impl Abort, alloc: Global) -> Draft {
    let mut draft = Draft::of(alloc, &minimal(rt, alloc, 0o640)).expect(rt, "memory");
    for (who, number) in &INSERTED {
        insert(rt, &mut draft, who, *number);
    }
    draft
}

#[test]
fn a_draft_becomes_a_list(rt: HostRuntime) {
    let mut draft = draft(&rt, rt.alloc());
    draft.remove(&Key::Other);
    assert!(rt; draft.get(Key::Other).is_none());
    insert(&rt, &mut draft, &Other, 0);
    assert!(rt; draft.entries().len() == 5);
    assert!(rt; draft.finish().expect(&rt, "a valid list").mode() == 0o670);
}

#[test]
fn an_empty_draft_is_refused(rt: HostRuntime) {
    let fault = Draft::new(rt.alloc()).finish().err();
    assert!(rt; fault == Some(ListFault::MissingBase { key: Key::Owner }));
}

/// Permissions, and how they are written.
static TEXTS: [(u8, &[u8]); 3] = [(5, b"r-x"), (2, b"-w-"), (6, b"rw-")];

#[test]
fn permissions(rt: HostRuntime) {
    for (number, want) in &TEXTS {
        let perm = perm(&rt, *number);
        assert!(rt;
            perm.text().as_slice() == *want && perm.number() == *number,
            "{number}"
        );
    }
    assert!(rt; Perm::from_number(8).is_none());
}

#[test]
fn single_permissions(rt: HostRuntime) {
    assert!(rt; Perm::READ == perm(&rt, 4));
    assert!(rt; Perm::WRITE == perm(&rt, 2));
    assert!(rt; Perm::EXECUTE == perm(&rt, 1));
}

#[test]
fn ids(rt: HostRuntime) {
    assert!(rt; Id::new(4294967295).is_none());
    assert!(rt; id(&rt, 4294967294).number() == 4294967294);
}

#[test]
fn keys(rt: HostRuntime) {
    let joe = Key::User(id(&rt, JOE));
    let adm = Key::Group(id(&rt, ADM));
    assert!(rt; joe.id() == Some(id(&rt, JOE)) && adm.is_named());
    assert!(rt; Key::OwningGroup.is_class() && Key::Other.is_base());
    assert!(rt; joe < Key::OwningGroup && joe.order(Key::OwningGroup).is_lt());
}
