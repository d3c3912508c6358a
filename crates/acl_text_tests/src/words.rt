//! Words that mean users, groups and ids.
use crate::people::People;
use acl_entry::Id;
use acl_text::{is_number, read_group_word, read_id, read_user_word, trim};

fn number_of(id: Option<Id>) -> Option<u32> {
    match id {
        Some(id) => Some(id.number()),
        None => None,
    }
}

/// A word, and the user that it means: digits alone are never looked up.
static USERS: [(&[u8], Option<u32>); 5] = [
    (b" joe\t", Some(1000)),
    (b"\\152oe", Some(1000)),
    (b"0007", Some(7)),
    (b"4294967295", None),
    (b"nosuch", None),
];

#[test]
fn words_mean_users(rt: HostRuntime) {
    for (word, want) in &USERS {
        let id = read_user_word(rt.alloc(), word, &People).expect(&rt, "memory");
        assert!(rt; number_of(id) == *want);
    }
}

/// A word, and the group that it means.
static GROUPS: [(&[u8], Option<u32>); 3] = [
    (b"staff", Some(50)),
    (b"60", Some(60)),
    (b"joe", None),
];

#[test]
fn words_mean_groups(rt: HostRuntime) {
    for (word, want) in &GROUPS {
        let id = read_group_word(rt.alloc(), word, &People).expect(&rt, "memory");
        assert!(rt; number_of(id) == *want);
    }
}

#[test]
fn digits_alone_are_a_number(rt: HostRuntime) {
    assert!(rt; is_number(b"007") && !is_number(b"") && !is_number(b"7a"));
    assert!(rt; number_of(read_id(b"4294967294")) == Some(4294967294));
    assert!(rt; read_id(b"4294967295").is_none() && read_id(b"-1").is_none());
    assert!(rt; trim(b" \t a b\t") == b"a b".as_slice());
}
