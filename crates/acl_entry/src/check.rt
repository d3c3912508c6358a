//! The check of all eight requests in one walk: acl(5), "ACCESS CHECK ALGORITHM".
ghost use Rattle.std.specs.Prelude.{◌≡◌, ◌<◌, Some, None, Option, true, false};
ghost use Rattle.std.specs.List.{list_any};
ghost use Rattle.std.specs.Int.RustNames.{bit_or};
ghost use Rattle.acl_entry.specs.declared.entry.Key.TheVariants.{Mask};
ghost use Rattle.acl_entry.specs.Perms.{Perms, contains};
ghost use Rattle.acl_entry.specs.Lists.{masked_by};
ghost use Rattle.acl_entry.specs.Check.{has, byte_of, is_for, rights, check, group_of, some_entry_grants};
ghost use Rattle.acl_entry.specs.Mentions.{AgreeOnMentions};
ghost use Rattle.acl_entry.specs.Person.{Person};
ghost use Rattle.std.specs.FinSet as sets;
ghost use Rattle.std.specs.Option.{option_map_or};

use crate::{Entry, Id, Key, Label, Perm, Subject};
use std::marker::Model;

/// A set of requests, as any byte is one. There are eight, numbered as permission sets are: bit i is request i.
#[derive(Clone, Copy, PartialEq, Eq)]
pub struct Requests(pub u8);

impl Model for Requests {
    ghost use Rattle.std.specs.Prelude.{ℕ};

    ghost Value = { ℕ };

    ghost view = { λ r. r.0 };

    ghost inverse = { λ n. record { 0 = n } };
}

/// For each permission set, the byte whose bit i is set if request i is a subset.
const SUBSETS: [u8; 8] = [0x01, 0x03, 0x05, 0x0f, 0x11, 0x33, 0x55, 0xff];

impl Requests {
    /// Tells whether the request is one of them.
    pub fn has(self, request: Perm) -> bool
        ensures { result ≡ has self request }
    {
        self.0 >> request.number() & 1 == 1
    }

    /// Returns the byte whose bit i is set if request i is one of them.
    pub fn bits(self) -> u8
        ensures { result ≡ self }
    {
        self.0
    }

    /// Returns the requests of a byte whose bit i is set if request i is one of them.
    pub fn from_byte(byte: u8) -> Requests
        ensures { result ≡ byte }
    {
        Requests(byte)
    }

    /// Returns the empty set.
    pub fn none() -> Requests
        ensures { result ≡ 0 }
    {
        Requests(0)
    }

    /// Returns the requests that a permission set contains.
    pub fn within(perm: Perm) -> Requests
        ensures { result ≡ byte_of (contains perm) }
    {
        Requests(SUBSETS[perm.number() as usize])
    }

    /// Returns the requests of either.
    pub fn union(self, other: Requests) -> Requests
        ensures { result ≡ bit_or self other }
    {
        Requests(self.0 | other.0)
    }
}

/// Returns the requests that the check of acl(5) grants a user on a file.
///
/// Each request is judged by the first case that applies: the owner, a named user, the groups (some single matching
/// entry contains the request, and so does the mask), the others. Matching group entries are not added together, so
/// `r` and `w` can each be granted without `rw`, and the empty request always is.
pub fn granted(subject: &Subject, label: &Label) -> Requests
    ensures all { result ≡ rights subject.now label.now }
    ensures each { (q : Perms) → has result q ≡ check subject.now label.now q }
    ensures local { (other : Person) → AgreeOnMentions subject.now other label.now → result ≡ rights other label.now }
{
    all_granted(subject, label)
}

/// Grants by the first case that applies.
fn all_granted(subject: &Subject, label: &Label) -> Requests
    ensures { result ≡ rights subject.now label.now }
{
    if subject.uid() == label.owner {
        return Requests::within(label.acl.perm_or_none(&Key::Owner));
    }
    let mask = label.acl.get(Key::Mask);
    if let Some(perm) = label.acl.get(Key::User(subject.uid())) {
        return Requests::within(under(&mask, perm));
    }
    match by_groups(subject, label.group, label.acl.entries(), &mask) {
        Some(requests) => requests,
        None => Requests::within(label.acl.perm_or_none(&Key::Other)),
    }
}

/// Limits `perm` to the mask, if there is one.
fn under(mask: &Option<Perm>, perm: Perm) -> Perm
    ensures { result ≡ masked_by mask.now perm }
{
    match mask {
        Some(mask) => perm.meet(*mask),
        None => perm,
    }
}

/// Returns what the entries for the user's groups grant, each alone, if there is one.
fn by_groups(
    subject: &Subject,
    owning: Id,
    entries: &[Entry],
    mask: &Option<Perm>,
) -> Option<Requests>
    ensures none { list_any (is_for subject.now owning) entries.now ≡ false → result ≡ None }
    ensures some { list_any (is_for subject.now owning) entries.now ≡ true
        → result ≡ Some (byte_of (some_entry_grants subject.now owning mask.now entries.now)) }
{
    let mut is_matched = false;
    let mut all = Requests::none();
    for entry in entries {
        if subject.matches(owning, &entry.key) {
            is_matched = true;
            all = all.union(Requests::within(under(mask, entry.perm)));
        }
    }
    if is_matched { Some(all) } else { None }
}

impl Subject {
    /// Tells whether an entry of the key is for one of the user's groups, where `owning` owns the file.
    pub fn matches(&self, owning: Id, key: &Key) -> bool
        ensures { result ≡ option_map_or (sets.contains self.now.groups) (group_of owning key.now) false }
    {
        match *key {
            Key::OwningGroup => self.is_of(owning),
            Key::Group(group) => self.is_of(group),
            Key::Owner | Key::User(_) | Key::Mask | Key::Other => false,
        }
    }
}
