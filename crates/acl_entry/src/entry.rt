//! Entries, after acl(5), "ACL ENTRIES": whom each is for, and its permissions; and what can be wrong with a sequence of
//! them.

ghost use Rattle.std.specs.Prelude.{◌≡◌, ◌<◌, SomeIff, ⊤, [], ◌∷◌, codes};
ghost use Rattle.acl_entry.specs.Ids.{nobody};
ghost use Rattle.acl_entry.specs.Keys.{key_cmp, named_id, id_of, is_named, is_class, is_base};
ghost use Rattle.acl_entry.specs.Perms as perms;

use bitflags::{Flag, Flags, bitflag_items};
use std::alloc::{AllocError, AllocFailed};
use std::cmp::Ordering;
use std::marker::Model;

/// One entry of a list: who has which permissions.
#[derive(Clone, Copy, PartialEq, Eq)]
pub struct Entry {
    pub key: Key,
    pub perm: Perm,
}

// What an unused place of a list contains. No list shows it.
impl Default for Entry {
    ghost use Rattle.acl_entry.specs.Perms.{none};
    ghost use Rattle.acl_entry.specs.declared.entry.Key.TheVariants.{Owner};

    ghost is_default = { λ entry. entry ≡ record { key = Owner; perm = none } };

    fn default() -> Entry {
        Entry {
            key: Key::Owner,
            perm: Perm::none(),
        }
    }
}

/// Why a sequence of entries is not a valid list: acl(5), "VALID ACLs". Places count from 1.
///
/// If several apply, a sequence is [`TooLong`](ListFault::TooLong) before all else, and then the
/// first variant of this enum is returned.
#[derive(Clone, Copy, PartialEq, Eq, Debug)]
pub enum ListFault {
    /// The key of the entry at this place came before; the least such place.
    Repeated { at: usize },
    /// No entry has this base key; the first such key in list order.
    MissingBase { key: Key },
    /// There is a named entry and no mask; the place of the first named entry.
    MissingMask { at: usize },
    /// There are more than [`MAX_ENTRIES`](crate::MAX_ENTRIES) entries.
    TooLong,
    /// Memory ran out.
    NoMemory,
}

impl From<AllocError> for ListFault {
    ghost use Rattle.acl_entry.specs.declared.entry.ListFault.TheVariants.{NoMemory};

    ghost from_gives = { λ _ fault. fault ≡ NoMemory };

    fn from(_: AllocError) -> ListFault {
        ListFault::NoMemory
    }
}

impl<T: Drop> From<AllocFailed<T>> for ListFault {
    ghost use Rattle.acl_entry.specs.declared.entry.ListFault.TheVariants.{NoMemory};

    ghost from_gives = { λ _ fault. fault ≡ NoMemory };

    fn from(_: AllocFailed<T>) -> ListFault {
        ListFault::NoMemory
    }
}

/// The greatest `u32`, which is no id: the system calls use it for "no change", and attribute bytes for "no
/// qualifier".
pub const NOBODY: u32 = 4294967295;

/// The number of a user or a group, from 0 to 4294967294: any but [`NOBODY`].
#[derive(Clone, Copy, PartialEq, Eq, PartialOrd, Ord, Debug)]
pub struct Id {
    number: u32,
}

impl Model for Id {
    ghost use Rattle.std.specs.Prelude.{ℕ, ◌<◌};
    ghost use Rattle.acl_entry.specs.Ids.{nobody};

    ghost Value = { ℕ };

    ghost view = { λ a. a.number };

    ghost invariant = { λ a. a.number < nobody };

    ghost inverse = { λ n. record { number = n } };
}

impl Id {
    /// Returns the id of a number, and `None` for [`NOBODY`].
    pub fn new(number: u32) -> Option<Id>
        ensures { SomeIff result (number < nobody) number }
    {
        if number < NOBODY {
            Some(Id { number })
        } else {
            None
        }
    }

    /// Returns the id's number, at most 4294967294.
    pub fn number(self) -> u32
        ensures is { result ≡ self }
        ensures small { self < nobody }
    {
        self.number
    }
}

/// An entry's tag type with its qualifier: acl(5), "ACL ENTRIES". The variants have the order
/// of a list, so `cmp` is list order.
#[derive(Clone, Copy, PartialEq, Eq, PartialOrd, Ord, Debug)]
pub enum Key {
    /// The file's owner, ACL_USER_OBJ.
    Owner,
    /// A named user, ACL_USER.
    User(Id),
    /// The file's group, ACL_GROUP_OBJ.
    OwningGroup,
    /// A named group, ACL_GROUP.
    Group(Id),
    /// The most that entries of the group class grant, ACL_MASK.
    Mask,
    /// Everyone else, ACL_OTHER.
    Other,
}

impl Key {
    /// Compares in list order: by kind, and within a kind by id. `cmp` does the same.
    pub fn order(self, other: Key) -> Ordering
        ensures { result ≡ key_cmp self other }
    {
        self.cmp(&other)
    }

    /// Returns the id of the user or the group that is named, if one is.
    pub fn id(&self) -> Option<Id>
        ensures named { result ≡ named_id self.now }
        ensures bound { id_of self.now < nobody }
    {
        match *self {
            Key::User(id) | Key::Group(id) => {
                // An id's bound is known once its number is read.
                let _number = id.number();
                Some(id)
            }
            Key::Owner | Key::OwningGroup | Key::Mask | Key::Other => None,
        }
    }

    /// Tells whether a user or a group is named.
    pub fn is_named(&self) -> bool
        ensures { result ≡ is_named self.now }
    {
        matches!(self, Key::User(_) | Key::Group(_))
    }

    /// Tells whether it is of the file group class: the owning group, a named user or a named group.
    pub fn is_class(&self) -> bool
        ensures { result ≡ is_class self.now }
    {
        matches!(self, Key::User(_) | Key::OwningGroup | Key::Group(_))
    }

    /// Tells whether each list has it: acl(5), "VALID ACLs".
    pub fn is_base(&self) -> bool
        ensures { result ≡ is_base self.now }
    {
        matches!(self, Key::Owner | Key::OwningGroup | Key::Other)
    }
}

/// Any byte, since `from_bits_retain` takes one: a `Perm` wraps one of at most 7.
#[derive(Clone, Copy, PartialEq, Eq)]
struct PermBits(u8);

bitflag_items! {
    impl PermBits: u8 {
        const EXECUTE = 1;
        const WRITE = 2;
        const READ = 4;
    }
}

impl Flags for PermBits {
    type Bits = u8;

    ghost exact = { ⊤ };

    ghost table = { (codes "EXECUTE", 1) ∷ (codes "WRITE", 2) ∷ (codes "READ", 4) ∷ [] };

    ghost set_of = { λ p. p.0 };

    fn flags<'a>() -> &'a [Flag<PermBits>] {
        PermBits::FLAGS
    }

    fn bits(&self) -> u8 {
        self.0
    }

    fn from_bits_retain(bits: u8) -> PermBits {
        PermBits(bits)
    }
}

/// A subset of read, write and execute. A request for access is one too.
///
/// As a number read counts 4, write 2 and execute 1.
#[derive(Clone, Copy, PartialEq, Eq)]
pub struct Perm {
    bits: PermBits,
}

impl Model for Perm {
    ghost use Rattle.std.specs.Prelude.{◌<◌};
    ghost use Rattle.acl_entry.specs.Perms.{Perms, number, numbered, number-numbered};
    ghost use Rattle.std.proofs.Common.{ap};

    ghost Value = { Perms };

    ghost view = { λ p. numbered p.bits.0 };

    ghost invariant = { λ p. p.bits.0 < 8 };

    ghost inverse = { λ s. record { bits = record { 0 = number s } } };

    ghost inverse_ok = { λ p h. ap (λ n. record { bits = record { 0 = n } }) (number-numbered p.bits.0 h) };
}

impl Perm {
    /// Read alone.
    pub const READ: Perm = Perm { bits: PermBits(4) };

    /// Write alone.
    pub const WRITE: Perm = Perm { bits: PermBits(2) };

    /// Execute alone. On a directory it is search.
    pub const EXECUTE: Perm = Perm { bits: PermBits(1) };

    /// Returns the set of a number from 0 to 7, and `None` above.
    pub fn from_number(n: u8) -> Option<Perm>
        ensures { SomeIff result (n < 8) (perms.numbered n) }
    {
        if n < 8 {
            Some(Perm {
                bits: PermBits::from_bits_retain(n),
            })
        } else {
            None
        }
    }

    /// Returns the set's number, from 0 to 7.
    pub fn number(self) -> u8
        ensures { result ≡ perms.number self }
    {
        self.bits.bits()
    }

    /// Returns the three bytes of `rwx`, with `-` for what is not in the set: acl(5), "ACL TEXT FORMS".
    pub fn text(self) -> [u8; 3]
        ensures { result ≡ perms.text self }
    {
        [
            if self.bits.contains(PermBits::READ) {
                b'r'
            } else {
                b'-'
            },
            if self.bits.contains(PermBits::WRITE) {
                b'w'
            } else {
                b'-'
            },
            if self.bits.contains(PermBits::EXECUTE) {
                b'x'
            } else {
                b'-'
            },
        ]
    }

    /// Tells whether each permission of the other set is one of this set.
    pub fn contains(self, other: Perm) -> bool
        ensures { result ≡ perms.contains self other }
    {
        self.bits.contains(other.bits)
    }

    /// Returns the permissions of either set.
    pub fn union(self, other: Perm) -> Perm
        ensures { result ≡ perms.union self other }
    {
        Perm {
            bits: self.bits.union(other.bits),
        }
    }

    /// Returns the permissions of both sets.
    pub fn meet(self, other: Perm) -> Perm
        ensures { result ≡ perms.meet self other }
    {
        Perm {
            bits: self.bits.intersection(other.bits),
        }
    }

    /// Returns the empty set.
    pub fn none() -> Perm
        ensures { result ≡ perms.none }
    {
        Perm { bits: PermBits(0) }
    }

    /// Returns the set whose number is the last digit of n in base 8.
    pub(crate) fn last_digit(n: u16) -> Perm
        ensures { result ≡ perms.numbered n }
    {
        Perm {
            bits: PermBits((n % 8) as u8),
        }
    }
}
