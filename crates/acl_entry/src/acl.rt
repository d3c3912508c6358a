//! Valid lists: acl(5), "VALID ACLs" and "CORRESPONDENCE BETWEEN ACL ENTRIES AND FILE PERMISSION
//! BITS".
ghost use Rattle.std.specs.Prelude.{◌≡◌, ◌≢◌, ◌<◌, ◌≤◌, ◌%◌, length, IfOk, IfErr, OnOk, IsOk, Ok, Err, IsTrue, Some, None, ◌↔◌};
ghost use Rattle.acl_entry.specs.declared.entry.Key.{Key};
ghost use Rattle.acl_entry.specs.declared.entry.Key.TheVariants.{Mask};
ghost use Rattle.std.specs.FinMap as maps;
ghost use Rattle.acl_entry.specs.Ids.{nobody};
ghost use Rattle.acl_entry.specs.Lists as lists;
ghost use Rattle.acl_entry.specs.Lists.{HasIds, IsValid, IsList};
ghost use Rattle.acl_entry.specs.Perms.{number};

use crate::draft::{
    class_union, has_base_alone, has_entry, in_order, missing_base, perm_of, set_mode, unmasked,
};
use crate::{Entry, Key, ListFault, NOBODY, Perm};
use smallvec::SmallVec;
use std::alloc::{AllocError, Global};
use std::marker::Model;

/// The most entries that a list may have.
pub const MAX_ENTRIES: usize = 4096;

/// The most entries that a list keeps with no allocation.
pub const INLINE_ENTRIES: usize = 8;

/// Proof only: the most entries of a list, how many of them it keeps with no allocation, and the number that is no id.
pub fn limits_are_as_defined()
    ensures most { MAX_ENTRIES ≡ lists.most_entries }
    ensures inline { INLINE_ENTRIES ≡ lists.inline_entries }
    ensures nobody { NOBODY ≡ nobody }
{}

/// A valid access control list, seen by contracts as the map from keys to permission sets.
///
/// It has the owner, the owning group and the others once each, no key twice, and a mask if it
/// has a named entry.
#[derive(Drop)]
pub struct Acl {
    entries: SmallVec<Entry, INLINE_ENTRIES>,
}

impl Model for Acl {
    ghost use Rattle.std.specs.FinMap.{code};
    ghost use Rattle.acl_entry.specs.Perms.{coded_perms};
    ghost use Rattle.acl_entry.specs.Keys.{coded_key};
    ghost use Rattle.acl_entry.specs.Lists.{KeyMap, map_of, IsList};

    ghost Value = { KeyMap };

    ghost coded = { code coded_key coded_perms };

    ghost view = { λ a. map_of a.entries.items };

    ghost invariant = { λ a. IsList a.entries.items };
}

impl Acl {
    /// Returns the list of the three base entries that corresponds to the low nine bits of a mode.
    ///
    /// # Errors
    ///
    /// Never: the entries are kept in the value.
    pub fn minimal(alloc: Global, mode: u16) -> Result<Acl, AllocError>
        ensures ok { IfOk result (λ acl. acl ≡ lists.minimal mode) }
        ensures base_alone { IfOk result (λ acl. IsTrue (lists.is_minimal acl)) }
        ensures shown { IfOk result (λ acl. lists.mode acl ≡ mode % 512) }
        ensures succeeds { IsOk result }
    {
        let entries = [
            Entry {
                key: Key::Owner,
                perm: Perm::last_digit(mode / 64),
            },
            Entry {
                key: Key::OwningGroup,
                perm: Perm::last_digit(mode / 8),
            },
            Entry {
                key: Key::Other,
                perm: Perm::last_digit(mode),
            },
        ];
        Ok(Acl {
            entries: SmallVec::from_slice(alloc, &entries)?,
        })
    }

    /// Returns the list of a sequence of entries, in any order.
    ///
    /// # Errors
    ///
    /// The first fault of the sequence, or that memory ran out, never for at most [`INLINE_ENTRIES`] entries, and
    /// never if there are too many.
    pub fn from_entries(alloc: Global, entries: &[Entry]) -> Result<Acl, ListFault>
        ensures ok { IfOk result (λ acl. acl ≡ lists.map_of entries.now) }
        ensures no_fault { OnOk result (lists.fault entries.now ≡ None) }
        ensures reported { IfErr result (λ fault. fault ≢ ListFault.NoMemory → lists.fault entries.now ≡ Some fault) }
        ensures inline { length entries.now ≤ INLINE_ENTRIES → result ≢ Err ListFault.NoMemory }
        ensures too_long { lists.most_entries < length entries.now → result ≡ Err ListFault.TooLong }
    {
        if entries.len() > MAX_ENTRIES {
            return Err(ListFault::TooLong);
        }
        let sorted = in_order(alloc, entries)?;
        if let Some(key) = missing_base(&sorted) {
            return Err(ListFault::MissingBase { key });
        }
        if let Some(at) = unmasked(entries, has_entry(&sorted, &Key::Mask)) {
            return Err(ListFault::MissingMask { at });
        }
        Ok(Acl { entries: sorted })
    }

    /// Copies the list.
    ///
    /// # Errors
    ///
    /// If memory runs out, never for at most [`INLINE_ENTRIES`] entries.
    pub fn try_clone(&self, alloc: Global) -> Result<Acl, AllocError>
        ensures ok { IfOk result (λ acl. acl ≡ self.now) }
        ensures inline { length (lists.entries self.now) ≤ INLINE_ENTRIES → IsOk result }
    {
        Ok(Acl {
            entries: SmallVec::from_slice(alloc, &self.entries)?,
        })
    }

    /// Tells whether both are one list.
    pub fn same(&self, other: &Acl) -> bool
        ensures { IsTrue result ↔ (self.now ≡ other.now) }
    {
        self.entries() == other.entries()
    }

    /// Returns what the entry of this key has, if there is one.
    pub fn get(&self, key: Key) -> Option<Perm>
        ensures { result ≡ maps.get self.now key }
    {
        perm_of(&self.entries, &key)
    }

    /// Returns the entries in list order.
    pub fn entries(&self) -> &[Entry]
        ensures all { result.now ≡ lists.entries self.now }
        ensures valid { IsValid self.now }
        ensures ids { HasIds result.now }
    {
        &self.entries
    }

    /// Returns what the entry of this key grants: its permissions, and of an entry of the group class those that the
    /// mask has too, if there is one.
    pub fn effective(&self, key: Key) -> Option<Perm>
        ensures { result ≡ lists.effective self.now key }
    {
        let in_class = key.is_class();
        let perm = self.get(key)?;
        match self.get(Key::Mask) {
            Some(mask) if in_class => Some(perm.meet(mask)),
            _ => Some(perm),
        }
    }

    /// Returns the union of what the entries of the group class have, the mask apart: what a mask is recalculated to,
    /// setfacl(1).
    pub fn class_union(&self) -> Perm
        ensures { result ≡ lists.class_union self.now }
    {
        class_union(&self.entries)
    }

    /// Tells whether the list is minimal: the three base entries alone.
    pub fn is_minimal(&self) -> bool
        ensures { result ≡ lists.is_minimal self.now }
    {
        has_base_alone(&self.entries)
    }

    /// Returns the nine permission bits that correspond: the owner, the mask or else the owning group, and the
    /// others.
    pub fn mode(&self) -> u16
        ensures { result ≡ lists.mode self.now }
    {
        let group = self.group_digit_key();
        64 * self.digit(&Key::Owner) + 8 * self.digit(&group) + self.digit(&Key::Other)
    }

    /// Puts the low nine bits of a mode into the entries that correspond, as chmod(1) does; all other
    /// entries stay.
    pub fn chmod(&mut self, mode: u16)
        ensures set { self.new ≡ lists.chmod self.old mode }
        ensures shown { lists.mode self.new ≡ mode % 512 }
    {
        self.set_mode_entries(
            Perm::last_digit(mode / 64),
            Perm::last_digit(mode / 8),
            Perm::last_digit(mode),
        );
    }

    /// Meets the entries that correspond with the low nine bits of a mode, as the creation of a file
    /// under a default list does: acl(5), "OBJECT CREATION AND DEFAULT ACLs".
    pub fn restrict(&mut self, mode: u16)
        ensures { self.new ≡ lists.restrict self.old mode }
    {
        let group = self.group_digit_key();
        let owner_perm = self
            .perm_or_none(&Key::Owner)
            .meet(Perm::last_digit(mode / 64));
        let group_perm = self.perm_or_none(&group).meet(Perm::last_digit(mode / 8));
        let other_perm = self.perm_or_none(&Key::Other).meet(Perm::last_digit(mode));
        self.set_mode_entries(owner_perm, group_perm, other_perm);
    }

    /// Puts other sets at the mode entries.
    fn set_mode_entries(&mut self, owner: Perm, group: Perm, other: Perm)
        ensures { self.new ≡ lists.with_mode self.old owner group other }
    {
        let group_key = self.group_digit_key();
        set_mode(&mut self.entries, &group_key, owner, group, other);
    }

    /// Returns the list of these entries.
    pub(crate) fn of_list(entries: SmallVec<Entry, INLINE_ENTRIES>) -> Acl
        requires { IsList entries.items }
        ensures { result ≡ lists.map_of entries.items }
    {
        Acl { entries }
    }

    /// Returns the key whose entry has the group digit of the mode.
    fn group_digit_key(&self) -> Key
        ensures { result ≡ lists.group_digit_key self.now }
    {
        match self.get(Key::Mask) {
            Some(_) => Key::Mask,
            None => Key::OwningGroup,
        }
    }

    /// Returns what the entry has, or nothing.
    pub(crate) fn perm_or_none(&self, key: &Key) -> Perm
        ensures { result ≡ lists.perm_at self.now key.now }
    {
        self.get(*key).unwrap_or(Perm::none())
    }

    /// Returns the entry's digit of the mode.
    fn digit(&self, key: &Key) -> u16
        ensures is { result ≡ number (lists.perm_at self.now key.now) }
        ensures small { result < 8 }
    {
        self.perm_or_none(key).number() as u16
    }
}
