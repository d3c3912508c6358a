//! A list that is not valid yet, and entries in list order: where a key is, what is wrong with them, and other sets at their
//! keys.

ghost use Rattle.std.specs.Prelude.{◌≡◌, ◌<◌, ◌≤◌, ◌+◌, take, true, Some, IfOk, IfErr, IsOk, OnOk, OnErr, length, ◌≢◌, Ok, Err, IsTrue, option_map, map, filter};
ghost use Rattle.std.specs.FinMap as maps;
ghost use Rattle.acl_entry.specs.Lists as lists;
ghost use Rattle.acl_entry.specs.Lists.{HasIds, IsValid, IsAt, IsGapFor, IsInOrder, IsList, pairs, keys, repeated, in_class, perm_of_entry};
ghost use Rattle.acl_entry.specs.declared.entry.Key.{Key};
ghost use Rattle.std.specs.List.Sorted.{IsPermutation};
ghost use Rattle.acl_entry.specs.Ids.{nobody};
ghost use Rattle.acl_entry.specs.Keys.{key_cmp, is_named, is_base, id_of};
ghost use Rattle.std.specs.List.{position_from, list_all};

use crate::acl::{Acl, INLINE_ENTRIES, MAX_ENTRIES};
use crate::{Entry, Key, ListFault, Perm};
use smallvec::SmallVec;
use std::alloc::{AllocError, Global};
use std::cmp::Ordering;
use std::marker::Model;

/// A map from keys to permission sets that need not be a valid list yet: what edits and readers of
/// text work on, so that they do not touch sorted entries.
#[derive(Drop)]
pub struct Draft {
    entries: SmallVec<Entry, INLINE_ENTRIES>,
}

impl Model for Draft {
    ghost use Rattle.std.specs.FinMap.{code};
    ghost use Rattle.acl_entry.specs.Perms.{coded_perms};
    ghost use Rattle.acl_entry.specs.Keys.{coded_key};
    ghost use Rattle.acl_entry.specs.Lists.{KeyMap, map_of, IsMap};

    ghost Value = { KeyMap };

    ghost coded = { code coded_key coded_perms };

    ghost view = { λ a. map_of a.entries.items };

    ghost invariant = { λ a. IsMap a.entries.items };
}

impl Draft {
    /// Returns a draft without entries.
    pub fn new(alloc: Global) -> Draft
        ensures { result ≡ maps.empty }
    {
        Draft {
            entries: SmallVec::new(alloc),
        }
    }

    /// Returns the entries of a list.
    ///
    /// # Errors
    ///
    /// If memory runs out, never for a list of at most [`INLINE_ENTRIES`] entries.
    pub fn of(alloc: Global, acl: &Acl) -> Result<Draft, AllocError>
        ensures ok { IfOk result (λ draft. draft ≡ acl.now) }
        ensures inline { length (lists.entries acl.now) ≤ INLINE_ENTRIES → IsOk result }
    {
        Ok(Draft {
            entries: SmallVec::from_slice(alloc, acl.entries())?,
        })
    }

    /// Returns what the entry of this key has, if there is one.
    pub fn get(&self, key: Key) -> Option<Perm>
        ensures { result ≡ maps.get self.now key }
    {
        perm_of(&self.entries, &key)
    }

    /// Puts an entry, in place of the one of its key if there is one.
    ///
    /// # Errors
    ///
    /// If memory runs out; the draft is then as it was. Never if the key is present, or if there are fewer than
    /// [`INLINE_ENTRIES`] entries.
    pub fn insert(&mut self, key: Key, perm: Perm) -> Result<(), AllocError>
        ensures ok { OnOk result (self.new ≡ maps.insert self.old key perm) }
        ensures err { OnErr result (self.new ≡ self.old) }
        ensures inline { length (lists.entries self.old) < INLINE_ENTRIES → IsOk result }
        ensures has_entry { maps.contains_key self.old key ≡ true → IsOk result }
    {
        // How many entries have room inline is known once the capacity is read.
        let _capacity = self.entries.capacity();
        match place(&self.entries, &key) {
            Ok(_) => set_perm(&mut self.entries, &key, perm),
            Err(at) => self.entries.insert(at, Entry { key, perm })?,
        }
        Ok(())
    }

    /// Removes the entry of the key, if there is one.
    pub fn remove(&mut self, key: &Key)
        ensures { self.new ≡ maps.remove self.old key.now }
    {
        if let Ok(at) = place(&self.entries, key) {
            let _removed = self.entries.remove(at);
        }
    }

    /// Returns the entries in list order.
    pub fn entries(&self) -> &[Entry]
        ensures all { result.now ≡ lists.entries self.now }
        ensures ids { HasIds result.now }
    {
        &self.entries
    }

    /// Returns the union of what the entries of the group class have, the mask apart: what a mask is recalculated to,
    /// setfacl(1).
    pub fn class_union(&self) -> Perm
        ensures { result ≡ lists.class_union self.now }
    {
        class_union(&self.entries)
    }

    /// Returns the list of these entries, whatever memory there is.
    ///
    /// # Errors
    ///
    /// What is wrong with the entries in list order; never that memory ran out.
    pub fn finish(self) -> Result<Acl, ListFault>
        ensures ok { IfOk result (λ acl. acl ≡ self) }
        ensures valid { OnOk result (IsValid self) }
        ensures reported { IfErr result (λ fault. lists.fault (lists.entries self) ≡ Some fault) }
    {
        if let Some(fault) = fault_in_order(&self.entries) {
            return Err(fault);
        }
        Ok(Acl::of_list(self.entries))
    }
}

/// Returns where the key is, or where it would go.
pub(crate) fn place(entries: &[Entry], key: &Key) -> Result<usize, usize>
    requires { IsInOrder entries.now }
    ensures found { IfOk result (IsAt entries.now key.now) }
    ensures absent { IfErr result (IsGapFor entries.now key.now) }
    ensures id { id_of key.now < nobody }
{
    let _id = key.id();
    entries.binary_search_by_key(key, |entry| entry.key)
}

/// Returns the permissions of the key's entry, if there is one.
pub(crate) fn perm_of(entries: &[Entry], key: &Key) -> Option<Perm>
    requires { IsInOrder entries.now }
    ensures { result ≡ maps.find key_cmp key.now (pairs entries.now) }
{
    match place(entries, key) {
        Ok(at) => Some(entries[at].perm),
        Err(_) => None,
    }
}

/// Puts another permission set at a key that is present.
pub(crate) fn set_perm(entries: &mut [Entry], key: &Key, perm: Perm)
    requires in_order { IsInOrder entries.old }
    requires has_entry { IsTrue (lists.is_among key.now (keys entries.old)) }
    ensures put { pairs entries.new ≡ maps.put key_cmp key.now perm (pairs entries.old) }
    ensures keys { keys entries.new ≡ keys entries.old }
{
    if let Ok(at) = place(entries, key) {
        entries[at].perm = perm;
    }
}

/// Puts the entries in list order by inserting one after another, and so finds the first key that comes twice.
fn one_by_one(
    alloc: Global,
    entries: &[Entry],
) -> Result<SmallVec<Entry, INLINE_ENTRIES>, ListFault>
    requires { length entries.now ≤ MAX_ENTRIES }
    ensures once { OnOk result (repeated (keys entries.now) ≡ None) }
    ensures in_order { IfOk result (λ sorted. IsInOrder sorted.items) }
    ensures permutation { IfOk result (λ sorted. IsPermutation entries.now sorted.items) }
    ensures ids { IfOk result (λ sorted. HasIds sorted.items) }
    ensures same { IfOk result (λ sorted. (k : Key) → maps.find key_cmp k (pairs sorted.items) ≡ maps.find key_cmp k (pairs entries.now)) }
    ensures err { IfErr result (λ fault. fault ≢ ListFault.NoMemory → option_map ListFault.Repeated (repeated (keys entries.now)) ≡ Some fault) }
    ensures inline { length entries.now ≤ INLINE_ENTRIES → result ≢ Err ListFault.NoMemory }
{
    let mut sorted = SmallVec::new(alloc);
    for (i, entry) in entries.iter().enumerate() {
        match place(&sorted, &entry.key) {
            Ok(_) => return Err(ListFault::Repeated { at: i + 1 }),
            Err(at) => sorted.insert(at, *entry)?,
        }
    }
    Ok(sorted)
}

/// Tells whether the key at a place is above the one before it, if there is one.
fn rises_at(entries: &[Entry], at: usize) -> bool
    requires in_range { at < length entries.now }
    requires in_order { IsInOrder (take at entries.now) }
    ensures { result ≡ true → IsInOrder (take (at + 1) entries.now) }
{
    if at == 0 {
        return true;
    }
    let before = entries[at - 1].key;
    before.order(entries[at].key) == Ordering::Less
}

/// Tells whether keys rise from entry to entry.
fn rises(entries: &[Entry]) -> bool
    ensures in_order { result ≡ true → IsInOrder entries.now }
    ensures ids { result ≡ true → HasIds entries.now }
{
    for at in 0..entries.len() {
        let _id = entries[at].key.id();
        if !rises_at(entries, at) {
            return false;
        }
    }
    true
}

/// Copies entries, and sorts them unless their keys rise.
fn sorted_copy(
    alloc: Global,
    entries: &[Entry],
) -> Result<SmallVec<Entry, INLINE_ENTRIES>, AllocError>
    ensures permutation { IfOk result (λ sorted. IsPermutation entries.now sorted.items) }
    ensures inline { length entries.now ≤ INLINE_ENTRIES → IsOk result }
{
    let mut sorted = SmallVec::from_slice(alloc, entries)?;
    if !rises(&sorted) {
        sorted
            .as_mut_slice()
            .sort_unstable_by_key(|entry| entry.key);
    }
    Ok(sorted)
}

/// Returns the entries in list order, or the first key that comes twice.
pub(crate) fn in_order(
    alloc: Global,
    entries: &[Entry],
) -> Result<SmallVec<Entry, INLINE_ENTRIES>, ListFault>
    requires { length entries.now ≤ MAX_ENTRIES }
    ensures once { OnOk result (repeated (keys entries.now) ≡ None) }
    ensures in_order { IfOk result (λ sorted. IsInOrder sorted.items) }
    ensures permutation { IfOk result (λ sorted. IsPermutation entries.now sorted.items) }
    ensures ids { IfOk result (λ sorted. HasIds sorted.items) }
    ensures same { IfOk result (λ sorted. (k : Key) → maps.find key_cmp k (pairs sorted.items) ≡ maps.find key_cmp k (pairs entries.now)) }
    ensures err { IfErr result (λ fault. fault ≢ ListFault.NoMemory → option_map ListFault.Repeated (repeated (keys entries.now)) ≡ Some fault) }
    ensures inline { length entries.now ≤ INLINE_ENTRIES → result ≢ Err ListFault.NoMemory }
{
    let sorted = sorted_copy(alloc, entries)?;
    if rises(&sorted) {
        Ok(sorted)
    } else {
        one_by_one(alloc, entries)
    }
}

/// Tells whether there is an entry of the key.
pub(crate) fn has_entry(sorted: &[Entry], key: &Key) -> bool
    requires { IsInOrder sorted.now }
    ensures { result ≡ lists.is_among key.now (keys sorted.now) }
{
    perm_of(sorted, key).is_some()
}

/// Returns the first base key without an entry.
pub(crate) fn missing_base(sorted: &[Entry]) -> Option<Key>
    requires { IsInOrder sorted.now }
    ensures { result ≡ lists.missing_base (keys sorted.now) }
{
    if !has_entry(sorted, &Key::Owner) {
        return Some(Key::Owner);
    }
    if !has_entry(sorted, &Key::OwningGroup) {
        return Some(Key::OwningGroup);
    }
    if !has_entry(sorted, &Key::Other) {
        return Some(Key::Other);
    }
    None
}

/// Returns the first named entry, as a place from 1.
fn first_named(entries: &[Entry]) -> Option<usize>
    requires { length entries.now ≤ MAX_ENTRIES }
    ensures { result ≡ position_from is_named 1 (keys entries.now) }
{
    for (i, entry) in entries.iter().enumerate() {
        if entry.key.is_named() {
            return Some(i + 1);
        }
    }
    None
}

/// Returns what is wrong with entries that are in list order.
pub(crate) fn fault_in_order(sorted: &[Entry]) -> Option<ListFault>
    requires { IsInOrder sorted.now }
    ensures { result ≡ lists.fault sorted.now }
{
    if sorted.len() > MAX_ENTRIES {
        return Some(ListFault::TooLong);
    }
    if let Some(key) = missing_base(sorted) {
        return Some(ListFault::MissingBase { key });
    }
    match unmasked(sorted, has_entry(sorted, &Key::Mask)) {
        Some(at) => Some(ListFault::MissingMask { at }),
        None => None,
    }
}

/// Returns the first named entry if there is no mask.
pub(crate) fn unmasked(entries: &[Entry], has_mask: bool) -> Option<usize>
    requires short { length entries.now ≤ MAX_ENTRIES }
    requires mask { has_mask ≡ lists.is_among Key.Mask (keys entries.now) }
    ensures { result ≡ lists.unmasked (keys entries.now) }
{
    if has_mask {
        return None;
    }
    first_named(entries)
}

/// Returns the union of what the entries of the group class have, the mask apart.
pub(crate) fn class_union(entries: &[Entry]) -> Perm
    ensures { result ≡ lists.union_all (map perm_of_entry (filter in_class entries.now)) }
{
    let mut all = Perm::none();
    for entry in entries {
        if entry.key.is_class() {
            all = all.union(entry.perm);
        }
    }
    all
}

/// Tells whether there are only base entries.
pub(crate) fn has_base_alone(entries: &[Entry]) -> bool
    ensures { result ≡ list_all (λ e. is_base e.key) entries.now }
{
    entries.iter().all(|entry| entry.key.is_base())
}

/// Puts other sets at the mode entries.
pub(crate) fn set_mode(
    entries: &mut [Entry],
    group: &Key,
    owner: Perm,
    group_perm: Perm,
    other: Perm,
)
    requires list { IsList entries.old }
    requires group { group.now ≡ lists.group_digit_key (lists.map_of entries.old) }
    ensures list { IsList entries.new }
    ensures map { lists.map_of entries.new ≡ lists.with_mode (lists.map_of entries.old) owner group_perm other }
{
    set_perm(entries, &Key::Owner, owner);
    set_perm(entries, group, group_perm);
    set_perm(entries, &Key::Other, other);
}
