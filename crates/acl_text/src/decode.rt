//! Attributes read as lists.

ghost use Rattle.std.specs.Prelude.{◌≡◌, ◌≤◌, ◌<◌, ◌∷◌, length};
ghost use Rattle.std.specs.FinMap as maps;
ghost use Rattle.acl_text.specs.InTurn.{read_each, Gives, JudgesAt};
ghost use Rattle.acl_text.specs.Attr.{start, one_entry, bad_attr, has_head, perm_of, attr_of, entries_in, list_in};

use crate::attr_fields::{ENTRY_BYTES, HEAD_BYTES, VERSION, key_of};
use crate::fault::{FaultKind, TextFault};
use acl_entry::{Acl, Draft, Key, MAX_ENTRIES, Perm};
use byteorder::{ByteOrder, LittleEndian};
use std::alloc::Global;

/// The entries that are read so far.
#[derive(Drop)]
struct Reading {
    entries: Draft,
    /// The tag of the last entry, and 0 if there is none.
    last_tag: u16,
}

/// Returns the list that an attribute contains.
///
/// # Errors
///
/// `BadAttr` at 0 if it does not begin with the number 2 in four bytes; else at the number of the first faulty
/// entry, counted from 1: one of fewer than eight bytes, one beyond `MAX_ENTRIES`, one whose tag is unknown or below
/// the tag before it, whose permissions are above 7, which names the id 4294967295, or whose key came before; else,
/// if a base entry or the mask is missing, at the number of entries plus one. Or `NoMemory`.
pub fn decode_attr(alloc: Global, bytes: &[u8]) -> Result<Acl, TextFault>
    ensures { Gives (λ acl. acl) result (attr_of bytes.now) }
{
    if !has_head(bytes) {
        return Err(bad_attr(0));
    }
    read_list(alloc, &bytes[HEAD_BYTES..])
}

/// Tells whether the bytes begin with the number 2.
fn has_head(bytes: &[u8]) -> bool
    ensures { result ≡ has_head bytes.now }
{
    bytes.len() >= HEAD_BYTES && LittleEndian::read_u32(bytes) == VERSION
}

/// Returns the fault of the entry at a place.
fn bad_attr(at: usize) -> TextFault
    ensures { result ≡ bad_attr at }
{
    TextFault {
        kind: FaultKind::BadAttr,
        at,
    }
}

/// Returns the list of the entries after the head.
fn read_list(alloc: Global, bytes: &[u8]) -> Result<Acl, TextFault>
    ensures { Gives (λ acl. acl) result (list_in bytes.now) }
{
    let reading = read_entries(alloc, bytes)?;
    match reading.entries.finish() {
        Ok(acl) => Ok(acl),
        Err(_) => Err(bad_attr(entry_count(bytes) + 1)),
    }
}

/// Returns how many entries the bytes are, the last one perhaps cut short.
fn entry_count(bytes: &[u8]) -> usize
    ensures count { result ≡ length (entries_in bytes.now) }
    ensures within { result ≤ length bytes.now }
{
    bytes.len().div_ceil(ENTRY_BYTES)
}

fn read_entries(alloc: Global, bytes: &[u8]) -> Result<Reading, TextFault>
    ensures { Gives (λ reading. reading) result (read_each one_entry start (entries_in bytes.now)) }
{
    let mut reading = Reading {
        entries: Draft::new(alloc),
        last_tag: 0,
    };
    let mut rest = bytes;
    let mut at = 0;
    while !rest.is_empty() {
        at += 1;
        let (entry, after) = first_entry(rest);
        read_entry(&mut reading, at, entry)?;
        rest = after;
    }
    Ok(reading)
}

/// Returns the bytes of the first entry, and those after it.
fn first_entry(bytes: &[u8]) -> (&[u8], &[u8])
    requires { 0 < length bytes.now }
    ensures entries { entries_in bytes.now ≡ result.0.now ∷ entries_in result.1.now }
    ensures shorter { length result.1.now < length bytes.now }
{
    if bytes.len() < ENTRY_BYTES {
        return (bytes, &[]);
    }
    (&bytes[..ENTRY_BYTES], &bytes[ENTRY_BYTES..])
}

/// Adds the entry at a place.
fn read_entry(reading: &mut Reading, at: usize, bytes: &[u8]) -> Result<(), TextFault>
    ensures { JudgesAt at result reading.new (one_entry at reading.old bytes.now) }
{
    if at > MAX_ENTRIES || bytes.len() != ENTRY_BYTES {
        return Err(bad_attr(at));
    }
    let tag = LittleEndian::read_u16(bytes);
    let perm = LittleEndian::read_u16(&bytes[2..]);
    let id = LittleEndian::read_u32(&bytes[4..]);
    if tag < reading.last_tag {
        return Err(bad_attr(at));
    }
    let Some(perm) = perm_of(perm) else {
        return Err(bad_attr(at));
    };
    let Some(key) = key_of(tag, id) else {
        return Err(bad_attr(at));
    };
    if has_entry(&reading.entries, &key) {
        return Err(bad_attr(at));
    }
    reading.entries.insert(key, perm)?;
    reading.last_tag = tag;
    Ok(())
}

/// Returns the permission set of a number below 8.
fn perm_of(number: u16) -> Option<Perm>
    ensures { result ≡ perm_of number }
{
    if number > 7 {
        return None;
    }
    Perm::from_number(number as u8)
}

/// Tells whether there is an entry of the key.
fn has_entry(entries: &Draft, key: &Key) -> bool
    ensures { result ≡ maps.contains_key entries.now key.now }
{
    entries.get(*key).is_some()
}
