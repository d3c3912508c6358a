//! A hash table of the bodies that were read.

ghost use Rattle.std.specs.Prelude.{◌≡◌, ◌++◌, ◌⊎◌, IfSome, IfOk};
ghost use Rattle.acl_text.specs.declared.bodies.Known.{Known};
ghost use Rattle.acl_text.specs.SameBodies.{Ends};
ghost use Rattle.acl_text.specs.KnownBodies.{IsAmong};

use crate::body::{Body, after_body};
use std::alloc::{AllocError, Global};

/// One less than the most bodies that are kept.
const MAX_BODIES: usize = 16384;

/// The bytes of a dump for each place of the table, nearly.
const BYTES_PER_BODY: usize = 256;

/// After this many misses in a row only one body in [`SAMPLING_INTERVAL`] is looked up.
const MISSES_BEFORE_SAMPLING: usize = 64;

/// See [`MISSES_BEFORE_SAMPLING`].
const SAMPLING_INTERVAL: usize = 32;

/// After more than this many bodies in a row that are not one of the recent ones, these are not tried first.
const MAX_STRAYED: usize = 8;

/// How many bytes of a body its front has, by which it is looked up. A body of lists that getfacl(1) writes has
/// seldom fewer.
const FRONT: usize = 56;

/// Hashes are reduced modulo this before they are taken to places: a division of 32 bits takes less time than one of
/// 64.
const PLACED_BY: u64 = 1 << 32;

/// An odd multiplier that spreads the bits of a hash.
const SPREAD: u64 = 0x9e37_79b9_7f4a_7c15;

/// A body, and the place of a record that was read from it.
#[derive(Clone, Copy)]
pub(crate) struct Known<'a> {
    pub body: Body<'a>,
    pub mark: u64,
    pub place: usize,
}

/// A hash table of bodies: a later one replaces an earlier one at its place.
#[derive(Drop)]
pub(crate) struct Bodies<'a> {
    kept: Vec<Option<Known<'a>>>,
    /// By the hash of its front, the place of the body that was looked up last.
    fronts: Vec<usize>,
    /// The places of the bodies that were looked up last.
    recent: [usize; 4],
    /// How many bodies in a row were not one of these.
    strayed: usize,
    /// How many bodies in a row were not found, or not looked up.
    pub missed: usize,
}

/// Works a word into a hash.
fn mixed(mark: u64, word: u64) -> u64 {
    (mark ^ word).wrapping_mul(SPREAD).rotate_left(29)
}

/// Hashes bytes. Only a hint: callers compare the bytes. Two hashes take turns, so that neither waits for the one
/// before.
pub(crate) fn mark_of(bytes: &[u8]) -> u64 {
    let mut mark = SPREAD;
    let mut next = 0;
    let mut rest = bytes;
    while let [a, b, c, d, e, f, g, h, after @ ..] = rest {
        let word = u64::from_le_bytes([*a, *b, *c, *d, *e, *f, *g, *h]);
        let marked = mixed(mark, word);
        mark = next;
        next = marked;
        rest = after;
    }
    mark_of_last(mixed(mark, next), bytes)
}

/// Works the last eight bytes into a hash, or each byte if they are fewer.
fn mark_of_last(mark: u64, bytes: &[u8]) -> u64 {
    match bytes {
        [.., a, b, c, d, e, f, g, h] => {
            let word = u64::from_le_bytes([*a, *b, *c, *d, *e, *f, *g, *h]);
            mixed(mark, word)
        }
        _ => {
            let mut mark = mark;
            for byte in bytes {
                mark = mixed(mark, u64::from(*byte));
            }
            mark
        }
    }
}

impl<'a> Bodies<'a> {
    /// Returns an empty table for a dump of `bytes` bytes.
    pub(crate) fn new(alloc: Global, bytes: usize) -> Result<Bodies<'a>, AllocError>
        ensures { IfOk result (λ bodies. (k : Known) → IsAmong bodies k → ⊥) }
    {
        let places = (bytes / BYTES_PER_BODY).min(MAX_BODIES) + 1;
        let mut kept = Vec::with_capacity(alloc, places)?;
        for _ in 0..places {
            kept.push(None)?;
        }
        let mut fronts = Vec::new(alloc);
        fronts.resize(places, places)?;
        Ok(Bodies {
            kept,
            fronts,
            recent: [0; 4],
            strayed: 0,
            missed: 0,
        })
    }

    /// Returns the body with which a text begins, and the rest of the text, if it is a recent one or is found by its
    /// front.
    pub(crate) fn first_known(&self, text: &'a [u8]) -> Option<(Known<'a>, &'a [u8])>
        ensures { IfSome result (λ found. (IsAmong self.now found.0) × ((text.now ≡ found.0.body.bytes.now ++ found.1.now) × Ends found.1.now)) }
    {
        match self.first_recent(text) {
            Some(found) => Some(found),
            None => self.first_by_front(text),
        }
    }

    /// Returns the body with which a text begins, and the rest of the text, if it is a recent one.
    fn first_recent(&self, text: &'a [u8]) -> Option<(Known<'a>, &'a [u8])>
        ensures { IfSome result (λ found. (IsAmong self.now found.0) × ((text.now ≡ found.0.body.bytes.now ++ found.1.now) × Ends found.1.now)) }
    {
        if self.strayed > MAX_STRAYED {
            return None;
        }
        for at in &self.recent {
            if let Some(found) = self.first(*at, text) {
                return Some(found);
            }
        }
        None
    }

    /// Returns the body with which a text begins, and the rest of the text, if it is found by its front. After many
    /// misses nothing is looked up.
    fn first_by_front(&self, text: &'a [u8]) -> Option<(Known<'a>, &'a [u8])>
        ensures { IfSome result (λ found. (IsAmong self.now found.0) × ((text.now ≡ found.0.body.bytes.now ++ found.1.now) × Ends found.1.now)) }
    {
        if self.missed >= MISSES_BEFORE_SAMPLING {
            return None;
        }
        let at = self.fronts.get(self.front_of(text)?)?;
        self.first(*at, text)
    }

    /// Returns the place of a text's front in `fronts`; `None` if the text is short.
    fn front_of(&self, text: &[u8]) -> Option<usize> {
        let front = text.get(..FRONT)?;
        Some(self.place_of(mark_of(front)))
    }

    /// Records the place of a body by its front.
    fn note_front(&mut self, bytes: &[u8], at: usize)
        ensures { self.new.kept ≡ self.old.kept }
    {
        let Some(front) = self.front_of(bytes) else {
            return;
        };
        if let Some(noted) = self.fronts.get_mut(front) {
            *noted = at;
        }
    }

    /// Returns the body at a place, and the rest of the text, if the text begins with it.
    fn first(&self, at: usize, text: &'a [u8]) -> Option<(Known<'a>, &'a [u8])>
        ensures { IfSome result (λ found. (IsAmong self.now found.0) × ((text.now ≡ found.0.body.bytes.now ++ found.1.now) × Ends found.1.now)) }
    {
        let Some(Some(known)) = self.kept.get(at) else {
            return None;
        };
        let after = after_body(known.body.bytes, text)?;
        Some((*known, after))
    }

    /// Records the place of a body that was looked up.
    fn note(&mut self, at: usize)
        ensures { self.new.kept ≡ self.old.kept }
    {
        if self.recent.contains(&at) {
            self.strayed = 0;
            return;
        }
        let [first, second, third, _] = self.recent;
        self.recent = [at, first, second, third];
        self.strayed = self.strayed.saturating_add(1);
    }

    /// Tells whether the next body is looked up: after many misses that is seldom worth its time.
    pub(crate) fn is_next_looked_for(&mut self) -> bool
        ensures { (k : Known) → IsAmong self.new k → IsAmong self.old k }
    {
        self.missed = self.missed.wrapping_add(1);
        self.missed < MISSES_BEFORE_SAMPLING || self.missed % SAMPLING_INTERVAL == 0
    }

    /// Finds the body of these bytes by its hash.
    pub(crate) fn find(&mut self, mark: u64, bytes: &[u8]) -> Option<Known<'a>>
        ensures known { IfSome result (λ k. (IsAmong self.old k) × (k.body.bytes.now ≡ bytes.now)) }
        ensures same { (k : Known) → IsAmong self.new k → IsAmong self.old k }
    {
        let at = self.place_of(mark);
        let Some(Some(known)) = self.kept.get(at) else {
            return None;
        };
        if known.mark != mark || known.body.bytes != bytes {
            return None;
        }
        let known = *known;
        self.note(at);
        self.note_front(bytes, at);
        self.missed = 0;
        Some(known)
    }

    pub(crate) fn keep(&mut self, known: Known<'a>)
        ensures { (k : Known) → IsAmong self.new k → IsAmong self.old k ⊎ (k ≡ known.entry) }
    {
        let at = self.place_of(known.mark);
        if let Some(place) = self.kept.get_mut(at) {
            *place = Some(known);
        }
        self.note(at);
        self.note_front(known.body.bytes, at);
    }

    /// Returns the place of a hash.
    fn place_of(&self, mark: u64) -> usize {
        let most = self.kept.len() as u64;
        if most == 0 {
            0
        } else {
            (mark % PLACED_BY % most) as usize
        }
    }
}
