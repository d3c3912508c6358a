//! A cache from a key (the class of the parent directory, the label's number) to the place of its class. Correctness
//! does not depend on it: callers compare what they find there.

use crate::path_class::ClassNumber;
use kinds::KindNumber;
use std::alloc::{AllocError, Global};
use std::collections::BTreeMap;

/// Hashes a key. If two keys have the same hash, the first is not found again.
fn key(above: Option<ClassNumber>, kind: KindNumber) -> u64 {
    let above = match above {
        Some(class) => (class as u64).wrapping_add(1),
        None => 0,
    };
    above.wrapping_mul(1 << 32).wrapping_add(kind as u64)
}

/// The places of classes by their keys.
#[derive(Drop)]
pub(crate) struct ClassHints {
    /// 1 more than the place of the class of a label that was found last, at the label's number modulo the length,
    /// which grows with the known classes; 0 if there is none.
    last: Vec<usize>,
    all: BTreeMap<u64, usize>,
}

impl ClassHints {
    pub fn new(alloc: Global) -> ClassHints {
        ClassHints {
            last: Vec::new(alloc),
            all: BTreeMap::new(alloc),
        }
    }

    /// Returns the place of the class of a label that was found last.
    pub fn last(&self, kind: KindNumber) -> Option<usize> {
        let slot = kind.checked_rem(self.last.len())?;
        match self.last.get(slot) {
            Some(place) => place.checked_sub(1),
            None => None,
        }
    }

    /// Returns the place of the class of a key.
    pub fn place(&self, above: Option<ClassNumber>, kind: KindNumber) -> Option<usize> {
        match self.all.get(&key(above, kind)) {
            Some(place) => Some(*place),
            None => None,
        }
    }

    /// Records the place of the class of a label that was found last.
    pub fn set_last(&mut self, kind: KindNumber, place: usize) -> Result<(), AllocError> {
        if place >= self.last.len() {
            let len = place.saturating_add(1).saturating_mul(2).max(16);
            self.last.resize(len, 0)?;
        }
        let Some(slot) = kind.checked_rem(self.last.len()) else {
            return Ok(());
        };
        if let Some(last) = self.last.get_mut(slot) {
            *last = place.saturating_add(1);
        }
        Ok(())
    }

    /// Adds the place of the class of a key, which was found last.
    pub fn add(
        &mut self,
        above: Option<ClassNumber>,
        kind: KindNumber,
        place: usize,
    ) -> Result<(), AllocError> {
        let _before = self.all.insert(key(above, kind), place)?;
        self.set_last(kind, place)
    }
}
