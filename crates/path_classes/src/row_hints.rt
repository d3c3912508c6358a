//! A cache from a hash to the place of a row. Correctness does not depend on it: callers compare what they find
//! there.

use crate::hash::mixed;
use crate::numbered_files::NumberedFiles;
use crate::path_class::ClassNumber;
use std::alloc::{AllocError, Global};

/// The places of rows by a hash of their label and of who gets through from above.
#[derive(Drop)]
pub(crate) struct RowHints {
    /// Whether each number has a place of its own, even if rows are the same: nothing is hashed and kept then.
    are_apart: bool,
    /// For each class above that was seen, the hash of who can search down to it.
    searchers: Vec<Option<u64>>,
    /// 1 more than the place of a row, at its hash modulo the length, which grows with the places; 0 if there is
    /// none.
    places: Vec<usize>,
}

impl RowHints {
    pub fn new(alloc: Global) -> RowHints {
        RowHints {
            are_apart: false,
            searchers: Vec::new(alloc),
            places: Vec::new(alloc),
        }
    }

    /// Gives each number a place of its own from now on, even if rows are the same.
    pub fn keep_apart(&mut self) {
        self.are_apart = true;
    }

    /// Returns the hash of who gets through a path class: computed once for each.
    fn searchers_hash(
        &mut self,
        files: &NumberedFiles<'_>,
        above: ClassNumber,
    ) -> Result<u64, AllocError> {
        if above >= self.searchers.len() {
            self.searchers.resize(above.saturating_add(1), None)?;
        }
        let Some(kept) = self.searchers.get_mut(above) else {
            return Ok(0);
        };
        if let Some(hash) = kept {
            return Ok(*hash);
        }
        let hash = files.searchers_hash(above);
        *kept = Some(hash);
        Ok(hash)
    }

    /// Hashes a number's row: its label and who gets through from above. `None` if numbers are apart, and for those
    /// of labels, of which no two are compared.
    pub fn hash(
        &mut self,
        files: &NumberedFiles<'_>,
        number: usize,
    ) -> Result<Option<u64>, AllocError> {
        if self.are_apart || !files.are_classes() {
            return Ok(None);
        }
        let label = files.label(number) as u64;
        match files.above(number) {
            Some(above) => Ok(Some(mixed(self.searchers_hash(files, above)?, label))),
            None => Ok(Some(mixed(0, label))),
        }
    }

    /// Returns the place of a row of a hash, if one is kept.
    pub fn place(&self, hash: Option<u64>) -> Option<usize> {
        let slot = (hash? as usize).checked_rem(self.places.len())?;
        match self.places.get(slot) {
            Some(place) => place.checked_sub(1),
            None => None,
        }
    }

    /// Keeps the place of a row of a hash, if it has one, and drops what its slot had.
    pub fn put(&mut self, hash: Option<u64>, place: usize) -> Result<(), AllocError> {
        let Some(hash) = hash else {
            return Ok(());
        };
        if place >= self.places.len() {
            let len = place.saturating_add(1).saturating_mul(4).max(64);
            self.places.resize(len, 0)?;
        }
        let Some(slot) = (hash as usize).checked_rem(self.places.len()) else {
            return Ok(());
        };
        if let Some(kept) = self.places.get_mut(slot) {
            *kept = place.saturating_add(1);
        }
        Ok(())
    }
}
