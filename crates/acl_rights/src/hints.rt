//! A cache of numbers by the hashes of labels.

use std::alloc::{AllocError, Global};
use std::collections::BTreeMap;
use std::rc::Rc;

/// The number that a label of this hash was given.
#[derive(Clone, Copy)]
pub(crate) struct Hint {
    pub hash: u64,
    pub number: usize,
}

/// A cache from a label's hash to the last number seen for it. Correctness does not depend on it: callers compare the
/// label. So labels whose hashes collide cost only time and memory.
///
/// Copies share what they have in common: hints are in a few blocks, each sorted by hash, and each more than twice as
/// long as the next.
#[derive(Drop)]
pub(crate) struct Hints {
    blocks: Vec<Rc<Vec<Hint>>>,
}

/// If there are more hints than these, all are dropped before others are added.
const MAX_HINTS: usize = 1 << 20;

/// How many numbers of a tree the cache gets after a load and after a line on many files.
pub(crate) const FIRST_HINTS: usize = 1 << 16;

/// Returns the number of a hash in a block, by binary search.
fn number_in(block: &[Hint], hash: u64) -> Option<usize> {
    match block.binary_search_by(|hint| hint.hash.cmp(&hash)) {
        Ok(place) => match block.get(place) {
            Some(hint) => Some(hint.number),
            None => None,
        },
        Err(_) => None,
    }
}

/// Merges two blocks, sorted by hash; if both have a hash, the later one's number is kept.
fn joined(alloc: Global, block: &[Hint], later: &[Hint]) -> Result<Vec<Hint>, AllocError> {
    let mut all = Vec::with_capacity(alloc, block.len())?;
    let mut left = block;
    let mut rest = later;
    while let Some((hint, more)) = left.split_first() {
        match rest.split_first() {
            Some((other, others)) if other.hash <= hint.hash => {
                all.push(*other)?;
                rest = others;
                if other.hash == hint.hash {
                    left = more;
                }
            }
            _ => {
                all.push(*hint)?;
                left = more;
            }
        }
    }
    all.extend_from_slice(rest)?;
    Ok(all)
}

/// Sorts the numbers at `places` by hash into a block.
fn block_of(
    alloc: Global,
    places: &BTreeMap<u64, usize>,
    numbers: &[usize],
) -> Result<Vec<Hint>, AllocError> {
    let mut block = Vec::new(alloc);
    for (hash, place) in places {
        if let Some(number) = numbers.get(*place) {
            block.push(Hint {
                hash: *hash,
                number: *number,
            })?;
        }
    }
    Ok(block)
}

impl Hints {
    pub fn new(alloc: Global) -> Hints {
        Hints {
            blocks: Vec::new(alloc),
        }
    }

    /// Makes a cache of one block.
    pub fn of(alloc: Global, hints: Vec<Hint>) -> Result<Hints, AllocError> {
        let mut block = hints;
        block.sort_unstable_by_key(|hint| hint.hash);
        let mut blocks = Vec::new(alloc);
        blocks.push(Rc::new(alloc, block)?)?;
        Ok(Hints { blocks })
    }

    /// Returns a number of a hash, from the last block that has one.
    pub fn get(&self, hash: u64) -> Option<usize> {
        let mut rest: &[Rc<Vec<Hint>>] = &self.blocks;
        while let Some((block, before)) = rest.split_last() {
            if let Some(number) = number_in(block, hash) {
                return Some(number);
            }
            rest = before;
        }
        None
    }

    fn len(&self) -> usize {
        let mut count = 0usize;
        for block in &self.blocks {
            count = count.saturating_add(block.len());
        }
        count
    }

    /// Returns the blocks that are kept when hints are added.
    fn kept(&self, alloc: Global) -> Result<Vec<Rc<Vec<Hint>>>, AllocError> {
        if self.len() > MAX_HINTS {
            return Ok(Vec::new(alloc));
        }
        self.blocks.clone()
    }

    /// Copies the cache; both share all hints.
    pub fn share(&self) -> Result<Hints, AllocError> {
        Ok(Hints {
            blocks: self.blocks.clone()?,
        })
    }

    /// Adds the numbers at `places`, by hashes.
    pub fn with(
        &self,
        alloc: Global,
        places: &BTreeMap<u64, usize>,
        numbers: &[usize],
    ) -> Result<Hints, AllocError> {
        let mut blocks = self.kept(alloc)?;
        let mut last = block_of(alloc, places, numbers)?;
        while let Some(block) = blocks.pop() {
            if block.len() / 2 > last.len() {
                blocks.push(block)?;
                break;
            }
            last = joined(alloc, &block, &last)?;
        }
        blocks.push(Rc::new(alloc, last)?)?;
        Ok(Hints { blocks })
    }
}
