//! A cache of the texts of nodes that were listed: another file of the same node costs a comparison and a copy.

ghost use Rattle.std.specs.Prelude.{◌≡◌, ◌<◌, List, ℕ, Some, true, length, drop, IfOk, IfSome, OnOk};
ghost use Rattle.acl_names.specs.Appends.{Appends};
ghost use Rattle.acl_edit.specs.declared.node.Node.{Node};
ghost use Rattle.facl_output.specs.KeptTexts.{IsKept, AreKept};

use acl_edit::Node;
use acl_tree::{is_same_node, node_hash};
use std::alloc::{AllocError, Global};

/// The most places of the cache.
const MAX_PLACES: usize = 1 << 16;

/// The most bytes of kept texts, except that one text may be longer.
const MAX_BYTES: usize = 1 << 24;

/// The most look-ups without a hit before only one file in [`SAMPLING_INTERVAL`] is looked up. Each look-up costs
/// 1 of this credit, and a hit brings [`CREDIT_PER_HIT`] back.
const MAX_CREDIT: usize = 1 << 10;

/// See [`MAX_CREDIT`].
const SAMPLING_INTERVAL: usize = 1 << 5;

/// See [`MAX_CREDIT`]: a copy saves more than a look-up costs.
const CREDIT_PER_HIT: usize = 3;

/// Writes the texts of nodes.
pub(crate) trait NodeText {
    /// The text of a node.
    ghost text_of: { Self → Node → List ℕ };

    /// Adds the text of a node.
    fn push(&self, text: &mut Vec<u8>, node: &Node) -> Result<(), AllocError>
        ensures { Appends result text.old text.new (text_of self.now node.now) };
}

/// Where the text of a node is among the kept bytes.
#[derive(Clone, Copy)]
pub(crate) struct Kept<'a> {
    node: &'a Node,
    mark: u64,
    start: usize,
    end: usize,
}

/// A cache of the texts of the nodes that were listed last, each at a place by the hash of its node; and the credit
/// for further look-ups.
///
/// A text is dropped when another node gets its place, and all are dropped when there is no room for a further one.
#[derive(Drop)]
pub(crate) struct KeptTexts<'a> {
    bytes: Vec<u8>,
    places: Vec<Option<Kept<'a>>>,
    credit: usize,
    turn: usize,
}

impl<'a> KeptTexts<'a> {
    /// Returns an empty cache, with a place for each of `files`, up to [`MAX_PLACES`].
    pub fn new(alloc: Global, files: usize) -> Result<KeptTexts<'a>, AllocError>
        ensures { (text_of : Node → List ℕ) → IfOk result (AreKept text_of) }
    {
        let mut places = Vec::new(alloc);
        places.resize(files.min(MAX_PLACES), None)?;
        Ok(KeptTexts {
            bytes: Vec::new(alloc),
            places,
            credit: MAX_CREDIT,
            turn: 0,
        })
    }

    /// Tells whether to look up the text of the next file: if most files have nodes of their own, it is seldom worth
    /// it.
    pub fn seeks_next(&mut self) -> bool
        ensures { (text_of : Node → List ℕ) → AreKept text_of self.old → AreKept text_of self.new }
    {
        self.turn = self.turn.wrapping_add(1);
        if self.credit == 0 {
            return self.turn % SAMPLING_INTERVAL == 0;
        }
        self.credit -= 1;
        true
    }

    /// Records that the text of a file was found.
    pub fn note_found(&mut self)
        ensures { (text_of : Node → List ℕ) → AreKept text_of self.old → AreKept text_of self.new }
    {
        self.credit = self.credit.saturating_add(CREDIT_PER_HIT).min(MAX_CREDIT);
    }

    /// Returns the place of a hash, if there are places.
    fn place_of(&self, mark: u64) -> Option<usize>
        ensures { IfSome result (λ place. place < length self.now.places.items) }
    {
        (mark as usize).checked_rem(self.places.len())
    }

    /// Returns what is at the place of a hash.
    fn at(&self, mark: u64) -> Option<Kept<'a>>
        ensures { (text_of : Node → List ℕ) → AreKept text_of self.now → IsKept text_of self.now.bytes.items result }
    {
        match self.places.get(self.place_of(mark)?) {
            Some(kept) => *kept,
            None => None,
        }
    }

    /// Returns the text of a node of this hash, if it is kept.
    pub fn find(&self, mark: u64, node: &Node) -> Option<&[u8]>
        ensures { (text_of : Node → List ℕ) → AreKept text_of self.now → IfSome result (λ text. text.now ≡ text_of node.now) }
    {
        let kept = self.at(mark)?;
        if kept.mark != mark || !is_same_node(kept.node, node) {
            return None;
        }
        self.bytes.get(kept.start..kept.end)
    }

    fn clear(&mut self) -> Result<(), AllocError>
        ensures { (text_of : Node → List ℕ) → OnOk result (AreKept text_of self.new) }
    {
        let count = self.places.len();
        self.bytes.clear();
        self.places.clear();
        self.places.resize(count, None)?;
        Ok(())
    }

    /// Keeps what `text` has from `start` on, as the text of a node of this hash.
    pub fn keep(
        &mut self,
        mark: u64,
        node: &'a Node,
        text: &[u8],
        start: usize,
    ) -> Result<(), AllocError>
        ensures { (text_of : Node → List ℕ) → AreKept text_of self.old → drop start text.now ≡ text_of node.now → OnOk result (AreKept text_of self.new) }
    {
        let Some(kept) = text.get(start..) else {
            return Ok(());
        };
        self.make_room(kept.len())?;
        self.add(mark, node, kept)
    }

    /// Drops all texts if there is no room for `bytes` more.
    fn make_room(&mut self, bytes: usize) -> Result<(), AllocError>
        ensures { (text_of : Node → List ℕ) → AreKept text_of self.old → OnOk result (AreKept text_of self.new) }
    {
        if self.bytes.len().saturating_add(bytes) <= MAX_BYTES {
            return Ok(());
        }
        self.clear()
    }

    /// Keeps the text of a node of this hash, however long it is.
    fn add(&mut self, mark: u64, node: &'a Node, text: &[u8]) -> Result<(), AllocError>
        ensures { (text_of : Node → List ℕ) → AreKept text_of self.old → text.now ≡ text_of node.now → OnOk result (AreKept text_of self.new) }
    {
        let start = self.bytes.len();
        self.bytes.extend_from_slice(text)?;
        let end = self.bytes.len();
        self.put(Kept {
            node,
            mark,
            start,
            end,
        });
        Ok(())
    }

    /// Puts what is kept of a node at the place of its hash.
    fn put(&mut self, kept: Kept<'a>)
        ensures { (text_of : Node → List ℕ) → AreKept text_of self.old → IsKept text_of self.old.bytes.items (Some kept.entry) → AreKept text_of self.new }
    {
        let Some(place) = self.place_of(kept.mark) else {
            return;
        };
        self.places[place] = Some(kept);
    }

    /// Adds the text of a node: a copy, if it is kept.
    pub fn push<W: NodeText>(
        &mut self,
        text: &mut Vec<u8>,
        writer: &W,
        node: &'a Node,
    ) -> Result<(), AllocError>
        requires { AreKept (W.text_of writer.now) self.old }
        ensures text { Appends result text.old text.new (W.text_of writer.now node.now) }
        ensures kept { OnOk result (AreKept (W.text_of writer.now) self.new) }
    {
        if !self.seeks_next() {
            writer.push(text, node)?;
            return Ok(());
        }
        let mark = node_hash(node);
        if let Some(known) = self.find(mark, node) {
            text.extend_from_slice(known)?;
            self.note_found();
            return Ok(());
        }
        let start = text.len();
        writer.push(text, node)?;
        self.keep(mark, node, text.as_slice(), start)?;
        Ok(())
    }
}
