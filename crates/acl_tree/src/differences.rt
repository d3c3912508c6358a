//! What changed from one state of the files to another, as far as the check of access reads it.

ghost use Rattle.std.specs.Prelude.{◌≡◌, [], ◌∷◌, true, false, IfSome, MatchOption};
ghost use Rattle.std.specs.Iterator.{YieldsFirstBy, item_count};
ghost use Rattle.std.specs.Option.{option_copied};
ghost use Rattle.path_map.specs.Inner.{From};
ghost use Rattle.kinds.specs.Numbered.{entries_by, AreUsed};
ghost use Rattle.kinds.specs.Puts.{borrowed};
ghost use Rattle.acl_tree.specs.Changed.{same_label, differs, differing, changed_between, gone_between, SameBut, IsTop};
ghost use Rattle.acl_tree.specs.Operands.{in_region};

use crate::files::{Files, FilesFinder};
use crate::region::Region;
use crate::walk::Walk;
use acl_edit::Node;
use acl_names::Path;
use kinds::{KindMap, Kinds};
use std::marker::Model;

/// Tells whether both nodes have the same owner, group and access list.
fn is_same_label(old: &Node, new: &Node) -> bool
    ensures { result ≡ same_label old.now.label new.now.label }
{
    old.same_label(new)
}

/// Tells whether a number has nodes in two states, with the same owner, group and access list.
fn is_same_number(before: &KindMap<Node>, files: &KindMap<Node>, number: usize) -> bool {
    match (before.used(number), files.used(number)) {
        (Some(old), Some(new)) => is_same_label(old, new),
        _ => false,
    }
}

/// Tells whether a file differs from what the other state has at its path.
fn differs(by_label: bool, other: Option<&Node>, node: &Node) -> bool
    ensures { result ≡ differs by_label (option_copied other.entry) node.now }
{
    match other {
        Some(other) => by_label && !is_same_label(other, node),
        None => true,
    }
}

/// Returns the next entry of a walk whose node differs from what the other state has at its path.
fn next_differing<'a>(
    walk: &mut Walk<'a, 'a>,
    kinds: &'a Kinds<Node>,
    other: &mut FilesFinder<'a>,
    by_label: bool,
) -> Option<(&'a Path, &'a Node)>
    requires { AreUsed kinds.now walk.old.0 }
    ensures other { other.new ≡ other.old }
    ensures used { AreUsed kinds.now walk.new.0 }
    ensures first { MatchOption result
        ((differing by_label other.old (entries_by kinds.now walk.old.0) ≡ []) × (differing by_label other.old (entries_by kinds.now walk.new.0) ≡ []))
        (λ file. differing by_label other.old (entries_by kinds.now walk.old.0) ≡ borrowed file ∷ differing by_label other.old (entries_by kinds.now walk.new.0)) }
    ensures from { IfSome result (λ file. From file.0.now walk.new.1) }
{
    walk.order_law();
    while let Some(entry) = walk.next() {
        let node = kinds.node(entry.1);
        if differs(by_label, other.get(entry.0), node) {
            return Some((entry.0, node));
        }
    }
    None
}

/// An iterator over the files of a state that differ from those of another state, in path order.
#[derive(Drop)]
pub struct Differences<'a> {
    walk: Walk<'a, 'a>,
    kinds: &'a Kinds<Node>,
    other: FilesFinder<'a>,
    by_label: bool,
}

impl<'a> Model for Differences<'a> {
    ghost use Rattle.kinds.specs.Numbered.{entries_by, AreUsed};
    ghost use Rattle.acl_tree.specs.Changed.{differing};
    ghost use Rattle.acl_tree.specs.Files.{Files, coded_files};

    ghost Value = { Files };

    ghost coded = { coded_files };

    ghost view = { λ d. differing d.by_label d.other (entries_by d.kinds.now d.walk.0) };

    ghost invariant = { λ d. AreUsed d.kinds.now d.walk.0 };
}

impl<'a> Iterator for Differences<'a> {
    type Item = (&'a Path, &'a Node);

    ghost next_gives = { YieldsFirstBy borrowed (λ files. files) };

    ghost remaining = { item_count (λ files. files) };

    fn next(&mut self) -> Option<(&'a Path, &'a Node)> {
        next_differing(&mut self.walk, self.kinds, &mut self.other, self.by_label)
    }
}

impl<'a> Differences<'a> {
    /// Returns the next file in path order. Those below it are skipped, by search.
    pub fn next_top(&mut self) -> Option<(&'a Path, &'a Node)>
        ensures { MatchOption result ((self.old ≡ []) × (self.new ≡ [])) (λ top. IsTop (borrowed top) self.old self.new) }
    {
        let Some(top) = next_differing(&mut self.walk, self.kinds, &mut self.other, self.by_label)
        else {
            return None;
        };
        self.walk.pass_within(top.0);
        Some(top)
    }
}

impl Files {
    /// Iterates over the files that differ from those of another state, if both are the same outside a region.
    fn differing<'a>(
        &'a self,
        other: &'a Files,
        region: &'a Region,
        by_label: bool,
    ) -> Differences<'a>
        requires { SameBut (in_region region.now) self.now.files other.now.files }
        ensures { result ≡ differing by_label other.now.files self.now.files }
    {
        let files = self.files_by_path();
        Differences {
            walk: region.walk(files.numbers()),
            kinds: files.kinds(),
            other: other.finder(),
            by_label,
        }
    }

    /// Iterates over the files that are new, or whose owner, group or access list is another than before, if no other
    /// files than those of a region changed.
    pub fn changed_from<'a>(&'a self, before: &'a Files, region: &'a Region) -> Differences<'a>
        requires { SameBut (in_region region.now) before.now.files self.now.files }
        ensures { result ≡ changed_between before.now.files self.now.files }
    {
        self.differing(before, region, true)
    }

    /// Iterates over no files of the two states.
    pub(crate) fn none_beside<'a>(&'a self, other: &'a Files) -> Differences<'a>
        ensures { result ≡ [] }
    {
        let files = self.files_by_path();
        Differences {
            walk: Walk::new(files.numbers(), false, &[]),
            kinds: files.kinds(),
            other: other.finder(),
            by_label: false,
        }
    }

    /// Estimates how many files are new, or have another owner, group or access list than before: those of each
    /// number whose node is another one. No file is looked at, and correctness does not depend on it.
    pub(crate) fn likely_changed_from(&self, before: &Files) -> usize {
        let files = self.files_by_path();
        let mut count = 0usize;
        for number in 0..files.numbers_len() {
            if !is_same_number(before.files_by_path(), files, number) {
                count = count.saturating_add(files.kinds().count(number));
            }
        }
        count
    }

    /// Iterates over the files that are no longer recorded in a later state, if no other files than those of a region
    /// changed.
    pub fn gone_in<'a>(&'a self, after: &'a Files, region: &'a Region) -> Differences<'a>
        requires { SameBut (in_region region.now) self.now.files after.now.files }
        ensures { result ≡ gone_between self.now.files after.now.files }
    {
        self.differing(after, region, false)
    }
}
