//! Puts entries whose nodes are at places of a list: each of these nodes gets one number.

ghost use Rattle.std.specs.Prelude.{◌≡◌, ◌<◌, ◌++◌, ◌∷◌, [], Option, Some, List, ℕ, false, length, map, get_or, IfOk};
ghost use Rattle.path_map.specs.Entries.{IsInOrder, seen};
ghost use Rattle.path_map.specs.Merged.{put_all};
ghost use Rattle.kinds.specs.Kinds.{KindsOf, node_at, count_at};
ghost use Rattle.kinds.specs.Numbered.{entries_in};
ghost use Rattle.kinds.specs.Given.{used_at};
ghost use Rattle.kinds.specs.Tagged.{is_one, numbers_found};
ghost use Rattle.kinds.specs.Placed.{placed, given, AreGiven, ArePlaces, by_place, AddsNodes};

use crate::kinds::Kinds;
use crate::map::KindMap;
use crate::put::put_numbered;
use acl_names::Path;
use std::alloc::{AllocError, Global};
use std::rc::Rc;

/// A node to be put: a new one, or the one that a number has.
#[derive(Drop)]
pub enum GivenNode<N> {
    New(Rc<N>),
    Known(usize),
}

/// A map after entries were put, the numbers of their nodes, and those that their paths had.
#[derive(Drop)]
pub struct PlacedMap<N> {
    pub map: KindMap<N>,
    pub numbers: Vec<usize>,
    pub found: Vec<Option<usize>>,
}

/// Returns the number of a node; a new one is added.
fn add_node<N: Drop>(
    alloc: Global,
    kinds: Kinds<N>,
    node: &GivenNode<N>,
) -> Result<(Kinds<N>, usize), AllocError>
    ensures { IfOk result (λ new. (old : KindsOf N) → (nodes : List (Option N)) → (numbers : List ℕ) → AddsNodes old nodes numbers kinds
        → AddsNodes old (nodes ++ given old node.now ∷ []) (numbers ++ new.1 ∷ []) new.0) }
{
    match node {
        GivenNode::New(node) => {
            let new = kinds.add(alloc, node.clone()?)?;
            Ok(new)
        }
        GivenNode::Known(number) => Ok((kinds, *number)),
    }
}

/// Returns the numbers of nodes; new ones are added.
fn add_nodes<N: Drop>(
    alloc: Global,
    kinds: Kinds<N>,
    nodes: &[GivenNode<N>],
) -> Result<(Kinds<N>, Vec<usize>), AllocError>
    ensures { IfOk result (λ new. AddsNodes kinds (map (given kinds) nodes.now) new.1.items new.0) }
{
    let mut kinds = kinds;
    let mut numbers = Vec::with_capacity(alloc, nodes.len())?;
    for node in nodes {
        let (added, number) = add_node(alloc, kinds, node)?;
        kinds = added;
        numbers.push(number)?;
    }
    Ok((kinds, numbers))
}

fn number_at(numbers: &[usize], place: usize) -> usize
    requires { place < length numbers.now }
    ensures { result ≡ get_or numbers.now place 0 }
{
    numbers[place]
}

/// Returns entries with the numbers at their places.
fn entries_numbered<'a>(
    alloc: Global,
    numbers: &[usize],
    entries: &[(&'a Path, usize)],
) -> Result<Vec<(&'a Path, usize)>, AllocError>
    requires { ArePlaces (length numbers.now) (map seen entries.now) }
    ensures { IfOk result (λ new. map seen new.items ≡ by_place numbers.now (map seen entries.now)) }
{
    let mut numbered = Vec::with_capacity(alloc, entries.len())?;
    for entry in entries {
        numbered.push((entry.0, number_at(numbers, entry.1)))?;
    }
    Ok(numbered)
}

impl<N: Drop> KindMap<N> {
    /// Puts `entries`, sorted by path. Each names its node by an index into `nodes`; entries with one index share one
    /// kind, which may be one that paths of the map have. Returns the numbers of the nodes too, and those that the
    /// paths had; all other numbers are as before. This map stays as it is, and if each path is there already both
    /// share all paths.
    pub fn put_placed(
        &self,
        alloc: Global,
        entries: &[(&Path, usize)],
        nodes: &[GivenNode<N>],
    ) -> Result<PlacedMap<N>, AllocError>
        requires order { IsInOrder (map seen entries.now) }
        requires given { AreGiven self.now.0 nodes.now }
        requires places { ArePlaces (length nodes.now) (map seen entries.now) }
        ensures entries { IfOk result (λ new. entries_in new.map ≡ put_all (placed (map (given self.now.0) nodes.now) (map seen entries.now)) (entries_in self.now)) }
        ensures numbers { IfOk result (λ new. new.map.1 ≡ put_all (by_place new.numbers.items (map seen entries.now)) self.now.1) }
        ensures nodes { IfOk result (λ new. (n : ℕ) (x : N) → node_at self.now.0 n ≡ Some x → 0 < count_at new.map.0 n → node_at new.map.0 n ≡ Some x) }
        ensures same { IfOk result (λ new. (n : ℕ) → is_one n new.numbers.items ≡ false → is_one n (numbers_found new.found.items) ≡ false → used_at new.map.0 n ≡ used_at self.now.0 n) }
    {
        let (kinds, numbers) = add_nodes(alloc, self.kinds().share()?, nodes)?;
        let entries = entries_numbered(alloc, &numbers, entries)?;
        let (map, found) = put_numbered(alloc, self, kinds, &entries)?;
        Ok(PlacedMap {
            map,
            numbers,
            found,
        })
    }
}
