//! Numbers nodes that come one after another: equal nodes mostly get one number.

ghost use Rattle.std.specs.Prelude.{◌≡◌, ◌<◌, true, Some, IfOk, IfSome};
ghost use Rattle.kinds.specs.Kinds.{node_at, IsNode, Grants};
ghost use Rattle.kinds.specs.Inner.{HasNumber, CountsRun, GivesNumber};
ghost use Rattle.kinds.specs.Counted.{AreNodes, GrantsEach};

use crate::kinds::{KindNumber, Kinds};
use std::alloc::{AllocError, Global};
use std::collections::BTreeMap;
use std::rc::Rc;

/// How nodes are compared.
pub trait Likeness<N> {
    /// Returns a hash of a node: equal nodes have the same one, and others seldom do.
    fn mark(&self, node: &N) -> u64;

    /// Tells whether both are the same.
    fn is_same(&self, one: &N, other: &N) -> bool
        ensures { result ≡ true → one.now ≡ other.now };
}

/// The numbers that were given, by the hashes of their nodes: none until two nodes differ.
#[derive(Drop)]
struct Marks {
    numbers: BTreeMap<u64, usize>,
    /// How many nodes in a row were not found.
    missed: usize,
}

/// After this many misses in a row only one node in [`SAMPLING_INTERVAL`] is looked up.
const MISSES_BEFORE_SAMPLING: usize = 64;

/// See [`MISSES_BEFORE_SAMPLING`].
const SAMPLING_INTERVAL: usize = 32;

/// Nodes by numbers. The paths of the current run of `last` are not counted yet.
#[derive(Drop)]
pub(crate) struct Numbering<N> {
    pub(crate) kinds: Kinds<N>,
    marks: Marks,
    /// The number that was given last.
    pub(crate) last: usize,
    /// Length of the current run of `last`; 0 before the first path. It is 1 if paths are counted later.
    pub(crate) pending: usize,
}

/// Returns the number, if its node is the same.
fn number_if<N, L: Likeness<N>>(
    kinds: &Kinds<N>,
    number: KindNumber,
    node: &N,
    likeness: &L,
) -> Option<usize>
    ensures { IfSome result (λ at. node_at kinds.now at ≡ Some node.now) }
{
    let other = kinds.get(number)?;
    if likeness.is_same(other, node) {
        Some(number)
    } else {
        None
    }
}

/// Returns the number of a hash, if its node is the same.
fn number_marked<N, L: Likeness<N>>(
    kinds: &Kinds<N>,
    marks: &Marks,
    mark: u64,
    node: &N,
    likeness: &L,
) -> Option<usize>
    ensures { IfSome result (λ at. node_at kinds.now at ≡ Some node.now) }
{
    let at = *marks.numbers.get(&mark)?;
    number_if(kinds, at, node, likeness)
}

/// Keeps the only number that was given so far, if none is kept.
fn note_first<N, L: Likeness<N>>(
    kinds: &Kinds<N>,
    marks: &mut Marks,
    first: usize,
    likeness: &L,
) -> Result<(), AllocError> {
    if !marks.numbers.is_empty() {
        return Ok(());
    }
    if let Some(node) = kinds.get(first) {
        marks.numbers.insert(likeness.mark(node), first)?;
    }
    Ok(())
}

/// Gives a node a new number, without a path.
fn number_new<N: Drop>(
    alloc: Global,
    kinds: Kinds<N>,
    node: N,
) -> Result<(Kinds<N>, usize), AllocError>
    ensures { IfOk result (λ new. HasNumber kinds node new.1 new.0) }
{
    let node = Rc::new(alloc, node)?;
    let (kinds, at) = kinds.add(alloc, node)?;
    Ok((kinds, at))
}

/// Numbers a node, without a path: finds it by its hash, or adds and keeps it.
fn number_noted<N: Drop, L: Likeness<N>>(
    alloc: Global,
    kinds: Kinds<N>,
    marks: &mut Marks,
    node: N,
    likeness: &L,
) -> Result<(Kinds<N>, usize), AllocError>
    ensures { IfOk result (λ new. HasNumber kinds node new.1 new.0) }
{
    let mark = likeness.mark(&node);
    if let Some(at) = number_marked(&kinds, marks, mark, &node, likeness) {
        marks.missed = 0;
        return Ok((kinds, at));
    }
    marks.missed = marks.missed.saturating_add(1);
    let (kinds, at) = number_new(alloc, kinds, node)?;
    marks.numbers.insert(mark, at)?;
    Ok((kinds, at))
}

/// Tells whether the next node is looked up: always, or one in [`SAMPLING_INTERVAL`] after many misses.
fn is_looked_for(marks: &Marks) -> bool {
    marks.missed < MISSES_BEFORE_SAMPLING || marks.missed % SAMPLING_INTERVAL == 0
}

/// Numbers a node, without a path: with `last`, which `pending` paths in a row got, if the nodes are equal; or by its
/// hash; or with a new number.
fn number_for<N: Drop, L: Likeness<N>>(
    alloc: Global,
    kinds: Kinds<N>,
    marks: &mut Marks,
    last: usize,
    pending: usize,
    node: N,
    likeness: &L,
) -> Result<(Kinds<N>, usize), AllocError>
    ensures { IfOk result (λ new. HasNumber kinds node new.1 new.0) }
{
    if let Some(at) = number_if(&kinds, last, &node, likeness) {
        return Ok((kinds, at));
    }
    if pending == 0 {
        return number_new(alloc, kinds, node);
    }
    if !is_looked_for(marks) {
        marks.missed = marks.missed.saturating_add(1);
        return number_new(alloc, kinds, node);
    }
    note_first(&kinds, marks, last, likeness)?;
    number_noted(alloc, kinds, marks, node, likeness)
}

/// Adds `more` to the number's count of paths, if it is not 0.
fn grant_if<N: Drop>(
    kinds: Kinds<N>,
    number: KindNumber,
    more: usize,
) -> Result<Kinds<N>, AllocError>
    requires { 0 < more → IsNode kinds number }
    ensures { IfOk result (λ new. Grants kinds number more new) }
{
    if more == 0 {
        return Ok(kinds);
    }
    kinds.grant(number, more)
}

/// Adds to each number's count of paths what `counts` has at its place.
pub(crate) fn grant_each<N: Drop>(kinds: Kinds<N>, counts: &[usize]) -> Result<Kinds<N>, AllocError>
    requires { AreNodes kinds counts.now }
    ensures { IfOk result (λ new. GrantsEach kinds counts.now new) }
{
    let mut kinds = kinds;
    for number in 0..counts.len() {
        kinds = grant_if(kinds, number, counts[number])?;
    }
    Ok(kinds)
}

/// Adds one path with the number `number`, after a run of `pending` paths with the number `last` that are not counted yet. Returns
/// how many paths of `number` are not counted yet.
fn count_run<N: Drop>(
    kinds: Kinds<N>,
    last: usize,
    pending: usize,
    number: KindNumber,
) -> Result<(Kinds<N>, usize), AllocError>
    requires { 0 < pending → IsNode kinds last }
    ensures { IfOk result (λ new. CountsRun kinds last pending number new.0 new.1) }
{
    if number == last && pending < usize::MAX {
        return Ok((kinds, pending + 1));
    }
    let kinds = grant_if(kinds, last, pending)?;
    Ok((kinds, 1))
}

impl<N> Numbering<N> {
    /// Starts from these nodes, with no number given.
    pub(crate) fn new(alloc: Global, kinds: Kinds<N>) -> Numbering<N>
        ensures kinds { result.kinds ≡ kinds }
        ensures last { result.last ≡ 0 }
        ensures pending { result.pending ≡ 0 }
    {
        Numbering {
            kinds,
            marks: Marks {
                numbers: BTreeMap::new(alloc),
                missed: 0,
            },
            last: 0,
            pending: 0,
        }
    }
}

impl<N: Drop> Numbering<N> {
    /// Numbers the node of a further path: as an equal node that was numbered before, if one is found; or else anew,
    /// and the node is moved.
    pub(crate) fn give<L: Likeness<N>>(
        self,
        alloc: Global,
        node: N,
        likeness: &L,
    ) -> Result<Numbering<N>, AllocError>
        requires { 0 < self.pending → IsNode self.kinds self.last }
        ensures { IfOk result (λ new. GivesNumber self.kinds self.last self.pending node new.last new.kinds new.pending) }
    {
        let Numbering {
            kinds,
            mut marks,
            last,
            pending,
        } = self;
        let (kinds, number) = number_for(alloc, kinds, &mut marks, last, pending, node, likeness)?;
        let (kinds, pending) = count_run(kinds, last, pending, number)?;
        Ok(Numbering {
            kinds,
            marks,
            last: number,
            pending,
        })
    }

    /// Numbers a node, without a path: as an equal node that was numbered before, if one is found; or else anew, and
    /// the node is moved.
    pub(crate) fn number<L: Likeness<N>>(
        self,
        alloc: Global,
        node: N,
        likeness: &L,
    ) -> Result<Numbering<N>, AllocError>
        ensures { IfOk result (λ new. HasNumber self.kinds node new.last new.kinds) }
    {
        let Numbering {
            kinds,
            mut marks,
            last,
            pending,
        } = self;
        let (kinds, number) = number_for(alloc, kinds, &mut marks, last, pending, node, likeness)?;
        Ok(Numbering {
            kinds,
            marks,
            last: number,
            pending: 1,
        })
    }

    /// Returns the nodes.
    pub(crate) fn into_kinds(self) -> Kinds<N>
        ensures { result ≡ self.kinds }
    {
        let Numbering {
            kinds,
            marks: _marks,
            last: _last,
            pending: _pending,
        } = self;
        kinds
    }

    /// Counts a further path for a number that has a node.
    pub(crate) fn give_at(self, number: KindNumber) -> Result<Numbering<N>, AllocError>
        requires { 0 < self.pending → IsNode self.kinds self.last }
        ensures run { IfOk result (λ new. CountsRun self.kinds self.last self.pending number new.kinds new.pending) }
        ensures last { IfOk result (λ new. new.last ≡ number) }
    {
        let Numbering {
            kinds,
            marks,
            last,
            pending,
        } = self;
        let (kinds, pending) = count_run(kinds, last, pending, number)?;
        Ok(Numbering {
            kinds,
            marks,
            last: number,
            pending,
        })
    }

    /// Returns the nodes, all of whose paths are counted.
    pub(crate) fn counted(self) -> Result<Kinds<N>, AllocError>
        requires { 0 < self.pending → IsNode self.kinds self.last }
        ensures { IfOk result (λ kinds. Grants self.kinds self.last self.pending kinds) }
    {
        let Numbering {
            kinds,
            marks: _marks,
            last,
            pending,
        } = self;
        grant_if(kinds, last, pending)
    }
}
