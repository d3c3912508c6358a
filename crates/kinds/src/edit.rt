//! Edits entries by their numbers: each number is edited once, and the result kept in a memo.

ghost use Rattle.std.specs.Prelude.{◌≡◌, ◌<◌, ◌++◌, ◌∷◌, [], ℕ, None, Ok, map, get_or, option_map, IfOk, IfSome, OnOk, length};
ghost use Rattle.std.specs.List.{AllByRecursion};
ghost use Rattle.path_map.specs.Entries.{IsInOrder, seen};
ghost use Rattle.kinds.specs.Kinds.{IsNode};
ghost use Rattle.kinds.specs.Numbered.{AreUsed, entries_by, entries_in};
ghost use Rattle.kinds.specs.Given.{shared_nodes};
ghost use Rattle.kinds.specs.Inner.{AreAmong};
ghost use Rattle.kinds.specs.Memo.{NodeEdit, edit_each, EditsUsed, EditsOneMore, AreEdited, ArePut, CountsAgain};
ghost use Rattle.kinds.specs.Stops.{GivesOr, StopsAt, EditsEntry};
ghost use Rattle.kinds.specs.declared.edit.Stop.{Stop};

use crate::kinds::{KindNumber, Kinds};
use crate::map::KindMap;
use crate::memo::{Memo, count_again, settle};
use acl_names::Path;
use std::alloc::{AllocError, AllocFailed, Global};
use std::rc::Rc;

/// Why an edit stops.
#[derive(Debug, Drop)]
pub enum Stop<F> {
    /// It is refused.
    Fault(F),
    /// Memory ran out.
    NoMemory,
}

impl<F> From<AllocError> for Stop<F> {
    ghost from_gives = { λ _ stop. stop ≡ Stop.NoMemory };

    fn from(_: AllocError) -> Stop<F> {
        Stop::NoMemory
    }
}

impl<F, T: Drop> From<AllocFailed<T>> for Stop<F> {
    ghost from_gives = { λ _ stop. stop ≡ Stop.NoMemory };

    fn from(_: AllocFailed<T>) -> Stop<F> {
        Stop::NoMemory
    }
}

/// What a command does to the node of each of its entries.
pub trait KindEdit<N> {
    type Fault: Drop;

    ghost edited: { Self → NodeEdit N Self.Fault };

    /// Returns the node after the edit.
    fn edited(&self, alloc: Global, node: &N) -> Result<N, Stop<Self::Fault>>
        ensures { GivesOr (λ x. x) result (edited self.now node.now) };
}

/// Edits the node of an entry, or returns the fault with its path.
fn edit_one<N: Drop, E: KindEdit<N>>(
    alloc: Global,
    kinds: &Kinds<N>,
    path: &Path,
    number: KindNumber,
    edit: &E,
) -> Result<Rc<N>, Stop<(Path, E::Fault)>>
    requires { IsNode kinds.now number }
    ensures { EditsEntry (E.edited edit.now) kinds.now (path.now, number) result }
{
    match edit.edited(alloc, kinds.node(number)) {
        Ok(node) => Ok(Rc::new(alloc, node)?),
        Err(Stop::NoMemory) => Err(Stop::NoMemory),
        Err(Stop::Fault(fault)) => Err(Stop::Fault((path.try_clone(alloc)?, fault))),
    }
}

/// Counts a further path for the number at the place `at` of the memo, and puts its entry. Returns the new number.
fn put_again<'a>(
    memo: &mut Memo,
    puts: &mut Vec<(&'a Path, usize)>,
    path: &'a Path,
    at: usize,
) -> Result<usize, AllocError>
    requires { at < length memo.old.met.items }
    ensures counted { IfOk result (λ new. CountsAgain at memo.old.met.items memo.new.met.items new) }
    ensures put { IfOk result (λ new. puts.new.items ≡ puts.old.items ++ (path.entry, new) ∷ []) }
{
    memo.last = at;
    let new = count_again(&mut memo.met, at)?;
    puts.push((path, new))?;
    Ok(new)
}

/// Records the result `new` for the number `old`, which the memo does not have yet.
fn note_first<N>(
    kinds: &Kinds<N>,
    memo: &mut Memo,
    old: usize,
    new: usize,
) -> Result<(), AllocError>
    ensures { OnOk result (memo.new.met.items ≡ memo.old.met.items ++ record { old = old; new = new; count = 1 } ∷ []) }
{
    if kinds.count(old) == 1 {
        return memo.note_alone(old, new);
    }
    memo.note(old, new)
}

/// Edits one entry: takes the result from the memo, or else edits its node.
fn edit_entry<'a, N: Drop, E: KindEdit<N>>(
    kinds: Kinds<N>,
    memo: &mut Memo,
    puts: &mut Vec<(&'a Path, usize)>,
    item: (&'a Path, usize),
    edit: &E,
) -> Result<Kinds<N>, Stop<(Path, E::Fault)>>
    requires { IsNode kinds item.1 }
    ensures made { IfOk result (λ new. EditsOneMore (E.edited edit.now) (seen item.entry) kinds memo.old.met.items (map seen puts.old.items) new memo.new.met.items (map seen puts.new.items)) }
    ensures reported { StopsAt result (edit_each (E.edited edit.now) (entries_by kinds (seen item.entry ∷ []))) }
{
    let (path, number) = item;
    let alloc = *puts.allocator();
    if let Some(at) = memo.place(number) {
        let _new = put_again(memo, puts, path, at)?;
        return Ok(kinds);
    }
    let node = edit_one(alloc, &kinds, path, number, edit)?;
    let (kinds, new) = kinds.add(alloc, node)?;
    note_first(&kinds, memo, number, new)?;
    puts.push((path, new))?;
    Ok(kinds)
}

/// What an edit of entries leaves: the nodes with those that were added, the memo, and the entries with their new
/// numbers.
#[derive(Drop)]
struct EditedNumbers<'a, N> {
    kinds: Kinds<N>,
    memo: Memo,
    puts: Vec<(&'a Path, usize)>,
}

/// Edits entries, each of their numbers mostly once; or returns the first fault.
fn edit_entries<'a, N: Drop, E: KindEdit<N>>(
    alloc: Global,
    kinds: Kinds<N>,
    entries: &[(&'a Path, usize)],
    edit: &E,
) -> Result<EditedNumbers<'a, N>, Stop<(Path, E::Fault)>>
    requires { AreUsed kinds (map seen entries.now) }
    ensures made { IfOk result (λ new. AreEdited (E.edited edit.now) kinds (map seen entries.now) new.kinds new.memo.met.items (map seen new.puts.items)) }
    ensures reported { StopsAt result (edit_each (E.edited edit.now) (entries_by kinds (map seen entries.now))) }
{
    let mut kinds = kinds;
    let mut memo = Memo::new(alloc);
    let mut puts = Vec::with_capacity(alloc, entries.len())?;
    for entry in entries {
        kinds = edit_entry(kinds, &mut memo, &mut puts, *entry, edit)?;
    }
    Ok(EditedNumbers { kinds, memo, puts })
}

/// A map after an edit, and the entries that were edited, with their new numbers.
#[derive(Drop)]
pub struct EditedMap<'a, N> {
    pub map: KindMap<N>,
    pub entries: Vec<(&'a Path, usize)>,
}

/// Edits the node of a number, if a path has the number.
fn edit_used<N: Drop, E: KindEdit<N>>(
    alloc: Global,
    map: &KindMap<N>,
    number: KindNumber,
    edit: &E,
) -> Result<Option<Rc<N>>, Stop<E::Fault>>
    ensures { IfOk result (λ node. EditsUsed (E.edited edit.now) map.now.0 number (option_map (λ r. r.value) node)) }
{
    let Some(node) = map.used(number) else {
        return Ok(None);
    };
    match edit.edited(alloc, node) {
        Ok(node) => Ok(Some(Rc::new(alloc, node)?)),
        Err(stop) => Err(stop),
    }
}

/// Edits the nodes that paths have, each at the place of its number; or returns the fault of one of them.
fn edit_nodes<N: Drop, E: KindEdit<N>>(
    alloc: Global,
    map: &KindMap<N>,
    edit: &E,
) -> Result<Vec<Option<Rc<N>>>, Stop<E::Fault>>
    ensures long { IfOk result (λ nodes. length nodes.items ≡ length map.now.0.0) }
    ensures each { IfOk result (λ nodes. (n : ℕ) → n < length map.now.0.0
        → EditsUsed (E.edited edit.now) map.now.0 n (get_or (shared_nodes nodes.items) n None)) }
{
    let mut nodes = Vec::with_capacity(alloc, map.numbers_len())?;
    for number in 0..map.numbers_len() {
        let node = edit_used(alloc, map, number, edit)?;
        nodes.push(node)?;
    }
    Ok(nodes)
}

impl<N: Drop> KindMap<N> {
    /// Edits each entry, or returns the fault of one of them: paths keep their numbers, which get what the
    /// edit makes of their nodes. This map stays as it is.
    pub fn edited_all<E: KindEdit<N>>(
        &self,
        alloc: Global,
        edit: &E,
    ) -> Result<KindMap<N>, Stop<E::Fault>>
        ensures made { IfOk result (λ new. edit_each (E.edited edit.now) (entries_in self.now) ≡ Ok (entries_by new.0 self.now.1)) }
        ensures put { IfOk result (λ new. ArePut self.now new self.now.1) }
    {
        let _sound = self.kinds();
        let nodes = edit_nodes(alloc, self, edit)?;
        let map = self.with_nodes(alloc, &nodes)?;
        let _sound_after = map.kinds();
        Ok(map)
    }
}

impl<N: Drop> KindMap<N> {
    /// Edits some entries, and returns these too; or the fault of the first for which the edit fails, with its path.
    /// This map stays as it is, and both may share paths. Each number is mostly edited once.
    pub fn edited<'a, E: KindEdit<N>>(
        &self,
        alloc: Global,
        entries: &[(&'a Path, usize)],
        edit: &E,
    ) -> Result<EditedMap<'a, N>, Stop<(Path, E::Fault)>>
        requires order { IsInOrder (map seen entries.now) }
        requires among { AreAmong self.now.1 (map seen entries.now) }
        ensures made { GivesOr (λ new. entries_by new.map.0 (map seen new.entries.items)) result (edit_each (E.edited edit.now) (entries_by self.now.0 (map seen entries.now))) }
        ensures put { IfOk result (λ new. ArePut self.now new.map (map seen new.entries.items)) }
    {
        let edited = edit_entries(alloc, self.kinds().share()?, entries, edit)?;
        let EditedNumbers { kinds, memo, puts } = edited;
        let kinds = settle(kinds, &memo.met)?;
        drop(memo);
        let numbers = self.numbers().with_values(alloc, &puts)?;
        let map = KindMap::of(alloc, kinds, numbers)?;
        Ok(EditedMap { map, entries: puts })
    }
}
