//! A state with its index, line after line.

ghost use Rattle.std.specs.Prelude.{IfSome};
ghost use Rattle.acl_entry.specs.Check.{rights};
ghost use Rattle.acl_rights.specs.Tables.{IsWhole};

use crate::lines::{Line, command};
use acl_names::read_path;
use acl_rights::{Index, Judge, Posix};
use acl_tree::{Command, State};
use std::alloc::Global;

/// A state, its index, and the judge of the index.
#[derive(Drop)]
pub struct World {
    pub state: State,
    pub index: Index<Posix>,
    pub judge: Posix,
}

/// What a line costs: verdicts, labels that are fetched, and verdicts along paths that count as possibly new or other ones.
#[derive(Drop)]
pub struct Costs {
    pub asked: u64,
    pub looked: u64,
    pub refreshed: u64,
}

/// Runs a command and puts the state and the index after it in place; none where it is refused.
pub fn play(alloc: Global, world: &mut World, command: &Command<'_>) -> Option<Costs>
    requires { IsWhole rights world.old.state world.old.index }
    ensures { IsWhole rights world.new.state world.new.index }
{
    let before = world.judge.asked();
    if before > 1_000_000 {
        return None;
    }
    let staged = match world.state.prepare(alloc, command) {
        Ok(staged) => staged,
        Err(_) => return None,
    };
    staged.tree().soundness_law();
    staged.people().soundness_law();
    let rows = match world.index.stage(alloc, &mut world.judge, &staged) {
        Ok(rows) => rows,
        Err(_) => {
            staged.give_up();
            return None;
        }
    };
    let looked = rows.looked();
    let refreshed = rows.refreshed();
    world.state.commit(staged);
    world.index.commit(rows);
    let asked = world.judge.asked().checked_sub(before)?;
    Some(Costs {
        asked,
        looked,
        refreshed,
    })
}

/// How many verdicts an index that is made of a state asks for; none where memory runs out.
pub fn asked_by_build(alloc: Global, state: &State) -> Option<u64> {
    state.tree().soundness_law();
    state.people().soundness_law();
    let mut judge = Posix::new();
    let index = Index::build(alloc, &mut judge, state.tree(), state.people()).ok()?;
    drop(index);
    Some(judge.asked())
}

/// What a user may do with a file after a line: the user's place, the file, and the byte of the requests.
pub type Verdict = (usize, &'static [u8], u8);

/// A line with its costs: the verdicts that it asks for, at least and at most, how many labels it fetches, and how many
/// verdicts along paths count as possibly new or other ones. Then some verdicts after it, and some along paths.
pub struct Row {
    pub line: Line,
    pub asked: (u64, u64),
    pub looked: u64,
    pub refreshed: u64,
    pub verdicts: &'static [Verdict],
    pub reach: &'static [Verdict],
}

/// A line that costs nothing: what another row does not say is as here.
pub const FREE: Row = Row {
    line: Line::Rm(b""),
    asked: (0, 0),
    looked: 0,
    refreshed: 0,
    verdicts: &[],
    reach: &[],
};

fn is_right(alloc: Global, world: &World, verdict: &Verdict, along: bool) -> bool {
    let (user, text, byte) = *verdict;
    let Ok(Some(path)) = read_path(alloc, text) else {
        return false;
    };
    let found = if along {
        world.index.get_reach(user, &path)
    } else {
        world.index.get(user, &path)
    };
    match found {
        Some(requests) => requests.bits() == byte,
        None => false,
    }
}

fn are_right(alloc: Global, world: &World, verdicts: &[Verdict], along: bool) -> bool {
    for verdict in verdicts {
        if !is_right(alloc, world, verdict, along) {
            return false;
        }
    }
    true
}

fn is_within(costs: &Costs, row: &Row) -> bool {
    let (least, most) = row.asked;
    least <= costs.asked
        && costs.asked <= most
        && costs.looked == row.looked
        && costs.refreshed == row.refreshed
}

/// Whether a line costs what its row expects, and leaves the verdicts of the row.
fn is_as_reported(alloc: Global, world: &mut World, row: &Row) -> bool
    requires { IsWhole rights world.old.state world.old.index }
    ensures { IsWhole rights world.new.state world.new.index }
{
    let Some(command) = command(alloc, world.state.people(), &row.line) else {
        return false;
    };
    let costs = play(alloc, world, &command);
    drop(command);
    let Some(costs) = costs else {
        return false;
    };
    is_within(&costs, row)
        && are_right(alloc, world, row.verdicts, false)
        && are_right(alloc, world, row.reach, true)
}

/// The first of some rows that differs from what it expects.
pub fn first_wrong(alloc: Global, world: &mut World, rows: &[Row]) -> Option<usize>
    requires { IsWhole rights world.old.state world.old.index }
    ensures { IsWhole rights world.new.state world.new.index }
{
    for at in 0..rows.len() {
        if !is_as_reported(alloc, world, &rows[at]) {
            return Some(at);
        }
    }
    None
}

/// A state with an index that is made of it.
fn indexed(alloc: Global, state: State) -> Option<World>
    ensures { IfSome result (λ world. IsWhole rights world.state world.index) }
{
    state.tree().soundness_law();
    state.people().soundness_law();
    let mut judge = Posix::new();
    match Index::build(alloc, &mut judge, state.tree(), state.people()) {
        Ok(index) => Some(World {
            state,
            index,
            judge,
        }),
        Err(_) => {
            drop(state);
            None
        }
    }
}

/// The state of a world, with an index that is made from scratch.
pub fn indexed_anew(alloc: Global, world: World) -> Option<World>
    ensures { IfSome result (λ world. IsWhole rights world.state world.index) }
{
    let World {
        state,
        index,
        judge: _judge,
    } = world;
    drop(index);
    indexed(alloc, state)
}

/// No file, and nobody.
pub fn nothing(alloc: Global) -> Option<World>
    ensures { IfSome result (λ world. IsWhole rights world.state world.index) }
{
    let state = State::new(alloc).ok()?;
    indexed(alloc, state)
}
