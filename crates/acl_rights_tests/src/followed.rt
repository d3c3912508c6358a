//! An index that follows a command.

ghost use Rattle.std.specs.Prelude.{◌≡◌, ◌*◌, length};
ghost use Rattle.acl_rights.specs.Tables.{IsWhole};
ghost use Rattle.acl_rights_tests.specs.Verdicts.{owner_alone};

use crate::judge::OwnerAlone;
use crate::world::Costs;
use acl_people::People;
use acl_rights::{Index, Judge, NoMemory, Rows};
use acl_tree::{Command, Staged, Tree};
use std::alloc::Global;

/// An index after a command, and what the command cost.
#[derive(Drop)]
pub struct Followed {
    pub index: Index<OwnerAlone>,
    pub costs: Costs,
}

/// Builds the index of a state, and follows one command with both; `None` where the command is refused.
pub fn follow(
    alloc: Global,
    tree: &mut Tree,
    people: &mut People,
    command: &Command<'_>,
) -> Option<Followed> {
    tree.soundness_law();
    people.soundness_law();
    let mut judge = OwnerAlone::new();
    let mut index: Index<OwnerAlone> = Index::build(alloc, &mut judge, tree, people).ok()?;
    match go_on(alloc, &mut judge, &mut index, tree, people, command) {
        Some(costs) => Some(Followed { index, costs }),
        None => {
            drop(index);
            None
        }
    }
}

/// How many labels a command fetches, and how many verdicts along paths count as possibly new or other ones, on a state
/// and its index; the rows and the state after it are given up.
fn given_up(
    alloc: Global,
    judge: &mut OwnerAlone,
    index: &Index<OwnerAlone>,
    tree: &Tree,
    people: &People,
    command: &Command<'_>,
) -> Option<(u64, u64)>
    requires whole { IsWhole owner_alone (record { tree = tree.now; people = people.now }) index.now }
    requires asked { judge.old.asked ≡ length tree.now.files * length people.now.users }
{
    tree.soundness_law();
    people.soundness_law();
    let staged: Staged = tree.prepare(alloc, people, command).ok()?;
    staged.tree().soundness_law();
    staged.people().soundness_law();
    let staged_rows: Result<Rows, NoMemory> = index.stage(alloc, judge, &staged);
    staged.give_up();
    let rows: Rows = staged_rows.ok()?;
    let costs = (rows.looked(), rows.refreshed());
    rows.give_up();
    Some(costs)
}

/// Builds the index of a state, and stages one command with both, which stay as they are; `None` where the command is
/// refused.
pub fn tried(
    alloc: Global,
    tree: &Tree,
    people: &People,
    command: &Command<'_>,
) -> Option<(u64, u64)> {
    tree.soundness_law();
    people.soundness_law();
    let mut judge = OwnerAlone::new();
    let index: Index<OwnerAlone> = Index::build(alloc, &mut judge, tree, people).ok()?;
    let costs = given_up(alloc, &mut judge, &index, tree, people, command);
    drop(index);
    costs
}

/// Follows one command with a state and its index, whose judge was asked about every user and every file.
fn go_on(
    alloc: Global,
    judge: &mut OwnerAlone,
    index: &mut Index<OwnerAlone>,
    tree: &mut Tree,
    people: &mut People,
    command: &Command<'_>,
) -> Option<Costs>
    requires whole { IsWhole owner_alone (record { tree = tree.old; people = people.old }) index.old }
    requires asked { judge.old.asked ≡ length tree.old.files * length people.old.users }
{
    let before: u64 = judge.asked();
    tree.soundness_law();
    people.soundness_law();
    let staged: Staged = tree.prepare(alloc, people, command).ok()?;
    staged.tree().soundness_law();
    staged.people().soundness_law();
    let rows: Rows = match index.stage(alloc, judge, &staged) {
        Ok(rows) => rows,
        Err(_) => {
            staged.give_up();
            return None;
        }
    };
    let looked: u64 = rows.looked();
    let refreshed: u64 = rows.refreshed();
    tree.commit(people, staged);
    index.commit(rows);
    Some(Costs {
        asked: judge.asked().checked_sub(before)?,
        looked,
        refreshed,
    })
}
