//! The loads of users, groups and files.

ghost use Rattle.std.specs.Prelude.{◌≡◌, true, Err, IfOk, IfErr, MatchResult};
ghost use Rattle.acl_tree.specs.Loads.{tree_fault, is_loaded};
ghost use Rattle.acl_tree.specs.InnerCommands.{StagesPeople, whole};
ghost use Rattle.acl_tree.specs.Reports.{Prepares};
ghost use Rattle.acl_tree.specs.declared.command.Command.TheVariants.{Load};

use crate::command::Table;
use crate::dump::prepare_dump;
use crate::fault::TreeFault;
use crate::files::Files;
use crate::stage_people::stage_people;
use crate::state::BorrowedState;
use crate::step::Staged;
use crate::user_change::UserChange;
use acl_people::{LoadFault, People};
use std::alloc::Global;

/// Turns a load's fault into that of the command.
fn load_fault(fault: LoadFault) -> TreeFault
    ensures { result ≡ tree_fault fault }
{
    match fault {
        LoadFault::AlreadyLoaded => TreeFault::AlreadyLoaded,
        LoadFault::Text(fault) => TreeFault::Text(fault),
        LoadFault::NoMemory => TreeFault::NoMemory,
    }
}

/// Loads a text: users and groups before a dump, each once.
pub(crate) fn prepare_load(
    alloc: Global,
    state: &BorrowedState<'_>,
    which: Table,
    bytes: &[u8],
) -> Result<Staged, TreeFault>
    ensures prepares { Prepares (whole state.now) (Load which bytes.entry) result }
    ensures loaded { is_loaded (whole state.now) which ≡ true → result ≡ Err TreeFault.AlreadyLoaded }
{
    let (tree, people) = (state.tree, state.people);
    tree.soundness_law();
    if tree.is_loaded() {
        return Err(TreeFault::AlreadyLoaded);
    }
    match which {
        Table::Passwd => with_people(alloc, tree, people.load_passwd(alloc, bytes)),
        Table::Group => with_people(alloc, tree, people.load_group(alloc, bytes)),
        Table::Dump => prepare_dump(alloc, state, bytes),
    }
}

/// Returns the state with the loaded people.
fn with_people(
    alloc: Global,
    tree: &Files,
    loaded: Result<People, LoadFault>,
) -> Result<Staged, TreeFault>
    ensures ok { IfOk loaded (λ people. MatchResult result (StagesPeople tree.now people UserChange.Loaded) (λ fault. fault ≡ TreeFault.NoMemory)) }
    ensures err { IfErr loaded (λ fault. result ≡ Err (tree_fault fault)) }
{
    match loaded {
        Ok(people) => {
            let staged = stage_people(alloc, tree, people, UserChange::Loaded)?;
            Ok(staged)
        }
        Err(fault) => Err(load_fault(fault)),
    }
}
