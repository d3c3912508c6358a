//! The texts that are loaded before a script.

ghost use Rattle.std.specs.Prelude.{◌≡◌, ◌≢◌, Ok, Err, MatchResult, option_map};
ghost use Rattle.facl.specs.Setups.{with_text, initial_state};

use acl_tree::{Command, State, Table, TreeFault};
use facl_output::RunFault;
use std::alloc::Global;

/// The texts that are loaded before the first line of a script, each if it is there, in this order.
#[derive(Clone, Copy)]
pub struct Setup<'a> {
    /// The users: passwd(5).
    pub passwd: Option<&'a [u8]>,
    /// The groups: group(5).
    pub group: Option<&'a [u8]>,
    /// The files: a dump as getfacl(1) writes it.
    pub dump: Option<&'a [u8]>,
}

/// Makes the fault of a setup whose text is refused so.
fn setup_fault(which: Table, fault: TreeFault) -> RunFault
    ensures memory { fault ≡ TreeFault.NoMemory → result ≡ RunFault.NoMemory }
    ensures setup { result ≢ RunFault.NoMemory → result ≡ RunFault.Setup which fault }
{
    match fault {
        TreeFault::NoMemory => RunFault::NoMemory,
        _ => RunFault::Setup { which, fault },
    }
}

/// Loads a text, if there is one.
fn with_text(
    alloc: Global,
    which: Table,
    text: Option<&[u8]>,
    mut state: State,
) -> Result<State, RunFault>
    ensures { MatchResult result
        (λ new. with_text which (option_map (λ t. t.now) text.entry) state ≡ Ok new)
        (λ fault. fault ≢ RunFault.NoMemory → with_text which (option_map (λ t. t.now) text.entry) state ≡ Err fault) }
{
    let Some(text) = text else {
        return Ok(state);
    };
    let command = Command::Load { which, bytes: text };
    let outcome = state.prepare(alloc, &command);
    drop(command);
    match outcome {
        Ok(staged) => {
            state.commit(staged);
            Ok(state)
        }
        Err(fault) => Err(setup_fault(which, fault)),
    }
}

/// Loads the texts of a setup one after another: the state before the first line of a script. None of the texts is
/// needed after that.
///
/// # Errors
///
/// `Setup` is the first text that is refused. `NoMemory`: memory ran out.
pub fn initial_state(alloc: Global, setup: &Setup<'_>) -> Result<State, RunFault>
    ensures { MatchResult result
        (λ state. initial_state setup.now ≡ Ok state)
        (λ fault. fault ≢ RunFault.NoMemory → initial_state setup.now ≡ Err fault) }
{
    let state = State::new(alloc)?;
    let state = with_text(alloc, Table::Passwd, setup.passwd, state)?;
    let state = with_text(alloc, Table::Group, setup.group, state)?;
    with_text(alloc, Table::Dump, setup.dump, state)
}
