//! What an accepted line does, and commands on the state.

ghost use Rattle.std.specs.Prelude.{◌≡◌, [], false, Some, None};
ghost use Rattle.acl_tree.specs.State.{State};
ghost use Rattle.facl_tools.specs.Replies.{reply_of, printed, Replies, done};

use acl_tree::{Command, Staged, State};
use facl_output::LineFault;
use std::alloc::Global;

/// What an accepted line does. It is used up by whoever answers the line.
pub struct Effect {
    /// What is printed.
    pub out: Vec<u8>,
    /// The state that replaces the present one; `None` if the state stays.
    pub staged: Option<Staged>,
    /// Whether default entries were dropped, which setfacl(1) warns of.
    pub warns: bool,
}

impl Effect {
    /// Prints `out`, and keeps the state.
    pub fn prints(out: Vec<u8>) -> Effect
        ensures reply_of { (s : State) → reply_of s result ≡ printed s out.items }
        ensures staged { result.staged ≡ None }
    {
        Effect {
            out,
            staged: None,
            warns: false,
        }
    }

    /// Replaces the state, and prints nothing.
    pub fn changes(alloc: Global, staged: Staged) -> Effect
        ensures reply_of { (s : State) → reply_of s result ≡ record { state = staged.state; user_change = staged.user_change; out = []; warns = false } }
        ensures staged { result.staged ≡ Some staged }
    {
        Effect {
            out: Vec::new(alloc),
            staged: Some(staged),
            warns: false,
        }
    }

    /// Sets whether the line warns.
    pub fn warning(mut self, warns: bool) -> Effect
        ensures reply_of { (s : State) → reply_of s result ≡ record (reply_of s self) { warns = warns } }
        ensures staged { result.staged ≡ self.staged }
    {
        self.warns = warns;
        self
    }

    /// Discards the effect: nothing is done, and the state stays as it is.
    pub fn give_up(self) {
        let Effect {
            out: _out,
            staged,
            warns: _warns,
        } = self;
        if let Some(staged) = staged {
            staged.give_up();
        }
    }
}

/// Prepares the state after a command. The present state is left as it is. The command is dropped by name, which is
/// cheaper to prove than letting it go out of scope.
pub(crate) fn effect_of(
    alloc: Global,
    state: &State,
    command: Command<'_>,
) -> Result<Effect, LineFault>
    ensures { Replies state.now result (done state.now command.entry) }
{
    let outcome = state.prepare(alloc, &command);
    drop(command);
    let staged = outcome?;
    Ok(Effect::changes(alloc, staged))
}
