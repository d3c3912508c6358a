//! The tool userdel(8): a user is removed.

ghost use Rattle.std.specs.Prelude.{◌≡◌};
ghost use Rattle.facl_tools.specs.Replies.{Replies};
ghost use Rattle.facl_tools.specs.Userdel.{answered, read};

use crate::effect::{Effect, effect_of};
use crate::operands::name_meant;
use crate::syntax::one;
use acl_tree::{Command, State};
use facl_output::LineFault;
use facl_script::{OperandRow, Syntax, WordRef, Words};
use std::alloc::Global;

/// The words of the tool.
pub const SYNTAX: Syntax = Syntax {
    flags: &[],
    options: &[],
    operands: &[one!("user")],
};

/// A line of userdel(8).
#[derive(Drop)]
pub struct UserdelLine<'a> {
    pub user: WordRef<'a>,
}

/// Reads the line of words.
pub fn read(words: &Words) -> UserdelLine<'_>
    ensures { result ≡ read words.now }
{
    UserdelLine {
        user: words.operand(&SYNTAX, "user"),
    }
}

/// Removes a user.
pub fn answer(alloc: Global, state: &State, line: UserdelLine<'_>) -> Result<Effect, LineFault>
    ensures { Replies state.now result (answered state.now line.entry) }
{
    let user = name_meant(alloc, &line.user)?;
    effect_of(alloc, state, Command::Userdel { user })
}
