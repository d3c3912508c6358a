//! The tool usermod(8): a user gets another primary group.

ghost use Rattle.std.specs.Prelude.{◌≡◌};
ghost use Rattle.facl_tools.specs.Replies.{Replies};
ghost use Rattle.facl_tools.specs.Usermod.{answered, read};

use crate::effect::{Effect, effect_of};
use crate::operands::name_meant;
use crate::syntax::{by_letter, one};
use acl_tree::{Command, State};
use facl_output::LineFault;
use facl_script::{OperandRow, OptionRow, Syntax, WordRef, Words};
use std::alloc::Global;

/// The words of the tool.
pub const SYNTAX: Syntax = Syntax {
    flags: &[],
    options: &[by_letter!('g', "g")],
    operands: &[one!("user")],
};

/// A line of usermod(8).
#[derive(Drop)]
pub struct UsermodLine<'a> {
    pub user: WordRef<'a>,
    /// `-g`: the primary group.
    pub group: WordRef<'a>,
}

/// Reads the line of words. `None` if they are usage.
pub fn read(words: &Words) -> Option<UsermodLine<'_>>
    ensures { result ≡ read words.now }
{
    let syntax = &SYNTAX;
    let group = words.value(syntax, "g")?;
    Some(UsermodLine {
        user: words.operand(syntax, "user"),
        group,
    })
}

/// Makes a group the primary group of a user.
pub fn answer(alloc: Global, state: &State, line: UsermodLine<'_>) -> Result<Effect, LineFault>
    ensures { Replies state.now result (answered state.now line.entry) }
{
    let user = name_meant(alloc, &line.user)?;
    let group = name_meant(alloc, &line.group)?;
    effect_of(alloc, state, Command::Usermod { user, group })
}
