//! The tool gpasswd(1): a user is added to a group, or removed from it.

ghost use Rattle.std.specs.Prelude.{◌≡◌};
ghost use Rattle.facl_tools.specs.Gpasswd.{answered, line_of, read};
ghost use Rattle.facl_tools.specs.Replies.{Replies};

use crate::effect::{Effect, effect_of};
use crate::operands::name_meant;
use crate::syntax::{by_letter, one};
use acl_tree::{Command, Membership, State};
use facl_output::LineFault;
use facl_script::{OperandRow, OptionRow, Syntax, WordRef, Words};
use std::alloc::Global;

/// The words of the tool.
pub const SYNTAX: Syntax = Syntax {
    flags: &[],
    options: &[by_letter!('a', "a"), by_letter!('d', "d")],
    operands: &[one!("group")],
};

/// A line of gpasswd(1).
#[derive(Drop)]
pub struct GpasswdLine<'a> {
    pub change: Membership,
    /// The user who is added or removed.
    pub user: WordRef<'a>,
    pub group: WordRef<'a>,
}

/// Makes the line of a user who is added, or of one who is removed: exactly one of the two is given.
fn line_of<'a>(
    added: Option<WordRef<'a>>,
    removed: Option<WordRef<'a>>,
    group: WordRef<'a>,
) -> Option<GpasswdLine<'a>>
    ensures { result ≡ line_of added.entry removed.entry group.entry }
{
    match (added, removed) {
        (Some(user), None) => Some(GpasswdLine {
            change: Membership::Add,
            user,
            group,
        }),
        (None, Some(user)) => Some(GpasswdLine {
            change: Membership::Remove,
            user,
            group,
        }),
        (Some(_), Some(_)) | (None, None) => None,
    }
}

/// Reads the line of words. `None` if they are usage.
pub fn read(words: &Words) -> Option<GpasswdLine<'_>>
    ensures { result ≡ read words.now }
{
    let syntax = &SYNTAX;
    line_of(
        words.value(syntax, "a"),
        words.value(syntax, "d"),
        words.operand(syntax, "group"),
    )
}

/// Adds a user to a group, or removes one from it.
pub fn answer(alloc: Global, state: &State, line: GpasswdLine<'_>) -> Result<Effect, LineFault>
    ensures { Replies state.now result (answered state.now line.entry) }
{
    let user = name_meant(alloc, &line.user)?;
    let group = name_meant(alloc, &line.group)?;
    let command = Command::Gpasswd {
        user,
        group,
        change: line.change,
    };
    effect_of(alloc, state, command)
}
