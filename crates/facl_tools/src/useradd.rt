//! The tool useradd(8): a new user.

ghost use Rattle.std.specs.Prelude.{◌≡◌, IfOk};
ghost use Rattle.facl_tools.specs.Replies.{Replies};
ghost use Rattle.facl_tools.specs.Useradd.{answered, line_with, read};

use crate::effect::{Effect, effect_of};
use crate::operands::name_meant;
use crate::syntax::{by_letter, one};
use acl_entry::Id;
use acl_names::read_name;
use acl_people::UserName;
use acl_text::read_id;
use acl_tree::{Command, NewUser, State};
use facl_output::LineFault;
use facl_script::{OperandRow, OptionRow, Syntax, WordRef, Words};
use std::alloc::{AllocError, Global};

/// The words of the tool.
pub const SYNTAX: Syntax = Syntax {
    flags: &[],
    options: &[by_letter!('u', "u"), by_letter!('g', "g")],
    operands: &[one!("name")],
};

/// A line of useradd(8).
#[derive(Drop)]
pub struct UseraddLine<'a> {
    /// The operand is decoded, and not trimmed.
    pub name: UserName,
    /// `-u`: digits alone.
    pub uid: Id,
    /// `-g`: the primary group.
    pub group: WordRef<'a>,
}

/// Reads the line of a user of this name: its id is digits alone.
fn line_with(words: &Words, name: UserName) -> Option<UseraddLine<'_>>
    ensures { result ≡ line_with words.now name }
{
    let syntax = &SYNTAX;
    let uid = read_id(words.value(syntax, "u")?.as_bytes())?;
    let group = words.value(syntax, "g")?;
    Some(UseraddLine { name, uid, group })
}

/// Reads the line of words. `None` if they are usage.
pub fn read(alloc: Global, words: &Words) -> Result<Option<UseraddLine<'_>>, AllocError>
    ensures { IfOk result (λ line. line ≡ read words.now) }
{
    let name = read_name(alloc, words.operand(&SYNTAX, "name").as_bytes())?;
    match UserName::new(name) {
        Some(name) => Ok(line_with(words, name)),
        None => Ok(None),
    }
}

/// Adds a user.
pub fn answer(alloc: Global, state: &State, line: UseraddLine<'_>) -> Result<Effect, LineFault>
    ensures { Replies state.now result (answered state.now line.entry) }
{
    let group = name_meant(alloc, &line.group)?;
    let new = NewUser {
        name: line.name,
        uid: line.uid,
        group,
    };
    effect_of(alloc, state, Command::Useradd(new))
}
