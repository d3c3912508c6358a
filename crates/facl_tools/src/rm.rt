//! The tool rm(1).

ghost use Rattle.std.specs.Prelude.{◌≡◌};
ghost use Rattle.facl_tools.specs.Replies.{Replies};
ghost use Rattle.facl_tools.specs.Rm.{answered, read};

use crate::effect::{Effect, effect_of};
use crate::operands::paths_of;
use crate::syntax::{by_letter, some};
use acl_tree::{Command, State};
use facl_output::LineFault;
use facl_script::{LineFiles, OperandRow, OptionRow, Syntax, Words};
use std::alloc::Global;

/// The words of the tool.
pub const SYNTAX: Syntax = Syntax {
    flags: &[by_letter!('r', "r")],
    options: &[],
    operands: &[some!("file")],
};

/// A line of rm(1).
#[derive(Drop)]
pub struct RmLine<'a> {
    /// `-r`: with all below.
    pub recursive: bool,
    pub files: LineFiles<'a>,
}

/// Reads the line of words. `None` if they are usage.
pub fn read(words: &Words) -> Option<RmLine<'_>>
    ensures { result ≡ read words.now }
{
    let syntax = &SYNTAX;
    let files = words.files(syntax, "file")?;
    Some(RmLine {
        recursive: words.has(syntax, "r"),
        files,
    })
}

/// Removes files.
pub fn answer(alloc: Global, state: &State, line: RmLine<'_>) -> Result<Effect, LineFault>
    ensures { Replies state.now result (answered state.now line.entry) }
{
    let paths = paths_of(alloc, line.files.as_slice())?;
    let command = Command::Rm {
        paths,
        recursive: line.recursive,
    };
    effect_of(alloc, state, command)
}
