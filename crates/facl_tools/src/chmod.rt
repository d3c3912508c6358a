//! The tool chmod(1), with an octal mode.

ghost use Rattle.std.specs.Prelude.{◌≡◌};
ghost use Rattle.facl_tools.specs.Chmod.{answered, read};
ghost use Rattle.facl_tools.specs.Replies.{Replies};

use crate::effect::{Effect, effect_of};
use crate::mode::mode_of;
use crate::operands::paths_of;
use crate::syntax::{by_letter, one, some};
use acl_tree::{Command, State};
use facl_output::LineFault;
use facl_script::{LineFiles, OperandRow, OptionRow, Syntax, Words};
use std::alloc::Global;

/// The words of the tool.
pub const SYNTAX: Syntax = Syntax {
    flags: &[by_letter!('R', "R")],
    options: &[],
    operands: &[one!("mode"), some!("file")],
};

/// A line of chmod(1).
#[derive(Drop)]
pub struct ChmodLine<'a> {
    /// `-R`: with all below.
    pub recursive: bool,
    /// The number of one to four octal digits.
    pub mode: u16,
    pub files: LineFiles<'a>,
}

/// Reads the line of words. `None` if they are usage.
pub fn read(words: &Words) -> Option<ChmodLine<'_>>
    ensures { result ≡ read words.now }
{
    let syntax = &SYNTAX;
    let mode = mode_of(words.operand(syntax, "mode").as_bytes())?;
    let files = words.files(syntax, "file")?;
    Some(ChmodLine {
        recursive: words.has(syntax, "R"),
        mode,
        files,
    })
}

/// Puts a mode into files.
pub fn answer(alloc: Global, state: &State, line: ChmodLine<'_>) -> Result<Effect, LineFault>
    ensures { Replies state.now result (answered state.now line.entry) }
{
    let paths = paths_of(alloc, line.files.as_slice())?;
    let command = Command::Chmod {
        paths,
        mode: line.mode,
        recursive: line.recursive,
    };
    effect_of(alloc, state, command)
}
