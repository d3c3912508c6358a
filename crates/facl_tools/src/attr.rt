//! The tool `attr`: the lists of a file as extended attributes.

ghost use Rattle.std.specs.Prelude.{◌≡◌};
ghost use Rattle.facl_tools.specs.Attr.{answered, read};
ghost use Rattle.facl_tools.specs.Replies.{Replies};

use crate::effect::Effect;
use crate::operands::paths_of;
use crate::syntax::one;
use acl_tree::{Selection, State};
use facl_output::{LineFault, write_attributes};
use facl_script::{LineFiles, OperandRow, Syntax, Words};
use std::alloc::Global;

/// The words of the tool.
pub const SYNTAX: Syntax = Syntax {
    flags: &[],
    options: &[],
    operands: &[one!("file")],
};

/// A line of `attr`.
#[derive(Drop)]
pub struct AttrLine<'a> {
    /// The FILE.
    pub files: LineFiles<'a>,
}

/// Reads the line of words. `None` if they are usage.
pub fn read(words: &Words) -> Option<AttrLine<'_>>
    ensures { result ≡ read words.now }
{
    let files = words.files(&SYNTAX, "file")?;
    Some(AttrLine { files })
}

/// Prints the attributes of a file.
pub fn answer(alloc: Global, state: &State, line: AttrLine<'_>) -> Result<Effect, LineFault>
    ensures { Replies state.now result (answered state.now line.entry) }
{
    let paths = paths_of(alloc, line.files.as_slice())?;
    let selection = Selection {
        operands: &paths,
        recursive: false,
    };
    let files = state.tree().files(alloc, &selection)?;
    let out = write_attributes(alloc, &files)?;
    Ok(Effect::prints(out))
}
