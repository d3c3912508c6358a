//! Edits of the files that a line names.

ghost use Rattle.facl_tools.specs.Replies.{Replies};
ghost use Rattle.facl_tools.specs.Edits.{edited};

use crate::effect::{Effect, effect_of};
use crate::operands::paths_of;
use acl_edit::Edit;
use acl_tree::{Command, State};
use facl_output::LineFault;
use facl_script::Word;
use std::alloc::Global;

/// The FILEs of a line, with `recursive` also all files below them.
#[derive(Clone, Copy)]
pub(crate) struct NamedFiles<'a> {
    pub(crate) words: &'a [Word],
    pub(crate) recursive: bool,
}

/// Edits the files of a line.
pub(crate) fn edit_files(
    alloc: Global,
    state: &State,
    files: &NamedFiles<'_>,
    edit: Edit,
) -> Result<Effect, LineFault>
    ensures { Replies state.now result (edited state.now files.now.recursive edit files.now.words.now) }
{
    let paths = paths_of(alloc, files.words)?;
    let command = Command::Edit {
        paths,
        edit,
        recursive: files.recursive,
    };
    effect_of(alloc, state, command)
}
