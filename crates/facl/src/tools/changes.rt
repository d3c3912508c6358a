//! The tool `changes`: what the script has changed so far in who may do what.

ghost use Rattle.std.specs.Prelude.{◌≡◌};
ghost use Rattle.acl_rights.specs.States.{loaded_state};
ghost use Rattle.facl.specs.Changes.{answered, read};
ghost use Rattle.facl_tools.specs.Replies.{Replies};

use acl_rights::{IndexedStates, Judge};
use facl_answers::write_changes_within;
use facl_output::LineFault;
use facl_script::{OptionRow, Syntax, Words};
use facl_tools::{Effect, by_name};
use std::alloc::Global;

/// The words of the tool.
pub(crate) const SYNTAX: Syntax = Syntax {
    flags: &[by_name!("reach")],
    options: &[],
    operands: &[],
};

/// A line of `changes`.
#[derive(Drop)]
pub(crate) struct ChangesLine {
    /// `--reach`: search on the directories above is required too.
    pub reach: bool,
}

/// Reads the line of words.
pub(crate) fn read(words: &Words) -> ChangesLine
    ensures { result ≡ read words.now }
{
    ChangesLine {
        reach: words.has(&SYNTAX, "reach"),
    }
}

/// Prints what users gained and lost since the texts were loaded; with `--reach` what they gained and lost along
/// paths.
pub(crate) fn answer<J: Judge>(
    alloc: Global,
    indexed_states: &IndexedStates<J>,
    line: ChangesLine,
) -> Result<Effect, LineFault>
    ensures { Replies indexed_states.now.state result (answered J.verdict_of (loaded_state indexed_states.now) indexed_states.now.state line) }
{
    let verdicts = indexed_states.state().verdicts(line.reach);
    let out = write_changes_within(
        alloc,
        indexed_states.loaded(),
        &verdicts,
        indexed_states.changed(),
    )?;
    Ok(Effect::prints(out))
}
