//! The tool `index`: what each user may do with each file.

ghost use Rattle.facl.specs.Index.{answered};
ghost use Rattle.facl_tools.specs.Replies.{Replies};

use acl_rights::{IndexedState, Judge};
use facl_answers::write_index;
use facl_output::LineFault;
use facl_script::Syntax;
use facl_tools::Effect;
use std::alloc::Global;

/// The tool takes no words.
pub(crate) const SYNTAX: Syntax = Syntax {
    flags: &[],
    options: &[],
    operands: &[],
};

/// Prints what each user may do with each file.
pub(crate) fn answer<J: Judge>(
    alloc: Global,
    indexed: &IndexedState<J>,
) -> Result<Effect, LineFault>
    ensures { Replies indexed.now result (answered J.verdict_of indexed.now) }
{
    let out = write_index(alloc, indexed)?;
    Ok(Effect::prints(out))
}
