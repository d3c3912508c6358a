//! The tool `can`: what a user may do with a file.

ghost use Rattle.std.specs.Prelude.{◌≡◌};
ghost use Rattle.facl.specs.Can.{answered, read};
ghost use Rattle.facl_tools.specs.Replies.{Replies};

use acl_rights::{IndexedState, Judge};
use acl_tree::TreeFault;
use facl_answers::append_requests;
use facl_output::LineFault;
use facl_script::{OperandRow, OptionRow, Syntax, WordRef, Words};
use facl_tools::{Effect, by_name, one, path_at, user_at};
use std::alloc::Global;

/// The words of the tool.
pub(crate) const SYNTAX: Syntax = Syntax {
    flags: &[by_name!("reach")],
    options: &[],
    operands: &[one!("user"), one!("file")],
};

/// A line of `can`.
#[derive(Drop)]
pub(crate) struct CanLine<'a> {
    /// `--reach`: search on the directories above is required too.
    pub reach: bool,
    pub user: WordRef<'a>,
    pub file: WordRef<'a>,
}

/// Reads the line of words. `None` if they are usage.
pub(crate) fn read(words: &Words) -> Option<CanLine<'_>>
    ensures { result ≡ read words.now }
{
    let syntax = &SYNTAX;
    let file = words.file(syntax, "file")?;
    Some(CanLine {
        reach: words.has(syntax, "reach"),
        user: words.operand(syntax, "user"),
        file,
    })
}

/// Prints what a user may do with a file; with `--reach` only if the user can search each recorded directory above
/// it.
pub(crate) fn answer<J: Judge>(
    alloc: Global,
    indexed: &IndexedState<J>,
    line: CanLine<'_>,
) -> Result<Effect, LineFault>
    ensures { Replies indexed.now result (answered J.verdict_of indexed.now line.entry) }
{
    let path = path_at(alloc, 1, line.file.as_bytes())?;
    let user = user_at(alloc, indexed.state().people(), &line.user)?;
    let verdicts = indexed.verdicts(line.reach);
    let Some(granted) = verdicts.get(user, &path) else {
        return Err(LineFault::Tree(TreeFault::NoSuchFile { path }));
    };
    let mut out = Vec::new(alloc);
    append_requests(&mut out, granted)?;
    Ok(Effect::prints(out))
}
