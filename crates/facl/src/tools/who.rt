//! The tool `who`: the users who may do something with a file.

ghost use Rattle.std.specs.Prelude.{◌≡◌};
ghost use Rattle.facl_tools.specs.Replies.{Replies};
ghost use Rattle.facl.specs.Who.{answered, read};

use acl_entry::Perm;
use acl_rights::{IndexedState, Judge};
use acl_text::read_perms;
use acl_tree::TreeFault;
use facl_answers::write_who;
use facl_output::LineFault;
use facl_script::{OperandRow, OptionRow, Syntax, WordRef, Words};
use facl_tools::{Effect, by_name, one, path_at};
use std::alloc::Global;

/// The words of the tool.
pub(crate) const SYNTAX: Syntax = Syntax {
    flags: &[by_name!("reach")],
    options: &[],
    operands: &[one!("perms"), one!("file")],
};

/// A line of `who`.
#[derive(Drop)]
pub(crate) struct WhoLine<'a> {
    /// `--reach`: search on the directories above is required too.
    pub reach: bool,
    /// The permissions in question.
    pub request: Perm,
    pub file: WordRef<'a>,
}

/// Reads the line of words. `None` if they are usage.
pub(crate) fn read(words: &Words) -> Option<WhoLine<'_>>
    ensures { result ≡ read words.now }
{
    let syntax = &SYNTAX;
    let request = read_perms(words.operand(syntax, "perms").as_bytes())?;
    let file = words.file(syntax, "file")?;
    Some(WhoLine {
        reach: words.has(syntax, "reach"),
        request,
        file,
    })
}

/// Prints the users who may do something with a file; with `--reach` only those who can search each recorded
/// directory above it.
pub(crate) fn answer<J: Judge>(
    alloc: Global,
    indexed: &IndexedState<J>,
    line: WhoLine<'_>,
) -> Result<Effect, LineFault>
    ensures { Replies indexed.now result (answered J.verdict_of indexed.now line.entry) }
{
    let path = path_at(alloc, 1, line.file.as_bytes())?;
    let verdicts = indexed.verdicts(line.reach);
    match write_who(alloc, &verdicts, &path, line.request)? {
        Some(out) => Ok(Effect::prints(out)),
        None => Err(LineFault::Tree(TreeFault::NoSuchFile { path })),
    }
}
