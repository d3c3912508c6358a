//! The tool `may`: the files with which a user may do something.

ghost use Rattle.std.specs.Prelude.{◌≡◌, IfOk, option_map};
ghost use Rattle.facl.specs.May.{answered, may_text_of, read};
ghost use Rattle.facl_tools.specs.Replies.{Replies};

use acl_entry::Perm;
use acl_names::Name;
use acl_rights::{IndexedState, Judge, Verdicts};
use acl_text::read_perms;
use acl_tree::TreeFault;
use facl_answers::write_may;
use facl_output::LineFault;
use facl_script::{OperandRow, OptionRow, Syntax, WordRef, Words};
use facl_tools::{Effect, by_name, name_meant, one};
use std::alloc::{AllocError, Global};

/// The words of the tool.
pub(crate) const SYNTAX: Syntax = Syntax {
    flags: &[by_name!("reach")],
    options: &[],
    operands: &[one!("user"), one!("perms")],
};

/// A line of `may`.
#[derive(Drop)]
pub(crate) struct MayLine<'a> {
    /// `--reach`: search on the directories above is required too.
    pub reach: bool,
    pub user: WordRef<'a>,
    /// The permissions in question.
    pub request: Perm,
}

/// Reads the line of words. `None` if they are usage.
pub(crate) fn read(words: &Words) -> Option<MayLine<'_>>
    ensures { result ≡ read words.now }
{
    let syntax = &SYNTAX;
    let request = read_perms(words.operand(syntax, "perms").as_bytes())?;
    Some(MayLine {
        reach: words.has(syntax, "reach"),
        user: words.operand(syntax, "user"),
        request,
    })
}

/// Prints the files on which a request is granted to the user of a name, if there is one.
fn may_text_of<J: Judge>(
    alloc: Global,
    verdicts: &Verdicts<'_, J>,
    request: Perm,
    name: &Name,
) -> Result<Option<Vec<u8>>, AllocError>
    ensures { IfOk result (λ text. option_map (λ out. out.items) text
        ≡ may_text_of J.verdict_of verdicts.now.along verdicts.now.state.now request name.now) }
{
    match verdicts.state.state().people().find_user(name.as_bytes()) {
        Some(user) => write_may(alloc, verdicts, user, request),
        None => Ok(None),
    }
}

/// Prints the files with which a user may do something; with `--reach` only those whose recorded directories above
/// the user can search.
pub(crate) fn answer<J: Judge>(
    alloc: Global,
    indexed: &IndexedState<J>,
    line: MayLine<'_>,
) -> Result<Effect, LineFault>
    ensures { Replies indexed.now result (answered J.verdict_of indexed.now line.entry) }
{
    let name = name_meant(alloc, &line.user)?;
    let verdicts = indexed.verdicts(line.reach);
    match may_text_of(alloc, &verdicts, line.request, &name)? {
        Some(out) => Ok(Effect::prints(out)),
        None => Err(LineFault::Tree(TreeFault::NoSuchUser { name })),
    }
}
