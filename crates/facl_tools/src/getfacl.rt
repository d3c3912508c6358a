//! The tool getfacl(1).

ghost use Rattle.std.specs.Prelude.{◌≡◌};
ghost use Rattle.facl_tools.specs.Getfacl.{answered, effective_for, read};
ghost use Rattle.facl_tools.specs.Replies.{Replies};

use crate::effect::Effect;
use crate::operands::paths_of;
use crate::syntax::{both, some};
use acl_text::Effective;
use acl_tree::{Selection, State};
use facl_output::{LineFault, Options, append_listing};
use facl_script::{LineFiles, OperandRow, OptionRow, Syntax, Words};
use std::alloc::Global;

/// The words of the tool.
pub const SYNTAX: Syntax = Syntax {
    flags: &[
        both!('a', "access"),
        both!('c', "omit-header"),
        both!('e', "all-effective"),
        both!('E', "no-effective"),
        both!('s', "skip-base"),
        both!('R', "recursive"),
        both!('n', "numeric"),
    ],
    options: &[],
    operands: &[some!("file")],
};

/// A line of getfacl(1).
#[derive(Drop)]
pub struct GetfaclLine<'a> {
    pub options: Options,
    /// `-R`: with all below.
    pub recursive: bool,
    pub files: LineFiles<'a>,
}

/// Returns where effective permissions are printed: `-e` and `-E` exclude each other.
fn effective_for(always: bool, never: bool) -> Option<Effective>
    ensures { result ≡ effective_for always never }
{
    match (always, never) {
        (true, true) => None,
        (true, false) => Some(Effective::Always),
        (false, true) => Some(Effective::Never),
        (false, false) => Some(Effective::WhereMasked),
    }
}

/// Reads the line of words. `None` if they are usage.
pub fn read(words: &Words) -> Option<GetfaclLine<'_>>
    ensures { result ≡ read words.now }
{
    let syntax = &SYNTAX;
    let effective = effective_for(
        words.has(syntax, "all-effective"),
        words.has(syntax, "no-effective"),
    )?;
    let files = words.files(syntax, "file")?;
    Some(GetfaclLine {
        options: Options {
            access_only: words.has(syntax, "access"),
            omit_header: words.has(syntax, "omit-header"),
            effective,
            skip_base: words.has(syntax, "skip-base"),
            numeric: words.has(syntax, "numeric"),
        },
        recursive: words.has(syntax, "recursive"),
        files,
    })
}

/// Lists files.
pub fn answer(alloc: Global, state: &State, line: GetfaclLine<'_>) -> Result<Effect, LineFault>
    ensures { Replies state.now result (answered state.now line.entry) }
{
    let paths = paths_of(alloc, line.files.as_slice())?;
    let selection = Selection {
        operands: &paths,
        recursive: line.recursive,
    };
    let files = state.tree().files(alloc, &selection)?;
    let mut out = Vec::new(alloc);
    append_listing(&mut out, state.people(), &line.options, &files)?;
    Ok(Effect::prints(out))
}
