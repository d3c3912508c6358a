//! The tool `creat`: a new file, with what it inherits from its directory.

ghost use Rattle.std.specs.Prelude.{◌≡◌};
ghost use Rattle.facl_tools.specs.Creat.{answered, kind_of, mode_given, read};
ghost use Rattle.facl_tools.specs.Replies.{Replies};

use crate::effect::{Effect, effect_of};
use crate::mode::permission_mode_of;
use crate::operands::{name_meant, path_at};
use crate::syntax::{by_letter, by_name, one};
use acl_edit::Kind;
use acl_tree::{Command, NewFile, State};
use facl_output::LineFault;
use facl_script::{OperandRow, OptionRow, Syntax, WordRef, Words};
use std::alloc::Global;

/// The words of the tool.
pub const SYNTAX: Syntax = Syntax {
    flags: &[by_letter!('d', "d")],
    options: &[
        by_name!("user"),
        by_name!("mode"),
        by_name!("umask" or "022"),
    ],
    operands: &[one!("file")],
};

/// A line of `creat`.
#[derive(Drop)]
pub struct CreatLine<'a> {
    /// `-d`: a directory.
    pub kind: Kind,
    /// `--user`: the owner.
    pub user: WordRef<'a>,
    /// `--mode`: the requested permissions.
    pub mode: u16,
    /// `--umask`: the permissions that are withheld, 022 if it is absent.
    pub umask: u16,
    pub file: WordRef<'a>,
}

/// Reads the mode of an option's value.
fn mode_given(value: Option<WordRef<'_>>) -> Option<u16>
    ensures { result ≡ mode_given value.entry }
{
    permission_mode_of(value?.as_bytes())
}

fn kind_of(is_directory: bool) -> Kind
    ensures { result ≡ kind_of is_directory }
{
    if is_directory {
        Kind::Directory
    } else {
        Kind::Plain
    }
}

/// Reads the line of words. `None` if they are usage.
pub fn read(words: &Words) -> Option<CreatLine<'_>>
    ensures { result ≡ read words.now }
{
    let syntax = &SYNTAX;
    let user = words.value(syntax, "user")?;
    let mode = mode_given(words.value(syntax, "mode"))?;
    let umask = mode_given(words.value(syntax, "umask"))?;
    let file = words.file(syntax, "file")?;
    Some(CreatLine {
        kind: kind_of(words.has(syntax, "d")),
        user,
        mode,
        umask,
        file,
    })
}

/// Makes a plain file or a directory.
pub fn answer(alloc: Global, state: &State, line: CreatLine<'_>) -> Result<Effect, LineFault>
    ensures { Replies state.now result (answered state.now line.entry) }
{
    let user = name_meant(alloc, &line.user)?;
    let path = path_at(alloc, 1, line.file.as_bytes())?;
    let new = NewFile {
        path,
        kind: line.kind,
        user,
        mode: line.mode,
        umask: line.umask,
    };
    effect_of(alloc, state, Command::Creat(new))
}
