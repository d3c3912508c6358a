//! The tool `load`: a text is read as users, groups or files.

ghost use Rattle.std.specs.Prelude.{◌≡◌};
ghost use Rattle.facl_tools.specs.Load.{answered, read, table_named};
ghost use Rattle.facl_tools.specs.Replies.{Replies};

use crate::effect::{Effect, effect_of};
use crate::syntax::one;
use acl_tree::{Command, State, Table};
use facl_output::LineFault;
use facl_script::{OperandRow, Syntax, Words};
use std::alloc::Global;

/// The words of the tool.
pub const SYNTAX: Syntax = Syntax {
    flags: &[],
    options: &[],
    operands: &[one!("table")],
};

/// A line of `load`, but for its text.
#[derive(Drop)]
pub struct LoadLine {
    /// `passwd`, `group` or `dump`.
    pub table: Table,
}

fn table_named(name: &[u8]) -> Option<Table>
    ensures { result ≡ table_named name.now }
{
    if name == b"passwd".as_slice() {
        Some(Table::Passwd)
    } else if name == b"group".as_slice() {
        Some(Table::Group)
    } else if name == b"dump".as_slice() {
        Some(Table::Dump)
    } else {
        None
    }
}

/// Reads the line of words. `None` if they are usage.
pub fn read(words: &Words) -> Option<LoadLine>
    ensures { result ≡ read words.now }
{
    let table = table_named(words.operand(&SYNTAX, "table").as_bytes())?;
    Some(LoadLine { table })
}

/// Loads the text of a line.
pub fn answer(
    alloc: Global,
    state: &State,
    line: LoadLine,
    text: &[u8],
) -> Result<Effect, LineFault>
    ensures { Replies state.now result (answered state.now line text.now) }
{
    let command = Command::Load {
        which: line.table,
        bytes: text,
    };
    effect_of(alloc, state, command)
}
