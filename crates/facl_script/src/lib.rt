//! Reads a script from any reader, cuts it into lines, words and units, and writes the answers to two writers; and
//! reads the words of a line, and of the program, by a syntax.
//!
//! A syntax has the flags, options and operands of a tool. `words_by_clap` reads the words after a tool's name by the
//! tool's syntax, `read_args` those after the program's name, each by a `clap` command of its own. Callers see `Words`,
//! which they ask by the names of a syntax, and two faults, and nothing of `clap`. A `Session` tells which lines take the
//! lines after them as their text. What a tool makes of its words is in `facl_tools` and `facl`.
//!
//! A call whose only error is `AllocError` or `NoMemory` fails only if memory runs out.
#![tactic(auto)]

mod args;
mod commands;
mod devices;
mod fault;
mod held;
mod laws;
mod play;
mod reading;
mod source;
mod syntax;
mod text;
mod tool_fault;
mod tool_words;
mod unit;
mod words;

pub use args::read_args;
pub use devices::{Feed, Sink, StdFeed, StdSink, write_answer, write_whole};
pub use fault::ScriptFault;
pub use held::{HeldLine, HeldText, HeldUnit, LineFound, has_no_words};
pub use laws::{
    full_units_come_first, line_has_words_as_written, quote_is_open_where_odd,
    script_has_units_as_spelled, words_joined_by_spaces_are_split_again,
};
pub use play::{Session, run_session};
pub use reading::{LineFiles, WordRef, is_dash, words_by_clap};
pub use source::{LINE_LIMIT, SCRIPT_LIMIT};
pub use syntax::{OperandRow, OptionRow, Syntax};
pub use text::TextFound;
pub use tool_fault::WordsFault;
pub use tool_words::{Flags, Operands, Values, Word, Words};
pub use unit::{Script, UnitFound};
pub use words::{CharAction, Place, SplitFault, split_words};
