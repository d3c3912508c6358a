//! The program's own words.
ghost use Rattle.std.specs.Prelude.{◌≡◌, MatchResult, Some, map, option_map, string_bytes};
ghost use Rattle.facl_script.specs.Args.{files_for, program_syntax};
ghost use Rattle.facl_script.specs.Refusals.{IsRefusal};
ghost use Rattle.facl_script.specs.Rows.{syntax_view};

use crate::commands::{matches_for, value_of};
use crate::syntax::{OptionRow, Syntax};
use crate::tool_fault::WordsFault;
use std::alloc::Global;

/// An option with a long name alone.
macro_rules! by_name {
    ($name:literal) => {
        OptionRow {
            id: $name,
            short: None,
            long: Some($name),
            fallback: None,
            is_text: false,
        }
    };
}

/// The options of the program.
static FILES: [OptionRow; 3] = [by_name!("passwd"), by_name!("group"), by_name!("dump")];

/// Returns the words that the program takes: the three files.
fn program_syntax() -> Syntax
    ensures { syntax_view result ≡ program_syntax }
{
    Syntax {
        flags: &[],
        options: &FILES,
        operands: &[],
    }
}

/// Returns the files of `--passwd`, `--group` and `--dump`, in this order, from the words after the program's name;
/// `None` for an absent option.
///
/// Returns `Usage` if `clap` refuses the words: another word, an option without its value, or one that is given
/// twice; and `NoMemory` only if memory runs out.
#[tactic(auto, unfolding(crate::specs::Args::files_for))]
pub fn read_args(alloc: Global, words: &[String]) -> Result<[Option<String>; 3], WordsFault>
    ensures { MatchResult result
        (λ files. files_for (map string_bytes words.now) ≡ Some (map (option_map string_bytes) files))
        (IsRefusal (files_for (map string_bytes words.now))) }
{
    let syntax = program_syntax();
    let matches = matches_for(alloc, &syntax, words)?;
    let passwd = value_of(alloc, &matches, "passwd")?;
    let group = value_of(alloc, &matches, "group")?;
    let dump = value_of(alloc, &matches, "dump")?;
    Ok([passwd, group, dump])
}
