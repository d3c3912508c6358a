//! The words of the program, with the faults of a line.

ghost use Rattle.std.specs.Prelude.{map, option_map, string_bytes, ok_or};
ghost use Rattle.facl_tools.specs.Replies.{Gives};
ghost use Rattle.facl_script.specs.Args.{files_for};

use facl_output::LineFault;
use std::alloc::Global;

/// Returns the FILEs of `--passwd`, `--group` and `--dump`, in this order, from the words after the program's name;
/// `None` for an absent option.
///
/// # Errors
///
/// `Usage` if `clap` refuses the words: another word, an option without its value, or one that is given twice;
/// `NoMemory` only if memory runs out.
pub fn read_args(alloc: Global, words: &[String]) -> Result<[Option<String>; 3], LineFault>
    ensures { Gives (map (option_map string_bytes)) result (ok_or (files_for (map string_bytes words.now)) LineFault.Usage) }
{
    Ok(facl_script::read_args(alloc, words)?)
}
