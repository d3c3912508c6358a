//! The program's own words.

ghost use Rattle.std.specs.Prelude.{◌≡◌, ◌⊎◌, MatchResult, None, Some, map, string_bytes, if◌then◌else◌};
ghost use Rattle.std.specs.IoError.{error_kind};
ghost use Rattle.facl_program.specs.Lines.{ran_out_of_memory};
ghost use Rattle.facl_program.specs.Words.{files_named, names_of};

use crate::fault::ProgramFault;
use facl_script::read_args;
use std::alloc::Global;
use std::env::Env;
use std::io::ErrorKind;
use std::{env, io};

/// Returns the fault of words that cannot be read: one of them is not text, or memory ran out.
fn words_fault(error: &io::Error) -> ProgramFault
    ensures { result ≡ if ran_out_of_memory (error_kind error.now) then ProgramFault.NoMemory else ProgramFault.Usage }
{
    match error.kind() {
        ErrorKind::OutOfMemory => ProgramFault::NoMemory,
        _ => ProgramFault::Usage,
    }
}

/// Returns the words of the program, its name first. No contract can state which words the system gives.
pub(crate) fn words_given(rt: &(impl Env + AllocGlobal)) -> Result<Vec<String>, ProgramFault> {
    match env::args(rt) {
        Ok(words) => Ok(words.collect(rt.alloc())?),
        Err(error) => Err(words_fault(&error)),
    }
}

/// The files that are loaded before the script, each if it is given.
#[derive(Drop)]
pub(crate) struct Files {
    /// Of `--passwd`.
    pub passwd: Option<String>,
    /// Of `--group`.
    pub group: Option<String>,
    /// Of `--dump`.
    pub dump: Option<String>,
}

/// Reads the files that the words name. The first of the words is the program's name.
pub(crate) fn files_named(alloc: Global, words: &[String]) -> Result<Files, ProgramFault>
    ensures { MatchResult result
        (λ files. files_named (map string_bytes words.now) ≡ Some (names_of files))
        (λ fault. (fault ≡ ProgramFault.NoMemory) ⊎ ((fault ≡ ProgramFault.Usage) × (files_named (map string_bytes words.now) ≡ None))) }
{
    let after_name = words.get(1..).unwrap_or(&[]);
    let [passwd, group, dump] = read_args(alloc, after_name)?;
    Ok(Files {
        passwd,
        group,
        dump,
    })
}
