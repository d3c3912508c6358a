//! Why the program ends with 2, and the line that it prints.

ghost use Rattle.std.specs.Prelude.{◌≡◌, true, false, IfOk, IfErr, OnOk, OnErr};
ghost use Rattle.std.specs.Io.KnownBytes.{Appends};
ghost use Rattle.facl_program.specs.Lines.{IsLineReported, fault_by_words, fault_line, unread_line};
ghost use Rattle.facl_program.specs.declared.fault.ProgramFault.{ProgramFault};

use facl::{RunFault, push_run_fault};
use facl_script::{ScriptFault, Sink, WordsFault, write_whole};
use std::alloc::{AllocError, Global};

/// Why the program ends with 2.
#[derive(Drop)]
pub enum ProgramFault {
    /// The words after the program's name are not such as it takes.
    Usage,
    /// A file cannot be read, or has more bytes than the limit.
    CannotRead { file: String },
    /// The run ended before its script did.
    Run(RunFault),
    /// Memory ran out.
    NoMemory,
}

impl From<AllocError> for ProgramFault {
    ghost from_gives = { λ _ fault. fault ≡ ProgramFault.NoMemory };

    fn from(_: AllocError) -> ProgramFault {
        ProgramFault::NoMemory
    }
}

impl From<WordsFault> for ProgramFault {
    ghost from_gives = { λ refused fault. fault ≡ fault_by_words refused };

    fn from(refused: WordsFault) -> ProgramFault {
        match refused {
            WordsFault::Usage => ProgramFault::Usage,
            WordsFault::NoMemory => ProgramFault::NoMemory,
        }
    }
}

impl From<RunFault> for ProgramFault {
    ghost from_gives = { λ run_fault fault. fault ≡ ProgramFault.Run run_fault };

    fn from(run_fault: RunFault) -> ProgramFault {
        ProgramFault::Run(run_fault)
    }
}

/// Writes the line of a fault of the setup.
fn setup_line(alloc: Global, fault: &RunFault) -> Result<Vec<u8>, AllocError>
    ensures { IfOk result (λ line. line.items ≡ fault_line (ProgramFault.Run fault.now)) }
{
    let mut line = Vec::from_slice(alloc, b"facl: ")?;
    push_run_fault(&mut line, fault)?;
    line.push(b'\n')?;
    Ok(line)
}

/// Writes the line of a file that cannot be read.
fn write_unread<E: Sink>(file: &str, err: &mut E) -> Result<(), ScriptFault>
    requires { E.has_failed err.old ≡ false }
    ensures ok { OnOk result (Appends (E.contents err.old) (E.contents err.new) (unread_line file.now)) }
    ensures err { OnErr result (E.has_failed err.new ≡ true) }
    ensures which { IfErr result (λ e. e ≡ ScriptFault.Write) }
{
    write_whole(err, b"facl: ")?;
    write_whole(err, file.as_bytes())?;
    write_whole(err, b": cannot read\n")
}

/// Writes the line of a fault, whatever memory there is, but for a fault of the setup: if memory runs out for its line,
/// that of `no memory` is written.
pub(crate) fn write_fault<E: Sink>(
    alloc: Global,
    fault: &ProgramFault,
    err: &mut E,
) -> Result<(), ScriptFault>
    requires { E.has_failed err.old ≡ false }
    ensures ok { OnOk result (IsLineReported fault.now (E.contents err.old) (E.contents err.new)) }
    ensures err { OnErr result (E.has_failed err.new ≡ true) }
    ensures which { IfErr result (λ e. e ≡ ScriptFault.Write) }
{
    match fault {
        ProgramFault::Usage => write_whole(err, b"facl: usage\n"),
        ProgramFault::CannotRead { file } => write_unread(file, err),
        ProgramFault::Run(fault) => match fault {
            RunFault::Read => write_whole(err, b"facl: read fault\n"),
            RunFault::Write => write_whole(err, b"facl: write fault\n"),
            RunFault::ScriptTooLong => write_whole(err, b"facl: script too long\n"),
            RunFault::NoMemory => write_whole(err, b"facl: no memory\n"),
            RunFault::Setup { .. } => match setup_line(alloc, fault) {
                Ok(line) => write_whole(err, &line),
                Err(_) => write_whole(err, b"facl: no memory\n"),
            },
        },
        ProgramFault::NoMemory => write_whole(err, b"facl: no memory\n"),
    }
}
