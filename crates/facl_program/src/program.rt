//! The program over any words, files and devices: joins its parts.

ghost use Rattle.std.specs.Prelude.{◌≡◌, ◌⊎◌, false, Err, IfErr, IfOk, IfSome, OnOk, true, map, string_bytes};
ghost use Rattle.std.specs.Io.KnownBytes.{IsAtEnd};
ghost use Rattle.std.specs.Process.{exit_status};
ghost use Rattle.facl_program.specs.Lines.{IsReported, status_of};
ghost use Rattle.facl_program.specs.Program.{FailsBy, Ran};
ghost use Rattle.facl.specs.Runs.{devices};
ghost use Rattle.facl.specs.acl_rights.Deciders.{judging};
ghost use Rattle.facl.specs.facl_output.declared.fault.RunFault.TheVariants as runs;
ghost use Rattle.facl_script.specs.Streams.{streams};

use crate::args::{files_named, words_given};
use crate::fault::{ProgramFault, write_fault};
use crate::file_store::{FileStore, SystemFiles};
use crate::files::read_texts;
use facl::{Judge, Status, initial_state, run_from};
use facl_script::{Feed, Sink, StdFeed, StdSink};
use std::alloc::Global;
use std::process::ExitCode;

/// What the program ends with at a fault.
const FAULT_STATUS: u8 = 2;

/// Loads the texts of the files that the words name, then answers the script by the judge. The first of the words is the program's
/// name.
pub fn answer_words<J: Judge, S: FileStore, R: Feed, O: Sink, E: Sink>(
    alloc: Global,
    words: &[String],
    judge: &mut J,
    store: &mut S,
    reader: &mut R,
    out: &mut O,
    err: &mut E,
) -> Result<Status, ProgramFault>
    requires asked { J.asked_of judge.old ≡ 0 }
    requires store { S.has_failed store.old ≡ false }
    requires closed { S.is_open store.old ≡ false }
    requires reader { R.has_failed reader.old ≡ false }
    requires out { O.has_failed out.old ≡ false }
    requires err { E.has_failed err.old ≡ false }

    ensures ok { IfOk result (λ status. IfSome (R.remaining reader.old) (λ script.
        Ran (judging J.verdict_of J.decider_of) (S.bytes_of store.old) (map string_bytes words.now) script status
        (streams (O.contents out.old) (E.contents err.old)) (streams (O.contents out.new) (E.contents err.new)))) }
    ensures fault { IfErr result (λ fault.
        FailsBy fault (judging J.verdict_of J.decider_of) (S.bytes_of store.old) (map string_bytes words.now)
        (devices (R.remaining reader.old) (O.contents out.old) (E.contents err.old))
        (devices (R.remaining reader.new) (O.contents out.new) (E.contents err.new))) }

    // No file is open when the program ends, nor, by `read_texts`, when the script is read.
    ensures closed { S.is_open store.new ≡ false }

    // A status is returned only once the reader is at its end, and if no device has failed.
    ensures end { OnOk result (IsAtEnd (R.remaining reader.new)) }
    ensures works { OnOk result ((R.has_failed reader.new ≡ false)
        × (O.has_failed out.new ≡ false) × (E.has_failed err.new ≡ false)) }

    // A fault of a device is returned only if that device has failed.
    ensures read { result ≡ Err (ProgramFault.Run runs.Read) → R.has_failed reader.new ≡ true }
    ensures write { result ≡ Err (ProgramFault.Run runs.Write)
        → (O.has_failed out.new ≡ true) ⊎ (E.has_failed err.new ≡ true) }
{
    let files = files_named(alloc, words)?;
    let texts = read_texts(alloc, store, files)?;
    let state = initial_state(alloc, &texts.setup())?;
    drop(texts);
    let status = run_from(alloc, state, judge, reader, out, err)?;
    Ok(status)
}

/// Prints the line of a fault, and returns what the program ends with: 0 if every line was accepted, 1 if some line
/// was refused, 2 at a fault. A fault of standard error itself cannot be printed.
pub fn end<E: Sink>(alloc: Global, outcome: &Result<Status, ProgramFault>, err: &mut E) -> ExitCode
    requires { E.has_failed err.old ≡ false }
    ensures status { exit_status result ≡ status_of outcome.now }
    ensures reported { IsReported outcome.now (E.contents err.old) (E.contents err.new) (E.has_failed err.new) }
{
    match outcome {
        Ok(status) => ExitCode::from(status.code()),
        Err(fault) => {
            let _ = write_fault(alloc, fault, err);
            ExitCode::from(FAULT_STATUS)
        }
    }
}

/// Answers the script on standard input by the judge.
fn answer<J: Judge>(rt: &HostRuntime, judge: &mut J) -> Result<Status, ProgramFault>
    requires { J.asked_of judge.old ≡ 0 }
{
    let words = words_given(rt)?;
    let mut file_store = SystemFiles::new(rt);
    let mut reader = StdFeed::new(rt.stdin());
    let mut out = StdSink::new(rt.stdout());
    let mut err = StdSink::new(rt.stderr());
    answer_words(
        rt.alloc(),
        &words,
        judge,
        &mut file_store,
        &mut reader,
        &mut out,
        &mut err,
    )
}

/// Answers the script on standard input by the judge, which has decided no verdict yet, and returns what the program
/// ends with.
pub fn run_program<J: Judge>(rt: &HostRuntime, judge: &mut J) -> ExitCode
    requires { J.asked_of judge.old ≡ 0 }
{
    let outcome = answer(rt, judge);
    end(rt.alloc(), &outcome, &mut StdSink::new(rt.stderr()))
}
