//! A run over a script.

ghost use Rattle.std.specs.Prelude.{◌≡◌, ◌⊎◌, ℕ, true, false, IfOk, IfErr, IfSome, OnOk, Ok, Err};
ghost use Rattle.std.specs.Io.KnownBytes.{IsAtEnd};
ghost use Rattle.acl_rights.specs.Deciders.{judging, posix};
ghost use Rattle.facl_script.specs.Streams.{streams};
ghost use Rattle.facl.specs.Setups.{initial_state};
ghost use Rattle.facl.specs.Asking.{RunsAsking};
ghost use Rattle.facl.specs.Headline.{RunsTo};
ghost use Rattle.facl.specs.Runs.{EndsBy, devices};

use crate::session::{FaclSession, JudgedSession};
use crate::setup::{Setup, initial_state};
use crate::status::Status;
use acl_rights::{Judge, Posix};
use acl_tree::State;
use facl_output::RunFault;
use facl_script::{Feed, Sink, run_session};
use std::alloc::Global;

/// [`run_judged`] after its setup: answers a script from the state on that [`initial_state`] returns.
/// The texts of the setup can be freed before.
///
/// # Errors
///
/// Those of [`run`], but for `Setup`.
pub fn run_from<J: Judge, R: Feed, O: Sink, E: Sink>(
    alloc: Global,
    state: State,
    judge: &mut J,
    reader: &mut R,
    out: &mut O,
    err: &mut E,
) -> Result<Status, RunFault>
    requires asked { J.asked_of judge.old ≡ 0 }
    requires reader { R.has_failed reader.old ≡ false }
    requires out { O.has_failed out.old ≡ false }
    requires err { E.has_failed err.old ≡ false }

    ensures ok { IfOk result (λ status. IfSome (R.remaining reader.old) (λ script.
        RunsAsking (judging J.verdict_of J.decider_of) (Ok state) script status (J.asked_of judge.new)
        (streams (O.contents out.old) (E.contents err.old)) (streams (O.contents out.new) (E.contents err.new)))) }
    ensures fault { IfErr result (λ fault.
        EndsBy fault (judging J.verdict_of J.decider_of) (Ok state) (J.asked_of judge.new)
        (devices (R.remaining reader.old) (O.contents out.old) (E.contents err.old))
        (devices (R.remaining reader.new) (O.contents out.new) (E.contents err.new))) }

    // A status comes only once the reader is at its end, and if no device has failed.
    ensures end { OnOk result (IsAtEnd (R.remaining reader.new)) }
    ensures works { OnOk result ((R.has_failed reader.new ≡ false)
        × (O.has_failed out.new ≡ false) × (E.has_failed err.new ≡ false)) }

    // A fault of a device is returned only if that device has failed.
    ensures read { result ≡ Err RunFault.Read → R.has_failed reader.new ≡ true }
    ensures write { result ≡ Err RunFault.Write → (O.has_failed out.new ≡ true) ⊎ (E.has_failed err.new ≡ true) }
{
    let session = FaclSession::new(alloc, judge, state)?;
    let mut judged = JudgedSession { judge, session };
    let is_refused = run_session(alloc, &mut judged, reader, out, err)?;
    Ok(Status::of(is_refused))
}

/// [`run`] with a judge of who may do what in the place of acl(5)'s check. The judge gives at most one verdict for
/// each user and file at the start, and for each accepted line at most one more for each verdict that it can have
/// changed. Questions, `--test` and lines refused for a fault add nothing to this bound, which is a sum over the script; a
/// line for which memory ran out adds what it would add if it were accepted.
///
/// # Errors
///
/// Those of [`run`].
pub fn run_judged<J: Judge, R: Feed, O: Sink, E: Sink>(
    alloc: Global,
    setup: &Setup<'_>,
    judge: &mut J,
    reader: &mut R,
    out: &mut O,
    err: &mut E,
) -> Result<Status, RunFault>
    requires asked { J.asked_of judge.old ≡ 0 }
    requires reader { R.has_failed reader.old ≡ false }
    requires out { O.has_failed out.old ≡ false }
    requires err { E.has_failed err.old ≡ false }

    ensures ok { IfOk result (λ status. IfSome (R.remaining reader.old) (λ script.
        RunsAsking (judging J.verdict_of J.decider_of) (initial_state setup.now) script status (J.asked_of judge.new)
        (streams (O.contents out.old) (E.contents err.old)) (streams (O.contents out.new) (E.contents err.new)))) }
    ensures fault { IfErr result (λ fault.
        EndsBy fault (judging J.verdict_of J.decider_of) (initial_state setup.now) (J.asked_of judge.new)
        (devices (R.remaining reader.old) (O.contents out.old) (E.contents err.old))
        (devices (R.remaining reader.new) (O.contents out.new) (E.contents err.new))) }

    // A status comes only once the reader is at its end, and if no device has failed.
    ensures end { OnOk result (IsAtEnd (R.remaining reader.new)) }
    ensures works { OnOk result ((R.has_failed reader.new ≡ false)
        × (O.has_failed out.new ≡ false) × (E.has_failed err.new ≡ false)) }

    // A fault of a device is returned only if that device has failed.
    ensures read { result ≡ Err RunFault.Read → R.has_failed reader.new ≡ true }
    ensures write { result ≡ Err RunFault.Write → (O.has_failed out.new ≡ true) ⊎ (E.has_failed err.new ≡ true) }
{
    let state = initial_state(alloc, setup)?;
    run_from(alloc, state, judge, reader, out, err)
}

/// Loads the setup's texts, then answers a script: reads it line by line, and writes what each line prints to `out`,
/// and the message of each refused line to `err`. Tests, and no contract, say that it does so before it reads on.
///
/// What is written are the bytes of the session made from scratch: the definition of each accepted line replayed on the
/// loaded texts, every question judged by acl(5)'s check, and `changes` comparing with the state after the setup or
/// after the last accepted load. A refused line changes nothing, and its message names its first fault, or says `no memory`,
/// which no contract rules out of any line that is answered. This is proved for a reader and writers whose bytes contracts
/// can name, as of those over memory; of the streams of a system no contract can state what they give or take.
///
/// # Errors
///
/// `Setup` is the first text that is refused: nothing is read or written then. `Read`, `Write` and `ScriptTooLong`
/// are why the script was not answered to its end. `NoMemory`: memory ran out for the setup and its index, for the room
/// of the `no memory` message, or for a line while it was read (if it runs out for a line's answer, that line alone is
/// refused). What was written by then is the start of the session.
pub fn run<R: Feed, O: Sink, E: Sink>(
    alloc: Global,
    setup: &Setup<'_>,
    reader: &mut R,
    out: &mut O,
    err: &mut E,
) -> Result<Status, RunFault>
    requires reader { R.has_failed reader.old ≡ false }
    requires out { O.has_failed out.old ≡ false }
    requires err { E.has_failed err.old ≡ false }

    ensures ok { IfOk result (λ status. IfSome (R.remaining reader.old) (λ script.
        RunsTo posix (initial_state setup.now) script status
        (streams (O.contents out.old) (E.contents err.old)) (streams (O.contents out.new) (E.contents err.new)))) }
    ensures fault { IfErr result (λ fault. (asked : ℕ)
        × EndsBy fault posix (initial_state setup.now) asked
        (devices (R.remaining reader.old) (O.contents out.old) (E.contents err.old))
        (devices (R.remaining reader.new) (O.contents out.new) (E.contents err.new))) }

    // A status comes only once the reader is at its end, and if no device has failed.
    ensures end { OnOk result (IsAtEnd (R.remaining reader.new)) }
    ensures works { OnOk result ((R.has_failed reader.new ≡ false)
        × (O.has_failed out.new ≡ false) × (E.has_failed err.new ≡ false)) }

    // A fault of a device is returned only if that device has failed.
    ensures read { result ≡ Err RunFault.Read → R.has_failed reader.new ≡ true }
    ensures write { result ≡ Err RunFault.Write → (O.has_failed out.new ≡ true) ⊎ (E.has_failed err.new ≡ true) }
{
    let mut judge = Posix::new();
    run_judged(alloc, setup, &mut judge, reader, out, err)
}
