//! A run over a whole script: answers each unit and writes its answer before it reads the next one, which is tested,
//! and in no contract.
ghost use Rattle.std.specs.Prelude.{◌≡◌, ◌⊎◌, ◌<◌, ◌≤◌, ◌+◌, ◌||◌, ℕ, Bool, List, Option, true, false, OnOk, Err, is_err};
ghost use Rattle.std.specs.Io.KnownBytes.{IsAtEnd};
ghost use Rattle.facl_script.specs.Units.{ScriptUnit, line_takes};
ghost use Rattle.facl_script.specs.Held.{IsLineHeld, IsUnitHeld};
ghost use Rattle.facl_script.specs.Play.{Answer};
ghost use Rattle.facl_script.specs.Limits.{script_limit};
ghost use Rattle.facl_script.specs.Streams.{streams, moment};
ghost use Rattle.facl_script.specs.Run.{IsAnswer, AnswersUnit, Runs};

use crate::devices::{Feed, Sink, write_answer};
use crate::fault::ScriptFault;
use crate::held::{HeldLine, HeldUnit};
use crate::unit::Script;
use std::alloc::Global;

/// Answers the units of a script: it has a state, which each unit may change, and the answer to the last unit.
pub trait Session {
    /// What contracts know of the state.
    type State;

    /// The state of a session.
    ghost state: { Self → Self.State };

    /// Which lines ask for a text: for the lines after them, up to a line `.`. A line over the limit has none all the same.
    ghost asks: { List ℕ → Bool };

    /// What a unit does at a state: the first argument is whether memory runs out for it.
    ghost answered: { Bool → ScriptUnit → Self.State → Answer Self.State };

    /// What a session has spent so far of something that it counts. The cost of an answer bounds what a unit adds.
    ghost spent: { Self → ℕ } = { λ _. 0 };

    /// What has to be true of a session before the line with a number is answered, so that its counts fit.
    ghost is_ready: { ℕ → Self → Type 0 } = { λ _ _. Unit {0} };

    /// The name of the reference that a session holds to what it spends from, if it holds one. The caller, from whom
    /// that reference is borrowed, recognizes it by that name.
    ghost held: { Self → ℕ } = { λ _. 0 };

    /// What the last unit writes to the output.
    ghost to_out: { Self → List ℕ };

    /// What the last unit writes to the messages.
    ghost to_err: { Self → List ℕ };

    /// Tells whether a line asks for a text, whatever memory there is.
    fn asks_for_text(line: &HeldLine<'_>) -> bool
        ensures { (content : Option (List ℕ)) → IsLineHeld line.now content → result ≡ line_takes asks content };

    /// Answers a unit, and returns whether it is refused. All that it writes is composed here. If its text was lost,
    /// or an allocation fails, memory runs out for the unit.
    fn answer(&mut self, unit: &HeldUnit<'_>) -> bool
        requires { is_ready unit.now.number self.old }
        ensures answers { (u : ScriptUnit) → IsUnitHeld asks unit.now u
            → (ran_out : Bool)
            × IsAnswer (answered ran_out u (state self.old)) (state self.new) (spent self.old) (spent self.new)
            (to_out self.new) (to_err self.new) result }
        ensures ready { (n : ℕ) → unit.now.number < n → n ≤ script_limit + 1 → is_ready n self.new }
        ensures held { held self.new ≡ held self.old };

    /// Returns what the last unit writes to the output.
    fn out(&self) -> &[u8]
        ensures { result.now ≡ to_out self.now };

    /// Returns what the last unit writes to the messages.
    fn err(&self) -> &[u8]
        ensures { result.now ≡ to_err self.now };
}

/// Answers one unit, and writes the answer.
fn answer_unit<S: Session, O: Sink, E: Sink>(
    session: &mut S,
    unit: &HeldUnit<'_>,
    out: &mut O,
    err: &mut E,
) -> Result<bool, ScriptFault>
    requires ready { S.is_ready unit.now.number session.old }
    requires out_works { O.has_failed out.old ≡ false }
    requires err_works { E.has_failed err.old ≡ false }
    ensures answers { AnswersUnit result S.asks S.answered unit.now
        (moment (S.state session.old) (S.spent session.old) (streams (O.contents out.old) (E.contents err.old)))
        (moment (S.state session.new) (S.spent session.new) (streams (O.contents out.new) (E.contents err.new))) }
    ensures failed { (O.has_failed out.new || E.has_failed err.new) ≡ is_err result }
    ensures ready { (n : ℕ) → unit.now.number < n → n ≤ script_limit + 1 → S.is_ready n session.new }
    ensures held { S.held session.new ≡ S.held session.old }
{
    let is_refused = session.answer(unit);
    write_answer(out, err, session.out(), session.err())?;
    Ok(is_refused)
}

/// Runs a session over a script: reads it unit by unit, and writes the answer of each. Returns whether a unit was
/// refused.
///
/// An error means that the reader or a writer failed, that the script is longer than the limit, or that there was no memory
/// for a line. No read or write is tried again, and nothing is read after the end.
pub fn run_session<S: Session, R: Feed, O: Sink, E: Sink>(
    alloc: Global,
    session: &mut S,
    reader: &mut R,
    out: &mut O,
    err: &mut E,
) -> Result<bool, ScriptFault>
    requires ready { S.is_ready 1 session.old }
    requires reader { R.has_failed reader.old ≡ false }
    requires out { O.has_failed out.old ≡ false }
    requires err { E.has_failed err.old ≡ false }

    ensures answers { Runs result S.asks S.answered (R.remaining reader.old) (R.remaining reader.new)
        (moment (S.state session.old) (S.spent session.old) (streams (O.contents out.old) (E.contents err.old)))
        (moment (S.state session.new) (S.spent session.new) (streams (O.contents out.new) (E.contents err.new))) }

    // An answer comes only once the reader is at its end.
    ensures end { OnOk result (IsAtEnd (R.remaining reader.new)) }

    // A fault of a device is returned only if that device has failed.
    ensures works { OnOk result ((R.has_failed reader.new ≡ false)
        × (O.has_failed out.new ≡ false) × (E.has_failed err.new ≡ false)) }
    ensures read { result ≡ Err ScriptFault.Read → R.has_failed reader.new ≡ true }
    ensures write { result ≡ Err ScriptFault.Write → (O.has_failed out.new ≡ true) ⊎ (E.has_failed err.new ≡ true) }

    // What the session holds is what it was given.
    ensures held { S.held session.new ≡ S.held session.old }
{
    let mut script = Script::new(alloc);
    let mut is_refused = false;
    while let Some(unit) = script.next_unit::<S, R>(reader)? {
        let held = script.unit(&unit);
        is_refused |= answer_unit(session, &held, out, err)?;
    }
    Ok(is_refused)
}
