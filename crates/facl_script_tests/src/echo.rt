//! A session that gives back each line and its text.
ghost use Rattle.std.specs.Prelude.{◌≡◌, ◌++◌, ◌∷◌, [], true, false, IfOk};
ghost use Rattle.facl_script.specs.Units.{ScriptUnit};
ghost use Rattle.facl_script.specs.Held.{IsUnitHeld};
ghost use Rattle.facl_script_tests.specs.Echo.{asks, echoed, echoed_there};

use facl_script::{HeldLine, HeldText, HeldUnit, Session};
use std::alloc::{AllocError, Global};

/// The answer to a unit.
#[derive(Drop)]
pub struct Echo {
    out: Vec<u8>,
    err: Vec<u8>,
    has_refused: bool,
}

impl Echo {
    pub fn new(alloc: Global) -> Echo {
        Echo {
            out: Vec::new(alloc),
            err: Vec::new(alloc),
            has_refused: false,
        }
    }

    /// Whether a unit was refused so far.
    pub fn has_refused(&self) -> bool {
        self.has_refused
    }
}

fn refuse(err: &mut Vec<u8>, why: &[u8]) -> Result<bool, AllocError>
    requires { err.old.items ≡ [] }
    ensures { IfOk result (λ refused. (refused ≡ true) × (err.new.items ≡ why.now)) }
{
    err.extend_from_slice(why)?;
    Ok(true)
}

fn give_back(out: &mut Vec<u8>, line: &[u8], text: &[u8]) -> Result<bool, AllocError>
    requires { out.old.items ≡ [] }
    ensures { IfOk result (λ refused. (refused ≡ false) × (out.new.items ≡ (line.now ++ 10 ∷ []) ++ text.now)) }
{
    out.extend_from_slice(line)?;
    out.push(b'\n')?;
    out.extend_from_slice(text)?;
    Ok(false)
}

/// Composes the answer to a unit that is not silent.
fn compose(out: &mut Vec<u8>, err: &mut Vec<u8>, unit: &HeldUnit<'_>) -> Result<bool, AllocError>
    requires out { out.old.items ≡ [] }
    requires err { err.old.items ≡ [] }
    ensures { IfOk result (λ refused. (u : ScriptUnit) → IsUnitHeld asks unit.now u
        → (out.new.items ≡ (echoed_there u false).out) × (err.new.items ≡ (echoed_there u false).err) × (refused ≡ (echoed_there u false).refused)) }
{
    let (HeldLine::Silent(line) | HeldLine::WithWords(line)) = unit.line else {
        return refuse(err, b"line too long\n");
    };
    match unit.text {
        HeldText::Absent => give_back(out, line, b""),
        HeldText::Whole(text) => give_back(out, line, text),
        HeldText::TooLong => refuse(err, b"text line too long\n"),
        HeldText::Unended => refuse(err, b"text without end\n"),
        HeldText::Lost => Err(AllocError),
    }
}

impl Session for Echo {
    type State = bool;

    ghost state = { λ s. s.has_refused };

    ghost asks = { asks };

    ghost answered = { echoed };

    ghost to_out = { λ s. s.out.items };

    ghost to_err = { λ s. s.err.items };

    fn asks_for_text(line: &HeldLine<'_>) -> bool {
        match line {
            HeldLine::Silent([first, ..]) | HeldLine::WithWords([first, ..]) => {
                *first == b'l' || *first == b'y'
            }
            _ => false,
        }
    }

    fn answer(&mut self, unit: &HeldUnit<'_>) -> bool {
        self.out.clear();
        self.err.clear();
        if matches!(unit.line, HeldLine::Silent(_)) {
            return false;
        }
        match compose(&mut self.out, &mut self.err, unit) {
            Ok(is_refused) => {
                self.has_refused |= is_refused;
                is_refused
            }
            Err(_) => {
                self.out.clear();
                self.err.clear();
                self.has_refused = true;
                true
            }
        }
    }

    fn out(&self) -> &[u8] {
        &self.out
    }

    fn err(&self) -> &[u8] {
        &self.err
    }
}
