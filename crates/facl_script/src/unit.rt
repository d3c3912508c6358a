//! A script, read unit by unit: each line with its text, if it takes one.
ghost use Rattle.std.specs.Prelude.{◌≡◌, ◌≤◌, ◌+◌, ℕ, Bool, List, true, false, Option};
ghost use Rattle.facl_script.specs.Held.{IsUnitHeld};
ghost use Rattle.facl_script.specs.ReadUnit.{IsUnitFound, is_last};
ghost use Rattle.facl_script.specs.Units.{ScriptUnit};
ghost use Rattle.facl_script.specs.ByteSource.{taken_count};
ghost use Rattle.facl_script.specs.Limits.{script_limit};

use crate::devices::Feed;
use crate::fault::ScriptFault;
use crate::held::{HeldLine, HeldText, HeldUnit, LineFound};
use crate::play::Session;
use crate::source::ByteSource;
use crate::text::{TextFound, read_text};
use std::alloc::Global;

/// A unit that was read.
#[derive(Clone, Copy, Debug, PartialEq, Eq)]
pub struct UnitFound {
    /// The number of its line, from 1 on; the lines of texts are counted too.
    pub number: u64,
    /// What its line is.
    pub line: LineFound,
    /// What is held of its text.
    pub text: TextFound,
    /// Whether the LF of its last line was there. Else it ends the script.
    pub is_full: bool,
}

/// A script that is read unit by unit, with the line and the text of the last one.
#[derive(Drop)]
pub struct Script {
    source: ByteSource,
    line: Vec<u8>,
    text: Vec<u8>,
    text_line: Vec<u8>,
    number: u64,
    is_over: bool,
    ghost counted: { number ≤ taken_count source + 1 },
}

impl Script {
    ghost use Rattle.facl_script.specs.Script.{script_left, script_taken, next_number, is_over, line_held, text_held, ReadsUnit};

    /// Returns a script of which nothing is read.
    pub fn new(alloc: Global) -> Script
        ensures left { (remaining : Option (List ℕ)) → script_left result remaining ≡ remaining }
        ensures taken { script_taken result ≡ 0 }
        ensures number { next_number result ≡ 1 }
        ensures over { is_over result ≡ false }
    {
        Script {
            source: ByteSource::new(),
            line: Vec::new(alloc),
            text: Vec::new(alloc),
            text_line: Vec::new(alloc),
            number: 1,
            is_over: false,
        }
    }

    /// Returns the unit that was read last, as it was found.
    pub fn unit(&self, found: &UnitFound) -> HeldUnit<'_>
        ensures number { result.number ≡ found.now.number }
        ensures held { (asks : List ℕ → Bool) (unit : ScriptUnit) → IsUnitFound asks found.now (line_held self.now) (text_held self.now) unit
            → IsUnitHeld asks result unit }
    {
        HeldUnit {
            number: found.number,
            line: HeldLine::found(found.line, self.line.as_slice()),
            text: HeldText::found(found.text, self.text.as_slice()),
            is_full: found.is_full,
        }
    }

    /// Reads the next unit, past the check for the end.
    fn read_unit<S: Session, R: Feed>(
        &mut self,
        reader: &mut R,
    ) -> Result<Option<UnitFound>, ScriptFault>
        requires { R.has_failed reader.old ≡ false }
        ensures { ReadsUnit result S.asks self.old self.new
            (R.remaining reader.old) (R.remaining reader.new) (R.has_failed reader.new) }
    {
        let number = self.number;
        let Some(found) = self.source.next_line(reader, &mut self.line)? else {
            return Ok(None);
        };
        let bytes = self.line.as_slice();
        let line = LineFound::of(found.is_too_long, bytes);
        if !S::asks_for_text(&HeldLine::found(line, bytes)) {
            self.number += 1;
            return Ok(Some(UnitFound {
                number,
                line,
                text: TextFound::Absent,
                is_full: found.is_ended,
            }));
        }
        if !found.is_ended {
            self.number += 1;
            return Ok(Some(UnitFound {
                number,
                line,
                text: TextFound::Unended,
                is_full: false,
            }));
        }
        let read = read_text(
            &mut self.source,
            reader,
            &mut self.text_line,
            &mut self.text,
        )?;
        self.number += 1 + read.lines;
        Ok(Some(UnitFound {
            number,
            line,
            text: read.text,
            is_full: read.is_full,
        }))
    }

    /// Reads the next unit of the script, as the session says which lines ask for a text, or returns `None` at the
    /// end. After the end, and after an error, nothing is read, and the answer is `None`.
    ///
    /// A text that memory cannot keep is read to its end all the same. An error means that the reader failed, that
    /// the script is longer than the limit, or that no memory was there for a line.
    pub fn next_unit<S: Session, R: Feed>(
        &mut self,
        reader: &mut R,
    ) -> Result<Option<UnitFound>, ScriptFault>
        requires { R.has_failed reader.old ≡ false }
        ensures reads { is_over self.old ≡ false → ReadsUnit result S.asks self.old self.new
            (R.remaining reader.old) (R.remaining reader.new) (R.has_failed reader.new) }
        ensures ends { is_over self.new ≡ is_last result }
        ensures over { is_over self.old ≡ true → (result ≡ Ok None) × (self.new ≡ self.old) × (reader.new ≡ reader.old) }
        ensures within { script_taken self.new ≤ script_limit }
    {
        if self.is_over {
            return Ok(None);
        }
        let outcome = self.read_unit::<S, R>(reader);
        self.is_over = match &outcome {
            Ok(Some(unit)) => !unit.is_full,
            Ok(None) => true,
            Err(_) => true,
        };
        outcome
    }
}
