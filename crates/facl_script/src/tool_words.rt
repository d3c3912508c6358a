//! The words of a line, by their kinds: which flags and options were given, and the operands; each by its name in a syntax.

ghost use Rattle.std.specs.Prelude.{◌≡◌, [], IfOk, None, drop, false, map, position};
ghost use Rattle.std.specs.List.{slice_index_or};
ghost use Rattle.facl_script.specs.Forms.{file_of, files_of};
ghost use Rattle.facl_script.specs.Naming.{gives, has, operand, operands_from, value, place};
ghost use Rattle.facl_script.specs.Rows.{syntax_view, operand_view, option_view};
ghost use Rattle.std.specs.Str.{bytes_eq};

use crate::reading::{LineFiles, WordRef};
use crate::syntax::{OperandRow, OptionRow, Syntax};
use std::alloc::{AllocError, Global};
use std::marker::Model;

/// A word of a line.
#[derive(Debug, Drop)]
pub struct Word {
    text: String,
}

impl Model for Word {
    ghost use Rattle.std.specs.Prelude.{List, ℕ, string_bytes};

    ghost Value = { List ℕ };

    ghost view = { λ w. string_bytes w.text };
}

impl Word {
    /// Copies a text into a word.
    pub fn new(alloc: Global, text: &str) -> Result<Word, AllocError>
        ensures { IfOk result (λ w. w ≡ text.now) }
    {
        Ok(Word {
            text: String::from_str(alloc, text)?,
        })
    }

    /// Returns the word as text.
    pub fn as_str(&self) -> &str
        ensures { result.now ≡ self.now }
    {
        self.text.as_str()
    }

    /// Returns the word's bytes.
    pub fn as_bytes(&self) -> &[u8]
        ensures { result.now ≡ self.now }
    {
        self.text.as_bytes()
    }
}

/// Which flags were given, in the order of the syntax.
#[derive(Drop)]
pub struct Flags {
    items: Vec<bool>,
}

impl Model for Flags {
    ghost use Rattle.std.specs.Prelude.{List, Bool};

    ghost Value = { List Bool };

    ghost view = { λ f. f.items.items };
}

impl Flags {
    /// Returns the flags of a line: one for each flag of its syntax, in that order.
    pub fn new(items: Vec<bool>) -> Flags
        ensures { result ≡ items.items }
    {
        Flags { items }
    }

    /// Tells whether the flag at a place was given. `false` if the syntax has no flag there.
    pub fn get(&self, place: usize) -> bool
        ensures { result ≡ slice_index_or self.now place false }
    {
        self.items.get(place).copied().unwrap_or(false)
    }
}

/// The values of the options, in the order of the syntax; `None` for an absent option without a fallback.
#[derive(Drop)]
pub struct Values {
    items: Vec<Option<Word>>,
}

impl Model for Values {
    ghost use Rattle.std.specs.Prelude.{List, Option, ℕ};

    ghost Value = { List (Option (List ℕ)) };

    ghost view = { λ v. v.items.items };
}

impl Values {
    /// Returns the values of a line: one for each option of its syntax, in that order.
    pub fn new(items: Vec<Option<Word>>) -> Values
        ensures { result ≡ items.items }
    {
        Values { items }
    }

    /// Returns the value of the option at a place. `None` if it has none, or the syntax has no option there.
    pub fn get(&self, place: usize) -> Option<WordRef<'_>>
        ensures { result ≡ slice_index_or self.now place None }
    {
        match self.items.get(place) {
            Some(Some(word)) => Some(WordRef::new(word.as_bytes())),
            _ => None,
        }
    }
}

/// The operands, in the order in which they were given.
#[derive(Drop)]
pub struct Operands {
    items: Vec<Word>,
}

impl Model for Operands {
    ghost use Rattle.std.specs.Prelude.{List, ℕ};

    ghost Value = { List (List ℕ) };

    ghost view = { λ o. o.items.items };
}

impl Operands {
    /// Returns the operands of a line.
    pub fn new(items: Vec<Word>) -> Operands
        ensures { result ≡ items.items }
    {
        Operands { items }
    }

    /// Returns all operands.
    pub fn as_slice(&self) -> &[Word]
        ensures { result.now ≡ self.now }
    {
        self.items.as_slice()
    }

    /// Returns the operand at a place, and an empty text if there is none.
    pub fn get(&self, place: usize) -> WordRef<'_>
        ensures { result ≡ slice_index_or self.now place [] }
    {
        match self.items.get(place) {
            Some(word) => WordRef::new(word.as_bytes()),
            None => WordRef::new(b""),
        }
    }

    /// Returns the operands from a place on: an empty slice if there is no such place.
    pub fn starting_at(&self, place: usize) -> &[Word]
        ensures { result.now ≡ drop place self.now }
    {
        match self.items.get(place..) {
            Some(words) => words,
            None => &[],
        }
    }
}

/// The words of a line, each kind in the order of its syntax.
#[derive(Drop)]
pub struct Words {
    /// One for each flag of the syntax.
    pub flags: Flags,
    /// One for each option of the syntax.
    pub values: Values,
    /// All that were given.
    pub operands: Operands,
}

impl Words {
    /// Tells whether the flag of this name was given, in a line of `syntax`.
    pub fn has(&self, syntax: &Syntax, name: &str) -> bool
        ensures { result ≡ has (syntax_view syntax.now) self.now name.now }
    {
        self.flags.get(option_place(syntax.flags, name))
    }

    /// Returns the value of the option of this name: its fallback if it is absent; `None` if it has none.
    pub fn value(&self, syntax: &Syntax, name: &str) -> Option<WordRef<'_>>
        ensures { result ≡ value (syntax_view syntax.now) self.now name.now }
    {
        self.values.get(option_place(syntax.options, name))
    }

    /// Tells whether the option of this name has a value: it was given, or has a fallback.
    pub fn gives(&self, syntax: &Syntax, name: &str) -> bool
        ensures { result ≡ gives (syntax_view syntax.now) self.now name.now }
    {
        self.value(syntax, name).is_some()
    }

    /// Returns the operand of this name. Empty if it is absent.
    pub fn operand(&self, syntax: &Syntax, name: &str) -> WordRef<'_>
        ensures { result ≡ operand (syntax_view syntax.now) self.now name.now }
    {
        self.operands.get(operand_place(syntax.operands, name))
    }

    /// Returns the operands from the one of this name on.
    pub fn operands_from(&self, syntax: &Syntax, name: &str) -> &[Word]
        ensures { result.now ≡ operands_from (syntax_view syntax.now) self.now name.now }
    {
        self.operands
            .starting_at(operand_place(syntax.operands, name))
    }

    /// Returns the operand of this name as a FILE. `None` if it is `-`.
    pub fn file(&self, syntax: &Syntax, name: &str) -> Option<WordRef<'_>>
        ensures { result ≡ file_of (operand (syntax_view syntax.now) self.now name.now) }
    {
        self.operand(syntax, name).file()
    }

    /// Returns the operands from the one of this name on, as FILEs. `None` if there are none, or one is `-`.
    pub fn files(&self, syntax: &Syntax, name: &str) -> Option<LineFiles<'_>>
        ensures { result ≡ files_of (operands_from (syntax_view syntax.now) self.now name.now) }
    {
        LineFiles::of(self.operands_from(syntax, name))
    }
}

/// Returns the place of a flag, or of an option, among its rows, by its name.
fn find_option(rows: &[OptionRow], name: &str) -> Option<usize>
    ensures { result ≡ position (λ row. bytes_eq row.id.now name.now) rows.now }
{
    rows.iter().position(|row| row.id == name)
}

/// Returns the place of an operand among its rows, by its name.
fn find_operand(rows: &[OperandRow], name: &str) -> Option<usize>
    ensures { result ≡ position (λ row. bytes_eq row.id.now name.now) rows.now }
{
    rows.iter().position(|row| row.id == name)
}

/// Returns the place of a flag or of an option, or how many there are if it is none of them.
pub(crate) fn option_place(rows: &[OptionRow], name: &str) -> usize
    ensures { result ≡ place name.now (map (λ s. s.id) (map option_view rows.now)) }
{
    find_option(rows, name).unwrap_or(rows.len())
}

/// Returns the place of an operand, or how many there are if it is none of them.
pub(crate) fn operand_place(rows: &[OperandRow], name: &str) -> usize
    ensures { result ≡ place name.now (map (λ o. o.id) (map operand_view rows.now)) }
{
    find_operand(rows, name).unwrap_or(rows.len())
}
