//! Reads a line's words by a syntax, from what `clap` found; and borrows them.

ghost use Rattle.std.specs.Prelude.{◌≡◌, ◌++◌, [], IfOk, MatchResult, OnOk, Some, map, string_bytes, true, unwrap_or};
ghost use Rattle.std.specs.List.{list_any};
ghost use Rattle.clap.specs.Words.{all_of, first_of, found_of, rows_of};
ghost use Rattle.facl_script.specs.Rows.{syntax_view, option_view};
ghost use Rattle.facl_script.specs.Commands.{is_covered, is_on, value_or};
ghost use Rattle.facl_script.specs.Refusals.{IsRefusal};
ghost use Rattle.facl_script.specs.ToolWords.{words_in, words_read};
ghost use Rattle.facl_script.specs.Forms.{file_of, files_of, is_dash as names_input};

use crate::commands::matches_for;
use crate::syntax::{OptionRow, Syntax};
use crate::tool_fault::WordsFault;
use crate::tool_words::{Flags, Operands, Values, Word, Words};
use clap::ArgMatches;
use std::alloc::{AllocError, Global};
use std::marker::Model;

/// Tells whether `clap` found a flag.
fn is_flag_on(matches: &ArgMatches<'_>, id: &str) -> bool
    ensures { result ≡ is_on id.now (rows_of (found_of matches.now)) }
{
    match matches.get_str(id) {
        Some(value) => value == "true",
        None => false,
    }
}

/// Returns the value of an option: what `clap` found, or else its fallback; `None` if it has none.
fn option_value(
    alloc: Global,
    row: &OptionRow,
    matches: &ArgMatches<'_>,
) -> Result<Option<Word>, AllocError>
    ensures { IfOk result (λ v. v ≡ value_or (option_view row.now).fallback
        (first_of (option_view row.now).id (rows_of (found_of matches.now)))) }
{
    match matches.get_str(row.id) {
        Some(text) => Ok(Some(Word::new(alloc, text)?)),
        None => match row.fallback {
            Some(text) => Ok(Some(Word::new(alloc, text)?)),
            None => Ok(None),
        },
    }
}

/// Appends the words of an operand.
fn push_operand(
    alloc: Global,
    items: &mut Vec<Word>,
    id: &str,
    matches: &ArgMatches<'_>,
) -> Result<(), AllocError>
    ensures { OnOk result (items.new.items
        ≡ items.old.items ++ unwrap_or (all_of id.now (rows_of (found_of matches.now))) []) }
{
    if let Some(texts) = matches.get_raw(id) {
        for text in texts {
            items.push(Word::new(alloc, text)?)?;
        }
    }
    Ok(())
}

/// Returns what `clap` found of the flags, options and operands of the syntax, in their orders.
fn words_found(
    alloc: Global,
    syntax: &Syntax,
    matches: &ArgMatches<'_>,
) -> Result<Words, AllocError>
    ensures { IfOk result (λ w. w ≡ words_in (syntax_view syntax.now) (rows_of (found_of matches.now))) }
{
    let mut flags = Vec::new(alloc);
    for flag in syntax.flags {
        flags.push(is_flag_on(matches, flag.id))?;
    }
    let mut values = Vec::new(alloc);
    for option in syntax.options {
        values.push(option_value(alloc, option, matches)?)?;
    }
    let mut operands = Vec::new(alloc);
    for operand in syntax.operands {
        push_operand(alloc, &mut operands, operand.id, matches)?;
    }
    Ok(Words {
        flags: Flags::new(flags),
        values: Values::new(values),
        operands: Operands::new(operands),
    })
}

/// Reads the words of a line as `clap` does, by a syntax: flags, options and operands.
///
/// Returns `Usage` if `clap` refuses the words by the syntax. Returns `NoMemory` only if memory runs out, and then in
/// place of any answer.
pub fn words_by_clap(alloc: Global, syntax: &Syntax, words: &[String]) -> Result<Words, WordsFault>
    requires { is_covered (syntax_view syntax.now) ≡ true }
    ensures { MatchResult result
        (λ w. words_read (syntax_view syntax.now) (map string_bytes words.now) ≡ Some w)
        (IsRefusal (words_read (syntax_view syntax.now) (map string_bytes words.now))) }
{
    let matches = matches_for(alloc, syntax, words)?;
    let found = words_found(alloc, syntax, &matches);
    drop(matches);
    Ok(found?)
}

/// Tells whether a word is `-`, which names standard input and no file.
pub fn is_dash(word: &[u8]) -> bool
    ensures { result ≡ names_input word.now }
{
    word == b"-".as_slice()
}

/// A word of a line, borrowed.
#[derive(Debug, Drop)]
pub struct WordRef<'a> {
    bytes: &'a [u8],
}

impl<'a> Model for WordRef<'a> {
    ghost use Rattle.std.specs.Prelude.{List, ℕ};

    ghost Value = { List ℕ };

    ghost view = { λ w. w.bytes.now };
}

impl<'a> WordRef<'a> {
    /// Returns the word with these bytes.
    pub fn new(bytes: &'a [u8]) -> WordRef<'a>
        ensures { result ≡ bytes.now }
    {
        WordRef { bytes }
    }

    /// Returns the word's bytes.
    pub fn as_bytes(&self) -> &'a [u8]
        ensures { result.now ≡ self.now }
    {
        self.bytes
    }

    /// Returns the word as a FILE. `None` if it is `-`, which names no file.
    pub fn file(self) -> Option<WordRef<'a>>
        ensures { result ≡ file_of self.entry }
    {
        if is_dash(self.bytes) {
            None
        } else {
            Some(self)
        }
    }
}

/// Tells whether one of the words is `-`.
fn have_dash(words: &[Word]) -> bool
    ensures { result ≡ list_any names_input words.now }
{
    words.iter().any(|word| is_dash(word.as_bytes()))
}

/// FILEs that a line gives, borrowed: at least one, and none is `-`.
#[derive(Debug, Drop)]
pub struct LineFiles<'a> {
    words: &'a [Word],
}

impl<'a> Model for LineFiles<'a> {
    ghost use Rattle.std.specs.Prelude.{List, ℕ};

    ghost Value = { List (List ℕ) };

    ghost view = { λ f. f.words.now };
}

impl<'a> LineFiles<'a> {
    /// Returns the FILEs of words. `None` if there is no word, or one is `-`.
    pub fn of(words: &'a [Word]) -> Option<LineFiles<'a>>
        ensures { result ≡ files_of words.now }
    {
        if words.is_empty() || have_dash(words) {
            None
        } else {
            Some(LineFiles { words })
        }
    }

    /// Returns their words.
    pub fn as_slice(&self) -> &'a [Word]
        ensures { result.now ≡ self.now }
    {
        self.words
    }
}
