//! The words of a line, and what each of its characters does at its place.

ghost use Rattle.std.specs.Prelude.{◌≡◌, ◌⊎◌, map, string_bytes, None, Some, MatchResult, Ok, Err};
ghost use Rattle.facl_script.specs.Words.{split_line, words_of};
ghost use Rattle.facl_script.specs.Steps.{action_of, place_after};

use std::alloc::{AllocError, AllocFailed, Global};

/// What is wrong with a line as such, before any tool looks at its words.
#[derive(Clone, Copy, Debug, PartialEq, Eq)]
pub enum SplitFault {
    /// The line is not UTF-8.
    NotUtf8,
    /// A quote has no end.
    OpenQuote,
    /// No memory for the words.
    NoMemory,
}

impl From<AllocError> for SplitFault {
    ghost use Rattle.facl_script.specs.declared.words.SplitFault.TheVariants.{NoMemory};

    ghost from_gives = { λ _ e. e ≡ NoMemory };

    fn from(_e: AllocError) -> SplitFault {
        SplitFault::NoMemory
    }
}

impl<T: Drop> From<AllocFailed<T>> for SplitFault {
    ghost use Rattle.facl_script.specs.declared.words.SplitFault.TheVariants.{NoMemory};

    ghost from_gives = { λ _ e. e ≡ NoMemory };

    fn from(_e: AllocFailed<T>) -> SplitFault {
        SplitFault::NoMemory
    }
}

/// Splits a text into words, without their quotes.
fn split_text(alloc: Global, text: &str) -> Result<Vec<String>, SplitFault>
    ensures { MatchResult result
        (λ words. words_of text.now ≡ Some (map string_bytes words.items))
        (λ fault. (fault ≡ SplitFault.NoMemory) ⊎ ((fault ≡ SplitFault.OpenQuote) × (words_of text.now ≡ None))) }
{
    let mut words = Vec::new(alloc);
    let mut word = String::new(alloc);
    let mut place = Place::Between;
    for c in text.chars() {
        match place.char_action(c) {
            CharAction::Skips => {}
            CharAction::Joins => word.push(c)?,
            CharAction::Ends => {
                words.push(word)?;
                word = String::new(alloc);
            }
        }
        place = place.after(c);
    }
    match place {
        Place::Between => Ok(words),
        Place::Within => {
            words.push(word)?;
            Ok(words)
        }
        Place::Quoted => Err(SplitFault::OpenQuote),
    }
}

/// Splits a line that is neither blank nor a comment into words, at spaces and tabs. From `'` to the next `'` all
/// characters are kept as they are, inside a word too, and `''` is an empty word.
pub fn split_words(alloc: Global, line: &[u8]) -> Result<Vec<String>, SplitFault>
    ensures { MatchResult result
        (λ words. split_line line.now ≡ Ok (map string_bytes words.items))
        (λ fault. (fault ≡ SplitFault.NoMemory) ⊎ (split_line line.now ≡ Err fault)) }
{
    match str::from_utf8(line) {
        Ok(text) => split_text(alloc, text),
        Err(_) => Err(SplitFault::NotUtf8),
    }
}

/// Where in a line a character is.
#[derive(Clone, Copy)]
pub enum Place {
    /// Before a word, or after one.
    Between,
    /// In a word, and in no quote.
    Within,
    /// In a quote, which is part of a word.
    Quoted,
}

/// What a character does to the word that is being read.
#[derive(Clone, Copy)]
pub enum CharAction {
    /// It is white space between words, or a quote.
    Skips,
    /// It belongs to the word.
    Joins,
    /// It ends the word.
    Ends,
}

impl Place {
    /// Returns what a character does to the word.
    pub fn char_action(self, c: char) -> CharAction
        ensures { result ≡ action_of self c }
    {
        match (self, c) {
            (Place::Between, ' ' | '\t') | (_, '\'') => CharAction::Skips,
            (Place::Within, ' ' | '\t') => CharAction::Ends,
            _ => CharAction::Joins,
        }
    }

    /// Returns where the next character is.
    pub fn after(self, c: char) -> Place
        ensures { result ≡ place_after self c }
    {
        match (self, c) {
            (Place::Between | Place::Within, ' ' | '\t') => Place::Between,
            (Place::Between | Place::Within, '\'') => Place::Quoted,
            (Place::Quoted, '\'') | (Place::Between | Place::Within, _) => Place::Within,
            (Place::Quoted, _) => Place::Quoted,
        }
    }
}
