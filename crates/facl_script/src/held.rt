//! What a line is, as it was read: too long, silent, or one with words, for which each is looked at once; and a unit as
//! a session answers it: its line and its text, borrowed from what was read.
ghost use Rattle.std.specs.Prelude.{◌≡◌, ℕ, List, Option, Some};
ghost use Rattle.facl_script.specs.Held.{IsLineHeld, IsTextHeld};
ghost use Rattle.facl_script.specs.ReadText.{IsTextFound};
ghost use Rattle.facl_script.specs.Lines.{Held};
ghost use Rattle.facl_script.specs.ReadUnit.{IsLineFound};
ghost use Rattle.facl_script.specs.Units.{UnitText, within_limit};
ghost use Rattle.facl_script.specs.Words.{has_no_words as is_silent};

use crate::text::TextFound;

/// What a line is, as it was read.
#[derive(Clone, Copy, Debug, PartialEq, Eq)]
pub enum LineFound {
    /// It is over the limit.
    TooLong,
    /// It is blank or a comment.
    Silent,
    /// It has words, as far as they can be split.
    WithWords,
}

/// Tells whether a line is blank or a comment: its first byte after spaces and tabs is `#`, or there is none.
pub fn has_no_words(line: &[u8]) -> bool
    ensures { result ≡ is_silent line.now }
{
    for b in line {
        match b {
            b' ' | b'\t' => {}
            _ => return *b == b'#',
        }
    }
    true
}

impl LineFound {
    /// Classifies a line as it was read.
    pub(crate) fn of(is_too_long: bool, line: &[u8]) -> LineFound
        ensures { (text : List ℕ) → Held is_too_long line.now text → IsLineFound result line.now (within_limit text) }
    {
        if is_too_long {
            LineFound::TooLong
        } else if has_no_words(line) {
            LineFound::Silent
        } else {
            LineFound::WithWords
        }
    }
}

/// A line without its LF, and whether it has words, for which it was looked at once.
#[derive(Clone, Copy, Debug)]
pub enum HeldLine<'a> {
    /// It is over the limit.
    TooLong,
    /// It is blank or a comment.
    Silent(&'a [u8]),
    /// It is neither.
    WithWords(&'a [u8]),
}

/// The text of a unit: the lines after its line up to a line `.`, each with its LF.
#[derive(Clone, Copy, Debug)]
pub enum HeldText<'a> {
    /// The line takes no text.
    Absent,
    /// All lines up to the line `.`.
    Whole(&'a [u8]),
    /// One of the lines is over the limit.
    TooLong,
    /// The script ends before the line `.`.
    Unended,
    /// No memory was there to keep the text.
    Lost,
}

/// A line of a script with its number, and its text, if it takes one.
#[derive(Clone, Copy, Debug)]
pub struct HeldUnit<'a> {
    /// The number of its line, from 1 on; the lines of texts are counted too.
    pub number: u64,
    pub line: HeldLine<'a>,
    pub text: HeldText<'a>,
    /// Whether the LF of its last line was there. Else it ends the script.
    pub is_full: bool,
}

impl<'a> HeldLine<'a> {
    /// Makes a line of bytes within the limit.
    pub fn of(bytes: &'a [u8]) -> HeldLine<'a>
        ensures { IsLineHeld result (Some bytes.now) }
    {
        if has_no_words(bytes) {
            HeldLine::Silent(bytes)
        } else {
            HeldLine::WithWords(bytes)
        }
    }

    /// Returns the line that was found, without another look at it.
    pub(crate) fn found(found: LineFound, bytes: &'a [u8]) -> HeldLine<'a>
        ensures { (line : Option (List ℕ)) → IsLineFound found bytes.now line → IsLineHeld result line }
    {
        match found {
            LineFound::TooLong => HeldLine::TooLong,
            LineFound::Silent => HeldLine::Silent(bytes),
            LineFound::WithWords => HeldLine::WithWords(bytes),
        }
    }
}

impl<'a> HeldText<'a> {
    /// Returns the text that was found.
    pub(crate) fn found(found: TextFound, bytes: &'a [u8]) -> HeldText<'a>
        ensures held { (text : UnitText) → IsTextFound found bytes.now text → IsTextHeld result text }
        ensures lost { result ≡ HeldText.Lost → found ≡ TextFound.Lost }
    {
        match found {
            TextFound::Absent => HeldText::Absent,
            TextFound::Whole => HeldText::Whole(bytes),
            TextFound::TooLong => HeldText::TooLong,
            TextFound::Unended => HeldText::Unended,
            TextFound::Lost => HeldText::Lost,
        }
    }
}
