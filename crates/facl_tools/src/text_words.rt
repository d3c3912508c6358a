//! The words that name a text: which lines of a script ask for the lines after them, whatever memory there is; and whether
//! the words of a line fit the text that it has.
ghost use Rattle.std.specs.Prelude.{◌≡◌, ◌≤◌, ℕ, false, true, List, [], ◌∷◌, ◌++◌, MatchResult, Option, Some, count_by, map, string_bytes, take};
ghost use Rattle.std.specs.List.{list_all};
ghost use Rattle.std.specs.Option.{option_map_or};
ghost use Rattle.facl_script.specs.Commands.{is_covered};
ghost use Rattle.facl_script.specs.Held.{IsLineHeld};
ghost use Rattle.facl_script.specs.Refusals.{IsRefusal};
ghost use Rattle.facl_script.specs.Rows.{option_view, syntax_view};
ghost use Rattle.facl_script.specs.Units.{line_takes};
ghost use Rattle.facl_script.specs.Words.{words_of};
ghost use Rattle.facl_tools.specs.TextWords.{fits_text, is_named, is_text_word as is_text_spelling, line_asks, texts_given, word_asks, words_ask, words_by};
ghost use Rattle.facl_tools.specs.declared.text_words.TheConstants.{BEGINNING};

use facl_script::{
    CharAction, HeldLine, OptionRow, Place, Syntax, Words, WordsFault, is_dash, words_by_clap,
};
use std::alloc::Global;

/// Tells whether a word of a tool line names standard input as a file of entries or as a dump, as setfacl(1) spells it:
/// `-`, `-M-`, `-X-`, `--modify-file=-`, `--remove-file=-`, `--set-file=-` or `--restore=-`.
pub fn is_text_word(word: &[u8]) -> bool
    ensures { result ≡ is_text_spelling word.now }
{
    word == b"-".as_slice()
        || word == b"-M-".as_slice()
        || word == b"-X-".as_slice()
        || word == b"--modify-file=-".as_slice()
        || word == b"--remove-file=-".as_slice()
        || word == b"--set-file=-".as_slice()
        || word == b"--restore=-".as_slice()
}

/// Tells whether one word asks for a text: the first if it is `load`, a later one if it names standard input.
fn asks(is_first: bool, word: &[u8]) -> bool
    ensures { result ≡ word_asks is_first word.now }
{
    if is_first {
        word == b"load".as_slice()
    } else {
        is_text_word(word)
    }
}

/// How many bytes of a word are kept: one more than the longest word that asks for a text has.
const BEGINNING: usize = 16;

/// The first bytes of a word.
#[derive(Drop)]
struct Beginning {
    bytes: [u8; BEGINNING],
    len: usize,
    ghost within: { len ≤ BEGINNING },
}

impl Beginning {
    ghost use Rattle.facl_tools.specs.Beginning.{first_bytes};

    /// Returns no bytes.
    fn new() -> Beginning
        ensures { first_bytes result ≡ [] }
    {
        Beginning {
            bytes: [0; BEGINNING],
            len: 0,
        }
    }

    /// Adds a byte of the word, if there is room.
    fn push(&mut self, byte: u8)
        ensures { first_bytes self.new ≡ take BEGINNING (first_bytes self.old ++ byte ∷ []) }
    {
        if self.len < BEGINNING {
            self.bytes[self.len] = byte;
            self.len += 1;
        }
    }

    /// Returns the bytes.
    fn as_slice(&self) -> &[u8]
        ensures { result.now ≡ first_bytes self.now }
    {
        &self.bytes[..self.len]
    }
}

/// Tells whether one of the words of a line asks for a text: the first if it is `load`, a later one if it names standard
/// input, once quotes are taken off. None does if a quote is open.
fn words_ask(line: &[u8]) -> bool
    ensures { result ≡ option_map_or words_ask (words_of line.now) false }
{
    let mut place = Place::Between;
    let mut beginning = Beginning::new();
    let mut is_first = true;
    let mut takes = false;
    for b in line {
        match place.char_action(*b as char) {
            CharAction::Skips => {}
            CharAction::Joins => beginning.push(*b),
            CharAction::Ends => {
                takes |= asks(is_first, beginning.as_slice());
                is_first = false;
                beginning = Beginning::new();
            }
        }
        place = place.after(*b as char);
    }
    match place {
        Place::Between => takes,
        Place::Within => takes || asks(is_first, beginning.as_slice()),
        Place::Quoted => false,
    }
}

/// Tells whether a line asks for the lines after it, up to a line `.`, as its text: its first word is `load`, or a later one
/// names standard input, once quotes are taken off. No line does that is blank, a comment, or has an open quote.
pub fn asks_for_text(line: &HeldLine<'_>) -> bool
    ensures { (content : Option (List ℕ)) → IsLineHeld line.now content → result ≡ line_takes line_asks content }
{
    match line {
        HeldLine::TooLong | HeldLine::Silent(_) => false,
        HeldLine::WithWords(bytes) => words_ask(bytes),
    }
}

/// Counts the options that read a text and were given.
fn texts_given(syntax: &Syntax, found: &Words) -> usize
    ensures { result ≡ texts_given (syntax_view syntax.now) found.now }
{
    syntax
        .options
        .iter()
        .filter(|option| option.is_text && found.gives(syntax, option.id))
        .count()
}

/// Tells whether an option reads no text, is absent, or names standard input.
fn is_named(syntax: &Syntax, found: &Words, option: &OptionRow) -> bool
    ensures { result ≡ is_named (syntax_view syntax.now) found.now (option_view option.now) }
{
    if !option.is_text {
        return true;
    }
    match found.value(syntax, option.id) {
        Some(file) => is_dash(file.as_bytes()),
        None => true,
    }
}

/// Tells whether each option that reads a text is absent or names standard input.
fn are_named(syntax: &Syntax, found: &Words) -> bool
    ensures { result ≡ list_all (λ option. is_named (syntax_view syntax.now) found.now (option_view option))
        syntax.now.options.now }
{
    syntax
        .options
        .iter()
        .all(|option| is_named(syntax, found, option))
}

/// Counts the words that name standard input as a text.
fn texts_named(words: &[String]) -> usize
    ensures { result ≡ count_by is_text_spelling (map string_bytes words.now) }
{
    words
        .iter()
        .filter(|word| is_text_word(word.as_bytes()))
        .count()
}

/// Tells whether each option that reads a text and was given names standard input, and the words that do so are as many
/// as these options: at most one.
#[tactic(auto, using(crate::proofs::TextWordLemmas::all_by_rows))]
fn fits_text(syntax: &Syntax, words: &[String], found: &Words) -> bool
    ensures { result ≡ fits_text (syntax_view syntax.now) (map string_bytes words.now) found.now }
{
    let given = texts_given(syntax, found);
    are_named(syntax, found) && texts_named(words) == given && given <= 1
}

/// Reads the words of a line by the syntax of its tool: flags, options and operands.
///
/// Returns `Usage` if `clap` refuses the words by the syntax, if an option that reads a text names a file, and if the
/// words that name the lines after the line as its text are not as many as the options that read one, at most one.
/// Returns `NoMemory` only if memory runs out, and then in place of any answer.
#[tactic(auto, unfolding(crate::specs::TextWords::words_by))]
pub fn read_by(alloc: Global, syntax: &Syntax, words: &[String]) -> Result<Words, WordsFault>
    requires { is_covered (syntax_view syntax.now) ≡ true }
    ensures { MatchResult result
        (λ w. words_by (syntax_view syntax.now) (map string_bytes words.now) ≡ Some w)
        (IsRefusal (words_by (syntax_view syntax.now) (map string_bytes words.now))) }
{
    let found = words_by_clap(alloc, syntax, words)?;
    if fits_text(syntax, words, &found) {
        Ok(found)
    } else {
        Err(WordsFault::Usage)
    }
}
