//! The text of a unit: the lines up to a line `.`.
ghost use Rattle.std.specs.Prelude.{◌≡◌, ◌≤◌, ◌+◌, ℕ, List, ◌++◌, false, take, length, Option, option_map};
ghost use Rattle.facl_script.specs.ByteSource.{pending, taken_count};
ghost use Rattle.facl_script.specs.Units.{is_end as ends_text, more_text};
ghost use Rattle.facl_script.specs.Limits.{line_limit};
ghost use Rattle.facl_script.specs.Lines.{Held};
ghost use Rattle.facl_script.specs.Pieces.{line_feeds};
ghost use Rattle.facl_script.specs.ReadText.{HoldsText, IsTextPart, TakesLines, ReadsText};

use crate::devices::Feed;
use crate::fault::ScriptFault;
use crate::source::ByteSource;
use memchr::arch::all::is_prefix;
use memchr::{memchr_iter, memmem, memrchr};

/// What is held of the text of a unit.
#[derive(Clone, Copy, Debug, PartialEq, Eq)]
pub enum TextFound {
    /// The line takes no text.
    Absent,
    /// All lines up to the line `.`.
    Whole,
    /// One of the lines is over the limit.
    TooLong,
    /// The script ends before the line `.`.
    Unended,
    /// No memory was there to keep the text, which was read to its end all the same.
    Lost,
}

/// A text that was read to its end.
#[derive(Clone, Copy)]
pub(crate) struct TextRead {
    pub(crate) lines: u64,
    pub(crate) text: TextFound,
    pub(crate) is_full: bool,
}

/// Tells whether the line that is held ends a text: it is `.`.
fn ends_here(is_too_long: bool, line: &[u8]) -> bool
    ensures { (text : List ℕ) → Held is_too_long line.now text → result ≡ ends_text text }
{
    match line {
        [only] => !is_too_long && *only == b'.',
        _ => false,
    }
}

/// Adds a line to what is kept of a text, and returns what is kept by now.
fn keep(text: &mut Vec<u8>, held: TextFound, is_too_long: bool, line: &[u8]) -> TextFound
    ensures { (content : Option (List ℕ)) (t : List ℕ)
        → HoldsText held text.old.items content → Held is_too_long line.now t
        → HoldsText result text.new.items (more_text content t) }
{
    match held {
        TextFound::Whole if is_too_long => TextFound::TooLong,
        TextFound::Whole => {
            if text.extend_from_slice(line).is_ok() && text.push(b'\n').is_ok() {
                TextFound::Whole
            } else {
                TextFound::Lost
            }
        }
        _ => held,
    }
}

fn line_feeds(bytes: &[u8]) -> usize
    ensures { result ≡ line_feeds bytes.now }
{
    memchr_iter(b'\n', bytes).count()
}

/// Returns how far whole lines go of which none ends a text: up to the first line `.`, or else to the last LF. No line
/// of a piece is over the limit.
fn end_of_lines(piece: &[u8]) -> usize
    requires { length piece.now ≤ line_limit }
    ensures within { result ≤ length piece.now }
    ensures part { IsTextPart (take result piece.now) (line_feeds (take result piece.now)) }
{
    if is_prefix(piece, b".\n") {
        return 0;
    }
    if let Some(at) = memmem::find(piece, b"\n.\n") {
        return at + 1;
    }
    match memrchr(b'\n', piece) {
        Some(at) => at + 1,
        None => 0,
    }
}

/// Adds lines to what is kept of a text, and returns what is kept by now.
fn keep_part(text: &mut Vec<u8>, held: TextFound, part: &[u8]) -> TextFound
    ensures { (content : Option (List ℕ)) → HoldsText held text.old.items content
        → HoldsText result text.new.items (option_map (λ t. t ++ part.now) content) }
{
    match held {
        TextFound::Whole => match text.extend_from_slice(part) {
            Ok(()) => TextFound::Whole,
            Err(_) => TextFound::Lost,
        },
        _ => held,
    }
}

/// Takes the whole lines that were read already, up to one that ends the text: returns how many they are, and what is
/// kept by now.
fn take_lines(source: &mut ByteSource, text: &mut Vec<u8>, held: TextFound) -> (u64, TextFound)
    ensures { TakesLines result.0 held result.1 text.old.items text.new.items source.old source.new }
{
    let end = end_of_lines(source.pending());
    let part = &source.pending()[..end];
    let lines = line_feeds(part) as u64;
    let held = keep_part(text, held, part);
    source.skip(end);
    (lines, held)
}

/// Reads a text to its end, line by line, and keeps it if it can.
pub(crate) fn read_text<R: Feed>(
    source: &mut ByteSource,
    reader: &mut R,
    line: &mut Vec<u8>,
    text: &mut Vec<u8>,
) -> Result<TextRead, ScriptFault>
    requires { R.has_failed reader.old ≡ false }
    ensures reads { ReadsText result text.new.items source.old source.new
        (R.remaining reader.old) (R.remaining reader.new) (R.has_failed reader.new) }
    ensures grows { taken_count source.old ≤ taken_count source.new }
{
    text.clear();
    let mut lines: u64 = 0;
    let mut held = TextFound::Whole;
    while let Some(found) = source.next_line(reader, line)? {
        lines += 1;
        if ends_here(found.is_too_long, line) {
            return Ok(TextRead {
                lines,
                text: held,
                is_full: found.is_ended,
            });
        }
        if !found.is_ended {
            return Ok(TextRead {
                lines,
                text: TextFound::Unended,
                is_full: false,
            });
        }
        held = keep(text, held, found.is_too_long, line);
        let (more, now) = take_lines(source, text, held);
        lines += more;
        held = now;
    }
    Ok(TextRead {
        lines,
        text: TextFound::Unended,
        is_full: false,
    })
}
