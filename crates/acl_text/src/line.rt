//! The lines of a dump.

ghost use Rattle.std.specs.Prelude.{◌≡◌};
ghost use Rattle.acl_text.specs.Lines.{without_space, header_of, content_of};

use crate::entries::{Sep, content};
use crate::fields::{trim, trim_front};

/// What a line of a dump is.
#[derive(Clone, Copy)]
pub(crate) enum LineKind {
    /// An empty line or a comment.
    Nothing,
    /// `# file:`, which begins a record.
    File,
    /// `# owner:`
    Owner,
    /// `# group:`
    OwningGroup,
    /// `# flags:`
    Flags,
    /// An entry of one of the record's lists.
    Entry,
}

/// Returns the value without one space in front.
fn without_space(value: &[u8]) -> &[u8]
    ensures { result.now ≡ without_space value.now }
{
    match value {
        [b' ', rest @ ..] => rest,
        _ => value,
    }
}

/// Returns what follows `#` and white space: a header with its value, or a comment.
#[inline(always)]
fn header_of(text: &[u8]) -> (LineKind, &[u8])
    ensures { (result.0, result.1.now) ≡ header_of text.now }
{
    if text.starts_with(b"file:") {
        (LineKind::File, without_space(&text[5..]))
    } else if text.starts_with(b"owner:") {
        (LineKind::Owner, trim(&text[6..]))
    } else if text.starts_with(b"group:") {
        (LineKind::OwningGroup, trim(&text[6..]))
    } else if text.starts_with(b"flags:") {
        (LineKind::Flags, trim(&text[6..]))
    } else {
        (LineKind::Nothing, &[])
    }
}

/// Returns what a line is, and its value: that of a header, or the entry without its comment.
#[inline(always)]
pub(crate) fn content_of(line: &[u8]) -> (LineKind, &[u8])
    ensures { (result.0, result.1.now) ≡ content_of line.now }
{
    match trim_front(line) {
        [] => (LineKind::Nothing, &[]),
        [b'#', rest @ ..] => header_of(trim_front(rest)),
        entry => (LineKind::Entry, content(Sep::Line, entry)),
    }
}
