//! The body of a record: its lines after the `# file:` line.

ghost use Rattle.std.specs.Prelude.{◌≡◌, ◌++◌, IfSome};
ghost use Rattle.acl_text.specs.SameBodies.{begins_one, SaysEnds, IsCut, Ends};

use crate::fields::trim_front;
use acl_names::cut::cut;

/// Whole lines, none of which begins a record.
#[derive(Clone, Copy)]
pub(crate) struct Body<'a> {
    /// The lines, each with its newline.
    pub bytes: &'a [u8],
    /// The number of the lines.
    pub lines: usize,
}

/// Tells whether a line begins a record.
fn begins_one(line: &[u8]) -> bool
    ensures { result ≡ begins_one line.now }
{
    match trim_front(line) {
        [b'#', rest @ ..] => trim_front(rest).starts_with(b"file:"),
        _ => false,
    }
}

/// Tells whether a text is empty or begins with a line that begins a record.
fn ends_record(text: &[u8]) -> bool
    ensures { SaysEnds result text.now }
{
    text.is_empty() || begins_one(text)
}

/// Returns the lines of a text before the first that begins a record, and what comes after them. `None` if one of
/// them has no newline.
pub(crate) fn first_body(text: &[u8]) -> Option<(Body, &[u8])>
    ensures { IfSome result (λ parts. IsCut text.now parts.0.bytes.now parts.0.lines parts.1.now) }
{
    let mut lines = 0;
    let mut rest = text;
    while !ends_record(rest) {
        let Some((_, after)) = cut(rest, b'\n') else {
            return None;
        };
        lines += 1;
        rest = after;
    }
    let bytes = &text[..text.len() - rest.len()];
    Some((Body { bytes, lines }, rest))
}

/// Returns what comes after a body with which a text begins. `None` if more of the text belongs to the same record.
pub(crate) fn after_body<'a>(body: &[u8], text: &'a [u8]) -> Option<&'a [u8]>
    ensures { IfSome result (λ after. (text.now ≡ body.now ++ after.now) × Ends after.now) }
{
    if !text.starts_with(body) {
        return None;
    }
    let after = &text[body.len()..];
    if ends_record(after) {
        Some(after)
    } else {
        None
    }
}
