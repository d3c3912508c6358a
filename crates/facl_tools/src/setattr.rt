//! The tool `setattr`: an extended attribute is put into a file as a list.

ghost use Rattle.std.specs.Prelude.{◌≡◌, option_map};
ghost use Rattle.facl_tools.specs.Replies.{Gives, Replies};
ghost use Rattle.facl_tools.specs.Setattr.{answered, attribute_of, bytes_of, digits_of, list_of_digits, put_of, read, rest_of};

use crate::edits::{NamedFiles, edit_files};
use crate::effect::Effect;
use crate::syntax::one;
use acl_edit::Edit;
use acl_entry::Acl;
use acl_text::{FaultKind, TextFault, Which, decode_attr};
use acl_tree::State;
use facl_output::{LineFault, Source};
use facl_script::{LineFiles, OperandRow, Syntax, WordRef, Words};
use hex::FromHexError;
use std::alloc::Global;

/// The words of the tool.
pub const SYNTAX: Syntax = Syntax {
    flags: &[],
    options: &[],
    operands: &[one!("attribute"), one!("file")],
};

/// An attribute: the list that its name means, and the hex digits of its bytes.
#[derive(Drop)]
pub struct Attribute<'a> {
    pub which: Which,
    pub digits: WordRef<'a>,
}

/// A line of `setattr`.
#[derive(Drop)]
pub struct SetattrLine<'a> {
    /// `NAME=0xHEX`.
    pub attribute: Attribute<'a>,
    /// The FILE.
    pub files: LineFiles<'a>,
}

/// Returns what follows `start` in a word that begins with it.
fn rest_of<'a>(word: &'a [u8], start: &[u8]) -> Option<&'a [u8]>
    ensures { option_map (λ rest. rest.now) result ≡ rest_of start.now word.now }
{
    if word.starts_with(start) {
        word.get(start.len()..)
    } else {
        None
    }
}

/// Returns the hex digits of a word that begins with `lower` or `upper`.
fn digits_of<'a>(word: &'a [u8], lower: &[u8], upper: &[u8]) -> Option<&'a [u8]>
    ensures { option_map (λ rest. rest.now) result ≡ digits_of lower.now upper.now word.now }
{
    match rest_of(word, lower) {
        Some(digits) => Some(digits),
        None => rest_of(word, upper),
    }
}

fn attribute_of(word: &[u8]) -> Option<Attribute<'_>>
    ensures { result ≡ attribute_of word.now }
{
    if let Some(digits) = digits_of(
        word,
        b"system.posix_acl_access=0x",
        b"system.posix_acl_access=0X",
    ) {
        return Some(Attribute {
            which: Which::Access,
            digits: WordRef::new(digits),
        });
    }
    let digits = digits_of(
        word,
        b"system.posix_acl_default=0x",
        b"system.posix_acl_default=0X",
    )?;
    Some(Attribute {
        which: Which::Default,
        digits: WordRef::new(digits),
    })
}

/// Reads the line of words. `None` if they are usage.
pub fn read(words: &Words) -> Option<SetattrLine<'_>>
    ensures { result ≡ read words.now }
{
    let syntax = &SYNTAX;
    let attribute = attribute_of(words.operand(syntax, "attribute").as_bytes())?;
    let files = words.files(syntax, "file")?;
    Some(SetattrLine { attribute, files })
}

/// Reads the bytes of hex digits. Digits that are none, and an odd number of them, are a bad attribute at 0.
fn bytes_of(alloc: Global, digits: &[u8]) -> Result<Vec<u8>, LineFault>
    ensures { Gives (λ bytes. bytes.items) result (bytes_of digits.now) }
{
    match hex::decode(alloc, digits) {
        Ok(bytes) => Ok(bytes),
        Err(FromHexError::OutOfMemory) => Err(LineFault::NoMemory),
        Err(_) => Err(LineFault::Text(
            Source::AttributeEntry,
            TextFault {
                kind: FaultKind::BadAttr,
                at: 0,
            },
        )),
    }
}

fn list_of_digits(alloc: Global, digits: &[u8]) -> Result<Acl, LineFault>
    ensures { Gives (λ acl. acl) result (list_of_digits digits.now) }
{
    let bytes = bytes_of(alloc, digits)?;
    match decode_attr(alloc, &bytes) {
        Ok(acl) => Ok(acl),
        Err(fault) => Err(LineFault::of_text(Source::AttributeEntry, fault)),
    }
}

fn put_of(which: Which, acl: Acl) -> Edit
    ensures { result ≡ put_of which acl }
{
    match which {
        Which::Access => Edit::Put {
            access: Some(acl),
            dacl: None,
        },
        Which::Default => Edit::Put {
            access: None,
            dacl: Some(acl),
        },
    }
}

/// Puts an attribute into a file.
pub fn answer(alloc: Global, state: &State, line: SetattrLine<'_>) -> Result<Effect, LineFault>
    ensures { Replies state.now result (answered state.now line.entry) }
{
    let acl = list_of_digits(alloc, line.attribute.digits.as_bytes())?;
    let edit = put_of(line.attribute.which, acl);
    let files = NamedFiles {
        words: line.files.as_slice(),
        recursive: false,
    };
    edit_files(alloc, state, &files, edit)
}
