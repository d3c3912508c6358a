//! Entries of lists as they are written (setfacl(1), "ACL entries"), and reading them.

ghost use Rattle.std.specs.Prelude.{◌≡◌};
ghost use Rattle.acl_text.specs.Entries.{rules_of, separator, given_perms, wanted_perms, key_of, entry_of, content, one_more, entries_of};
ghost use Rattle.std.specs.Option.{option_copied};
ghost use Rattle.acl_text.specs.InTurn.{Gives, GivesAt, JudgesAt};

use crate::fault::{FaultKind, TextFault};
use crate::fields::{Tag, perms_of, row_of, split_default, trim};
use crate::naming::{Names, read_group_word, read_user_word};
use acl_entry::{Key, Perm};
use acl_names::cut::{find, first_piece};
use std::alloc::Global;

/// What is between entries.
#[derive(Clone, Copy, PartialEq, Eq)]
pub enum Sep {
    /// Commas; `#` has no meaning.
    Comma,
    /// Line feeds; `#` and what follows in its line is a comment.
    Line,
}

/// What a text of entries is for.
#[derive(Clone, Copy, PartialEq, Eq)]
pub enum Want {
    /// Entries with permissions, `X` among them; default entries too.
    WithPerms,
    /// Entries without permissions, of named users and groups and the mask alone; default entries too.
    WithoutPerms,
    /// Entries of one list with permissions, without `X`, and no default entries.
    Plain,
}

/// Permissions as they are written.
#[derive(Clone, Copy, PartialEq, Eq)]
pub struct PermSpec {
    /// Those that are given in any case.
    pub fixed: Perm,
    /// Whether `X` is among them: execute if the file is a directory or someone may execute it.
    pub cond_x: bool,
}

/// An entry as it is written.
#[derive(Clone, Copy, PartialEq, Eq)]
pub struct Spec {
    /// The entry's or the line's number, counted from 1, empty ones too.
    pub at: usize,
    /// Whether it is an entry of the default list.
    pub dflt: bool,
    pub key: Key,
    /// `None` if the entry has no permissions field, or an empty one among entries without permissions.
    pub perm: Option<PermSpec>,
}

/// What a use of an entry text takes.
#[derive(Clone, Copy)]
pub struct Rules {
    /// Default entries.
    pub takes_default: bool,
    /// Permissions, which each entry then has; else no entry has them, and base entries are refused.
    pub takes_perms: bool,
    /// `X` among permissions.
    pub takes_x: bool,
}

/// Returns the rules that a use has for its entries.
pub(crate) fn rules_of(want: Want) -> Rules
    ensures { result ≡ rules_of want }
{
    match want {
        Want::WithPerms => Rules {
            takes_default: true,
            takes_perms: true,
            takes_x: true,
        },
        Want::WithoutPerms => Rules {
            takes_default: true,
            takes_perms: false,
            takes_x: false,
        },
        Want::Plain => Rules {
            takes_default: false,
            takes_perms: true,
            takes_x: false,
        },
    }
}

/// Returns the byte between two entries.
pub(crate) fn separator(sep: Sep) -> u8
    ensures { result ≡ separator sep }
{
    match sep {
        Sep::Comma => b',',
        Sep::Line => b'\n',
    }
}

/// The most entries of one text, empty ones not counted.
const MAX_TEXT_ENTRIES: usize = 16384;

/// Reads the permissions of a field that has to be there.
fn given_perms(takes_x: bool, field: Option<&[u8]>) -> Result<Option<PermSpec>, FaultKind>
    ensures { result ≡ given_perms takes_x (option_copied field.entry) }
{
    match field {
        None => Err(FaultKind::MissingPerms),
        Some(field) => match perms_of(takes_x, field) {
            None => Err(FaultKind::BadPerms),
            Some(perms) => Ok(Some(perms)),
        },
    }
}

/// Reads the permissions of a field by the rules of the use. If they have none, the field is absent or empty.
fn wanted_perms(rules: Rules, field: Option<&[u8]>) -> Result<Option<PermSpec>, FaultKind>
    ensures { result ≡ wanted_perms rules (option_copied field.entry) }
{
    if rules.takes_perms {
        return given_perms(rules.takes_x, field);
    }
    match field {
        None => Ok(None),
        Some(field) if field.is_empty() => Ok(None),
        Some(_) => Err(FaultKind::UnwantedPerms),
    }
}

/// Returns the key of a tag and a name.
fn key_of<N: Names>(
    alloc: Global,
    names: &N,
    at: usize,
    tag: Tag,
    word: &[u8],
) -> Result<Key, TextFault>
    ensures { GivesAt at (λ key. key) result (key_of (N.naming names.now) tag word.now) }
{
    match tag {
        Tag::User if word.is_empty() => Ok(Key::Owner),
        Tag::Group if word.is_empty() => Ok(Key::OwningGroup),
        Tag::User => match read_user_word(alloc, word, names)? {
            Some(id) => Ok(Key::User(id)),
            None => Err(TextFault {
                kind: FaultKind::UnknownUser,
                at,
            }),
        },
        Tag::Group => match read_group_word(alloc, word, names)? {
            Some(id) => Ok(Key::Group(id)),
            None => Err(TextFault {
                kind: FaultKind::UnknownGroup,
                at,
            }),
        },
        Tag::Mask => Ok(Key::Mask),
        Tag::Other => Ok(Key::Other),
    }
}

/// Returns the entry of a piece of text that is not empty and has no comment, by the rules of its use. Of several
/// faults the first of `BadTag`, `MissingPerms`, `UnwantedPerms`, `BadPerms`, `UnknownUser`, `UnknownGroup` and
/// `BaseEntry` is returned, at this place.
pub fn entry_of<N: Names>(
    alloc: Global,
    names: &N,
    rules: Rules,
    at: usize,
    entry: &[u8],
) -> Result<Spec, TextFault>
    ensures { GivesAt at (λ spec. spec) result (entry_of (N.naming names.now) rules at entry.now) }
{
    let (dflt, fields) = split_default(entry);
    if dflt && !rules.takes_default {
        return Err(TextFault {
            kind: FaultKind::BadTag,
            at,
        });
    }
    let Some(row) = row_of(fields) else {
        return Err(TextFault {
            kind: FaultKind::BadTag,
            at,
        });
    };
    let perm = match wanted_perms(rules, row.perms) {
        Ok(perm) => perm,
        Err(kind) => return Err(TextFault { kind, at }),
    };
    let key = key_of(alloc, names, at, row.tag, row.word)?;
    if !rules.takes_perms && key.is_base() {
        return Err(TextFault {
            kind: FaultKind::BaseEntry,
            at,
        });
    }
    Ok(Spec {
        at,
        dflt,
        key,
        perm,
    })
}

/// Returns a piece without its comment.
pub fn content(sep: Sep, piece: &[u8]) -> &[u8]
    ensures { result.now ≡ content sep piece.now }
{
    match sep {
        Sep::Comma => piece,
        Sep::Line => match find(piece, b'#') {
            Some(i) => &piece[..i],
            None => piece,
        },
    }
}

/// Adds the spec of a piece with its place, unless the piece is white space alone.
fn read_piece<N: Names>(
    names: &N,
    sep: Sep,
    rules: Rules,
    specs: &mut Vec<Spec>,
    piece: (usize, &[u8]),
) -> Result<(), TextFault>
    ensures { JudgesAt piece.entry.0 result specs.new.items (one_more (N.naming names.now) sep rules piece.entry.0 specs.old.items piece.entry.1.now) }
{
    let (at, text) = piece;
    let entry = content(sep, text);
    if trim(entry).is_empty() {
        return Ok(());
    }
    let spec = entry_of(*specs.allocator(), names, rules, at, entry)?;
    if specs.len() >= MAX_TEXT_ENTRIES {
        return Err(TextFault {
            kind: FaultKind::TooMany,
            at,
        });
    }
    specs.push(spec)?;
    Ok(())
}

/// Returns the entries of a text, without the empty ones. An entry is `[d[efault]:]TAG:WORD:PERMISSIONS` in the forms
/// of setfacl(1); entries and lines count from 1, empty ones too. The fault of the first faulty entry is returned,
/// and of several faults in it the first of: `BadTag`, `MissingPerms`, `UnwantedPerms`, `BadPerms`, `UnknownUser`,
/// `UnknownGroup`, `BaseEntry`, and `TooMany` beyond `MAX_TEXT_ENTRIES` entries.
pub fn read_entries<N: Names>(
    alloc: Global,
    bytes: &[u8],
    sep: Sep,
    want: Want,
    names: &N,
) -> Result<Vec<Spec>, TextFault>
    ensures { Gives (λ specs. specs.items) result (entries_of (N.naming names.now) sep want bytes.now) }
{
    let rules = rules_of(want);
    let mut specs = Vec::new(alloc);
    let mut rest = bytes;
    let mut at = 0;
    while !rest.is_empty() {
        at += 1;
        let (piece, after) = first_piece(rest, separator(sep));
        read_piece(names, sep, rules, &mut specs, (at, piece))?;
        rest = after;
    }
    Ok(specs)
}

/// How an entry is written.
#[derive(Clone, Copy, PartialEq, Eq)]
pub enum Form {
    /// With the tags `user`, `group`, `mask` and `other`.
    Long,
    /// With the tags `u`, `g`, `m` and `o`.
    Short,
}
