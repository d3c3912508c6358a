//! The fields of an entry (setfacl(1), "ACL entries"): numbers of users and groups, permissions, and white space around
//! them.

ghost use Rattle.std.specs.Prelude.{◌≡◌, ◌||◌, option_map, Some, ◌+◌, false, if◌then◌else◌};
ghost use Rattle.std.specs.Option.{option_copied};
ghost use Rattle.std.specs.Str.{bytes_eq};
ghost use Rattle.acl_text.specs.Fields.{row_view, tag_named, one_field, two_fields, three_fields, row_of, default_of, entry_fields};
ghost use Rattle.acl_text.specs.Blanks.{is_blank, trim_front, trim_back, trimmed};
ghost use Rattle.std.specs.List.{list_all};
ghost use Rattle.std.specs.Char.{is_ascii_digit};
ghost use Rattle.acl_text.specs.Ids.{is_number, id_of};
ghost use Rattle.acl_entry.specs.Perms.{none};
ghost use Rattle.acl_text.specs.Letters.{is_letter, holds, letter_set, letters_of, perms_of};
ghost use Rattle.acl_names.specs.Names.{is_octal};

use crate::entries::PermSpec;
use acl_entry::{Id, NOBODY, Perm};
use acl_names::cut::cut;

/// Whom an entry is for: a user or the owner, a group or the owning group, the mask, or others.
#[derive(Clone, Copy)]
pub(crate) enum Tag {
    User,
    Group,
    Mask,
    Other,
}

/// What an entry contains: whom it is for, the word that names a user or a group, and its permissions field.
#[derive(Clone, Copy)]
pub(crate) struct Row<'a> {
    pub tag: Tag,
    pub word: &'a [u8],
    pub perms: Option<&'a [u8]>,
}

/// Tells whether a word is one of two.
fn is_one_of(word: &[u8], short: &[u8], long: &[u8]) -> bool
    ensures { result ≡ bytes_eq word.now short.now || bytes_eq word.now long.now }
{
    word == short || word == long
}

fn tag_named(word: &[u8]) -> Option<Tag>
    ensures { result ≡ tag_named word.now }
{
    if is_one_of(word, b"u", b"user") {
        Some(Tag::User)
    } else if is_one_of(word, b"g", b"group") {
        Some(Tag::Group)
    } else if is_one_of(word, b"m", b"mask") {
        Some(Tag::Mask)
    } else if is_one_of(word, b"o", b"other") {
        Some(Tag::Other)
    } else {
        None
    }
}

fn make_row<'a>(tag: Tag, word: &'a [u8], perms: Option<&'a [u8]>) -> Option<Row<'a>>
    ensures { option_map row_view result ≡ Some (record { tag = tag; word = word.entry.now; perms = option_copied perms.entry }) }
{
    Some(Row { tag, word, perms })
}

/// Returns the parts of an entry of one field.
fn one_field<'a>(first: &'a [u8]) -> Option<Row<'a>>
    ensures { option_map row_view result ≡ one_field (tag_named first.now) first.now }
{
    match tag_named(first) {
        Some(Tag::Mask) => make_row(Tag::Mask, &[], None),
        Some(Tag::Other) => make_row(Tag::Other, &[], None),
        Some(Tag::User) => None,
        Some(Tag::Group) => None,
        None if first.is_empty() => None,
        None => make_row(Tag::User, first, None),
    }
}

/// Returns the parts of an entry of two fields.
fn two_fields<'a>(first: &'a [u8], second: &'a [u8]) -> Option<Row<'a>>
    ensures { option_map row_view result ≡ two_fields (tag_named first.now) first.now second.now }
{
    match tag_named(first) {
        Some(Tag::User) => make_row(Tag::User, second, None),
        Some(Tag::Group) => make_row(Tag::Group, second, None),
        Some(Tag::Mask) => make_row(Tag::Mask, &[], Some(second)),
        Some(Tag::Other) => make_row(Tag::Other, &[], Some(second)),
        None if first.is_empty() => None,
        None => make_row(Tag::User, first, Some(second)),
    }
}

/// Returns the parts of an entry of three fields.
fn three_fields<'a>(first: &[u8], second: &'a [u8], third: &'a [u8]) -> Option<Row<'a>>
    ensures { option_map row_view result ≡ three_fields (tag_named first.now) second.now third.now }
{
    match tag_named(first)? {
        Tag::User => make_row(Tag::User, second, Some(third)),
        Tag::Group => make_row(Tag::Group, second, Some(third)),
        Tag::Mask if second.is_empty() => make_row(Tag::Mask, &[], Some(third)),
        Tag::Other if second.is_empty() => make_row(Tag::Other, &[], Some(third)),
        Tag::Mask => None,
        Tag::Other => None,
    }
}

/// Returns the row that an entry's fields are, if they are one.
pub(crate) fn row_of<'a>(entry: &'a [u8]) -> Option<Row<'a>>
    ensures { option_map row_view result ≡ row_of (entry_fields entry.now) }
{
    let Some((first, rest)) = cut(entry, b':') else {
        return one_field(trim(entry));
    };
    let Some((second, rest)) = cut(rest, b':') else {
        return two_fields(trim(first), trim(rest));
    };
    let Some(_) = cut(rest, b':') else {
        return three_fields(trim(first), trim(second), trim(rest));
    };
    None
}

/// Tells whether an entry is a default one, and the rest of its fields.
pub(crate) fn split_default(entry: &[u8]) -> (bool, &[u8])
    ensures { default_of (entry_fields entry.now) ≡ (result.0, entry_fields result.1.now) }
{
    match cut(entry, b':') {
        Some((first, rest)) if is_one_of(trim(first), b"d", b"default") => (true, rest),
        _ => (false, entry),
    }
}

/// Tells whether a byte is a space or a tab.
fn is_blank(b: u8) -> bool
    ensures { result ≡ is_blank b }
{
    b == b' ' || b == b'\t'
}

/// Returns the bytes without the spaces and tabs in front.
pub fn trim_front(bytes: &[u8]) -> &[u8]
    ensures { result.now ≡ trim_front bytes.now }
{
    let mut rest = bytes;
    while let [first, after @ ..] = rest {
        if !is_blank(*first) {
            break;
        }
        rest = after;
    }
    rest
}

/// Returns the bytes without the blanks at their end.
fn trim_back(bytes: &[u8]) -> &[u8]
    ensures { result.now ≡ trim_back bytes.now }
{
    let mut rest = bytes;
    while let [before @ .., last] = rest {
        if !is_blank(*last) {
            break;
        }
        rest = before;
    }
    rest
}

/// Returns the bytes without the spaces and tabs around them.
pub fn trim(bytes: &[u8]) -> &[u8]
    ensures { result.now ≡ trimmed bytes.now }
{
    trim_back(trim_front(bytes))
}

/// Tells whether a word is digits alone, and so always a number.
pub fn is_number(word: &[u8]) -> bool
    ensures { result ≡ is_number word.now }
{
    !word.is_empty() && are_digits(word)
}

/// Tells whether each byte is a decimal digit.
fn are_digits(word: &[u8]) -> bool
    ensures { result ≡ list_all is_ascii_digit word.now }
{
    word.iter().all(|b| b.is_ascii_digit())
}

/// Returns the id of digits alone; `None` for any other word, and above 4294967294.
pub fn read_id(word: &[u8]) -> Option<Id>
    ensures { result ≡ id_of word.now }
{
    if word.is_empty() {
        return None;
    }
    let mut number = 0u64;
    for b in word {
        if !b.is_ascii_digit() {
            return None;
        }
        number = 10 * number + u64::from(*b - b'0');
        if number >= u64::from(NOBODY) {
            return None;
        }
    }
    Id::new(number as u32)
}

/// Tells whether the byte is a letter of a permissions field.
fn is_letter(takes_x: bool, b: u8) -> bool
    ensures { result ≡ is_letter takes_x b }
{
    b == b'r' || b == b'w' || b == b'x' || b == b'-' || takes_x && b == b'X'
}

/// Tells whether each byte is a permission letter, or `-`.
fn are_letters(takes_x: bool, field: &[u8]) -> bool
    ensures { result ≡ list_all (is_letter takes_x) field.now }
{
    field.iter().all(|b| is_letter(takes_x, *b))
}

/// Tells whether the letter is in the field.
fn holds(letter: u8, field: &[u8]) -> bool
    ensures { result ≡ holds letter field.now }
{
    field.contains(&letter)
}

/// Returns a permission, if its letter is in the field, and else none.
fn perm_by_letter(perm: Perm, letter: u8, field: &[u8]) -> Perm
    ensures { result ≡ (if holds letter field.now then perm else none) }
{
    if holds(letter, field) {
        perm
    } else {
        Perm::none()
    }
}

/// Returns the permissions whose letters are in the field.
fn letter_set(field: &[u8]) -> Perm
    ensures { result ≡ letter_set field.now }
{
    let read = perm_by_letter(Perm::READ, b'r', field);
    let write = perm_by_letter(Perm::WRITE, b'w', field);
    let execute = perm_by_letter(Perm::EXECUTE, b'x', field);
    read.union(write).union(execute)
}

/// Returns the permissions of a field of letters.
fn letters_of(takes_x: bool, field: &[u8]) -> Option<PermSpec>
    ensures { result ≡ letters_of takes_x field.now }
{
    if !are_letters(takes_x, field) {
        return None;
    }
    Some(PermSpec {
        fixed: letter_set(field),
        cond_x: holds(b'X', field),
    })
}

/// Tells whether the byte is an octal digit.
fn is_octal_digit(b: u8) -> bool
    ensures { result ≡ is_octal 7 b }
{
    b'0' <= b && b <= b'7'
}

/// Returns the permissions of a field: one digit 0 to 7, or letters `r`, `w`, `x`, `-` and, if it is taken, `X` in
/// any order, or nothing.
pub(crate) fn perms_of(takes_x: bool, field: &[u8]) -> Option<PermSpec>
    ensures { result ≡ perms_of takes_x field.now }
{
    match field {
        [b] if is_octal_digit(*b) => match Perm::from_number(*b - b'0') {
            Some(fixed) => Some(PermSpec {
                fixed,
                cond_x: false,
            }),
            None => unreachable!(),
        },
        _ => letters_of(takes_x, field),
    }
}

/// Returns the permissions that a text gives, without `X`: one digit 0 to 7, or letters `r`, `w`, `x` and `-` in any
/// order, or nothing. `None` for any other text.
pub fn read_perms(text: &[u8]) -> Option<Perm>
    ensures { result ≡ option_map (λ spec. spec.fixed) (perms_of false text.now) }
{
    match perms_of(false, text) {
        Some(spec) => Some(spec.fixed),
        None => None,
    }
}
