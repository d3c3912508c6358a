//! Writing lists (acl(5), "ACL text forms"; getfacl(1)).

ghost use Rattle.std.specs.Prelude.{◌≡◌, ◌++◌, ◌∷◌, [], IfOk, Ok, true};
ghost use Rattle.std.specs.List.{flat_map};
ghost use Rattle.std.specs.Option.{option_copied};
ghost use Rattle.acl_names.specs.Appends.{Appends, AppendsWhole};
ghost use Rattle.acl_entry.specs.Lists as lists;
ghost use Rattle.acl_text.specs.declared.entries.Sep.TheVariants.{Comma, Line};
ghost use Rattle.acl_text.specs.declared.entries.Want.{Want};
ghost use Rattle.acl_text.specs.Entries.{rules_of, entries_of};
ghost use Rattle.acl_text.specs.Writing.{tag_text, id_text, qualifier, entry_text, long, after_comma, short, specs_from, AreNamed};

use crate::entries::Form;
use crate::naming::Names;
use acl_entry::{Acl, Entry, Id, Key};
use acl_names::append_name;
use itoa::Buffer;
use std::alloc::{AllocError, Global};

/// Returns the tag of an entry, and the colon after it.
fn tag(form: Form, key: &Key) -> &'static [u8]
    ensures { result.now ≡ tag_text form key.now ++ 58 ∷ [] }
{
    match form {
        Form::Long => match key {
            Key::Owner | Key::User(_) => b"user:",
            Key::OwningGroup | Key::Group(_) => b"group:",
            Key::Mask => b"mask:",
            Key::Other => b"other:",
        },
        Form::Short => match key {
            Key::Owner | Key::User(_) => b"u:",
            Key::OwningGroup | Key::Group(_) => b"g:",
            Key::Mask => b"m:",
            Key::Other => b"o:",
        },
    }
}

/// Adds the name of a user or a group with escapes, or the number of its id if it has no name.
pub fn append_id(text: &mut Vec<u8>, id: Id, name: Option<&[u8]>) -> Result<(), AllocError>
    ensures { AppendsWhole result text.old text.new (id_text id (option_copied name.entry)) }
{
    match name {
        Some(name) => append_name(text, name),
        None => {
            let mut buffer = Buffer::new();
            text.extend_from_slice(buffer.format(id.number()).as_bytes())
        }
    }
}

/// Adds the name of the key's user or group, if it names one.
fn append_qualifier<N: Names>(text: &mut Vec<u8>, key: &Key, names: &N) -> Result<(), AllocError>
    ensures { AppendsWhole result text.old text.new (qualifier (N.naming names.now) key.now) }
{
    match key {
        Key::User(id) => append_id(text, *id, names.user_name(*id)),
        Key::Group(id) => append_id(text, *id, names.group_name(*id)),
        Key::Owner | Key::OwningGroup | Key::Mask | Key::Other => Ok(()),
    }
}

fn push_entry<N: Names>(
    text: &mut Vec<u8>,
    entry: &Entry,
    form: Form,
    names: &N,
) -> Result<(), AllocError>
    ensures { Appends result text.old text.new (entry_text (N.naming names.now) form entry.now) }
{
    text.extend_from_slice(tag(form, &entry.key))?;
    append_qualifier(text, &entry.key, names)?;
    text.push(b':')?;
    text.extend_from_slice(&entry.perm.text())?;
    Ok(())
}

/// Adds an entry as it is written, `TAG:NAME:rwx`. An id is printed as its name, with escapes, and as a number if it
/// has none.
pub fn append_entry<N: Names>(
    text: &mut Vec<u8>,
    entry: &Entry,
    form: Form,
    names: &N,
) -> Result<(), AllocError>
    ensures { AppendsWhole result text.old text.new (entry_text (N.naming names.now) form entry.now) }
{
    let before = text.len();
    let added = push_entry(text, entry, form, names);
    if added.is_err() {
        text.truncate(before);
    }
    added
}

/// Returns the long form of a list: a line for each entry, in list order. It is read as that list, if each name
/// that is printed is looked up as the id that it is printed for, is not empty and not digits alone.
pub fn write_long<N: Names>(alloc: Global, acl: &Acl, names: &N) -> Result<Vec<u8>, AllocError>
    ensures text { IfOk result (λ text. text.items ≡ long (N.naming names.now) (lists.entries acl.now)) }
    ensures read_again { IfOk result (λ text.
        AreNamed (N.naming names.now) (lists.entries acl.now) →
        (want : Want) → (rules_of want).takes_perms ≡ true →
        entries_of (N.naming names.now) Line want text.items ≡ Ok (specs_from 1 (lists.entries acl.now))) }
{
    let mut text = Vec::new(alloc);
    push_long(&mut text, acl.entries(), names)?;
    Ok(text)
}

/// Adds entries, a line each.
fn push_long<N: Names>(text: &mut Vec<u8>, entries: &[Entry], names: &N) -> Result<(), AllocError>
    ensures { Appends result text.old text.new (long (N.naming names.now) entries.now) }
{
    for entry in entries {
        append_entry(text, entry, Form::Long, names)?;
        text.push(b'\n')?;
    }
    Ok(())
}

/// Adds entries, each after a comma.
fn push_others<N: Names>(text: &mut Vec<u8>, others: &[Entry], names: &N) -> Result<(), AllocError>
    ensures { Appends result text.old text.new (flat_map (after_comma (N.naming names.now)) others.now) }
{
    for other in others {
        text.push(b',')?;
        append_entry(text, other, Form::Short, names)?;
    }
    Ok(())
}

/// Adds entries, joined by commas.
fn push_short<N: Names>(text: &mut Vec<u8>, entries: &[Entry], names: &N) -> Result<(), AllocError>
    ensures { Appends result text.old text.new (short (N.naming names.now) entries.now) }
{
    let [first, others @ ..] = entries else {
        return Ok(());
    };
    append_entry(text, first, Form::Short, names)?;
    push_others(text, others, names)?;
    Ok(())
}

/// Adds the short form of a list: its entries in list order, joined by commas.
pub fn append_short<N: Names>(text: &mut Vec<u8>, acl: &Acl, names: &N) -> Result<(), AllocError>
    ensures { AppendsWhole result text.old text.new (short (N.naming names.now) (lists.entries acl.now)) }
{
    let before = text.len();
    let added = push_short(text, acl.entries(), names);
    if added.is_err() {
        text.truncate(before);
    }
    added
}

/// Returns the short form of a list: its entries in list order, joined by commas. It is read as that list, if each
/// name that is printed is looked up as the id that it is printed for, is not empty and not digits alone.
pub fn write_short<N: Names>(alloc: Global, acl: &Acl, names: &N) -> Result<Vec<u8>, AllocError>
    ensures text { IfOk result (λ text. text.items ≡ short (N.naming names.now) (lists.entries acl.now)) }
    ensures read_again { IfOk result (λ text.
        AreNamed (N.naming names.now) (lists.entries acl.now) →
        (want : Want) → (rules_of want).takes_perms ≡ true →
        entries_of (N.naming names.now) Comma want text.items ≡ Ok (specs_from 1 (lists.entries acl.now))) }
{
    let mut text = Vec::new(alloc);
    push_short(&mut text, acl.entries(), names)?;
    Ok(text)
}
