//! Writing the records of a dump (getfacl(1)).

ghost use Rattle.std.specs.Prelude.{◌≡◌};
ghost use Rattle.acl_names.specs.Appends.{Appends, AppendsWhole};
ghost use Rattle.acl_text.specs.declared.fault.Which.TheVariants.{Default};
ghost use Rattle.acl_text.specs.DumpWriting.{is_shown, tab_count, effective_text, front, shown, entry_line, list_text, default_text};

use crate::effective::Effective;
use crate::entries::Form;
use crate::fault::Which;
use crate::naming::Names;
use crate::shared::Shared;
use crate::writing::append_entry;
use acl_entry::{Acl, Entry, Key, Perm};
use std::alloc::AllocError;

/// As many tabs as are ever written after an entry.
const TABS: [u8; 4] = [b'\t', b'\t', b'\t', b'\t'];

/// Tells whether the effective permissions of an entry are shown.
fn is_shown(how: Effective, mask: Perm, perm: Perm) -> bool
    ensures { result ≡ is_shown how mask perm }
{
    match how {
        Effective::WhereMasked => !mask.contains(perm),
        Effective::Always => true,
        Effective::Never => false,
    }
}

/// Returns the number of tabs after an entry of this many bytes.
fn tab_count(bytes: usize) -> usize
    ensures { result ≡ tab_count bytes }
{
    4usize.saturating_sub(bytes / 8).max(1)
}

/// Adds the tabs after an entry of `bytes` bytes and its effective permissions, if they are shown.
fn push_comment(
    text: &mut Vec<u8>,
    how: Effective,
    mask: &Option<Perm>,
    entry: &Entry,
    bytes: usize,
) -> Result<(), AllocError>
    ensures { Appends result text.old text.new (effective_text how mask.now entry.now bytes) }
{
    let Some(mask) = mask else {
        return Ok(());
    };
    if !entry.key.is_class() || !is_shown(how, *mask, entry.perm) {
        return Ok(());
    }
    text.extend_from_slice(&TABS[..tab_count(bytes)])?;
    text.extend_from_slice(b"#effective:")?;
    text.extend_from_slice(&entry.perm.meet(*mask).text())?;
    Ok(())
}

/// Returns what is before each entry of a list.
fn front(which: Which) -> &'static [u8]
    ensures { result.now ≡ front which }
{
    match which {
        Which::Access => b"",
        Which::Default => b"default:",
    }
}

/// Adds an entry, with `default:` in front if it is one of a default list.
fn push_front_and_entry<N: Names>(
    text: &mut Vec<u8>,
    which: Which,
    entry: &Entry,
    names: &N,
) -> Result<(), AllocError>
    ensures { Appends result text.old text.new (shown (N.naming names.now) which entry.now) }
{
    text.extend_from_slice(front(which))?;
    append_entry(text, entry, Form::Long, names)?;
    Ok(())
}

/// Adds an entry of one of a file's lists, whose mask is given, as [`append_list`] adds it. If memory runs out, a
/// part of it may have been added.
pub fn push_line<N: Names>(
    text: &mut Vec<u8>,
    how: Effective,
    which: Which,
    mask: &Option<Perm>,
    entry: &Entry,
    names: &N,
) -> Result<(), AllocError>
    ensures { Appends result text.old text.new (entry_line (N.naming names.now) how which mask.now entry.now) }
{
    let before = text.len();
    push_front_and_entry(text, which, entry, names)?;
    let bytes = text.len() - before;
    push_comment(text, how, mask, entry, bytes)?;
    text.push(b'\n')?;
    Ok(())
}

fn push_list<N: Names>(
    text: &mut Vec<u8>,
    acl: &Acl,
    which: Which,
    how: Effective,
    names: &N,
) -> Result<(), AllocError>
    ensures { Appends result text.old text.new (list_text (N.naming names.now) how which acl.now) }
{
    let mask = acl.get(Key::Mask);
    for entry in acl.entries() {
        push_line(text, how, which, &mask, entry, names)?;
    }
    Ok(())
}

/// Adds the entries of one of a file's lists, a line each, in the long form and in list order; default entries have
/// `default:` in front. If the effective permissions of an entry are shown they follow after tabs and
/// `#effective:`; the tabs are as many as an entry of its length needs, at least one.
pub fn append_list<N: Names>(
    text: &mut Vec<u8>,
    acl: &Acl,
    which: Which,
    how: Effective,
    names: &N,
) -> Result<(), AllocError>
    ensures { AppendsWhole result text.old text.new (list_text (N.naming names.now) how which acl.now) }
{
    let before = text.len();
    if let Err(refused) = push_list(text, acl, which, how, names) {
        text.truncate(before);
        return Err(refused);
    }
    Ok(())
}

/// Adds the default list, if there is one, as [`append_list`] adds it.
pub(crate) fn append_default<N: Names>(
    text: &mut Vec<u8>,
    dacl: &Option<Shared<Acl>>,
    how: Effective,
    names: &N,
) -> Result<(), AllocError>
    ensures { AppendsWhole result text.old text.new (default_text (N.naming names.now) how dacl.now) }
{
    match dacl {
        None => Ok(()),
        Some(acl) => append_list(text, acl.get(), Which::Default, how, names),
    }
}
