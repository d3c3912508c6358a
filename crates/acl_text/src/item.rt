//! The content of a line: what it gives the record that it belongs to.

ghost use Rattle.std.specs.Prelude.{◌≡◌, ok_or};
ghost use Rattle.acl_text.specs.InTurn.{GivesAt};
ghost use Rattle.acl_text.specs.Records.{rules, perm_of_spec, entry_item, flag_of, flags_of, named, item_of};

use crate::entries::{PermSpec, Rules, Spec, entry_of};
use crate::fault::{FaultKind, TextFault};
use crate::line::LineKind;
use crate::naming::{Names, read_group_word, read_user_word};
use acl_entry::{Entry, Id, Perm};
use std::alloc::Global;

/// The content of a line that begins no record.
#[derive(Clone, Copy)]
pub(crate) enum Item {
    Owner(Id),
    OwningGroup(Id),
    /// Set user ID, set group ID, sticky.
    Flags([bool; 3]),
    /// An entry, of the default list or else of the access list.
    Entry(bool, Entry),
}

/// Tells whether a flag's byte is its letter, or `-`.
fn flag_of(letter: u8, b: u8) -> Option<bool>
    ensures { result ≡ flag_of letter b }
{
    if b == letter {
        Some(true)
    } else if b == b'-' {
        Some(false)
    } else {
        None
    }
}

fn flags_of(value: &[u8]) -> Option<[bool; 3]>
    ensures { result ≡ flags_of value.now }
{
    match value {
        [a, b, c] => {
            let setuid = flag_of(b's', *a)?;
            let setgid = flag_of(b's', *b)?;
            let sticky = flag_of(b't', *c)?;
            Some([setuid, setgid, sticky])
        }
        _ => None,
    }
}

/// Returns the rules of a dump: entries have permissions, may be default entries, and have no `X`.
fn rules() -> Rules
    ensures { result ≡ rules }
{
    Rules {
        takes_default: true,
        takes_perms: true,
        takes_x: false,
    }
}

/// Returns the permissions of an entry's field, which a dump gives without `X`.
fn perm_of_spec(perm: Option<PermSpec>) -> Perm
    ensures { result ≡ perm_of_spec perm }
{
    match perm {
        None => Perm::none(),
        Some(perm) => perm.fixed,
    }
}

/// Returns the content of an entry's line.
fn entry_item(spec: Spec) -> Item
    ensures { result ≡ entry_item spec }
{
    Item::Entry(
        spec.dflt,
        Entry {
            key: spec.key,
            perm: perm_of_spec(spec.perm),
        },
    )
}

/// Returns the user that an `# owner:` line names.
fn read_owner<N: Names>(alloc: Global, names: &N, at: usize, value: &[u8]) -> Result<Id, TextFault>
    ensures { GivesAt at (λ id. id) result (named (N.naming names.now).user_id FaultKind.UnknownUser value.now) }
{
    if value.is_empty() {
        return Err(bad_header(at));
    }
    match read_user_word(alloc, value, names)? {
        Some(id) => Ok(id),
        None => Err(TextFault {
            kind: FaultKind::UnknownUser,
            at,
        }),
    }
}

/// Returns the group that a `# group:` line names.
fn read_group<N: Names>(alloc: Global, names: &N, at: usize, value: &[u8]) -> Result<Id, TextFault>
    ensures { GivesAt at (λ id. id) result (named (N.naming names.now).group_id FaultKind.UnknownGroup value.now) }
{
    if value.is_empty() {
        return Err(bad_header(at));
    }
    match read_group_word(alloc, value, names)? {
        Some(id) => Ok(id),
        None => Err(TextFault {
            kind: FaultKind::UnknownGroup,
            at,
        }),
    }
}

/// Returns the flags that a `# flags:` line gives.
fn read_flags(at: usize, value: &[u8]) -> Result<[bool; 3], TextFault>
    ensures { GivesAt at (λ flags. flags) result (ok_or (flags_of value.now) FaultKind.BadHeader) }
{
    match flags_of(value) {
        Some(flags) => Ok(flags),
        None => Err(bad_header(at)),
    }
}

/// Returns the fault of a header line that has no value or flags that are not valid, comes twice, or comes after an entry.
pub(crate) fn bad_header(at: usize) -> TextFault
    ensures kind { result.kind ≡ FaultKind.BadHeader }
    ensures place { result.at ≡ at }
{
    TextFault {
        kind: FaultKind::BadHeader,
        at,
    }
}

/// Returns the content of a line that begins no record, or the lowest kind of fault that it has in itself.
pub(crate) fn item_of<N: Names>(
    alloc: Global,
    names: &N,
    at: usize,
    kind: LineKind,
    value: &[u8],
) -> Result<Option<Item>, TextFault>
    ensures { GivesAt at (λ item. item) result (item_of (N.naming names.now) at kind value.now) }
{
    match kind {
        LineKind::Nothing | LineKind::File => Ok(None),
        LineKind::Owner => Ok(Some(Item::Owner(read_owner(alloc, names, at, value)?))),
        LineKind::OwningGroup => Ok(Some(Item::OwningGroup(read_group(alloc, names, at, value)?))),
        LineKind::Flags => Ok(Some(Item::Flags(read_flags(at, value)?))),
        LineKind::Entry => Ok(Some(entry_item(entry_of(alloc, names, rules(), at, value)?))),
    }
}
