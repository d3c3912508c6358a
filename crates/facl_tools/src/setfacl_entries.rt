//! The entries of a setfacl(1) line, and the keys that it removes.

ghost use Rattle.std.specs.Prelude.{◌≡◌, option_map, IfOk, true, false, OnOk};
ghost use Rattle.std.specs.List.{find};
ghost use Rattle.facl_tools.specs.RemovedKeys.{removes, keys_of, with_key};
ghost use Rattle.facl_tools.specs.Replies.{Gives};
ghost use Rattle.facl_tools.specs.Setfacl.{both_at, drops, entries_given, entries_in, entries_of_line, has_default};

use crate::setfacl::{ChangeLine, EntrySource};
use acl_edit::Specs;
use acl_entry::{Draft, Perm};
use acl_people::People;
use acl_text::{Sep, Spec, Want, read_entries};
use facl_output::{LineFault, Source};
use std::alloc::{AllocError, Global};

/// The entries of a line.
#[derive(Drop)]
pub struct ChangeEntries {
    /// `-x`, `-X`: the keys that are removed.
    pub remove: Specs,
    /// `--set`, `--set-file`: the entries that replace a list.
    pub set: Specs,
    /// `-m`, `-M`: the entries that are modified or added.
    pub modify: Specs,
}

fn entries_in(
    alloc: Global,
    people: &People,
    want: Want,
    sep: Sep,
    text: &[u8],
) -> Result<Specs, LineFault>
    ensures { Gives (λ specs. specs) result (entries_in people.now want sep text.now) }
{
    match read_entries(alloc, text, sep, want, people) {
        Ok(specs) => Ok(Specs::new(specs)),
        Err(fault) => Err(LineFault::of_text(Source::Entry, fault)),
    }
}

/// Reads the entries of an option, if it is given.
fn entries_given(
    alloc: Global,
    people: &People,
    want: Want,
    entries: &Option<EntrySource<'_>>,
    text: &[u8],
) -> Result<Specs, LineFault>
    ensures { Gives (λ specs. specs) result (entries_given people.now want entries.now text.now) }
{
    match entries {
        Some(EntrySource::InWord(word)) => {
            entries_in(alloc, people, want, Sep::Comma, word.as_bytes())
        }
        Some(EntrySource::InText) => entries_in(alloc, people, want, Sep::Line, text),
        None => Ok(Specs::new(Vec::new(alloc))),
    }
}

/// Returns the place of the first entry whose key is removed.
fn first_removed(removed: &RemovedKeys, as_default: bool, specs: &[Spec]) -> Option<usize>
    ensures { result ≡ option_map (λ s. s.at) (find (λ s. removes as_default removed.now s) specs.now) }
{
    let first = specs.iter().find(|spec| removed.removes(as_default, spec))?;
    Some(first.at)
}

fn has_default(specs: &[Spec]) -> bool
    ensures { result ≡ has_default specs.now }
{
    specs.iter().any(|spec| spec.dflt)
}

/// Reads the entries of a line.
pub(crate) fn entries_of_line(
    alloc: Global,
    people: &People,
    line: &ChangeLine<'_>,
    text: &[u8],
) -> Result<ChangeEntries, LineFault>
    ensures { Gives (λ entries. entries) result (entries_of_line people.now line.now text.now) }
{
    let remove = entries_given(alloc, people, Want::WithoutPerms, &line.removed, text)?;
    let modify = entries_given(alloc, people, Want::WithPerms, &line.modified, text)?;
    let set = entries_given(alloc, people, Want::WithPerms, &line.set, text)?;
    Ok(ChangeEntries {
        remove,
        set,
        modify,
    })
}

/// Returns the place of the first modified entry that is removed too.
pub(crate) fn both_at(
    alloc: Global,
    as_default: bool,
    entries: &ChangeEntries,
) -> Result<Option<usize>, AllocError>
    ensures { IfOk result (λ at. at ≡ both_at as_default entries.now) }
{
    let removed = RemovedKeys::of(alloc, entries.remove.as_slice())?;
    Ok(first_removed(&removed, as_default, entries.modify.as_slice()))
}

/// Tells whether `-d` drops a default entry.
pub(crate) fn drops(as_default: bool, entries: &ChangeEntries) -> bool
    ensures { result ≡ drops as_default entries.now }
{
    as_default
        && (has_default(entries.remove.as_slice())
            || has_default(entries.modify.as_slice())
            || has_default(entries.set.as_slice()))
}

/// The keys that are removed from each list, which are found by binary search.
#[derive(Drop)]
pub(crate) struct RemovedKeys {
    access: Draft,
    dflt: Draft,
}

/// Adds the key of an entry of one list.
fn insert_key(keys: &mut Draft, dflt: bool, spec: &Spec) -> Result<(), AllocError>
    ensures { OnOk result (keys.new ≡ with_key dflt keys.old spec.now) }
{
    if dflt == spec.dflt {
        keys.insert(spec.key, Perm::none())?;
    }
    Ok(())
}

/// Collects the keys of the entries of one list.
fn keys_of(alloc: Global, dflt: bool, specs: &[Spec]) -> Result<Draft, AllocError>
    ensures { IfOk result (λ keys. keys ≡ keys_of dflt specs.now) }
{
    let mut keys = Draft::new(alloc);
    for spec in specs {
        insert_key(&mut keys, dflt, spec)?;
    }
    Ok(keys)
}

impl RemovedKeys {
    /// Collects the keys of these entries.
    pub fn of(alloc: Global, removed: &[Spec]) -> Result<RemovedKeys, AllocError>
        ensures access { IfOk result (λ keys. keys.access ≡ keys_of false removed.now) }
        ensures dflt { IfOk result (λ keys. keys.dflt ≡ keys_of true removed.now) }
    {
        Ok(RemovedKeys {
            access: keys_of(alloc, false, removed)?,
            dflt: keys_of(alloc, true, removed)?,
        })
    }

    /// Tells whether the key of an entry is removed from its list, unless `-d` drops the entry.
    pub fn removes(&self, as_default: bool, spec: &Spec) -> bool
        ensures { result ≡ removes as_default self.now spec.now }
    {
        let keys = if spec.dflt { &self.dflt } else { &self.access };
        !(as_default && spec.dflt) && keys.get(spec.key).is_some()
    }
}
