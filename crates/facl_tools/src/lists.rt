//! Lists as chacl(1) reads them: the entries of a text, which have to be a valid list.

ghost use Rattle.std.specs.Prelude.{◌≡◌, IfOk, map};
ghost use Rattle.facl_tools.specs.Replies.{Gives};
ghost use Rattle.facl_tools.specs.Lists.{entry_of, list_of_text};

use acl_entry::{Acl, Entry, Perm};
use acl_people::People;
use acl_text::{FaultKind, Sep, Spec, TextFault, Want, Which, read_entries};
use facl_output::{LineFault, Source};
use std::alloc::{AllocError, Global};

/// Returns what a written entry gives.
fn entry_of(spec: &Spec) -> Entry
    ensures { result ≡ entry_of spec.now }
{
    let perm = match spec.perm {
        Some(perm) => perm.fixed,
        None => Perm::none(),
    };
    Entry {
        key: spec.key,
        perm,
    }
}

fn entries_of(alloc: Global, specs: &[Spec]) -> Result<Vec<Entry>, AllocError>
    ensures { IfOk result (λ entries. entries.items ≡ map entry_of specs.now) }
{
    let mut entries = Vec::with_capacity(alloc, specs.len())?;
    for spec in specs {
        entries.push(entry_of(spec))?;
    }
    Ok(entries)
}

/// Reads the list that a text names. A fault of the list as a whole is reported at place 0.
#[tactic(auto, unfolding(crate::specs::Lists::list_of_text))]
pub(crate) fn list_of_text(
    alloc: Global,
    people: &People,
    source: Source,
    which: Which,
    text: &[u8],
) -> Result<Acl, LineFault>
    ensures { Gives (λ acl. acl) result (list_of_text people.now source which text.now) }
{
    let specs = match read_entries(alloc, text, Sep::Comma, Want::Plain, people) {
        Ok(specs) => specs,
        Err(fault) => return Err(LineFault::of_text(source, fault)),
    };
    let entries = entries_of(alloc, &specs)?;
    match Acl::from_entries(alloc, &entries) {
        Ok(acl) => Ok(acl),
        Err(fault) => {
            let kind = FaultKind::of_list(which, fault);
            Err(LineFault::of_text(source, TextFault { kind, at: 0 }))
        }
    }
}
