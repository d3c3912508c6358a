//! The steps of a setfacl(1) line on one list, and the mask that the line leaves in a list that it names.

ghost use Rattle.std.specs.Prelude.{◌≡◌, ◌+◌, length, IfOk, IsOk, OnOk};
ghost use Rattle.std.specs.List.{list_any};
ghost use Rattle.acl_edit.specs.Parts.{specs_for, part};
ghost use Rattle.acl_edit.specs.Rooms.{Fits, LeavesIn, size};
ghost use Rattle.acl_edit.specs.Steps as steps;
ghost use Rattle.acl_edit.specs.Steps.{gives_execute, perms_of, may_execute};
ghost use Rattle.acl_edit.specs.Masks as masks;
ghost use Rattle.acl_edit.specs.Masks.{has_mask, has_named, is_recalculated};

use crate::change::{ChangeRef, Scope, is_mask};
use crate::{Kind, Node};
use acl_entry::{Acl, Draft, Entry, Key, Perm};
use acl_text::{PermSpec, Spec, Which};
use std::alloc::{AllocError, Global};

/// Tells whether the entry, which is not the mask, has execute.
fn may_execute(entry: &Entry) -> bool
    ensures { result ≡ may_execute entry.now }
{
    !is_mask(&entry.key) && entry.perm.contains(Perm::EXECUTE)
}

/// Tells whether an entry other than the mask has execute.
pub(crate) fn someone_may_execute(entries: &[Entry]) -> bool
    ensures { result ≡ list_any may_execute entries.now }
{
    entries.iter().any(|entry| may_execute(entry))
}

/// Tells whether `X` gives execute: to a directory, and if someone may execute the file already.
pub(crate) fn gives_execute(node: &Node) -> bool
    ensures { result ≡ gives_execute node.now }
{
    node.kind == Kind::Directory || someone_may_execute(node.label.acl.entries())
}

/// Returns what an entry gives, where `x` tells whether `X` gives execute.
fn perms_of(x: bool, perm: &Option<PermSpec>) -> Perm
    ensures { result ≡ perms_of x perm.now }
{
    match perm {
        None => Perm::none(),
        Some(perm) if x && perm.cond_x => perm.fixed.union(Perm::EXECUTE),
        Some(perm) => perm.fixed,
    }
}

/// Puts an entry, if there is one.
pub(crate) fn put_some(draft: &mut Draft, key: &Key, perm: Option<Perm>) -> Result<(), AllocError>
    ensures { LeavesIn (Fits (size draft.old + 1)) result draft.new (steps.put_some draft.old key.now perm) }
{
    if let Some(perm) = perm {
        draft.insert(*key, perm)?;
    }
    Ok(())
}

/// Keeps the base entries of a list, with what they grant: `-b`.
pub(crate) fn strip(alloc: Global, acl: &Acl) -> Result<Draft, AllocError>
    ensures stripped { IfOk result (λ draft. draft ≡ steps.strip acl.now) }
    ensures room { IsOk result }
{
    let mut kept = Draft::new(alloc);
    put_some(&mut kept, &Key::Owner, acl.effective(Key::Owner))?;
    put_some(
        &mut kept,
        &Key::OwningGroup,
        acl.effective(Key::OwningGroup),
    )?;
    put_some(&mut kept, &Key::Other, acl.effective(Key::Other))?;
    Ok(kept)
}

/// Removes the keys from a list.
pub(crate) fn remove(draft: &mut Draft, scope: Scope, specs: &[Spec])
    ensures { draft.new ≡ steps.remove (specs_for scope specs.now) draft.old }
{
    for spec in specs {
        if scope.takes(spec) {
            draft.remove(&spec.key);
        }
    }
}

/// Puts the entries into a list, the later ones over the earlier ones.
pub(crate) fn modify(
    draft: &mut Draft,
    scope: Scope,
    x: bool,
    specs: &[Spec],
) -> Result<(), AllocError>
    ensures { LeavesIn (Fits (size draft.old + length (specs_for scope specs.now))) result draft.new (steps.modify x (specs_for scope specs.now) draft.old) }
{
    for spec in specs {
        if scope.takes(spec) {
            draft.insert(spec.key, perms_of(x, &spec.perm))?;
        }
    }
    Ok(())
}

/// Puts the entries in place of the list, if there are any.
pub(crate) fn replace(
    alloc: Global,
    draft: &mut Draft,
    scope: Scope,
    x: bool,
    specs: &[Spec],
) -> Result<(), AllocError>
    ensures { LeavesIn (Fits (size draft.old + length (specs_for scope specs.now))) result draft.new (steps.replace x (specs_for scope specs.now) draft.old) }
{
    if scope.takes_some(specs) {
        *draft = Draft::new(alloc);
        modify(draft, scope, x, specs)?;
    }
    Ok(())
}

/// Copies the base entries that a list lacks from another.
pub(crate) fn fill_from(draft: &mut Draft, other: &Acl) -> Result<(), AllocError>
    ensures { LeavesIn (Fits (size draft.old + 3)) result draft.new (steps.fill_from other.now draft.old) }
{
    fill_one(draft, &Key::Owner, other)?;
    fill_one(draft, &Key::OwningGroup, other)?;
    fill_one(draft, &Key::Other, other)
}

/// Copies one entry, if the list lacks it.
fn fill_one(draft: &mut Draft, key: &Key, other: &Acl) -> Result<(), AllocError>
    ensures { LeavesIn (Fits (size draft.old + 1)) result draft.new (steps.fill_one other.now draft.old key.now) }
{
    if draft.get(*key).is_some() {
        return Ok(());
    }
    put_some(draft, key, other.get(*key))
}

/// Tells whether the list has a mask.
pub(crate) fn has_mask(draft: &Draft) -> bool
    ensures { result ≡ has_mask draft.now }
{
    draft.get(Key::Mask).is_some()
}

/// Tells whether the list names a user or a group.
fn has_named(draft: &Draft) -> bool
    ensures { result ≡ has_named draft.now }
{
    draft.entries().iter().any(|entry| entry.key.is_named())
}

/// Gives a list with named entries and without a mask one that is equal to the owning group.
fn add_mask(draft: &mut Draft) -> Result<(), AllocError>
    ensures { LeavesIn (Fits (size draft.old + 1)) result draft.new (masks.add_mask draft.old) }
{
    if has_named(draft) && !has_mask(draft) {
        if let Some(perm) = draft.get(Key::OwningGroup) {
            draft.insert(Key::Mask, perm)?;
        }
    }
    Ok(())
}

/// Makes the mask all that the group class has.
fn recalculate(draft: &mut Draft) -> Result<(), AllocError>
    ensures recalculated { OnOk result (draft.new ≡ masks.recalculate draft.old) }
    ensures room { IsOk result }
{
    if has_mask(draft) {
        let all = draft.class_union();
        draft.insert(Key::Mask, all)?;
    }
    Ok(())
}

/// Tells whether the line has the list's mask recalculated.
fn is_recalculated(line: &ChangeRef<'_>, which: Which) -> bool
    ensures { result ≡ is_recalculated line.now (part line.now which) }
{
    !line.no_mask && (line.remask || !line.gives_mask(which))
}

/// Completes a list with its mask; `lost` tells that the line removed one.
pub(crate) fn complete_mask(
    draft: &mut Draft,
    line: &ChangeRef<'_>,
    which: Which,
    lost: bool,
) -> Result<(), AllocError>
    ensures { LeavesIn (Fits (size draft.old + 1)) result draft.new (masks.with_mask line.now (part line.now which) lost draft.old) }
{
    if !lost {
        add_mask(draft)?;
    }
    if is_recalculated(line, which) {
        recalculate(draft)?;
    }
    Ok(())
}
