//! What a setfacl(1) line leaves of a file's lists: its entries, each for one of the two.

ghost use Rattle.std.specs.Prelude.{◌≡◌, ◌≢◌, ◌+◌, Err, IfOk};
ghost use Rattle.std.specs.List.{list_any};
ghost use Rattle.acl_edit.specs.Parts as parts;
ghost use Rattle.acl_edit.specs.Parts.{part, is_mask, is_given, is_for, is_of_mask, specs_for};
ghost use Rattle.acl_edit.specs.Masks.{takes_mask};
ghost use Rattle.acl_edit.specs.Steps as steps;
ghost use Rattle.acl_edit.specs.Edits as edits;
ghost use Rattle.acl_edit.specs.Edits.{Gives, worked, is_misplaced};
ghost use Rattle.acl_edit.specs.Nodes.{IsSound};
ghost use Rattle.acl_edit.specs.Rooms.{Fits, FitsPart, HasRoom, LeavesIn, MakesIn, size, size_of, puts_of};
ghost use Rattle.acl_edit.specs.Laws.{IsLeft};
ghost use Rattle.acl_edit.specs.declared.edit.EditFault.TheVariants.{DefaultOnFile, NoMemory};

use crate::steps::{
    complete_mask, fill_from, gives_execute, has_mask, modify, remove, replace, strip,
};
use crate::{EditFault, Kind, Node, Specs};
use acl_entry::{Acl, Draft, Key};
use acl_text::{Spec, Which};
use std::alloc::{AllocError, Global};
use std::marker::Model;

/// A setfacl(1) line that changes lists, borrowed from its edit.
#[derive(Drop)]
pub(crate) struct ChangeRef<'a> {
    pub strip: bool,
    pub drop_default: bool,
    pub as_default: bool,
    pub no_mask: bool,
    pub remask: bool,
    pub remove: &'a Specs,
    pub set: &'a Specs,
    pub modify: &'a Specs,
}

impl<'a> Model for ChangeRef<'a> {
    ghost use Rattle.acl_edit.specs.Changes.{Change, options};

    ghost Value = { Change };

    ghost view = { λ c. options c.strip c.drop_default c.as_default c.no_mask c.remask c.remove.now c.set.now c.modify.now };
}

impl ChangeRef<'_> {
    /// Tells whether the line removes the list's mask.
    fn takes_mask(&self, which: Which, draft: &Draft) -> bool
        ensures { result ≡ takes_mask (part self.now which) draft.now }
    {
        has_mask(draft) && self.scope(which).takes_mask(self.remove.as_slice())
    }

    /// Replaces, removes and modifies; returns whether the list lost its mask.
    #[tactic(auto, unfolding(crate::specs::Edits::worked))]
    fn work(
        &self,
        alloc: Global,
        which: Which,
        x: bool,
        draft: &mut Draft,
    ) -> Result<bool, AllocError>
        ensures list { LeavesIn (Fits (size draft.old + puts_of (part self.now which))) result draft.new (worked x (part self.now which) draft.old) }
        ensures lost { IfOk result (λ lost. lost ≡ takes_mask (part self.now which) (steps.replace x (part self.now which).set draft.old)) }
    {
        let scope = self.scope(which);
        replace(alloc, draft, scope, x, self.set.as_slice())?;
        let lost = self.takes_mask(which, draft);
        remove(draft, scope, self.remove.as_slice());
        modify(draft, scope, x, self.modify.as_slice())?;
        Ok(lost)
    }

    /// Does the line's steps on an access list.
    #[tactic(auto, unfolding(crate::specs::Edits::access_after))]
    fn edit_access(&self, alloc: Global, x: bool, draft: &mut Draft) -> Result<(), AllocError>
        ensures { LeavesIn (FitsPart self.now Which.Access 1 draft.old) result draft.new (edits.access_after self.now x draft.old) }
    {
        if self.names(Which::Access) {
            let lost = self.work(alloc, Which::Access, x, draft)?;
            complete_mask(draft, self, Which::Access, lost)?;
        }
        Ok(())
    }

    /// Does the line's steps on a default list, beside the access list that they left.
    #[tactic(auto, unfolding(crate::specs::Edits::default_after))]
    fn edit_default(
        &self,
        alloc: Global,
        x: bool,
        acl: &Acl,
        draft: &mut Draft,
    ) -> Result<(), AllocError>
        ensures { LeavesIn (FitsPart self.now Which.Default 4 draft.old) result draft.new (edits.default_after self.now x acl.now draft.old) }
    {
        if self.names(Which::Default) {
            let lost = self.work(alloc, Which::Default, x, draft)?;
            if self.puts(Which::Default) {
                fill_from(draft, acl)?;
            }
            complete_mask(draft, self, Which::Default, lost)?;
        }
        Ok(())
    }

    /// Returns the access list that the steps begin with.
    fn access_before(&self, alloc: Global, acl: &Acl) -> Result<Draft, AllocError>
        ensures { MakesIn (Fits (size acl.now)) result (edits.access_before self.now acl.now) }
    {
        if self.strip {
            strip(alloc, acl)
        } else {
            Draft::of(alloc, acl)
        }
    }

    /// Returns the default list of a file that is not a directory, if there is one: -b and -k remove it.
    fn kept_default(&self, alloc: Global, dacl: &Option<Acl>) -> Result<Option<Acl>, AllocError>
        ensures { MakesIn (Fits (size_of dacl.now)) result (edits.kept_default self.now dacl.now) }
    {
        if self.strip || self.drop_default {
            return Ok(None);
        }
        clone_of(alloc, dacl)
    }

    /// Returns the default list that the steps begin with.
    fn default_before(&self, alloc: Global, dacl: &Option<Acl>) -> Result<Draft, AllocError>
        ensures { MakesIn (Fits (size_of dacl.now)) result (edits.default_before self.now dacl.now) }
    {
        match dacl {
            Some(acl) if !self.strip && !self.drop_default => Draft::of(alloc, acl),
            _ => Ok(Draft::new(alloc)),
        }
    }
}

/// Makes the entries a list, if they are one.
fn checked(which: Which, draft: Draft) -> Result<Acl, EditFault>
    ensures made { Gives (λ x. x) result (edits.checked which draft) }
    ensures memory { result ≢ Err NoMemory }
{
    match draft.finish() {
        Ok(acl) => Ok(acl),
        Err(fault) => Err(EditFault::List(which, fault)),
    }
}

/// Makes the entries a default list; `None` if there are no entries.
fn checked_default(draft: Draft) -> Result<Option<Acl>, EditFault>
    ensures made { Gives (λ x. x) result (edits.checked_default draft) }
    ensures memory { result ≢ Err NoMemory }
{
    if draft.entries().is_empty() {
        return Ok(None);
    }
    Ok(Some(checked(Which::Default, draft)?))
}

/// Returns the access list that a line leaves.
fn changed_access(
    alloc: Global,
    node: &Node,
    line: &ChangeRef<'_>,
    x: bool,
) -> Result<Acl, EditFault>
    requires { x ≡ steps.gives_execute node.now }
    ensures made { Gives (λ x. x) result (edits.changed_access node.now line.now) }
    ensures room { HasRoom node.now line.now → result ≢ Err NoMemory }
{
    let mut draft = line.access_before(alloc, &node.label.acl)?;
    line.edit_access(alloc, x, &mut draft)?;
    checked(Which::Access, draft)
}

/// Returns the default list that a line leaves.
fn changed_default(
    alloc: Global,
    node: &Node,
    line: &ChangeRef<'_>,
    x: bool,
    acl: &Acl,
) -> Result<Option<Acl>, EditFault>
    requires { x ≡ steps.gives_execute node.now }
    ensures made { Gives (λ x. x) result (edits.changed_default node.now.kind node.now line.now acl.now) }
    ensures room { HasRoom node.now line.now → result ≢ Err NoMemory }
{
    if node.kind == Kind::Plain {
        return Ok(line.kept_default(alloc, &node.dacl)?);
    }
    let mut draft = line.default_before(alloc, &node.dacl)?;
    line.edit_default(alloc, x, acl, &mut draft)?;
    checked_default(draft)
}

/// Copies a list, if there is one.
pub(crate) fn clone_of(alloc: Global, acl: &Option<Acl>) -> Result<Option<Acl>, AllocError>
    ensures { MakesIn (Fits (size_of acl.now)) result acl.now }
{
    match acl {
        Some(acl) => Ok(Some(acl.try_clone(alloc)?)),
        None => Ok(None),
    }
}

/// Tells whether the line puts default entries into a file that is not a directory, and not in a recursion.
fn is_misplaced(node: &Node, line: &ChangeRef<'_>, in_recursion: bool) -> bool
    ensures { result ≡ is_misplaced node.now line.now in_recursion }
{
    node.kind != Kind::Directory && !in_recursion && line.puts(Which::Default)
}

/// Returns the file after a setfacl(1) line.
#[tactic(auto, unfolding(crate::specs::Edits::change))]
pub(crate) fn change(
    alloc: Global,
    node: &Node,
    line: &ChangeRef<'_>,
    in_recursion: bool,
) -> Result<Node, EditFault>
    ensures made { Gives (λ x. x) result (edits.change node.now line.now in_recursion) }
    ensures misplaced { edits.change node.now line.now in_recursion ≡ Err DefaultOnFile → result ≡ Err DefaultOnFile }
    ensures room { HasRoom node.now line.now → result ≢ Err NoMemory }
    ensures left { IfOk result (IsLeft node.now line.now) }
    ensures sound { IsSound node.now → IfOk result IsSound }
{
    node.lists_are_valid();
    if is_misplaced(node, line, in_recursion) {
        return Err(EditFault::DefaultOnFile);
    }
    let x = gives_execute(node);
    let acl = changed_access(alloc, node, line, x)?;
    let dacl = changed_default(alloc, node, line, x, &acl)?;
    Ok(node.with_lists(acl, dacl))
}

/// The entries for one list.
#[derive(Clone, Copy)]
pub(crate) struct Scope {
    pub which: Which,
    /// `-d`: plain entries are default ones, and default ones are dropped.
    pub as_default: bool,
}

impl Scope {
    /// Tells whether the entry is for the list.
    pub fn takes(self, spec: &Spec) -> bool
        ensures { result ≡ is_for self.as_default self.which spec.now }
    {
        match self.which {
            Which::Access => !self.as_default && !spec.dflt,
            Which::Default => spec.dflt != self.as_default,
        }
    }

    /// Tells whether an entry is for the list.
    pub fn takes_some(self, specs: &[Spec]) -> bool
        ensures { result ≡ is_given (specs_for self specs.now) }
    {
        for spec in specs {
            if self.takes(spec) {
                return true;
            }
        }
        false
    }

    /// Tells whether an entry is the list's mask.
    pub fn takes_mask(self, specs: &[Spec]) -> bool
        ensures { result ≡ list_any is_of_mask (specs_for self specs.now) }
    {
        for spec in specs {
            if self.takes(spec) && is_mask(&spec.key) {
                return true;
            }
        }
        false
    }
}

/// Tells whether it is the mask's key.
pub(crate) fn is_mask(key: &Key) -> bool
    ensures { result ≡ is_mask key.now }
{
    matches!(key, Key::Mask)
}

impl ChangeRef<'_> {
    /// Returns the entries for this list.
    pub(crate) fn scope(&self, which: Which) -> Scope
        ensures { result ≡ record { which = which; as_default = self.now.as_default } }
    {
        Scope {
            which,
            as_default: self.as_default,
        }
    }

    /// Tells whether the line puts entries into the list.
    pub(crate) fn puts(&self, which: Which) -> bool
        ensures { result ≡ parts.puts (part self.now which) }
    {
        let scope = self.scope(which);
        scope.takes_some(self.set.as_slice()) || scope.takes_some(self.modify.as_slice())
    }

    /// Tells whether the line names an entry of the list.
    pub(crate) fn names(&self, which: Which) -> bool
        ensures { result ≡ parts.names (part self.now which) }
    {
        self.scope(which).takes_some(self.remove.as_slice()) || self.puts(which)
    }

    /// Tells whether the line gives the list a mask.
    pub(crate) fn gives_mask(&self, which: Which) -> bool
        ensures { result ≡ parts.gives_mask (part self.now which) }
    {
        let scope = self.scope(which);
        scope.takes_mask(self.set.as_slice()) || scope.takes_mask(self.modify.as_slice())
    }
}
