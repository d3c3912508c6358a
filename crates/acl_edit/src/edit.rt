//! What may be done to a file's lists: setfacl(1) and chacl(1), with entries as a command line or a text gives them; and what
//! it leaves of them.

ghost use Rattle.std.specs.Prelude.{◌≡◌, ◌≢◌, true, None, Err, IfOk, IsOk};
ghost use Rattle.acl_edit.specs.declared.edit.EditFault.TheVariants.{NoMemory, DefaultOnFile};
ghost use Rattle.acl_entry.specs.Lists.{or_else};
ghost use Rattle.acl_edit.specs.Edits as edits;
ghost use Rattle.acl_edit.specs.Edits.{Gives};
ghost use Rattle.acl_edit.specs.Nodes.{IsSound, HasValidLists};
ghost use Rattle.acl_edit.specs.Rooms.{Fits, HasShortLists, IsSmall, MakesIn, size, size_of};
ghost use Rattle.acl_edit.specs.Laws as laws;
ghost use Rattle.acl_edit.specs.Laws.{OnLine, GivesBack, misplaces_default};

use crate::change::{ChangeRef, change, clone_of};
use crate::{Kind, Node};
use acl_entry::{Acl, Id, Label, ListFault};
use acl_text::{Spec, Which};
use std::alloc::{AllocError, AllocFailed, Global};
use std::marker::Model;

/// An edit of one file.
#[derive(Drop)]
pub enum Edit {
    /// A setfacl(1) line, but for `-R`, `--restore` and `--test`. The order of its options on the line has no meaning.
    Change {
        /// `-b`: the access list keeps its base entries with what they grant, and the default list goes.
        strip: bool,
        /// `-k`: the default list goes.
        drop_default: bool,
        /// `-d`: plain entries are entries of the default list, and default entries are dropped.
        as_default: bool,
        /// `-n`: no mask is recalculated.
        no_mask: bool,
        /// `--mask`: the mask is recalculated even if one was given, but not under `-n`.
        remask: bool,
        /// `-x`, `-X`: the keys that are removed.
        remove: Specs,
        /// `--set`, `--set-file`: the entries that replace a list.
        set: Specs,
        /// `-m`, `-M`: the entries that are modified or added.
        modify: Specs,
    },
    /// chacl(1) with lists: each that is given is put in place of the file's.
    Put {
        access: Option<Acl>,
        dacl: Option<Acl>,
    },
    /// chacl(1) `-R`, `-D` and `-B`: under `access` the access list becomes the minimal list of the file's mode, and
    /// under `dacl` the default list goes.
    Flatten {
        access: bool,
        dacl: bool,
    },
    /// A record of `setfacl --restore`: a file without default list or flags in its record loses
    /// them, and keeps its owner or group if nobody is named.
    Restore {
        access: Acl,
        dacl: Option<Acl>,
        owner: Option<Id>,
        group: Option<Id>,
        flags: Option<[bool; 3]>,
    },
}

/// Why an edit is refused. If several apply, the first variant of this enum is returned, and the
/// access list's fault before the default list's.
#[derive(Clone, Copy, PartialEq, Eq, Debug)]
pub enum EditFault {
    /// Entries of a default list for a file that is not a directory.
    DefaultOnFile,
    /// The list that would result is not valid; its entries in list order have this fault, which is never that
    /// memory ran out.
    List(Which, ListFault),
    /// Memory ran out.
    NoMemory,
}

impl From<AllocError> for EditFault {
    ghost from_gives = { λ _ fault. fault ≡ NoMemory };

    fn from(_: AllocError) -> EditFault {
        EditFault::NoMemory
    }
}

impl<T: Drop> From<AllocFailed<T>> for EditFault {
    ghost from_gives = { λ _ fault. fault ≡ NoMemory };

    fn from(_: AllocFailed<T>) -> EditFault {
        EditFault::NoMemory
    }
}

/// Returns what an edit makes of a file. The borrowed file stays as it is. `in_recursion`: the edit goes to a whole
/// subtree (`-R`, chacl's `-r`), where default entries skip files that are not directories.
///
/// # Errors
///
/// Default entries or a default list for a file that is not a directory, but in a recursion, found whatever memory there
/// is; a resulting list that is not valid; that memory ran out, never if no list has more than eight entries,
/// counted with what a setfacl(1) line puts into it, a mask, and copied base entries.
pub fn apply(alloc: Global, node: &Node, edit: &Edit, in_recursion: bool) -> Result<Node, EditFault>
    ensures made { Gives (λ x. x) result (edits.edit node.now edit.now in_recursion) }
    ensures misplaced { misplaces_default node.now edit.now in_recursion ≡ true → result ≡ Err DefaultOnFile }
    ensures room { IsSmall node.now edit.now → result ≢ Err NoMemory }

    ensures valid { IfOk result HasValidLists }
    ensures sound { IsSound node.now → IfOk result IsSound }

    // What a setfacl(1) line keeps.
    ensures unnamed { OnLine laws.LeavesUnnamed node.now edit.now result }
    ensures shown { OnLine laws.ShowsRecalculated node.now edit.now result }
    ensures bounded { OnLine laws.BoundsRecalculated node.now edit.now result }
    ensures granted { OnLine laws.KeepsGranted node.now edit.now result }
    ensures modified { OnLine laws.GivesModified node.now edit.now result }
    ensures by_key { OnLine laws.GoesByKey node.now edit.now result }
    ensures every_key { OnLine laws.LeavesByKey node.now edit.now result }
    ensures copied { OnLine laws.CopiesBase node.now edit.now result }
    ensures masked { OnLine laws.MakesMask node.now edit.now result }
    ensures dropped { OnLine laws.DropsDefault node.now edit.now result }
{
    let edited = match edit {
        Edit::Change {
            strip,
            drop_default,
            as_default,
            no_mask,
            remask,
            remove,
            set,
            modify,
        } => {
            let line = ChangeRef {
                strip: *strip,
                drop_default: *drop_default,
                as_default: *as_default,
                no_mask: *no_mask,
                remask: *remask,
                remove,
                set,
                modify,
            };
            change(alloc, node, &line, in_recursion)?
        }
        Edit::Put { access, dacl } => put(alloc, node, access, dacl, in_recursion)?,
        Edit::Flatten { access, dacl } => flatten(alloc, node, *access, *dacl)?,
        Edit::Restore {
            access,
            dacl,
            owner,
            group,
            flags,
        } => restore_node(
            alloc,
            node,
            access,
            dacl,
            *owner,
            *group,
            *flags,
            in_recursion,
        )?,
    };
    edited.lists_are_valid();
    Ok(edited)
}

/// Returns the given default list, if the file may have one.
fn allowed(
    alloc: Global,
    kind: Kind,
    in_recursion: bool,
    dacl: &Option<Acl>,
) -> Result<Option<Acl>, EditFault>
    ensures made { Gives (λ x. x) result (edits.allowed kind in_recursion dacl.now) }
    ensures misplaced { edits.allowed kind in_recursion dacl.now ≡ Err DefaultOnFile → result ≡ Err DefaultOnFile }
    ensures room { Fits (size_of dacl.now) → result ≢ Err NoMemory }
    ensures sound { kind ≡ Kind.Plain → IfOk result (λ d. d ≡ None) }
{
    match kind {
        Kind::Directory => Ok(clone_of(alloc, dacl)?),
        Kind::Plain if dacl.is_none() || in_recursion => Ok(None),
        Kind::Plain => Err(EditFault::DefaultOnFile),
    }
}

/// Returns what a record of a dump makes of a file: the lists and the flags are put, and owner and group if the
/// record names them.
///
/// # Errors
///
/// A default list for a file that is not a directory, but in a recursion, found whatever memory there is; that memory
/// ran out, never if no list has more than eight entries.
#[tactic(auto, unfolding(crate::specs::Edits::restore))]
pub fn restore_node(
    alloc: Global,
    node: &Node,
    access: &Acl,
    dacl: &Option<Acl>,
    owner: Option<Id>,
    group: Option<Id>,
    flags: Option<[bool; 3]>,
    in_recursion: bool,
) -> Result<Node, EditFault>
    ensures made { Gives (λ x. x) result (edits.restore node.now access.now dacl.now owner group flags in_recursion) }
    ensures misplaced { edits.restore node.now access.now dacl.now owner group flags in_recursion ≡ Err DefaultOnFile → result ≡ Err DefaultOnFile }
    ensures room { Fits (size access.now) → Fits (size_of dacl.now) → result ≢ Err NoMemory }
    ensures sound { IfOk result IsSound }
{
    let dacl = allowed(alloc, node.kind, in_recursion, dacl)?;
    let acl = access.try_clone(alloc)?;
    Ok(Node {
        kind: node.kind,
        label: Label {
            owner: owner.unwrap_or(node.label.owner),
            group: group.unwrap_or(node.label.group),
            acl,
        },
        flags: flags.unwrap_or([false; 3]),
        dacl,
    })
}

/// Returns the given default list, or else a copy of the file's own.
fn given_or_clone(
    alloc: Global,
    given: Option<Acl>,
    dacl: &Option<Acl>,
) -> Result<Option<Acl>, AllocError>
    ensures { MakesIn (Fits (size_of dacl.now)) result (or_else given dacl.now) }
{
    match given {
        Some(dacl) => Ok(Some(dacl)),
        None => clone_of(alloc, dacl),
    }
}

/// Puts each list that is given, and copies the file's own otherwise.
#[tactic(auto, unfolding(crate::specs::Edits::put))]
fn put(
    alloc: Global,
    node: &Node,
    access: &Option<Acl>,
    dacl: &Option<Acl>,
    in_recursion: bool,
) -> Result<Node, EditFault>
    ensures made { Gives (λ x. x) result (edits.put node.now access.now dacl.now in_recursion) }
    ensures misplaced { edits.put node.now access.now dacl.now in_recursion ≡ Err DefaultOnFile → result ≡ Err DefaultOnFile }
    ensures room { HasShortLists node.now → Fits (size_of access.now) → Fits (size_of dacl.now) → result ≢ Err NoMemory }
    ensures sound { IsSound node.now → IfOk result IsSound }
{
    let given = allowed(alloc, node.kind, in_recursion, dacl)?;
    let dacl = given_or_clone(alloc, given, &node.dacl)?;
    let acl = access.as_ref().unwrap_or(&node.label.acl);
    let acl = acl.try_clone(alloc)?;
    Ok(node.with_lists(acl, dacl))
}

/// Makes the access list minimal if `access` says so, and drops the default list if `dacl` does.
#[tactic(auto, unfolding(crate::specs::Edits::flatten))]
fn flatten(alloc: Global, node: &Node, access: bool, dacl: bool) -> Result<Node, AllocError>
    ensures made { MakesIn (HasShortLists node.now) result (edits.flatten node.now access dacl) }
    ensures sound { IsSound node.now → IfOk result IsSound }
{
    let acl = if access {
        Acl::minimal(alloc, node.label.acl.mode())?
    } else {
        node.label.acl.try_clone(alloc)?
    };
    let dacl = if dacl {
        None
    } else {
        clone_of(alloc, &node.dacl)?
    };
    Ok(node.with_lists(acl, dacl))
}

impl Edit {
    /// Returns the edit that gives a file of the same kind the lists, the owner, the group and the flags of this one,
    /// as its record in a dump does, if this one is a directory or has no default list.
    pub fn restoring(alloc: Global, node: &Node) -> Result<Edit, AllocError>
        ensures gives_back { IsSound node.now → IfOk result (GivesBack node.now) }
        ensures room { HasShortLists node.now → IsOk result }
    {
        Ok(Edit::Restore {
            access: node.label.acl.try_clone(alloc)?,
            dacl: clone_of(alloc, &node.dacl)?,
            owner: Some(node.label.owner),
            group: Some(node.label.group),
            flags: Some(node.flags),
        })
    }
}

/// Entries in the order in which they were written; contracts see them as a list.
#[derive(Drop)]
pub struct Specs {
    pub list: Vec<Spec>,
}

impl Model for Specs {
    ghost use Rattle.std.specs.Prelude.{List};
    ghost use Rattle.std.specs.Coded.{coded_list};
    ghost use Rattle.acl_text.specs.declared.entries.Spec.{Spec};
    ghost use Rattle.acl_text.specs.contracts.entries.Spec as spec_contracts;

    ghost Value = { List Spec };

    ghost coded = { coded_list spec_contracts.the_row.coded };

    ghost view = { λ s. s.list.items };
}

impl Specs {
    /// Wraps entries.
    pub fn new(list: Vec<Spec>) -> Specs
        ensures { result ≡ list.items }
    {
        Specs { list }
    }

    /// Returns the entries, in their order.
    pub fn as_slice(&self) -> &[Spec]
        ensures { result.now ≡ self.now }
    {
        &self.list
    }
}
