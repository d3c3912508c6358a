//! Edits of the files of a command: each file of it is edited, or none.

ghost use Rattle.std.specs.Prelude.{◌≡◌, true, Ok, IfOk};
ghost use Rattle.acl_text.specs.InTurn.{GivesUnless};
ghost use Rattle.acl_edit.specs.Edits.{Gives};
ghost use Rattle.acl_names.specs.Paths.{PathOf};
ghost use Rattle.acl_tree.specs.Operands.{in_region};
ghost use Rattle.acl_tree.specs.Edits.{OneEdit, KeepsPlaces, of_each, edit_all, file_fault};
ghost use Rattle.acl_tree.specs.Inner.{EditsOne, fault_of};
ghost use Rattle.acl_tree.specs.declared.edit.FileFault.{FileFault};

use crate::fault::TreeFault;
use crate::files::Files;
use crate::region::{Region, numbers_in};
use acl_edit::{EditFault, Node};
use acl_names::Path;
use kinds::{KindEdit, Stop};
use std::alloc::{AllocError, AllocFailed, Global};

/// What a command does to the node of each of its files.
pub trait NodeEdit {
    ghost edited: { Self → OneEdit };

    /// Returns the node after the edit.
    fn edited(&self, alloc: Global, node: &Node) -> Result<Node, EditFault>
        ensures { Gives (λ x. x) result (edited self.now node.now) };

    /// Proof only: a directory stays one, and only directories have default lists.
    fn keeps_place(&self)
        ensures { KeepsPlaces (of_each (edited self.now)) };
}

/// Why the files of a command are not edited.
#[derive(Debug, Drop)]
pub enum FileFault {
    /// The first file in path order whose edit fails.
    Edit { path: Path, fault: EditFault },
    /// Memory ran out.
    NoMemory,
}

impl From<AllocError> for FileFault {
    ghost from_gives = { λ _ fault. fault ≡ FileFault.NoMemory };

    fn from(_: AllocError) -> FileFault {
        FileFault::NoMemory
    }
}

impl<T: Drop> From<AllocFailed<T>> for FileFault {
    ghost from_gives = { λ _ fault. fault ≡ FileFault.NoMemory };

    fn from(_: AllocFailed<T>) -> FileFault {
        FileFault::NoMemory
    }
}

impl From<Stop<(Path, EditFault)>> for FileFault {
    ghost from_gives = { λ stop fault. fault ≡ fault_of stop };

    fn from(stop: Stop<(Path, EditFault)>) -> FileFault {
        match stop {
            Stop::Fault((path, fault)) => FileFault::Edit { path, fault },
            Stop::NoMemory => FileFault::NoMemory,
        }
    }
}

impl From<FileFault> for TreeFault {
    ghost from_gives = { λ file fault. fault ≡ file_fault file };

    fn from(fault: FileFault) -> TreeFault {
        match fault {
            FileFault::Edit { path, fault } => TreeFault::Edit { path, fault },
            FileFault::NoMemory => TreeFault::NoMemory,
        }
    }
}

/// Edits a file's node, or returns the fault with its path.
pub(crate) fn edit_one<E: NodeEdit>(
    alloc: Global,
    edit: &E,
    path: &Path,
    node: &Node,
) -> Result<Node, FileFault>
    ensures { EditsOne (of_each (E.edited edit.now)) (path.now, node.now) result }
{
    match edit.edited(alloc, node) {
        Ok(node) => Ok(node),
        Err(EditFault::NoMemory) => Err(FileFault::NoMemory),
        Err(fault) => Err(FileFault::Edit {
            path: path.try_clone(alloc)?,
            fault,
        }),
    }
}

/// An edit of a command, as one of nodes by their numbers.
#[derive(Drop)]
struct ByKind<'a, E> {
    edit: &'a E,
}

impl<E: NodeEdit> KindEdit<Node> for ByKind<'_, E> {
    type Fault = EditFault;

    ghost edited = { λ by. E.edited by.edit.now };

    fn edited(&self, alloc: Global, node: &Node) -> Result<Node, Stop<EditFault>> {
        match self.edit.edited(alloc, node) {
            Ok(node) => Ok(node),
            Err(EditFault::NoMemory) => Err(Stop::NoMemory),
            Err(fault) => Err(Stop::Fault(fault)),
        }
    }
}

/// Edits all files of a tree, which the region means, or returns the fault of one of them. Each number is edited
/// once, and no path is read.
fn edit_whole<E: NodeEdit>(
    alloc: Global,
    tree: &Files,
    region: &Region,
    edit: &E,
) -> Result<Files, Stop<EditFault>>
    requires { (q : PathOf) → in_region region.now q ≡ true }
    ensures { IfOk result (λ new. edit_all (of_each (E.edited edit.now)) region.now.0 region.now.1 tree.now ≡ Ok new) }
{
    edit.keeps_place();
    let files = tree.files_by_path();
    let _sound = files.kinds();
    let map = files.edited_all(alloc, &ByKind { edit })?;
    Ok(Files::of(map, tree.is_loaded()))
}

/// Edits the files that a region means, one after another.
fn edit_some<E: NodeEdit>(
    alloc: Global,
    tree: &Files,
    region: &Region,
    edit: &E,
) -> Result<Files, FileFault>
    ensures { GivesUnless FileFault.NoMemory (λ t. t) result (edit_all (of_each (E.edited edit.now)) region.now.0 region.now.1 tree.now) }
{
    edit.keeps_place();
    let files = tree.files_by_path();
    let entries = numbers_in(alloc, files.numbers(), region)?;
    let edited = files.edited(alloc, &entries, &ByKind { edit })?;
    Ok(Files::of(edited.map, tree.is_loaded()))
}

/// Edits the files that a region means. If the edit of one of all files fails, the first such one is found.
pub fn edit_files<E: NodeEdit>(
    alloc: Global,
    tree: &Files,
    region: &Region,
    edit: &E,
) -> Result<Files, FileFault>
    ensures { GivesUnless FileFault.NoMemory (λ t. t) result (edit_all (of_each (E.edited edit.now)) region.now.0 region.now.1 tree.now) }
{
    if region.is_everything() {
        match edit_whole(alloc, tree, region, edit) {
            Ok(edited) => return Ok(edited),
            Err(Stop::NoMemory) => return Err(FileFault::NoMemory),
            Err(Stop::Fault(fault)) => drop(fault),
        }
    }
    edit_some(alloc, tree, region, edit)
}
