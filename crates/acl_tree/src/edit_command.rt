//! Files are edited: setfacl(1) and chacl(1), `setfacl --restore`, chmod(1).

ghost use Rattle.std.specs.Prelude.{◌≡◌, IfOk};
ghost use Rattle.acl_tree.specs.Edits.{of_each, edit_all};
ghost use Rattle.acl_text.specs.InTurn.{GivesUnless};
ghost use Rattle.acl_tree.specs.InnerCommands.{IsStaged, whole};
ghost use Rattle.acl_tree.specs.Reports.{Prepares};
ghost use Rattle.acl_tree.specs.declared.user_change.UserChange.{UserChange};
ghost use Rattle.acl_tree.specs.declared.command.Command.TheVariants as commands;
ghost use Rattle.acl_tree.specs.declared.command.Command.TheVariants.{Restore};

use crate::edit::{FileFault, NodeEdit, edit_files};
use crate::fault::TreeFault;
use crate::region::Region;
use crate::restore::{DumpRecords, restore_files};
use crate::selection::{Selection, look_up};
use crate::state::BorrowedState;
use crate::step::Staged;
use acl_edit::{Edit, EditFault, Node, apply, chmod};
use std::alloc::Global;

/// One edit for each file, in a recursion or not.
#[derive(Clone, Copy)]
struct EachFile<'a> {
    edit: &'a Edit,
    recursive: bool,
}

impl NodeEdit for EachFile<'_> {
    ghost use Rattle.acl_edit.specs.Edits as edits;

    ghost edited = { λ each n. edits.edit n each.edit.now each.recursive };

    fn edited(&self, alloc: Global, node: &Node) -> Result<Node, EditFault> {
        apply(alloc, node, self.edit, self.recursive)
    }

    /// Proof only: a directory stays one, and only directories have default lists.
    fn keeps_place(&self) {}
}

/// Returns the state with the files of a command edited. The people stay as they are.
pub(crate) fn stage_edits<E: NodeEdit>(
    alloc: Global,
    state: &BorrowedState<'_>,
    selection: &Selection<'_>,
    edit: &E,
) -> Result<Staged, FileFault>
    ensures made { GivesUnless FileFault.NoMemory (λ staged. staged.state.tree) result
        (edit_all (of_each (E.edited edit.now)) selection.now.recursive selection.now.operands.now state.now.tree.now) }
    ensures people { IfOk result (λ staged. staged.state.people ≡ state.now.people.now) }
    ensures staged { IfOk result (IsStaged (whole state.now) UserChange.Unchanged) }
{
    state.tree.soundness_law();
    let touched = Region::of(alloc, selection)?;
    let edited = edit_files(alloc, state.tree, &touched, edit)?;
    let staged = Staged::with_files(state, edited, touched)?;
    Ok(staged.keeping_files())
}

/// Edits the files of a command.
pub(crate) fn prepare_edit(
    alloc: Global,
    state: &BorrowedState<'_>,
    selection: &Selection<'_>,
    edit: &Edit,
) -> Result<Staged, TreeFault>
    ensures { Prepares (whole state.now) (commands.Edit selection.now.operands.now edit.now selection.now.recursive) result }
{
    look_up(alloc, state.tree, selection.operands.as_slice())?;
    let each = EachFile {
        edit,
        recursive: selection.recursive,
    };
    Ok(stage_edits(alloc, state, selection, &each)?)
}

/// The low twelve bits of a mode, to be put into a file.
#[derive(Clone, Copy)]
struct Mode {
    bits: u16,
}

impl NodeEdit for Mode {
    ghost use Rattle.std.specs.Prelude.{Ok};
    ghost use Rattle.acl_edit.specs.Nodes as nodes;

    ghost edited = { λ mode n. Ok (nodes.chmod n mode.bits) };

    fn edited(&self, alloc: Global, node: &Node) -> Result<Node, EditFault> {
        let mut node = node.try_clone(alloc)?;
        chmod(&mut node, self.bits);
        Ok(node)
    }

    /// Proof only: a directory stays one, and only directories have default lists.
    fn keeps_place(&self) {}
}

/// Puts a mode into the files of a command.
pub(crate) fn prepare_chmod(
    alloc: Global,
    state: &BorrowedState<'_>,
    selection: &Selection<'_>,
    mode: u16,
) -> Result<Staged, TreeFault>
    ensures { Prepares (whole state.now) (commands.Chmod selection.now.operands.now mode selection.now.recursive) result }
{
    state.tree.soundness_law();
    look_up(alloc, state.tree, selection.operands.as_slice())?;
    match stage_edits(alloc, state, selection, &Mode { bits: mode }) {
        Ok(staged) => Ok(staged),
        Err(_) => Err(TreeFault::NoMemory),
    }
}

/// Restores the files of records.
pub(crate) fn prepare_restore(
    alloc: Global,
    state: &BorrowedState<'_>,
    records: &DumpRecords,
) -> Result<Staged, TreeFault>
    ensures { Prepares (whole state.now) (Restore records.now) result }
{
    state.tree.soundness_law();
    let after = restore_files(alloc, state.tree, records)?;
    let (restored, touched) = after;
    let staged = Staged::with_files(state, restored, touched)?;
    Ok(staged.keeping_files())
}
