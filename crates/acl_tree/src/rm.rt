//! rm: files removed.

ghost use Rattle.std.specs.FinMap.{find};
ghost use Rattle.acl_names.specs.Paths.{path_cmp};
ghost use Rattle.acl_tree.specs.InnerCommands.{IsRefusedFor, whole};
ghost use Rattle.acl_tree.specs.Reports.{Prepares};
ghost use Rattle.acl_tree.specs.Rm.{refusal, first_refused};
ghost use Rattle.acl_tree.specs.declared.command.Command.TheVariants.{Rm};

use crate::fault::TreeFault;
use crate::files::Files;
use crate::records::without_files;
use crate::region::Region;
use crate::selection::Selection;
use crate::state::BorrowedState;
use crate::step::Staged;
use acl_edit::Kind;
use acl_names::Path;
use std::alloc::Global;

/// Checks that an operand may be removed.
fn check_one(alloc: Global, tree: &Files, recursive: bool, path: &Path) -> Result<(), TreeFault>
    ensures { IsRefusedFor result (refusal recursive path.now (find path_cmp path.now tree.now.files)) }
{
    let Some(node) = tree.get(path) else {
        return Err(TreeFault::NoSuchFile {
            path: path.try_clone(alloc)?,
        });
    };
    if node.kind == Kind::Directory && !recursive {
        return Err(TreeFault::IsDirectory {
            path: path.try_clone(alloc)?,
        });
    }
    Ok(())
}

/// Checks that all operands may be removed; else returns the fault of the first that may not.
fn check_all(alloc: Global, tree: &Files, selection: &Selection<'_>) -> Result<(), TreeFault>
    ensures { IsRefusedFor result (first_refused selection.now.recursive selection.now.operands.now tree.now.files) }
{
    let mut rest = selection.operands.as_slice();
    while let [path, more @ ..] = rest {
        check_one(alloc, tree, selection.recursive, path)?;
        rest = more;
    }
    Ok(())
}

/// Removes files.
pub(crate) fn prepare_rm(
    alloc: Global,
    state: &BorrowedState<'_>,
    selection: &Selection<'_>,
) -> Result<Staged, TreeFault>
    ensures { Prepares (whole state.now) (Rm selection.now.operands.now selection.now.recursive) result }
{
    let tree = state.tree;
    check_all(alloc, tree, selection)?;
    let touched = Region::of(alloc, selection)?;
    let by_path = without_files(alloc, tree.files_by_path(), &touched)?;
    let files = Files::of(by_path, tree.is_loaded());
    let staged = Staged::with_files(state, files, touched)?;
    Ok(staged)
}
