//! creat: a new file in a directory.

ghost use Rattle.std.specs.Prelude.{◌≡◌, ◌≢◌, None, Some, IfOk, IfErr, OnErr, IsOkUnless};
ghost use Rattle.std.specs.FinMap.{put};
ghost use Rattle.acl_names.specs.Paths.{path_cmp};
ghost use Rattle.acl_edit.specs.Creation.{inherit};
ghost use Rattle.acl_edit.specs.Nodes.{IsSound};
ghost use Rattle.acl_names.specs.Below.{parent};
ghost use Rattle.acl_tree.specs.Creat.{row_of, exists, directory_at, creat_by};
ghost use Rattle.acl_tree.specs.InnerCommands.{Gives, IsNewIn, whole};
ghost use Rattle.acl_tree.specs.Reports.{Prepares};
ghost use Rattle.acl_tree.specs.declared.command.Command.TheVariants.{Creat};

use crate::command::NewFile;
use crate::dump::MAX_FILES;
use crate::fault::TreeFault;
use crate::files::Files;
use crate::records::put_file;
use crate::region::Region;
use crate::state::BorrowedState;
use crate::step::Staged;
use acl_edit::{Kind, Node, create};
use acl_names::{Name, Path};
use acl_people::People;
use acl_text::PasswdRow;
use std::alloc::Global;

/// Finds the row of the user that a word means.
fn row_of<'a>(alloc: Global, people: &'a People, user: &Name) -> Result<&'a PasswdRow, TreeFault>
    ensures found { IfOk result (λ row. row_of people.now user.now ≡ Some row.now) }
    ensures none { OnErr result (row_of people.now user.now ≡ None) }
    ensures fault { IfErr result (λ fault. fault ≢ TreeFault.NoMemory → fault ≡ TreeFault.NoSuchUser user.now) }
{
    match people
        .find_user(user.as_bytes())
        .and_then(|at| people.user_row(at))
    {
        Some(row) => Ok(row),
        None => Err(TreeFault::NoSuchUser {
            name: user.try_clone(alloc)?,
        }),
    }
}

/// Tells whether a file is recorded at a path or below it.
fn exists(tree: &Files, path: &Path) -> bool
    ensures { result ≡ exists path.now tree.now.files }
{
    tree.files_by_path().has_within(path)
}

fn directory_of<'a>(alloc: Global, tree: &'a Files, path: &Path) -> Result<&'a Node, TreeFault>
    ensures { Gives (λ node. node.now) result (directory_at (parent path.now) tree.now.files) }
{
    let path = path.parent(alloc)?;
    match tree.get(&path) {
        None => Err(TreeFault::NoSuchFile { path }),
        Some(node) if node.kind == Kind::Directory => Ok(node),
        Some(_) => Err(TreeFault::NotDirectory { path }),
    }
}

fn node_of(
    alloc: Global,
    directory: &Node,
    new: &NewFile,
    owner: &PasswdRow,
) -> Result<Node, TreeFault>
    ensures made { IfOk result (λ node. node ≡ inherit directory.now new.now.kind new.now.mode new.now.umask owner.now.uid owner.now.gid) }
    ensures sound { IfOk result IsSound }
    ensures memory { IsOkUnless result TreeFault.NoMemory }
{
    match create(
        alloc, directory, new.kind, new.mode, new.umask, owner.uid, owner.gid,
    ) {
        Ok(node) => Ok(node),
        Err(_) => Err(TreeFault::NoMemory),
    }
}

/// Makes the node of a user's new file, in its directory.
fn new_file(
    alloc: Global,
    tree: &Files,
    new: &NewFile,
    owner: &PasswdRow,
) -> Result<Node, TreeFault>
    ensures made { Gives (λ node. record tree.now { files = put path_cmp new.now.path node tree.now.files }) result
        (creat_by new.now tree.now (Some owner.now)) }
    ensures fits { IfOk result (λ node. IsNewIn tree.now.files (new.now.path, node)) }
{
    tree.soundness_law();
    if exists(tree, &new.path) {
        return Err(TreeFault::Exists {
            path: new.path.try_clone(alloc)?,
        });
    }
    let directory = directory_of(alloc, tree, &new.path)?;
    if tree.files_by_path().len() >= MAX_FILES {
        return Err(TreeFault::TooMany);
    }
    Ok(node_of(alloc, directory, new, owner)?)
}

/// Makes a file.
pub(crate) fn prepare_creat(
    alloc: Global,
    state: &BorrowedState<'_>,
    new: &NewFile,
) -> Result<Staged, TreeFault>
    ensures { Prepares (whole state.now) (Creat new.now) result }
{
    let tree = state.tree;
    let owner = row_of(alloc, state.people, &new.user)?;
    let node = new_file(alloc, tree, new, owner)?;
    let by_path = put_file(alloc, tree.files_by_path(), &new.path, node)?;
    let files = Files::of(by_path, tree.is_loaded());
    let staged = Staged::with_files(state, files, Region::at(alloc, &new.path)?)?;
    Ok(staged)
}
