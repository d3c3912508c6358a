//! What `below --depth` prints: folder by folder on how many files at it or below it each user is granted a request.

ghost use Rattle.std.specs.Prelude.{◌≡◌, ◌≢◌, ◌++◌, ◌∷◌, [], None, true, ◌+◌, nat_le, length, filter, map, IfOk, IfErr, OnOk};
ghost use Rattle.std.specs.List.{flat_map};
ghost use Rattle.acl_tree.specs.Found.{files_found};
ghost use Rattle.acl_tree.specs.Operands.{first_missing, IsMissing};
ghost use Rattle.acl_names.specs.Names.{escaped};
ghost use Rattle.facl_counts.specs.BelowText.{folder_lines, folders_text, is_folder};
ghost use Rattle.facl_counts.specs.Sums.{folder_sum, folder_sum_at, folder_sums, lines_by, sum_of};

use crate::below::{Asked, sums_below};
use crate::count_texts::push_count;
use crate::sums::{UserSum, UserSums};
use acl_edit::Kind;
use acl_names::Path;
use acl_rights::{Judge, Verdicts};
use acl_tree::{FoundFile, Paths, Selection, Tree, TreeFault};
use facl_answers::{push_file, written_names};
use std::alloc::{AllocError, Global};

/// Of which folders and users lines are printed.
#[derive(Clone, Copy)]
pub struct Folders {
    pub asked: Asked,
    /// The place of the one user, if not all are in question.
    pub user: Option<usize>,
    /// How many levels below a path folders are at most.
    pub depth: usize,
}

/// Tells whether a path has at most `more` components more than another one.
fn is_so_deep(path: &Path, top: &Path, more: usize) -> bool
    ensures { result ≡ nat_le (length path.now) (length top.now + more) }
{
    let mut left = more;
    let mut parts = top.components();
    let mut rest = path.components();
    while let Some(_component) = rest.next() {
        if parts.next().is_none() {
            if left == 0 {
                return false;
            }
            left -= 1;
        }
    }
    true
}

/// Tells whether a file at a path or below it is a folder.
fn is_folder(depth: usize, path: &Path, file: &FoundFile<'_>) -> bool
    ensures { result ≡ is_folder depth path.now file.now }
{
    let is_directory = file.node().kind == Kind::Directory;
    is_so_deep(file.path(), path, depth) && (is_directory || is_so_deep(file.path(), path, 0))
}

/// Copies the folders among some files.
fn folders_among<'a>(
    alloc: Global,
    files: &[FoundFile<'a>],
    depth: usize,
    path: &Path,
) -> Result<Vec<FoundFile<'a>>, AllocError>
    ensures { IfOk result (λ folders. folders.items ≡ filter (is_folder depth path.now) files.now) }
{
    let mut folders = Vec::new(alloc);
    for file in files {
        if is_folder(depth, path, file) {
            folders.push(FoundFile::new(file.path(), file.node(), file.has_below()))?;
        }
    }
    Ok(folders)
}

/// Returns the folders at or below a path.
fn folders_of<'a>(
    alloc: Global,
    tree: &'a Tree,
    depth: usize,
    path: &Path,
) -> Result<Vec<FoundFile<'a>>, TreeFault>
    ensures folders { IfOk result (λ folders. folders.items ≡ filter (is_folder depth path.now) (files_found true (path.now ∷ []) tree.now.files)) }
    ensures there { OnOk result (first_missing (path.now ∷ []) tree.now.files ≡ None) }
    ensures reported { IfErr result (λ fault. fault ≢ TreeFault.NoMemory → IsMissing fault (first_missing (path.now ∷ []) tree.now.files)) }
{
    let mut one = Vec::new(alloc);
    one.push(path.try_clone(alloc)?)?;
    let paths = Paths::new(one);
    let selection = Selection {
        operands: &paths,
        recursive: true,
    };
    let files = tree.files(alloc, &selection)?;
    Ok(folders_among(alloc, &files, depth, path)?)
}

/// Adds the line of a folder and a user, if there is a file.
fn push_folder_sum(
    text: &mut Vec<u8>,
    folder: &FoundFile<'_>,
    name: &[u8],
    sum: &UserSum<'_>,
) -> Result<(), AllocError>
    ensures { OnOk result (text.new.items ≡ text.old.items ++ folder_sum folder.now name.now (sum_of sum.now)) }
{
    let Some(_first) = sum.first else {
        return Ok(());
    };
    push_count(text, sum.count, name)?;
    push_file(text, folder)
}

/// Adds the lines of a folder, for all users.
fn push_all_users(
    text: &mut Vec<u8>,
    folder: &FoundFile<'_>,
    names: &[Vec<u8>],
    sums: &UserSums<'_>,
) -> Result<(), AllocError>
    ensures { OnOk result (text.new.items ≡ text.old.items ++ lines_by (folder_sum folder.now) (map (λ n. n.items) names.now) sums.now) }
{
    for at in 0..names.len() {
        if let Some(sum) = sums.get(at) {
            push_folder_sum(text, folder, &names[at], &sum)?;
        }
    }
    Ok(())
}

/// Adds the line of a folder for the user at a place.
fn push_one_user(
    text: &mut Vec<u8>,
    folder: &FoundFile<'_>,
    names: &[Vec<u8>],
    sums: &UserSums<'_>,
    user: usize,
) -> Result<(), AllocError>
    ensures { OnOk result (text.new.items ≡ text.old.items ++ folder_sum_at folder.now (map (λ n. n.items) names.now) sums.now user) }
{
    let Some(sum) = sums.get(user) else {
        return Ok(());
    };
    match names.get(user) {
        Some(name) => push_folder_sum(text, folder, name, &sum),
        None => Ok(()),
    }
}

/// Adds the lines of a folder.
fn push_folder_sums(
    text: &mut Vec<u8>,
    folder: &FoundFile<'_>,
    names: &[Vec<u8>],
    sums: &UserSums<'_>,
    user: Option<usize>,
) -> Result<(), AllocError>
    ensures { OnOk result (text.new.items ≡ text.old.items ++ folder_sums folder.now user (map (λ n. n.items) names.now) sums.now) }
{
    match user {
        None => push_all_users(text, folder, names, sums),
        Some(user) => push_one_user(text, folder, names, sums, user),
    }
}

/// Adds the lines of some folders: their files are counted as `write_below` counts those of a path.
fn push_folders<J: Judge>(
    text: &mut Vec<u8>,
    verdicts: &Verdicts<'_, J>,
    which: &Folders,
    names: &[Vec<u8>],
    folders: &[FoundFile<'_>],
) -> Result<(), AllocError>
    requires { map (λ n. n.items) names.now ≡ map (λ row. escaped row.name) verdicts.now.state.now.people.users }
    ensures { OnOk result (text.new.items ≡ text.old.items ++ flat_map
        (folder_lines J.verdict_of verdicts.now.along verdicts.now.state.now which.now.asked.request which.now.asked.kind which.now.user) folders.now) }
{
    for folder in folders {
        let tops = [folder.path()];
        let sums = sums_below(*text.allocator(), verdicts, &which.asked, &tops, names)?;
        push_folder_sums(text, folder, names, &sums, which.user)?;
    }
    Ok(())
}

/// Writes what `below --depth` prints: for each of some paths, for it and each directory at most `which.depth` levels
/// below it, and for each user in the order of the rows, or one user, a line of the number of files at or below it on
/// which the user is granted a request, all files or those of one kind, the user's name and the folder; none if there
/// are no such files.
///
/// # Errors
///
/// `NoSuchFile` of the first path that is not recorded, or `NoMemory`.
pub fn write_folders<J: Judge>(
    alloc: Global,
    verdicts: &Verdicts<'_, J>,
    which: &Folders,
    paths: &Paths,
) -> Result<Vec<u8>, TreeFault>
    ensures text { IfOk result (λ text. text.items ≡ folders_text J.verdict_of verdicts.now.along verdicts.now.state.now
        which.now.asked.request which.now.asked.kind which.now.user which.now.depth paths.now) }
    ensures there { OnOk result (first_missing paths.now verdicts.now.state.now.tree.files ≡ None) }
    ensures reported { IfErr result (λ fault. fault ≢ TreeFault.NoMemory → IsMissing fault (first_missing paths.now verdicts.now.state.now.tree.files)) }
{
    let state = verdicts.state.state();
    let names = written_names(alloc, state.people())?;
    let mut text = Vec::new(alloc);
    for path in paths.as_slice() {
        let folders = folders_of(alloc, state.tree(), which.depth, path)?;
        push_folders(&mut text, verdicts, which, &names, &folders)?;
    }
    Ok(text)
}
