//! What `below` prints: on how many files at or below some paths each user is granted a request, and on which first.

ghost use Rattle.std.specs.Prelude.{◌≡◌, ◌≢◌, ◌++◌, ℕ, List, [], None, true, Vec, map, IfOk, IfErr, OnOk};
ghost use Rattle.std.specs.declared.alloc.Global.{Global};
ghost use Rattle.std.specs.List.{flat_map};
ghost use Rattle.acl_names.specs.Paths.{PathOf};
ghost use Rattle.path_map.specs.Below.{from, within};
ghost use Rattle.path_map.specs.Entries.{IsInOrder};
ghost use Rattle.path_classes.specs.ClassesWithin.{paths_seen, is_inside, inside, AreTops};
ghost use Rattle.path_classes.specs.Rows.{Rows};
ghost use Rattle.acl_rights.specs.Verdicts.{rows_granted};
ghost use Rattle.acl_tree.specs.Operands.{first_missing, IsMissing};
ghost use Rattle.facl_answers.specs.Answers.{file_line};
ghost use Rattle.facl_counts.specs.BelowText.{below_text};
ghost use Rattle.facl_counts.specs.Sums.{rows_of_kind, sum_of, sum_line, sum_lines, AreCounted, AreSums};

use crate::class_counts::{add_tallies, count_files, count_found, count_kind};
use crate::count_texts::push_count;
use crate::sums::{UserSum, UserSums};
use crate::tallies::Tallies;
use acl_edit::Kind;
use acl_entry::Perm;
use acl_names::Path;
use acl_rights::{FileClasses, Judge, Verdicts};
use acl_tree::{FoundFile, Paths, Selection, Tree, TreeFault};
use facl_answers::{files_at, push_file, written_names};
use path_classes::tops_of;
use std::alloc::{AllocError, Global};

/// What is asked of files: which of them count for a user.
#[derive(Clone, Copy)]
pub struct Asked {
    /// The request that has to be granted.
    pub request: Perm,
    /// The kind of files that count; all do if there is none.
    pub kind: Option<Kind>,
}

pub(crate) fn push_found(text: &mut Vec<u8>, files: &[FoundFile<'_>]) -> Result<(), AllocError>
    ensures { OnOk result (text.new.items ≡ text.old.items ++ flat_map file_line files.now) }
{
    for file in files {
        push_file(text, file)?;
    }
    Ok(())
}

/// Adds the line of a user, if there is a file.
fn push_sum(
    text: &mut Vec<u8>,
    tree: &Tree,
    name: &[u8],
    sum: &UserSum<'_>,
) -> Result<(), AllocError>
    ensures { OnOk result (text.new.items ≡ text.old.items ++ sum_line tree.now.files name.now (sum_of sum.now)) }
{
    let Some(first) = sum.first else {
        return Ok(());
    };
    let files = files_at(*text.allocator(), tree, first)?;
    push_count(text, sum.count, name)?;
    push_found(text, &files)
}

fn push_sums(
    text: &mut Vec<u8>,
    tree: &Tree,
    names: &[Vec<u8>],
    sums: &UserSums<'_>,
) -> Result<(), AllocError>
    ensures { OnOk result (text.new.items ≡ text.old.items ++ sum_lines tree.now.files (map (λ n. n.items) names.now) sums.now) }
{
    for at in 0..names.len() {
        if let Some(sum) = sums.get(at) {
            push_sum(text, tree, &names[at], &sum)?;
        }
    }
    Ok(())
}

/// Returns the paths of files that are below none of the others, in path order.
pub(crate) fn tops<'a>(alloc: Global, files: &[FoundFile<'a>]) -> Result<Vec<&'a Path>, AllocError>
    requires { IsInOrder (map (λ file. (file.path, file.node)) files.now) }
    ensures tops { IfOk result (λ tops. AreTops (paths_seen tops.items)) }
    ensures covers { IfOk result (λ tops. (q : PathOf) → is_inside (paths_seen tops.items) q ≡ is_inside (map (λ file. file.path) files.now) q) }
{
    let mut paths = Vec::new(alloc);
    for file in files {
        paths.push((file.path(), ()))?;
    }
    let none: Vec<(&Path, ())> = Vec::new(alloc);
    let tops = tops_of(alloc, &paths, &none)?;
    Ok(tops)
}

/// Adds all files to the sums of users.
fn add_all<'a, J: Judge>(
    alloc: Global,
    sums: &mut UserSums<'a>,
    verdicts: &Verdicts<'a, J>,
    request: Perm,
) -> Result<(), AllocError>
    ensures { OnOk result ((names : List (Vec ℕ Global)) (seen : Rows) → AreSums request seen names sums.old
        → AreSums request (seen ++ rows_granted J.verdict_of verdicts.now.along verdicts.now.state.now) names sums.new) }
{
    let (classes, found) = verdicts.counted_classes(alloc)?;
    let tallies = count_found(alloc, &found)?;
    add_tallies(alloc, sums, &classes, request, tallies.as_slice())?;
    Ok(())
}

/// Tells whether all files count at a path or below it.
fn are_all(kind: Option<Kind>, top: &Path) -> bool
    ensures kind { result ≡ true → kind ≡ None }
    ensures root { result ≡ true → top.now ≡ [] }
{
    kind.is_none() && top.borrowed().is_root()
}

/// Counts the files of a kind at a path or below it by their classes; `classes` are those of the files from there on.
fn count_below<'a, J: Judge>(
    alloc: Global,
    verdicts: &Verdicts<'a, J>,
    classes: &mut FileClasses<'a>,
    kind: Option<Kind>,
    top: &Path,
) -> Result<Tallies<'a>, AllocError>
    requires { classes.old.1 ≡ from top.now (rows_granted J.verdict_of verdicts.now.along verdicts.now.state.now) }
    ensures { IfOk result (λ tallies. AreCounted classes.new.0 (within top.now (rows_of_kind J.verdict_of verdicts.now.along verdicts.now.state.now kind)) tallies) }
{
    let tree = verdicts.state.state().tree();
    tree.soundness_law();
    let Some(kind) = kind else {
        return count_files(alloc, classes, top);
    };
    let mut files = tree.files_whole().files_by_path().from(top);
    count_kind(alloc, &mut files, classes, kind, top)
}

/// Adds the files of the question at or below `top` to the sums of users; all before them were added.
fn add_below<'a, J: Judge>(
    alloc: Global,
    sums: &mut UserSums<'a>,
    verdicts: &Verdicts<'a, J>,
    asked: &Asked,
    top: &Path,
) -> Result<(), AllocError>
    ensures { OnOk result ((names : List (Vec ℕ Global)) (seen : Rows) → AreSums asked.now.request seen names sums.old
        → AreSums asked.now.request (seen ++ within top.now (rows_of_kind J.verdict_of verdicts.now.along verdicts.now.state.now asked.now.kind)) names sums.new) }
{
    if are_all(asked.kind, top) {
        return add_all(alloc, sums, verdicts, asked.request);
    }
    let mut classes = verdicts.classes_from(alloc, top);
    let tallies = count_below(alloc, verdicts, &mut classes, asked.kind, top)?;
    add_tallies(alloc, sums, &classes, asked.request, tallies.as_slice())?;
    Ok(())
}

/// Counts for each user how many of the files at or below `tops` count, and finds the first of these files: path by
/// path, so that no other file is looked at.
pub(crate) fn sums_below<'a, J: Judge>(
    alloc: Global,
    verdicts: &Verdicts<'a, J>,
    asked: &Asked,
    tops: &[&Path],
    names: &[Vec<u8>],
) -> Result<UserSums<'a>, AllocError>
    requires { AreTops (paths_seen tops.now) }
    ensures { IfOk result (λ sums. AreSums asked.now.request
        (inside (paths_seen tops.now) (rows_of_kind J.verdict_of verdicts.now.along verdicts.now.state.now asked.now.kind)) names.now sums) }
{
    verdicts.state.state().tree().soundness_law();
    let mut sums = UserSums::new(alloc, names)?;
    for top in tops {
        add_below(alloc, &mut sums, verdicts, asked, *top)?;
    }
    Ok(sums)
}

/// Writes what `below` prints: for each user, in the order of the rows, who is granted a request on a file at or
/// below one of some paths, all files or those of one kind, a line of the number of these files, the user's name and
/// the first of them in path order.
///
/// # Errors
///
/// `NoSuchFile` of the first path that is not recorded, or `NoMemory`.
pub fn write_below<J: Judge>(
    alloc: Global,
    verdicts: &Verdicts<'_, J>,
    asked: &Asked,
    paths: &Paths,
) -> Result<Vec<u8>, TreeFault>
    ensures text { IfOk result (λ text. text.items ≡ below_text J.verdict_of verdicts.now.along verdicts.now.state.now asked.now.request asked.now.kind paths.now) }
    ensures there { OnOk result (first_missing paths.now verdicts.now.state.now.tree.files ≡ None) }
    ensures reported { IfErr result (λ fault. fault ≢ TreeFault.NoMemory → IsMissing fault (first_missing paths.now verdicts.now.state.now.tree.files)) }
{
    let state = verdicts.state.state();
    state.tree().soundness_law();
    let selection = Selection {
        operands: paths,
        recursive: false,
    };
    let files = state.tree().files(alloc, &selection)?;
    let tops = tops(alloc, &files)?;
    let names = written_names(alloc, state.people())?;
    let sums = sums_below(alloc, verdicts, asked, &tops, &names)?;
    let mut text = Vec::new(alloc);
    push_sums(&mut text, state.tree(), &names, &sums)?;
    Ok(text)
}
