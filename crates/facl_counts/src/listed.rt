//! What `below --list` prints: the first of the files at or below some paths on which one user is granted a request.

ghost use Rattle.std.specs.Prelude.{◌≡◌, ◌≢◌, ◌++◌, ◌&&◌, ◌∷◌, [], false, None, if◌then◌else◌, take, IfOk, IfErr, OnOk};
ghost use Rattle.std.specs.Option.{option_map_or};
ghost use Rattle.acl_entry.specs.Check.{has};
ghost use Rattle.acl_tree.specs.Operands.{first_missing, IsMissing};
ghost use Rattle.path_classes.specs.ClassesWithin.{paths_seen, inside, AreTops};
ghost use Rattle.path_map.specs.Below.{within};
ghost use Rattle.facl_counts.specs.BelowText.{is_of_kind, listed_text};
ghost use Rattle.facl_counts.specs.Listed.{left_within, listed_in, listed_of, AddsListed};

use crate::below::{Asked, push_found, tops};
use crate::class_counts::{is_of_kind, next_within};
use acl_edit::{Kind, Node};
use acl_entry::Requests;
use acl_names::Path;
use acl_rights::{FileClasses, Judge, Verdicts};
use acl_tree::{FilesIter, FoundFile, Paths, Selection, TreeFault};
use std::alloc::{AllocError, Global};

/// What is listed: of the files that count for the user at a place the first ones.
#[derive(Clone, Copy)]
pub struct Listing {
    pub asked: Asked,
    pub user: usize,
    /// How many files at most.
    pub most: usize,
}

/// An iterator over files in path order, and over their classes.
#[derive(Drop)]
pub(crate) struct ListedWalk<'a> {
    files: FilesIter<'a>,
    classes: FileClasses<'a>,
}

/// Tells whether a file is of a kind, if there is one.
fn is_asked(kind: Option<Kind>, node: &Node) -> bool
    ensures { result ≡ is_of_kind kind node.now }
{
    match kind {
        Some(kind) => is_of_kind(kind, node),
        None => true,
    }
}

/// Tells whether a file counts for a user who is granted this on it, if the user is there.
fn is_listed(asked: &Asked, node: &Node, verdict: Option<Requests>) -> bool
    ensures { result ≡ (is_of_kind asked.now.kind node.now && option_map_or (λ granted. has granted asked.now.request) verdict false) }
{
    let is_granted = match verdict {
        Some(granted) => granted.has(asked.request),
        None => false,
    };
    is_asked(asked.kind, node) && is_granted
}

/// Adds a file, if it is listed.
fn push_if<'a>(
    found: &mut Vec<FoundFile<'a>>,
    is_listed: bool,
    file: FoundFile<'a>,
) -> Result<(), AllocError>
    ensures { OnOk result (found.new.items ≡ found.old.items ++ (if is_listed then file.entry ∷ [] else [])) }
{
    if is_listed {
        found.push(file)?;
    }
    Ok(())
}

/// Adds the listed files of a walk at or below `top`, up to `listing.most` in all.
fn collect_files<'a>(
    alloc: Global,
    found: &mut Vec<FoundFile<'a>>,
    walk: &mut ListedWalk<'a>,
    listing: &Listing,
    top: &Path,
) -> Result<(), AllocError>
    ensures { OnOk result (AddsListed listing.now found.old.items found.new.items (listed_of listing.now (left_within top.now walk.old))) }
{
    while found.len() < listing.most {
        let Some((_, class)) = next_within(alloc, &mut walk.classes, top)? else {
            return Ok(());
        };
        let Some((path, node)) = walk.files.next() else {
            return Ok(());
        };
        let verdict = walk.classes.cell(class, listing.user);
        let is_listed = is_listed(&listing.asked, node, verdict);
        push_if(found, is_listed, FoundFile::before(path, node, &walk.files))?;
    }
    Ok(())
}

/// Adds the listed files at or below `top`, up to `listing.most` in all; all before them were added.
fn collect_below<'a, J: Judge>(
    alloc: Global,
    found: &mut Vec<FoundFile<'a>>,
    verdicts: &Verdicts<'a, J>,
    listing: &Listing,
    top: &Path,
) -> Result<(), AllocError>
    ensures { OnOk result (AddsListed listing.now found.old.items found.new.items
        (listed_in J.verdict_of verdicts.now.along verdicts.now.state.now listing.now (within top.now verdicts.now.state.now.tree.files))) }
{
    let tree = verdicts.state.state().tree();
    tree.soundness_law();
    let mut classes = verdicts.classes_from(alloc, top);
    classes.keep_apart();
    let mut walk = ListedWalk {
        files: tree.files_whole().files_by_path().from(top),
        classes,
    };
    collect_files(alloc, found, &mut walk, listing, top)
}

/// Returns the first of the files at or below `tops` that are listed: path by path, so that no other file is looked at.
fn listed_below<'a, J: Judge>(
    alloc: Global,
    verdicts: &Verdicts<'a, J>,
    listing: &Listing,
    tops: &[&Path],
) -> Result<Vec<FoundFile<'a>>, AllocError>
    requires { AreTops (paths_seen tops.now) }
    ensures { IfOk result (λ found. found.items ≡ take listing.now.most
        (listed_in J.verdict_of verdicts.now.along verdicts.now.state.now listing.now (inside (paths_seen tops.now) verdicts.now.state.now.tree.files))) }
{
    verdicts.state.state().tree().soundness_law();
    let mut found = Vec::new(alloc);
    for top in tops {
        collect_below(alloc, &mut found, verdicts, listing, *top)?;
    }
    Ok(found)
}

/// Writes what `below --list` prints: of the files at or below one of some paths on which a user is granted a request,
/// all files or those of one kind, the first ones, a line each, in path order.
///
/// # Errors
///
/// `NoSuchFile` of the first path that is not recorded, or `NoMemory`.
pub fn write_listed<J: Judge>(
    alloc: Global,
    verdicts: &Verdicts<'_, J>,
    listing: &Listing,
    paths: &Paths,
) -> Result<Vec<u8>, TreeFault>
    ensures text { IfOk result (λ text. text.items ≡ listed_text J.verdict_of verdicts.now.along verdicts.now.state.now
        listing.now.asked.request listing.now.asked.kind paths.now listing.now.user listing.now.most) }
    ensures there { OnOk result (first_missing paths.now verdicts.now.state.now.tree.files ≡ None) }
    ensures reported { IfErr result (λ fault. fault ≢ TreeFault.NoMemory → IsMissing fault (first_missing paths.now verdicts.now.state.now.tree.files)) }
{
    let state = verdicts.state.state();
    state.tree().soundness_law();
    let selection = Selection {
        operands: paths,
        recursive: false,
    };
    let files = state.tree().files(alloc, &selection)?;
    let tops = tops(alloc, &files)?;
    let found = listed_below(alloc, verdicts, listing, &tops)?;
    let mut text = Vec::new(alloc);
    push_found(&mut text, &found)?;
    Ok(text)
}
