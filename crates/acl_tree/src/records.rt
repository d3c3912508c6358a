//! Makes files of a dump's records, sorted by their paths; puts files into a map, and removes them.

ghost use Rattle.std.specs.Prelude.{◌≡◌, true, not, reverse, IfOk, unwrap_or, filter};
ghost use Rattle.std.specs.FinMap.{put};
ghost use Rattle.acl_names.specs.Paths.{path_cmp};
ghost use Rattle.path_map.specs.Entries.{IsInOrder};
ghost use Rattle.kinds.specs.Numbered.{entries_in};
ghost use Rattle.acl_text.specs.OwnPaths.{have_own_paths};
ghost use Rattle.acl_tree.specs.Loading.{node_of, files_of, in_path_order};
ghost use Rattle.acl_tree.specs.Inner.{next_below, files_from};
ghost use Rattle.acl_tree.specs.Operands.{in_region};

use crate::alike::AlikeNodes;
use crate::region::{Region, numbers_in};
use acl_edit::{Kind, Node};
use acl_entry::{Acl, Id, Label};
use acl_names::Path;
use acl_text::{DumpRecord, Shared};
use kinds::{KindMap, KindMapBuilder, KindPuts};
use std::alloc::{AllocError, Global};

/// Puts a file.
pub fn put_file(
    alloc: Global,
    files: &KindMap<Node>,
    path: &Path,
    node: Node,
) -> Result<KindMap<Node>, AllocError>
    ensures { IfOk result (λ new. entries_in new ≡ put path_cmp path.now node (entries_in files.now)) }
{
    let puts = KindPuts::new(alloc, files)?;
    let puts = puts.push(alloc, path, node, &AlikeNodes)?;
    puts.finish(alloc)
}

/// Removes the files that a region means.
pub fn without_files(
    alloc: Global,
    files: &KindMap<Node>,
    region: &Region,
) -> Result<KindMap<Node>, AllocError>
    ensures { IfOk result (λ new. entries_in new ≡ filter (λ e. not (in_region region.now e.0)) (entries_in files.now)) }
{
    let entries = numbers_in(alloc, files.numbers(), region)?;
    files.without_all(alloc, &entries)
}

/// Returns the kind of a recorded file: a directory if it is the root or is written with a final `/`, if a file is
/// below it, or if its record has a default list.
fn kind_of(has_below: bool, entry: &DumpRecord) -> Kind
    ensures { result ≡ (node_of has_below entry.now).kind }
{
    if entry.slash || entry.path.components().is_empty() || entry.dacl.is_some() || has_below {
        Kind::Directory
    } else {
        Kind::Plain
    }
}

/// Returns the id, or that of root if there is none.
fn id_or_root(id: Option<Id>) -> Id
    ensures { result ≡ unwrap_or id 0 }
{
    match id {
        Some(id) => id,
        None => Id::new(0).unwrap(),
    }
}

/// Copies a record's default list, if there is one.
pub fn copy_of(alloc: Global, dacl: &Option<Shared<Acl>>) -> Result<Option<Acl>, AllocError>
    ensures { IfOk result (λ copy. copy ≡ dacl.now) }
{
    match dacl {
        None => Ok(None),
        Some(acl) => Ok(Some(acl.get().try_clone(alloc)?)),
    }
}

/// Makes the file of a record, with copies of its lists.
fn file_of(alloc: Global, has_below: bool, entry: DumpRecord) -> Result<(Path, Node), AllocError>
    ensures { IfOk result (λ file. file ≡ (entry.path, node_of has_below entry)) }
{
    let acl = entry.access.get().try_clone(alloc)?;
    let dacl = copy_of(alloc, &entry.dacl)?;
    let node = Node {
        kind: kind_of(has_below, &entry),
        label: Label {
            owner: id_or_root(entry.owner),
            group: id_or_root(entry.group),
            acl,
        },
        flags: entry.flags.unwrap_or([false; 3]),
        dacl,
    };
    Ok((entry.path, node))
}

/// Tells whether the next record is below a path. `following` is in path order from the last to the first.
fn is_followed_below(path: &Path, following: &[DumpRecord]) -> bool
    ensures { result ≡ next_below path.now (reverse following.now) }
{
    match following {
        [.., next] => next.path.is_below(path),
        [] => false,
    }
}

/// How many records are moved out before the memory that they took is freed.
const FREED_AT_ONCE: usize = 1024;

/// Frees the memory of records that were moved out, as soon as they are many.
fn free_moved(left: &mut Vec<DumpRecord>)
    ensures { left.new.items ≡ left.old.items }
{
    if left.len() % FREED_AT_ONCE == 0 {
        left.shrink_to_fit();
    }
}

/// Moves records that are in path order into a map, and frees the memory of records meanwhile.
fn map_of(alloc: Global, sorted: Vec<DumpRecord>) -> Result<KindMap<Node>, AllocError>
    requires { IsInOrder (files_from sorted.items) }
    ensures { IfOk result (λ files. entries_in files ≡ files_from sorted.items) }
{
    let mut files = KindMapBuilder::new(alloc);
    let mut left = sorted;
    left.reverse();
    while let Some(entry) = left.pop() {
        let has_below = is_followed_below(&entry.path, &left);
        let file = file_of(alloc, has_below, entry)?;
        let (path, node) = file;
        files = files.push(alloc, path, node, &AlikeNodes)?;
        free_moved(&mut left);
    }
    files.finish(alloc)
}

/// Makes the map of the files of a dump's records.
pub fn files_of(alloc: Global, records: Vec<DumpRecord>) -> Result<KindMap<Node>, AllocError>
    requires { have_own_paths records.items ≡ true }
    ensures { IfOk result (λ files. entries_in files ≡ files_of records.items) }
{
    map_of(alloc, in_path_order(records))
}

/// Sorts the records by path.
pub fn in_path_order(records: Vec<DumpRecord>) -> Vec<DumpRecord>
    requires { have_own_paths records.items ≡ true }
    ensures { result.items ≡ in_path_order records.items }
{
    let mut sorted = records;
    sorted.sort_unstable_by(|a, b| a.path.order(&b.path));
    sorted
}
