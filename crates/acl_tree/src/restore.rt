//! setfacl(1) --restore: files get back what their records contain.

ghost use Rattle.std.specs.Prelude.{◌≡◌, ◌≢◌, true, map, false, IfOk, IfErr, Ok, Err, List, ◌∷◌, unwrap_or};
ghost use Rattle.std.specs.List.Sorted.{IsPermutation};
ghost use Rattle.std.specs.Coded.{coded_list};
ghost use Rattle.kinds.specs.Numbered.{entries_in};
ghost use Rattle.acl_text.specs.InTurn.{GivesUnless};
ghost use Rattle.acl_text.specs.OwnPaths.{have_own_paths};
ghost use Rattle.acl_edit.specs.Edits.{no_flags};
ghost use Rattle.acl_edit.specs.Nodes.{IsSound};
ghost use Rattle.acl_tree.specs.Loading.{in_path_order};
ghost use Rattle.acl_tree.specs.Changed.{SameBut};
ghost use Rattle.acl_tree.specs.Inner.{AreFilesOf, restore_each, RestoredFile, coded_restored, restored_by, restored, SomeEdited, IsPutOrLeft, paths_in};
ghost use Rattle.acl_tree.specs.Operands.{LooksUp, first_missing, in_region};
ghost use Rattle.acl_tree.specs.Restoring.{paths_of, restored_tree};
ghost use Rattle.acl_text.specs.contracts.record.DumpRecord as record_contracts;
ghost use Rattle.acl_text.specs.declared.record.DumpRecord.{DumpRecord as Whole};

use crate::alike::AlikeNodes;
use crate::edit::{FileFault, NodeEdit, edit_one};
use crate::fault::TreeFault;
use crate::files::Files;
use crate::records::copy_of;
use crate::region::Region;
use acl_edit::{EditFault, Kind, Node, restore_node};
use acl_names::Path;
use acl_text::DumpRecord;
use kinds::{KindMap, KindPuts};
use std::alloc::{AllocError, Global};
use std::marker::Model;

/// Records of a dump, no two of one path.
#[derive(Drop)]
pub struct DumpRecords {
    list: Vec<DumpRecord>,
}

impl Model for DumpRecords {
    ghost Value = { List Whole };

    ghost coded = { coded_list record_contracts.the_row.coded };

    ghost view = { λ r. r.list.items };

    ghost invariant = { λ r. have_own_paths r.list.items ≡ true };
}

impl DumpRecords {
    /// Returns the records, in their order.
    pub fn new(list: Vec<DumpRecord>) -> DumpRecords
        requires { have_own_paths list.items ≡ true }
        ensures { result ≡ list.items }
    {
        DumpRecords { list }
    }

    /// Returns the records, in their order.
    pub fn as_slice(&self) -> &[DumpRecord]
        ensures all { result.now ≡ self.now }
        ensures apart { have_own_paths self.now ≡ true }
    {
        &self.list
    }
}

/// A recorded file, and the record that it is restored from.
#[derive(Drop)]
struct Restored<'a> {
    node: &'a Node,
    entry: &'a DumpRecord,
}

impl<'a> Model for Restored<'a> {
    ghost Value = { RestoredFile };

    ghost coded = { coded_restored };

    ghost view = { λ r. ((r.entry.now.path, r.node.now), r.entry.now) };
}

/// The record is for its file alone.
impl NodeEdit for Restored<'_> {
    ghost edited = { λ restored n. restored_by restored.1 n };

    fn edited(&self, alloc: Global, node: &Node) -> Result<Node, EditFault> {
        let entry = self.entry;
        let dacl = copy_of(alloc, &entry.dacl)?;
        restore_node(
            alloc,
            node,
            entry.access.get(),
            &dacl,
            entry.owner,
            entry.group,
            entry.flags,
            false,
        )
    }

    /// Proof only: a directory stays one, and only directories have default lists.
    fn keeps_place(&self) {}
}

/// Finds the files of records, in the order of the records; or returns the first path that is not recorded.
fn files_of<'a>(
    alloc: Global,
    tree: &'a Files,
    records: &'a [DumpRecord],
) -> Result<Vec<Restored<'a>>, TreeFault>
    ensures found { IfOk result (λ found. AreFilesOf tree.now.files records.now found.items) }
    ensures there { LooksUp result (first_missing (paths_of records.now) tree.now.files) }
{
    let mut found = Vec::with_capacity(alloc, records.len())?;
    let mut finder = tree.finder();
    let mut rest = records;
    while let [entry, more @ ..] = rest {
        let Some(node) = finder.get(&entry.path) else {
            return Err(TreeFault::NoSuchFile {
                path: entry.path.try_clone(alloc)?,
            });
        };
        found.push(Restored { node, entry })?;
        rest = more;
    }
    Ok(found)
}

fn in_path_order(found: Vec<Restored<'_>>) -> Vec<Restored<'_>>
    requires { have_own_paths (map (λ x. x.1) found.items) ≡ true }
    ensures order { map (λ x. x.1) result.items ≡ in_path_order (map (λ x. x.1) found.entry.items) }
    ensures same { IsPermutation found.entry.items result.items }
{
    let mut sorted = found;
    sorted.sort_unstable_by(|a, b| a.entry.path.order(&b.entry.path));
    sorted
}

/// Tells whether a file has the owner and the group of a record, as far as it names them.
fn has_ids(node: &Node, entry: &DumpRecord) -> bool
    ensures { result ≡ true → (unwrap_or entry.now.owner node.now.label.owner ≡ node.now.label.owner)
        × (unwrap_or entry.now.group node.now.label.group ≡ node.now.label.group) }
{
    let label = &node.label;
    entry.owner.unwrap_or(label.owner) == label.owner
        && entry.group.unwrap_or(label.group) == label.group
}

/// Tells whether a file has the flags of a record, or none if that has no such line.
fn has_recorded_flags(node: &Node, entry: &DumpRecord) -> bool
    ensures { result ≡ true → unwrap_or entry.now.flags no_flags ≡ node.now.flags }
{
    entry.flags.unwrap_or([false; 3]) == node.flags
}

/// Tells whether a file has the default list of a record, which only a directory may have.
fn has_recorded_default(node: &Node, entry: &DumpRecord) -> bool
    ensures { result ≡ true → (entry.now.dacl ≡ node.now.dacl) × IsSound node.now }
{
    match (&entry.dacl, &node.dacl) {
        (None, None) => true,
        (Some(one), Some(other)) => node.kind == Kind::Directory && one.get().same(other),
        _ => false,
    }
}

/// Tells whether a file is what its record makes of it.
fn is_as_recorded(node: &Node, entry: &DumpRecord) -> bool
    ensures { result ≡ true → restored_by entry.now node.now ≡ Ok node.now }
{
    if !has_ids(node, entry) || !has_recorded_flags(node, entry) {
        return false;
    }
    if !entry.access.get().same(&node.label.acl) {
        return false;
    }
    has_recorded_default(node, entry)
}

/// Puts a file with its edited node, and adds its path to `touched`, unless it is what its record makes of it.
fn put_restored<'a>(
    alloc: Global,
    puts: KindPuts<'a, Node>,
    touched: &mut Vec<Path>,
    file: &Restored<'a>,
) -> Result<KindPuts<'a, Node>, FileFault>
    ensures before { IfOk result (λ new. new.0 ≡ puts.entry.0) }
    ensures made { IfOk result (λ new. IsPutOrLeft file.now puts.entry.1 new.1) }
    ensures touched { IfOk result (λ new. paths_in puts.entry.1 ≡ touched.old.items → paths_in new.1 ≡ touched.new.items) }
    ensures refused { IfErr result (λ fault. fault ≢ FileFault.NoMemory → (rest : List RestoredFile) → restore_each (file.now ∷ rest) ≡ Err fault) }
{
    let (entry, old) = (file.entry, file.node);
    if is_as_recorded(old, entry) {
        return Ok(puts);
    }
    let node = edit_one(alloc, file, &entry.path, old)?;
    touched.push(entry.path.try_clone(alloc)?)?;
    let puts = puts.push(alloc, &entry.path, node, &AlikeNodes)?;
    Ok(puts)
}

/// Puts the files as their records have them, but for those that stay as they are; and returns the paths of those
/// that are put.
fn restore_each<'a>(
    alloc: Global,
    files: &'a KindMap<Node>,
    found: &[Restored<'a>],
) -> Result<(KindPuts<'a, Node>, Vec<Path>), FileFault>
    ensures before { IfOk result (λ new. new.0.0 ≡ entries_in files.now) }
    ensures made { IfOk result (λ new. SomeEdited (λ x. x.0) restored found.now new.0.1) }
    ensures touched { IfOk result (λ new. paths_in new.0.1 ≡ new.1.items) }
    ensures refused { IfErr result (λ fault. fault ≢ FileFault.NoMemory → restore_each found.now ≡ Err fault) }
{
    let mut puts = KindPuts::new(alloc, files)?;
    let mut touched = Vec::new(alloc);
    let mut rest = found;
    while let [restored, more @ ..] = rest {
        puts = put_restored(alloc, puts, &mut touched, restored)?;
        rest = more;
    }
    Ok((puts, touched))
}

/// Restores the files of records, and returns a region outside of which no file is another one than before.
pub fn restore_files(
    alloc: Global,
    tree: &Files,
    records: &DumpRecords,
) -> Result<(Files, Region), TreeFault>
    ensures restored { GivesUnless TreeFault.NoMemory (λ new. new.0) result (restored_tree records.now tree.now) }
    ensures others { IfOk result (λ new. SameBut (in_region new.1) tree.now.files new.0.files) }
{
    tree.soundness_law();
    let found = files_of(alloc, tree, records.as_slice())?;
    let sorted = in_path_order(found);
    let made = restore_each(alloc, tree.files_by_path(), &sorted)?;
    let (puts, touched) = made;
    let by_path = puts.finish(alloc)?;
    let restored = Files::of(by_path, tree.is_loaded());
    Ok((restored, Region::new(touched, false)))
}
