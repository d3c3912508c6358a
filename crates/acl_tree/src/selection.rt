//! The operands of a command, and the files that they mean, found by search.

ghost use Rattle.std.specs.Prelude.{◌≡◌, ◌≢◌, false, None, IfOk, IfErr, OnOk};
ghost use Rattle.std.specs.Option.{option_map_or};
ghost use Rattle.acl_names.specs.Below.{is_above};
ghost use Rattle.acl_tree.specs.Found.{files_found, found_file, Selects};
ghost use Rattle.acl_tree.specs.Inner.{next_file_below};
ghost use Rattle.acl_tree.specs.Operands.{first_missing, IsMissing};

use crate::fault::TreeFault;
use crate::files::{Files, FilesIter};
use crate::region::Region;
use acl_edit::Node;
use acl_names::Path;
use std::alloc::{AllocError, Global};
use std::marker::Model;

/// Tells whether the next path, if there is one, is below `path`.
fn is_below(path: &Path, next: Option<&Path>) -> bool
    ensures { result ≡ option_map_or (λ next. is_above path.now next.now) next.entry false }
{
    match next {
        Some(next) => next.is_below(path),
        None => false,
    }
}

/// Collects the files that a region means.
fn files_in<'a>(
    alloc: Global,
    tree: &'a Files,
    region: &Region,
) -> Result<Vec<FoundFile<'a>>, AllocError>
    ensures { IfOk result (λ files. files.items ≡ files_found region.now.0 region.now.1 tree.now.files) }
{
    let files = tree.files_by_path();
    let mut found = Vec::new(alloc);
    let mut walk = region.walk(files.numbers());
    while let Some(entry) = walk.next() {
        let has_below = is_below(entry.0, walk.next_path());
        let node = files.kinds().node(entry.1);
        found.push(FoundFile::new(entry.0, node, has_below))?;
    }
    Ok(found)
}

/// Collects the files of a selection.
pub fn select<'a>(
    alloc: Global,
    tree: &'a Files,
    selection: &Selection<'_>,
) -> Result<Vec<FoundFile<'a>>, AllocError>
    ensures { IfOk result (λ files. files.items ≡ files_found selection.now.recursive selection.now.operands.now tree.now.files) }
{
    let region = Region::of(alloc, selection)?;
    Ok(files_in(alloc, tree, &region)?)
}

/// Checks that each operand is recorded; else returns the first that isn't.
pub fn look_up(alloc: Global, tree: &Files, operands: &[Path]) -> Result<(), TreeFault>
    ensures all { OnOk result (first_missing operands.now tree.now.files ≡ None) }
    ensures reported { IfErr result (λ fault. fault ≢ TreeFault.NoMemory → IsMissing fault (first_missing operands.now tree.now.files)) }
{
    for path in operands {
        if tree.get(path).is_none() {
            return Err(TreeFault::NoSuchFile {
                path: path.try_clone(alloc)?,
            });
        }
    }
    Ok(())
}

impl Files {
    /// Collects the files of a selection, each once, in path order, each with whether another recorded file is below
    /// it.
    ///
    /// # Errors
    ///
    /// `NoSuchFile` of the first operand that is not recorded, or `NoMemory`.
    pub fn selected<'a>(
        &'a self,
        alloc: Global,
        selection: &Selection<'_>,
    ) -> Result<Vec<FoundFile<'a>>, TreeFault>
        ensures { Selects (λ files. files.items) selection.now self.now.files result }
    {
        look_up(alloc, self, selection.operands.as_slice())?;
        Ok(select(alloc, self, selection)?)
    }
}

/// The operands of a command.
#[derive(Drop)]
pub struct Paths {
    list: Vec<Path>,
}

impl Model for Paths {
    ghost use Rattle.std.specs.Prelude.{List, ℕ};

    ghost Value = { List (List (List ℕ)) };

    ghost view = { λ p. p.list.items };
}

impl Paths {
    /// Returns the operands, in their order.
    pub fn new(list: Vec<Path>) -> Paths
        ensures { result ≡ list.items }
    {
        Paths { list }
    }

    /// Returns the operands, in their order.
    pub fn as_slice(&self) -> &[Path]
        ensures { result.now ≡ self.now }
    {
        &self.list
    }
}

/// Which files a command selects: its operands, with `recursive` also all files below them.
#[derive(Clone, Copy)]
pub struct Selection<'a> {
    pub operands: &'a Paths,
    pub recursive: bool,
}

/// A recorded file, and whether another one lies below it.
#[derive(Drop)]
pub struct FoundFile<'a> {
    path: &'a Path,
    node: &'a Node,
    has_below: bool,
}

impl<'a> Model for FoundFile<'a> {
    ghost use Rattle.acl_tree.specs.Found.{FoundFile, coded_found};

    ghost Value = { FoundFile };

    ghost coded = { coded_found };

    ghost view = { λ f. record { path = f.path.now; node = f.node.now; has_below = f.has_below } };
}

impl<'a> FoundFile<'a> {
    pub fn new(path: &'a Path, node: &'a Node, has_below: bool) -> FoundFile<'a>
        ensures { result ≡ record { path = path.now; node = node.now; has_below = has_below } }
    {
        FoundFile {
            path,
            node,
            has_below,
        }
    }

    /// Makes a file of the entry before those of `rest`: the next one tells whether there is a file below it.
    pub fn before(path: &'a Path, node: &'a Node, rest: &FilesIter<'_>) -> FoundFile<'a>
        ensures { result ≡ found_file (next_file_below path.now rest.now) (path.now, node.now) }
    {
        FoundFile::new(path, node, is_below(path, rest.peek()))
    }

    /// Returns the file's path.
    pub fn path(&self) -> &'a Path
        ensures { result.now ≡ self.now.path }
    {
        self.path
    }

    /// Returns the file's node.
    pub fn node(&self) -> &'a Node
        ensures { result.now ≡ self.now.node }
    {
        self.node
    }

    /// Tells whether another recorded file lies below it.
    pub fn has_below(&self) -> bool
        ensures { result ≡ self.now.has_below }
    {
        self.has_below
    }
}
