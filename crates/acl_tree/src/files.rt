//! The recorded files, in path order; those at a path or below it, and its recorded ancestors.

ghost use Rattle.std.specs.Prelude.{◌≡◌, IfOk};
ghost use Rattle.std.specs.Option.{option_copied};
ghost use Rattle.std.specs.FinMap.{find};
ghost use Rattle.acl_names.specs.Paths.{path_cmp};
ghost use Rattle.kinds.specs.Numbered.{entries_in};
ghost use Rattle.acl_tree.specs.Files.{no_files, Recorded, coded_recorded};
ghost use Rattle.acl_tree.specs.Sound.{IsSoundTree};
ghost use Rattle.acl_tree.specs.Walks.{within, ancestors};

use acl_edit::Node;
use acl_names::Path;
use kinds::{KindMap, KindsFinder, KindsIter};
use std::alloc::{AllocError, Global};
use std::marker::Model;

/// An iterator over recorded files, in path order.
pub type FilesIter<'a> = KindsIter<'a, Node>;

/// Looks up recorded files.
#[derive(Drop)]
pub struct FilesFinder<'a> {
    files: KindsFinder<'a, Node>,
}

impl<'a> Model for FilesFinder<'a> {
    ghost use Rattle.acl_tree.specs.Files.{Files, coded_files};

    ghost Value = { Files };

    ghost coded = { coded_files };

    ghost view = { λ f. f.files };
}

impl<'a> FilesFinder<'a> {
    /// Returns the node of a path, if it is recorded.
    pub fn get(&mut self, path: &Path) -> Option<&'a Node>
        ensures same { self.new ≡ self.old }
        ensures found { option_copied result ≡ find path_cmp path.now self.old }
    {
        self.files.get(path)
    }
}

/// The recorded files, in path order, and whether a dump was loaded. Copies and later states may share the files that
/// are the same. What is always true of them is the clause of [`Files::soundness_law`].
#[derive(Drop)]
pub struct Files {
    files: KindMap<Node>,
    loaded: bool,
}

impl Model for Files {
    ghost Value = { Recorded };

    ghost coded = { coded_recorded };

    ghost view = { λ f. record { files = entries_in f.files; loaded = f.loaded } };

    ghost invariant = { λ f. IsSoundTree (record { files = entries_in f.files; loaded = f.loaded }) };
}

impl Files {
    /// Returns files before any dump is loaded: none.
    pub fn new(alloc: Global) -> Result<Files, AllocError>
        ensures { IfOk result (λ files. files ≡ no_files) }
    {
        Ok(Files {
            files: KindMap::new(alloc)?,
            loaded: false,
        })
    }

    pub fn of(files: KindMap<Node>, loaded: bool) -> Files
        requires { IsSoundTree (record { files = entries_in files; loaded = loaded }) }
        ensures { result ≡ record { files = entries_in files; loaded = loaded } }
    {
        Files { files, loaded }
    }

    /// Copies the files; both share them.
    pub fn share(&self) -> Result<Files, AllocError>
        ensures { IfOk result (λ files. files ≡ self.now) }
    {
        Ok(Files {
            files: self.files.share()?,
            loaded: self.loaded,
        })
    }

    pub fn files_by_path(&self) -> &KindMap<Node>
        ensures all { entries_in result.now ≡ self.now.files }
        ensures sound { IsSoundTree self.now }
    {
        &self.files
    }

    /// Proof only: the files are in path order, each path once, and there are at most `MAX_FILES`; there is none
    /// before a dump is loaded; the root and what has a file below it are directories, and only directories
    /// have default lists.
    pub fn soundness_law(&self)
        ensures { IsSoundTree self.now }
    {
        let _files = self.files_by_path();
    }

    /// Tells whether a dump was loaded.
    pub fn is_loaded(&self) -> bool
        ensures { result ≡ self.now.loaded }
    {
        self.loaded
    }

    /// Returns the node of a path, if it is recorded.
    pub fn get(&self, path: &Path) -> Option<&Node>
        ensures { option_copied result ≡ find path_cmp path.now self.now.files }
    {
        self.files.get(path)
    }

    /// Returns a look-up of files.
    pub fn finder(&self) -> FilesFinder<'_>
        ensures { result ≡ self.now.files }
    {
        FilesFinder {
            files: self.files.finder(),
        }
    }

    /// Iterates over the files in path order.
    pub fn iter(&self) -> FilesIter<'_>
        ensures { result ≡ self.now.files }
    {
        self.files.iter()
    }

    /// Returns the paths of the recorded files at or below a path, in path order.
    pub fn within(&self, alloc: Global, path: &Path) -> Result<Vec<Path>, AllocError>
        ensures { IfOk result (λ paths. paths.items ≡ within path.now self.now.files) }
    {
        let mut paths = Vec::new(alloc);
        let mut rest = self.files_by_path().paths_within(path);
        while let Some(file) = rest.next() {
            paths.push(file.0.try_clone(alloc)?)?;
        }
        Ok(paths)
    }

    /// Returns the recorded ancestors of a path, the root first: each is found from the one below it.
    pub fn ancestors(&self, alloc: Global, path: &Path) -> Result<Vec<Path>, AllocError>
        ensures { IfOk result (λ paths. paths.items ≡ ancestors path.now self.now.files) }
    {
        let files = self.files_by_path();
        files.order_law();
        let mut paths = Vec::new(alloc);
        let mut above = files.nearest_above(path);
        while let Some(file) = above {
            paths.push(file.0.try_clone(alloc)?)?;
            above = files.nearest_above(file.0);
        }
        paths.reverse();
        Ok(paths)
    }
}
