//! A walk over all files of a state, each with its class: all files of a class have the same row of verdicts.

ghost use Rattle.std.specs.Prelude.{◌≡◌, IfOk};
ghost use Rattle.facl_answers.specs.Inner.{TakesStep, files_granted, files_left, rowed_file, walked};

use crate::both_classes::classes_from;
use crate::path_texts::root;
use acl_edit::Node;
use acl_names::Path;
use acl_rights::{FileClasses, Judge, Verdicts};
use acl_tree::{FilesIter, FoundFile};
use std::alloc::{AllocError, Global};

/// A file with the number of its class.
#[derive(Drop)]
pub(crate) struct FileInClass<'a> {
    pub path: &'a Path,
    pub node: &'a Node,
    pub class: usize,
}

/// An iterator over files in path order, and the classes so far.
#[derive(Drop)]
pub(crate) struct Walk<'a> {
    pub files: FilesIter<'a>,
    pub classes: FileClasses<'a>,
}

impl<'a> FileInClass<'a> {
    /// Returns the file before those of `rest`, which follow it: with whether the next one is below it.
    pub fn found(&self, rest: &Walk<'_>) -> FoundFile<'a>
        ensures { result ≡ (rowed_file (walked rest.now) self.now).0 }
    {
        FoundFile::before(self.path, self.node, &rest.files)
    }
}

impl<'a> Walk<'a> {
    /// Iterates over all files of a state with their classes.
    pub fn of_verdicts<J: Judge>(alloc: Global, verdicts: &Verdicts<'a, J>) -> Walk<'a>
        ensures { files_left (walked result) ≡ files_granted J.verdict_of verdicts.now.along verdicts.now.state.now }
    {
        let classes = classes_from(alloc, verdicts, &root(alloc));
        let state = verdicts.state.state();
        Walk {
            files: state.tree().iter(),
            classes,
        }
    }

    /// Returns the next file with its class.
    pub fn next(&mut self, alloc: Global) -> Result<Option<FileInClass<'a>>, AllocError>
        ensures { IfOk result (λ file. TakesStep (walked self.old) file (walked self.new)) }
    {
        let found = self.classes.next(alloc)?;
        let Some((_, class)) = found else {
            return Ok(None);
        };
        match self.files.next() {
            Some((path, node)) => Ok(Some(FileInClass { path, node, class })),
            None => Ok(None),
        }
    }
}
