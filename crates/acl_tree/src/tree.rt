//! The recorded files, with the commands on them and on the users and groups: each is prepared whole, or refused.

ghost use Rattle.std.specs.Prelude.{◌≡◌, IfOk};
ghost use Rattle.std.specs.FinMap.{find};
ghost use Rattle.std.specs.Option.{option_copied};
ghost use Rattle.acl_names.specs.Paths.{path_cmp};
ghost use Rattle.acl_tree.specs.Files.{no_files};
ghost use Rattle.acl_tree.specs.Found.{Selects};
ghost use Rattle.acl_tree.specs.Sound.{IsSoundTree};
ghost use Rattle.acl_tree.specs.Walks.{within, ancestors};
ghost use Rattle.acl_tree.specs.State.{state_from};
ghost use Rattle.acl_tree.specs.Reports.{Prepares, RefusesAtOnce};

use crate::command::Command;
use crate::fault::TreeFault;
use crate::files::{Files, FilesFinder, FilesIter};
use crate::selection::{FoundFile, Selection};
use crate::state::BorrowedState;
use crate::step::{Staged, prepare_command};
use acl_edit::Node;
use acl_entry::NoMemory;
use acl_names::Path;
use acl_people::People;
use std::alloc::Global;
use std::marker::Model;

/// The recorded files, in path order. Copies and later trees may share the files that are the same. What is true of
/// every tree is the clause of [`Tree::soundness_law`].
#[derive(Drop)]
pub struct Tree {
    files: Files,
}

impl Model for Tree {
    ghost use Rattle.acl_tree.specs.Files.{Recorded, coded_recorded};

    ghost Value = { Recorded };

    ghost coded = { coded_recorded };

    ghost view = { λ t. t.files };
}

impl Tree {
    /// Returns the tree before any dump is loaded: without files.
    pub fn new(alloc: Global) -> Result<Tree, NoMemory>
        ensures { IfOk result (λ tree. tree ≡ no_files) }
    {
        Ok(Tree {
            files: Files::new(alloc)?,
        })
    }

    pub(crate) fn of(files: Files) -> Tree
        ensures { result ≡ files }
    {
        Tree { files }
    }

    /// Copies the tree; both share its files.
    pub fn share(&self) -> Result<Tree, NoMemory>
        ensures { IfOk result (λ tree. tree ≡ self.now) }
    {
        Ok(Tree {
            files: self.files.share()?,
        })
    }

    /// Tells whether a dump was loaded.
    pub fn is_loaded(&self) -> bool
        ensures { result ≡ self.now.loaded }
    {
        self.files.is_loaded()
    }

    /// Returns the node of a path, if it is recorded.
    pub fn get(&self, path: &Path) -> Option<&Node>
        ensures { option_copied result ≡ find path_cmp path.now self.now.files }
    {
        self.files.get(path)
    }

    /// Returns a look-up of files.
    pub fn finder(&self) -> FilesFinder<'_>
        ensures { result ≡ self.now.files }
    {
        self.files.finder()
    }

    /// Iterates over the files in path order.
    pub fn iter(&self) -> FilesIter<'_>
        ensures { result ≡ self.now.files }
    {
        self.files.iter()
    }

    /// Returns the paths of the recorded files at or below a path, in path order.
    pub fn within(&self, alloc: Global, path: &Path) -> Result<Vec<Path>, NoMemory>
        ensures { IfOk result (λ paths. paths.items ≡ within path.now self.now.files) }
    {
        self.files.within(alloc, path)
    }

    /// Returns the recorded ancestors of a path, the root first: each is found from the one below it.
    pub fn ancestors(&self, alloc: Global, path: &Path) -> Result<Vec<Path>, NoMemory>
        ensures { IfOk result (λ paths. paths.items ≡ ancestors path.now self.now.files) }
    {
        self.files.ancestors(alloc, path)
    }

    /// Collects the files of a selection, each once, in path order, each with whether another recorded file is below
    /// it.
    ///
    /// # Errors
    ///
    /// `NoSuchFile` of the first operand that is not recorded, or `NoMemory`.
    pub fn files<'a>(
        &'a self,
        alloc: Global,
        selection: &Selection<'_>,
    ) -> Result<Vec<FoundFile<'a>>, TreeFault>
        ensures { Selects (λ files. files.items) selection.now self.now.files result }
    {
        self.files.selected(alloc, selection)
    }

    /// Proof only: the files are in path order, each path once, and there are at most `MAX_FILES`; there is none
    /// before a dump is loaded; the root and what has a file below it are directories, and only directories
    /// have default lists.
    pub fn soundness_law(&self)
        ensures { IsSoundTree self.now }
    {
        self.files.soundness_law();
    }

    /// Returns the files as one value.
    pub fn files_whole(&self) -> &Files
        ensures { result.now ≡ self.now }
    {
        &self.files
    }

    pub(crate) fn with_people<'a>(&'a self, people: &'a People) -> BorrowedState<'a>
        ensures tree { result.tree.now ≡ self.now }
        ensures people { result.people.now ≡ people.now }
    {
        BorrowedState {
            tree: &self.files,
            people,
        }
    }

    /// Returns the state after a command on these files and these people. Both stay as they are: a refused command
    /// changes nothing.
    ///
    /// # Errors
    ///
    /// The command's first fault, in the order that [`Command`] gives for each. Or `NoMemory`, but never in place of
    /// `AlreadyLoaded`, `NotMember`, `UidExists` or `TooManyUsers`.
    pub fn prepare(
        &self,
        alloc: Global,
        people: &People,
        command: &Command<'_>,
    ) -> Result<Staged, TreeFault>
        ensures prepares { Prepares (state_from self.now people.now) command.now result }
        ensures at_once { RefusesAtOnce (state_from self.now people.now) command.now result }
    {
        prepare_command(alloc, &self.with_people(people), command)
    }

    /// Puts a prepared state in place of this tree and of its people, which cannot fail.
    pub fn commit(&mut self, people: &mut People, staged: Staged)
        ensures tree { self.new ≡ staged.state.tree }
        ensures people { people.new ≡ staged.state.people }
    {
        let (next_tree, next_people) = staged.into_parts();
        *self = next_tree;
        *people = next_people;
    }
}
