//! Commands on the whole state: each is prepared whole, or refused; and a prepared command, before it is put in place.

ghost use Rattle.std.specs.Prelude.{◌≡◌, [], true, length, option_map, IfOk};
ghost use Rattle.acl_tree.specs.Changed.{SameBut};
ghost use Rattle.acl_tree.specs.Operands.{in_region};
ghost use Rattle.acl_tree.specs.InnerCommands.{whole};
ghost use Rattle.acl_tree.specs.State.{state_from};
ghost use Rattle.acl_tree.specs.Sound.{IsSoundTree};
ghost use Rattle.acl_tree.specs.Reports.{Prepares, RefusesAtOnce, memberships_moved, place_joined, place_left, staged_from};

use crate::command::Command;
use crate::creat::prepare_creat;
use crate::differences::Differences;
use crate::edit_command::{prepare_chmod, prepare_edit, prepare_restore};
use crate::fault::TreeFault;
use crate::files::Files;
use crate::gpasswd::prepare_gpasswd;
use crate::load::prepare_load;
use crate::region::Region;
use crate::rm::prepare_rm;
use crate::selection::{Paths, Selection};
use crate::state::BorrowedState;
use crate::tree::Tree;
use crate::user_change::UserChange;
use crate::useradd::prepare_useradd;
use crate::userdel::prepare_userdel;
use crate::usermod::prepare_usermod;
use acl_entry::Id;
use acl_people::People;
use std::alloc::{AllocError, Global};
use std::marker::Model;

/// Returns the operands of a command, with whether files below them are meant too.
fn selection_of(operands: &Paths, recursive: bool) -> Selection<'_>
    ensures { result ≡ record { operands = operands.entry; recursive = recursive } }
{
    Selection {
        operands,
        recursive,
    }
}

/// Prepares the state after a command: [`crate::Tree::prepare`], by commands.
pub(crate) fn prepare_command(
    alloc: Global,
    state: &BorrowedState<'_>,
    command: &Command<'_>,
) -> Result<Staged, TreeFault>
    ensures prepares { Prepares (whole state.now) command.now result }
    ensures at_once { RefusesAtOnce (whole state.now) command.now result }
{
    match command {
        Command::Load { which, bytes } => prepare_load(alloc, state, *which, bytes),
        Command::Chmod {
            paths,
            mode,
            recursive,
        } => prepare_chmod(alloc, state, &selection_of(paths, *recursive), *mode),
        Command::Edit {
            paths,
            edit,
            recursive,
        } => prepare_edit(alloc, state, &selection_of(paths, *recursive), edit),
        Command::Restore { records } => prepare_restore(alloc, state, records),
        Command::Creat(new) => prepare_creat(alloc, state, new),
        Command::Rm { paths, recursive } => prepare_rm(
            alloc,
            state,
            &selection_of(paths, *recursive),
        ),
        Command::Gpasswd {
            user,
            group,
            change,
        } => prepare_gpasswd(alloc, state, user, group, *change),
        Command::Usermod { user, group } => prepare_usermod(alloc, state, user, group),
        Command::Useradd(new) => prepare_useradd(alloc, state, new),
        Command::Userdel { user } => prepare_userdel(alloc, state, user),
    }
}

/// The whole state after a command, and what it changes: the files before, and those that it touched. It is put in place by
/// [`Tree::commit`], or discarded: one of these has to be done with it.
pub struct Staged {
    tree: Tree,
    people: People,
    before: Files,
    touched: Region,
    user_change: UserChange,
    /// Whether it is known that no file is gone.
    keeps_files: bool,
}

impl Model for Staged {
    ghost use Rattle.acl_tree.specs.Changed.{SameBut, NoneGoneIf};
    ghost use Rattle.acl_tree.specs.Operands.{in_region};
    ghost use Rattle.acl_tree.specs.State.{state_from};
    ghost use Rattle.acl_tree.specs.Reports.{StagedState, coded_staged, staged_from};

    ghost Value = { StagedState };

    ghost coded = { coded_staged };

    ghost view = { λ s. staged_from s.before.files (state_from s.tree s.people) s.user_change };

    ghost invariant = { λ s. SameBut (in_region s.touched) s.before.files s.tree.files × NoneGoneIf s.keeps_files s.before.files s.tree.files };
}

impl Staged {
    pub(crate) fn of(
        files: Files,
        people: People,
        before: Files,
        touched: Region,
        user_change: UserChange,
    ) -> Staged
        requires { SameBut (in_region touched) before.files files.files }
        ensures all { result ≡ staged_from before.files (state_from files people) user_change }
        ensures sound { IsSoundTree files }
    {
        files.soundness_law();
        Staged {
            tree: Tree::of(files),
            people,
            before,
            touched,
            user_change,
            keeps_files: false,
        }
    }

    /// Records that no file is gone.
    pub(crate) fn keeping_files(self) -> Staged
        requires { self.gone ≡ [] }
        ensures { result ≡ self }
    {
        let Staged {
            tree,
            people,
            before,
            touched,
            user_change,
            keeps_files: _known,
        } = self;
        Staged {
            tree,
            people,
            before,
            touched,
            user_change,
            keeps_files: true,
        }
    }

    /// Makes the state after a command on files alone, with the files that it touched.
    pub(crate) fn with_files(
        state: &BorrowedState<'_>,
        files: Files,
        touched: Region,
    ) -> Result<Staged, AllocError>
        requires { SameBut (in_region touched) state.now.tree.now.files files.files }
        ensures all { IfOk result (λ staged. staged ≡ staged_from state.now.tree.now.files (state_from files state.now.people.now) UserChange.Unchanged) }
        ensures sound { IfOk result (λ staged. IsSoundTree staged.state.tree) }
    {
        let before = state.tree.share()?;
        let people = state.people.share()?;
        let staged = Staged::of(files, people, before, touched, UserChange::Unchanged);
        Ok(staged)
    }

    /// Returns the tree after the command.
    pub fn tree(&self) -> &Tree
        ensures { result.now ≡ self.now.state.tree }
    {
        &self.tree
    }

    /// Returns the people after the command.
    pub fn people(&self) -> &People
        ensures { result.now ≡ self.now.state.people }
    {
        &self.people
    }

    /// Iterates over the files after the command that are new, or whose owner, group or access list is another than
    /// before, in path order.
    pub fn changed(&self) -> Differences<'_>
        ensures { result ≡ self.now.changed }
    {
        self.tree
            .files_whole()
            .changed_from(&self.before, &self.touched)
    }

    /// Iterates over the files before the command that are no longer recorded, in path order. No file is looked at if
    /// it is known that there is none.
    pub fn gone(&self) -> Differences<'_>
        ensures { result ≡ self.now.gone }
    {
        let files = self.tree.files_whole();
        if self.keeps_files {
            return self.before.none_beside(files);
        }
        self.before.gone_in(files, &self.touched)
    }

    /// Estimates how many files the command changed, by the numbers of nodes alone. Correctness does not depend on
    /// it.
    pub fn likely_changed(&self) -> usize {
        self.tree.files_whole().likely_changed_from(&self.before)
    }

    /// Tells whether it is known, without a look at any file, that none is gone: so after an edit.
    pub fn keeps_files(&self) -> bool
        ensures { result ≡ true → self.now.gone ≡ [] }
    {
        self.keeps_files
    }

    /// Returns the user who joined or left groups, and the ids of these groups, rising; `None` if nobody did.
    pub fn moved(&self) -> Option<(usize, &[Id])>
        ensures { option_map (λ moved. (moved.0, moved.1.now)) result ≡ memberships_moved self.now.user_change }
    {
        match &self.user_change {
            UserChange::Memberships { user, groups } => Some((*user, groups.as_slice())),
            _ => None,
        }
    }

    /// Returns the place of the user who was added, among the users after the command; `None` if nobody was.
    pub fn joined(&self) -> Option<usize>
        ensures { result ≡ place_joined self.now.user_change (length self.now.state.people.users) }
    {
        let users = self.people.users();
        match self.user_change {
            UserChange::Added if users > 0 => Some(users - 1),
            _ => None,
        }
    }

    /// Returns the place of the user who was removed, among the users before the command; `None` if nobody was.
    pub fn left(&self) -> Option<usize>
        ensures { result ≡ place_left self.now.user_change }
    {
        match self.user_change {
            UserChange::Removed { user } => Some(user),
            _ => None,
        }
    }

    /// Returns what changed of the users: [`Staged::moved`], [`Staged::joined`] and [`Staged::left`] as one value,
    /// and whether users were loaded.
    pub fn user_change(&self) -> &UserChange
        ensures { result.now ≡ self.now.user_change }
    {
        &self.user_change
    }

    /// Discards the prepared state, and leaves the present one as it is.
    pub fn give_up(self) {
        let Staged {
            tree: _tree,
            people: _people,
            before: _before,
            touched: _touched,
            user_change: _user_change,
            keeps_files: _keeps_files,
        } = self;
    }

    /// Returns the tree and the people after the command.
    pub(crate) fn into_parts(self) -> (Tree, People)
        ensures tree { result.0 ≡ self.state.tree }
        ensures people { result.1 ≡ self.state.people }
    {
        let Staged {
            tree,
            people,
            before: _before,
            touched: _touched,
            user_change: _user_change,
            keeps_files: _keeps_files,
        } = self;
        (tree, people)
    }
}
