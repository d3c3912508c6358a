//! The whole state: the recorded files, and the users and groups; and the state that a command starts from.

ghost use Rattle.std.specs.Prelude.{◌≡◌, IfOk};
ghost use Rattle.acl_tree.specs.State.{nothing};
ghost use Rattle.acl_tree.specs.Reports.{Prepares, RefusesAtOnce};

use crate::command::Command;
use crate::fault::TreeFault;
use crate::files::Files;
use crate::step::{Staged, prepare_command};
use crate::tree::Tree;
use acl_people::People;
use std::alloc::{AllocError, Global};
use std::marker::Model;

/// The recorded files, and the users and groups.
#[derive(Drop)]
pub struct State {
    tree: Tree,
    people: People,
}

impl Model for State {
    ghost use Rattle.acl_tree.specs.State.{State as Whole, coded_state};

    ghost Value = { Whole };

    ghost coded = { coded_state };

    ghost view = { λ s. record { tree = s.tree; people = s.people } };
}

impl State {
    /// Returns the state without files and users.
    pub fn new(alloc: Global) -> Result<State, AllocError>
        ensures { IfOk result (λ state. state ≡ nothing) }
    {
        Ok(State {
            tree: Tree::new(alloc)?,
            people: People::new(alloc)?,
        })
    }

    /// Takes the prepared state.
    pub fn of(staged: Staged) -> State
        ensures { result ≡ staged.state }
    {
        let (tree, people) = staged.into_parts();
        State { tree, people }
    }

    /// Returns the recorded files.
    pub fn tree(&self) -> &Tree
        ensures { result.now ≡ self.now.tree }
    {
        &self.tree
    }

    /// Returns the users and groups.
    pub fn people(&self) -> &People
        ensures { result.now ≡ self.now.people }
    {
        &self.people
    }

    /// Prepares the state after a command, as [`Tree::prepare`] does with this state's tree and people, with its
    /// errors. This state stays as it is: a refused command changes nothing.
    pub fn prepare(&self, alloc: Global, command: &Command<'_>) -> Result<Staged, TreeFault>
        ensures prepares { Prepares self.now command.now result }
        ensures at_once { RefusesAtOnce self.now command.now result }
    {
        prepare_command(alloc, &self.tree.with_people(&self.people), command)
    }

    /// Puts a prepared state in place of this one.
    pub fn commit(&mut self, staged: Staged)
        ensures { self.new ≡ staged.state }
    {
        self.tree.commit(&mut self.people, staged);
    }
}

/// The recorded files, and the users and groups, before a command.
#[derive(Clone, Copy)]
pub(crate) struct BorrowedState<'a> {
    pub(crate) tree: &'a Files,
    pub(crate) people: &'a People,
}
