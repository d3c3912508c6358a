//! A state with the index of who may do what in it, and what users are granted in it, with or without search along
//! the path; and the two states that the lines of a script see: the present one, and the one after the texts were
//! loaded.

ghost use Rattle.std.specs.Prelude.{◌≡◌, [], ◌+◌, ◌<◌, ◌≤◌, ◌^◌, map, slice_get, IfOk, OnOk, OnErr};
ghost use Rattle.acl_tree.specs.Reports.{Reports};
ghost use Rattle.acl_rights.specs.Stages.{most_asked};
ghost use Rattle.acl_rights.specs.Rows.{Asks};
ghost use Rattle.acl_rights.specs.Costs.{all_pairs, most_pairs, most_between};
ghost use Rattle.acl_rights.specs.Tables.{IsWhole, FindsUsers};
ghost use Rattle.acl_rights.specs.Verdicts.{can_requests, users_granted, rows_granted};
ghost use Rattle.acl_rights.specs.States.{IsPrepared, from_start, loaded_state, states_after, states_in, state_after, most_after};
ghost use Rattle.path_classes.specs.ClassesWithin.{AreTops};
ghost use Rattle.acl_rights.specs.Outside.{SameOutside, SameRows};
ghost use Rattle.path_map.specs.Below.{from};
ghost use Rattle.path_classes.specs.Tallies.{class_tally, AreTallied};

use crate::changed_part::with_changes;
use crate::index::Index;
use crate::judge::Judge;
use acl_entry::{Perm, Requests};
use acl_names::Path;
use acl_tree::{Staged, State};
use path_classes::{ClassFiles, FileClasses, UserPlace};
use std::alloc::{AllocError, Global};
use std::marker::Model;
use std::mem;

/// A state with its index of who may do what, which is the whole table of that state. To a contract it is the state.
#[derive(Drop)]
pub struct IndexedState<J: Judge> {
    state: State,
    index: Index<J>,
}

impl<J: Judge> Model for IndexedState<J> {
    ghost use Rattle.acl_tree.specs.State.{State as Whole, coded_state};
    ghost use Rattle.acl_rights.specs.Tables.{IsWhole};

    ghost Value = { Whole };

    ghost coded = { coded_state };

    ghost view = { λ a. a.state };

    ghost invariant = { λ a. IsWhole J.verdict_of a.state a.index };
}

impl<J: Judge> IndexedState<J> {
    /// Indexes a state: the judge is asked about every user and every file.
    pub fn build(alloc: Global, judge: &mut J, state: State) -> Result<IndexedState<J>, AllocError>
        requires room { J.asked_of judge.old + all_pairs state < 2 ^ 64 }
        ensures state { IfOk result (λ indexed. indexed ≡ state) }
        ensures asked { Asks result (J.asked_of judge.old) (J.asked_of judge.new) (all_pairs state) }
    {
        match Index::build(alloc, judge, state.tree(), state.people()) {
            Ok(index) => Ok(IndexedState { state, index }),
            Err(refused) => {
                drop(state);
                Err(refused)
            }
        }
    }

    /// Returns the prepared state after a line, with its index. The judge decides at most as many verdicts as the
    /// line can have changed. If memory runs out, the prepared state is discarded.
    pub fn after(
        &self,
        alloc: Global,
        judge: &mut J,
        staged: Staged,
    ) -> Result<IndexedState<J>, AllocError>
        requires room { J.asked_of judge.old + all_pairs staged.state < 2 ^ 64 }
        requires reports { Reports self.now staged }
        ensures state { IfOk result (λ indexed. indexed ≡ staged.state) }
        ensures at_most { J.asked_of judge.new ≤ J.asked_of judge.old + most_asked staged }
        ensures bounded { J.asked_of judge.new ≤ J.asked_of judge.old + all_pairs staged.state }
    {
        match self.index.stage(alloc, judge, &staged) {
            Ok(rows) => Ok(IndexedState {
                state: State::of(staged),
                index: Index::of(rows),
            }),
            Err(refused) => {
                staged.give_up();
                Err(refused)
            }
        }
    }

    pub fn state(&self) -> &State
        ensures { result.now ≡ self.now }
    {
        &self.state
    }

    fn index(&self) -> &Index<J>
        ensures { IsWhole J.verdict_of self.now result.now }
    {
        &self.index
    }

    /// Returns the verdicts of the index: those on the files alone, or with `along` those along their paths.
    pub fn verdicts(&self, along: bool) -> Verdicts<'_, J>
        ensures state { result.state.now ≡ self.now }
        ensures along { result.along ≡ along }
    {
        Verdicts { state: self, along }
    }
}

/// The verdicts of a state's index: those on the files alone, or those along their paths.
#[derive(Drop)]
pub struct Verdicts<'a, J: Judge> {
    pub state: &'a IndexedState<J>,
    /// Whether a user is granted something only if the user can search each recorded directory above the file.
    pub along: bool,
}

impl<'a, J: Judge> Verdicts<'a, J> {
    /// Returns what a user may do with a file, if both are there.
    pub fn get(&self, user: UserPlace, path: &Path) -> Option<Requests>
        ensures { result ≡ can_requests J.verdict_of self.now.along self.now.state.now user path.now }
    {
        let index = self.state.index();
        if self.along {
            index.get_reach(user, path)
        } else {
            index.get(user, path)
        }
    }

    /// Returns the users who are granted a request on a file, if it is there, by their places.
    pub fn who(
        &self,
        alloc: Global,
        path: &Path,
        request: Perm,
    ) -> Result<Option<Vec<usize>>, AllocError>
        ensures { FindsUsers result (users_granted J.verdict_of self.now.along self.now.state.now path.now request) }
    {
        let index = self.state.index();
        if self.along {
            index.who_reach(alloc, path, request)
        } else {
            index.who(alloc, path, request)
        }
    }

    /// Returns all files by their classes: how many files have each, which may be counted in parts, and the first of
    /// them.
    pub fn counted_classes(
        &self,
        alloc: Global,
    ) -> Result<(FileClasses<'a>, Vec<ClassFiles<'a>>), AllocError>
        ensures { IfOk result (λ found. AreTallied (slice_get found.0.0) (rows_granted J.verdict_of self.now.along self.now.state.now) (map class_tally found.1.items)) }
    {
        let index = self.state.index();
        let found = index.counted_classes(alloc, self.along)?;
        Ok(found)
    }

    /// Iterates over the files from a path on with their classes, in path order: files of a class have the same row.
    pub fn classes_from(&self, alloc: Global, top: &Path) -> FileClasses<'a>
        ensures { result ≡ ([], from top.now (rows_granted J.verdict_of self.now.along self.now.state.now)) }
    {
        let index = self.state.index();
        index.file_classes_from(alloc, self.along, top)
    }
}

/// The present state with its index, and the one after the texts were loaded. Both share what did not change.
#[derive(Drop)]
pub struct IndexedStates<J: Judge> {
    state: IndexedState<J>,
    /// The state after the texts were loaded; `None` if no line that may change the state was accepted since.
    loaded: Option<IndexedState<J>>,
    /// The paths at or below which both may differ: in path order, none below another one.
    changed: Vec<Path>,
}

impl<J: Judge> Model for IndexedStates<J> {
    ghost use Rattle.path_classes.specs.ClassesWithin.{AreTops};
    ghost use Rattle.acl_rights.specs.Outside.{SameRows};
    ghost use Rattle.acl_rights.specs.States.{StatePair, coded_pair, loaded_state};

    ghost Value = { StatePair };

    ghost coded = { coded_pair };

    ghost view = { λ w. record { state = w.state; loaded = w.loaded } };

    ghost invariant = { λ w. AreTops w.changed.items × SameRows J.verdict_of w.changed.items (loaded_state (record { state = w.state; loaded = w.loaded })) w.state };
}

/// The next present state with its index, and the paths at or below which it may differ from the state after the texts were
/// loaded.
#[derive(Drop)]
struct NextState<J: Judge> {
    state: IndexedState<J>,
    changed: Vec<Path>,
}

impl<J: Judge> IndexedStates<J> {
    /// Indexes a state: the judge is asked about every user and every file.
    pub fn new(alloc: Global, judge: &mut J, state: State) -> Result<IndexedStates<J>, AllocError>
        requires { J.asked_of judge.old ≡ 0 }
        ensures state { IfOk result (λ indexed_states. states_in indexed_states ≡ from_start state) }
        ensures asked { OnOk result (J.asked_of judge.new ≡ all_pairs state) }
        ensures at_most { J.asked_of judge.new ≤ all_pairs state }
        ensures few { all_pairs state ≤ most_pairs }
    {
        state.tree().soundness_law();
        state.people().soundness_law();
        let state = IndexedState::build(alloc, judge, state)?;
        Ok(IndexedStates {
            state,
            loaded: None,
            changed: Vec::new(alloc),
        })
    }

    /// Returns the present state with its index.
    pub fn state(&self) -> &IndexedState<J>
        ensures { result.now ≡ self.now.state }
    {
        &self.state
    }

    /// Returns the paths at or below which all files are with which a user may do something else than after the texts
    /// were loaded: in path order, none below another one.
    pub fn changed(&self) -> &[Path]
        ensures tops { AreTops result.now }
        ensures same { SameOutside J.verdict_of result.now (loaded_state self.now) self.now.state }
    {
        &self.changed
    }

    /// Returns the state after the texts were loaded, with its index.
    pub fn loaded(&self) -> &IndexedState<J>
        ensures { result.now ≡ loaded_state self.now }
    {
        match &self.loaded {
            Some(loaded) => loaded,
            None => &self.state,
        }
    }

    /// Drops the state after the texts were loaded if a load begins: the present one takes its place.
    fn begin_again(&mut self, loads: bool)
        ensures { states_in self.new ≡ states_after loads (states_in self.old) self.old.state }
    {
        if loads {
            drop(self.loaded.take());
            self.changed.clear();
        }
    }

    /// Returns the state after a line, with its index, and where files may differ after it. If memory runs out, the
    /// prepared state is discarded.
    fn after(
        &self,
        alloc: Global,
        judge: &mut J,
        staged: Staged,
    ) -> Result<NextState<J>, AllocError>
        requires room { J.asked_of judge.old + all_pairs staged.state < 2 ^ 64 }
        requires reports { Reports self.now.state staged }
        ensures state { IfOk result (λ next. next.state ≡ staged.state) }
        ensures tops { IfOk result (λ next. AreTops next.changed.items) }
        ensures same { IfOk result (λ next. SameRows J.verdict_of next.changed.items (loaded_state self.now) staged.state) }
        ensures at_most { J.asked_of judge.new ≤ J.asked_of judge.old + most_asked staged }
        ensures bounded { J.asked_of judge.new ≤ J.asked_of judge.old + all_pairs staged.state }
    {
        self.state.state().tree().soundness_law();
        staged.tree().soundness_law();
        match with_changes(alloc, &self.changed, &staged) {
            Ok(changed) => {
                let state = self.state.after(alloc, judge, staged)?;
                Ok(NextState { state, changed })
            }
            Err(refused) => {
                staged.give_up();
                Err(refused)
            }
        }
    }

    /// Puts a state in place of the present one, which is kept if no line has changed the state since the texts were
    /// loaded.
    fn put(&mut self, next: NextState<J>)
        requires tops { AreTops next.changed.items }
        requires same { SameRows J.verdict_of next.changed.items (loaded_state self.old) next.state }
        ensures loaded { loaded_state self.new ≡ loaded_state self.old }
        ensures state { self.new.state ≡ next.state }
    {
        let NextState { state, changed } = next;
        let before = mem::replace(&mut self.state, state);
        let _loaded = self.loaded.get_or_insert(before);
        drop(mem::replace(&mut self.changed, changed));
    }

    /// Puts a prepared state with its index in place of the present one; if the line `loads`, it is the state after
    /// the texts were loaded too. If memory runs out, both states stay, and the prepared one is discarded.
    fn replace(
        &mut self,
        alloc: Global,
        judge: &mut J,
        staged: Staged,
        loads: bool,
    ) -> Result<(), AllocError>
        requires room { J.asked_of judge.old + most_pairs < 2 ^ 64 }
        requires reports { Reports self.old.state staged }
        ensures state { OnOk result (states_in self.new ≡ states_after loads (states_in self.old) staged.state) }
        ensures unchanged { OnErr result (self.new ≡ self.old) }
        ensures asked { J.asked_of judge.new ≤ J.asked_of judge.old + most_between self.old.state staged.state staged.user_change }
        ensures few { J.asked_of judge.new ≤ J.asked_of judge.old + most_pairs }
    {
        staged.tree().soundness_law();
        staged.people().soundness_law();
        let next = self.after(alloc, judge, staged)?;
        self.put(next);
        self.begin_again(loads);
        Ok(())
    }

    /// Puts a prepared state, if there is one, with its index in place of the present one; after a load it is the
    /// state after the texts were loaded too. If memory runs out, both states stay, and the prepared one is
    /// discarded.
    pub fn replace_if(
        &mut self,
        alloc: Global,
        judge: &mut J,
        staged: Option<Staged>,
        loads: bool,
    ) -> Result<(), AllocError>
        requires room { J.asked_of judge.old + most_pairs < 2 ^ 64 }
        requires prepared { IsPrepared self.old.state staged }
        ensures state { OnOk result (states_in self.new ≡ states_after loads (states_in self.old) (state_after staged self.old.state)) }
        ensures unchanged { OnErr result (self.new ≡ self.old) }
        ensures asked { J.asked_of judge.new ≤ J.asked_of judge.old + most_after staged self.old.state }
        ensures few { J.asked_of judge.new ≤ J.asked_of judge.old + most_pairs }
    {
        match staged {
            Some(staged) => self.replace(alloc, judge, staged, loads),
            None => {
                self.begin_again(loads);
                Ok(())
            }
        }
    }
}

/// The state after the texts were loaded, and the present one: what contracts know of a session.
#[derive(Drop)]
pub struct States {
    pub loaded: State,
    pub now: State,
}
