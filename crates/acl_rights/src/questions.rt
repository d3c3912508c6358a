//! What an index answers: who may do what, with and without search along the files' paths.
//!
//! The first clause of a call is of the table; if there is a second, it says what that means of a state.

ghost use Rattle.std.specs.Prelude.{◌≡◌, [], map, slice_get, IfOk};
ghost use Rattle.std.specs.Option.{option_copied};
ghost use Rattle.std.specs.FinMap.{find};
ghost use Rattle.acl_names.specs.Paths.{path_cmp};
ghost use Rattle.acl_tree.specs.State as states;
ghost use Rattle.path_map.specs.Below.{from};
ghost use Rattle.path_classes.specs.Tallies.{class_tally, AreTallied};

use crate::index::Index;
use crate::judge::Judge;
use acl_entry::{NoMemory, Perm, Requests};
use acl_names::Path;
use path_classes::{ClassFiles, FileClasses, UserPlace, granted_users};
use std::alloc::{AllocError, Global};

impl<J: Judge> Index<J> {
    ghost use Rattle.acl_rights.specs.Tables.{IsWhole, FindsUsers, FindsFiles, cell_at, users_at, files_at, verdict_at, row_at, users_granted_alone, files_granted_alone};
    ghost use Rattle.path_classes.specs.ReachedRows.{rows_along, reached_rows, reached_at};
    ghost use Rattle.acl_rights.specs.Reach.{reach_at, users_reaching, files_reached};

    /// Returns what a user may do with a file, if both are there.
    pub fn get(&self, user: UserPlace, path: &Path) -> Option<Requests>
        ensures cell { result ≡ cell_at self.now user path.now }
        ensures verdict { (s : states.State) → IsWhole J.verdict_of s self.now → result ≡ verdict_at J.verdict_of s user path.now }
    {
        let now = &self.table;
        match now.rows.row(path) {
            Some(cells) => cells.get(user),
            None => None,
        }
    }

    /// Returns the users who are granted a request on a file, if it is there, by their places.
    pub fn who(
        &self,
        alloc: Global,
        path: &Path,
        request: Perm,
    ) -> Result<Option<Vec<usize>>, NoMemory>
        ensures reported { FindsUsers result (users_at self.now.rows path.now request) }
        ensures whole { (s : states.State) → IsWhole J.verdict_of s self.now → FindsUsers result (users_granted_alone J.verdict_of s path.now request) }
    {
        let Some(cells) = self.row(path) else {
            return Ok(None);
        };
        let users = granted_users(alloc, cells, request)?;
        Ok(Some(users))
    }

    /// Returns the files on which a request is granted to a user, if the user is there, in path order.
    pub fn may(
        &self,
        alloc: Global,
        user: UserPlace,
        request: Perm,
    ) -> Result<Option<Vec<&Path>>, NoMemory>
        ensures reported { FindsFiles result (files_at self.now.users self.now.rows user request) }
        ensures whole { (s : states.State) → IsWhole J.verdict_of s self.now → FindsFiles result (files_granted_alone J.verdict_of s user request) }
    {
        let now = &self.table;
        if user >= now.users {
            return Ok(None);
        }
        let paths = now.rows.rows.granted_paths(alloc, user, request)?;
        Ok(Some(paths))
    }

    /// Returns what a user may do with a file, if both are there and the user can search each recorded directory
    /// above; else nothing.
    pub fn get_reach(&self, user: UserPlace, path: &Path) -> Option<Requests>
        ensures cell { result ≡ reached_at self.now.rows user path.now }
        ensures reach { (s : states.State) → IsWhole J.verdict_of s self.now → result ≡ reach_at J.verdict_of s user path.now }
    {
        let now = &self.table;
        now.rows.rows.reach(user, path)
    }

    /// Returns the users who reach a file with a request, if it is there, by their places.
    pub fn who_reach(
        &self,
        alloc: Global,
        path: &Path,
        request: Perm,
    ) -> Result<Option<Vec<usize>>, NoMemory>
        ensures reported { FindsUsers result (users_at (reached_rows self.now.rows) path.now request) }
        ensures whole { (s : states.State) → IsWhole J.verdict_of s self.now → FindsUsers result (users_reaching J.verdict_of s path.now request) }
    {
        let now = &self.table;
        let Some(row) = now.rows.rows.reached_row(alloc, path)? else {
            return Ok(None);
        };
        let users = granted_users(alloc, &row, request)?;
        Ok(Some(users))
    }

    /// Returns the files that a user reaches with a request, if the user is there, in path order.
    pub fn may_reach(
        &self,
        alloc: Global,
        user: UserPlace,
        request: Perm,
    ) -> Result<Option<Vec<&Path>>, NoMemory>
        ensures reported { FindsFiles result (files_at self.now.users (reached_rows self.now.rows) user request) }
        ensures whole { (s : states.State) → IsWhole J.verdict_of s self.now → FindsFiles result (files_reached J.verdict_of s user request) }
    {
        let now = &self.table;
        if user >= now.users {
            return Ok(None);
        }
        let paths = now.rows.rows.reached_paths(alloc, user, request)?;
        Ok(Some(paths))
    }

    /// Returns what each user may do with a file, in the order of the users, if the file is there.
    pub fn row(&self, path: &Path) -> Option<&[Requests]>
        ensures row { option_copied result ≡ find path_cmp path.now self.now.rows }
        ensures verdicts { (s : states.State) → IsWhole J.verdict_of s self.now → option_copied result ≡ row_at J.verdict_of s path.now }
    {
        let now = &self.table;
        match now.rows.row(path) {
            Some(cells) => Some(cells.as_slice()),
            None => None,
        }
    }

    /// Iterates over the files with their classes, in path order: files of a class have the same row, with `along`
    /// what is left of their rows if each recorded directory above has to let the user search.
    pub fn file_classes(&self, alloc: Global, along: bool) -> FileClasses<'_>
        ensures { result ≡ ([], rows_along along self.now.rows) }
    {
        let now = &self.table;
        now.rows.rows.file_classes(alloc, along)
    }

    /// Returns all files by their classes: how many files have each, which may be counted in parts, and the first of
    /// them.
    pub fn counted_classes(
        &self,
        alloc: Global,
        along: bool,
    ) -> Result<(FileClasses<'_>, Vec<ClassFiles<'_>>), AllocError>
        ensures { IfOk result (λ found. AreTallied (slice_get found.0.0) (rows_along along self.now.rows) (map class_tally found.1.items)) }
    {
        let now = &self.table;
        now.rows.rows.counted_classes(alloc, along)
    }

    /// Iterates over the files from a path on with their classes, in path order, as [`Index::file_classes`] does.
    pub fn file_classes_from(&self, alloc: Global, along: bool, top: &Path) -> FileClasses<'_>
        ensures { result ≡ ([], from top.now (rows_along along self.now.rows)) }
    {
        let now = &self.table;
        now.rows.rows.file_classes_from(alloc, along, top)
    }
}
