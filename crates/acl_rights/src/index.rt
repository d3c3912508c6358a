//! The index: the whole table of verdicts of a state.

ghost use Rattle.std.specs.Prelude.{◌≡◌, ◌+◌, ◌<◌, ◌≤◌, ◌^◌, length, IfOk, true};
ghost use Rattle.kinds.specs.Numbered.{entries_in};
ghost use Rattle.acl_people.specs.KnownPeople.{persons};
ghost use Rattle.acl_tree.specs.State.{state_from};
ghost use Rattle.acl_rights.specs.Rows.{Asks};
ghost use Rattle.acl_rights.specs.KindRows.{rowed};
ghost use Rattle.acl_rights.specs.Costs.{all_pairs};
ghost use Rattle.acl_rights.specs.Lines.{HaveLabels, AreBefore, table_of};

use crate::judge::Judge;
use crate::kind_rows::KindRows;
use crate::stage::{NextRows, after_line};
use acl_entry::NoMemory;
use acl_people::People;
use acl_tree::{Staged, Tree};
use std::alloc::{AllocError, Global};
use std::marker::{Model, PhantomData};
use std::mem;

/// The verdicts on all users and files of a state, by kinds of files.
#[derive(Drop)]
pub(crate) struct VerdictTable {
    pub users: usize,
    /// Only the model reads it: contracts see the files of the table.
    tree: Tree,
    pub rows: KindRows,
}

impl Model for VerdictTable {
    ghost use Rattle.acl_rights.specs.Tables.{VerdictTable as Whole, coded_table};
    ghost use Rattle.acl_rights.specs.Lines.{HaveLabels, table_of};
    ghost use Rattle.kinds.specs.Numbered.{entries_in};

    ghost Value = { Whole };

    ghost coded = { coded_table };

    ghost view = { λ a. table_of a.users a.tree.files a.rows };

    ghost invariant = { λ a. HaveLabels a.tree.files (entries_in a.rows.rows) };
}

impl VerdictTable {
    /// Makes the table of `users` users and a tree, which it shares.
    fn of(users: usize, tree: &Tree, rows: KindRows) -> Result<VerdictTable, AllocError>
        requires { HaveLabels tree.now.files (entries_in rows.rows) }
        ensures { IfOk result (λ table. table ≡ table_of users tree.now.files rows) }
    {
        Ok(VerdictTable {
            users,
            tree: tree.share()?,
            rows,
        })
    }
}

/// The whole table of verdicts of a state: what each user may do with each file. A question reads it with or without
/// search along the file's path.
#[derive(Drop)]
pub struct Index<J> {
    pub(crate) table: VerdictTable,
    judge: PhantomData<J>,
}

impl<J> Model for Index<J> {
    ghost use Rattle.acl_rights.specs.Tables.{VerdictTable as Whole, coded_table};

    ghost Value = { Whole };

    ghost coded = { coded_table };

    ghost view = { λ a. a.table };
}

/// A whole new table, not yet in place. It has to be taken by [`Index::of`] or put in place by [`Index::commit`], or
/// discarded by [`Rows::give_up`].
pub struct Rows {
    table: VerdictTable,
    looked: u64,
    refreshed: u64,
}

impl Model for Rows {
    ghost use Rattle.acl_rights.specs.Tables.{StagedTable, coded_staged};

    ghost Value = { StagedTable };

    ghost coded = { coded_staged };

    ghost view = { λ a. record { table = a.table; looked = a.looked; refreshed = a.refreshed } };
}

impl Rows {
    /// Returns how many labels were fetched for a change of memberships.
    pub fn looked(&self) -> u64
        ensures { result ≡ self.now.looked }
    {
        self.looked
    }

    /// Returns how many verdicts along paths may be new or other ones: at least those that are.
    pub fn refreshed(&self) -> u64
        ensures { result ≡ self.now.refreshed }
    {
        self.refreshed
    }

    /// Discards the table.
    pub fn give_up(self) {
        let Rows {
            table,
            looked: _looked,
            refreshed: _refreshed,
        } = self;
        drop(table);
    }
}

/// Judges every user on every file.
fn all_rows<J: Judge>(
    alloc: Global,
    judge: &mut J,
    tree: &Tree,
    people: &People,
) -> Result<KindRows, AllocError>
    requires { J.asked_of judge.old + all_pairs (state_from tree.now people.now) < 2 ^ 64 }
    ensures rows { IfOk result (λ new. entries_in new.rows ≡ rowed J.verdict_of (persons people.now) tree.now.files) }
    ensures asked { Asks result (J.asked_of judge.old) (J.asked_of judge.new) (all_pairs (state_from tree.now people.now)) }
{
    let rows = KindRows::of_files(alloc, judge, tree.files_whole(), people.all_subjects())?;
    Ok(rows)
}

impl<J: Judge> Index<J> {
    ghost use Rattle.acl_rights.specs.Tables.{IsWhole};
    ghost use Rattle.acl_rights.specs.Stages.{CanStage, most_asked, most_looked, moves_groups};
    ghost use Rattle.acl_rights.specs.Reach.{verdicts_refreshed, unlike};

    /// Builds the table of a state: every user is judged on every file.
    pub fn build(
        alloc: Global,
        judge: &mut J,
        tree: &Tree,
        people: &People,
    ) -> Result<Index<J>, NoMemory>
        requires room { J.asked_of judge.old + all_pairs (state_from tree.now people.now) < 2 ^ 64 }
        ensures whole { IfOk result (λ index. IsWhole J.verdict_of (state_from tree.now people.now) index) }
        ensures asked { Asks result (J.asked_of judge.old) (J.asked_of judge.new) (all_pairs (state_from tree.now people.now)) }
    {
        let rows = all_rows(alloc, judge, tree, people)?;
        let table = VerdictTable::of(people.users(), tree, rows)?;
        Ok(Index {
            table,
            judge: PhantomData,
        })
    }

    /// Makes the table of the state after a line. The judge decides at most as many verdicts as the line can have
    /// changed.
    pub fn stage(&self, alloc: Global, judge: &mut J, staged: &Staged) -> Result<Rows, NoMemory>
        requires room { J.asked_of judge.old + all_pairs staged.now.state < 2 ^ 64 }
        requires goes { CanStage J.verdict_of self.now staged.now }
        ensures whole { IfOk result (λ rows. IsWhole J.verdict_of staged.now.state rows.table) }
        ensures at_most { J.asked_of judge.new ≤ J.asked_of judge.old + most_asked staged.now }
        ensures bounded { J.asked_of judge.new ≤ J.asked_of judge.old + all_pairs staged.now.state }
        ensures looked_most { IfOk result (λ rows. rows.looked ≤ most_looked staged.now.user_change staged.now.state.tree.files) }
        ensures looked_least { IfOk result (λ rows. moves_groups staged.now.user_change ≡ true → J.asked_of judge.new ≤ J.asked_of judge.old + rows.looked) }
        ensures refreshed_most { IfOk result (λ rows. rows.refreshed ≤ verdicts_refreshed staged.now) }
        ensures refreshed_least { IfOk result (λ rows. unlike staged.now.user_change self.now.rows rows.table.rows ≤ rows.refreshed) }
    {
        staged.tree().soundness_law();
        let now = &self.table;
        now.rows.rows.rows().order_law();
        let new = after_line(alloc, judge, &now.rows, staged)?;
        let NextRows {
            rows,
            looked,
            refreshed,
        } = new;
        let table = VerdictTable::of(staged.people().users(), staged.tree(), rows)?;
        Ok(Rows {
            table,
            looked,
            refreshed,
        })
    }

    /// Takes a staged table, as [`Index::commit`] does, without one before it.
    pub fn of(staged: Rows) -> Index<J>
        ensures { result ≡ staged.table }
    {
        let Rows {
            table,
            looked: _looked,
            refreshed: _refreshed,
        } = staged;
        Index {
            table,
            judge: PhantomData,
        }
    }

    /// Puts a staged table in place of this one.
    pub fn commit(&mut self, staged: Rows)
        ensures { self.new ≡ staged.table }
    {
        drop(mem::replace(self, Index::of(staged)));
    }
}
