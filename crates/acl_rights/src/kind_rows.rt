//! Rows of verdicts by kinds: for each file its label with the verdicts of all users on it. Files of one kind mostly
//! share them.

ghost use Rattle.std.specs.Prelude.{◌≡◌, ◌+◌, ◌*◌, ◌<◌, ◌≤◌, ◌^◌, true, false, length, count_by, filter, IfOk, OnOk, [], nat_lt, if◌then◌else◌};
ghost use Rattle.std.specs.List.{remove};
ghost use Rattle.std.specs.Option.{option_copied};
ghost use Rattle.std.specs.FinMap.{find};
ghost use Rattle.acl_names.specs.Paths.{path_cmp};
ghost use Rattle.path_map.specs.Below.{lies_in};
ghost use Rattle.kinds.specs.Numbered.{entries_in};
ghost use Rattle.path_classes.specs.ClassedRows.{AreCounted};
ghost use Rattle.path_classes.specs.KindRows.{rows_at};
ghost use Rattle.acl_rights.specs.KindRows.{label_row, rowed, each_row, with_last, without_at, with_again, asked_again, mentions_any};

use crate::hints::{FIRST_HINTS, Hint, Hints};
use crate::judge::Judge;
use crate::judged::{judged, judged_again, judged_last, without};
use acl_edit::Node;
use acl_entry::{Id, Label, Subject};
use acl_names::Path;
use acl_people::Subjects;
use acl_tree::{Files, label_hash};
use kinds::{KindMap, NodeChange, Renewal, TaggedMap};
use path_classes::{Cells, ClassedRows, LabelRow, push_groups};
use std::alloc::{AllocError, Global};

/// For each file its label, row and path class, and for each group the numbers of the labels that mention it; and hints at the
/// numbers of labels.
#[derive(Drop)]
pub struct KindRows {
    pub rows: ClassedRows,
    pub(crate) hints: Hints,
}

/// The rows after a line, how many labels were fetched for it, and of how many files the answers along their paths
/// may be new or other ones.
#[derive(Drop)]
pub(crate) struct UpdatedRows {
    pub rows: KindRows,
    pub looked: usize,
    pub refreshed: usize,
}

fn copied(alloc: Global, label: &Label) -> Result<Label, AllocError>
    ensures { IfOk result (λ copy. copy ≡ label.now) }
{
    Ok(Label {
        owner: label.owner,
        group: label.group,
        acl: label.acl.try_clone(alloc)?,
    })
}

/// Pairs a copy of a label with a row.
pub(crate) fn with_row(alloc: Global, label: &Label, row: Cells) -> Result<LabelRow, AllocError>
    ensures { IfOk result (λ new. new ≡ record { label = label.now; row = row }) }
{
    let label = copied(alloc, label)?;
    Ok(LabelRow { label, row })
}

/// Caches the numbers that files have, or the first of them.
pub(crate) fn hints_of(alloc: Global, rows: &KindMap<LabelRow>) -> Result<Hints, AllocError> {
    let mut hints = Vec::new(alloc);
    for number in 0..rows.numbers_len().min(FIRST_HINTS) {
        if let Some(row) = rows.used(number) {
            let hash = label_hash(&row.label);
            hints.push(Hint { hash, number })?;
        }
    }
    Hints::of(alloc, hints)
}

/// Renews a label's row by the verdicts of all users.
#[derive(Drop)]
struct AllUsers<'a> {
    users: &'a Subjects,
}

impl<'a, J: Judge> Renewal<Node, LabelRow, J> for AllUsers<'a> {
    ghost renewed = { λ all node. label_row J.verdict_of all.users.now node.label };

    ghost counted = { J.asked_of };

    ghost weight = { λ all node. length all.users.now };

    ghost is_exact = { true };

    fn renew(
        &self,
        alloc: Global,
        judge: &mut J,
        node: &Node,
        paths: usize,
    ) -> Result<LabelRow, AllocError> {
        let row = judged(alloc, judge, self.users, &node.label, paths as u64)?;
        let new = with_row(alloc, &node.label, row)?;
        Ok(new)
    }
}

/// Adds the verdict on a further user, the last.
#[derive(Drop)]
struct LastUser<'a> {
    user: &'a Subject,
}

impl<'a, J: Judge> Renewal<LabelRow, LabelRow, J> for LastUser<'a> {
    ghost renewed = { λ last row. with_last J.verdict_of last.user.now row };

    ghost counted = { J.asked_of };

    ghost weight = { λ last row. 1 };

    ghost is_exact = { false };

    fn renew(
        &self,
        alloc: Global,
        judge: &mut J,
        node: &LabelRow,
        _paths: usize,
    ) -> Result<LabelRow, AllocError> {
        let row = judged_last(alloc, judge, node, self.user)?;
        let new = with_row(alloc, &node.label, row)?;
        Ok(new)
    }
}

/// Removes the verdict on a user.
#[derive(Drop)]
struct NoUser {
    at: usize,
}

/// Removes the verdict on the user at a place, if the row has one there.
fn shorter(alloc: Global, row: &Cells, at: usize) -> Result<Cells, AllocError>
    ensures { IfOk result (λ new. new ≡ (if nat_lt at (length row.now) then remove row.now at else row.now)) }
{
    if at < row.as_slice().len() {
        without(alloc, row.as_slice(), at)
    } else {
        row.share()
    }
}

impl Renewal<LabelRow, LabelRow, ()> for NoUser {
    ghost renewed = { λ none row. without_at none.at row };

    ghost counted = { λ state. 0 };

    ghost weight = { λ none row. 0 };

    ghost is_exact = { false };

    fn renew(
        &self,
        alloc: Global,
        _state: &mut (),
        node: &LabelRow,
        _paths: usize,
    ) -> Result<LabelRow, AllocError> {
        let row = shorter(alloc, &node.row, self.at)?;
        let new = with_row(alloc, &node.label, row)?;
        Ok(new)
    }
}

/// A user who joined or left groups, and is judged again on the labels that mention one of them.
#[derive(Drop)]
pub(crate) struct MovedUser<'a> {
    pub at: usize,
    pub user: &'a Subject,
}

impl<'a, J: Judge> NodeChange<LabelRow, J> for MovedUser<'a> {
    ghost changed = { λ moved row. asked_again J.verdict_of moved.at moved.user.now row };

    ghost counted = { J.asked_of };

    fn change(
        &self,
        alloc: Global,
        judge: &mut J,
        node: &LabelRow,
    ) -> Result<Option<LabelRow>, AllocError> {
        if self.at >= node.row.as_slice().len() {
            return Ok(None);
        }
        let some = judged_again(alloc, judge, node, self.at, self.user)?;
        let Some(row) = some else {
            return Ok(None);
        };
        let new = with_row(alloc, &node.label, row)?;
        Ok(Some(new))
    }
}

impl KindRows {
    /// Returns the rows of no files.
    pub fn none(alloc: Global) -> Result<KindRows, AllocError>
        ensures { IfOk result (λ none. entries_in none.rows ≡ []) }
    {
        Ok(KindRows {
            rows: ClassedRows::none(alloc)?,
            hints: Hints::new(alloc),
        })
    }

    /// Copies the rows; both share them.
    pub fn share(&self) -> Result<KindRows, AllocError>
        ensures { IfOk result (λ same. same.rows ≡ self.now.rows) }
    {
        Ok(KindRows {
            rows: self.rows.share()?,
            hints: self.hints.share()?,
        })
    }

    /// Returns the row of a file, if it is there.
    pub fn row(&self, path: &Path) -> Option<&Cells>
        ensures { option_copied result ≡ find path_cmp path.now (rows_at (entries_in self.now.rows)) }
    {
        let rows = self.rows.rows();
        match rows.get(path) {
            Some(node) => Some(&node.row),
            None => None,
        }
    }

    /// Returns the rows of files, which share their paths: each kind is judged, and counts for each file that has it.
    pub fn of_files<J: Judge>(
        alloc: Global,
        judge: &mut J,
        files: &Files,
        users: &Subjects,
    ) -> Result<KindRows, AllocError>
        requires room { J.asked_of judge.old + length files.now.files * length users.now < 2 ^ 64 }
        ensures rows { IfOk result (λ new. entries_in new.rows ≡ rowed J.verdict_of users.now files.now.files) }
        ensures asked { OnOk result (J.asked_of judge.new ≡ J.asked_of judge.old + length files.now.files * length users.now) }
        ensures at_most { J.asked_of judge.new ≤ J.asked_of judge.old + length files.now.files * length users.now }
    {
        let all = AllUsers { users };
        let map = files.files_by_path().renewed(alloc, judge, &all)?;
        let hints = hints_of(alloc, &map)?;
        let tagged = TaggedMap::of(alloc, map)?;
        let rows = ClassedRows::of(alloc, tagged)?;
        Ok(KindRows { rows, hints })
    }

    /// Adds a further user, the last.
    pub fn with_user<J: Judge>(
        &self,
        alloc: Global,
        judge: &mut J,
        user: &Subject,
    ) -> Result<KindRows, AllocError>
        requires room { J.asked_of judge.old + length (entries_in self.now.rows) < 2 ^ 64 }
        ensures rows { IfOk result (λ new. entries_in new.rows ≡ each_row (with_last J.verdict_of user.now) (entries_in self.now.rows)) }
        ensures at_most { J.asked_of judge.new ≤ J.asked_of judge.old + length (entries_in self.now.rows) }
    {
        let hints = self.hints.share()?;
        let last = LastUser { user };
        let before = self.rows.rows();
        let renewed = before.renewed(alloc, judge, &last)?;
        let rows = self.rows.with_all_rows(alloc, renewed)?;
        Ok(KindRows { rows, hints })
    }

    /// Removes the user at a place.
    pub fn without_user(&self, alloc: Global, at: usize) -> Result<KindRows, AllocError>
        ensures { IfOk result (λ new. entries_in new.rows ≡ each_row (without_at at) (entries_in self.now.rows)) }
    {
        let hints = self.hints.share()?;
        let none = NoUser { at };
        let before = self.rows.rows();
        let renewed = before.renewed(alloc, &mut (), &none)?;
        let rows = self.rows.with_all_rows(alloc, renewed)?;
        Ok(KindRows { rows, hints })
    }

    /// Judges a user again on the labels that mention one of `groups`, which the user joined or left: mostly once for
    /// each kind, which the clause bounds by the files. Other labels keep their rows.
    pub fn with_user_updated<J: Judge>(
        &self,
        alloc: Global,
        judge: &mut J,
        groups: &[Id],
        moved: &MovedUser<'_>,
    ) -> Result<UpdatedRows, AllocError>
        requires room { J.asked_of judge.old + count_by (λ e. mentions_any groups.now e.1) (entries_in self.now.rows) < 2 ^ 64 }
        ensures rows { IfOk result (λ new. entries_in new.rows.rows ≡ each_row (with_again J.verdict_of moved.now.at moved.now.user.now groups.now) (entries_in self.now.rows)) }
        ensures few { IfOk result (λ new. new.looked ≤ count_by (λ e. mentions_any groups.now e.1) (entries_in self.now.rows)) }
        ensures looked { IfOk result (λ new. J.asked_of judge.new ≤ J.asked_of judge.old + new.looked) }
        ensures least { IfOk result (λ new. AreCounted self.now.rows new.rows.rows new.refreshed) }
        ensures most { IfOk result (λ new. new.refreshed ≤ count_by (λ e. lies_in (filter (λ d. mentions_any groups.now d.1) (entries_in self.now.rows)) e.0) (entries_in self.now.rows)) }
        ensures at_most { J.asked_of judge.new ≤ J.asked_of judge.old + count_by (λ e. mentions_any groups.now e.1) (entries_in self.now.rows) }
    {
        let hints = self.hints.share()?;
        let mut tags = Vec::new(alloc);
        push_groups(&mut tags, groups)?;
        let before = self.rows.rows();
        let _kinds = before.map().kinds();
        let (updated, looked, labels) = before.with_tagged(alloc, judge, &tags, moved)?;
        let (rows, refreshed) = self.rows.with_rows(alloc, updated, &labels)?;
        Ok(UpdatedRows {
            rows: KindRows { rows, hints },
            looked,
            refreshed,
        })
    }
}
