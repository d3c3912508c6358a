//! The rows of verdicts after a line, by what the line does: it changes files, loads users or groups, or adds,
//! removes or moves a user.

ghost use Rattle.std.specs.Prelude.{◌≡◌, ◌+◌, ◌*◌, ◌-◌, ◌<◌, ◌≤◌, ◌^◌, true, Some, count_by, length, map, slice_get, IfOk, MatchOption};
ghost use Rattle.acl_tree.specs.Files.{Files};
ghost use Rattle.acl_names.specs.Paths.{PathOf};
ghost use Rattle.kinds.specs.Numbered.{entries_in};
ghost use Rattle.acl_people.specs.KnownPeople.{persons};
ghost use Rattle.path_map.specs.Below.{lies_in};
ghost use Rattle.path_classes.specs.ClassedRows.{AreCounted};
ghost use Rattle.acl_rights.specs.KindRows.{AreRowsOf, rowed, with_label};
ghost use Rattle.acl_rights.specs.Costs.{all_pairs};
ghost use Rattle.acl_rights.specs.Stages.{most_asked, moves_groups};
ghost use Rattle.acl_rights.specs.Lines.{labels_of, AreBefore, IsAfter};

use crate::judge::Judge;
use crate::kind_rows::{KindRows, MovedUser, UpdatedRows};
use acl_edit::Node;
use acl_entry::{Label, Subject};
use acl_names::Path;
use acl_people::Subjects;
use acl_tree::{Differences, GroupIds, Staged, UserChange};
use kinds::KindMap;
use std::alloc::{AllocError, Global};

/// The rows after a line, how many labels were fetched for it, and how many verdicts along paths may be new or other
/// ones.
#[derive(Drop)]
pub(crate) struct NextRows {
    pub rows: KindRows,
    pub looked: u64,
    pub refreshed: u64,
}

/// Collects the labels of the remaining files.
fn labels<'a>(
    alloc: Global,
    files: Differences<'a>,
) -> Result<Vec<(&'a Path, &'a Label)>, AllocError>
    ensures { IfOk result (λ labels. map with_label labels.items ≡ labels_of files.entry) }
{
    let mut labels = Vec::new(alloc);
    let mut rest = files;
    while let Some(file) = rest.next() {
        labels.push((file.0, &file.1.label))?;
    }
    Ok(labels)
}

/// Collects the remaining labels; `None` as soon as there are `many`.
fn fewer_labels<'a>(
    alloc: Global,
    files: Differences<'a>,
    many: usize,
) -> Result<Option<Vec<(&'a Path, &'a Label)>>, AllocError>
    ensures { IfOk result (λ labels. MatchOption labels (many ≤ length files.entry) (λ few. map with_label few.items ≡ labels_of files.entry)) }
{
    let mut labels = Vec::new(alloc);
    let mut rest = files;
    while let Some(file) = rest.next() {
        labels.push((file.0, &file.1.label))?;
        if labels.len() >= many {
            return Ok(None);
        }
    }
    Ok(Some(labels))
}

/// Tells whether the first of the remaining files is the root: all paths are at or below it.
fn begin_at_root(files: Differences<'_>) -> bool
    ensures { result ≡ true → (p : PathOf) → lies_in files.entry p ≡ true }
{
    let mut rest = files;
    match rest.next() {
        Some(first) => first.0.borrowed().is_root(),
        None => false,
    }
}

/// Puts the rows of files that changed, and removes those of files that are gone; and counts the files whose answers
/// along their paths may be new or other ones.
fn with_changed<J: Judge>(
    alloc: Global,
    judge: &mut J,
    rows: &KindRows,
    staged: &Staged,
    changed: &[(&Path, &Label)],
) -> Result<(KindRows, usize), AllocError>
    requires room { J.asked_of judge.old + most_asked staged.now < 2 ^ 64 }
    requires before { AreBefore J.verdict_of (entries_in rows.now.rows) staged.now }
    requires moved { staged.now.user_change ≡ UserChange.Unchanged }
    requires changed { map with_label changed.now ≡ labels_of staged.now.changed }
    ensures rows { IfOk result (λ new. entries_in new.0.rows ≡ rowed J.verdict_of (persons staged.now.state.people) staged.now.state.tree.files) }
    ensures least { IfOk result (λ new. AreCounted rows.now.rows new.0.rows new.1) }
    ensures most { IfOk result (λ new. new.1 ≤ count_by (λ e. lies_in staged.now.changed e.0) staged.now.state.tree.files) }
    ensures at_most { J.asked_of judge.new ≤ J.asked_of judge.old + most_asked staged.now }
{
    staged.tree().soundness_law();
    rows.rows.rows().order_law();
    let users = staged.people().all_subjects();
    let gone = labels(alloc, staged.gone())?;
    let new = rows.with_files(alloc, judge, users, changed, &gone)?;
    Ok(new)
}

/// Returns from how many changed files on the rows of all files are made by the tree's numbers of kinds: at least as
/// many as there are numbers, so that no more is judged; and an eighth of all files, which are not counted one by one if
/// it is likely that as many changed.
fn many_of(staged: &Staged, files: &KindMap<Node>) -> usize
    requires { length (entries_in files.now) < 2 ^ 64 }
    ensures { length files.now.0.0 ≤ result }
{
    let numbers = files.numbers_len();
    let most = files.len() / 8;
    if numbers >= most || staged.likely_changed() >= most {
        numbers
    } else {
        most
    }
}

/// Returns the rows after a line that changes files and no user. If the root and many files changed, no list of them
/// is made, and the rows of all files are found from the numbers of the tree.
fn changed_rows<J: Judge>(
    alloc: Global,
    judge: &mut J,
    rows: &KindRows,
    staged: &Staged,
) -> Result<(KindRows, usize), AllocError>
    requires room { J.asked_of judge.old + most_asked staged.now < 2 ^ 64 }
    requires before { AreBefore J.verdict_of (entries_in rows.now.rows) staged.now }
    requires moved { staged.now.user_change ≡ UserChange.Unchanged }
    ensures rows { IfOk result (λ new. entries_in new.0.rows ≡ rowed J.verdict_of (persons staged.now.state.people) staged.now.state.tree.files) }
    ensures least { IfOk result (λ new. AreCounted rows.now.rows new.0.rows new.1) }
    ensures most { IfOk result (λ new. new.1 ≤ count_by (λ e. lies_in staged.now.changed e.0) staged.now.state.tree.files) }
    ensures at_most { J.asked_of judge.new ≤ J.asked_of judge.old + most_asked staged.now }
{
    staged.tree().soundness_law();
    rows.rows.rows().order_law();
    if !begin_at_root(staged.changed()) {
        let changed = labels(alloc, staged.changed())?;
        return with_changed(alloc, judge, rows, staged, &changed);
    }
    let users = staged.people().all_subjects();
    let files = staged.tree().files_whole().files_by_path();
    match fewer_labels(alloc, staged.changed(), many_of(staged, files))? {
        Some(changed) => with_changed(alloc, judge, rows, staged, &changed),
        None => rows.of_kinds(alloc, judge, files, users, staged.keeps_files()),
    }
}

/// Returns the rows after a line that changes files and no user, and how many verdicts along paths may be new or other
/// ones.
fn after_files<J: Judge>(
    alloc: Global,
    judge: &mut J,
    rows: &KindRows,
    staged: &Staged,
) -> Result<NextRows, AllocError>
    requires room { J.asked_of judge.old + most_asked staged.now < 2 ^ 64 }
    requires counts { all_pairs staged.now.state < 2 ^ 64 }
    requires before { AreBefore J.verdict_of (entries_in rows.now.rows) staged.now }
    requires moved { staged.now.user_change ≡ UserChange.Unchanged }
    ensures after { IfOk result (IsAfter J.verdict_of (entries_in rows.now.rows) staged.now) }
    ensures at_most { J.asked_of judge.new ≤ J.asked_of judge.old + most_asked staged.now }
{
    staged.tree().soundness_law();
    rows.rows.rows().order_law();
    let (new, files) = changed_rows(alloc, judge, rows, staged)?;
    Ok(NextRows {
        rows: new,
        looked: 0,
        refreshed: files as u64 * staged.people().users() as u64,
    })
}

/// Returns the rows after users or groups were loaded: no file is there.
fn after_load<J: Judge>(
    alloc: Global,
    rows: &KindRows,
    staged: &Staged,
) -> Result<NextRows, AllocError>
    requires before { AreBefore J.verdict_of (entries_in rows.now.rows) staged.now }
    requires moved { staged.now.user_change ≡ UserChange.Loaded }
    ensures { IfOk result (IsAfter J.verdict_of (entries_in rows.now.rows) staged.now) }
{
    staged.tree().soundness_law();
    Ok(NextRows {
        rows: KindRows::none(alloc)?,
        looked: 0,
        refreshed: 0,
    })
}

/// Returns the user who joined or left groups.
fn moved_user<'a, J: Judge>(
    rows: &KindRows,
    staged: &'a Staged,
    at: usize,
    groups: &GroupIds,
) -> &'a Subject
    requires before { AreBefore J.verdict_of (entries_in rows.now.rows) staged.now }
    requires moved { staged.now.user_change ≡ UserChange.Memberships at groups.now }
    ensures { slice_get (persons staged.now.state.people) at ≡ Some result.now }
{
    match staged.people().subject_at(at) {
        Some(user) => user,
        None => unreachable!(),
    }
}

/// Returns the rows after a user joined or left groups: the user is judged again if a label mentions one of these
/// groups, and nowhere else.
fn after_move<J: Judge>(
    alloc: Global,
    judge: &mut J,
    rows: &KindRows,
    staged: &Staged,
    at: usize,
    groups: &GroupIds,
) -> Result<NextRows, AllocError>
    requires room { J.asked_of judge.old + most_asked staged.now < 2 ^ 64 }
    requires before { AreBefore J.verdict_of (entries_in rows.now.rows) staged.now }
    requires moved { staged.now.user_change ≡ UserChange.Memberships at groups.now }
    ensures after { IfOk result (IsAfter J.verdict_of (entries_in rows.now.rows) staged.now) }
    ensures at_most { J.asked_of judge.new ≤ J.asked_of judge.old + most_asked staged.now }
    ensures looked_least { IfOk result (λ new. J.asked_of judge.new ≤ J.asked_of judge.old + new.looked) }
{
    staged.tree().soundness_law();
    rows.rows.rows().order_law();
    let user = moved_user::<J>(rows, staged, at, groups);
    let moved = MovedUser { at, user };
    let groups = groups.as_slice();
    let updated = rows.with_user_updated(alloc, judge, groups, &moved)?;
    let UpdatedRows {
        rows,
        looked,
        refreshed,
    } = updated;
    Ok(NextRows {
        rows,
        looked: looked as u64,
        refreshed: refreshed as u64,
    })
}

/// Returns the user who was added, the last.
fn joined_user<'a, J: Judge>(rows: &KindRows, staged: &'a Staged) -> &'a Subject
    requires before { AreBefore J.verdict_of (entries_in rows.now.rows) staged.now }
    requires moved { staged.now.user_change ≡ UserChange.Added }
    ensures { slice_get (persons staged.now.state.people) (length (persons staged.now.state.people) - 1) ≡ Some result.now }
{
    match staged.people().subjects().last() {
        Some(user) => user,
        None => unreachable!(),
    }
}

/// Returns the rows after a user was added, the last: that user is judged on each kind of files.
fn after_join<J: Judge>(
    alloc: Global,
    judge: &mut J,
    rows: &KindRows,
    staged: &Staged,
) -> Result<NextRows, AllocError>
    requires room { J.asked_of judge.old + most_asked staged.now < 2 ^ 64 }
    requires before { AreBefore J.verdict_of (entries_in rows.now.rows) staged.now }
    requires moved { staged.now.user_change ≡ UserChange.Added }
    ensures after { IfOk result (IsAfter J.verdict_of (entries_in rows.now.rows) staged.now) }
    ensures at_most { J.asked_of judge.new ≤ J.asked_of judge.old + most_asked staged.now }
{
    staged.tree().soundness_law();
    rows.rows.rows().order_law();
    let user = joined_user::<J>(rows, staged);
    let new = rows.with_user(alloc, judge, user)?;
    Ok(NextRows {
        rows: new,
        looked: 0,
        refreshed: rows.rows.rows().len() as u64,
    })
}

/// Returns the rows after a user was removed. Nobody is judged.
fn after_leave<J: Judge>(
    alloc: Global,
    rows: &KindRows,
    staged: &Staged,
    at: usize,
) -> Result<NextRows, AllocError>
    requires before { AreBefore J.verdict_of (entries_in rows.now.rows) staged.now }
    requires moved { staged.now.user_change ≡ UserChange.Removed at }
    ensures { IfOk result (IsAfter J.verdict_of (entries_in rows.now.rows) staged.now) }
{
    staged.tree().soundness_law();
    rows.rows.rows().order_law();
    let new = rows.without_user(alloc, at)?;
    Ok(NextRows {
        rows: new,
        looked: 0,
        refreshed: 0,
    })
}

/// Returns the rows after a line.
pub(crate) fn after_line<J: Judge>(
    alloc: Global,
    judge: &mut J,
    rows: &KindRows,
    staged: &Staged,
) -> Result<NextRows, AllocError>
    requires room { J.asked_of judge.old + most_asked staged.now < 2 ^ 64 }
    requires counts { all_pairs staged.now.state < 2 ^ 64 }
    requires before { AreBefore J.verdict_of (entries_in rows.now.rows) staged.now }
    ensures after { IfOk result (IsAfter J.verdict_of (entries_in rows.now.rows) staged.now) }
    ensures at_most { J.asked_of judge.new ≤ J.asked_of judge.old + most_asked staged.now }
    ensures looked_least { IfOk result (λ new. moves_groups staged.now.user_change ≡ true → J.asked_of judge.new ≤ J.asked_of judge.old + new.looked) }
{
    match staged.user_change() {
        UserChange::Unchanged => after_files(alloc, judge, rows, staged),
        UserChange::Loaded => after_load::<J>(alloc, rows, staged),
        UserChange::Memberships { user, groups } => {
            after_move(alloc, judge, rows, staged, *user, groups)
        }
        UserChange::Added => after_join(alloc, judge, rows, staged),
        UserChange::Removed { user } => after_leave::<J>(alloc, rows, staged, *user),
    }
}
