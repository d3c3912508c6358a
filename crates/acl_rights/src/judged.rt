//! The verdicts of users on a label, by the judge.

ghost use Rattle.std.specs.Prelude.{◌≡◌, ◌+◌, ◌*◌, ◌++◌, ◌∷◌, [], ◌<◌, ◌≤◌, ◌^◌, length, IfOk, slice_set};
ghost use Rattle.std.specs.List.{remove};
ghost use Rattle.std.specs.Option.{option_map_or};
ghost use Rattle.acl_rights.specs.Rows.{row_of, Asks};

use crate::judge::Judge;
use acl_entry::{Label, Requests, Subject};
use acl_people::Subjects;
use path_classes::{Cells, LabelRow};
use std::alloc::{AllocError, Global};

/// Judges all users on a label; the verdicts count for `files` files that have it.
pub(crate) fn judged<J: Judge>(
    alloc: Global,
    judge: &mut J,
    users: &Subjects,
    label: &Label,
    files: u64,
) -> Result<Cells, AllocError>
    requires room { J.asked_of judge.old + files * length users.now < 2 ^ 64 }
    requires some { 0 < files }
    ensures cells { IfOk result (λ cells. cells ≡ row_of J.verdict_of users.now label.now) }
    ensures asked { Asks result (J.asked_of judge.old) (J.asked_of judge.new) (files * length users.now) }
{
    let mut requests = vec![in alloc; Requests::none(); users.len()]?;
    judge.verdicts(users, label, files, &mut requests);
    Cells::new(alloc, requests)
}

/// Judges one user again on a label, and returns its row, which may be an equal one; `None` if it stays.
pub(crate) fn judged_again<J: Judge>(
    alloc: Global,
    judge: &mut J,
    node: &LabelRow,
    at: usize,
    user: &Subject,
) -> Result<Option<Cells>, AllocError>
    requires room { J.asked_of judge.old + 1 < 2 ^ 64 }
    requires at { at < length node.now.row }
    ensures cells { IfOk result (λ some. option_map_or (λ new. new) some node.now.row ≡ slice_set node.now.row at (J.verdict_of user.now node.now.label)) }
    ensures at_most { J.asked_of judge.new ≤ J.asked_of judge.old + 1 }
{
    let old = node.row.as_slice();
    let verdict = judge.verdict(user, &node.label);
    if old[at].bits() == verdict.bits() {
        return Ok(None);
    }
    let mut new = Vec::from_slice(alloc, old)?;
    new[at] = verdict;
    let row = Cells::new(alloc, new)?;
    Ok(Some(row))
}

/// Judges a further user on a label, the last of its row.
pub(crate) fn judged_last<J: Judge>(
    alloc: Global,
    judge: &mut J,
    node: &LabelRow,
    user: &Subject,
) -> Result<Cells, AllocError>
    requires { J.asked_of judge.old + 1 < 2 ^ 64 }
    ensures cells { IfOk result (λ new. new ≡ node.now.row ++ J.verdict_of user.now node.now.label ∷ []) }
    ensures at_most { J.asked_of judge.new ≤ J.asked_of judge.old + 1 }
{
    let cells = node.row.as_slice();
    let mut new = Vec::with_capacity(alloc, cells.len().saturating_add(1))?;
    new.extend_from_slice(cells)?;
    new.push(judge.verdict(user, &node.label))?;
    Cells::new(alloc, new)
}

/// Removes the verdict of one user.
pub(crate) fn without(alloc: Global, cells: &[Requests], at: usize) -> Result<Cells, AllocError>
    requires { at < length cells.now }
    ensures { IfOk result (λ new. new ≡ remove cells.now at) }
{
    let mut new = Vec::with_capacity(alloc, cells.len())?;
    new.extend_from_slice(cells)?;
    let _gone = new.remove(at);
    Cells::new(alloc, new)
}
