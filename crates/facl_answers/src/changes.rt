//! What `changes` prints: what each user may do with each file, beside what the user might do before; and its lines.

ghost use Rattle.std.specs.Prelude.{◌≡◌, [], unwrap_or, IfOk};
ghost use Rattle.std.specs.Option.{option_copied};
ghost use Rattle.acl_names.specs.Appends.{Appends};
ghost use Rattle.path_map.specs.Below.{within};
ghost use Rattle.path_map.specs.Entries.{IsInOrder};
ghost use Rattle.path_classes.specs.ClassesWithin.{AreTops};
ghost use Rattle.acl_rights.specs.Outside.{SameOutside};
ghost use Rattle.facl_answers.specs.BothStates.{both_of, front, rows_in_both, rows_of_both, rows_of_key};
ghost use Rattle.facl_answers.specs.ChangesText.{changes_text};
ghost use Rattle.facl_answers.specs.Inner.{KnowPlaces, lines_of_file, lines_of_files};
ghost use Rattle.facl_answers.specs.PathTexts.{text_in};

use crate::both_classes::{BothClasses, Sides};
use crate::change_lines::{has_lines, push_rows};
use crate::path_texts::{root, text_of};
use crate::placed_users::{PlacedUser, PlacedUsers, keep_places, users_of_both};
use acl_entry::Requests;
use acl_names::Path;
use acl_rights::{Cells, IndexedState, Judge, Verdicts};
use acl_tree::Tree;
use std::alloc::{AllocError, Global};

/// Returns the row, or that of nobody if there is none.
pub(crate) fn row_or_none(row: &Option<Cells>) -> &[Requests]
    ensures { result.now ≡ unwrap_or row.now [] }
{
    match row {
        Some(row) => row.as_slice(),
        None => &[],
    }
}

/// Adds the lines of a file of either tree, by the rows of its classes. The path is printed only if there may be
/// lines.
fn push_file(
    text: &mut Vec<u8>,
    users: &PlacedUsers<'_>,
    trees: (&Tree, &Tree),
    both: &BothClasses<'_>,
    file: (&Path, Sides),
) -> Result<(), AllocError>
    requires { KnowPlaces users.now }
    ensures { Appends result text.old text.new (lines_of_file users.now.list.now (text_in trees.entry.0.now trees.entry.1.now)
        (file.entry.0.now, rows_of_key (both_of both.now) file.entry.1)) }
{
    let (path, classes) = file;
    if users.keep_places && both.keeps_row(classes) {
        return Ok(());
    }
    let alloc = *text.allocator();
    let before = both.row_before(alloc, classes.0)?;
    let after = both.row_after(alloc, classes.1)?;
    let had = row_or_none(&before);
    let has = row_or_none(&after);
    if !has_lines(users, had, has) {
        return Ok(());
    }
    let path = text_of(alloc, trees.0, trees.1, path)?;
    push_rows(text, users.list, &path, had, has)
}

/// Adds the lines of the next files of both, as long as they are at a path or below it.
fn push_both(
    text: &mut Vec<u8>,
    users: &[PlacedUser],
    trees: (&Tree, &Tree),
    both: &mut BothClasses<'_>,
    top: &Path,
) -> Result<(), AllocError>
    requires before { IsInOrder both.old.before.1 }
    requires after { IsInOrder both.old.after.1 }
    ensures { Appends result text.old text.new (lines_of_files users.now (text_in trees.entry.0.now trees.entry.1.now)
        (front top.now (rows_of_both both.old.before.1 both.old.after.1))) }
{
    let alloc = *text.allocator();
    let users = PlacedUsers {
        list: users,
        keep_places: keep_places(users),
    };
    while let Some(file) = both.next_within(alloc, top)? {
        push_file(text, &users, trees, both, file)?;
    }
    Ok(())
}

/// Adds the lines of the files at a path or below it.
fn push_within<J: Judge>(
    text: &mut Vec<u8>,
    users: &[PlacedUser],
    loaded: &IndexedState<J>,
    verdicts: &Verdicts<'_, J>,
    top: &Path,
) -> Result<(), AllocError>
    ensures { Appends result text.old text.new (lines_of_files users.now (text_in loaded.now.tree verdicts.now.state.now.tree)
        (within top.now (rows_in_both J.verdict_of verdicts.now.along loaded.now verdicts.now.state.now))) }
{
    let mut both = BothClasses::of_states(*text.allocator(), loaded, verdicts, top);
    let trees = (loaded.state().tree(), verdicts.state.state().tree());
    push_both(text, users, trees, &mut both, top)
}

/// Adds the lines of all files, if users may do the same outside a part of the tree. If no user has another place
/// than before, only the files of the part are looked at.
fn push_part<J: Judge>(
    text: &mut Vec<u8>,
    users: &[PlacedUser],
    loaded: &IndexedState<J>,
    verdicts: &Verdicts<'_, J>,
    tops: &[Path],
) -> Result<(), AllocError>
    requires tops { AreTops tops.now }
    requires same { SameOutside J.verdict_of tops.now loaded.now verdicts.now.state.now }
    requires before { IsInOrder loaded.now.tree.files }
    requires after { IsInOrder verdicts.now.state.now.tree.files }
    ensures { Appends result text.old text.new (lines_of_files users.now (text_in loaded.now.tree verdicts.now.state.now.tree)
        (rows_in_both J.verdict_of verdicts.now.along loaded.now verdicts.now.state.now)) }
{
    if !keep_places(users) {
        let root = root(*text.allocator());
        return push_within(text, users, loaded, verdicts, &root);
    }
    for top in tops {
        push_within(text, users, loaded, verdicts, top)?;
    }
    Ok(())
}

/// Writes what `changes` prints, if users may do the same in both states outside a part of the tree, what is at or
/// below `tops`: a walk over both states' files for each of these, or one over all if a user has another place.
pub fn write_changes_within<J: Judge>(
    alloc: Global,
    loaded: &IndexedState<J>,
    verdicts: &Verdicts<'_, J>,
    tops: &[Path],
) -> Result<Vec<u8>, AllocError>
    requires tops { AreTops tops.now }
    requires same { SameOutside J.verdict_of tops.now loaded.now verdicts.now.state.now }
    ensures { IfOk result (λ text. text.items ≡ changes_text J.verdict_of verdicts.now.along loaded.now verdicts.now.state.now) }
{
    loaded.state().tree().soundness_law();
    verdicts.state.state().tree().soundness_law();
    let people = verdicts.state.state().people();
    let users = users_of_both(alloc, loaded.state().people(), people)?;
    let mut text = Vec::new(alloc);
    push_part(&mut text, &users, loaded, verdicts, tops)?;
    Ok(text)
}

/// Writes what `changes` prints: for each file of either state in path order, and each user of either state, a line
/// of the requests that the user gains on it, and one of those that the user loses; by the verdicts on the files
/// alone or along their paths, as `verdicts` says. It is one walk over both states' files.
pub fn write_changes<J: Judge>(
    alloc: Global,
    loaded: &IndexedState<J>,
    verdicts: &Verdicts<'_, J>,
) -> Result<Vec<u8>, AllocError>
    ensures { IfOk result (λ text. text.items ≡ changes_text J.verdict_of verdicts.now.along loaded.now verdicts.now.state.now) }
{
    write_changes_within(alloc, loaded, verdicts, &[root(alloc)])
}
