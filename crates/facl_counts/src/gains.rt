//! What `gains` prints: for each user and each change of what the user is granted, on how many files, and on which first.

ghost use Rattle.std.specs.Prelude.{◌≡◌, ◌<◌, IfOk, OnOk, map, option_map};
ghost use Rattle.std.specs.List.{flat_map, list_any};
ghost use Rattle.acl_names.specs.Appends.{Appends};
ghost use Rattle.path_map.specs.Entries.{IsInOrder};
ghost use Rattle.path_map.specs.Below.{within};
ghost use Rattle.path_classes.specs.ClassesWithin.{AreTops};
ghost use Rattle.acl_rights.specs.Outside.{SameOutside};
ghost use Rattle.facl_counts.specs.CountTexts.{spaced};
ghost use Rattle.facl_counts.specs.Counting.{tallied};
ghost use Rattle.facl_counts.specs.GainsText.{gains_text, is_same, is_same_side, side_of, side_text};
ghost use Rattle.facl_answers.specs.BothStates.{rows_in_both};
ghost use Rattle.facl_counts.specs.InnerGains.{HaveChanges, count_line, is_before, lines_after, lines_of_user, tally_line};
ghost use Rattle.facl_answers.specs.PathTexts.{text_in};
ghost use Rattle.path_classes.specs.Tallies.{count_where, first_where};

use crate::both_counts::count_within;
use crate::count_texts::{push_count, push_path};
use crate::tallies::{Tally, together};
use crate::user_gains::{UserGains, count_changes, keep_places, without_counts};
use acl_names::Path;
use acl_rights::{IndexedState, Judge, Verdicts};
use acl_tree::Tree;
use facl_answers::{BothClasses, Sides, push_hex, root, text_of, users_of_both};
use std::alloc::{AllocError, Global};

/// The number of sides: absent, or one of 256 bytes.
const SIDES: usize = 257;

/// What is granted before and after; `None` if the user or the file is absent.
type Granted = (Option<u8>, Option<u8>);

/// Returns the side of a number: 0 is the absent one.
fn side_of(number: usize) -> Option<u8>
    requires { number < 257 }
    ensures { result ≡ side_of number }
{
    if number == 0 {
        None
    } else {
        Some((number - 1) as u8)
    }
}

/// Tells whether a side of a key is this one.
fn is_same_side(side: Option<u8>, other: Option<usize>) -> bool
    ensures { result ≡ is_same_side side other }
{
    match side {
        None => other.is_none(),
        Some(side) => match other {
            Some(other) => side as usize == other,
            None => false,
        },
    }
}

/// Tells whether a key is this one.
fn is_same(granted: Granted, key: Sides) -> bool
    ensures { result ≡ is_same granted key }
{
    is_same_side(granted.0, key.0) && is_same_side(granted.1, key.1)
}

/// Adds what is granted: two hex digits, or `--` if the user or the file is absent.
fn push_side(text: &mut Vec<u8>, side: Option<u8>) -> Result<(), AllocError>
    ensures { Appends result text.old text.new (side_text side) }
{
    match side {
        Some(granted) => push_hex(text, granted),
        None => {
            text.extend_from_slice(b"--")?;
            Ok(())
        }
    }
}

fn push_spaced_side(text: &mut Vec<u8>, side: Option<u8>) -> Result<(), AllocError>
    ensures { Appends result text.old text.new (spaced (side_text side)) }
{
    push_side(text, side)?;
    text.push(b' ')?;
    Ok(())
}

/// Adds what is granted before and after, how many files there are, a user and a path.
fn push_line(
    text: &mut Vec<u8>,
    granted: Granted,
    count: u64,
    user: &[u8],
    path: &[u8],
) -> Result<(), AllocError>
    ensures { Appends result text.old text.new (count_line granted count user.now path.now) }
{
    push_spaced_side(text, granted.0)?;
    push_spaced_side(text, granted.1)?;
    push_count(text, count, user)?;
    push_path(text, path)
}

/// Sums the counts of a key.
fn count_of(tallies: &[Tally<'_>], granted: Granted) -> Result<u64, AllocError>
    ensures { IfOk result (λ count. count ≡ count_where (is_same granted) (map tallied tallies.now)) }
{
    let mut sum: u64 = 0;
    for tally in tallies {
        if !is_same(granted, tally.key) {
            continue;
        }
        sum = together(sum, tally.count)?;
    }
    Ok(sum)
}

/// Returns the first file that has a key.
fn first_of<'a>(tallies: &[Tally<'a>], granted: Granted) -> Option<&'a Path>
    ensures { option_map (λ path. path.now) result ≡ first_where (is_same granted) (map tallied tallies.now) }
{
    for tally in tallies {
        if is_same(granted, tally.key) {
            return Some(tally.first);
        }
    }
    None
}

/// Tells whether some count has a key with this side before.
fn has_before(tallies: &[Tally<'_>], before: Option<u8>) -> bool
    ensures { result ≡ list_any (is_before before) tallies.now }
{
    tallies
        .iter()
        .any(|tally| is_same_side(before, tally.key.0))
}

/// Adds a user's line of a change, if there is one.
fn push_change(
    text: &mut Vec<u8>,
    trees: (&Tree, &Tree),
    gains: &UserGains<'_>,
    granted: Granted,
) -> Result<(), AllocError>
    ensures { Appends result text.old text.new (tally_line (text_in trees.entry.0.now trees.entry.1.now) gains.now.user.name.items gains.now.tallies granted) }
{
    let tallies = gains.tallies.as_slice();
    let Some(first) = first_of(tallies, granted) else {
        return Ok(());
    };
    let count = count_of(tallies, granted)?;
    let path = text_of(*text.allocator(), trees.0, trees.1, first)?;
    push_line(text, granted, count, &gains.user.name, &path)
}

/// Adds a user's lines of the changes with this side before: none if no count has this side.
fn push_after(
    text: &mut Vec<u8>,
    trees: (&Tree, &Tree),
    gains: &UserGains<'_>,
    before: Option<u8>,
) -> Result<(), AllocError>
    ensures { Appends result text.old text.new (lines_after (text_in trees.entry.0.now trees.entry.1.now) gains.now.user.name.items gains.now.tallies before) }
{
    if !has_before(gains.tallies.as_slice(), before) {
        return Ok(());
    }
    for after in 0..SIDES {
        push_change(text, trees, gains, (before, side_of(after)))?;
    }
    Ok(())
}

fn push_user(
    text: &mut Vec<u8>,
    trees: (&Tree, &Tree),
    gains: &UserGains<'_>,
) -> Result<(), AllocError>
    ensures { Appends result text.old text.new (lines_of_user (text_in trees.entry.0.now trees.entry.1.now) gains.now) }
{
    for before in 0..SIDES {
        push_after(text, trees, gains, side_of(before))?;
    }
    Ok(())
}

fn push_users(
    text: &mut Vec<u8>,
    trees: (&Tree, &Tree),
    users: &[UserGains<'_>],
) -> Result<(), AllocError>
    ensures { Appends result text.old text.new (flat_map (lines_of_user (text_in trees.entry.0.now trees.entry.1.now)) users.now) }
{
    for gains in users {
        push_user(text, trees, gains)?;
    }
    Ok(())
}

/// Counts each user's changes on the files at a path or below it.
fn count_within_top<'x, J: Judge>(
    alloc: Global,
    users: &mut [UserGains<'x>],
    loaded: &'x IndexedState<J>,
    verdicts: &Verdicts<'x, J>,
    top: &Path,
) -> Result<(), AllocError>
    ensures { OnOk result (HaveChanges (within top.now (rows_in_both J.verdict_of verdicts.now.along loaded.now verdicts.now.state.now)) users.old users.new) }
{
    let mut both = BothClasses::of_states(alloc, loaded, verdicts, top);
    let tallies = count_within(alloc, &mut both, top)?;
    count_changes(alloc, users, &both, tallies.as_slice())
}

/// Counts each user's changes. If no user has another place than before, only the files of the part are looked at
/// outside which users may do the same in both states.
fn count_all<'x, J: Judge>(
    alloc: Global,
    users: &mut [UserGains<'x>],
    loaded: &'x IndexedState<J>,
    verdicts: &Verdicts<'x, J>,
    tops: &[Path],
) -> Result<(), AllocError>
    requires tops { AreTops tops.now }
    requires same { SameOutside J.verdict_of tops.now loaded.now verdicts.now.state.now }
    requires before { IsInOrder loaded.now.tree.files }
    requires after { IsInOrder verdicts.now.state.now.tree.files }
    ensures { OnOk result (HaveChanges (rows_in_both J.verdict_of verdicts.now.along loaded.now verdicts.now.state.now) users.old users.new) }
{
    if !keep_places(users) {
        return count_within_top(alloc, users, loaded, verdicts, &root(alloc));
    }
    for top in tops {
        count_within_top(alloc, users, loaded, verdicts, top)?;
    }
    Ok(())
}

/// Collects the users of both states, with their changes counted.
fn gains_of_users<'x, J: Judge>(
    alloc: Global,
    loaded: &'x IndexedState<J>,
    verdicts: &Verdicts<'x, J>,
    tops: &[Path],
) -> Result<Vec<UserGains<'x>>, AllocError>
    requires tops { AreTops tops.now }
    requires same { SameOutside J.verdict_of tops.now loaded.now verdicts.now.state.now }
    ensures { IfOk result (λ users. flat_map (lines_of_user (text_in loaded.now.tree verdicts.now.state.now.tree)) users.items
        ≡ gains_text J.verdict_of verdicts.now.along loaded.now verdicts.now.state.now) }
{
    loaded.state().tree().soundness_law();
    verdicts.state.state().tree().soundness_law();
    let people = verdicts.state.state().people();
    let placed = users_of_both(alloc, loaded.state().people(), people)?;
    let mut users = without_counts(alloc, placed)?;
    count_all(alloc, &mut users, loaded, verdicts, tops)?;
    Ok(users)
}

/// Writes what `gains` prints, if users may do the same in both states outside a part of the tree, what is at or
/// below `tops`: a walk over both states' files for each of these, or one over all if a user has another place.
pub fn write_gains_within<'x, J: Judge>(
    alloc: Global,
    loaded: &'x IndexedState<J>,
    verdicts: &Verdicts<'x, J>,
    tops: &[Path],
) -> Result<Vec<u8>, AllocError>
    requires tops { AreTops tops.now }
    requires same { SameOutside J.verdict_of tops.now loaded.now verdicts.now.state.now }
    ensures { IfOk result (λ text. text.items ≡ gains_text J.verdict_of verdicts.now.along loaded.now verdicts.now.state.now) }
{
    let users = gains_of_users(alloc, loaded, verdicts, tops)?;
    let trees = (loaded.state().tree(), verdicts.state.state().tree());
    let mut text = Vec::new(alloc);
    push_users(&mut text, trees, &users)?;
    Ok(text)
}

/// Writes what `gains` prints: for each user of either state and each change of what the user is granted, how many
/// files have it, and the first of them; by the verdicts on the files alone or along their paths, as `verdicts` says.
/// It is one walk over both states' files.
pub fn write_gains<'x, J: Judge>(
    alloc: Global,
    loaded: &'x IndexedState<J>,
    verdicts: &Verdicts<'x, J>,
) -> Result<Vec<u8>, AllocError>
    ensures { IfOk result (λ text. text.items ≡ gains_text J.verdict_of verdicts.now.along loaded.now verdicts.now.state.now) }
{
    write_gains_within(alloc, loaded, verdicts, &[root(alloc)])
}
