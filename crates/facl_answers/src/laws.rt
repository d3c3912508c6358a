//! Laws of what `why` and `changes` print, each proved as the contract of a function that only looks.

ghost use Rattle.std.specs.Prelude.{◌≡◌, ℕ, [], List, Bool, Some, codes};
ghost use Rattle.std.specs.FinMap.{find};
ghost use Rattle.std.specs.List.{AllByRecursion};
ghost use Rattle.acl_edit.specs.declared.node.Node.{Node};
ghost use Rattle.acl_entry.specs.Check.{check};
ghost use Rattle.acl_entry.specs.Linux.{linux_check};
ghost use Rattle.acl_entry.specs.Perms.{Perms};
ghost use Rattle.acl_names.specs.Paths.{path_cmp, PathOf};
ghost use Rattle.acl_rights.specs.Deciders.{linux, linux_sole_key, posix, sole_key};
ghost use Rattle.acl_rights.specs.Rows.{Verdict};
ghost use Rattle.facl_answers.specs.ChangesText.{change_line, change_lines, changes_text, IsUnchanged};
ghost use Rattle.facl_answers.specs.Inner.{HasValidList};
ghost use Rattle.facl_answers.specs.Requests.{requests_granted};
ghost use Rattle.facl_answers.specs.WhyText.{some_decides, IsDecidedAlong};

use acl_edit::Node;
use acl_entry::{Label, Subject};
use acl_names::Path;
use acl_tree::{State, Tree};

/// Proof only: the check of acl(5) grants a user a request on a file exactly if one of the entries that `why` prints
/// contains it: of an entry of the group class what the mask leaves. So does Linux, by the entries printed under its judge.
pub fn deciding_entries_are_the_check(subject: &Subject, label: &Label)
    ensures by_check { (q : Perms) → check subject.now label.now q ≡ some_decides sole_key subject.now label.now q }
    ensures by_linux { (q : Perms) → linux_check subject.now label.now q ≡ some_decides linux_sole_key subject.now label.now q }
{
    let _entries = label.acl.entries();
}

/// Proof only: the access list of a file is a valid one.
fn list_is_valid(path: &Path, node: &Node)
    ensures { HasValidList (path.now, node.now) }
{
    let _entries = node.label.acl.entries();
}

/// Proof only: the access list of each file is a valid one.
fn lists_are_valid(tree: &Tree)
    ensures { AllByRecursion HasValidList tree.now.files }
{
    let mut files = tree.iter();
    while let Some(file) = files.next() {
        list_is_valid(file.0, file.1);
    }
}

/// Proof only: with search along the path a user is granted a request on a file exactly if, of the entries that
/// `why --reach` prints for this file alone, one of the file's contains it and one of each directory's contains
/// search.
pub fn deciding_entries_are_the_reach(subject: &Subject, tree: &Tree)
    ensures by_check { (q : Perms) (p : PathOf) (n : Node) → find path_cmp p tree.now.files ≡ Some n → IsDecidedAlong posix subject.now tree.now.files q (p, n) }
    ensures by_linux { (q : Perms) (p : PathOf) (n : Node) → find path_cmp p tree.now.files ≡ Some n → IsDecidedAlong linux subject.now tree.now.files q (p, n) }
{
    tree.soundness_law();
    lists_are_valid(tree);
    let _subject = subject;
}

/// Proof only: `changes` prints nothing exactly if each user, by name, is granted the same requests other than none
/// on each path in both states. A user or a file that is not there is granted nothing, so one that came or went
/// counts as unchanged where it is granted nothing.
pub fn changes_print_all_that_differs(loaded: &State, state: &State)
    ensures silent { (V : Verdict) (along : Bool) → IsUnchanged V along loaded.now state.now → changes_text V along loaded.now state.now ≡ [] }
    ensures complete { (V : Verdict) (along : Bool) → changes_text V along loaded.now state.now ≡ [] → IsUnchanged V along loaded.now state.now }
{
    let _same = loaded;
    state.tree().soundness_law();
}

/// Proof only: where nothing was granted before, `changes` prints that a user gains all requests other than none that are
/// granted after; where nothing is granted after, that the user loses all those that were granted before.
pub fn changes_tell_gains_from_losses()
    ensures gains { (path user : List ℕ) (after : ℕ) → change_lines path user 0 after ≡ change_line path user (codes "gains") (requests_granted after) }
    ensures loses { (path user : List ℕ) (before : ℕ) → change_lines path user before 0 ≡ change_line path user (codes "loses") (requests_granted before) }
{}
