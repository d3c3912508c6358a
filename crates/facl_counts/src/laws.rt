//! Laws of what `below` and `gains` print, each proved as the contract of a function that does nothing.

ghost use Rattle.std.specs.Prelude.{◌≡◌, ◌↔◌, ℕ, [], List, Bool, false, true, filter, length, Some, None};
ghost use Rattle.std.specs.List.{sum_by};
ghost use Rattle.acl_edit.specs.declared.node.Kind.{Kind};
ghost use Rattle.acl_entry.specs.Check.{has};
ghost use Rattle.acl_entry.specs.Perms.{Perms};
ghost use Rattle.acl_names.specs.Names.{escaped};
ghost use Rattle.acl_names.specs.Paths.{PathOf};
ghost use Rattle.acl_rights.specs.Rows.{Verdict};
ghost use Rattle.acl_rights.specs.Verdicts.{granted};
ghost use Rattle.acl_text.specs.declared.rows.PasswdRow.{PasswdRow};
ghost use Rattle.acl_tree.specs.Operands.{is_file};
ghost use Rattle.acl_tree.specs.State.{State as StateOf};
ghost use Rattle.facl_answers.specs.Answers.{all_files};
ghost use Rattle.facl_answers.specs.ChangesText.{change_lines, granted_to, users_of_both};
ghost use Rattle.facl_counts.specs.BelowText.{below_line, granted_below, is_of_kind};
ghost use Rattle.facl_counts.specs.GainsLaws.{AreBytes, IsWithoutChange, changed_files, changed_pairs, counted, is_changed};
ghost use Rattle.facl_counts.specs.GainsText.{gains_text, is_kept};

/// Proof only: the files that `below` counts for a user are those of the files that `may` lists which are at or below
/// one of the paths; so the user has a line exactly if `may` lists such a file. With a kind it counts those of these
/// files that are of the kind.
pub fn below_counts_what_may_lists()
    ensures files { (V : Verdict) (along : Bool) (s : StateOf) (q : Perms) (paths : List PathOf) (row : PasswdRow)
        → granted_below V along s q None paths row ≡ filter (λ file. is_file true paths file.path) (filter (λ file. has (granted V along s row (file.path, file.node)) q) (all_files s)) }
    ensures lines { (V : Verdict) (along : Bool) (s : StateOf) (q : Perms) (paths : List PathOf) (row : PasswdRow)
        → (below_line (escaped row.name) (granted_below V along s q None paths row) ≡ [])
        ↔ (filter (λ file. is_file true paths file.path) (filter (λ file. has (granted V along s row (file.path, file.node)) q) (all_files s)) ≡ []) }
    ensures kinds { (V : Verdict) (along : Bool) (s : StateOf) (q : Perms) (kind : Kind) (paths : List PathOf) (row : PasswdRow)
        → granted_below V along s q (Some kind) paths row ≡ filter (λ file. is_of_kind (Some kind) file.node) (granted_below V along s q None paths row) }
{}

/// Proof only: `gains` prints nothing exactly if no file of both states is a change for a user of both, if each
/// verdict is a byte. A file that is there before and after is a change exactly if `changes` has a line of it and the
/// user.
pub fn gains_print_all_that_changes()
    ensures silent { (V : Verdict) (along : Bool) (loaded now : StateOf) → IsWithoutChange V along loaded now → gains_text V along loaded now ≡ [] }
    ensures complete { (V : Verdict) (along : Bool) (loaded now : StateOf) → AreBytes V → gains_text V along loaded now ≡ [] → IsWithoutChange V along loaded now }
    ensures kept { (V : Verdict) (along : Bool) (loaded now : StateOf) (name path : List ℕ) (p : PathOf) → is_kept V along loaded now p ≡ true
        → (change_lines path (escaped name) (granted_to V along loaded name p) (granted_to V along now name p) ≡ []) ↔ (is_changed V along loaded now name p ≡ false) }
{}

/// Proof only: what the lines of `gains` count for a user is together the number of files that are a change for the user, and
/// what all lines count is the number of pairs of a user and such a file, if each verdict is a byte.
pub fn gains_count_each_change_once()
    ensures user { (V : Verdict) (along : Bool) (loaded now : StateOf) (name : List ℕ) → AreBytes V → counted V along loaded now name ≡ length (changed_files V along loaded now name) }
    ensures all { (V : Verdict) (along : Bool) (loaded now : StateOf) → AreBytes V
        → sum_by (λ row. counted V along loaded now row.name) (users_of_both loaded now) ≡ length (changed_pairs V along loaded now) }
{}
