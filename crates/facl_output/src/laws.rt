//! Laws of the definitions, each proved as the contract of a function that only looks.

ghost use Rattle.std.specs.Prelude.{List, Bool};
ghost use Rattle.std.specs.List.{AllByRecursion};
ghost use Rattle.acl_names.specs.Paths.{PathOf};
ghost use Rattle.acl_tree.specs.Found.{files_found};
ghost use Rattle.acl_tree.specs.State.{state_from};
ghost use Rattle.facl_output.specs.RoundTrips.{listing_of, all_paths_listing, root_listing, IsLoadedAs, IsRestoredAsItIs, AreAttributesAgain, AreListsAgain};

use crate::round_trips::files_are_read_again;
use acl_people::People;
use acl_text::records_are_read_again;
use acl_tree::{Tree, restore_of_what_is_changes_nothing};

/// Proof only: what getfacl(1) prints without options of all files of a tree, loaded as a dump by the
/// same people where no dump is loaded, gives these files back: every path, kind, owner, group, flag and
/// list. All files are printed where the operands are all paths, and with `-R` where the root is the operand.
pub fn listing_is_loaded_again(people: &People, tree: &Tree)
    ensures all_paths { IsLoadedAs people.now (all_paths_listing people.now tree.now.files) tree.now.files }
    ensures from_root { IsLoadedAs people.now (root_listing people.now tree.now.files) tree.now.files }
{
    tree.soundness_law();
    files_are_read_again(people, tree);
}

/// Proof only: what getfacl(1) prints without options of files of a tree, whatever operands it has, read by the
/// same people for `setfacl --restore`, changes nothing when it is restored.
pub fn listing_is_restored_as_it_is(people: &People, tree: &Tree)
    ensures { (recursive : Bool) (paths : List PathOf)
        → IsRestoredAsItIs (state_from tree.now people.now) (listing_of people.now (files_found recursive paths tree.now.files)) }
{
    tree.soundness_law();
    files_are_read_again(people, tree);
    records_are_read_again();
    restore_of_what_is_changes_nothing();
}

/// Proof only: the hex digits that `attr` prints of each list of each file are those of bytes that are read as this
/// list.
pub fn attributes_are_read_again(people: &People, tree: &Tree)
    ensures { AllByRecursion (λ file. AreAttributesAgain file.1) tree.now.files }
{
    files_are_read_again(people, tree);
}

/// Proof only: what `chacl -l` prints in brackets of each list of each file is read by chacl as this list's entries, in
/// their order. What `setfacl --test` prints of the lists of each file is read by `setfacl --set` as the entries of
/// both, and they give back both lists.
pub fn lists_are_read_again(people: &People, tree: &Tree)
    ensures { AllByRecursion (λ file. AreListsAgain people.now file.1) tree.now.files }
{
    tree.soundness_law();
    files_are_read_again(people, tree);
}
