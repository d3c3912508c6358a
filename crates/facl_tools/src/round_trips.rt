//! What tools print of the lists of files is read by tools as these lists: laws of the definitions, each proved as the
//! contract of a function that only looks.

ghost use Rattle.std.specs.List.{AllByRecursion};
ghost use Rattle.facl_tools.specs.RoundTrips.{AreReadBySetattr, IsReadByChacl, IsReadBySet};

use acl_people::People;
use acl_tree::Tree;
use facl_output::{attributes_are_read_again, lists_are_read_again};

/// Proof only: what `chacl -l` prints in brackets of each file is read by chacl as the same lists, and put into the file
/// they change nothing.
pub fn chacl_reads_what_it_lists(people: &People, tree: &Tree)
    ensures { AllByRecursion (IsReadByChacl people.now) tree.now.files }
{
    tree.soundness_law();
    lists_are_read_again(people, tree);
}

/// Proof only: each line `NAME=0xHEX` that `attr` prints of a file is read by `setattr` as the same list, and put into the
/// file it changes nothing.
pub fn setattr_reads_what_attr_prints(people: &People, tree: &Tree)
    ensures { AllByRecursion (λ file. AreReadBySetattr file.1) tree.now.files }
{
    tree.soundness_law();
    attributes_are_read_again(people, tree);
}

/// Proof only: what `setfacl --test` prints of the lists of each file is read by `setfacl --set` as entries that give the
/// same lists.
pub fn set_reads_what_test_prints(people: &People, tree: &Tree)
    ensures { AllByRecursion (IsReadBySet people.now) tree.now.files }
{
    lists_are_read_again(people, tree);
}
