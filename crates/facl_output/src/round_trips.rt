//! Files are read again as they are written, for the people who are known.

ghost use Rattle.std.specs.Prelude.{◌≡◌, length};
ghost use Rattle.std.specs.List.{AllByRecursion};
ghost use Rattle.acl_people.specs.KnownPeople.{naming_of};
ghost use Rattle.acl_text.specs.Writing.{IsKeyNamed};
ghost use Rattle.acl_text.specs.RoundTrips.{IsFound};
ghost use Rattle.facl_output.specs.RoundTrips.{IsListAgain, IsReadAgain};

use acl_edit::Node;
use acl_entry::{Acl, Id, Key};
use acl_names::Path;
use acl_people::People;
use acl_tree::Tree;

/// Proof only: a file has three flags.
fn flags_are_three(flags: [bool; 3])
    ensures { length flags ≡ 3 }
{
    let _flags = flags;
}

/// Proof only: an id is found again by what is printed for it as a user.
fn user_is_found(people: &People, id: Id)
    ensures { IsFound (naming_of people.now).user_id (naming_of people.now).user_name id }
{
    people.naming_is_read_back();
    let _number = id.number();
}

/// Proof only: an id is found again by what is printed for it as a group.
fn group_is_found(people: &People, id: Id)
    ensures { IsFound (naming_of people.now).group_id (naming_of people.now).group_name id }
{
    people.naming_is_read_back();
    let _number = id.number();
}

/// Proof only: whom an entry is for is found again by what is printed for it.
fn key_is_found(people: &People, key: &Key)
    ensures { IsKeyNamed (naming_of people.now) key.now }
{
    match *key {
        Key::User(id) => user_is_found(people, id),
        Key::Group(id) => group_is_found(people, id),
        Key::Owner | Key::OwningGroup | Key::Mask | Key::Other => {}
    }
}

/// Proof only: a list is read again as it is written.
fn list_is_read_again(people: &People, acl: &Acl)
    ensures { IsListAgain people.now acl.now }
{
    for entry in acl.entries() {
        key_is_found(people, &entry.key);
    }
}

/// Proof only: a file is read again as it is written.
fn file_is_read_again(people: &People, path: &Path, node: &Node)
    ensures { IsReadAgain people.now (path.now, node.now) }
{
    let _components = path.components();
    flags_are_three(node.flags);
    user_is_found(people, node.label.owner);
    group_is_found(people, node.label.group);
    list_is_read_again(people, &node.label.acl);
    if let Some(dacl) = &node.dacl {
        list_is_read_again(people, dacl);
    }
}

/// Proof only: each file is read again as it is written.
pub(crate) fn files_are_read_again(people: &People, tree: &Tree)
    ensures { AllByRecursion (IsReadAgain people.now) tree.now.files }
{
    let mut files = tree.iter();
    while let Some(file) = files.next() {
        file_is_read_again(people, file.0, file.1);
    }
}
