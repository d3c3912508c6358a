//! Who is who: names and ids of users and groups, and the words that mean them.

ghost use Rattle.std.specs.Prelude.{◌≡◌, IfOk};
ghost use Rattle.std.specs.Option.{option_copied};
ghost use Rattle.acl_text.specs.Naming.{Naming, no_names};
ghost use Rattle.acl_text.specs.Words.{word_id};

use crate::fields::{is_number, read_id, trim};
use acl_entry::Id;
use acl_names::read_name;
use std::alloc::{AllocError, Global};

/// The users and groups that texts may name.
pub trait Names {
    ghost naming: { Self → Naming };

    /// Returns the id of the user of this name, which is not digits alone.
    fn user_id(&self, name: &[u8]) -> Option<Id>
        ensures { result ≡ (naming self.now).user_id name.now };

    /// Returns the id of the group of this name, which is not digits alone.
    fn group_id(&self, name: &[u8]) -> Option<Id>
        ensures { result ≡ (naming self.now).group_id name.now };

    /// Returns the name that a user's id is printed as; an id without one is printed as a number.
    fn user_name(&self, id: Id) -> Option<&[u8]>
        ensures { option_copied result ≡ (naming self.now).user_name id };

    /// Returns the name that a group's id is printed as; an id without one is printed as a number.
    fn group_name(&self, id: Id) -> Option<&[u8]>
        ensures { option_copied result ≡ (naming self.now).group_name id };
}

/// Users and groups without names: ids are read and printed as numbers.
#[derive(Clone, Copy)]
pub struct NoNames;

impl Names for NoNames {
    ghost naming = { λ _. no_names };

    fn user_id(&self, _name: &[u8]) -> Option<Id> {
        None
    }

    fn group_id(&self, _name: &[u8]) -> Option<Id> {
        None
    }

    fn user_name(&self, _id: Id) -> Option<&[u8]> {
        None
    }

    fn group_name(&self, _id: Id) -> Option<&[u8]> {
        None
    }
}

/// Returns the user that a word means: the word is trimmed, then decoded as a name; digits alone are a number, at
/// most 4294967294 and never looked up; any other name is looked up.
pub fn read_user_word<N: Names>(
    alloc: Global,
    word: &[u8],
    names: &N,
) -> Result<Option<Id>, AllocError>
    ensures { IfOk result (λ id. id ≡ word_id (N.naming names.now).user_id word.now) }
{
    let name = read_name(alloc, trim(word))?;
    let bytes = name.as_bytes();
    if is_number(bytes) {
        Ok(read_id(bytes))
    } else {
        Ok(names.user_id(bytes))
    }
}

/// Returns the group that a word means, read as a user's word is.
pub fn read_group_word<N: Names>(
    alloc: Global,
    word: &[u8],
    names: &N,
) -> Result<Option<Id>, AllocError>
    ensures { IfOk result (λ id. id ≡ word_id (N.naming names.now).group_id word.now) }
{
    let name = read_name(alloc, trim(word))?;
    let bytes = name.as_bytes();
    if is_number(bytes) {
        Ok(read_id(bytes))
    } else {
        Ok(names.group_id(bytes))
    }
}
