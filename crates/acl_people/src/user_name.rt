//! Names that new users may have.

ghost use Rattle.std.specs.Prelude.{◌≡◌, ◌<◌, length, Some, None, if◌then◌else◌, true, List, ℕ};
ghost use Rattle.acl_text.specs.UserNames.{is_user_name};

use acl_names::Name;
use acl_text::is_user_name;
use std::marker::Model;

/// A name that a new user may have: not empty, not digits alone, and without a colon, a comma, a line feed
/// and NUL, so that it can be a field of passwd(5) and one of the names of a row of group(5).
#[derive(Drop)]
pub struct UserName {
    name: Name,
}

impl Model for UserName {
    ghost Value = { List ℕ };

    ghost view = { λ n. n.name };

    ghost invariant = { λ n. is_user_name n.name ≡ true };
}

impl UserName {
    /// Makes the name one for a new user, if it may be one.
    pub fn new(name: Name) -> Option<UserName>
        ensures { result ≡ if is_user_name name then Some name else None }
    {
        if is_user_name(name.as_bytes()) {
            Some(UserName { name })
        } else {
            None
        }
    }

    pub fn as_name(&self) -> &Name
        ensures all { result.now ≡ self.now }
        ensures filled { 0 < length self.now }
    {
        &self.name
    }
}
