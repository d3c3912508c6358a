//! Names that new users may have.

ghost use Rattle.std.specs.Prelude.{◌≡◌};
ghost use Rattle.std.specs.List.{list_any};
ghost use Rattle.acl_text.specs.UserNames.{cuts_row, is_user_name};

use crate::fields::is_number;

/// Tells whether a byte of the name ends a field or a row, or separates names.
fn cuts_row(name: &[u8]) -> bool
    ensures { result ≡ list_any cuts_row name.now }
{
    name.iter()
        .any(|b| *b == b':' || *b == b',' || *b == b'\n' || *b == 0)
}

/// Tells whether a new user may have the name: it is not empty, not digits alone, and nothing in it ends a field or a
/// row of passwd(5) or group(5).
pub fn is_user_name(name: &[u8]) -> bool
    ensures { result ≡ is_user_name name.now }
{
    !name.is_empty() && !is_number(name) && !cuts_row(name)
}
