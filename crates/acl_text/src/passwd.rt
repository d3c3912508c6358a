//! Reading passwd(5).

ghost use Rattle.std.specs.Prelude.{◌≡◌, option_map};
ghost use Rattle.acl_names.specs.Pieces.{pieces};
ghost use Rattle.acl_text.specs.InTurn.{Gives};
ghost use Rattle.acl_text.specs.Rows.{passwd_row, passwd_name, passwd_of};

use crate::fault::TextFault;
use crate::fields::read_id;
use crate::rows::{PasswdRow, cut_two};
use crate::table::{TableRow, read_rows};
use acl_entry::Id;
use acl_names::Name;
use acl_names::cut::cut;
use std::alloc::{AllocError, Global};

/// Returns the name and the two ids of a row of seven fields.
fn fields(line: &[u8]) -> Option<(&[u8], Id, Id)>
    ensures { option_map (λ x. record { name = x.0.now; uid = x.1; gid = x.2 }) result ≡ passwd_row (pieces 58 line.now) }
{
    let (name, _password, rest) = cut_two(line)?;
    let (uid, gid, rest) = cut_two(rest)?;
    let (_gecos, _home, shell) = cut_two(rest)?;
    if let Some(_) = cut(shell, b':') {
        return None;
    }
    if name.is_empty() {
        return None;
    }
    let uid = read_id(uid)?;
    let gid = read_id(gid)?;
    Some((name, uid, gid))
}

impl TableRow for PasswdRow {
    ghost name = { passwd_name };

    ghost of_fields = { passwd_row };

    fn read(alloc: Global, line: &[u8]) -> Result<Option<(&[u8], PasswdRow)>, AllocError> {
        let Some((name, uid, gid)) = fields(line) else {
            return Ok(None);
        };
        let row = PasswdRow {
            name: Name::from_bytes(alloc, name)?,
            uid,
            gid,
        };
        Ok(Some((name, row)))
    }
}

/// Returns the counted rows of a passwd(5) text: the first row of each name, at most `MAX_ROWS`; one more is `TooMany`.
/// Empty lines and lines that begin with `#` are ignored; a line is `name:password:uid:gid:gecos:home:shell`, with a name
/// that is not empty and ids of digits alone, at most 4294967294, else it is `BadRow`; a row whose name came before is not
/// counted, but must be well formed. The fault of the first faulty line is returned.
pub fn read_passwd(alloc: Global, bytes: &[u8]) -> Result<Vec<PasswdRow>, TextFault>
    ensures { Gives (λ rows. rows.items) result (passwd_of bytes.now) }
{
    read_rows(alloc, bytes)
}
