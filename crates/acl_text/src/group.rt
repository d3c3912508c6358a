//! Reading group(5).

ghost use Rattle.std.specs.Prelude.{◌≡◌, IfOk, option_map};
ghost use Rattle.acl_names.specs.Pieces.{pieces};
ghost use Rattle.acl_text.specs.InTurn.{Gives};
ghost use Rattle.acl_text.specs.Rows.{names_of, group_row, group_name, group_of};

use crate::fault::TextFault;
use crate::fields::read_id;
use crate::rows::{GroupRow, NameList, cut_two};
use crate::table::{TableRow, read_rows};
use acl_entry::Id;
use acl_names::Name;
use acl_names::cut::{cut, first_piece};
use std::alloc::{AllocError, Global};

/// Returns the name, the id and the field of names of a row of four fields.
fn fields(line: &[u8]) -> Option<(&[u8], Id, &[u8])>
    ensures { option_map (λ x. record { name = x.0.now; gid = x.1; names = names_of x.2.now }) result ≡ group_row (pieces 58 line.now) }
{
    let (name, _password, rest) = cut_two(line)?;
    let (gid, names) = cut(rest, b':')?;
    if let Some(_) = cut(names, b':') {
        return None;
    }
    if name.is_empty() {
        return None;
    }
    let gid = read_id(gid)?;
    Some((name, gid, names))
}

/// Reads the names between commas, without empty ones.
fn names_of(alloc: Global, field: &[u8]) -> Result<NameList, AllocError>
    ensures { IfOk result (λ names. names ≡ names_of field.now) }
{
    let mut names = Vec::new(alloc);
    let mut rest = field;
    while !rest.is_empty() {
        let (name, after) = first_piece(rest, b',');
        if !name.is_empty() {
            names.push(Name::from_bytes(alloc, name)?)?;
        }
        rest = after;
    }
    Ok(NameList::new(names))
}

impl TableRow for GroupRow {
    ghost name = { group_name };

    ghost of_fields = { group_row };

    fn read(alloc: Global, line: &[u8]) -> Result<Option<(&[u8], GroupRow)>, AllocError> {
        let Some((name, gid, field)) = fields(line) else {
            return Ok(None);
        };
        let row = GroupRow {
            name: Name::from_bytes(alloc, name)?,
            gid,
            names: names_of(alloc, field)?,
        };
        Ok(Some((name, row)))
    }
}

/// Returns the counted rows of a group(5) text: the first row of each name, at most `MAX_ROWS`; one more is `TooMany`.
/// Empty lines and lines that begin with `#` are ignored; a line is `name:password:gid:names`, with a name that is not
/// empty, an id of digits alone, at most 4294967294, and names between commas, of which empty ones are ignored, else it is
/// `BadRow`; a row whose name came before is not counted, but must be well formed. The fault of the first faulty line is
/// returned.
pub fn read_group(alloc: Global, bytes: &[u8]) -> Result<Vec<GroupRow>, TextFault>
    ensures { Gives (λ rows. rows.items) result (group_of bytes.now) }
{
    read_rows(alloc, bytes)
}
