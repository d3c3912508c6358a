//! Reading a table of names and ids, passwd(5) or group(5): the rows of a text that are counted.

ghost use Rattle.std.specs.Prelude.{◌≡◌, ◌∷◌, ◌++◌, [], ℕ, List, Option, IfOk, IfSome, OnOk, option_map};
ghost use Rattle.acl_names.specs.Pieces.{pieces};
ghost use Rattle.acl_text.specs.InTurn.{Gives, JudgesAt};
ghost use Rattle.acl_text.specs.Rows.{one_line, rows_of};
ghost use Rattle.acl_text.specs.Seen.{SeenNamesAre};

use crate::fault::{FaultKind, TextFault};
use crate::rows::{MAX_ROWS, has_no_content};
use acl_names::cut::first_piece;
use std::alloc::{AllocError, Global};
use std::collections::BTreeMap;

/// A row of a table.
pub(crate) trait TableRow {
    /// The row's name.
    ghost name: { Self → List ℕ };

    /// The row of the fields of a line, if they are one.
    ghost of_fields: { List (List ℕ) → Option Self };

    /// Returns the row of a line, with its name as the line has it. `None` if the line is no row.
    fn read(alloc: Global, line: &[u8]) -> Result<Option<(&[u8], Self)>, AllocError>
        ensures row { IfOk result (λ found. option_map (λ f. f.1) found ≡ of_fields (pieces 58 line.now)) }
        ensures name { IfOk result (λ found. IfSome found (λ f. f.0.now ≡ name f.1)) };
}

/// Adds a row, and its name to `seen`.
fn add_row<'a, R: TableRow + Drop>(
    rows: &mut Vec<R>,
    seen: &mut BTreeMap<&'a [u8], ()>,
    name: &'a [u8],
    row: R,
) -> Result<(), AllocError>
    requires seen { SeenNamesAre R.name seen.old rows.old.items }
    requires name { name.now ≡ R.name row }
    ensures row { OnOk result (rows.new.items ≡ rows.old.items ++ row ∷ []) }
    ensures seen { OnOk result (SeenNamesAre R.name seen.new rows.new.items) }
{
    seen.insert(name, ())?;
    rows.push(row)?;
    Ok(())
}

/// Adds the row of the line with a number, if it counts.
fn read_line<'a, R: TableRow + Drop>(
    alloc: Global,
    rows: &mut Vec<R>,
    seen: &mut BTreeMap<&'a [u8], ()>,
    at: usize,
    line: &'a [u8],
) -> Result<(), TextFault>
    requires { SeenNamesAre R.name seen.old rows.old.items }
    ensures judged { JudgesAt at result rows.new.items (one_line R.name R.of_fields rows.old.items line.now) }
    ensures seen { OnOk result (SeenNamesAre R.name seen.new rows.new.items) }
{
    if has_no_content(line) {
        return Ok(());
    }
    let Some((name, row)) = R::read(alloc, line)? else {
        return Err(TextFault {
            kind: FaultKind::BadRow,
            at,
        });
    };
    if seen.contains_key(name) {
        return Ok(());
    }
    if rows.len() >= MAX_ROWS {
        return Err(TextFault {
            kind: FaultKind::TooMany,
            at,
        });
    }
    add_row(rows, seen, name, row)?;
    Ok(())
}

/// Returns the counted rows of a text: the first row of each name, at most `MAX_ROWS`; or the fault of the first faulty
/// line. Empty lines and lines that begin with `#` are ignored.
pub(crate) fn read_rows<R: TableRow + Drop>(
    alloc: Global,
    bytes: &[u8],
) -> Result<Vec<R>, TextFault>
    ensures { Gives (λ rows. rows.items) result (rows_of R.name R.of_fields bytes.now) }
{
    let mut rows = Vec::new(alloc);
    let mut seen = BTreeMap::new(alloc);
    let mut rest = bytes;
    let mut at = 0;
    while !rest.is_empty() {
        at += 1;
        let (line, after) = first_piece(rest, b'\n');
        read_line(alloc, &mut rows, &mut seen, at, line)?;
        rest = after;
    }
    Ok(rows)
}
