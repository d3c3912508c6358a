//! Who is granted a request on a file, and on which files a user is granted one.

ghost use Rattle.std.specs.Prelude.{◌≡◌, map, IfOk};
ghost use Rattle.kinds.specs.Numbered.{entries_in};
ghost use Rattle.path_classes.specs.KindRows.{rows_at};
ghost use Rattle.path_classes.specs.Rows.{who_in, may_in, grants};

use crate::cells::{Cells, UserPlace};
use crate::classed_rows::ClassedRows;
use crate::label_row::LabelRow;
use acl_entry::{Perm, Requests};
use acl_names::Path;
use kinds::KindTest;
use std::alloc::{AllocError, Global};

/// Returns the places of the users whose verdicts contain `request`.
pub fn granted_users(
    alloc: Global,
    cells: &[Requests],
    request: Perm,
) -> Result<Vec<usize>, AllocError>
    ensures { IfOk result (λ users. users.items ≡ who_in request cells.now) }
{
    let mut users = Vec::new(alloc);
    for at in 0..cells.len() {
        if cells[at].has(request) {
            users.push(at)?;
        }
    }
    Ok(users)
}

/// Tells whether a row grants a user a request.
pub(crate) fn row_grants(row: &Cells, user: UserPlace, request: Perm) -> bool
    ensures { result ≡ grants request user row.now }
{
    match row.get(user) {
        Some(cell) => cell.has(request),
        None => false,
    }
}

/// The test that a row grants a user a request.
#[derive(Drop)]
struct Granting {
    user: UserPlace,
    request: Perm,
}

impl KindTest<LabelRow> for Granting {
    ghost passes = { λ some row. grants some.request some.user row.row };

    fn passes(&self, node: &LabelRow) -> bool {
        row_grants(&node.row, self.user, self.request)
    }
}

impl ClassedRows {
    /// Returns the paths of the files on which a user is granted a request, in path order: each kind is looked at
    /// once.
    pub fn granted_paths(
        &self,
        alloc: Global,
        user: UserPlace,
        request: Perm,
    ) -> Result<Vec<&Path>, AllocError>
        ensures { IfOk result (λ paths. map (λ p. p.now) paths.items ≡ may_in request user (rows_at (entries_in self.now))) }
    {
        let paths = self.rows().paths_where(alloc, &Granting { user, request })?;
        Ok(paths)
    }
}
