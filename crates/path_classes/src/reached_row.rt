//! What users may do with a file, if each directory above has to grant search.

ghost use Rattle.std.specs.Prelude.{◌≡◌, IfOk, option_map};
ghost use Rattle.std.specs.FinMap.{find};
ghost use Rattle.acl_names.specs.Paths.{path_cmp};
ghost use Rattle.kinds.specs.Numbered.{entries_in};
ghost use Rattle.path_classes.specs.KindRows.{rows_at};
ghost use Rattle.path_classes.specs.ReachedRows.{reached_rows};

use crate::classed_rows::ClassedRows;
use crate::left_rows::class_row;
use acl_entry::Requests;
use acl_names::Path;
use std::alloc::{AllocError, Global};

impl ClassedRows {
    /// Returns what each user may do with a file if each recorded directory above it lets the user search; `None` if
    /// there is no such file.
    pub fn reached_row(
        &self,
        alloc: Global,
        path: &Path,
    ) -> Result<Option<Vec<Requests>>, AllocError>
        ensures { IfOk result (λ row. option_map (λ r. r.items) row ≡ find path_cmp path.now (reached_rows (rows_at (entries_in self.now)))) }
    {
        let rows = self.rows();
        rows.order_law();
        let labels = rows.kinds();
        let classes = self.classes();
        let Some(number) = classes.numbers().get(path) else {
            return Ok(None);
        };
        let row = class_row(alloc, labels, classes.kinds(), number)?;
        Ok(Some(row))
    }
}
