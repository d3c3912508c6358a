//! Answers along paths: a file's row counts for the users who get through its directories.

ghost use Rattle.std.specs.Prelude.{◌≡◌};
ghost use Rattle.kinds.specs.Numbered.{entries_in};
ghost use Rattle.path_classes.specs.KindRows.{rows_at};
ghost use Rattle.path_classes.specs.ReachedRows.{reached_at};

use crate::cells::UserPlace;
use crate::classed_rows::ClassedRows;
use crate::left_rows::class_cell;
use acl_entry::Requests;
use acl_names::Path;

impl ClassedRows {
    /// Returns what the user at a place may do with a file if each recorded directory above the file lets the user
    /// search; else nothing. `None` if there is no such file or user. One look-up, whatever the depth.
    pub fn reach(&self, user: UserPlace, path: &Path) -> Option<Requests>
        ensures { result ≡ reached_at (rows_at (entries_in self.now)) user path.now }
    {
        let rows = self.rows();
        rows.order_law();
        let labels = rows.kinds();
        let classes = self.classes();
        match classes.numbers().get(path) {
            Some(number) => class_cell(labels, classes.kinds(), number, user),
            None => None,
        }
    }
}
