//! On which files a user is granted a request, if each directory above has to grant search.

ghost use Rattle.std.specs.Prelude.{◌≡◌, map, IfOk};
ghost use Rattle.kinds.specs.Numbered.{entries_in};
ghost use Rattle.path_classes.specs.KindRows.{rows_at};
ghost use Rattle.path_classes.specs.Rows.{grants, may_in};
ghost use Rattle.path_classes.specs.ReachedRows.{reached_rows};
ghost use Rattle.path_classes.specs.NumberedRows.{row_below};

use crate::answers::row_grants;
use crate::cells::UserPlace;
use crate::classed_rows::ClassedRows;
use crate::label_row::LabelRow;
use crate::left_rows::passes_above;
use crate::path_class::PathClass;
use acl_entry::Perm;
use acl_names::Path;
use kinds::{KindTest, Kinds};
use std::alloc::{AllocError, Global};

/// The test that the files of a path class grant a user a request, if each directory above has to grant search.
#[derive(Drop)]
struct Reached<'a> {
    labels: &'a Kinds<LabelRow>,
    classes: &'a Kinds<PathClass>,
    user: UserPlace,
    request: Perm,
}

impl<'a> KindTest<PathClass> for Reached<'a> {
    ghost passes = { λ some class. grants some.request some.user (row_below some.labels.now some.classes.now class) };

    fn passes(&self, class: &PathClass) -> bool {
        match self.labels.get(class.kind) {
            Some(node) => {
                row_grants(&node.row, self.user, self.request)
                    && passes_above(self.classes, class.above, self.user)
            }
            None => false,
        }
    }
}

impl ClassedRows {
    /// Returns the paths of the files on which a user is granted a request and each of whose recorded directories
    /// above grants the user search, in path order: each path class is looked at once.
    pub fn reached_paths(
        &self,
        alloc: Global,
        user: UserPlace,
        request: Perm,
    ) -> Result<Vec<&Path>, AllocError>
        ensures { IfOk result (λ paths. map (λ p. p.now) paths.items ≡ may_in request user (reached_rows (rows_at (entries_in self.now)))) }
    {
        let rows = self.rows();
        rows.order_law();
        let classes = self.classes();
        let test = Reached {
            labels: rows.kinds(),
            classes: classes.kinds(),
            user,
            request,
        };
        let paths = classes.paths_where(alloc, &test)?;
        Ok(paths)
    }
}
