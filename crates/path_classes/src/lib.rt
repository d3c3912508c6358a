//! Path classes: what files have in common that have one label and lie below directories of one class; and what users may do
//! with files along their paths.
//!
//! Beside the row of its label, each file has the number of a path class. A class has the number of the label and the class of
//! the nearest recorded directory above, and says which users can search all directories down to it, as soon as a file lies
//! below:
//!
//! ```text
//! path   label   class       class  label  above  searched by
//! .      0       0           0      0      -      joe ann
//! a      1       1           1      1      0      joe
//! a/f    2       2           2      2      1      not kept: nothing is below
//! b      1       1
//! b/g    2       2
//! ```
//!
//! So a user may do with `b/g` along its path what the row of label 2 grants, if class 1 has the user; else nothing.
//!
//! - If a directory alone has its class, it gets another label in place: nothing below it moves. Below one that shares its
//!   class each file gets the class of its label and of the class above, which may be one that files elsewhere have.
//! - If rows change, the classes of their labels are renewed: who can search is found again for each, and for those right
//!   below one that changes. Classes are found by tags: the class above, a hash of this and their label, and the label of
//!   those that say who can search. If all rows change, each class is mostly searched again once, after the one above it.
//! - How many files' answers may be others is counted too, at least those that are: after rows changed by the counts of
//!   classes, after files changed mostly one by one.
//!
//! A call whose only error is `AllocError` fails only if memory runs out, or if a number or a count would be too large. A
//! function that returns no `Result` gives its result whatever memory there is.
#![tactic(auto)]

mod answers;
mod cells;
mod changed_answers;
mod changed_files;
mod class_builder;
mod class_counts;
mod class_hints;
mod class_tags;
mod class_walk;
mod classed_rows;
mod classes_within;
mod file_classes;
mod hash;
mod kept_classes;
mod label_row;
mod left_rows;
mod marked_classes;
mod met_rows;
mod numbered_files;
mod path_class;
mod path_classes;
mod reach;
mod reached_paths;
mod reached_row;
mod relabelled_file;
mod renewed_searches;
mod rerowed_classes;
mod row_hints;
mod same_rows;
mod searched_once;
mod searchers;
mod stack;
mod tagged_classes;
mod top_paths;

pub use answers::granted_users;
pub use cells::{Cells, UserPlace, same_row};
pub use class_counts::ClassFiles;
pub use classed_rows::ClassedRows;
pub use file_classes::FileClasses;
pub use label_row::{LabelRow, push_groups};
pub use path_class::{ClassNumber, PathClass};
pub use searchers::Searchers;
pub use top_paths::tops_of;
