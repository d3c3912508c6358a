//! The index of who may do what: the verdicts on all users and files, kept up to date line by line.
//!
//! One row is kept for each kind of files: the label that the files have, and for each user the requests that it grants. A
//! file has the number of its kind, so a million files of twenty kinds mostly have twenty rows. And a file has a path class,
//! which says by whom all directories above can be searched (`path_classes`):
//!
//! ```text
//! path    number        number  label            joe  ann        group  numbers
//! .       0             0       root:root 755    r-x  r-x        root   0
//! home    0             1       joe:adm   640    rw-  r--        adm    1
//! home/f  1
//! ```
//!
//! For each group the numbers of the rows whose label mentions it are kept, as pairs of numbers in one ordered set.
//!
//! - A line that changes files: each distinct label of a changed file that is not found by its hash is mostly judged once
//!   for all users, and the changed files get the number of their new row. All other files keep theirs. Groups are
//!   compared for the labels of the numbers that files got or lost, and the pairs that differ are removed or put. The
//!   files at or below the changed ones may get other path classes. If the root changed beside others, it gets its label
//!   last, which mostly changes no other file's class.
//! - If the root and many files changed, the rows may be found by the tree's numbers of kinds: each is judged at most once,
//!   and mostly not if a row of its label is known. Labels and path classes may keep their numbers if files that had one
//!   label have one label again; else all files get the tree's numbers, and their path classes again.
//! - A membership: the groups' pairs give the rows whose label mentions one of them. For each of these the one user is
//!   judged again. Path classes of these labels, and those below one that changes, are searched again.
//! - A new user adds a verdict to each row; a removed one takes it out.
//! - A question on a file looks up its row, and along its path its path class too; one on all files walks over them in
//!   path order.
//! - A question on all users at once counts files by classes: files of a class have the same row, alone or along paths. So
//!   each class is mostly looked at once for all users.
//!
//! A call whose only error is `AllocError` or `NoMemory` fails only if memory runs out, or if a number or a count would be
//! too large. A function that returns no `Result` gives its result whatever memory there is.
#![tactic(auto)]

mod changed_part;
mod changed_rows;
mod deciding;
mod hints;
mod index;
mod indexed;
mod judge;
mod judged;
mod kept_labels;
mod kind_rows;
mod many_rows;
mod questions;
mod stage;

pub use index::{Index, Rows};
pub use indexed::{IndexedState, IndexedStates, States, Verdicts};
pub use judge::{Judge, Linux, Posix};
pub use path_classes::{Cells, ClassFiles, FileClasses, same_row};

// The public calls take and return these values of the crates below.
pub use acl_edit::{Edit, Kind, Specs};
pub use acl_entry::{Acl, Id, Key, Label, NoMemory, Perm, Requests, Subject};
pub use acl_names::{Name, Path, read_name};
pub use acl_people::{People, UserName};
pub use acl_text::Spec;
pub use acl_tree::{
    Command, DumpRecords, Membership, NewFile, NewUser, Paths, Staged, State, Table, Tree,
};
