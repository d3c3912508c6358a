//! What the questions of a script print: texts that are functions of one state and of what is asked, and of `changes` also
//! of the state after the texts were loaded. `below` and `gains` are in `facl_counts`.
//!
//! `can`, `who`, `may`, `index` and `changes` are answered from the index of who may do what, without a new verdict, and
//! `why` from the lists alone. The words of a line are not known here: a question is called with the users, paths and
//! permissions that the words name.
//!
//! A call whose only error is `AllocError` or `NoMemory` fails only if memory runs out. A function that returns no `Result`
//! gives its result whatever memory there is.
#![tactic(auto)]

mod both_classes;
mod change_lines;
mod changes;
mod file_walk;
mod index;
mod laws;
mod may;
mod path_texts;
mod placed_users;
mod requests;
mod two_paths;
mod who;
mod why;

pub use both_classes::{BothClasses, Sides};
pub use changes::{write_changes, write_changes_within};
pub use index::{path_shown, push_hex, write_index, written_names};
pub use laws::{
    changes_print_all_that_differs, changes_tell_gains_from_losses, deciding_entries_are_the_check,
    deciding_entries_are_the_reach,
};
pub use may::{push_file, write_may};
pub use path_texts::{files_at, root, text_of};
pub use placed_users::{PlacedUser, same_place, users_of_both};
pub use requests::append_requests;
pub use who::write_who;
pub use why::{files_asked, write_why};
