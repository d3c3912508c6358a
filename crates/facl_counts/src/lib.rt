//! What `below` and `gains` print: for each user on how many files a request is granted or changes, and the first of
//! them; the first files of one user; and counts folder by folder.
//!
//! The files are counted once for all users, by classes of files that have the same row of the index, without a new
//! verdict.
//!
//! A call whose only error is `AllocError` fails only if memory runs out, or if a count would be too large. A
//! function that returns no `Result` gives its result whatever memory there is.
#![tactic(auto)]

mod below;
mod both_counts;
mod class_counts;
mod count_texts;
mod folders;
mod gains;
mod laws;
mod listed;
mod sums;
mod tallies;
mod user_counts;
mod user_gains;

pub use below::{Asked, write_below};
pub use folders::{Folders, write_folders};
pub use gains::{write_gains, write_gains_within};
pub use laws::{
    below_counts_what_may_lists, gains_count_each_change_once, gains_print_all_that_changes,
};
pub use listed::{Listing, write_listed};
