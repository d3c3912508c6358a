//! Access control lists after acl(5) and POSIX.1e draft 17: permission sets, entries, valid lists, their
//! correspondence with a file's mode, and the check of a request.
//!
//! Contracts see a list as a finite map from [`Key`] to [`Perm`], which is always valid. Text, edits of whole files
//! and trees are in the crates above.
//!
//! A call whose only error is [`NoMemory`] fails only if memory runs out. A function that returns no `Result`
//! gives its result whatever memory there is.
#![tactic(auto)]

mod acl;
mod check;
mod draft;
mod entry;
mod label;
mod linux;
mod subject_groups;

pub use acl::{Acl, INLINE_ENTRIES, MAX_ENTRIES, limits_are_as_defined};
pub use check::{Requests, granted};
pub use draft::Draft;
pub use entry::{Entry, Id, Key, ListFault, NOBODY, Perm};
pub use label::{Label, Subject};
pub use linux::{granted_by_linux, linux_checks_the_list_or_the_mode};
pub use subject_groups::groups_of_one;

/// The error that is returned if memory runs out: std's, under the name that the crates above use for it.
pub type NoMemory = std::alloc::AllocError;
