//! People: the users and groups of passwd(5) and group(5), looked up by name and by id, and each user's groups; all users
//! in their order, found by id and by group; and what acl(5)'s check grants them all on a file.
//!
//! A call whose only error is `AllocError` or `NoMemory` fails only if memory runs out. A function that returns no `Result`
//! gives its result whatever memory there is.
#![tactic(auto)]

mod accounts;
mod each_shared;
mod fault;
mod granted;
mod groups;
mod laws;
mod memberships;
mod name_table;
mod people;
mod persons;
mod places_by_id;
mod sorted_notes;
mod subjects;
mod user_name;
mod users;

pub use fault::LoadFault;
pub use granted::{granted_to_all, granted_to_all_by_linux};
pub use laws::{added_member_is_removed, added_user_is_removed, group_held_otherwise_stays};
pub use people::People;
pub use subjects::Subjects;
pub use user_name::UserName;
