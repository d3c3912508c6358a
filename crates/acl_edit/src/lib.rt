//! One file's edits after setfacl(1), chacl(1), chmod(1) and acl(5): what an edit leaves of a file's
//! lists, and what a new file gets of its directory's.
//!
//! A [`Node`] is plain data. Paths, people and whole commands are in the crates above.
//!
//! A call whose only error is `AllocError` or `NoMemory` fails only if memory runs out.
#![tactic(auto)]

mod change;
mod creation;
mod edit;
mod laws;
mod node;
mod steps;

pub use creation::create;
pub use edit::{Edit, EditFault, Specs, apply, restore_node};
pub use laws::edits_are_refused_for_their_lists;
pub use node::{Kind, Node, chmod};
