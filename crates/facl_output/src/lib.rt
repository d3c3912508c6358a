//! What is printed: of files the listings of getfacl(1), of setfacl(1) with `--test`, of chacl(1) and of extended
//! attributes; why a script's line or a whole run is refused, and the exact bytes of its message.
//!
//! A call whose only error is `AllocError` or `NoMemory` fails only if memory runs out. A function that returns no `Result`
//! gives its result whatever memory there is.
#![tactic(auto)]

mod attr_listing;
mod chacl_listing;
mod fault;
mod kept_texts;
mod laws;
mod listing;
mod message;
mod reserved_message;
mod round_trips;
mod run_fault;
mod test_listing;

pub use attr_listing::write_attributes;
pub use chacl_listing::write_chacl_listing;
pub use fault::{LineFault, RunFault, Source};
pub use laws::{
    attributes_are_read_again, listing_is_loaded_again, listing_is_restored_as_it_is,
    lists_are_read_again,
};
pub use listing::{Options, append_listing, end_line, push_path, push_path_shown};
pub use message::{push_message, push_warning};
pub use reserved_message::ReservedMessage;
pub use run_fault::push_run_fault;
pub use test_listing::append_test_listing;

// The public calls take and give these values of the crates below.
pub use acl_edit::EditFault;
pub use acl_entry::{Id, Key, ListFault};
pub use acl_names::{Name, Path};
pub use acl_text::{FaultKind, TextFault, Which};
pub use acl_tree::{Table, TreeFault};
pub use facl_script::{ScriptFault, WordsFault};
