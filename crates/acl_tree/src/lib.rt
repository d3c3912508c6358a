//! The recorded files, the users and groups, and whole commands on them: each acts whole, or changes nothing.
//!
//! The files are one value, made of the records of a dump. The files of a command are found by search, and edited or
//! restored, all or none.
//!
//! A call whose only error is `AllocError` or `NoMemory` fails only if memory runs out. A function that returns no `Result`
//! gives its result whatever memory there is.
#![tactic(auto)]

mod alike;
mod command;
mod creat;
mod differences;
mod dump;
mod edit;
mod edit_command;
mod fault;
mod file_laws;
mod files;
mod gpasswd;
mod laws;
mod load;
mod records;
mod region;
mod restore;
mod rm;
mod selection;
mod stage_people;
mod state;
mod step;
mod tree;
mod user_change;
mod useradd;
mod userdel;
mod usermod;
mod walk;

pub use alike::{is_same_node, label_hash, node_hash};
pub use command::{Command, Membership, NewFile, NewUser, Table};
pub use differences::Differences;
pub use edit::{FileFault, NodeEdit};
pub use fault::TreeFault;
pub use file_laws::each_record_is_a_file;
pub use files::{Files, FilesFinder, FilesIter};
pub use laws::{
    commands_are_refused_for_their_first_fault, each_file_is_edited, new_file_is_removed,
    new_user_is_removed, restore_of_what_is_changes_nothing, unnamed_files_stay,
};
pub use region::Region;
pub use restore::DumpRecords;
pub use selection::{FoundFile, Paths, Selection};
pub use state::State;
pub use step::Staged;
pub use tree::Tree;
pub use user_change::{GroupIds, UserChange};

// The public calls take and give these values of the crates below.
pub use acl_edit::{Edit, EditFault, Kind, Node, Specs};
pub use acl_entry::{Acl, Id, Key, Label, ListFault, NoMemory, Subject};
pub use acl_names::{Name, Path, read_name};
pub use acl_people::{People, UserName};
pub use acl_text::{
    DumpRecord, DumpUse, FaultKind, Names, NoNames, Shared, Spec, TextFault, Which, read_dump,
};
