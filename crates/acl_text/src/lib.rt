//! The texts of access control lists: names and paths, entry texts, rows of passwd(5) and group(5), dumps, and attribute
//! bytes. Each is read exactly, and all but the rows are written so that they are read again.
//!
//! A dump has files with their owners, groups, flags and lists, as getfacl(1) writes them and setfacl(1) --restore reads
//! them. Attribute bytes are those of `system.posix_acl_access` and `system.posix_acl_default`, in which Linux keeps lists
//! (linux/posix_acl_xattr.h).
//!
//! A call whose only error is `AllocError` or `NoMemory` fails only if memory runs out. An `append_..` adds its text whole or
//! not at all.
#![tactic(auto)]

mod apart;
mod attr_fields;
mod attr_laws;
mod bodies;
mod body;
mod close;
mod decode;
mod draft;
mod dump;
mod dump_laws;
mod dump_writing;
mod effective;
mod encode;
mod entries;
mod fault;
mod fields;
mod group;
mod header;
mod item;
mod known;
mod laws;
mod line;
mod naming;
mod passwd;
mod record;
mod rows;
mod seen;
mod shared;
mod table;
mod user_name;
mod writing;

pub use attr_laws::{attribute_encodes_its_entries, attribute_fault_is_first};
pub use decode::decode_attr;
pub use dump::read_dump;
pub use dump_laws::{
    dump_fault_is_first, dump_file_fault_is_lowest, dump_line_fault_is_lowest,
    records_are_read_again,
};
pub use dump_writing::{append_list, push_line};
pub use effective::Effective;
pub use encode::encode_attr;
pub use entries::{Form, PermSpec, Rules, Sep, Spec, Want, read_entries};
pub use fault::{FaultKind, TextFault, Which};
pub use fields::{is_number, read_id, read_perms, trim};
pub use group::read_group;
pub use header::{Header, append_header, append_record};
pub use laws::{
    entries_are_read_in_order, entries_fault_is_first, entry_fault_is_lowest,
    entry_means_what_is_read, group_fault_is_first, group_line_fault_is_lowest,
    group_rows_are_first_of_their_names, passwd_fault_is_first, passwd_line_fault_is_lowest,
    passwd_rows_are_first_of_their_names, piece_fault_is_lowest,
};
pub use naming::{Names, NoNames, read_group_word, read_user_word};
pub use passwd::read_passwd;
pub use record::{DumpRecord, DumpUse};
pub use rows::{GroupRow, MAX_ROWS, NameList, PasswdRow};
pub use shared::Shared;
pub use user_name::is_user_name;
pub use writing::{append_entry, append_id, append_short, write_long, write_short};

// The public calls take and give these values of the crates below.
pub use acl_names::{
    Components, Name, Path, append_name, append_path, read_name, read_path, write_name, write_path,
};
