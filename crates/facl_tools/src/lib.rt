//! The tools of a script that print or change recorded files and users: for each a module with its syntax, its reader
//! from the words of a line to a value of its own type (`None`: usage), and what it does at a state.
//!
//! What a line does is an [`Effect`]: what is printed, and the state that is to replace the present one. It changes
//! nothing; who takes it puts it in place. The tools that ask who may do what are in `facl`.
//!
//! A call whose only error is `AllocError` or `NoMemory` fails only if memory runs out.
#![tactic(auto)]

pub mod attr;
pub mod chacl;
pub mod chmod;
pub mod creat;
mod edits;
mod effect;
pub mod getfacl;
pub mod gpasswd;
mod lists;
pub mod load;
mod mode;
mod operands;
pub mod rm;
mod round_trips;
pub mod setattr;
pub mod setfacl;
mod setfacl_entries;
mod syntax;
mod tested;
mod text_words;
pub mod useradd;
pub mod userdel;
pub mod usermod;

pub use effect::Effect;
pub use operands::{name_meant, path_at, paths_of, user_at};
pub use round_trips::{
    chacl_reads_what_it_lists, set_reads_what_test_prints, setattr_reads_what_attr_prints,
};
pub use setfacl_entries::ChangeEntries;
pub use text_words::{asks_for_text, is_text_word, read_by};
