//! What is printed of files, as the manual pages state it, and faults with their messages.
//!
//! They are apart from `facl_output`, since a crate with tests is proved twice.
#![tactic(auto)]

#[cfg(test)]
mod command_messages;
#[cfg(test)]
mod found_files;
#[cfg(test)]
mod line_messages;
#[cfg(test)]
mod listings;
#[cfg(test)]
mod lists_printed;
#[cfg(test)]
mod text_messages;
