//! Worked examples of lists, the check, modes, edits of one file and new files; each public call of `acl_entry` and of
//! `acl_edit` once.
//!
//! They are apart from these crates, since a crate with tests is proved twice.
#![tactic(auto)]

#[cfg(test)]
mod checks;
#[cfg(test)]
mod edit_surface;
#[cfg(test)]
mod files_as_texts;
#[cfg(test)]
mod lines;
#[cfg(test)]
mod list_surface;
#[cfg(test)]
mod lists;
#[cfg(test)]
mod lists_by_number;
#[cfg(test)]
mod modes;
#[cfg(test)]
mod new_files;
#[cfg(test)]
mod whole_lists;
