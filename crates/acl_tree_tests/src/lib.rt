//! Worked examples of whole commands, on files and on users and groups; each public call of `acl_tree` once.
//!
//! They are in a crate of their own, since a crate with tests is proved twice.
#![tactic(auto)]

#[cfg(test)]
mod chmod;
#[cfg(test)]
mod commands;
#[cfg(test)]
mod creat;
#[cfg(test)]
mod edits;
#[cfg(test)]
mod files;
#[cfg(test)]
mod loads;
#[cfg(test)]
mod people;
#[cfg(test)]
mod restores;
#[cfg(test)]
mod rm;
#[cfg(test)]
mod rows;
#[cfg(test)]
mod shown;
#[cfg(test)]
mod small_tree;
#[cfg(test)]
mod surface;
#[cfg(test)]
mod tables;
#[cfg(test)]
mod texts;
#[cfg(test)]
mod walks;
