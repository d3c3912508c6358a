//! Users and groups as `acl_people` has them: how they are found, how they change, and all users at once. Commands on them are
//! tested by those of `acl_tree`.
//!
//! They are apart from `acl_people`, since a crate with tests is proved twice.
#![tactic(auto)]

#[cfg(test)]
mod changes;
#[cfg(test)]
mod look_ups;
#[cfg(test)]
mod subjects;
