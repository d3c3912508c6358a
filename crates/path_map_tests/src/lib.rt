//! Names and paths. Each public call of `path_map` once, on a map with two names that begin alike, and on one of several
//! branches. Of `kinds`: lists in shared blocks, numbers of nodes that are given back and given again, maps that are built
//! and put into, how many numbers an edit of a map takes, maps of the same paths with other nodes, and sets of pairs of
//! numbers.
//!
//! They are apart from these crates, since a crate with tests is proved twice. What edits make of maps by kinds is tested
//! by the commands of `acl_tree`.
#![tactic(auto)]

#[cfg(test)]
mod above;
#[cfg(test)]
mod branches;
#[cfg(test)]
mod kind_maps;
#[cfg(test)]
mod lists;
#[cfg(test)]
mod maps;
#[cfg(test)]
mod names;
#[cfg(test)]
mod nodes;
#[cfg(test)]
mod numbered_paths;
#[cfg(test)]
mod numbers;
#[cfg(test)]
mod pairs;
#[cfg(test)]
mod paths;
#[cfg(test)]
mod shared_numbers;
