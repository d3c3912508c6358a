//! What lines ask for, fetch and refresh in the index, and verdicts after them; worked answers of `can`, `who`, `may`,
//! `below`, `why`, `index`, `changes` and `gains`.
//!
//! They are in a crate of their own, since a crate with tests is proved twice.
#![tactic(auto)]

#[cfg(test)]
mod answers;
#[cfg(test)]
mod asked;
#[cfg(test)]
mod changed;
#[cfg(test)]
mod classes;
#[cfg(test)]
mod cost_rows;
#[cfg(test)]
mod costs;
#[cfg(test)]
mod followed;
#[cfg(test)]
mod judge;
#[cfg(test)]
mod lines;
#[cfg(test)]
mod many;
#[cfg(test)]
mod people_rows;
#[cfg(test)]
mod requests;
#[cfg(test)]
mod rows;
#[cfg(test)]
mod small_tree;
#[cfg(test)]
mod states;
#[cfg(test)]
mod surface;
#[cfg(test)]
mod texts;
#[cfg(test)]
mod world;
