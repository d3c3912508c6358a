//! A persistent set of pairs of numbers, in order: by the first number, then by the second. So it relates each first
//! number to its second ones. A set and its copies share what did not change.

mod branch;
mod change;
mod chunk;
pub(crate) mod pair;
mod part;
pub(crate) mod set;
