//! A persistent map from paths to nodes that mostly keeps once what many paths have in common: for each path a number,
//! and for each number a node with the count of its paths. A map and its copies may share what did not change. A map
//! with tags also keeps, for each tag, the numbers of the nodes that have it.
//!
//! A call whose only error is `AllocError` fails only if memory runs out, or if a number or a count of paths would be
//! too large. A function that returns no `Result` gives its result whatever memory there is.
#![tactic(auto)]

mod above;
mod blocks;
mod builder;
mod changed;
mod counted;
mod edit;
mod finder;
mod given;
mod iter;
mod kinds;
mod list;
mod map;
mod memo;
mod numbering;
mod pairs;
mod passing;
mod placed;
mod put;
mod release;
mod renew;
mod renumber;
mod tagged;
mod tagged_puts;
mod tagged_reads;

pub use blocks::{BlockList, Same};
pub use builder::KindMapBuilder;
pub use changed::NodeChange;
pub use edit::{EditedMap, KindEdit, Stop};
pub use finder::KindsFinder;
pub use iter::KindsIter;
pub use kinds::{KindNumber, Kinds};
pub use list::SharedList;
pub use map::KindMap;
pub use memo::{Memo, Met};
pub use numbering::Likeness;
pub use pairs::pair::Pair;
pub use pairs::set::PairSet;
pub use placed::{GivenNode, PlacedMap};
pub use put::KindPuts;
pub use renew::{KindTest, Renewal};
pub use tagged::{Tagged, TaggedMap, push_found, rising_numbers};
