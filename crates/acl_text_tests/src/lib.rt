//! Tests of all texts: worked examples and their limits. Texts that are cut and changed at every byte are compared with
//! second readers in `commands/tests/test_readers.py`.
#![tactic(auto)]

#[cfg(test)]
mod attributes;
#[cfg(test)]
mod bodies;
#[cfg(test)]
mod compared;
#[cfg(test)]
mod dumps;
#[cfg(test)]
mod entries;
#[cfg(test)]
mod limits;
#[cfg(test)]
mod lists_by_number;
#[cfg(test)]
mod people;
#[cfg(test)]
mod rows;
#[cfg(test)]
mod surface;
#[cfg(test)]
mod words;
#[cfg(test)]
mod writing;
