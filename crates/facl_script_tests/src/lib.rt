//! A session that gives back its lines, run over devices that fail; the words of lines and of the program.
//!
//! They are apart from `facl_script`, since a crate with tests is proved twice.
#![tactic(auto)]

#[cfg(test)]
mod devices;
#[cfg(test)]
mod echo;
#[cfg(test)]
mod lines;
#[cfg(test)]
mod program_words;
#[cfg(test)]
mod ran;
#[cfg(test)]
mod recovering;
#[cfg(test)]
mod runs;
