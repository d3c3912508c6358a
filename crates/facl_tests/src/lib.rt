//! Runs over devices that fail, runs under judges, the words of each tool's lines, which lines ask for a text, and the
//! public calls. Expected bytes are written out by hand from the rules of docs/SPECIFICATION.md, and words from the manual
//! pages and `clap`. Scripts that need none of these are in commands/tests/rows.
//!
//! Scripts under a judge: how many verdicts each line asks for, and what lines answer where the verdicts are not those
//! of acl(5)'s check.
//!
//! They are in a crate of their own, since a crate with tests is proved twice.
#![tactic(auto)]

#[cfg(test)]
mod answers;
#[cfg(test)]
mod costs;
#[cfg(test)]
mod devices;
#[cfg(test)]
mod each_byte;
#[cfg(test)]
mod file_costs;
#[cfg(test)]
mod getfacl_words;
#[cfg(test)]
mod judged_rows;
#[cfg(test)]
mod judges;
#[cfg(test)]
mod long_lines;
#[cfg(test)]
mod member_costs;
#[cfg(test)]
mod people_words;
#[cfg(test)]
mod played;
#[cfg(test)]
mod question_words;
#[cfg(test)]
mod setfacl_words;
#[cfg(test)]
mod surface;
#[cfg(test)]
mod text_lines;
#[cfg(test)]
mod texts;
#[cfg(test)]
mod tool_words;
#[cfg(test)]
mod user_costs;
#[cfg(test)]
mod watched;
#[cfg(test)]
mod words_as_text;
