//! A script of access control list tools over a tree of files: what each line prints, and the message of each that is
//! refused.
//!
//! [`run`] loads up to three texts, answers a script line by line, and writes what each line prints. Its contract is the
//! whole: what is written are the bytes of a session made from scratch, for devices whose bytes are known.
//! [`initial_state`] and [`run_from`] are its two steps, for a caller that frees the texts between them.
//!
//! Each tool has one file, in `facl_tools` or, if it asks who may do what, below `tools`: its syntax, its reader from
//! the words of a line to a value of its own type (`None`: usage), and what it does at a state. `tool_line` reads a
//! line's words and does it; its effect is what is printed, and the state that is to replace the present one. It changes
//! nothing; the session puts the effect in place. [`read_words`] uses the same readers. What the questions print is in
//! `facl_answers` and `facl_counts`.
//!
//! A call whose only error is `AllocError` or `NoMemory` fails only if memory runs out.
#![tactic(auto)]

mod laws;
mod line;
mod program;
mod session;
mod setup;
mod status;
mod tools;
mod words;

pub use laws::{
    lines_are_refused_for_their_first_fault, no_memory_is_no_fault_of_a_line,
    session_says_where_memory_ran_out,
};
pub use program::{run, run_from, run_judged};
pub use setup::{Setup, initial_state};
pub use status::Status;
pub use tools::laws::{
    each_tool_has_its_row, lines_are_refused_for_the_first_fault_of_their_command,
    tool_lines_are_refused_for_their_first_fault,
};
pub use tools::{Tool, read_words, syntax_of};
pub use words::read_args;

// The answers to questions, and laws of them.
pub use facl_answers::{
    append_requests, changes_print_all_that_differs, changes_tell_gains_from_losses,
    deciding_entries_are_the_check, deciding_entries_are_the_reach, files_asked, write_changes,
    write_index, write_may, write_who, write_why,
};
pub use facl_counts::{
    Asked, Folders, Listing, below_counts_what_may_lists, gains_count_each_change_once,
    gains_print_all_that_changes, write_below, write_folders, write_gains, write_listed,
};
// Laws of what tools print and read.
pub use facl_tools::{
    chacl_reads_what_it_lists, set_reads_what_test_prints, setattr_reads_what_attr_prints,
};
// The public calls take and give these values of the crates below.
pub use acl_entry::{Label, Perm, Requests, Subject};
pub use acl_rights::{IndexedState, Judge, Linux, Posix, Verdicts};
pub use acl_tree::State;
pub use facl_output::{LineFault, RunFault, Source, push_run_fault};
pub use facl_script::{
    Feed, Flags, OperandRow, Operands, OptionRow, Sink, StdFeed, StdSink, Syntax, Values, Words,
};
