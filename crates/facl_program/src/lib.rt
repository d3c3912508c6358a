//! The program facl for any judge: reads its words and its texts, then answers the script on standard input.
//!
//! It ends with 0 if every line was accepted and with 1 if some line was refused. At the first fault of its own, or
//! of the run, it prints one line to standard error, unless that has failed, and ends with 2.
//!
//! A call whose only error is `AllocError` or `NoMemory` fails only if memory runs out.
#![tactic(auto)]

mod args;
mod fault;
mod file_store;
mod files;
mod program;

pub use fault::ProgramFault;
pub use file_store::FileStore;
pub use program::{answer_words, end, run_program};

// The public calls take and give these values of the crates below.
pub use facl::{Judge, Linux, Posix, Status};
pub use facl_script::{Feed, Sink};
