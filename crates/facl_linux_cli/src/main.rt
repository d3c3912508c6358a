//! The program facl_linux: its judge is what Linux grants.
#![tactic(auto)]

use facl_program::{Linux, run_program};
use std::process::ExitCode;

fn main(rt: HostRuntime) -> ExitCode {
    run_program(&rt, &mut Linux::new())
}
