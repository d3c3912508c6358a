//! The program facl: its judge is the access check of acl(5).
#![tactic(auto)]

use facl_program::{Posix, run_program};
use std::process::ExitCode;

fn main(rt: HostRuntime) -> ExitCode {
    run_program(&rt, &mut Posix::new())
}
