//! A script under a judge.

ghost use Rattle.std.specs.Prelude.{◌≡◌};

use acl_rights::Judge;
use facl::{Setup, Status, run_judged};
use facl_script::{StdFeed, StdSink};
use std::alloc::Global;

/// What a script prints, how it ends, and how many verdicts its setup and its lines ask for.
#[derive(Drop)]
pub struct Played {
    pub out: Vec<u8>,
    pub err: Vec<u8>,
    pub status: Option<Status>,
    pub asked: u64,
}

/// Plays a script under a judge that was not asked yet.
pub fn play<J: Judge>(alloc: Global, judge: &mut J, setup: &Setup<'_>, script: &[u8]) -> Played
    requires { J.asked_of judge.old ≡ 0 }
{
    let mut out = Vec::new(alloc);
    let mut err = Vec::new(alloc);
    let end_of_run = run_judged(
        alloc,
        setup,
        judge,
        &mut StdFeed::new(script),
        &mut StdSink::new(&mut out),
        &mut StdSink::new(&mut err),
    );
    Played {
        out,
        err,
        status: end_of_run.ok(),
        asked: judge.asked(),
    }
}
