//! How many verdicts each line of a script asks for, and the check of it: runs over the first lines, one line more at
//! a time.

use crate::played::play;
use acl_rights::Posix;
use facl::Setup;
use std::process::Abort;

/// A line with its text, and the verdicts that it asks for, at least and at most.
pub type Cost = (&'static [u8], (u64, u64));

/// Appends a line.
fn append(rt: &impl Abort, script: &mut Vec<u8>, line: &[u8]) {
    script.extend_from_slice(line).expect(rt, "memory");
}

/// How many verdicts a script asks for, its setup included.
fn asked_for(rt: &(impl Abort + AllocGlobal), setup: &Setup<'_>, script: &[u8]) -> u64 {
    let mut judge = Posix::new();
    let played = play(rt.alloc(), &mut judge, setup, script);
    assert!(rt; played.status.is_some());
    played.asked
}

/// Plays the first lines of a script, one more at a time, after a setup that asks for `asked` verdicts.
pub fn check(rt: &(impl Abort + AllocGlobal), setup: &Setup<'_>, asked: u64, costs: &[Cost]) {
    let mut script = Vec::new(rt.alloc());
    let mut before = asked_for(rt, setup, &script);
    assert_eq!(rt; before, asked, "the setup");
    for at in 0..costs.len() {
        let (line, (least, most)) = costs[at];
        append(rt, &mut script, line);
        let after = asked_for(rt, setup, &script);
        let spent = after
            .checked_sub(before)
            .expect(rt, "fewer verdicts than before");
        assert!(rt; least <= spent && spent <= most, "unit {at}: {spent}");
        before = after;
    }
}
