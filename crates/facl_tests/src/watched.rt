//! About whom a judge is asked, and on whose files: a line asks about what it changes and about nothing else, a question
//! about nothing.

use crate::judges::Watching;
use crate::texts::WHOLE;
use facl::{Judge, Status, StdFeed, StdSink, run_judged};
use std::alloc::Global;

/// How many verdicts a judge gave: all, those about joe, those on files of ann.
type Asked = (u64, u64, u64);

/// What a script asks for, its setup included.
fn asked_by(alloc: Global, script: &[u8]) -> Asked {
    let mut judge = Watching::new();
    let _status: Option<Status> = run_judged(
        alloc,
        &WHOLE,
        &mut judge,
        &mut StdFeed::new(script),
        &mut StdSink::new(Vec::new(alloc)),
        &mut StdSink::new(Vec::new(alloc)),
    )
    .ok();
    (judge.asked(), judge.about_joe, judge.on_files_of_ann)
}

/// A script, and what it asks for. Three users and five files are loaded, of which pub is ann's.
static ROWS: [(&[u8], Asked); 8] = [
    (b"", (15, 5, 3)),
    (
        b"can joe f\nwho r f\nmay joe r\nindex\nchanges\n",
        (15, 5, 3),
    ),
    (b"setfacl --test -m u:joe:rw f\n", (15, 5, 3)),
    (b"chmod 640 nowhere\n", (15, 5, 3)),
    (b"gpasswd -a joe adm\n", (17, 7, 4)),
    (b"chmod 770 pub\n", (18, 6, 6)),
    (b"chmod 600 f\n", (18, 6, 3)),
    (b"userdel joe\n", (15, 5, 3)),
];

#[test]
fn lines_ask_about_what_they_change(rt: HostRuntime) {
    for (at, (script, asked)) in ROWS.iter().enumerate() {
        assert!(rt; asked_by(rt.alloc(), script) == *asked, "row {at}");
    }
}
