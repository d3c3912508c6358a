//! The public surface of facl as a user sees it: sessions, and the words of lines and of the program, with types written
//! out.

use crate::judges::OwnerAlone;
use crate::texts::WHOLE;
use crate::words_as_text::words_of;
use facl::{
    Feed, Judge, LineFault, Posix, RunFault, Setup, Sink, Source, State, Status, StdFeed, StdSink,
    Tool, Words, initial_state, read_args, read_words, run, run_from, run_judged,
};
use std::alloc::Global;
use std::io;

#[test]
fn a_session(rt: HostRuntime) {
    let mut out: Vec<u8> = Vec::new(rt.alloc());
    let mut err: Vec<u8> = Vec::new(rt.alloc());
    let script: &[u8] = b"setfacl -m u:joe:rwx f\nchacl -l f\nfrob\n";
    let ended: Result<Status, RunFault> = run(
        rt.alloc(),
        &WHOLE,
        &mut StdFeed::new(script),
        &mut StdSink::new(&mut out),
        &mut StdSink::new(&mut err),
    );
    assert!(rt; ended.ok() == Some(Status::Refused) && Status::Refused.code() == 1);
    assert!(rt; out.as_slice() == b"f [u::rw-,u:joe:rwx,g::r--,m::rwx,o::---]\n".as_slice());
    assert!(rt; err.as_slice() == b"line 3: facl: unknown tool\n".as_slice());
}

#[test]
fn a_session_after_its_setup(rt: HostRuntime) {
    let state: Result<State, RunFault> = initial_state(rt.alloc(), &WHOLE);
    let mut judge: Posix = Posix::new();
    let mut out: Vec<u8> = Vec::new(rt.alloc());
    let ended: Result<Status, RunFault> = run_from(
        rt.alloc(),
        state.expect(&rt, "a state"),
        &mut judge,
        &mut StdFeed::new(b"chacl -l f\n".as_slice()),
        &mut StdSink::new(&mut out),
        &mut StdSink::new(Vec::new(rt.alloc())),
    );
    assert!(rt; ended.ok() == Some(Status::Accepted) && judge.asked() == 15);
    assert!(rt; out.as_slice() == b"f [u::rw-,g::r--,o::---]\n".as_slice());
}

#[test]
fn a_reader(rt: HostRuntime) {
    let mut reader = StdFeed::new(b"ab".as_slice());
    assert!(rt; !reader.failed());
    let mut piece = [0; 4];
    let count: io::Result<usize> = reader.read(&mut piece);
    assert!(rt; count.ok() == Some(2) && piece[1] == b'b' && !reader.failed());
}

#[test]
fn a_writer(rt: HostRuntime) {
    let mut writer = StdSink::new(Vec::new(rt.alloc()));
    assert!(rt; !writer.failed());
    let count: io::Result<usize> = writer.write(b"ab");
    assert!(rt; count.ok() == Some(2) && !writer.failed());
}

/// How many verdicts a script asks for, its setup included.
fn asked(alloc: Global, script: &[u8]) -> u64 {
    let mut judge = OwnerAlone::new();
    let _status: Option<Status> = run_judged(
        alloc,
        &WHOLE,
        &mut judge,
        &mut StdFeed::new(script),
        &mut StdSink::new(Vec::new(alloc)),
        &mut StdSink::new(Vec::new(alloc)),
    )
    .ok();
    judge.asked()
}

#[test]
fn verdicts_are_counted(rt: HostRuntime) {
    assert!(rt; asked(rt.alloc(), b"gpasswd -a joe adm\n") == 17);
}

#[test]
fn words(rt: HostRuntime) {
    let read: Result<Words, LineFault> = read_words(
        rt.alloc(),
        Tool::Chmod,
        &words_of(&rt, rt.alloc(), "-R 750 pub"),
    );
    let Words {
        flags: _,
        values: _,
        operands,
    } = read.expect(&rt, "words");
    assert!(rt; operands.as_slice().len() == 2);
}

#[test]
fn refused_words(rt: HostRuntime) {
    let refused: Result<Words, LineFault> = read_words(
        rt.alloc(),
        Tool::Chmod,
        &words_of(&rt, rt.alloc(), "8 pub"),
    );
    assert!(rt; number(refused.err().expect(&rt, "a fault")) == 7);
}

#[test]
fn words_of_the_program(rt: HostRuntime) {
    let files: Result<[Option<String>; 3], LineFault> = read_args(
        rt.alloc(),
        &words_of(&rt, rt.alloc(), "--dump d"),
    );
    let files: [Option<String>; 3] = files.expect(&rt, "words");
    let are_given: [bool; 3] = [files[0].is_some(), files[1].is_some(), files[2].is_some()];
    assert_eq!(rt; are_given, [false, false, true]);
}

#[test]
fn refused_words_of_the_program(rt: HostRuntime) {
    let refused = read_args(rt.alloc(), &words_of(&rt, rt.alloc(), "--dump"));
    assert!(rt; number(refused.err().expect(&rt, "a fault")) == 7);
}

/// The number of a fault among the faults of a line.
fn number(fault: LineFault) -> u8 {
    match fault {
        LineFault::LineTooLong => 1,
        LineFault::NotUtf8 => 2,
        LineFault::OpenQuote => 3,
        LineFault::UnknownTool => 4,
        LineFault::UnendedText => 5,
        LineFault::TextLineTooLong => 6,
        LineFault::Usage => 7,
        LineFault::Text(
            Source::Entry
            | Source::DefaultEntry
            | Source::TextLine
            | Source::AttributeEntry
            | Source::Operand,
            _,
        ) => 8,
        LineFault::Both { at: _ } => 9,
        LineFault::Tree(_) => 10,
        LineFault::NoMemory => 11,
    }
}

#[test]
fn a_setup_that_is_refused(rt: HostRuntime) {
    let setup = Setup {
        passwd: Some(b"lisa\n"),
        group: None,
        dump: None,
    };
    let ended: Result<Status, RunFault> = run(
        rt.alloc(),
        &setup,
        &mut StdFeed::new(b"".as_slice()),
        &mut StdSink::new(Vec::new(rt.alloc())),
        &mut StdSink::new(Vec::new(rt.alloc())),
    );
    assert!(rt; run_number(ended.err().expect(&rt, "a fault")) == 3);
}

/// The number of a fault among the faults of a run.
fn run_number(fault: RunFault) -> u8 {
    match fault {
        RunFault::Read => 1,
        RunFault::Write => 2,
        RunFault::Setup { which: _, fault: _ } => 3,
        RunFault::ScriptTooLong => 4,
        RunFault::NoMemory => 5,
    }
}
