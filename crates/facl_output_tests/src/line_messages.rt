//! The messages of lines and of runs, but for those of texts and commands.
use acl_tree::{Table, TreeFault};
use facl_output::{
    LineFault, ReservedMessage, RunFault, push_message, push_run_fault, push_warning,
};
use std::alloc::Global;
use std::process::Abort;

const LINES: [(LineFault, &str); 9] = [
    (LineFault::LineTooLong, "line 1: facl: line too long\n"),
    (LineFault::NotUtf8, "line 1: facl: not UTF-8\n"),
    (LineFault::OpenQuote, "line 1: facl: open quote\n"),
    (LineFault::UnknownTool, "line 1: facl: unknown tool\n"),
    (LineFault::UnendedText, "line 1: facl: text without end\n"),
    (
        LineFault::TextLineTooLong,
        "line 1: facl: text line too long\n",
    ),
    (LineFault::Usage, "line 1: setfacl: usage\n"),
    (
        LineFault::Both { at: 1 },
        "line 1: setfacl: entry 1: both removed and modified\n",
    ),
    (LineFault::NoMemory, "line 1: facl: no memory\n"),
];

const RUNS: [(RunFault, &str); 6] = [
    (RunFault::Read, "read fault"),
    (RunFault::Write, "write fault"),
    (
        RunFault::Setup {
            which: Table::Passwd,
            fault: TreeFault::TooMany,
        },
        "setup: passwd: too many files",
    ),
    (
        RunFault::Setup {
            which: Table::Group,
            fault: TreeFault::AlreadyLoaded,
        },
        "setup: group: already loaded",
    ),
    (RunFault::ScriptTooLong, "script too long"),
    (RunFault::NoMemory, "no memory"),
];

/// The message of a line that is refused is this one.
fn expect_line(rt: &impl Abort, alloc: Global, fault: &LineFault, want: &str) {
    let mut text = Vec::new(alloc);
    push_message(&mut text, 1, b"setfacl", fault).expect(rt, "memory");
    assert!(rt; text.as_slice() == want.as_bytes(), "{want}");
}

#[test]
fn lines(rt: HostRuntime) {
    for (fault, message) in &LINES {
        expect_line(&rt, rt.alloc(), fault, message);
    }
}

/// The message of a run that ends by a fault is this one.
fn expect_run(rt: &impl Abort, alloc: Global, fault: &RunFault, want: &str) {
    let mut text = Vec::new(alloc);
    push_run_fault(&mut text, fault).expect(rt, "memory");
    assert!(rt; text.as_slice() == want.as_bytes(), "{want}");
}

#[test]
fn runs(rt: HostRuntime) {
    for (fault, message) in &RUNS {
        expect_run(&rt, rt.alloc(), fault, message);
    }
}

#[test]
fn the_warning(rt: HostRuntime) {
    let mut text = Vec::new(rt.alloc());
    push_warning(&mut text, 1).expect(&rt, "memory");
    let want = b"line 1: setfacl: warning: default entries dropped\n";
    assert!(rt; text.as_slice() == want.as_slice());
}

#[test]
fn without_memory(rt: HostRuntime) {
    let mut reserved_message = ReservedMessage::new(rt.alloc()).expect(&rt, "memory");
    assert!(rt; reserved_message.as_bytes().is_empty());
    reserved_message.put_no_memory(u64::MAX);
    assert!(rt;
        reserved_message.as_bytes() == b"line 18446744073709551615: facl: no memory\n".as_slice()
    );
    reserved_message.put_no_memory(7);
    assert!(rt; reserved_message.as_bytes() == b"line 7: facl: no memory\n".as_slice());
}
