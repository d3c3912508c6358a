//! The messages of faulty texts: each kind of fault and each source.
use acl_entry::{Key, ListFault};
use acl_text::{FaultKind, TextFault, Which};
use facl_output::{LineFault, Source, push_message};
use std::alloc::Global;
use std::process::Abort;

const NO_MASK: FaultKind = FaultKind::List(Which::Access, ListFault::MissingMask { at: 2 });

const REPEATED: FaultKind = FaultKind::List(Which::Default, ListFault::Repeated { at: 4 });

const NO_OWNER: FaultKind = FaultKind::List(
    Which::Access,
    ListFault::MissingBase { key: Key::Owner },
);

const NO_GROUP: FaultKind = FaultKind::List(
    Which::Default,
    ListFault::MissingBase {
        key: Key::OwningGroup,
    },
);

const NO_OTHER: FaultKind = FaultKind::List(
    Which::Access,
    ListFault::MissingBase { key: Key::Other },
);

const TOO_LONG: FaultKind = FaultKind::List(Which::Default, ListFault::TooLong);

const MESSAGES: [(Source, FaultKind, usize, &str); 22] = [
    (Source::Entry, FaultKind::BadTag, 1, "entry 1: bad tag"),
    (
        Source::DefaultEntry,
        FaultKind::MissingPerms,
        12,
        "default entry 12: permissions missing",
    ),
    (
        Source::Entry,
        FaultKind::UnwantedPerms,
        1,
        "entry 1: permissions not wanted",
    ),
    (
        Source::Entry,
        FaultKind::BadPerms,
        2,
        "entry 2: bad permissions",
    ),
    (
        Source::TextLine,
        FaultKind::UnknownUser,
        2,
        "text line 2: unknown user",
    ),
    (
        Source::TextLine,
        FaultKind::UnknownGroup,
        3,
        "text line 3: unknown group",
    ),
    (
        Source::Entry,
        FaultKind::BaseEntry,
        1,
        "entry 1: base entry cannot be removed",
    ),
    (
        Source::TextLine,
        FaultKind::BadHeader,
        10,
        "text line 10: bad header",
    ),
    (
        Source::TextLine,
        FaultKind::MissingHeader,
        1,
        "text line 1: header missing",
    ),
    (
        Source::Operand,
        FaultKind::BadPath,
        2,
        "operand 2: bad path",
    ),
    (
        Source::TextLine,
        FaultKind::RepeatedFile,
        8,
        "text line 8: file repeated",
    ),
    (
        Source::TextLine,
        FaultKind::BadRow,
        5,
        "text line 5: bad row",
    ),
    (
        Source::AttributeEntry,
        FaultKind::BadAttr,
        0,
        "attribute entry 0: bad attribute",
    ),
    (
        Source::AttributeEntry,
        FaultKind::BadAttr,
        5,
        "attribute entry 5: bad attribute",
    ),
    (
        Source::Entry,
        FaultKind::TooMany,
        16385,
        "entry 16385: too many",
    ),
    (
        Source::Entry,
        NO_MASK,
        0,
        "access list: entry 2 needs a mask",
    ),
    (
        Source::DefaultEntry,
        REPEATED,
        0,
        "default list: entry 4 is repeated",
    ),
    (Source::Entry, NO_OWNER, 0, "access list: user:: missing"),
    (
        Source::DefaultEntry,
        NO_GROUP,
        0,
        "default list: group:: missing",
    ),
    (Source::Entry, NO_OTHER, 0, "access list: other:: missing"),
    (
        Source::DefaultEntry,
        TOO_LONG,
        0,
        "default list: too many entries",
    ),
    (
        Source::TextLine,
        NO_MASK,
        1,
        "text line 1: access list: entry 2 needs a mask",
    ),
];

/// The message of a line with this fault is this one.
fn expect(rt: &impl Abort, alloc: Global, fault: &LineFault, want: &str) {
    let mut text = Vec::new(alloc);
    push_message(&mut text, 30, b"setfacl", fault).expect(rt, "memory");
    let line = format!(in alloc; "line 30: setfacl: {want}\n").expect(rt, "memory");
    assert!(rt; text.as_slice() == line.as_bytes(), "{want}");
}

#[test]
fn texts(rt: HostRuntime) {
    for (source, kind, at, message) in &MESSAGES {
        let fault = TextFault {
            kind: *kind,
            at: *at,
        };
        let fault = LineFault::of_text(*source, fault);
        expect(&rt, rt.alloc(), &fault, message);
    }
}
