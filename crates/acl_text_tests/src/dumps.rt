//! Dumps: read and written, faults, and the most entries of a list.
use crate::compared::{expect_bytes, expect_fault, expect_same, push};
use crate::people::People;
use acl_entry::ListFault;
use acl_text::{
    DumpRecord, DumpUse, Effective, FaultKind, Header, Names, NoNames, TextFault, Which,
    append_header, append_list, append_record, read_dump,
};
use std::alloc::Global;
use std::process::Abort;

const SOMEDIR: &[u8] =
    b"# file: somedir\n# owner: lisa\n# group: staff\n# flags: -s-\nuser::rwx\nuser:joe:rwx\ngroup::rwx\ngroup:cool:r-x\nmask::r-x\nother::r-x\ndefault:user::rwx\ndefault:user:joe:rwx\ndefault:group::r-x\ndefault:mask::r-x\ndefault:other::---\n";

const LISTED: &[u8] =
    b"# file: somedir\n# owner: lisa\n# group: staff\n# flags: -s-\nuser::rwx\nuser:joe:rwx\t\t\t#effective:r-x\ngroup::rwx\t\t\t#effective:r-x\ngroup:cool:r-x\nmask::r-x\nother::r-x\ndefault:user::rwx\ndefault:user:joe:rwx\t\t#effective:r-x\ndefault:group::r-x\ndefault:mask::r-x\ndefault:other::---\n\n";

/// Entries below the mask, and entries that are more.
const BELOW: &[u8] =
    b"# file: a\n# owner: joe\n# group: staff\nuser::rwx\nuser:joe:r--\ngroup::---\ngroup:cool:rwx\nmask::rw-\nother::rwx\n";

const BELOW_LISTED: &[u8] =
    b"# file: a\n# owner: joe\n# group: staff\nuser::rwx\nuser:joe:r--\ngroup::---\ngroup:cool:rwx\t\t\t#effective:rw-\nmask::rw-\nother::rwx\n\n";

fn load(rt: &impl Abort, alloc: Global, bytes: &[u8]) -> Vec<DumpRecord> {
    read_dump(alloc, bytes, DumpUse::Load, &People).expect(rt, "a dump")
}

fn append(rt: &impl Abort, text: &mut Vec<u8>, record: &DumpRecord) {
    append_record(text, record, &People).expect(rt, "memory");
}

/// Dumps, and their records as they are written: an entry with the permissions that the mask cuts where it cuts some.
static LISTINGS: [(&[u8], &[u8]); 3] = [(SOMEDIR, LISTED), (LISTED, LISTED), (BELOW, BELOW_LISTED)];

#[test]
fn records_are_written(rt: HostRuntime) {
    for (at, (bytes, want)) in LISTINGS.iter().enumerate() {
        let mut text = Vec::new(rt.alloc());
        for record in &load(&rt, rt.alloc(), bytes) {
            append(&rt, &mut text, record);
        }
        expect_bytes(&rt, at, &text, want);
    }
}

#[test]
fn a_directory(rt: HostRuntime) {
    let records = load(&rt, rt.alloc(), SOMEDIR);
    assert!(rt; records.len() == 1);
    for record in &records {
        assert!(rt; record.at == 1);
        assert!(rt; record.flags == Some([false, true, false]));
    }
}

/// The access lists of the worked dump, written.
fn access_text<N: Names>(
    rt: &impl Abort,
    alloc: Global,
    effective: Effective,
    names: &N,
) -> Vec<u8> {
    let mut text = Vec::new(alloc);
    for record in &load(rt, alloc, SOMEDIR) {
        append_list(
            &mut text,
            record.access.get(),
            Which::Access,
            effective,
            names,
        )
        .expect(rt, "memory");
    }
    text
}

#[test]
fn permissions_without_the_mask(rt: HostRuntime) {
    let text = access_text(&rt, rt.alloc(), Effective::Never, &NoNames);
    let want = b"user::rwx\nuser:1000:rwx\ngroup::rwx\ngroup:60:r-x\nmask::r-x\nother::r-x\n";
    expect_same(&rt, &text, want);
}

#[test]
fn permissions_with_the_mask(rt: HostRuntime) {
    let text = access_text(&rt, rt.alloc(), Effective::Always, &People);
    let want =
        b"user::rwx\nuser:joe:rwx\t\t\t#effective:r-x\ngroup::rwx\t\t\t#effective:r-x\ngroup:cool:r-x\t\t\t#effective:r-x\nmask::r-x\nother::r-x\n";
    expect_same(&rt, &text, want);
}

/// The fault of a dump; none where it is read.
fn fault_of(alloc: Global, bytes: &[u8], dump_use: DumpUse) -> Option<TextFault> {
    read_dump(alloc, bytes, dump_use, &People).err()
}

/// A dump, and its fault with the number of the line.
pub type Row = (&'static [u8], &'static str);

pub fn expect_faults(rt: &impl Abort, alloc: Global, dump_use: DumpUse, rows: &[Row]) {
    for (bytes, want) in rows {
        expect_fault(rt, alloc, fault_of(alloc, bytes, dump_use), want);
    }
}

static LOAD_FAULTS: [Row; 8] = [
    (b"# file: a\n# owner: li\n", "UnknownUser, 2"),
    (
        b"# file: a\n# owner: lisa\n# group: staff\nuser::rwx\ngroup::r-x\nother::r-x\n\n# file: a/\n",
        "RepeatedFile, 8",
    ),
    (b"\n# owner: li\n", "UnknownUser, 2"),
    (b"user::rwx\n# file: a\n", "MissingHeader, 1"),
    (b"# file: a\nuser::rwx\nuser::X\n", "BadPerms, 3"),
    (
        b"# file: a\n# owner: lisa\n# group: staff\nuser::rw-\nuser:joe:r--\ngroup::r--\nother::---\n",
        "List(Access, MissingMask { at: 2 }), 1",
    ),
    (b"#file:\n", "BadHeader, 1"),
    (b"# file: a\n# file:\n", "MissingHeader, 1"),
];

#[test]
fn faults_of_loads(rt: HostRuntime) {
    expect_faults(&rt, rt.alloc(), DumpUse::Load, &LOAD_FAULTS);
}

static RESTORE_FAULTS: [Row; 20] = [
    // The kinds of fault that a load does not show, each once.
    (b"#file:a\nx:y:z:7", "BadTag, 2"),
    (b"#file:a\nu:joe", "MissingPerms, 2"),
    (b"#file:a\nu:li:7", "UnknownUser, 2"),
    (b"#file:a\n#group:li", "UnknownGroup, 2"),
    (b"#file:a\n#flags:tss", "BadHeader, 2"),
    (b"#file:a\n#owner:joe\n#owner:joe", "BadHeader, 3"),
    (b"#file:a\n#group:cool\n#group:cool", "BadHeader, 3"),
    (b"#file:a\n#flags:s--\n#flags:s--", "BadHeader, 3"),
    (b"#file:a\no:7\n#owner:joe", "BadHeader, 3"),
    (b"#file:a\no:7\n#group:staff", "BadHeader, 3"),
    (b"\n#file: a/../b", "BadPath, 2"),
    (
        b"#file:a\nu::7\ng::7\no::7\nd:u::7",
        "List(Default, MissingBase { key: OwningGroup }), 1",
    ),
    (
        b"#file:a\nu::7\ng::7\no::7\nd:o:7\nd:o:7",
        "List(Default, Repeated { at: 2 }), 1",
    ),
    // Base entries alone are no list.
    (
        b"# file: a\nuser::rwx\n",
        "List(Access, MissingBase { key: OwningGroup }), 1",
    ),
    // Of the kinds of fault that one line has, the lowest is reported.
    (b"#file:a\nuser:nosuch:X", "BadPerms, 2"),
    (b"user:nosuch:X", "BadPerms, 1"),
    (b"user:nosuch:r", "UnknownUser, 1"),
    (b"#file:a\n#owner:joe\n#owner:nosuch", "UnknownUser, 3"),
    // An empty value is not a path, although its text would be read as that of the root.
    (b"#file:.\nu::7\ng::7\no::7\n# file: ", "BadHeader, 5"),
    (b"#file:.\nu::7\ng::7\no::7\n# file: /", "RepeatedFile, 5"),
];

#[test]
fn faults_of_restores(rt: HostRuntime) {
    expect_faults(&rt, rt.alloc(), DumpUse::Restore, &RESTORE_FAULTS);
}

/// The pieces of a text that a byte separates.
fn pieces<'a>(rt: &impl Abort, alloc: Global, text: &'a [u8], separator: u8) -> Vec<&'a [u8]> {
    text.split(|b| *b == separator)
        .collect(alloc)
        .expect(rt, "memory")
}

/// A dump of records of four lines each, whose paths are these between blanks.
fn records_of(rt: &impl Abort, alloc: Global, paths: &[u8]) -> Vec<u8> {
    let mut bytes = Vec::new(alloc);
    for path in &pieces(rt, alloc, paths, b' ') {
        push(rt, &mut bytes, b"# file: ");
        push(rt, &mut bytes, path);
        push(rt, &mut bytes, b"\nuser::rwx\ngroup::r-x\nother::---\n");
    }
    bytes
}

/// Records may come in any order of their paths, and keep the order of their lines.
static ANY_ORDER: [&[u8]; 3] = [b"b a c", b"a-b a/c a", b"a a/b b"];

/// The dump is read as three records of four lines each.
fn expect_three(rt: &impl Abort, alloc: Global, bytes: &[u8]) {
    let records = read_dump(alloc, bytes, DumpUse::Restore, &People).expect(rt, "a dump");
    assert!(rt; records.len() == 3);
    let mut at = 1usize;
    for record in &records {
        assert!(rt; record.at == at);
        at = at.saturating_add(4);
    }
}

#[test]
fn paths_in_any_order(rt: HostRuntime) {
    for paths in &ANY_ORDER {
        expect_three(&rt, rt.alloc(), &records_of(&rt, rt.alloc(), paths));
    }
}

/// Of a repeated path and another fault the first is reported.
static REPEATED: [Row; 4] = [
    (b"b a ./b/", "RepeatedFile, 9"),
    (b"a b b a", "RepeatedFile, 9"),
    (b"a a ..", "RepeatedFile, 5"),
    (b"a .. a", "BadPath, 5"),
];

#[test]
fn repeated_paths(rt: HostRuntime) {
    for (paths, want) in &REPEATED {
        let bytes = records_of(&rt, rt.alloc(), paths);
        let found = fault_of(rt.alloc(), &bytes, DumpUse::Restore);
        expect_fault(&rt, rt.alloc(), found, want);
    }
}

fn header_of(record: &DumpRecord) -> Header<'_> {
    Header {
        path: &record.path,
        slash: record.slash,
        owner: record.owner,
        group: record.group,
        flags: record.flags,
    }
}

/// Headers that are written as they were read: of the greatest owner, of a name that ends in a blank, with flags.
static HEADERS: [&[u8]; 4] = [
    b"# file: a/\n# owner: 4294967294\n# group: staff\n",
    b"# file: a \n# owner: joe\n# group: staff\n",
    b"# file: a\n# owner: joe\n# group: staff\n# flags: s--\n",
    b"# file: a\n# owner: joe\n# group: staff\n# flags: --t\n",
];

/// The headers of the records of a dump, written.
fn headers_of(rt: &impl Abort, alloc: Global, bytes: &[u8]) -> Vec<u8> {
    let mut text = Vec::new(alloc);
    for record in &load(rt, alloc, bytes) {
        append_header(&mut text, &header_of(record), &People).expect(rt, "memory");
    }
    text
}

#[test]
fn headers_are_written_as_they_were(rt: HostRuntime) {
    for (at, want) in HEADERS.iter().enumerate() {
        let mut bytes = Vec::from_slice(rt.alloc(), want).expect(&rt, "memory");
        push(&rt, &mut bytes, b"user::rwx\ngroup::r-x\nother::r-x\n");
        expect_bytes(&rt, at, &headers_of(&rt, rt.alloc(), &bytes), want);
    }
}

/// A record of the base entries, a mask and so many named users.
fn with_users(rt: &impl Abort, alloc: Global, users: u32) -> Vec<u8> {
    let mut bytes = Vec::new(alloc);
    push(
        rt,
        &mut bytes,
        b"# file: a\nuser::rwx\ngroup::rwx\nmask::rwx\nother::r-x\n",
    );
    for user in 0..users {
        let line = format!(in alloc; "user:{user}:r\n").expect(rt, "memory");
        push(rt, &mut bytes, line.as_bytes());
    }
    bytes
}

/// How many entries the access list of the first record has, or the fault of the dump.
fn length_of(alloc: Global, bytes: &[u8]) -> Result<Option<usize>, TextFault> {
    match read_dump(alloc, bytes, DumpUse::Restore, &NoNames) {
        Ok(records) => match records.first() {
            Some(record) => Ok(Some(record.access.get().entries().len())),
            None => Ok(None),
        },
        Err(fault) => Err(fault),
    }
}

#[test]
fn the_most_entries(rt: HostRuntime) {
    let most = with_users(&rt, rt.alloc(), 4092);
    assert!(rt; length_of(rt.alloc(), &most) == Ok(Some(4096)));
}

#[test]
fn one_entry_more(rt: HostRuntime) {
    let more = with_users(&rt, rt.alloc(), 4093);
    let fault = TextFault {
        kind: FaultKind::List(Which::Access, ListFault::TooLong),
        at: 1,
    };
    assert!(rt; length_of(rt.alloc(), &more) == Err(fault));
}
