//! The public surface as a user sees it, with its types written out: entry texts, names and paths, rows, dumps, and
//! attribute bytes.
use crate::people::People;
use acl_entry::{Acl, Id, Key, NoMemory};
use acl_text::{
    DumpRecord, DumpUse, FaultKind, GroupRow, Name, Names, NoNames, PasswdRow, Path, PermSpec, Sep,
    Spec, TextFault, Want, Which, decode_attr, encode_attr, read_dump, read_entries, read_group,
    read_name, read_passwd, read_path, write_long, write_name, write_path, write_short,
};
use std::alloc::Global;
use std::process::Abort;

/// The first entry of a text of one entry.
fn entry(rt: &impl Abort, alloc: Global, text: &[u8]) -> Spec {
    let read: Result<Vec<Spec>, TextFault> = read_entries(
        alloc,
        text,
        Sep::Comma,
        Want::WithPerms,
        &NoNames,
    );
    let mut specs: Vec<Spec> = read.expect(rt, "entries");
    specs.pop().expect(rt, "an entry")
}

#[test]
fn an_entry(rt: HostRuntime) {
    let Spec {
        at,
        dflt,
        key,
        perm,
    } = entry(&rt, rt.alloc(), b"d:g:70:rX");
    assert!(rt; at == 1 && dflt && matches!(key, Key::Group(_)));
    let given: Option<PermSpec> = perm;
    assert!(rt; matches!(given, Some(PermSpec { fixed, cond_x: true }) if fixed.number() == 4));
}

#[test]
fn other_entries(rt: HostRuntime) {
    let lines = read_entries(
        rt.alloc(),
        b"u:5\n",
        Sep::Line,
        Want::WithoutPerms,
        &NoNames,
    );
    assert!(rt; lines.is_ok());
    let plain = read_entries(rt.alloc(), b"d:u::r", Sep::Comma, Want::Plain, &NoNames);
    assert!(rt; plain.is_err());
}

#[test]
fn lists(rt: HostRuntime) {
    let acl: Acl = Acl::minimal(rt.alloc(), 0o640).expect(&rt, "memory");
    let long: Result<Vec<u8>, NoMemory> = write_long(rt.alloc(), &acl, &NoNames);
    assert!(rt;
        long.expect(&rt, "memory").as_slice() == b"user::rw-\ngroup::r--\nother::---\n".as_slice()
    );
}

#[test]
fn short_lists(rt: HostRuntime) {
    let acl: Acl = Acl::minimal(rt.alloc(), 0o640).expect(&rt, "memory");
    let short: Result<Vec<u8>, NoMemory> = write_short(rt.alloc(), &acl, &NoNames);
    assert!(rt; short.expect(&rt, "memory").as_slice() == b"u::rw-,g::r--,o::---".as_slice());
}

#[test]
fn attributes(rt: HostRuntime) {
    let acl: Acl = Acl::minimal(rt.alloc(), 0o640).expect(&rt, "memory");
    let bytes: Result<Vec<u8>, NoMemory> = encode_attr(rt.alloc(), &acl);
    let again: Result<Acl, TextFault> = decode_attr(rt.alloc(), &bytes.expect(&rt, "memory"));
    assert!(rt; again.expect(&rt, "a list").mode() == 0o640);
}

#[test]
fn names(rt: HostRuntime) {
    let name: Result<Name, NoMemory> = read_name(rt.alloc(), b"al\\040b");
    let name: Name = name.expect(&rt, "memory");
    assert!(rt; name.as_bytes() == b"al b".as_slice());
    let written: Result<Vec<u8>, NoMemory> = write_name(rt.alloc(), name.as_bytes());
    assert!(rt; written.expect(&rt, "memory").as_slice() == b"al\\040b".as_slice());
}

/// A path of two components.
fn project(rt: &impl Abort, alloc: Global) -> Path {
    let path: Result<Option<Path>, NoMemory> = read_path(alloc, b"srv/project");
    path.expect(rt, "memory").expect(rt, "a path")
}

#[test]
fn paths(rt: HostRuntime) {
    let path: Path = project(&rt, rt.alloc());
    let mut last: &[u8] = b"".as_slice();
    for component in path.components() {
        last = component;
    }
    assert!(rt; last == b"project".as_slice());
}

#[test]
fn written_paths(rt: HostRuntime) {
    let text: Result<Vec<u8>, NoMemory> = write_path(rt.alloc(), &project(&rt, rt.alloc()));
    assert!(rt; text.expect(&rt, "memory").as_slice() == b"srv/project".as_slice());
}

#[test]
fn a_path_of_components(rt: HostRuntime) {
    let root: Option<Path> = Path::new(Vec::new(rt.alloc()));
    assert!(rt; root.is_some());
    let mut components: Vec<Vec<u8>> = Vec::new(rt.alloc());
    let above = Vec::from_slice(rt.alloc(), b"..").expect(&rt, "memory");
    components.push(above).expect(&rt, "memory");
    let refused: Option<Path> = Path::new(components);
    assert!(rt; refused.is_none());
}

/// A naming of the user's own: staff is 50, and 2000 is `al b`.
fn expect_naming<N: Names>(rt: &impl Abort, naming: &N) {
    let user: Option<Id> = naming.user_id(b"joe");
    let group: Option<Id> = naming.group_id(b"staff");
    assert!(rt; user.expect(rt, "joe").number() == 1000 && naming.user_id(b"kim").is_none());
    let named: Option<&[u8]> = naming.group_name(group.expect(rt, "staff"));
    assert!(rt; named == Some(b"staff".as_slice()));
    let spaced: Option<&[u8]> = naming.user_name(Id::new(2000).expect(rt, "an id"));
    assert!(rt; spaced == Some(b"al b".as_slice()));
}

#[test]
fn a_naming(rt: HostRuntime) {
    expect_naming(&rt, &People);
}

#[test]
fn users(rt: HostRuntime) {
    let users: Result<Vec<PasswdRow>, TextFault> = read_passwd(
        rt.alloc(),
        b"lisa:x:1001:50:Lisa:/home/lisa:/bin/sh\n",
    );
    let users: Vec<PasswdRow> = users.expect(&rt, "rows");
    let PasswdRow { name, uid, gid } = &users[0];
    assert!(rt;
        name.as_bytes() == b"lisa".as_slice() && uid.number() == 1001 && gid.number() == 50
    );
}

#[test]
fn groups(rt: HostRuntime) {
    let groups: Result<Vec<GroupRow>, TextFault> = read_group(rt.alloc(), b"cool:x:60:lisa\n");
    let groups: Vec<GroupRow> = groups.expect(&rt, "rows");
    let GroupRow { name, gid, names } = &groups[0];
    assert!(rt;
        name.as_bytes() == b"cool".as_slice() && gid.number() == 60 && names.as_slice().len() == 1
    );
}

/// A record that a restore takes, and a load does not.
const RECORD: &[u8] = b"# file: d/\n# flags: --t\nuser::rwx\ngroup::r-x\nother::---\n";

#[test]
fn a_dump(rt: HostRuntime) {
    let restored: Result<Vec<DumpRecord>, TextFault> = read_dump(
        rt.alloc(),
        RECORD,
        DumpUse::Restore,
        &NoNames,
    );
    let records: Vec<DumpRecord> = restored.expect(&rt, "records");
    let DumpRecord {
        at,
        path: _,
        slash,
        owner,
        group,
        flags,
        access,
        dacl,
    } = &records[0];
    let access: &Acl = access.get();
    assert!(rt; *at == 1 && *slash && owner.is_none() && group.is_none() && dacl.is_none());
    assert!(rt; *flags == Some([false, false, true]) && access.mode() == 0o750);
}

#[test]
fn a_fault_of_a_dump(rt: HostRuntime) {
    let loaded = read_dump(rt.alloc(), RECORD, DumpUse::Load, &NoNames);
    let TextFault { kind, at } = loaded.err().expect(&rt, "a fault");
    assert!(rt; number(kind) == 9 && at == 1);
}

/// The number of a kind among the kinds of fault of a text.
fn number(kind: FaultKind) -> u8 {
    match kind {
        FaultKind::BadTag => 1,
        FaultKind::MissingPerms => 2,
        FaultKind::UnwantedPerms => 3,
        FaultKind::BadPerms => 4,
        FaultKind::UnknownUser => 5,
        FaultKind::UnknownGroup => 6,
        FaultKind::BaseEntry => 7,
        FaultKind::BadHeader => 8,
        FaultKind::MissingHeader => 9,
        FaultKind::BadPath => 10,
        FaultKind::RepeatedFile => 11,
        FaultKind::BadRow => 12,
        FaultKind::BadAttr => 13,
        FaultKind::List(Which::Access | Which::Default, _) => 14,
        FaultKind::TooMany => 15,
        FaultKind::NoMemory => 16,
    }
}
