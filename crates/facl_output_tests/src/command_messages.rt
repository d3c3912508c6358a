//! The messages of refused commands.
use acl_edit::EditFault;
use acl_entry::{Id, Key, ListFault};
use acl_names::{Name, Path, read_path};
use acl_text::{FaultKind, TextFault, Which};
use acl_tree::TreeFault;
use facl_output::{LineFault, push_message};
use std::alloc::Global;
use std::process::Abort;

/// The message of a refused line is this one.
fn expect(rt: &impl Abort, alloc: Global, tool: &[u8], refused: TreeFault, want: &str) {
    let mut text = Vec::new(alloc);
    push_message(&mut text, 2, tool, &LineFault::from(refused)).expect(rt, "memory");
    assert!(rt; text.as_slice() == want.as_bytes(), "{want}");
}

fn path_of(alloc: Global, text: &[u8]) -> Option<Path> {
    read_path(alloc, text).ok()?
}

fn path(rt: &impl Abort, alloc: Global, text: &[u8]) -> Path {
    path_of(alloc, text).expect(rt, "a path")
}

fn name(rt: &impl Abort, alloc: Global, text: &[u8]) -> Name {
    Name::from_bytes(alloc, text).expect(rt, "memory")
}

fn no_file(rt: &impl Abort, alloc: Global, tool: &[u8], file: &[u8], want: &str) {
    let path = path(rt, alloc, file);
    expect(rt, alloc, tool, TreeFault::NoSuchFile { path }, want);
}

fn edit(rt: &impl Abort, alloc: Global, tool: &[u8], fault: EditFault, want: &str) {
    let path = path(rt, alloc, b"f");
    expect(rt, alloc, tool, TreeFault::Edit { path, fault }, want);
}

#[test]
fn missing_files(rt: HostRuntime) {
    let alloc = rt.alloc();
    let file = "line 2: chmod: a/x\\012y: no such file\n";
    no_file(&rt, alloc, b"chmod", b"/a//x\\012y/", file);
    no_file(&rt, alloc, b"rm", b"/", "line 2: rm: .: no such file\n");
}

#[test]
fn loads(rt: HostRuntime) {
    let alloc = rt.alloc();
    let loaded = "line 2: load: already loaded\n";
    expect(&rt, alloc, b"load", TreeFault::AlreadyLoaded, loaded);
    let too_many = "line 2: load: too many files\n";
    expect(&rt, alloc, b"load", TreeFault::TooMany, too_many);
    let fault = TextFault {
        kind: FaultKind::RepeatedFile,
        at: 8,
    };
    let repeated = "line 2: load: text line 8: file repeated\n";
    expect(&rt, alloc, b"load", TreeFault::Text(fault), repeated);
    let no_memory = "line 2: facl: no memory\n";
    expect(&rt, alloc, b"load", TreeFault::NoMemory, no_memory);
}

#[test]
fn paths(rt: HostRuntime) {
    let alloc = rt.alloc();
    let parent = TreeFault::NotDirectory {
        path: path(&rt, alloc, b"f"),
    };
    let not_directory = "line 2: creat: f: not a directory\n";
    expect(&rt, alloc, b"creat", parent, not_directory);
    let there = TreeFault::Exists {
        path: path(&rt, alloc, b"f"),
    };
    expect(&rt, alloc, b"creat", there, "line 2: creat: f: exists\n");
    let directory = TreeFault::IsDirectory {
        path: path(&rt, alloc, b"pub"),
    };
    let is_directory = "line 2: rm: pub: is a directory\n";
    expect(&rt, alloc, b"rm", directory, is_directory);
}

#[test]
fn edits(rt: HostRuntime) {
    let alloc = rt.alloc();
    let default = "line 2: chacl: f: only directories have default lists\n";
    edit(&rt, alloc, b"chacl", EditFault::DefaultOnFile, default);
    let fault = EditFault::List(Which::Access, ListFault::MissingMask { at: 2 });
    let no_mask = "line 2: setfacl: f: access list: entry 2 needs a mask\n";
    edit(&rt, alloc, b"setfacl", fault, no_mask);
    let fault = EditFault::List(Which::Default, ListFault::MissingBase { key: Key::Owner });
    let no_owner = "line 2: setfacl: f: default list: user:: missing\n";
    edit(&rt, alloc, b"setfacl", fault, no_owner);
}

#[test]
fn names(rt: HostRuntime) {
    let alloc = rt.alloc();
    let user = TreeFault::NoSuchUser {
        name: name(&rt, alloc, b"al b"),
    };
    let no_user = "line 2: can: al\\040b: no such user\n";
    expect(&rt, alloc, b"can", user, no_user);
    let group = TreeFault::NoSuchGroup {
        name: name(&rt, alloc, b"99"),
    };
    let no_group = "line 2: usermod: 99: no such group\n";
    expect(&rt, alloc, b"usermod", group, no_group);
    let there = TreeFault::UserExists {
        name: name(&rt, alloc, b"bob"),
    };
    let exists = "line 2: useradd: bob: user exists\n";
    expect(&rt, alloc, b"useradd", there, exists);
}

#[test]
fn users_and_groups(rt: HostRuntime) {
    let alloc = rt.alloc();
    let not_member = "line 2: gpasswd: not a member\n";
    expect(&rt, alloc, b"gpasswd", TreeFault::NotMember, not_member);
    let id = Id::new(1001).expect(&rt, "an id");
    let in_use = "line 2: useradd: 1001: user id in use\n";
    expect(&rt, alloc, b"useradd", TreeFault::UidExists { id }, in_use);
    let too_many = "line 2: useradd: too many users\n";
    expect(&rt, alloc, b"useradd", TreeFault::TooManyUsers, too_many);
}
