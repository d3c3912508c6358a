//! New files.
use crate::files_as_texts::{expect_label, expect_lists, file};
use crate::lists_by_number::{JOE, STAFF, USERS, id};
use acl_edit::{Kind, Node, chmod, create};
use std::alloc::Global;
use std::process::Abort;

/// A directory with the flags that a mode gives it, and a new file in it, made by joe of users.
struct Made {
    parent: &'static str,
    parent_mode: u16,
    kind: Kind,
    mode: u16,
    umask: u16,
    lists: &'static str,
    group: u32,
    flags: [bool; 3],
}

static MADE: [Made; 4] = [
    // Under a default list the umask has no effect.
    Made {
        parent: "u::rwx,g::r-x,o::r-x/u::rwx,u:1000:rwx,g::r-x,m::rwx,o::r-x",
        parent_mode: 0o755,
        kind: Kind::Plain,
        mode: 0o640,
        umask: 0o077,
        lists: "u::rw-,u:1000:rwx,g::r-x,m::r--,o::---",
        group: USERS,
        flags: [false; 3],
    },
    Made {
        parent: "u::rwx,g::r-x,o::r-x/u::rwx,u:1000:rwx,g::r-x,m::rwx,o::r-x",
        parent_mode: 0o755,
        kind: Kind::Directory,
        mode: 0o750,
        umask: 0o022,
        lists: "u::rwx,u:1000:rwx,g::r-x,m::r-x,o::---/u::rwx,u:1000:rwx,g::r-x,m::rwx,o::r-x",
        group: USERS,
        flags: [false; 3],
    },
    // Of a directory with set group ID they take the group, and directories the flag.
    Made {
        parent: "u::rwx,g::r-x,o::r-x/",
        parent_mode: 0o2755,
        kind: Kind::Directory,
        mode: 0o750,
        umask: 0o022,
        lists: "u::rwx,g::r-x,o::---/",
        group: STAFF,
        flags: [false, true, false],
    },
    Made {
        parent: "u::rwx,g::r-x,o::r-x/",
        parent_mode: 0o2755,
        kind: Kind::Plain,
        mode: 0o666,
        umask: 0o027,
        lists: "u::rw-,g::r--,o::---",
        group: STAFF,
        flags: [false; 3],
    },
];

fn parent(rt: &impl Abort, alloc: Global, made: &Made) -> Node {
    let mut parent = file(rt, alloc, made.parent);
    chmod(&mut parent, made.parent_mode);
    parent
}

fn created(rt: &impl Abort, alloc: Global, made: &Made) -> Node {
    let (joe, users) = (id(rt, JOE), id(rt, USERS));
    let parent = parent(rt, alloc, made);
    create(alloc, &parent, made.kind, made.mode, made.umask, joe, users).expect(rt, "a file")
}

#[test]
fn new_files(rt: HostRuntime) {
    for made in &MADE {
        let node = created(&rt, rt.alloc(), made);
        expect_lists(&rt, rt.alloc(), &node, made.lists);
        expect_label(&rt, &node, JOE, made.group, made.flags);
    }
}
