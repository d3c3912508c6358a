//! A state, and files that are found in it.
use acl_edit::Node;
use acl_names::{Path, read_path};
use acl_tree::{Command, FoundFile, State, Table, Tree};
use std::alloc::Global;
use std::process::Abort;

const PASSWD: &[u8] = b"lisa:x:1001:50:Lisa:/home/lisa:/bin/sh\n\
joe:x:1000:100:Joe:/home/joe:/bin/sh\nann:x:1002:100:Ann:/home/ann:/bin/sh\n";

const GROUP: &[u8] = b"staff:x:50:\nusers:x:100:\ncool:x:60:lisa\nadm:x:70:\n";

const DUMP: &[u8] =
    b"# file: .\n# owner: lisa\n# group: staff\nuser::rwx\ngroup::r-x\nother::r-x\n\n\
# file: f\n# owner: lisa\n# group: staff\nuser::rw-\ngroup::r--\nother::---\n\n\
# file: pub/\n# owner: ann\n# group: users\nuser::rwx\ngroup::r-x\ngroup:adm:rwx\nmask::rwx\nother::r-x\n\n\
# file: somedir\n# owner: lisa\n# group: staff\n# flags: -s-\nuser::rwx\nuser:joe:rwx\ngroup::rwx\n\
group:cool:r-x\nmask::r-x\nother::r-x\ndefault:user::rwx\ndefault:user:joe:rwx\ndefault:group::r-x\n\
default:mask::r-x\ndefault:other::---\n";

fn load(rt: &impl Abort, alloc: Global, state: &mut State, which: Table, bytes: &[u8]) {
    let command = Command::Load { which, bytes };
    let prepared = state.prepare(alloc, &command);
    drop(command);
    state.commit(prepared.expect(rt, "a text"));
}

/// The state of the texts above.
pub fn setup(rt: &impl Abort, alloc: Global) -> State {
    let mut state = State::new(alloc).expect(rt, "memory");
    load(rt, alloc, &mut state, Table::Passwd, PASSWD);
    load(rt, alloc, &mut state, Table::Group, GROUP);
    load(rt, alloc, &mut state, Table::Dump, DUMP);
    state
}

/// The path of a text; none where it is not one, or memory runs out.
fn path(alloc: Global, text: &[u8]) -> Option<Path> {
    read_path(alloc, text).ok()?
}

/// A file of the tree, and whether another one is to be below it.
fn found<'a>(
    rt: &impl Abort,
    alloc: Global,
    tree: &'a Tree,
    name: &[u8],
    has_below: bool,
) -> FoundFile<'a> {
    let path = path(alloc, name).expect(rt, "a path");
    let mut found: Option<(&'a Path, &'a Node)> = None;
    for file in tree.iter() {
        if file.0.order(&path).is_eq() {
            found = Some(file);
        }
    }
    let file = found.expect(rt, "a file");
    FoundFile::new(file.0, file.1, has_below)
}

/// Files of the tree, in this order.
pub fn all_found<'a>(
    rt: &impl Abort,
    alloc: Global,
    tree: &'a Tree,
    names: &[&[u8]],
    have_below: bool,
) -> Vec<FoundFile<'a>> {
    let mut files = Vec::new(alloc);
    for name in names {
        files
            .push(found(rt, alloc, tree, name, have_below))
            .expect(rt, "memory");
    }
    files
}
