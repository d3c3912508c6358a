//! A small tree and its people, loaded text by text.
use crate::lines;
use crate::texts::{FILES, GROUP, PASSWD};
use acl_names::Path;
use acl_people::People;
use acl_tree::{Command, Staged, Table, Tree, TreeFault};
use std::alloc::Global;
use std::process::Abort;

/// The path of a text.
pub fn path(rt: &impl Abort, alloc: Global, text: &[u8]) -> Path {
    lines::path(alloc, text).expect(rt, "a path")
}

/// Does a command that is accepted.
fn accept(
    rt: &impl Abort,
    alloc: Global,
    tree: &mut Tree,
    people: &mut People,
    command: &Command<'_>,
) {
    let prepared: Result<Staged, TreeFault> = tree.prepare(alloc, people, command);
    tree.commit(people, prepared.expect(rt, "a command"));
}

/// Loads the users, the groups and the files.
pub fn load(rt: &impl Abort, alloc: Global) -> (Tree, People) {
    let mut tree: Tree = Tree::new(alloc).expect(rt, "memory");
    let mut people: People = People::new(alloc).expect(rt, "memory");
    let texts = [
        (Table::Passwd, PASSWD),
        (Table::Group, GROUP),
        (Table::Dump, FILES),
    ];
    for (which, bytes) in texts {
        let load = Command::Load { which, bytes };
        accept(rt, alloc, &mut tree, &mut people, &load);
        drop(load);
    }
    (tree, people)
}
