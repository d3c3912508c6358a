//! A small tree and its people, loaded text by text.
use crate::texts::{FIVE_FILES, GROUP, PASSWD};
use acl_people::People;
use acl_tree::{Command, Staged, Table, Tree, TreeFault};
use std::alloc::Global;
use std::process::Abort;

/// Does a command that is accepted.
pub fn accept(
    rt: &impl Abort,
    alloc: Global,
    tree: &mut Tree,
    people: &mut People,
    command: &Command<'_>,
) {
    let prepared: Result<Staged, TreeFault> = tree.prepare(alloc, people, command);
    tree.commit(people, prepared.expect(rt, "a command"));
}

/// Loads the users, the groups and five files.
pub fn load(rt: &impl Abort, alloc: Global) -> (Tree, People) {
    let mut tree: Tree = Tree::new(alloc).expect(rt, "memory");
    let mut people: People = People::new(alloc).expect(rt, "memory");
    let texts = [
        (Table::Passwd, PASSWD),
        (Table::Group, GROUP),
        (Table::Dump, FIVE_FILES),
    ];
    for (which, bytes) in texts {
        let load = Command::Load { which, bytes };
        accept(rt, alloc, &mut tree, &mut people, &load);
        drop(load);
    }
    (tree, people)
}
