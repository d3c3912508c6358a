//! The public surface of acl_edit as a user sees it, with its types written out: one file, its edits, modes and new files.
use acl_edit::{Edit, EditFault, Kind, Node, Specs, apply, chmod, create};
use acl_entry::{Acl, Id, Label};
use acl_text::{NoNames, Sep, Spec, Want, Which, read_entries};
use std::alloc::Global;
use std::process::Abort;

/// A file of lisa and staff.
fn file(rt: &impl Abort, alloc: Global, kind: Kind, mode: u16) -> Node {
    Node {
        kind,
        label: Label {
            owner: Id::new(1001).expect(rt, "an id"),
            group: Id::new(50).expect(rt, "an id"),
            acl: Acl::minimal(alloc, mode).expect(rt, "memory"),
        },
        flags: [false; 3],
        dacl: None,
    }
}

/// The entries of a text.
fn specs(rt: &impl Abort, alloc: Global, text: &[u8]) -> Specs {
    let list: Vec<Spec> = read_entries(alloc, text, Sep::Comma, Want::WithPerms, &NoNames).expect(
        rt, "entries",
    );
    Specs { list }
}

/// `-m` with the entries of a text.
fn modifying(rt: &impl Abort, alloc: Global, text: &[u8]) -> Edit {
    Edit::Change {
        strip: false,
        drop_default: false,
        as_default: false,
        no_mask: false,
        remask: false,
        remove: specs(rt, alloc, b""),
        set: specs(rt, alloc, b""),
        modify: specs(rt, alloc, text),
    }
}

/// A file after an edit that is accepted.
fn edited(rt: &impl Abort, alloc: Global, node: Node, edit: Edit) -> Node {
    let edited: Result<Node, EditFault> = apply(alloc, &node, &edit, false);
    drop(node);
    drop(edit);
    edited.expect(rt, "an edit")
}

#[test]
fn a_line(rt: HostRuntime) {
    let node: Node = file(&rt, rt.alloc(), Kind::Plain, 0o640);
    let edit: Edit = modifying(&rt, rt.alloc(), b"u:1000:rwx");
    let node: Node = edited(&rt, rt.alloc(), node, edit);
    assert!(rt; node.label.acl.mode() == 0o670);
    drop(node);
}

/// The number of the fault of an edit; 0 where it is accepted.
fn refused(alloc: Global, node: &Node, edit: &Edit, skip: bool) -> u8 {
    let fault: Option<EditFault> = apply(alloc, node, edit, skip).err();
    match fault {
        Some(fault) => number(fault),
        None => 0,
    }
}

#[test]
fn the_faults_of_edits(rt: HostRuntime) {
    let node: Node = file(&rt, rt.alloc(), Kind::Plain, 0o640);
    let edit: Edit = modifying(&rt, rt.alloc(), b"d:u:1000:rwx");
    assert!(rt; refused(rt.alloc(), &node, &edit, false) == 1);
    assert!(rt; refused(rt.alloc(), &node, &edit, true) == 0);
    drop(node);
    drop(edit);
}

/// The number of a fault among the faults of an edit.
fn number(fault: EditFault) -> u8 {
    match fault {
        EditFault::DefaultOnFile => 1,
        EditFault::List(Which::Access | Which::Default, _) => 2,
        EditFault::NoMemory => 3,
    }
}

/// A file's mode, its owner, its group, and whether its set-group-ID flag is set.
fn look(node: &Node) -> (u16, u32, u32, bool) {
    let label: &Label = &node.label;
    (
        label.acl.mode(),
        label.owner.number(),
        label.group.number(),
        node.flags[1],
    )
}

/// `--set` with two lists.
fn put(rt: &impl Abort, alloc: Global) -> Edit {
    Edit::Put {
        access: Some(Acl::minimal(alloc, 0o700).expect(rt, "memory")),
        dacl: Some(Acl::minimal(alloc, 0o500).expect(rt, "memory")),
    }
}

/// A directory with both lists.
fn with_lists(rt: &impl Abort, alloc: Global) -> Node {
    let node: Node = file(rt, alloc, Kind::Directory, 0o750);
    edited(rt, alloc, node, put(rt, alloc))
}

#[test]
fn whole_lists(rt: HostRuntime) {
    let node: Node = with_lists(&rt, rt.alloc());
    assert!(rt; look(&node) == (0o700, 1001, 50, false));
    assert!(rt; node.dacl.is_some());
    drop(node);
}

#[test]
fn a_flat_file(rt: HostRuntime) {
    let flatten = Edit::Flatten {
        access: true,
        dacl: true,
    };
    let node: Node = edited(&rt, rt.alloc(), with_lists(&rt, rt.alloc()), flatten);
    assert!(rt; node.dacl.is_none());
    drop(node);
}

/// A restore of a list, an owner and flags.
fn restore(rt: &impl Abort, alloc: Global) -> Edit {
    Edit::Restore {
        access: Acl::minimal(alloc, 0o755).expect(rt, "memory"),
        dacl: None,
        owner: Id::new(1000),
        group: None,
        flags: Some([false, true, false]),
    }
}

#[test]
fn a_restore(rt: HostRuntime) {
    let node: Node = file(&rt, rt.alloc(), Kind::Directory, 0o750);
    let restored: Node = edited(&rt, rt.alloc(), node, restore(&rt, rt.alloc()));
    assert!(rt; look(&restored) == (0o755, 1000, 50, true));
    drop(restored);
}

/// A directory whose mode was set.
fn parent_directory(rt: &impl Abort, alloc: Global) -> Node {
    let mut parent: Node = file(rt, alloc, Kind::Directory, 0o755);
    chmod(&mut parent, 0o2750);
    parent
}

#[test]
fn modes(rt: HostRuntime) {
    let parent: Node = parent_directory(&rt, rt.alloc());
    assert!(rt; look(&parent) == (0o750, 1001, 50, true));
    drop(parent);
}

#[test]
fn new_files(rt: HostRuntime) {
    let joe: Id = Id::new(1000).expect(&rt, "an id");
    let parent: Node = parent_directory(&rt, rt.alloc());
    let created: Result<Node, EditFault> = create(
        rt.alloc(),
        &parent,
        Kind::Directory,
        0o777,
        0o22,
        joe,
        joe,
    );
    drop(parent);
    let new: Node = created.expect(&rt, "memory");
    assert!(rt; look(&new) == (0o755, 1000, 50, true));
    drop(new);
}
