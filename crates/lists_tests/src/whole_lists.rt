//! Whole lists, and entries that no text gives.
use crate::files_as_texts::{edited, expect, expect_label, expect_lists, file, list, list_of};
use crate::lists_by_number::{ANN, STAFF, USERS, id};
use acl_edit::{
    Edit, EditFault, Node, Specs, apply, chmod, edits_are_refused_for_their_lists, restore_node,
};
use acl_entry::{Acl, Key, ListFault, Perm};
use acl_text::{PermSpec, Spec, Which};
use std::alloc::Global;
use std::process::Abort;

/// A file, an access list and a default list that are put, where they are given, and what becomes of the file.
static PUTS: [(&str, &str, &str, &str); 4] = [
    (
        "u::rw-,g::r--,o::---",
        "",
        "u::rwx,g::r-x,o::---",
        "DefaultOnFile",
    ),
    (
        "u::rw-,g::r--,o::---",
        "u::rwx,g::r-x,o::---",
        "",
        "u::rwx,g::r-x,o::---",
    ),
    (
        "u::rwx,g::r-x,o::r-x/",
        "",
        "u::rwx,g::r-x,o::---",
        "u::rwx,g::r-x,o::r-x/u::rwx,g::r-x,o::---",
    ),
    (
        "u::rwx,g::r-x,o::r-x/u::rwx,g::---,o::---",
        "u::rwx,g::---,o::---",
        "",
        "u::rwx,g::---,o::---/u::rwx,g::---,o::---",
    ),
];

fn put(rt: &impl Abort, alloc: Global, access: &str, default: &str) -> Edit {
    Edit::Put {
        access: list_of(rt, alloc, access),
        dacl: list_of(rt, alloc, default),
    }
}

#[test]
fn lists_are_put(rt: HostRuntime) {
    edits_are_refused_for_their_lists();
    for (file, access, default, want) in &PUTS {
        let edit = put(&rt, rt.alloc(), access, default);
        expect(&rt, rt.alloc(), file, &edit, false, want);
    }
}

/// A file, and its lists once they are minimal.
static FLATTENED: [(&str, &str); 3] = [
    (
        "u::rwx,g::r-x,g:70:rwx,m::rwx,o::r-x/u::rwx,g::---,o::---",
        "u::rwx,g::rwx,o::r-x/",
    ),
    ("u::rw-,g::rwx,m::r--,o::---", "u::rw-,g::r--,o::---"),
    ("u::rw-,g::r--,m::rwx,o::---", "u::rw-,g::rwx,o::---"),
];

#[test]
fn lists_become_minimal(rt: HostRuntime) {
    let edit = Edit::Flatten {
        access: true,
        dacl: true,
    };
    for (file, want) in &FLATTENED {
        expect(&rt, rt.alloc(), file, &edit, false, want);
    }
}

/// The fault of the edit; none where it is made.
fn fault_of(alloc: Global, node: &Node, edit: &Edit) -> Option<EditFault> {
    apply(alloc, node, edit, false).err()
}

/// A record that names an owner, and no group; the text of its default list may be empty.
fn record(rt: &impl Abort, alloc: Global, default: &str) -> Edit {
    Edit::Restore {
        access: list(rt, alloc, "u::rwx,g::r-x,o::---"),
        dacl: list_of(rt, alloc, default),
        owner: Some(id(rt, ANN)),
        group: None,
        flags: Some([true, false, false]),
    }
}

#[test]
fn a_record_is_restored(rt: HostRuntime) {
    let node = file(&rt, rt.alloc(), "u::rw-,g::r--,o::---");
    let restored = edited(&rt, rt.alloc(), &node, &record(&rt, rt.alloc(), ""));
    expect_label(&rt, &restored, ANN, STAFF, [true, false, false]);
    expect_lists(&rt, rt.alloc(), &restored, "u::rwx,g::r-x,o::---");
}

/// A file of ann, restored with these lists and flags.
fn restored(rt: &impl Abort, alloc: Global, node: &Node, access: &Acl) -> Node {
    let (owner, flags) = (Some(id(rt, ANN)), Some([true, false, false]));
    restore_node(alloc, node, access, &None, owner, None, flags, false).expect(rt, "a file")
}

#[test]
fn a_file_is_restored(rt: HostRuntime) {
    let node = file(&rt, rt.alloc(), "u::rw-,g::r--,o::---");
    let access = list(&rt, rt.alloc(), "u::rwx,g::r-x,o::---");
    let restored = restored(&rt, rt.alloc(), &node, &access);
    expect_label(&rt, &restored, ANN, STAFF, [true, false, false]);
    expect_lists(&rt, rt.alloc(), &restored, "u::rwx,g::r-x,o::---");
}

#[test]
fn a_file_gets_no_default_list(rt: HostRuntime) {
    let node = file(&rt, rt.alloc(), "u::rw-,g::r--,o::---");
    let edit = record(&rt, rt.alloc(), "u::rwx,g::---,o::---");
    assert!(rt; fault_of(rt.alloc(), &node, &edit) == Some(EditFault::DefaultOnFile));
}

/// A directory of ann and users, with flags.
fn flagged(rt: &impl Abort, alloc: Global) -> Node {
    let text = "u::rwx,g::r-x,g:70:rwx,m::rwx,o::r-x/u::rwx,g::---,o::---";
    let mut node = file(rt, alloc, text);
    node.label.owner = id(rt, ANN);
    node.label.group = id(rt, USERS);
    chmod(&mut node, 0o3750);
    node
}

/// What restores that directory.
fn restoring(rt: &impl Abort, alloc: Global) -> Edit {
    Edit::restoring(alloc, &flagged(rt, alloc)).expect(rt, "memory")
}

#[test]
fn a_record_of_a_file_gives_it_back(rt: HostRuntime) {
    let top = file(&rt, rt.alloc(), "u::rwx,g::r-x,o::r-x/");
    let back = edited(&rt, rt.alloc(), &top, &restoring(&rt, rt.alloc()));
    expect_label(&rt, &back, ANN, USERS, [false, true, true]);
    let want = "u::rwx,g::r-x,g:70:rwx,m::r-x,o::---/u::rwx,g::---,o::---";
    expect_lists(&rt, rt.alloc(), &back, want);
}

/// A line that removes and modifies these entries, and does nothing else.
fn line(alloc: Global, remove: Vec<Spec>, modify: Vec<Spec>) -> Edit {
    Edit::Change {
        strip: false,
        drop_default: false,
        as_default: false,
        no_mask: false,
        remask: false,
        remove: Specs::new(remove),
        set: Specs::new(Vec::new(alloc)),
        modify: Specs::new(modify),
    }
}

/// The line's only entry takes a key out, a base key too, which no text does.
fn removing(rt: &impl Abort, alloc: Global, dflt: bool, key: Key) -> Edit {
    let mut keys = Vec::new(alloc);
    let spec = Spec {
        at: 1,
        dflt,
        key,
        perm: None,
    };
    keys.push(spec).expect(rt, "memory");
    line(alloc, keys, Vec::new(alloc))
}

/// Without the key the list has no such base entry.
fn expect_missing(rt: &impl Abort, alloc: Global, node: &Node, which: Which, key: &Key) {
    let edit = removing(rt, alloc, which == Which::Default, *key);
    let fault = EditFault::List(which, ListFault::MissingBase { key: *key });
    assert!(rt; fault_of(alloc, node, &edit) == Some(fault));
}

#[test]
fn a_base_entry_is_missing(rt: HostRuntime) {
    let text = "u::rwx,g::r-x,o::r-x/u::rwx,g::---,o::---";
    let node = file(&rt, rt.alloc(), text);
    for key in &[Key::Owner, Key::OwningGroup, Key::Other] {
        expect_missing(&rt, rt.alloc(), &node, Which::Access, key);
        expect_missing(&rt, rt.alloc(), &node, Which::Default, key);
    }
}

/// An entry that gives a named user read.
fn reading(rt: &impl Abort, dflt: bool, user: u32) -> Spec {
    let fixed = Perm::from_number(4).expect(rt, "a permission set");
    Spec {
        at: 1,
        dflt,
        key: Key::User(id(rt, user)),
        perm: Some(PermSpec {
            fixed,
            cond_x: false,
        }),
    }
}

/// A line that gives `count` named users read.
fn giving_users(rt: &impl Abort, alloc: Global, dflt: bool, users: u32) -> Edit {
    let mut entries = Vec::new(alloc);
    for user in 0..users {
        entries.push(reading(rt, dflt, user)).expect(rt, "memory");
    }
    line(alloc, Vec::new(alloc), entries)
}

/// How many entries the default list has, or the access list where there is none; or the fault of the edit.
fn length_after(alloc: Global, node: &Node, edit: &Edit) -> Result<usize, EditFault> {
    match apply(alloc, node, edit, false) {
        Ok(full) => match &full.dacl {
            Some(dacl) => Ok(dacl.entries().len()),
            None => Ok(full.label.acl.entries().len()),
        },
        Err(fault) => Err(fault),
    }
}

/// Three base entries, a mask and the named users: 4096 entries, and one more.
fn expect_most(rt: &impl Abort, alloc: Global, node: &Node, which: Which) {
    let full = giving_users(rt, alloc, which == Which::Default, 4092);
    assert!(rt; length_after(alloc, node, &full) == Ok(4096));
    let more = giving_users(rt, alloc, which == Which::Default, 4093);
    let fault = EditFault::List(which, ListFault::TooLong);
    assert!(rt; length_after(alloc, node, &more) == Err(fault));
}

#[test]
fn a_list_is_too_long(rt: HostRuntime) {
    let node = file(&rt, rt.alloc(), "u::rwx,g::r-x,o::r-x/");
    expect_most(&rt, rt.alloc(), &node, Which::Access);
    expect_most(&rt, rt.alloc(), &node, Which::Default);
}
