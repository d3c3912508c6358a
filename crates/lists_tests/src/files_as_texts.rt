//! Files, lists and edits from texts, and what becomes of a file as a text. Users and groups go by number.
use crate::lists_by_number::{LISA, STAFF, id};
use acl_edit::{Edit, EditFault, Kind, Node, apply};
use acl_entry::{Acl, Entry, Label, Perm};
use acl_text::{NoNames, Sep, Spec, Want, append_short, read_entries};
use std::alloc::Global;
use std::process::Abort;

/// The entries of a text, with commas between them.
pub fn specs(rt: &impl Abort, alloc: Global, text: &str, want: Want) -> Vec<Spec> {
    read_entries(alloc, text.as_bytes(), Sep::Comma, want, &NoNames).expect(rt, "entries")
}

fn entry_of(spec: &Spec) -> Entry {
    let perm = match spec.perm {
        Some(perm) => perm.fixed,
        None => Perm::none(),
    };
    Entry {
        key: spec.key,
        perm,
    }
}

/// The list of a text.
pub fn list(rt: &impl Abort, alloc: Global, text: &str) -> Acl {
    let mut entries = Vec::new(alloc);
    for spec in &specs(rt, alloc, text, Want::Plain) {
        entries.push(entry_of(spec)).expect(rt, "memory");
    }
    Acl::from_entries(alloc, &entries).expect(rt, "a list")
}

/// The list of a text; `None` for an empty one.
pub fn list_of(rt: &impl Abort, alloc: Global, text: &str) -> Option<Acl> {
    if text.is_empty() {
        None
    } else {
        Some(list(rt, alloc, text))
    }
}

/// The kind of a file, its access list and its default list, from a text.
fn parts(text: &str) -> (Kind, &str, &str) {
    match text.split_once('/') {
        Some((access, default)) => (Kind::Directory, access, default),
        None => (Kind::Plain, text, ""),
    }
}

fn label(rt: &impl Abort, alloc: Global, access: &str) -> Label {
    Label {
        owner: id(rt, LISA),
        group: id(rt, STAFF),
        acl: list(rt, alloc, access),
    }
}

/// A file of lisa and staff. After the access list of a directory is a slash, and its default list.
pub fn file(rt: &impl Abort, alloc: Global, text: &str) -> Node {
    let (kind, access, default) = parts(text);
    Node {
        kind,
        label: label(rt, alloc, access),
        flags: [false; 3],
        dacl: list_of(rt, alloc, default),
    }
}

fn push_list(rt: &impl Abort, text: &mut Vec<u8>, acl: &Acl) {
    append_short(text, acl, &NoNames).expect(rt, "memory");
}

/// The lists of a file, as `file` reads them.
fn lists(rt: &impl Abort, alloc: Global, node: &Node) -> Vec<u8> {
    let mut text = Vec::new(alloc);
    push_list(rt, &mut text, &node.label.acl);
    if node.kind == Kind::Directory {
        text.push(b'/').expect(rt, "memory");
    }
    if let Some(dacl) = &node.dacl {
        push_list(rt, &mut text, dacl);
    }
    text
}

/// The edit, not of a whole subtree, made of the file.
pub fn edited(rt: &impl Abort, alloc: Global, node: &Node, edit: &Edit) -> Node {
    apply(alloc, node, edit, false).expect(rt, "an edit")
}

/// The lists of the file are these.
pub fn expect_lists(rt: &impl Abort, alloc: Global, node: &Node, want: &str) {
    assert!(rt;
        lists(rt, alloc, node).as_slice() == want.as_bytes(),
        "not {want}"
    );
}

/// The fault reads like this.
fn expect_fault(rt: &impl Abort, alloc: Global, fault: EditFault, want: &str) {
    let found = format!(in alloc; "{fault:?}").expect(rt, "memory");
    assert!(rt; found.as_str() == want, "not {want}");
}

/// The edit of the file leaves these lists, or is refused with this fault.
pub fn expect(
    rt: &impl Abort,
    alloc: Global,
    text: &str,
    edit: &Edit,
    in_recursion: bool,
    want: &str,
) {
    let node = file(rt, alloc, text);
    match apply(alloc, &node, edit, in_recursion) {
        Ok(node) => expect_lists(rt, alloc, &node, want),
        Err(fault) => expect_fault(rt, alloc, fault, want),
    }
}

/// The owner, the group and the flags of the file are these.
pub fn expect_label(rt: &impl Abort, node: &Node, owner: u32, group: u32, flags: [bool; 3]) {
    let found = (node.label.owner.number(), node.label.group.number());
    assert!(rt; found == (owner, group) && node.flags == flags);
}
