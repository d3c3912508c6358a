//! Hashes of labels and nodes, and whether two nodes are the same.

ghost use Rattle.std.specs.Prelude.{◌≡◌, IsTrue, IfOk, true};

use acl_edit::{Kind, Node};
use acl_entry::{Acl, Entry, Key, Label};
use kinds::Likeness;

/// An odd multiplier that spreads the bits of a hash.
const SPREAD: u64 = 0x9E37_79B9_7F4A_7C15;

/// Works a number into a hash.
fn mixed(hash: u64, number: u64) -> u64 {
    (hash ^ number).wrapping_mul(SPREAD).rotate_left(29)
}

/// Encodes an entry as a number: its tag, its permissions and the id that it names.
fn number_of(entry: &Entry) -> u64 {
    let (tag, id) = match entry.key {
        Key::Owner => (0, 0),
        Key::User(id) => (1, id.number()),
        Key::OwningGroup => (2, 0),
        Key::Group(id) => (3, id.number()),
        Key::Mask => (4, 0),
        Key::Other => (5, 0),
    };
    let head: u64 = tag << 3 | u64::from(entry.perm.number());
    head << 32 | u64::from(id)
}

/// Works a list into a hash.
fn hash_with(hash: u64, acl: &Acl) -> u64 {
    let mut hash = hash;
    for entry in acl.entries() {
        hash = mixed(hash, number_of(entry));
    }
    hash
}

/// Hashes a label. Equal labels have equal hashes, and others seldom do.
pub fn label_hash(label: &Label) -> u64 {
    let ids = u64::from(label.owner.number()) << 32 | u64::from(label.group.number());
    hash_with(mixed(0, ids), &label.acl)
}

/// Encodes the flags and the kind of a node as a number.
fn head_of(node: &Node) -> u64 {
    let [setuid, setgid, sticky] = node.flags;
    let kind = match node.kind {
        Kind::Plain => 0,
        Kind::Directory => 8,
    };
    kind | u64::from(setuid) << 2 | u64::from(setgid) << 1 | u64::from(sticky)
}

/// Hashes a node. Equal nodes have equal hashes, and others seldom do.
pub fn node_hash(node: &Node) -> u64 {
    let hash = mixed(label_hash(&node.label), head_of(node));
    match &node.dacl {
        Some(dacl) => hash_with(mixed(hash, 1), dacl),
        None => hash,
    }
}

/// Tells whether both are one default list, or none.
fn is_same_default(one: &Option<Acl>, other: &Option<Acl>) -> bool
    ensures { IsTrue result → one.now ≡ other.now }
{
    match (one, other) {
        (None, None) => true,
        (Some(one), Some(other)) => one.same(other),
        _ => false,
    }
}

fn is_same_kind(one: Kind, other: Kind) -> bool
    ensures { IsTrue result → one ≡ other }
{
    one == other
}

fn has_same_flags(one: &Node, other: &Node) -> bool
    ensures { IsTrue result → one.now.flags ≡ other.now.flags }
{
    one.flags == other.flags
}

/// Tells whether two nodes are the same.
pub fn is_same_node(one: &Node, other: &Node) -> bool
    ensures { result ≡ true → one.now ≡ other.now }
{
    if !is_same_kind(one.kind, other.kind) || !has_same_flags(one, other) {
        return false;
    }
    one.same_label(other) && is_same_default(&one.dacl, &other.dacl)
}

/// Compares nodes: hashes first, then the nodes.
pub(crate) struct AlikeNodes;

impl Likeness<Node> for AlikeNodes {
    fn mark(&self, node: &Node) -> u64 {
        node_hash(node)
    }

    fn is_same(&self, one: &Node, other: &Node) -> bool {
        is_same_node(one, other)
    }
}
