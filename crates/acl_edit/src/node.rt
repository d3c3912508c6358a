//! One file, and chmod(1).
ghost use Rattle.std.specs.Prelude.{◌≡◌, ◌<◌, IfOk, IsOk, IsTrue, ◌↔◌};
ghost use Rattle.acl_edit.specs.Nodes as nodes;
ghost use Rattle.acl_edit.specs.Rooms.{HasShortLists};
ghost use Rattle.acl_edit.specs.Nodes.{IsSound, HasValidLists, has_bit, chmod_flags};

use acl_entry::{Acl, Label};
use std::alloc::{AllocError, Global};

/// Whether a file is a directory. Only directories have default lists: acl(5), "ACL TYPES".
#[derive(Clone, Copy, PartialEq, Eq)]
pub enum Kind {
    /// A regular file.
    Plain,
    /// A directory.
    Directory,
}

/// One file, as its lists and its mode see it.
#[derive(Drop)]
pub struct Node {
    pub kind: Kind,
    /// The owner, the file's group and the access list.
    pub label: Label,
    /// Set user ID, set group ID and the sticky bit, in this order: chmod(1).
    pub flags: [bool; 3],
    /// The default list. A sound node that is not a directory has no default list.
    pub dacl: Option<Acl>,
}

impl Node {
    /// Copies the node.
    ///
    /// # Errors
    ///
    /// If memory runs out, never if its lists have at most eight entries each.
    pub fn try_clone(&self, alloc: Global) -> Result<Node, AllocError>
        ensures same { IfOk result (λ node. node ≡ self.now) }
        ensures room { HasShortLists self.now → IsOk result }
    {
        let acl = self.label.acl.try_clone(alloc)?;
        let dacl = match &self.dacl {
            Some(dacl) => Some(dacl.try_clone(alloc)?),
            None => None,
        };
        Ok(self.with_lists(acl, dacl))
    }

    /// Returns the file with other lists.
    pub(crate) fn with_lists(&self, acl: Acl, dacl: Option<Acl>) -> Node
        ensures { result ≡ nodes.with_lists self.now acl dacl }
    {
        Node {
            kind: self.kind,
            label: Label {
                owner: self.label.owner,
                group: self.label.group,
                acl,
            },
            flags: self.flags,
            dacl,
        }
    }

    /// Proof only: each list of a file is a valid one, as [`Acl`] has no others. A caller that has to know it reads
    /// them here.
    pub fn lists_are_valid(&self)
        ensures { HasValidLists self.now }
    {
        // A list's validity is known once its entries are read.
        let _access = self.label.acl.entries();
        if let Some(dacl) = &self.dacl {
            let _default = dacl.entries();
        }
    }

    /// Tells whether owner, group and access list are the same, so that the check answers alike for both.
    pub fn same_label(&self, other: &Node) -> bool
        ensures { IsTrue result ↔ (self.now.label ≡ other.now.label) }
    {
        self.label.owner == other.label.owner
            && self.label.group == other.label.group
            && self.label.acl.same(&other.label.acl)
    }
}

/// Puts the low twelve bits of a mode into a file: the lowest nine into the entries of the access list that
/// correspond (acl(5), "CORRESPONDENCE BETWEEN ACL ENTRIES AND FILE PERMISSION BITS"), the next three into the flags.
/// On a directory set user ID and set group ID are set and never cleared; the sticky bit is set and cleared on every
/// file: chmod(1).
pub fn chmod(node: &mut Node, mode: u16)
    ensures set { node.new ≡ nodes.chmod node.old mode }
    ensures sound { IsSound node.old → IsSound node.new }
    ensures valid { HasValidLists node.new }
{
    node.label.acl.chmod(mode);
    node.flags = flags_after(node.kind, node.flags, mode);
    node.lists_are_valid();
}

/// Returns the flags that a mode leaves.
fn flags_after(kind: Kind, flags: [bool; 3], mode: u16) -> [bool; 3]
    ensures { result ≡ chmod_flags kind flags mode }
{
    let [setuid, setgid, _sticky] = flags;
    let keeps = kind == Kind::Directory;
    [
        has_flag(mode, 11) || keeps && setuid,
        has_flag(mode, 10) || keeps && setgid,
        has_flag(mode, 9),
    ]
}

/// Tells whether a bit of a mode is set.
fn has_flag(mode: u16, bit: u32) -> bool
    requires { bit < 16 }
    ensures { result ≡ has_bit mode bit }
{
    mode >> bit & 1 == 1
}
