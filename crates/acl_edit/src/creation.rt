//! New files: acl(5), "OBJECT CREATION AND DEFAULT ACLs".
ghost use Rattle.std.specs.Prelude.{◌≡◌, IfOk, IfErr, IsOk};
ghost use Rattle.acl_edit.specs.Nodes.{IsSound, HasValidLists};
ghost use Rattle.acl_edit.specs.Rooms.{Fits, MakesIn, size_of};
ghost use Rattle.acl_edit.specs.Creation.{inherit, inherited_access, inherited_default};

use crate::change::clone_of;
use crate::{EditFault, Kind, Node};
use acl_entry::{Acl, Id, Label};
use std::alloc::{AllocError, Global};

/// Returns the node of a new file in a directory.
///
/// Under a default list of the directory the access list is that list, its entries that correspond to the mode
/// without what the mode lacks, the umask has no effect, and a directory gets the default list too. Else the access
/// list is minimal, of the mode without the umask's bits. Mode and umask count by their low nine bits. A directory
/// with set group ID hands its group on, and to a directory the flag too.
///
/// # Errors
///
/// If memory runs out, never if the directory's default list has at most eight entries.
pub fn create(
    alloc: Global,
    parent: &Node,
    kind: Kind,
    mode: u16,
    umask: u16,
    owner: Id,
    group: Id,
) -> Result<Node, EditFault>
    ensures made { IfOk result (λ node. node ≡ inherit parent.now kind mode umask owner group) }
    ensures valid { IfOk result HasValidLists }
    ensures sound { IfOk result IsSound }
    ensures reported { IfErr result (λ fault. fault ≡ EditFault.NoMemory) }
    ensures room { Fits (size_of parent.now.dacl) → IsOk result }
{
    let [_setuid, setgid, _sticky] = parent.flags;
    let dacl = inherited_default(alloc, &parent.dacl, kind)?;
    let acl = inherited_access(alloc, &parent.dacl, mode, umask)?;
    let node = Node {
        kind,
        label: Label {
            owner,
            group: if setgid { parent.label.group } else { group },
            acl,
        },
        flags: [false, setgid && kind == Kind::Directory, false],
        dacl,
    };
    node.lists_are_valid();
    Ok(node)
}

/// Returns the default list of a new file: of a directory that of its parent directory.
fn inherited_default(
    alloc: Global,
    dacl: &Option<Acl>,
    kind: Kind,
) -> Result<Option<Acl>, AllocError>
    ensures { MakesIn (Fits (size_of dacl.now)) result (inherited_default dacl.now kind) }
{
    match kind {
        Kind::Directory => clone_of(alloc, dacl),
        Kind::Plain => Ok(None),
    }
}

/// Makes the access list under a directory's default list, if it has one.
fn inherited_access(
    alloc: Global,
    dacl: &Option<Acl>,
    mode: u16,
    umask: u16,
) -> Result<Acl, AllocError>
    ensures { MakesIn (Fits (size_of dacl.now)) result (inherited_access dacl.now mode umask) }
{
    match dacl {
        Some(dacl) => {
            let mut acl = dacl.try_clone(alloc)?;
            acl.restrict(mode);
            Ok(acl)
        }
        None => Acl::minimal(alloc, mode & !umask),
    }
}
