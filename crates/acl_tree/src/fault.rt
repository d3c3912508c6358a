//! Why a command is refused. The faults of commands on users and groups are among them, so that a fault is the same
//! value in every layer.

ghost use Rattle.std.specs.Prelude.{◌≡◌};
ghost use Rattle.acl_tree.specs.declared.fault.TreeFault.{TreeFault};

use acl_edit::EditFault;
use acl_entry::Id;
use acl_names::{Name, Path};
use acl_text::TextFault;
use std::alloc::{AllocError, AllocFailed};

/// Why a command is refused. A refused command changes nothing.
#[derive(Debug, Drop)]
pub enum TreeFault {
    /// The first operand that is not recorded, or the parent of a new file.
    NoSuchFile { path: Path },
    /// The parent of a new file is not a directory.
    NotDirectory { path: Path },
    /// A new file has the path of a recorded one, or a recorded file is below it.
    Exists { path: Path },
    /// The first operand of a removal that is a directory.
    IsDirectory { path: Path },
    /// No row of this user.
    NoSuchUser { name: Name },
    /// No row of this group.
    NoSuchGroup { name: Name },
    /// The row of the group does not name the user.
    NotMember,
    /// The first file in path order whose edit is refused, for a fault that is not `NoMemory`.
    Edit { path: Path, fault: EditFault },
    /// More files than `MAX_FILES`.
    TooMany,
    /// A text of this kind was loaded before, or a dump.
    AlreadyLoaded,
    /// The text's first fault, which is not `NoMemory`.
    Text(TextFault),
    /// Memory ran out.
    NoMemory,
    /// A new user has the name of another one.
    UserExists { name: Name },
    /// A new user has the id of another one.
    UidExists { id: Id },
    /// There are `MAX_ROWS` users.
    TooManyUsers,
}

impl From<AllocError> for TreeFault {
    ghost from_gives = { λ _ fault. fault ≡ TreeFault.NoMemory };

    fn from(_: AllocError) -> TreeFault {
        TreeFault::NoMemory
    }
}

impl<T: Drop> From<AllocFailed<T>> for TreeFault {
    ghost from_gives = { λ _ fault. fault ≡ TreeFault.NoMemory };

    fn from(_: AllocFailed<T>) -> TreeFault {
        TreeFault::NoMemory
    }
}
