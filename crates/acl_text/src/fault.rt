//! Why a text has no value.

ghost use Rattle.std.specs.Prelude.{◌≡◌};
ghost use Rattle.acl_text.specs.declared.fault.FaultKind.{FaultKind};
ghost use Rattle.acl_text.specs.InTurn.{of_list};

use acl_entry::ListFault;
use std::alloc::{AllocError, AllocFailed};

/// Which of a file's two lists.
#[derive(Clone, Copy, Debug, PartialEq, Eq)]
pub enum Which {
    /// The access list.
    Access,
    /// The default list, which only directories have.
    Default,
}

/// What is wrong with a piece of text. Of several faults in one piece the first of this enum is returned.
/// A list that runs out of memory is `NoMemory`, never `List`.
#[derive(Clone, Copy, Debug, PartialEq, Eq)]
pub enum FaultKind {
    /// The entry's first field is not a tag.
    BadTag,
    /// The permissions are missing.
    MissingPerms,
    /// There are permissions, but none are wanted.
    UnwantedPerms,
    /// The permissions are neither letters nor an octal digit.
    BadPerms,
    /// No user has this name or id.
    UnknownUser,
    /// No group has this name or id.
    UnknownGroup,
    /// The entry is a base entry, which cannot be removed.
    BaseEntry,
    /// A header line has no value or flags that are not valid, comes twice, or comes after an entry.
    BadHeader,
    /// A record lacks a header line, or a line comes before the first record.
    MissingHeader,
    /// The path is not valid.
    BadPath,
    /// The file has a record before.
    RepeatedFile,
    /// A line is not a row of passwd(5) or group(5).
    BadRow,
    /// The bytes are not an attribute, or an entry in them has no value.
    BadAttr,
    /// The entries do not make a valid list.
    List(Which, ListFault),
    /// There are more entries, or rows, than a text may have.
    TooMany,
    /// Memory ran out.
    NoMemory,
}

impl FaultKind {
    /// Returns what is wrong with a text whose list has this fault.
    pub fn of_list(which: Which, fault: ListFault) -> FaultKind
        ensures { result ≡ of_list which fault }
    {
        match fault {
            ListFault::NoMemory => FaultKind::NoMemory,
            _ => FaultKind::List(which, fault),
        }
    }
}

/// A fault, and the number of the piece that has it, counted from 1.
#[derive(Clone, Copy, Debug, PartialEq, Eq)]
pub struct TextFault {
    pub kind: FaultKind,
    pub at: usize,
}

impl From<AllocError> for TextFault {
    ghost from_gives = { λ _ fault. fault.kind ≡ FaultKind.NoMemory };

    fn from(_: AllocError) -> TextFault {
        TextFault {
            kind: FaultKind::NoMemory,
            at: 0,
        }
    }
}

impl<T: Drop> From<AllocFailed<T>> for TextFault {
    ghost from_gives = { λ _ fault. fault.kind ≡ FaultKind.NoMemory };

    fn from(_: AllocFailed<T>) -> TextFault {
        TextFault {
            kind: FaultKind::NoMemory,
            at: 0,
        }
    }
}
