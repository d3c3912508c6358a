//! Why a text of users or groups isn't loaded.

ghost use Rattle.std.specs.Prelude.{◌≡◌, ◌≢◌};
ghost use Rattle.acl_people.specs.declared.fault.LoadFault.{LoadFault};

use acl_text::{FaultKind, TextFault};
use std::alloc::{AllocError, AllocFailed};

/// Why a passwd or a group text isn't loaded.
#[derive(Clone, Copy, Debug, PartialEq, Eq)]
pub enum LoadFault {
    /// A text of this kind was loaded before.
    AlreadyLoaded,
    /// The text's first fault, which is never that memory ran out.
    Text(TextFault),
    NoMemory,
}

impl From<AllocError> for LoadFault {
    ghost from_gives = { λ _ fault. fault ≡ LoadFault.NoMemory };

    fn from(_: AllocError) -> LoadFault {
        LoadFault::NoMemory
    }
}

impl<T: Drop> From<AllocFailed<T>> for LoadFault {
    ghost from_gives = { λ _ fault. fault ≡ LoadFault.NoMemory };

    fn from(_: AllocFailed<T>) -> LoadFault {
        LoadFault::NoMemory
    }
}

/// Turns a text's fault into a load's, and keeps running out of memory apart.
pub(crate) fn text_fault(fault: TextFault) -> LoadFault
    ensures text { fault.kind ≢ FaultKind.NoMemory → result ≡ LoadFault.Text fault }
    ensures memory { fault.kind ≡ FaultKind.NoMemory → result ≡ LoadFault.NoMemory }
{
    if fault.kind == FaultKind::NoMemory {
        LoadFault::NoMemory
    } else {
        LoadFault::Text(fault)
    }
}
