//! Why a script could not be read or answered to its end.
use std::alloc::AllocError;

/// Why a script could not be read or answered to its end.
#[derive(Clone, Copy, Debug, PartialEq, Eq)]
pub enum ScriptFault {
    /// The reader answered an error.
    Read,
    /// A writer answered an error, or took nothing of a piece that is not empty.
    Write,
    /// The script is longer than its limit.
    TooLong,
    /// No memory for the line that is being read.
    NoMemory,
}

impl From<AllocError> for ScriptFault {
    ghost use Rattle.std.specs.Prelude.{◌≡◌};
    ghost use Rattle.facl_script.specs.declared.fault.ScriptFault.{ScriptFault};

    ghost from_gives = { λ _ e. e ≡ ScriptFault.NoMemory };

    fn from(_e: AllocError) -> ScriptFault {
        ScriptFault::NoMemory
    }
}
