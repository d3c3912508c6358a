//! Why a line, or a whole run, is refused; and the faults of the layers below as these. Each one's running out of memory is
//! `NoMemory`.

ghost use Rattle.std.specs.Prelude.{◌≡◌};
ghost use Rattle.facl_output.specs.Faults.{line_fault_of_split, line_fault_of_text, line_fault_of_tree, line_fault_of_words, run_fault_of_script};
ghost use Rattle.facl_output.specs.declared.fault.LineFault.{LineFault};
ghost use Rattle.facl_output.specs.declared.fault.RunFault.{RunFault};

use acl_text::{FaultKind, TextFault};
use acl_tree::{Table, TreeFault};
use facl_script::{ScriptFault, SplitFault, WordsFault};
use std::alloc::{AllocError, AllocFailed};
use thiserror::Error;

/// Where a faulty entry, line or operand is.
#[derive(Clone, Copy, Debug, PartialEq, Eq)]
pub enum Source {
    /// In the entries of an option, or of chacl(1)'s access list.
    Entry,
    /// In the entries of chacl(1)'s default list.
    DefaultEntry,
    /// In the text after the line.
    TextLine,
    /// In the bytes of an attribute.
    AttributeEntry,
    /// Among the line's operands FILE.
    Operand,
}

/// Why a line is refused. Of several faults the first of this enum is returned, but `Both` comes before the fault
/// of an operand's path. `NoMemory` may come in place of each.
#[derive(Debug, Drop, Error)]
pub enum LineFault {
    /// The line has more bytes than `LINE_LIMIT`.
    #[error("line too long")]
    LineTooLong,
    /// The line is not UTF-8.
    #[error("not UTF-8")]
    NotUtf8,
    /// A quote has no end.
    #[error("open quote")]
    OpenQuote,
    /// The line's first word names no tool.
    #[error("unknown tool")]
    UnknownTool,
    /// The script ends before the text's line `.`.
    #[error("text without end")]
    UnendedText,
    /// A line of the text has more bytes than `LINE_LIMIT`.
    #[error("text line too long")]
    TextLineTooLong,
    /// The words are not such as the tool takes.
    #[error("usage")]
    Usage,
    /// A text or an operand has no value. That memory ran out is `NoMemory`, never this.
    #[error("faulty text")]
    Text(Source, TextFault),
    /// The entry of the modified text at this place, counted from 1, is removed too.
    #[error("both removed and modified")]
    Both { at: usize },
    /// The command is refused. That memory ran out is `NoMemory`, never this.
    #[error("refused command")]
    Tree(TreeFault),
    /// Memory ran out.
    #[error("no memory")]
    NoMemory,
}

/// Why a whole run ends before its script does.
#[derive(Debug, Drop, Error)]
pub enum RunFault {
    /// The script's reader failed.
    #[error("read fault")]
    Read,
    /// A writer failed.
    #[error("write fault")]
    Write,
    /// A text of the setup cannot be loaded. That memory ran out is `NoMemory`, never this.
    #[error("setup")]
    Setup { which: Table, fault: TreeFault },
    /// The script has more bytes than `SCRIPT_LIMIT`.
    #[error("script too long")]
    ScriptTooLong,
    /// Memory ran out before the script was read, or for the line that is being read.
    #[error("no memory")]
    NoMemory,
}

impl LineFault {
    /// Makes the fault of a line of which a text or an operand has this fault.
    pub fn of_text(source: Source, fault: TextFault) -> LineFault
        ensures { result ≡ line_fault_of_text source fault }
    {
        match fault.kind {
            FaultKind::NoMemory => LineFault::NoMemory,
            _ => LineFault::Text(source, fault),
        }
    }
}

impl From<AllocError> for LineFault {
    ghost from_gives = { λ _ fault. fault ≡ LineFault.NoMemory };

    fn from(_: AllocError) -> LineFault {
        LineFault::NoMemory
    }
}

impl<T: Drop> From<AllocFailed<T>> for LineFault {
    ghost from_gives = { λ _ fault. fault ≡ LineFault.NoMemory };

    fn from(_: AllocFailed<T>) -> LineFault {
        LineFault::NoMemory
    }
}

impl From<TreeFault> for LineFault {
    ghost from_gives = { λ refused fault. fault ≡ line_fault_of_tree refused };

    fn from(refused: TreeFault) -> LineFault {
        match refused {
            TreeFault::NoMemory => LineFault::NoMemory,
            _ => LineFault::Tree(refused),
        }
    }
}

impl From<SplitFault> for LineFault {
    ghost from_gives = { λ refused fault. fault ≡ line_fault_of_split refused };

    fn from(refused: SplitFault) -> LineFault {
        match refused {
            SplitFault::NotUtf8 => LineFault::NotUtf8,
            SplitFault::OpenQuote => LineFault::OpenQuote,
            SplitFault::NoMemory => LineFault::NoMemory,
        }
    }
}

impl From<WordsFault> for LineFault {
    ghost from_gives = { λ refused fault. fault ≡ line_fault_of_words refused };

    fn from(refused: WordsFault) -> LineFault {
        match refused {
            WordsFault::Usage => LineFault::Usage,
            WordsFault::NoMemory => LineFault::NoMemory,
        }
    }
}

impl From<AllocError> for RunFault {
    ghost from_gives = { λ _ fault. fault ≡ RunFault.NoMemory };

    fn from(_: AllocError) -> RunFault {
        RunFault::NoMemory
    }
}

impl<T: Drop> From<AllocFailed<T>> for RunFault {
    ghost from_gives = { λ _ fault. fault ≡ RunFault.NoMemory };

    fn from(_: AllocFailed<T>) -> RunFault {
        RunFault::NoMemory
    }
}

impl From<ScriptFault> for RunFault {
    ghost from_gives = { λ stopped fault. fault ≡ run_fault_of_script stopped };

    fn from(stopped: ScriptFault) -> RunFault {
        match stopped {
            ScriptFault::Read => RunFault::Read,
            ScriptFault::Write => RunFault::Write,
            ScriptFault::TooLong => RunFault::ScriptTooLong,
            ScriptFault::NoMemory => RunFault::NoMemory,
        }
    }
}
