//! The records of a dump.

use crate::naming::Names;
use crate::shared::Shared;
use acl_entry::{Acl, Id};
use acl_names::Path;

/// What a dump is read for.
#[derive(Clone, Copy, PartialEq, Eq)]
pub enum DumpUse {
    /// To make the files of a tree: each record needs its owner and its group.
    Load,
    /// To give files their lists back, as setfacl(1) --restore does.
    Restore,
}

/// What a dump is read for, and the names with which it is read.
#[derive(Clone, Copy)]
pub(crate) struct DumpReading<'n, N: Names> {
    pub dump_use: DumpUse,
    pub names: &'n N,
}

/// A file as in a record of a dump. It may share its lists with records that have the same lines.
#[derive(Drop)]
pub struct DumpRecord {
    /// The number of its `# file:` line, counted from 1.
    pub at: usize,
    pub path: Path,
    /// Whether the path ends in `/` as it is written, as that of a directory does.
    pub slash: bool,
    pub owner: Option<Id>,
    pub group: Option<Id>,
    /// Whether the file has set user ID, set group ID, and is sticky, if the record has a `# flags:` line.
    pub flags: Option<[bool; 3]>,
    pub access: Shared<Acl>,
    /// The default list, if the record has default entries.
    pub dacl: Option<Shared<Acl>>,
}
