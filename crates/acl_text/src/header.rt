//! Writing the headers of a record, and records (getfacl(1)).

ghost use Rattle.std.specs.Prelude.{◌≡◌, ◌++◌, ◌∷◌, [], option_copied};
ghost use Rattle.acl_text.specs.Writing.{id_text};
ghost use Rattle.acl_names.specs.Appends.{Appends, AppendsWhole};
ghost use Rattle.acl_text.specs.DumpWriting.{mark, marks, flags_text, file_text, owner_text, group_text, header_text, record_text};

use crate::dump_writing::{append_default, append_list};
use crate::effective::Effective;
use crate::fault::Which;
use crate::naming::Names;
use crate::record::DumpRecord;
use crate::writing::append_id;
use acl_entry::Id;
use acl_names::{Path, append_path};
use std::alloc::AllocError;

/// What the header lines of a record contain.
#[derive(Clone, Copy)]
pub struct Header<'a> {
    pub path: &'a Path,
    /// The path is written with a final `/`.
    pub slash: bool,
    pub owner: Option<Id>,
    pub group: Option<Id>,
    /// Set user ID, set group ID and sticky.
    pub flags: Option<[bool; 3]>,
}

/// Returns the letter of a flag that is set, else `-`.
fn mark(letter: u8, set: bool) -> u8
    ensures { result ≡ mark letter set }
{
    if set { letter } else { b'-' }
}

/// Returns set user ID, set group ID and sticky, each as its letter or `-`.
fn marks(flags: [bool; 3]) -> [u8; 3]
    ensures { result ≡ marks flags }
{
    let [setuid, setgid, sticky] = flags;
    [mark(b's', setuid), mark(b's', setgid), mark(b't', sticky)]
}

/// Adds the `# flags:` line, if there are flags.
fn push_flags(text: &mut Vec<u8>, flags: Option<[bool; 3]>) -> Result<(), AllocError>
    ensures { Appends result text.old text.new (flags_text flags) }
{
    let Some(flags) = flags else {
        return Ok(());
    };
    text.extend_from_slice(b"# flags: ")?;
    text.extend_from_slice(&marks(flags))?;
    text.push(b'\n')?;
    Ok(())
}

fn push_file(text: &mut Vec<u8>, path: &Path, slash: bool) -> Result<(), AllocError>
    ensures { Appends result text.old text.new (file_text path.now slash) }
{
    text.extend_from_slice(b"# file: ")?;
    append_path(text, path)?;
    if slash {
        text.push(b'/')?;
    }
    text.push(b'\n')?;
    Ok(())
}

/// Adds the line of an id: `front`, then its name, or its number if it has no name.
fn push_id_line(
    text: &mut Vec<u8>,
    front: &[u8],
    id: Id,
    name: Option<&[u8]>,
) -> Result<(), AllocError>
    ensures { Appends result text.old text.new (front.now ++ (id_text id (option_copied name.entry) ++ 10 ∷ [])) }
{
    text.extend_from_slice(front)?;
    append_id(text, id, name)?;
    text.push(b'\n')?;
    Ok(())
}

/// Adds the `# owner:` line, if there is an owner.
fn push_owner<N: Names>(text: &mut Vec<u8>, owner: &Option<Id>, names: &N) -> Result<(), AllocError>
    ensures { Appends result text.old text.new (owner_text (N.naming names.now).user_name owner.now) }
{
    match owner {
        None => Ok(()),
        Some(id) => push_id_line(text, b"# owner: ", *id, names.user_name(*id)),
    }
}

/// Adds the `# group:` line, if there is a group.
fn push_group<N: Names>(text: &mut Vec<u8>, group: &Option<Id>, names: &N) -> Result<(), AllocError>
    ensures { Appends result text.old text.new (group_text (N.naming names.now).group_name group.now) }
{
    match group {
        None => Ok(()),
        Some(id) => push_id_line(text, b"# group: ", *id, names.group_name(*id)),
    }
}

fn push_header<N: Names>(
    text: &mut Vec<u8>,
    header: &Header<'_>,
    names: &N,
) -> Result<(), AllocError>
    ensures { Appends result text.old text.new (header_text (N.naming names.now) header.now.path.now header.now.slash header.now.owner header.now.group header.now.flags) }
{
    push_file(text, header.path, header.slash)?;
    push_owner(text, &header.owner, names)?;
    push_group(text, &header.group, names)?;
    push_flags(text, header.flags)?;
    Ok(())
}

/// Adds the header lines of a record: `# file:`, and `# owner:`, `# group:` and `# flags:`, each if it is present.
/// An id is written as its name, with escapes, and as a number if it has none.
pub fn append_header<N: Names>(
    text: &mut Vec<u8>,
    header: &Header<'_>,
    names: &N,
) -> Result<(), AllocError>
    ensures { AppendsWhole result text.old text.new (header_text (N.naming names.now) header.now.path.now header.now.slash header.now.owner header.now.group header.now.flags) }
{
    let before = text.len();
    if let Err(refused) = push_header(text, header, names) {
        text.truncate(before);
        return Err(refused);
    }
    Ok(())
}

/// Adds the header lines of a record, its lists, and an empty line.
fn push_record<N: Names>(
    text: &mut Vec<u8>,
    dump_record: &DumpRecord,
    names: &N,
) -> Result<(), AllocError>
    ensures { Appends result text.old text.new (record_text (N.naming names.now) dump_record.now) }
{
    let header = Header {
        path: &dump_record.path,
        slash: dump_record.slash,
        owner: dump_record.owner,
        group: dump_record.group,
        flags: dump_record.flags,
    };
    append_header(text, &header, names)?;
    let access = dump_record.access.get();
    append_list(text, access, Which::Access, Effective::WhereMasked, names)?;
    append_default(text, &dump_record.dacl, Effective::WhereMasked, names)?;
    text.push(b'\n')?;
    Ok(())
}

/// Adds a record: its header lines, the entries of its access list, those of its default list, and an empty line.
pub fn append_record<N: Names>(
    text: &mut Vec<u8>,
    dump_record: &DumpRecord,
    names: &N,
) -> Result<(), AllocError>
    ensures { AppendsWhole result text.old text.new (record_text (N.naming names.now) dump_record.now) }
{
    let before = text.len();
    if let Err(refused) = push_record(text, dump_record, names) {
        text.truncate(before);
        return Err(refused);
    }
    Ok(())
}
