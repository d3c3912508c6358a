//! The message of a refused line, by its fault: of a text, of a list, of a command; and the warning of an accepted one.

ghost use Rattle.std.specs.Prelude.{◌≡◌, ◌++◌, codes, decimal};
ghost use Rattle.acl_names.specs.Appends.{Appends};
ghost use Rattle.facl_output.specs.Messages.{head, line_text, message, numbered, reporter, warning};
ghost use Rattle.facl_output.specs.Texts.{is_of_whole_list, kind_text, list_name, list_text, source_name, text_fault_text, placed, edit_text, tree_text};
ghost use Rattle.acl_text.specs.declared.entries.Form.TheVariants.{Long};
ghost use Rattle.acl_text.specs.Writing.{tag_text};
ghost use Rattle.acl_names.specs.Names.{escaped};
ghost use Rattle.acl_names.specs.Paths.{path_text};

use crate::fault::{LineFault, Source};
use acl_edit::EditFault;
use acl_entry::{Id, Key, ListFault};
use acl_names::{Name, Path, append_name, append_path};
use acl_text::{FaultKind, TextFault, Which};
use acl_tree::TreeFault;
use itoa::Buffer;
use std::alloc::AllocError;

/// Returns who reports a fault: the tool, from the reading of its own words on; before that, and if memory ran out, the
/// program.
fn reporter<'a>(tool: &'a [u8], fault: &LineFault) -> &'a [u8]
    ensures { result.now ≡ reporter tool.now fault.now }
{
    match fault {
        LineFault::LineTooLong
        | LineFault::NotUtf8
        | LineFault::OpenQuote
        | LineFault::UnknownTool
        | LineFault::UnendedText
        | LineFault::TextLineTooLong
        | LineFault::NoMemory => b"facl",
        LineFault::Usage | LineFault::Text(_, _) | LineFault::Both { .. } | LineFault::Tree(_) =>
            tool,
    }
}

/// Adds the text of why a line is refused.
fn push_line_fault(text: &mut Vec<u8>, fault: &LineFault) -> Result<(), AllocError>
    ensures { Appends result text.old text.new (line_text fault.now) }
{
    match fault {
        LineFault::LineTooLong => text.extend_from_slice(b"line too long"),
        LineFault::NotUtf8 => text.extend_from_slice(b"not UTF-8"),
        LineFault::OpenQuote => text.extend_from_slice(b"open quote"),
        LineFault::UnknownTool => text.extend_from_slice(b"unknown tool"),
        LineFault::UnendedText => text.extend_from_slice(b"text without end"),
        LineFault::TextLineTooLong => text.extend_from_slice(b"text line too long"),
        LineFault::Usage => text.extend_from_slice(b"usage"),
        LineFault::Text(source, fault) => push_text_fault(text, *source, fault),
        LineFault::Both { at } => {
            push_numbered(text, b"entry ", *at, b": both removed and modified")
        }
        LineFault::Tree(fault) => push_tree_fault(text, fault),
        LineFault::NoMemory => text.extend_from_slice(b"no memory"),
    }
}

/// Adds `line N: TOOL: `.
fn push_head(text: &mut Vec<u8>, number: u64, reported_by: &[u8]) -> Result<(), AllocError>
    ensures { Appends result text.old text.new (head number reported_by.now) }
{
    let mut buffer = Buffer::new();
    text.extend_from_slice(b"line ")?;
    text.extend_from_slice(buffer.format(number).as_bytes())?;
    text.extend_from_slice(b": ")?;
    text.extend_from_slice(reported_by)?;
    text.extend_from_slice(b": ")?;
    Ok(())
}

/// Adds the message of a line that is refused: `line N: TOOL: TEXT` and a line feed. TOOL is the line's first word,
/// but `facl` for a fault that is found before the tool's own words are read, and if memory ran out. If memory runs
/// out for the message, what was before is kept.
#[tactic(auto, unfolding(crate::specs::Messages::message))]
pub fn push_message(
    text: &mut Vec<u8>,
    number: u64,
    tool: &[u8],
    fault: &LineFault,
) -> Result<(), AllocError>
    ensures { Appends result text.old text.new (message number tool.now fault.now) }
{
    push_head(text, number, reporter(tool, fault))?;
    push_line_fault(text, fault)?;
    text.extend_from_slice(b"\n")?;
    Ok(())
}

/// Adds the warning that a line of setfacl(1) dropped default entries, and a line feed. If memory runs out for the
/// warning, what was before is kept.
#[tactic(auto, unfolding(crate::specs::Messages::warning))]
pub fn push_warning(text: &mut Vec<u8>, number: u64) -> Result<(), AllocError>
    ensures { Appends result text.old text.new (warning number) }
{
    push_head(text, number, b"setfacl")?;
    text.extend_from_slice(b"warning: default entries dropped\n")?;
    Ok(())
}

/// Returns what messages call one of a file's lists.
fn list_name(which: Which) -> &'static [u8]
    ensures { result.now ≡ list_name which }
{
    match which {
        Which::Access => b"access list: ",
        Which::Default => b"default list: ",
    }
}

/// Adds the text of a fault of one of a file's lists.
pub(crate) fn push_file_list(
    text: &mut Vec<u8>,
    which: Which,
    fault: &ListFault,
) -> Result<(), AllocError>
    ensures { Appends result text.old text.new (list_name which ++ list_text fault.now) }
{
    text.extend_from_slice(list_name(which))?;
    push_list_fault(text, fault)?;
    Ok(())
}

/// Adds the text of what is wrong with a piece of text.
pub(crate) fn push_kind(text: &mut Vec<u8>, kind: &FaultKind) -> Result<(), AllocError>
    ensures { Appends result text.old text.new (kind_text kind.now) }
{
    match kind {
        FaultKind::BadTag => text.extend_from_slice(b"bad tag"),
        FaultKind::MissingPerms => text.extend_from_slice(b"permissions missing"),
        FaultKind::UnwantedPerms => text.extend_from_slice(b"permissions not wanted"),
        FaultKind::BadPerms => text.extend_from_slice(b"bad permissions"),
        FaultKind::UnknownUser => text.extend_from_slice(b"unknown user"),
        FaultKind::UnknownGroup => text.extend_from_slice(b"unknown group"),
        FaultKind::BaseEntry => text.extend_from_slice(b"base entry cannot be removed"),
        FaultKind::BadHeader => text.extend_from_slice(b"bad header"),
        FaultKind::MissingHeader => text.extend_from_slice(b"header missing"),
        FaultKind::BadPath => text.extend_from_slice(b"bad path"),
        FaultKind::RepeatedFile => text.extend_from_slice(b"file repeated"),
        FaultKind::BadRow => text.extend_from_slice(b"bad row"),
        FaultKind::BadAttr => text.extend_from_slice(b"bad attribute"),
        FaultKind::List(which, fault) => push_file_list(text, *which, fault),
        FaultKind::TooMany => text.extend_from_slice(b"too many"),
        FaultKind::NoMemory => text.extend_from_slice(b"no memory"),
    }
}

/// Returns what messages print before the place of a fault.
fn source_name(source: Source) -> &'static [u8]
    ensures { result.now ≡ source_name source }
{
    match source {
        Source::Entry => b"entry ",
        Source::DefaultEntry => b"default entry ",
        Source::TextLine => b"text line ",
        Source::AttributeEntry => b"attribute entry ",
        Source::Operand => b"operand ",
    }
}

/// Tells whether the fault is of a list and not of one of its entries.
fn is_of_whole_list(fault: &TextFault) -> bool
    ensures { result ≡ is_of_whole_list fault.now }
{
    match &fault.kind {
        FaultKind::List(_, _) => fault.at == 0,
        _ => false,
    }
}

/// Adds the text of a fault at its place in a source.
pub(crate) fn push_text_fault(
    text: &mut Vec<u8>,
    source: Source,
    fault: &TextFault,
) -> Result<(), AllocError>
    ensures { Appends result text.old text.new (text_fault_text source fault.now) }
{
    if !is_of_whole_list(fault) {
        push_numbered(text, source_name(source), fault.at, b": ")?;
    }
    push_kind(text, &fault.kind)?;
    Ok(())
}

/// Adds a number between two texts.
pub(crate) fn push_numbered(
    text: &mut Vec<u8>,
    before: &[u8],
    number: usize,
    after: &[u8],
) -> Result<(), AllocError>
    ensures { Appends result text.old text.new (before.now ++ decimal number ++ after.now) }
{
    let mut buffer = Buffer::new();
    text.extend_from_slice(before)?;
    text.extend_from_slice(buffer.format(number).as_bytes())?;
    text.extend_from_slice(after)?;
    Ok(())
}

/// Returns the text of a missing base entry.
fn missing_base(key: &Key) -> &'static [u8]
    ensures { result.now ≡ tag_text Long key.now ++ codes ":: missing" }
{
    match key {
        Key::Owner | Key::User(_) => b"user:: missing",
        Key::OwningGroup | Key::Group(_) => b"group:: missing",
        Key::Mask => b"mask:: missing",
        Key::Other => b"other:: missing",
    }
}

/// Adds the text of a list's fault.
pub(crate) fn push_list_fault(text: &mut Vec<u8>, fault: &ListFault) -> Result<(), AllocError>
    ensures { Appends result text.old text.new (list_text fault.now) }
{
    match fault {
        ListFault::Repeated { at } => push_numbered(text, b"entry ", *at, b" is repeated"),
        ListFault::MissingBase { key } => text.extend_from_slice(missing_base(key)),
        ListFault::MissingMask { at } => push_numbered(text, b"entry ", *at, b" needs a mask"),
        ListFault::TooLong => text.extend_from_slice(b"too many entries"),
        ListFault::NoMemory => text.extend_from_slice(b"no memory"),
    }
}

/// Adds a path, and what is wrong with it.
fn push_of_path(text: &mut Vec<u8>, path: &Path, fault: &[u8]) -> Result<(), AllocError>
    ensures { Appends result text.old text.new (path_text path.now ++ fault.now) }
{
    append_path(text, path)?;
    text.extend_from_slice(fault)?;
    Ok(())
}

/// Adds a name, and what is wrong with it.
fn push_of_name(text: &mut Vec<u8>, name: &Name, fault: &[u8]) -> Result<(), AllocError>
    ensures { Appends result text.old text.new (escaped name.now ++ fault.now) }
{
    append_name(text, name.as_bytes())?;
    text.extend_from_slice(fault)?;
    Ok(())
}

/// Adds the text of a fault in a text that is loaded.
fn push_in_text(text: &mut Vec<u8>, fault: &TextFault) -> Result<(), AllocError>
    ensures { Appends result text.old text.new (placed Source.TextLine fault.now) }
{
    push_numbered(text, b"text line ", fault.at, b": ")?;
    push_kind(text, &fault.kind)?;
    Ok(())
}

/// Adds the text of why a file is not edited.
fn push_edit_fault(text: &mut Vec<u8>, fault: &EditFault) -> Result<(), AllocError>
    ensures { Appends result text.old text.new (edit_text fault.now) }
{
    match fault {
        EditFault::DefaultOnFile => {
            text.extend_from_slice(b"only directories have default lists")
        }
        EditFault::List(which, fault) => push_file_list(text, *which, fault),
        EditFault::NoMemory => text.extend_from_slice(b"no memory"),
    }
}

/// Adds a path, and why its file is not edited.
fn push_edit_of(text: &mut Vec<u8>, path: &Path, fault: &EditFault) -> Result<(), AllocError>
    ensures { Appends result text.old text.new (path_text path.now ++ codes ": " ++ edit_text fault.now) }
{
    push_of_path(text, path, b": ")?;
    push_edit_fault(text, fault)?;
    Ok(())
}

/// Adds the text of an id that another user has.
fn push_of_id(text: &mut Vec<u8>, id: Id) -> Result<(), AllocError>
    ensures { Appends result text.old text.new (decimal id ++ codes ": user id in use") }
{
    let mut buffer = Buffer::new();
    text.extend_from_slice(buffer.format(id.number()).as_bytes())?;
    text.extend_from_slice(b": user id in use")?;
    Ok(())
}

/// Adds the text of why a command is refused.
pub(crate) fn push_tree_fault(text: &mut Vec<u8>, fault: &TreeFault) -> Result<(), AllocError>
    ensures { Appends result text.old text.new (tree_text fault.now) }
{
    match fault {
        TreeFault::NoSuchFile { path } => push_of_path(text, path, b": no such file"),
        TreeFault::NotDirectory { path } => push_of_path(text, path, b": not a directory"),
        TreeFault::Exists { path } => push_of_path(text, path, b": exists"),
        TreeFault::IsDirectory { path } => push_of_path(text, path, b": is a directory"),
        TreeFault::NoSuchUser { name } => push_of_name(text, name, b": no such user"),
        TreeFault::NoSuchGroup { name } => push_of_name(text, name, b": no such group"),
        TreeFault::NotMember => text.extend_from_slice(b"not a member"),
        TreeFault::Edit { path, fault } => push_edit_of(text, path, fault),
        TreeFault::TooMany => text.extend_from_slice(b"too many files"),
        TreeFault::AlreadyLoaded => text.extend_from_slice(b"already loaded"),
        TreeFault::Text(fault) => push_in_text(text, fault),
        TreeFault::UserExists { name } => push_of_name(text, name, b": user exists"),
        TreeFault::UidExists { id } => push_of_id(text, *id),
        TreeFault::TooManyUsers => text.extend_from_slice(b"too many users"),
        TreeFault::NoMemory => text.extend_from_slice(b"no memory"),
    }
}
