//! The listings of getfacl(1), by its options.

ghost use Rattle.std.specs.Prelude.{◌≡◌, ◌++◌, ◌∷◌, [], length, MatchResult, OnOk};
ghost use Rattle.std.specs.Io.{StartsWith};
ghost use Rattle.acl_text.specs.DumpWriting as dump;
ghost use Rattle.acl_names.specs.Appends.{Appends, AppendsWhole};
ghost use Rattle.facl_output.specs.Listings.{has_base_alone, is_listed, has_slash, path_shown, flags_shown, headers, default_entries, entry_lines, file_text, files_text, listing};
ghost use Rattle.facl_output.specs.AfterPaths.{path_line, after_path};
ghost use Rattle.facl_output.specs.KeptTexts.{AreKept};

use crate::kept_texts::KeptTexts;
use acl_edit::{Kind, Node};
use acl_names::append_path;
use acl_text::{Effective, Header, Names, NoNames, Which, append_header, append_list};
use acl_tree::{FoundFile, node_hash};
use std::alloc::AllocError;

/// Tells whether a file has base entries alone, and no default list.
fn has_base_alone(node: &Node) -> bool
    ensures { result ≡ has_base_alone node.now }
{
    node.label.acl.is_minimal() && node.dacl.is_none()
}

/// Tells whether a file is listed: an option leaves out files that have base entries alone.
fn is_listed(options: &Options, file: &FoundFile<'_>) -> bool
    ensures { result ≡ is_listed options.now file.now }
{
    !(options.skip_base && has_base_alone(file.node()))
}

/// Tells whether a final `/` shows that the file is a directory, as nothing else does.
pub(crate) fn has_slash(file: &FoundFile<'_>) -> bool
    ensures { result ≡ has_slash file.now }
{
    let is_shown = file.path().components().is_empty()
        || file.node().dacl.is_some()
        || file.has_below();
    file.node().kind == Kind::Directory && !is_shown
}

/// Adds a line feed, or nothing if memory runs out.
pub fn end_line(text: &mut Vec<u8>) -> Result<(), AllocError>
    ensures { AppendsWhole result text.old text.new (10 ∷ []) }
{
    text.push(b'\n')?;
    Ok(())
}

/// Adds the path of a file, with the final `/` of a directory that nothing else shows as one.
pub fn push_path_shown(text: &mut Vec<u8>, file: &FoundFile<'_>) -> Result<(), AllocError>
    ensures { Appends result text.old text.new (path_shown file.now) }
{
    append_path(text, file.path())?;
    if has_slash(file) {
        text.push(b'/')?;
    }
    Ok(())
}

/// Adds the line of a file's path, as a listing of getfacl(1) begins with it.
pub fn push_path(text: &mut Vec<u8>, file: &FoundFile<'_>) -> Result<(), AllocError>
    ensures { Appends result text.old text.new (dump.file_text file.now.path (has_slash file.now)) }
{
    let header = Header {
        path: file.path(),
        slash: has_slash(file),
        owner: None,
        group: None,
        flags: None,
    };
    append_header(text, &header, &NoNames)
}

/// Returns the flags, if one of them is set.
fn flags_shown(flags: [bool; 3]) -> Option<[bool; 3]>
    ensures { result ≡ flags_shown flags }
{
    let [setuid, setgid, sticky] = flags;
    if setuid || setgid || sticky {
        Some(flags)
    } else {
        None
    }
}

/// Adds the header lines of a file, unless the options leave them out.
fn push_headers<N: Names>(
    text: &mut Vec<u8>,
    names: &N,
    options: &Options,
    file: &FoundFile<'_>,
) -> Result<(), AllocError>
    ensures { Appends result text.old text.new (headers (N.naming names.now) options.now file.now) }
{
    if options.omit_header {
        return Ok(());
    }
    let node = file.node();
    let header = Header {
        path: file.path(),
        slash: has_slash(file),
        owner: Some(node.label.owner),
        group: Some(node.label.group),
        flags: flags_shown(node.flags),
    };
    append_header(text, &header, names)
}

/// Adds the lines of the default list, as the options have it.
fn push_default<N: Names>(
    text: &mut Vec<u8>,
    names: &N,
    options: &Options,
    node: &Node,
) -> Result<(), AllocError>
    ensures { Appends result text.old text.new (default_entries (N.naming names.now) options.now node.now) }
{
    match &node.dacl {
        Some(dacl) if !options.access_only => {
            append_list(text, dacl, Which::Default, options.effective, names)
        }
        _ => Ok(()),
    }
}

/// Adds the lines of the default list, and an empty line.
fn push_last<N: Names>(
    text: &mut Vec<u8>,
    names: &N,
    options: &Options,
    node: &Node,
) -> Result<(), AllocError>
    ensures { Appends result text.old text.new (default_entries (N.naming names.now) options.now node.now ++ 10 ∷ []) }
{
    push_default(text, names, options, node)?;
    end_line(text)
}

/// Adds the lines of both lists, and an empty line.
fn push_lists<N: Names>(
    text: &mut Vec<u8>,
    names: &N,
    options: &Options,
    node: &Node,
) -> Result<(), AllocError>
    ensures { Appends result text.old text.new (entry_lines (N.naming names.now) options.now node.now) }
{
    let acl = &node.label.acl;
    append_list(text, acl, Which::Access, options.effective, names)?;
    push_last(text, names, options, node)
}

fn push_record<N: Names>(
    text: &mut Vec<u8>,
    names: &N,
    options: &Options,
    file: &FoundFile<'_>,
) -> Result<(), AllocError>
    ensures { Appends result text.old text.new (file_text (N.naming names.now) options.now file.now) }
{
    push_headers(text, names, options, file)?;
    push_lists(text, names, options, file.node())
}

/// Adds the line of a file's path, unless the options leave out header lines.
fn push_path_line(
    text: &mut Vec<u8>,
    options: &Options,
    file: &FoundFile<'_>,
) -> Result<(), AllocError>
    ensures { Appends result text.old text.new (path_line options.now file.now) }
{
    if options.omit_header {
        return Ok(());
    }
    push_path(text, file)
}

/// Adds the record of a file of which all but the line of its path is kept.
fn push_known_record(
    text: &mut Vec<u8>,
    options: &Options,
    file: &FoundFile<'_>,
    known: &[u8],
) -> Result<(), AllocError>
    ensures { Appends result text.old text.new (path_line options.now file.now ++ known.now) }
{
    push_path_line(text, options, file)?;
    text.extend_from_slice(known)?;
    Ok(())
}

/// Finds where the line of a file's path ends: adds and removes it.
fn end_of_path_line(
    text: &mut Vec<u8>,
    options: &Options,
    file: &FoundFile<'_>,
) -> Result<usize, AllocError>
    ensures { MatchResult result
        (λ end. (end ≡ length (text.old.items ++ path_line options.now file.now)) × (text.new.items ≡ text.old.items))
        (λ _. StartsWith text.new.items text.old.items) }
{
    let before = text.len();
    push_path_line(text, options, file)?;
    let end = text.len();
    text.truncate(before);
    Ok(end)
}

/// Adds the record of a file. What follows the line of its path is copied, if it was kept of a file with the same node,
/// and else kept.
fn push_file<'a, N: Names>(
    text: &mut Vec<u8>,
    kept: &mut KeptTexts<'a>,
    names: &N,
    options: &Options,
    file: &FoundFile<'a>,
) -> Result<(), AllocError>
    requires { AreKept (after_path (N.naming names.now) options.now) kept.old }
    ensures text { Appends result text.old text.new (file_text (N.naming names.now) options.now file.now) }
    ensures kept { OnOk result (AreKept (after_path (N.naming names.now) options.now) kept.new) }
{
    if !kept.seeks_next() {
        push_record(text, names, options, file)?;
        return Ok(());
    }
    let mark = node_hash(file.node());
    if let Some(known) = kept.find(mark, file.node()) {
        push_known_record(text, options, file, known)?;
        kept.note_found();
        return Ok(());
    }
    let end = end_of_path_line(text, options, file)?;
    push_record(text, names, options, file)?;
    kept.keep(mark, file.node(), text.as_slice(), end)?;
    Ok(())
}

/// Adds the records of the files that are listed.
fn push_files<N: Names>(
    text: &mut Vec<u8>,
    names: &N,
    options: &Options,
    files: &[FoundFile<'_>],
) -> Result<(), AllocError>
    ensures { Appends result text.old text.new (files_text (N.naming names.now) options.now files.now) }
{
    let mut kept = KeptTexts::new(*text.allocator(), files.len())?;
    for file in files {
        if is_listed(options, file) {
            push_file(text, &mut kept, names, options, file)?;
        }
    }
    Ok(())
}

fn push_listing<N: Names>(
    text: &mut Vec<u8>,
    names: &N,
    options: &Options,
    files: &[FoundFile<'_>],
) -> Result<(), AllocError>
    ensures { Appends result text.old text.new (listing (N.naming names.now) options.now files.now) }
{
    if options.numeric {
        push_files(text, &NoNames, options, files)
    } else {
        push_files(text, names, options, files)
    }
}

/// Adds what getfacl(1) prints of these files, in their order: for each that is listed its header lines, its access
/// entries, its default entries with `default:` in front, and an empty line, but for what `options` leave out. The path
/// of a directory ends in `/` if nothing else shows that it is one. If memory runs out, nothing is added.
pub fn append_listing<N: Names>(
    text: &mut Vec<u8>,
    names: &N,
    options: &Options,
    files: &[FoundFile<'_>],
) -> Result<(), AllocError>
    ensures { AppendsWhole result text.old text.new (listing (N.naming names.now) options.now files.now) }
{
    let before = text.len();
    if let Err(refused) = push_listing(text, names, options, files) {
        text.truncate(before);
        return Err(refused);
    }
    Ok(())
}

/// What getfacl(1) prints of its files.
#[derive(Clone, Copy, PartialEq, Eq)]
pub struct Options {
    /// No default entries (`-a`).
    pub access_only: bool,
    /// No header lines (`-c`).
    pub omit_header: bool,
    /// Where effective permissions are printed: where the mask takes something from an entry, at each entry of the
    /// group class of a list with a mask (`-e`), or nowhere (`-E`).
    pub effective: Effective,
    /// Leaves out the files that have the three base entries alone and no default list (`-s`).
    pub skip_base: bool,
    /// Ids as numbers (`-n`).
    pub numeric: bool,
}

impl Options {
    /// Those of a line without flags.
    pub const PLAIN: Options = Options {
        access_only: false,
        omit_header: false,
        effective: Effective::WhereMasked,
        skip_base: false,
        numeric: false,
    };
}
