//! What setfacl(1) prints with `--test`.

ghost use Rattle.std.specs.Prelude.{OnOk};
ghost use Rattle.std.specs.List.{flat_map};
ghost use Rattle.acl_names.specs.Appends.{Appends, AppendsWhole};
ghost use Rattle.facl_output.specs.AfterPaths.{after_tested_path};
ghost use Rattle.facl_output.specs.KeptTexts.{AreKept};
ghost use Rattle.facl_output.specs.TestListing.{default_entry, default_entries, file_line, test_listing};

use crate::kept_texts::{KeptTexts, NodeText};
use crate::listing::{end_line, push_path_shown};
use acl_edit::Node;
use acl_entry::{Acl, Entry};
use acl_text::{Form, Names, append_entry, append_short};
use acl_tree::FoundFile;
use std::alloc::AllocError;

/// Adds an entry of the default list, a comma before it.
fn push_default_entry<N: Names>(
    text: &mut Vec<u8>,
    names: &N,
    entry: &Entry,
) -> Result<(), AllocError>
    ensures { Appends result text.old text.new (default_entry (N.naming names.now) entry.now) }
{
    text.extend_from_slice(b",d:")?;
    append_entry(text, entry, Form::Short, names)
}

/// Adds entries of the default list, a comma before each.
fn push_default_entries<N: Names>(
    text: &mut Vec<u8>,
    names: &N,
    entries: &[Entry],
) -> Result<(), AllocError>
    ensures { Appends result text.old text.new (flat_map (default_entry (N.naming names.now)) entries.now) }
{
    for entry in entries {
        push_default_entry(text, names, entry)?;
    }
    Ok(())
}

/// Adds the default list, if there is one.
fn push_default<N: Names>(
    text: &mut Vec<u8>,
    names: &N,
    dacl: &Option<Acl>,
) -> Result<(), AllocError>
    ensures { Appends result text.old text.new (default_entries (N.naming names.now) dacl.now) }
{
    match dacl {
        Some(dacl) => push_default_entries(text, names, dacl.entries()),
        None => Ok(()),
    }
}

/// Adds what comes after a path: a file's lists and a line feed.
fn push_after_path<N: Names>(text: &mut Vec<u8>, names: &N, node: &Node) -> Result<(), AllocError>
    ensures { Appends result text.old text.new (after_tested_path (N.naming names.now) node.now) }
{
    text.extend_from_slice(b": ")?;
    append_short(text, &node.label.acl, names)?;
    push_default(text, names, &node.dacl)?;
    end_line(text)
}

/// What comes after the path of a file, with names.
#[derive(Clone, Copy)]
struct TestedLists<'n, N: Names> {
    names: &'n N,
}

impl<'n, N: Names> NodeText for TestedLists<'n, N> {
    ghost text_of = { λ lists. after_tested_path (N.naming lists.names.now) };

    fn push(&self, text: &mut Vec<u8>, node: &Node) -> Result<(), AllocError> {
        push_after_path(text, self.names, node)
    }
}

fn push_file<'a, N: Names>(
    text: &mut Vec<u8>,
    kept: &mut KeptTexts<'a>,
    names: &N,
    file: &FoundFile<'a>,
) -> Result<(), AllocError>
    requires { AreKept (after_tested_path (N.naming names.now)) kept.old }
    ensures text { Appends result text.old text.new (file_line (N.naming names.now) file.now) }
    ensures kept { OnOk result (AreKept (after_tested_path (N.naming names.now)) kept.new) }
{
    push_path_shown(text, file)?;
    kept.push(text, &TestedLists { names }, file.node())
}

fn push_files<N: Names>(
    text: &mut Vec<u8>,
    names: &N,
    files: &[FoundFile<'_>],
) -> Result<(), AllocError>
    ensures { Appends result text.old text.new (test_listing (N.naming names.now) files.now) }
{
    let mut kept = KeptTexts::new(*text.allocator(), files.len())?;
    for file in files {
        push_file(text, &mut kept, names, file)?;
    }
    Ok(())
}

/// Adds what setfacl(1) prints with `--test` of these files, in their order: a line for each, with its path, its
/// access list in the short form, and its default entries with `d:` before each. The path of a directory ends in `/`
/// if nothing else shows that it is one. If memory runs out, nothing is added.
pub fn append_test_listing<N: Names>(
    text: &mut Vec<u8>,
    names: &N,
    files: &[FoundFile<'_>],
) -> Result<(), AllocError>
    ensures { AppendsWhole result text.old text.new (test_listing (N.naming names.now) files.now) }
{
    let before = text.len();
    if let Err(refused) = push_files(text, names, files) {
        text.truncate(before);
        return Err(refused);
    }
    Ok(())
}
