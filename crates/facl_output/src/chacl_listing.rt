//! The listing of chacl(1) `-l`.

ghost use Rattle.std.specs.Prelude.{◌≡◌, IfOk, OnOk};
ghost use Rattle.acl_names.specs.Appends.{Appends};
ghost use Rattle.facl_output.specs.AfterPaths.{after_chacl_path};
ghost use Rattle.facl_output.specs.KeptTexts.{AreKept};
ghost use Rattle.facl_output.specs.ChaclListings.{default_part, chacl_line, chacl_listing};

use crate::kept_texts::{KeptTexts, NodeText};
use crate::listing::push_path_shown;
use acl_edit::Node;
use acl_entry::Acl;
use acl_text::{Names, append_short};
use acl_tree::FoundFile;
use std::alloc::{AllocError, Global};

/// Adds a slash and the default list, if there is one.
fn push_default<N: Names>(
    text: &mut Vec<u8>,
    names: &N,
    dacl: &Option<Acl>,
) -> Result<(), AllocError>
    ensures { Appends result text.old text.new (default_part (N.naming names.now) dacl.now) }
{
    if let Some(dacl) = dacl {
        text.extend_from_slice(b"/")?;
        append_short(text, dacl, names)?;
    }
    Ok(())
}

/// Adds what comes after a path.
fn push_after_path<N: Names>(text: &mut Vec<u8>, names: &N, node: &Node) -> Result<(), AllocError>
    ensures { Appends result text.old text.new (after_chacl_path (N.naming names.now) node.now) }
{
    text.extend_from_slice(b" [")?;
    append_short(text, &node.label.acl, names)?;
    push_default(text, names, &node.dacl)?;
    text.extend_from_slice(b"]\n")?;
    Ok(())
}

/// What comes after the path of a file, with names.
#[derive(Clone, Copy)]
struct BracketedLists<'n, N: Names> {
    names: &'n N,
}

impl<'n, N: Names> NodeText for BracketedLists<'n, N> {
    ghost text_of = { λ lists. after_chacl_path (N.naming lists.names.now) };

    fn push(&self, text: &mut Vec<u8>, node: &Node) -> Result<(), AllocError> {
        push_after_path(text, self.names, node)
    }
}

fn push_line<'a, N: Names>(
    text: &mut Vec<u8>,
    kept: &mut KeptTexts<'a>,
    names: &N,
    file: &FoundFile<'a>,
) -> Result<(), AllocError>
    requires { AreKept (after_chacl_path (N.naming names.now)) kept.old }
    ensures text { Appends result text.old text.new (chacl_line (N.naming names.now) file.now) }
    ensures kept { OnOk result (AreKept (after_chacl_path (N.naming names.now)) kept.new) }
{
    push_path_shown(text, file)?;
    kept.push(text, &BracketedLists { names }, file.node())
}

fn push_lines<N: Names>(
    text: &mut Vec<u8>,
    names: &N,
    files: &[FoundFile<'_>],
) -> Result<(), AllocError>
    ensures { Appends result text.old text.new (chacl_listing (N.naming names.now) files.now) }
{
    let mut kept = KeptTexts::new(*text.allocator(), files.len())?;
    for file in files {
        push_line(text, &mut kept, names, file)?;
    }
    Ok(())
}

/// Writes what chacl(1) `-l` prints of these files, in their order: for each a line of its path and, in brackets, its
/// access list in the short form, and after a `/` its default list if it has one.
pub fn write_chacl_listing<N: Names>(
    alloc: Global,
    names: &N,
    files: &[FoundFile<'_>],
) -> Result<Vec<u8>, AllocError>
    ensures { IfOk result (λ text. text.items ≡ chacl_listing (N.naming names.now) files.now) }
{
    let mut text = Vec::new(alloc);
    push_lines(&mut text, names, files)?;
    Ok(text)
}
