//! The listing of `attr`: lists as extended attributes.

ghost use Rattle.std.specs.Prelude.{◌≡◌, ◌++◌, ◌∷◌, [], IfOk, codes, string_bytes};
ghost use Rattle.acl_names.specs.Appends.{Appends};
ghost use Rattle.hex.specs.Hex.{encode_lower};
ghost use Rattle.acl_text.specs.Attr.{attr_bytes};
ghost use Rattle.facl_output.specs.AttrListings.{attr_line, default_line, attr_text, attr_listing};

use crate::listing::push_path;
use acl_entry::Acl;
use acl_text::encode_attr;
use acl_tree::FoundFile;
use std::alloc::{AllocError, Global};

/// Writes the bytes of a list as hex digits.
fn digits(alloc: Global, acl: &Acl) -> Result<String, AllocError>
    ensures { IfOk result (λ text. string_bytes text ≡ encode_lower (attr_bytes acl.now)) }
{
    let bytes = encode_attr(alloc, acl)?;
    hex::encode(alloc, bytes.as_slice())
}

/// Adds the line of an attribute.
fn push_line(text: &mut Vec<u8>, name: &[u8], acl: &Acl) -> Result<(), AllocError>
    ensures { Appends result text.old text.new (attr_line name.now acl.now) }
{
    let digits = digits(*text.allocator(), acl)?;
    text.extend_from_slice(name)?;
    text.extend_from_slice(b"=0x")?;
    text.extend_from_slice(digits.as_bytes())?;
    text.push(b'\n')?;
    Ok(())
}

/// Adds the line of the default list, if there is one.
fn push_default(text: &mut Vec<u8>, dacl: &Option<Acl>) -> Result<(), AllocError>
    ensures { Appends result text.old text.new (default_line dacl.now) }
{
    match dacl {
        Some(dacl) => push_line(text, b"system.posix_acl_default", dacl),
        None => Ok(()),
    }
}

fn push_file(text: &mut Vec<u8>, file: &FoundFile<'_>) -> Result<(), AllocError>
    ensures { Appends result text.old text.new (attr_text file.now) }
{
    push_path(text, file)?;
    let node = file.node();
    push_line(text, b"system.posix_acl_access", &node.label.acl)?;
    push_default(text, &node.dacl)?;
    text.push(b'\n')?;
    Ok(())
}

fn push_files(text: &mut Vec<u8>, files: &[FoundFile<'_>]) -> Result<(), AllocError>
    ensures { Appends result text.old text.new (attr_listing files.now) }
{
    for file in files {
        push_file(text, file)?;
    }
    Ok(())
}

/// Writes what `attr` prints of these files, in their order: for each a line of its path, its access list and, if it
/// has one, its default list as extended attributes of acl(5) in hex digits, and an empty line.
pub fn write_attributes(alloc: Global, files: &[FoundFile<'_>]) -> Result<Vec<u8>, AllocError>
    ensures { IfOk result (λ text. text.items ≡ attr_listing files.now) }
{
    let mut text = Vec::new(alloc);
    push_files(&mut text, files)?;
    Ok(text)
}
