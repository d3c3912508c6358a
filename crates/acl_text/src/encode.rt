//! Lists written as attributes.

ghost use Rattle.std.specs.Prelude.{◌≡◌, ◌++◌, IfOk, OnOk, Ok};
ghost use Rattle.std.specs.List.{flat_map};
ghost use Rattle.acl_text.specs.Attr.{entry_bytes, attr_bytes, attr_of};

use crate::attr_fields::{ENTRY_BYTES, HEAD_BYTES, VERSION, tag_of, written_id};
use acl_entry::{Acl, Entry};
use byteorder::{ByteOrder, LittleEndian};
use std::alloc::{AllocError, Global};

fn entry_bytes(entry: &Entry) -> [u8; ENTRY_BYTES]
    ensures { result ≡ entry_bytes entry.now }
{
    let mut bytes = [0; ENTRY_BYTES];
    LittleEndian::write_u16(&mut bytes, tag_of(&entry.key));
    LittleEndian::write_u16(&mut bytes[2..], u16::from(entry.perm.number()));
    LittleEndian::write_u32(&mut bytes[4..], written_id(&entry.key));
    bytes
}

fn push_entries(bytes: &mut Vec<u8>, entries: &[Entry]) -> Result<(), AllocError>
    ensures { OnOk result (bytes.new.items ≡ bytes.old.items ++ flat_map entry_bytes entries.now) }
{
    for entry in entries {
        bytes.extend_from_slice(&entry_bytes(entry))?;
    }
    Ok(())
}

/// Returns the attribute of a list: the number 2, and for each entry in list order its tag, its permissions and the
/// id that it names, or 4294967295 if it names nobody; all numbers are little-endian. It is read as that list.
pub fn encode_attr(alloc: Global, acl: &Acl) -> Result<Vec<u8>, AllocError>
    ensures bytes { IfOk result (λ bytes. bytes.items ≡ attr_bytes acl.now) }
    ensures read_again { IfOk result (λ bytes. attr_of bytes.items ≡ Ok acl.now) }
{
    let mut head = [0; HEAD_BYTES];
    LittleEndian::write_u32(&mut head, VERSION);
    let mut bytes = Vec::new(alloc);
    bytes.extend_from_slice(&head)?;
    push_entries(&mut bytes, acl.entries())?;
    Ok(bytes)
}
