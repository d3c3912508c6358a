//! The text of a path whose components are in one list of bytes, added at once.

ghost use Rattle.std.specs.Prelude.{◌≡◌, ◌≤◌, ◌++◌, length, take, drop, map, true, false};
ghost use Rattle.std.specs.List.{list_any};
ghost use Rattle.acl_names.specs.Appends.{Appends};
ghost use Rattle.acl_names.specs.Names.{is_escaped_in_paths};
ghost use Rattle.acl_names.specs.Packed.{IsPacked, unpacked, with_slash};
ghost use Rattle.acl_names.specs.Paths.{path_text};

use std::alloc::AllocError;

/// Tells whether no byte is written as an escape in paths.
pub(crate) fn is_plain(bytes: &[u8]) -> bool
    ensures { result ≡ true → list_any is_escaped_in_paths bytes.now ≡ false }
{
    if bytes.contains(&b'\\') {
        return false;
    }
    if bytes.contains(&b'\n') {
        return false;
    }
    !bytes.contains(&b'\r')
}

/// Adds the text of a path of which no byte is written as an escape: its bytes, without the last NUL byte, and with a
/// `/` for each other one.
pub(crate) fn push_packed(text: &mut Vec<u8>, bytes: &[u8]) -> Result<(), AllocError>
    requires packed { IsPacked bytes.now }
    requires plain { list_any is_escaped_in_paths bytes.now ≡ false }
    ensures { Appends result text.old text.new (path_text (unpacked bytes.now)) }
{
    let Some((_, front)) = bytes.split_last() else {
        text.push(b'.')?;
        return Ok(());
    };
    let before = text.len();
    text.extend_from_slice(front)?;
    put_slashes_from(text, before);
    Ok(())
}

/// Puts a `/` in the place of each NUL byte from a place on.
fn put_slashes_from(text: &mut Vec<u8>, from: usize)
    requires { from ≤ length text.old.items }
    ensures { text.new.items ≡ take from text.old.items ++ map with_slash (drop from text.old.items) }
{
    put_slashes(&mut text[from..]);
}

/// Puts a `/` in the place of each NUL byte.
fn put_slashes(bytes: &mut [u8])
    ensures { bytes.new ≡ map with_slash bytes.old }
{
    for b in bytes.iter_mut() {
        *b = with_slash(*b);
    }
}

/// Returns `/` for a NUL byte, and any other byte as it is.
#[inline]
fn with_slash(b: u8) -> u8
    ensures { result ≡ with_slash b }
{
    if b == 0 { b'/' } else { b }
}
