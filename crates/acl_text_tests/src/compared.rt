//! What is read or written, compared with what a table expects.
use acl_text::TextFault;
use std::alloc::Global;
use std::process::Abort;

/// Adds the bytes.
pub fn push(rt: &impl Abort, text: &mut Vec<u8>, bytes: &[u8]) {
    text.extend_from_slice(bytes).expect(rt, "memory");
}

/// The fault is of this kind, at this place.
pub fn expect_fault(rt: &impl Abort, alloc: Global, found: Option<TextFault>, want: &str) {
    let fault = found.expect(rt, "a fault");
    let text = format!(in alloc; "{:?}, {}", fault.kind, fault.at).expect(rt, "memory");
    assert!(rt; text.as_str() == want, "not {want}");
}

/// The bytes are these.
pub fn expect_same(rt: &impl Abort, found: &[u8], want: &[u8]) {
    assert!(rt; found == want);
}

/// What is compared by a row of a table is as expected.
pub fn expect_row(rt: &impl Abort, at: usize, is_so: bool) {
    assert!(rt; is_so, "row {at}");
}

/// A row of a table gives these bytes.
pub fn expect_bytes(rt: &impl Abort, at: usize, found: &[u8], want: &[u8]) {
    assert!(rt; found == want, "row {at}");
}
