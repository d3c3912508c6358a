//! Names and their escapes, and texts that are cut at a separator.
use crate::numbered_paths::{expect_bytes, expect_same};
use acl_names::cut::{cut, find, first_piece};
use acl_names::{append_name, read_name, write_name};

/// A text, and the name that it is read as.
static ESCAPES: [(&[u8], &[u8]); 8] = [
    (b"al\\040b", b"al b"),
    (b"\\\\400", b"\\400"),
    (b"\\400", b"\\400"),
    (b"\\377\\000", b"\xff\x00"),
    (b"\\1", b"\\1"),
    (b"\\12", b"\\12"),
    (b"\\189", b"\\189"),
    (b"a\\", b"a\\"),
];

#[test]
fn escapes_are_read(rt: HostRuntime) {
    for (at, (text, want)) in ESCAPES.iter().enumerate() {
        let name = read_name(rt.alloc(), text).expect(&rt, "memory");
        expect_bytes(&rt, at, name.as_bytes(), want);
    }
}

#[test]
fn escapes_are_written(rt: HostRuntime) {
    let text = write_name(rt.alloc(), b"al b\\:,#\t\r\nx").expect(&rt, "memory");
    expect_same(&rt, &text, b"al\\040b\\134\\072\\054\\043\\011\\015\\012x");
}

#[test]
fn each_byte_is_read_as_it_was_written(rt: HostRuntime) {
    for byte in 0..=255u8 {
        let name = [byte, b'0', byte];
        let text = write_name(rt.alloc(), &name).expect(&rt, "memory");
        let again = read_name(rt.alloc(), &text).expect(&rt, "memory");
        expect_bytes(&rt, usize::from(byte), again.as_bytes(), &name);
    }
}

#[test]
fn a_name_after_a_text(rt: HostRuntime) {
    let mut text = Vec::from_slice(rt.alloc(), b"u:").expect(&rt, "memory");
    append_name(&mut text, b"al b").expect(&rt, "memory");
    expect_same(&rt, &text, b"u:al\\040b");
}

/// A text, and its parts before and after the first colon.
static CUTS: [(&[u8], &[u8], &[u8]); 2] = [(b"a:b:c", b"a", b"b:c"), (b":", b"", b"")];

#[test]
fn texts_are_cut_at_the_first_separator(rt: HostRuntime) {
    for (text, before, after) in &CUTS {
        assert!(rt; cut(text, b':') == Some((*before, *after)));
    }
    assert!(rt; cut(b"abc", b':').is_none() && cut(b"", b':').is_none());
}

#[test]
fn the_first_piece_of_a_text(rt: HostRuntime) {
    assert!(rt; first_piece(b"ab:c:", b':') == (b"ab".as_slice(), b"c:".as_slice()));
    assert!(rt; first_piece(b"ab", b':') == (b"ab".as_slice(), b"".as_slice()));
    assert!(rt; find(b"ab:c:", b':') == Some(2) && find(b"ab", b':').is_none());
}
