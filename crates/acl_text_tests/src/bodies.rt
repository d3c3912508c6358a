//! Dumps whose records have bodies that are the same, or nearly so: a body is all lines of a record after its
//! `# file:` line.
use crate::compared::expect_row;
use crate::dumps::{Row, expect_faults};
use crate::people::People;
use acl_entry::Id;
use acl_text::{DumpUse, read_dump};

/// The fault of one record among others of the same body. White space is space and tab, so a line that ends in a
/// carriage return has it in its value.
static FAULTS: [Row; 6] = [
    (
        b"#file:a\nu::7\ng::7\no::7\n#file:b\nu::7\ng::7\no::7\n#file:c\nu::7\ng::7\no::8\n",
        "BadPerms, 12",
    ),
    (
        b"#file:a\nu::7\ng::7\no::7\n#file:b\nu::7\ng::7\no::7\n#file:c\r\nu::7\r\ng::7\r\no::7\r\n",
        "BadPerms, 10",
    ),
    (
        b"#file:a\n#owner:joe\nu::7\ng::7\no::7\n#file:b\n#owner:joe\r\nu::7\ng::7\no::7\n",
        "UnknownUser, 7",
    ),
    (
        b"#file:a\nu::7\ng::7\no::7\n#file:b\nu::7\ng::7\no::7\n#file:\\141\nu::7\ng::7\no::7\n",
        "RepeatedFile, 9",
    ),
    (
        b"#file:a\nu::7\ng::7\no::7\n#file:a\nu::7\ng::7\no::8\n",
        "RepeatedFile, 5",
    ),
    (
        b"#file:a\nu::7\ng::7\no::8\n#file:a\nu::7\ng::7\no::7\n",
        "BadPerms, 4",
    ),
];

#[test]
fn one_fault_among_many(rt: HostRuntime) {
    expect_faults(&rt, rt.alloc(), DumpUse::Restore, &FAULTS);
}

/// Records of one body whose names have escapes, slashes and no newline at the end.
const ESCAPED: &[u8] =
    b"#file:a\\040b\n#owner:joe\nu::7\ng::5\no::1\n#file:a\\011b/\n#owner:joe\nu::7\ng::5\no::1\n#file:a\\\\b\n#owner:joe\nu::7\ng::5\no::1";

/// Their one component, whether a slash is written after it, and the line.
static NAMES: [(&[u8], bool, usize); 3] = [
    (b"a b", false, 1),
    (b"a\tb", true, 6),
    (b"a\\b", false, 11),
];

#[test]
fn names_with_escapes(rt: HostRuntime) {
    let records = read_dump(rt.alloc(), ESCAPED, DumpUse::Restore, &People).expect(&rt, "a dump");
    assert!(rt; records.len() == 3);
    for (row, (record, (name, slash, at))) in records.iter().zip(NAMES.iter()).enumerate() {
        let mut rest = record.path.components();
        expect_row(&rt, row, rest.next() == Some(*name) && rest.is_empty());
        expect_row(&rt, row, record.slash == *slash && record.at == *at);
        expect_row(
            &rt,
            row,
            record.owner == Id::new(1000) && record.access.get().mode() == 0o751,
        );
    }
}
