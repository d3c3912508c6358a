//! Paths, maps from them to numbers, and what is compared with a table.
use acl_names::{Path, read_path};
use path_map::PathMap;
use std::alloc::Global;
use std::process::Abort;

/// The last digit of a number.
pub fn digit(number: usize) -> u8 {
    b'0' + (number % 10) as u8
}

pub fn path(rt: &impl Abort, alloc: Global, text: &[u8]) -> Path {
    let read = read_path(alloc, text).expect(rt, "memory");
    read.expect(rt, "a path")
}

/// Paths with numbers.
pub type Row = (Path, usize);

/// The paths of texts, with their numbers.
pub fn rows(rt: &impl Abort, alloc: Global, texts: &[(&[u8], usize)]) -> Vec<Row> {
    let mut rows = Vec::new(alloc);
    for (text, value) in texts {
        rows.push((path(rt, alloc, text), *value))
            .expect(rt, "memory");
    }
    rows
}

/// The map with a number put at a path.
fn with_row(rt: &impl Abort, alloc: Global, map: &PathMap<usize>, row: &Row) -> PathMap<usize> {
    map.put_all(alloc, &[(&row.0, row.1)]).expect(rt, "memory")
}

/// The map of rows, which are put one after another.
pub fn map_of(rt: &impl Abort, alloc: Global, rows: &[Row]) -> PathMap<usize> {
    let mut map = PathMap::new(alloc);
    for row in rows {
        map = with_row(rt, alloc, &map, row);
    }
    map
}

/// The bytes are these.
pub fn expect_same(rt: &impl Abort, found: &[u8], want: &[u8]) {
    assert!(rt; found == want);
}

/// A row of a table gives these bytes.
pub fn expect_bytes(rt: &impl Abort, at: usize, found: &[u8], want: &[u8]) {
    assert!(rt; found == want, "row {at}");
}

/// What is compared by a row of a table is as expected.
pub fn expect_row(rt: &impl Abort, at: usize, is_so: bool) {
    assert!(rt; is_so, "row {at}");
}
