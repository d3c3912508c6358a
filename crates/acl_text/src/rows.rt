//! The counted rows of passwd(5) and group(5), and their lines.

ghost use Rattle.std.specs.Prelude.{◌≡◌, ◌≤◌, ◌∷◌, List, MatchOption, length, ℕ};
ghost use Rattle.acl_names.specs.Pieces.{pieces};
ghost use Rattle.acl_text.specs.Rows.{has_no_content};

use acl_entry::Id;
use acl_names::Name;
use acl_names::cut::cut;
use std::marker::Model;

/// A counted row of passwd(5).
#[derive(Drop)]
pub struct PasswdRow {
    pub name: Name,
    pub uid: Id,
    pub gid: Id,
}

/// A counted row of group(5), with the names of its members.
#[derive(Drop)]
pub struct GroupRow {
    pub name: Name,
    pub gid: Id,
    pub names: NameList,
}

/// The names in a group's row, in their order.
#[derive(Drop)]
pub struct NameList {
    names: Vec<Name>,
}

impl Model for NameList {
    ghost use Rattle.std.specs.Prelude.{List, ℕ};

    ghost Value = { List (List ℕ) };

    ghost view = { λ l. l.names.items };
}

impl NameList {
    pub fn new(names: Vec<Name>) -> NameList
        ensures { result ≡ names.items }
    {
        NameList { names }
    }

    /// Returns the names, in their order.
    pub fn as_slice(&self) -> &[Name]
        ensures { result.now ≡ self.now }
    {
        &self.names
    }

    /// Returns the names themselves, in their order.
    pub fn into_names(self) -> Vec<Name>
        ensures { result.items ≡ self }
    {
        self.names
    }
}

/// The most rows of passwd(5), or of group(5), that are counted.
pub const MAX_ROWS: usize = 65536;

/// Tells whether a line is ignored: it is empty or begins with `#`.
pub(crate) fn has_no_content(line: &[u8]) -> bool
    ensures { result ≡ has_no_content line.now }
{
    match line.first() {
        None => true,
        Some(first) => *first == b'#',
    }
}

/// Returns the first two fields of a line, and what comes after them; `None` if it has no more than two.
pub(crate) fn cut_two(line: &[u8]) -> Option<(&[u8], &[u8], &[u8])>
    ensures { MatchOption result (length (pieces 58 line.now) ≤ 2)
        (λ parts. pieces 58 line.now ≡ parts.0.now ∷ parts.1.now ∷ pieces 58 parts.2.now) }
{
    let (first, rest) = cut(line, b':')?;
    let (second, after) = cut(rest, b':')?;
    Some((first, second, after))
}
