//! What `index` prints: what each user may do with each file.

ghost use Rattle.std.specs.Prelude.{◌≡◌, map, IfOk};
ghost use Rattle.std.specs.List.{flat_map};
ghost use Rattle.acl_names.specs.Appends.{Appends};
ghost use Rattle.acl_names.specs.Names.{escaped};
ghost use Rattle.facl_output.specs.Listings.{path_shown};
ghost use Rattle.facl_answers.specs.Answers.{hex_digits, verdict_line, index_text};
ghost use Rattle.facl_answers.specs.Inner.{files_left, row_lines, row_text, rowed_file, walked};

use crate::changes::row_or_none;
use crate::file_walk::{FileInClass, Walk};
use acl_entry::Requests;
use acl_names::write_name;
use acl_people::People;
use acl_rights::{IndexedState, Judge};
use acl_tree::FoundFile;
use facl_output::push_path_shown;
use std::alloc::{AllocError, Global};

const DIGITS: [u8; 16] = *b"0123456789abcdef";

/// Adds a byte as two hex digits.
pub fn push_hex(text: &mut Vec<u8>, byte: u8) -> Result<(), AllocError>
    ensures { Appends result text.old text.new (hex_digits byte) }
{
    text.push(DIGITS[(byte / 16) as usize])?;
    text.push(DIGITS[(byte % 16) as usize])?;
    Ok(())
}

/// Adds the line of a user and a file.
fn push_line(
    text: &mut Vec<u8>,
    granted: Requests,
    name: &[u8],
    path: &[u8],
) -> Result<(), AllocError>
    ensures { Appends result text.old text.new (verdict_line granted name.now path.now) }
{
    push_hex(text, granted.bits())?;
    text.push(b' ')?;
    text.extend_from_slice(name)?;
    text.push(b' ')?;
    text.extend_from_slice(path)?;
    text.push(b'\n')?;
    Ok(())
}

/// Adds the lines of a path: the verdicts on the users of these names.
fn push_row(
    text: &mut Vec<u8>,
    names: &[Vec<u8>],
    row: &[Requests],
    path: &[u8],
) -> Result<(), AllocError>
    ensures { Appends result text.old text.new (row_lines path.now (map (λ n. n.items) names.now) row.now) }
{
    let mut rest = row;
    for name in names {
        let [granted, more @ ..] = rest else {
            return Ok(());
        };
        push_line(text, *granted, name, path)?;
        rest = more;
    }
    Ok(())
}

/// Returns the path of a found file as it is printed.
pub fn path_shown(alloc: Global, file: &FoundFile<'_>) -> Result<Vec<u8>, AllocError>
    ensures { IfOk result (λ path. path.items ≡ path_shown file.now) }
{
    let mut path = Vec::new(alloc);
    push_path_shown(&mut path, file)?;
    Ok(path)
}

/// Adds the lines of a file before those of `rest`, by the row of its class.
fn push_file(
    alloc: Global,
    text: &mut Vec<u8>,
    names: &[Vec<u8>],
    rest: &Walk<'_>,
    file: &FileInClass<'_>,
) -> Result<(), AllocError>
    ensures { Appends result text.old text.new (row_text (map (λ n. n.items) names.now) (rowed_file (walked rest.now) file.now)) }
{
    let found = file.found(rest);
    let path = path_shown(alloc, &found)?;
    let row = rest.classes.row(alloc, file.class)?;
    push_row(text, names, row_or_none(&row), &path)
}

/// Adds the lines of the files that are left of a walk.
fn push_files(
    alloc: Global,
    text: &mut Vec<u8>,
    names: &[Vec<u8>],
    rest: &mut Walk<'_>,
) -> Result<(), AllocError>
    ensures { Appends result text.old text.new (flat_map (row_text (map (λ n. n.items) names.now)) (files_left (walked rest.old))) }
{
    while let Some(file) = rest.next(alloc)? {
        push_file(alloc, text, names, rest, &file)?;
    }
    Ok(())
}

/// Returns the names of all users, as they are printed.
pub fn written_names(alloc: Global, people: &People) -> Result<Vec<Vec<u8>>, AllocError>
    ensures { IfOk result (λ names. map (λ n. n.items) names.items ≡ map (λ row. escaped row.name) people.now.users) }
{
    let mut names = Vec::new(alloc);
    for user in 0..people.users() {
        if let Some(row) = people.user_row(user) {
            names.push(write_name(alloc, row.name.as_bytes())?)?;
        }
    }
    Ok(names)
}

/// Writes what `index` prints: for each file in path order and each user in the order of the rows a line of the
/// requests that the user is granted, as two hex digits, the user's name and the path.
pub fn write_index<J: Judge>(
    alloc: Global,
    indexed: &IndexedState<J>,
) -> Result<Vec<u8>, AllocError>
    ensures { IfOk result (λ text. text.items ≡ index_text J.verdict_of indexed.now) }
{
    let names = written_names(alloc, indexed.state().people())?;
    let mut text = Vec::new(alloc);
    let verdicts = indexed.verdicts(false);
    let mut files = Walk::of_verdicts(alloc, &verdicts);
    push_files(alloc, &mut text, &names, &mut files)?;
    Ok(text)
}
