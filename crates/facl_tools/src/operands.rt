//! The operands of a line: files and users.

ghost use Rattle.std.specs.Prelude.{◌≡◌, IfOk};
ghost use Rattle.facl_tools.specs.Replies.{Gives};
ghost use Rattle.facl_tools.specs.Operands.{path_at, paths_from, name_meant, user_at};

use acl_names::{Name, Path, read_name, read_path};
use acl_people::People;
use acl_text::{FaultKind, TextFault, trim};
use acl_tree::{Paths, TreeFault};
use facl_output::{LineFault, Source};
use facl_script::{Word, WordRef};
use std::alloc::{AllocError, Global};

/// Reads the path of the operand at a place, counted from 1.
pub fn path_at(alloc: Global, at: usize, word: &[u8]) -> Result<Path, LineFault>
    ensures { Gives (λ path. path) result (path_at at word.now) }
{
    match read_path(alloc, word)? {
        Some(path) => Ok(path),
        None => Err(LineFault::Text(
            Source::Operand,
            TextFault {
                kind: FaultKind::BadPath,
                at,
            },
        )),
    }
}

/// Reads the paths of the FILE operands of a line.
pub fn paths_of(alloc: Global, words: &[Word]) -> Result<Paths, LineFault>
    ensures { Gives (λ paths. paths) result (paths_from 1 words.now) }
{
    let mut paths = Vec::new(alloc);
    let mut rest = words;
    while let [word, more @ ..] = rest {
        paths.push(path_at(alloc, paths.len() + 1, word.as_bytes())?)?;
        rest = more;
    }
    Ok(Paths::new(paths))
}

/// Reads the name that a word for a user or a group means.
pub fn name_meant(alloc: Global, word: &WordRef<'_>) -> Result<Name, AllocError>
    ensures { IfOk result (λ name. name ≡ name_meant word.now) }
{
    read_name(alloc, trim(word.as_bytes()))
}

/// Finds the place of the user that a word means.
pub fn user_at(alloc: Global, people: &People, word: &WordRef<'_>) -> Result<usize, LineFault>
    ensures { Gives (λ user. user) result (user_at people.now (name_meant word.now)) }
{
    let name = name_meant(alloc, word)?;
    match people.find_user(name.as_bytes()) {
        Some(user) => Ok(user),
        None => Err(LineFault::Tree(TreeFault::NoSuchUser { name })),
    }
}
