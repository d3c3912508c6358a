//! The file of a path, and how its path is printed: as it is now, or as it was.

ghost use Rattle.std.specs.Prelude.{◌≡◌, ◌∷◌, [], false, IfOk, option_map};
ghost use Rattle.acl_tree.specs.Found.{files_found};
ghost use Rattle.facl_answers.specs.PathTexts.{text_in, text_in_tree};

use crate::index::path_shown;
use acl_names::Path;
use acl_tree::{FoundFile, Paths, Selection, Tree};
use std::alloc::{AllocError, Global};

/// Returns the path of the root.
pub fn root(alloc: Global) -> Path
    ensures { result ≡ [] }
{
    Path::new(Vec::new(alloc)).unwrap()
}

/// Returns the file of a path, if it is recorded.
pub fn files_at<'a>(
    alloc: Global,
    tree: &'a Tree,
    path: &Path,
) -> Result<Vec<FoundFile<'a>>, AllocError>
    ensures { IfOk result (λ files. files.items ≡ files_found false (path.now ∷ []) tree.now.files) }
{
    if tree.get(path).is_none() {
        return Ok(Vec::new(alloc));
    }
    let mut list = Vec::new(alloc);
    list.push(path.try_clone(alloc)?)?;
    let paths = Paths::new(list);
    let selection = Selection {
        operands: &paths,
        recursive: false,
    };
    match tree.files(alloc, &selection) {
        Ok(files) => Ok(files),
        Err(fault) => {
            drop(fault);
            Err(AllocError)
        }
    }
}

/// Returns the path of a file as it is printed, if it is recorded.
fn text_in_tree(alloc: Global, tree: &Tree, path: &Path) -> Result<Option<Vec<u8>>, AllocError>
    ensures { IfOk result (λ text. option_map (λ t. t.items) text ≡ text_in_tree tree.now.files path.now) }
{
    let files = files_at(alloc, tree, path)?;
    match files.first() {
        Some(file) => Ok(Some(path_shown(alloc, file)?)),
        None => Ok(None),
    }
}

/// Returns the path of a file as it is printed now, or as it was printed.
pub fn text_of(alloc: Global, loaded: &Tree, now: &Tree, path: &Path) -> Result<Vec<u8>, AllocError>
    ensures { IfOk result (λ text. text.items ≡ text_in loaded.now now.now path.now) }
{
    if let Some(text) = text_in_tree(alloc, now, path)? {
        return Ok(text);
    }
    match text_in_tree(alloc, loaded, path)? {
        Some(text) => Ok(text),
        None => Ok(Vec::new(alloc)),
    }
}
