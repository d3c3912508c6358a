//! The path classes of files.

ghost use Rattle.std.specs.Prelude.{◌≡◌, [], IfOk};
ghost use Rattle.path_classes.specs.PathClasses.{AreClasses};

use crate::class_builder::ClassBuilder;
use crate::class_walk::walk;
use crate::kept_classes::{ClassSources, KeptClasses};
use crate::label_row::LabelRow;
use crate::path_class::PathClass;
use acl_names::Path;
use kinds::{KindMap, Kinds};
use std::alloc::{AllocError, Global};

fn root(alloc: Global) -> Path
    ensures { result ≡ [] }
{
    match Path::new(Vec::new(alloc)) {
        Some(root) => root,
        None => unreachable!(),
    }
}

/// Finds the classes of all files.
pub(crate) fn classes_of(
    alloc: Global,
    rows: &KindMap<LabelRow>,
) -> Result<KindMap<PathClass>, AllocError>
    ensures { IfOk result (AreClasses rows.now) }
{
    let numbers = rows.numbers();
    let kinds = rows.kinds();
    let top = root(alloc);
    let files = numbers.within(&top);
    let kept = KeptClasses::none(alloc)?;
    let none = ClassBuilder::new(alloc, Kinds::new(alloc));
    let sources = ClassSources {
        rows: kinds,
        kept: &kept,
    };
    let (walked, made) = walk(alloc, &sources, none, None, files)?;
    let (classes, _begun) = walked.into_parts();
    KindMap::renumbered(alloc, numbers, classes, &made)
}
