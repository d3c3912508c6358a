//! A walk over files in path order that finds their classes: by the file's label and the class of the nearest
//! recorded directory above, which a stack of ancestors has.

ghost use Rattle.std.specs.Prelude.{◌≡◌, ◌≤◌, ◌++◌, ◌∷◌, [], map, length, take, is_ok, IfOk, if◌then◌else◌};
ghost use Rattle.std.specs.Option.{option_or};
ghost use Rattle.path_map.specs.Entries.{IsInOrder, seen};
ghost use Rattle.kinds.specs.Numbered.{AreUsed};
ghost use Rattle.path_classes.specs.Walks.{last_of};
ghost use Rattle.path_classes.specs.ClassBuilding.{IsRightAbove, AreRight, AreKept, AreWalked, SameClassesBut};
ghost use Rattle.path_classes.specs.PathClasses.{ClassKinds};

use crate::class_builder::ClassBuilder;
use crate::kept_classes::ClassSources;
use crate::path_class::ClassNumber;
use crate::stack::{depth_above, last};
use acl_names::Path;
use path_map::Within;
use std::alloc::{AllocError, Global};

/// Returns the class of the last of the first `depth` files of a stack; `over` if there is none.
fn last_class(files: &[(&Path, usize)], depth: usize, over: Option<ClassNumber>) -> Option<usize>
    requires { depth ≤ length files.now }
    ensures { result ≡ option_or (last_of (take depth (map seen files.now))) over }
{
    match last(files.split_at(depth).0) {
        Some(class) => Some(*class),
        None => over,
    }
}

/// Puts a file on a stack in place of those after the first `depth`.
fn put<'a>(
    files: &mut Vec<(&'a Path, usize)>,
    depth: usize,
    path: &'a Path,
    class: ClassNumber,
) -> Result<(), AllocError>
    requires { depth ≤ length files.old.items }
    ensures { map seen files.new.items ≡ (if is_ok result then take depth (map seen files.old.items) ++ (path.now, class) ∷ [] else take depth (map seen files.old.items)) }
{
    files.truncate(depth);
    files.push((path, class))?;
    Ok(())
}

/// Returns the classes of the files at or below a path, in one pass: those whose ancestors are not among these files
/// are right below the class `over`, or below none.
pub(crate) fn walk<'a, 'p>(
    alloc: Global,
    sources: &ClassSources<'_, '_>,
    builder: ClassBuilder,
    over: Option<ClassNumber>,
    files: Within<'a, 'p, usize>,
) -> Result<(ClassBuilder, Vec<(&'a Path, usize)>), AllocError>
    requires order { IsInOrder files }
    requires used { AreUsed sources.now.rows.now files }
    requires over { IsRightAbove sources.now.rows.now builder.classes over }
    requires known { AreRight sources.now.rows.now builder.classes builder.known.items }
    requires kept { AreKept sources.now.rows.now builder.classes sources.now.kept.now.outside }
    ensures walked { IfOk result (λ new. AreWalked sources.now.rows.now files.entry over builder.classes new.0.classes (map seen new.1.items)) }
    ensures known { IfOk result (λ new. AreRight sources.now.rows.now new.0.classes new.0.known.items) }
    ensures begun { IfOk result (λ new. (first : ClassKinds) → SameClassesBut builder.begun.items first builder.classes → SameClassesBut new.0.begun.items first new.0.classes) }
{
    let mut builder = builder;
    let mut stack = Vec::new(alloc);
    let mut made = Vec::new(alloc);
    let mut rest = files;
    while let Some((path, kind)) = rest.next() {
        let depth = depth_above(&stack, path);
        let above = last_class(&stack, depth, over);
        let (next, class) = builder.class_of(alloc, sources, above, kind)?;
        builder = next;
        put(&mut stack, depth, path, class)?;
        made.push((path, class))?;
    }
    Ok((builder, made))
}
