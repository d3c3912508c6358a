//! Finds classes for files that come in path order.

ghost use Rattle.std.specs.Prelude.{◌≡◌, [], IfOk, IfSome, Some};
ghost use Rattle.std.specs.Option.{option_copied};
ghost use Rattle.kinds.specs.Kinds.{IsNode};
ghost use Rattle.path_classes.specs.PathClasses.{ClassKinds, AboveKeeps, search_above, depth_below, IsRight};
ghost use Rattle.path_classes.specs.ClassBuilding.{IsKnown, IsRightAt, IsRightAbove, AreRight, AreKept, IsThere, Fills, Keeps, Finds, SameClassesBut};

use crate::class_hints::ClassHints;
use crate::kept_classes::{ClassSources, is_class_of};
use crate::label_row::LabelRow;
use crate::path_class::{ClassNumber, PathClass};
use crate::searchers::{Searchers, searchers_below};
use kinds::{KindNumber, Kinds, push_found};
use std::alloc::{AllocError, Global};
use std::rc::Rc;

/// The classes so far; the numbers of those that the walk found, which are right; the numbers of those below which it
/// searched for other classes, and which may keep who can search since then; and hints at the places of those that
/// are known.
#[derive(Drop)]
pub(crate) struct ClassBuilder {
    pub(crate) classes: Kinds<PathClass>,
    pub(crate) known: Vec<usize>,
    pub(crate) begun: Vec<usize>,
    hints: ClassHints,
}

/// Returns the number at a place, if it is that of the class of the key (`above`, `kind`); with the place.
fn known_at(
    classes: &Kinds<PathClass>,
    known: &[usize],
    place: usize,
    above: Option<ClassNumber>,
    kind: KindNumber,
) -> Option<(usize, usize)>
    ensures { IfSome result (λ found. IsKnown classes.now known.now above kind found.1) }
{
    let number = *known.get(place)?;
    if is_class_of(classes, number, above, kind) {
        Some((place, number))
    } else {
        None
    }
}

/// Returns the class of the key (`above`, `kind`), if it is found; with its place.
fn known_class(
    classes: &Kinds<PathClass>,
    known: &[usize],
    hints: &ClassHints,
    above: Option<ClassNumber>,
    kind: KindNumber,
) -> Option<(usize, usize)>
    ensures { IfSome result (λ found. IsKnown classes.now known.now above kind found.1) }
{
    if let Some(last) = hints.last(kind) {
        if let Some(found) = known_at(classes, known, last, above, kind) {
            return Some(found);
        }
    }
    let place = hints.place(above, kind)?;
    known_at(classes, known, place, above, kind)
}

/// Returns who gets through the class `above`, if there is one.
pub(crate) fn search_of(
    classes: &Kinds<PathClass>,
    above: Option<ClassNumber>,
) -> Option<&Searchers>
    requires { AboveKeeps classes.now above }
    ensures { option_copied result ≡ search_above classes.now above }
{
    let Some(number) = above else {
        return None;
    };
    match classes.get(number) {
        Some(class) => match &class.search {
            Some(search) => Some(search),
            None => unreachable!(),
        },
        None => unreachable!(),
    }
}

/// Adds to a class who can search down to it.
fn with_search(
    alloc: Global,
    rows: &Kinds<LabelRow>,
    classes: &Kinds<PathClass>,
    class: &PathClass,
) -> Result<PathClass, AllocError>
    requires { IsRight rows.now classes.now class.now }
    ensures { IfOk result (λ new. Fills rows.now classes.now class.now new) }
{
    let row = &rows.node(class.kind).row;
    let above = search_of(classes, class.above);
    let search = searchers_below(alloc, above, row.as_slice())?;
    Ok(PathClass {
        kind: class.kind,
        above: class.above,
        depth: class.depth,
        search: Some(search),
    })
}

/// Returns the classes, of which that of `number` keeps who can search down to it.
fn keeping(
    alloc: Global,
    rows: &Kinds<LabelRow>,
    classes: Kinds<PathClass>,
    number: usize,
) -> Result<Kinds<PathClass>, AllocError>
    requires { IsRightAt rows.now classes number }
    ensures { IfOk result (Keeps rows.now classes (Some number)) }
{
    let class = classes.node(number);
    if class.search.is_some() {
        return Ok(classes);
    }
    let new = with_search(alloc, rows, &classes, class)?;
    let new = Rc::new(alloc, new)?;
    classes.with_node(number, new)
}

/// Returns the classes, of which `above`, if there is one, keeps who can search down to it.
fn above_keeping(
    alloc: Global,
    rows: &Kinds<LabelRow>,
    classes: Kinds<PathClass>,
    above: Option<ClassNumber>,
) -> Result<Kinds<PathClass>, AllocError>
    requires { IsRightAbove rows.now classes above }
    ensures { IfOk result (Keeps rows.now classes above) }
{
    match above {
        Some(number) => keeping(alloc, rows, classes, number),
        None => Ok(classes),
    }
}

/// Returns how many directories are above a file right below a class, or below none.
fn depth_below(classes: &Kinds<PathClass>, above: Option<ClassNumber>) -> Result<usize, AllocError>
    requires { IsThere classes.now above }
    ensures { IfOk result (λ depth. depth ≡ depth_below classes.now above) }
{
    let Some(number) = above else {
        return Ok(0);
    };
    let Some(depth) = classes.node(number).depth.checked_add(1) else {
        return Err(AllocError);
    };
    Ok(depth)
}

/// Adds the class of the key (`above`, `kind`).
fn added(
    alloc: Global,
    rows: &Kinds<LabelRow>,
    classes: Kinds<PathClass>,
    above: Option<ClassNumber>,
    kind: KindNumber,
) -> Result<(Kinds<PathClass>, usize), AllocError>
    requires row { IsNode rows.now kind }
    requires above { AboveKeeps classes above }
    ensures { IfOk result (λ new. Finds rows.now classes above kind new.0 new.1) }
{
    let depth = depth_below(&classes, above)?;
    let class = PathClass {
        kind,
        above,
        depth,
        search: None,
    };
    let class = Rc::new(alloc, class)?;
    classes.add(alloc, class)
}

/// Returns the class of a key that the walk has not found yet: one that paths outside have, or a new one.
fn kept_or_added(
    alloc: Global,
    sources: &ClassSources<'_, '_>,
    classes: Kinds<PathClass>,
    above: Option<ClassNumber>,
    kind: KindNumber,
) -> Result<(Kinds<PathClass>, usize), AllocError>
    requires row { IsNode sources.now.rows.now kind }
    requires above { IsRightAbove sources.now.rows.now classes above }
    requires kept { AreKept sources.now.rows.now classes sources.now.kept.now.outside }
    ensures { IfOk result (λ new. Finds sources.now.rows.now classes above kind new.0 new.1) }
{
    if let Some(class) = sources.kept.find(alloc, &classes, above, kind)? {
        return Ok((classes, class));
    }
    let classes = above_keeping(alloc, sources.rows, classes, above)?;
    added(alloc, sources.rows, classes, above, kind)
}

impl ClassBuilder {
    /// Starts from these classes, of which none can be found.
    pub fn new(alloc: Global, classes: Kinds<PathClass>) -> ClassBuilder
        ensures classes { result.classes ≡ classes }
        ensures known { result.known.items ≡ [] }
        ensures begun { result.begun.items ≡ [] }
    {
        ClassBuilder {
            classes,
            known: Vec::new(alloc),
            begun: Vec::new(alloc),
            hints: ClassHints::new(alloc),
        }
    }

    /// Returns the class of the key (`above`, `kind`): one that is known, one that paths outside have, or a new one.
    pub fn class_of(
        self,
        alloc: Global,
        sources: &ClassSources<'_, '_>,
        above: Option<ClassNumber>,
        kind: KindNumber,
    ) -> Result<(ClassBuilder, usize), AllocError>
        requires row { IsNode sources.now.rows.now kind }
        requires above { IsRightAbove sources.now.rows.now self.classes above }
        requires known { AreRight sources.now.rows.now self.classes self.known.items }
        requires kept { AreKept sources.now.rows.now self.classes sources.now.kept.now.outside }
        ensures finds { IfOk result (λ new. Finds sources.now.rows.now self.classes above kind new.0.classes new.1) }
        ensures known { IfOk result (λ new. AreRight sources.now.rows.now new.0.classes new.0.known.items) }
        ensures begun { IfOk result (λ new. (first : ClassKinds) → SameClassesBut self.begun.items first self.classes → SameClassesBut new.0.begun.items first new.0.classes) }
    {
        let ClassBuilder {
            classes,
            mut known,
            mut begun,
            mut hints,
        } = self;
        if let Some((place, class)) = known_class(&classes, &known, &hints, above, kind) {
            hints.set_last(kind, place)?;
            let same = ClassBuilder {
                classes,
                known,
                begun,
                hints,
            };
            return Ok((same, class));
        }
        let (classes, class) = kept_or_added(alloc, sources, classes, above, kind)?;
        hints.add(above, kind, known.len())?;
        known.push(class)?;
        push_found(&mut begun, &[above])?;
        let more = ClassBuilder {
            classes,
            known,
            begun,
            hints,
        };
        Ok((more, class))
    }

    /// Returns the classes, and the numbers of those below which a class was searched for.
    pub fn into_parts(self) -> (Kinds<PathClass>, Vec<usize>)
        ensures classes { result.0 ≡ self.classes }
        ensures begun { result.1.items ≡ self.begun.items }
    {
        let ClassBuilder {
            classes,
            known: _known,
            begun,
            hints: _hints,
        } = self;
        (classes, begun)
    }
}
