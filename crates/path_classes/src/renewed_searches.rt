//! Who can search down to classes, after the rows of their labels changed: found class by class, and then below each
//! that changes.

ghost use Rattle.std.specs.Prelude.{◌≡◌, [], ◌∷◌, ℕ, List, false, IfOk, MatchOption};
ghost use Rattle.acl_names.specs.Paths.{PathOf};
ghost use Rattle.kinds.specs.Kinds.{node_at, count_at, IsNode};
ghost use Rattle.path_classes.specs.PathClasses.{AreClasses, search_at};
ghost use Rattle.path_classes.specs.ClassedRows.{AllInside};
ghost use Rattle.path_classes.specs.Renewing.{IsSearch, AreLinked, HaveLinked, Awaits, RenewsOne, IsAgain, IsFreshAt, IsLinked, IsLinkedAt, FitBut, HasKind, AreRelabelled, is_one, shape_at};

use crate::class_builder::search_of;
use crate::label_row::LabelRow;
use crate::path_class::PathClass;
use crate::searchers::{Searchers, searchers_below};
use crate::tagged_classes::classes_below;
use kinds::{KindMap, KindNumber, Kinds, TaggedMap};
use std::alloc::{AllocError, Global};
use std::rc::Rc;

/// The classes after who can search was found again, and the numbers of those that may have changed.
#[derive(Drop)]
pub(crate) struct RenewedSearches {
    pub(crate) classes: Kinds<PathClass>,
    pub(crate) changed: Vec<usize>,
}

/// The numbers of the classes that wait to be renewed, and of those that changed.
#[derive(Drop)]
struct Queue {
    waiting: Vec<usize>,
    changed: Vec<usize>,
}

/// Returns who can search down to a class, by the class above and the row of the label.
fn searchers_of(
    alloc: Global,
    rows: &Kinds<LabelRow>,
    classes: &Kinds<PathClass>,
    class: &PathClass,
) -> Result<Searchers, AllocError>
    requires { IsLinked rows.now classes.now class.now }
    ensures { IfOk result (IsSearch rows.now classes.now class.now) }
{
    let row = &rows.node(class.kind).row;
    let above = search_of(classes, class.above);
    let search = searchers_below(alloc, above, row.as_slice())?;
    Ok(search)
}

/// Finds again who can search down to a class, which may be the same users; `None` if what the class keeps is right.
pub(crate) fn searched_again(
    alloc: Global,
    rows: &Kinds<LabelRow>,
    classes: &Kinds<PathClass>,
    number: usize,
) -> Result<Option<PathClass>, AllocError>
    requires { IsLinkedAt rows.now classes.now number }
    ensures { IfOk result (λ new. MatchOption new (IsFreshAt rows.now classes.now number) (IsAgain rows.now classes.now number)) }
{
    let Some(class) = classes.get(number) else {
        return Ok(None);
    };
    let Some(old) = &class.search else {
        return Ok(None);
    };
    let search = searchers_of(alloc, rows, classes, class)?;
    if old.is_same(&search) {
        return Ok(None);
    }
    Ok(Some(PathClass {
        kind: class.kind,
        above: class.above,
        depth: class.depth,
        search: Some(search),
    }))
}

/// Finds again who can search down to the class of a number; if others may, the classes right below it wait.
fn renew_one(
    rows: &Kinds<LabelRow>,
    before: &TaggedMap<PathClass>,
    classes: Kinds<PathClass>,
    number: usize,
    queue: &mut Queue,
) -> Result<Kinds<PathClass>, AllocError>
    requires before { AreLinked rows.now before.now.0 }
    requires linked { IsLinkedAt rows.now classes number }
    ensures { IfOk result (RenewsOne rows.now before.now.0 classes number queue.old.waiting.items queue.old.changed.items queue.new.waiting.items queue.new.changed.items) }
{
    let alloc = *queue.waiting.allocator();
    let again = searched_again(alloc, rows, &classes, number)?;
    let Some(class) = again else {
        return Ok(classes);
    };
    let class = Rc::new(alloc, class)?;
    let classes = classes.with_node(number, class)?;
    queue.changed.push(number)?;
    let below = classes_below(alloc, before, number)?;
    queue.waiting.extend_from_slice(&below)?;
    Ok(classes)
}

/// Finds again who can search down to the classes of `waiting`, and to those right below each that changes by that,
/// and so on: so a class that changes has paths only at or below those of `waiting`.
pub(crate) fn renewed_searches(
    alloc: Global,
    rows: &Kinds<LabelRow>,
    before: &TaggedMap<PathClass>,
    waiting: Vec<usize>,
) -> Result<RenewedSearches, AllocError>
    requires linked { AreLinked rows.now before.now.0 }
    requires each { HaveLinked rows.now before.now }
    requires waiting { Awaits rows.now before.now.0 before.now.0 waiting.items [] }
    ensures classes { IfOk result (λ new. Awaits rows.now before.now.0 new.classes [] new.changed.items) }
    ensures inside { IfOk result (λ new. (tops : List PathOf) → AllInside waiting.items tops before.now.1 → AllInside new.changed.items tops before.now.1) }
{
    let changed = Vec::new(alloc);
    let mut queue = Queue { waiting, changed };
    let mut classes = before.kinds().share()?;
    let mut at = 0;
    while at < queue.waiting.len() {
        let number = queue.waiting[at];
        classes = renew_one(rows, before, classes, number, &mut queue)?;
        at += 1;
    }
    let Queue { waiting, changed } = queue;
    drop(waiting);
    Ok(RenewedSearches { classes, changed })
}

/// Returns the classes of the same paths, to some of which other users may search.
pub(crate) fn with_searches(
    alloc: Global,
    before: &TaggedMap<PathClass>,
    classes: Kinds<PathClass>,
) -> Result<TaggedMap<PathClass>, AllocError>
    requires counts { (n : ℕ) → count_at classes n ≡ count_at before.now.0 n }
    requires shapes { (n : ℕ) → shape_at classes n ≡ shape_at before.now.0 n }
    ensures { IfOk result (λ new. new ≡ (classes, before.now.1)) }
{
    let numbers = before.numbers();
    let map = KindMap::of(alloc, classes, numbers.share()?)?;
    let new = before.with_same_tags(map)?;
    Ok(new)
}

/// Returns the classes of the same paths after some rows changed, and the numbers of the classes that may have
/// changed: who can search is found again for the classes that wait; all others fit the rows.
pub(crate) fn renewed_classes(
    alloc: Global,
    rows: &KindMap<LabelRow>,
    before: &TaggedMap<PathClass>,
    waiting: Vec<usize>,
) -> Result<(TaggedMap<PathClass>, Vec<usize>), AllocError>
    requires { FitBut rows.now before.now waiting.items }
    ensures classes { IfOk result (λ new. AreClasses rows.now new.0) }
    ensures paths { IfOk result (λ new. new.0.1 ≡ before.now.1) }
    ensures same { IfOk result (λ new. (n : ℕ) → is_one n new.1.items ≡ false → node_at new.0.0 n ≡ node_at before.now.0 n) }
    ensures inside { IfOk result (λ new. (tops : List PathOf) → AllInside waiting.items tops before.now.1 → AllInside new.1.items tops before.now.1) }
{
    let _classes = before.kinds();
    let labels = rows.kinds();
    let renewed = renewed_searches(alloc, labels, before, waiting)?;
    let RenewedSearches { classes, changed } = renewed;
    let new = with_searches(alloc, before, classes)?;
    Ok((new, changed))
}

/// Shares who can search down to a class, if that is kept.
fn shared_search(search: &Option<Searchers>) -> Result<Option<Searchers>, AllocError>
    ensures { IfOk result (λ same. same ≡ search.now) }
{
    match search {
        Some(search) => Ok(Some(search.share()?)),
        None => Ok(None),
    }
}

fn one_number(alloc: Global, number: usize) -> Result<Vec<usize>, AllocError>
    ensures { IfOk result (λ numbers. numbers.items ≡ number ∷ []) }
{
    let mut numbers = Vec::new(alloc);
    numbers.push(number)?;
    Ok(numbers)
}

/// Gives the class of a number another label.
fn with_kind(
    alloc: Global,
    before: &TaggedMap<PathClass>,
    number: usize,
    kind: KindNumber,
) -> Result<KindMap<PathClass>, AllocError>
    requires { IsNode before.now.0 number }
    ensures { IfOk result (HasKind before.now number kind) }
{
    let numbers = before.numbers();
    let classes = before.kinds();
    let class = classes.node(number);
    let search = shared_search(&class.search)?;
    let new = PathClass {
        kind,
        above: class.above,
        depth: class.depth,
        search,
    };
    let new = Rc::new(alloc, new)?;
    let changed = classes.share()?.with_node(number, new)?;
    let map = KindMap::of(alloc, changed, numbers.share()?)?;
    Ok(map)
}

/// Returns the classes of the same paths after those of one class got another label: its number stays, and nothing
/// below moves. Returns also the numbers of the classes to which others may search now.
pub(crate) fn relabelled_classes(
    alloc: Global,
    rows: &KindMap<LabelRow>,
    before: &TaggedMap<PathClass>,
    number: usize,
    kind: KindNumber,
) -> Result<(TaggedMap<PathClass>, Vec<usize>), AllocError>
    requires { AreRelabelled before.now number kind rows.now }
    ensures classes { IfOk result (λ new. AreClasses rows.now new.0) }
    ensures paths { IfOk result (λ new. new.0.1 ≡ before.now.1) }
    ensures search { IfOk result (λ new. (n : ℕ) → is_one n new.1.items ≡ false → search_at new.0.0 n ≡ search_at before.now.0 n) }
    ensures inside { IfOk result (λ new. (tops : List PathOf) → AllInside (number ∷ []) tops before.now.1 → AllInside new.1.items tops before.now.1) }
{
    let _sound = before.kinds();
    let map = with_kind(alloc, before, number, kind)?;
    let numbers = one_number(alloc, number)?;
    let relabelled = before.after(alloc, map, numbers)?;
    let waiting = one_number(alloc, number)?;
    let new = renewed_classes(alloc, rows, &relabelled, waiting)?;
    Ok(new)
}
