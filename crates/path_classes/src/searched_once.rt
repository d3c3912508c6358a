//! Who can search down to classes after all rows may have changed: each class is mostly searched again once, after the one
//! above it.

ghost use Rattle.std.specs.Prelude.{◌≡◌, get_or, false, IfOk, IfSome, OnOk};
ghost use Rattle.kinds.specs.Kinds.{node_at};
ghost use Rattle.path_classes.specs.Renewing.{AreLinked, AreSearched, AreRenewed, IsLinkedAt, Marks, SearchesOne, is_marked_above, is_next};

use crate::label_row::LabelRow;
use crate::path_class::{ClassNumber, PathClass};
use crate::renewed_searches::searched_again;
use kinds::{Kinds, TaggedMap};
use std::alloc::{AllocError, Global};
use std::rc::Rc;

/// How often a class may be tried, on average, before the search gives up.
const MAX_PASSES: usize = 8;

fn is_marked(marks: &[bool], number: usize) -> bool
    ensures { result ≡ get_or marks.now number false }
{
    number < marks.len() && marks[number]
}

/// Tells whether the class above is marked, if there is one.
fn is_marked_above(marks: &[bool], above: Option<ClassNumber>) -> bool
    ensures { result ≡ is_marked_above marks.now above }
{
    match above {
        Some(number) => is_marked(marks, number),
        None => true,
    }
}

/// Tells whether a class is not marked, and the class above is.
fn is_next(classes: &Kinds<PathClass>, marks: &[bool], number: usize) -> bool
    ensures { result ≡ is_next marks.now number (node_at classes.now number) }
{
    match classes.get(number) {
        Some(class) => !is_marked(marks, number) && is_marked_above(marks, class.above),
        None => false,
    }
}

fn mark(marks: &mut Vec<bool>, number: usize) -> Result<(), AllocError>
    ensures { OnOk result (Marks marks.old.items number marks.new.items) }
{
    while marks.len() <= number {
        marks.push(false)?;
    }
    marks[number] = true;
    Ok(())
}

/// Searches the class of a number again and marks the number, if the class above is marked; else puts it off.
fn search_next(
    rows: &Kinds<LabelRow>,
    classes: Kinds<PathClass>,
    number: usize,
    marks: &mut Vec<bool>,
    waiting: &mut Vec<usize>,
) -> Result<Kinds<PathClass>, AllocError>
    requires { IsLinkedAt rows.now classes number }
    ensures { IfOk result (SearchesOne rows.now classes number marks.old.items waiting.old.items marks.new.items waiting.new.items) }
{
    if !is_next(&classes, marks.as_slice(), number) {
        waiting.push(number)?;
        return Ok(classes);
    }
    mark(marks, number)?;
    let alloc = *waiting.allocator();
    let again = searched_again(alloc, rows, &classes, number)?;
    let Some(class) = again else {
        return Ok(classes);
    };
    let class = Rc::new(alloc, class)?;
    let new = classes.with_node(number, class)?;
    Ok(new)
}

/// Searches each class of `searched` again once, after the one above it; none is put off if the numbers rise from
/// above to below. `None` if they are put off too often.
pub(crate) fn searched_once(
    alloc: Global,
    rows: &Kinds<LabelRow>,
    before: &TaggedMap<PathClass>,
    searched: &[usize],
) -> Result<Option<Kinds<PathClass>>, AllocError>
    requires linked { AreLinked rows.now before.now.0 }
    requires searched { AreSearched before.now.0 searched.now }
    ensures { IfOk result (λ found. IfSome found (AreRenewed rows.now before.now.0)) }
{
    let most = searched.len().saturating_mul(MAX_PASSES);
    let mut waiting = Vec::new(alloc);
    waiting.extend_from_slice(searched)?;
    let mut marks = Vec::new(alloc);
    let mut classes = before.kinds().share()?;
    let mut at = 0;
    while at < waiting.len() {
        if at >= most {
            return Ok(None);
        }
        let number = waiting[at];
        classes = search_next(rows, classes, number, &mut marks, &mut waiting)?;
        at += 1;
    }
    Ok(Some(classes))
}
