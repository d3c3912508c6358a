//! Values that are shared among copies.

ghost use Rattle.std.specs.Prelude.{◌<◌, ◌∷◌, [], length, slice_set};
ghost use Rattle.acl_names.specs.Made.{values, MakesShared, AddsShared};

use std::alloc::{AllocError, Global};
use std::rc::Rc;

/// Adds an item behind a pointer of its own.
pub(crate) fn push_shared<T: Drop>(
    alloc: Global,
    all: &mut Vec<Rc<T>>,
    item: T,
) -> Result<(), AllocError>
    ensures { AddsShared result all.old all.new (item ∷ []) }
{
    all.push(Rc::new(alloc, item)?)?;
    Ok(())
}

/// Puts each item behind a pointer of its own.
pub(crate) fn each_shared<T: Drop>(alloc: Global, items: Vec<T>) -> Result<Vec<Rc<T>>, AllocError>
    ensures { MakesShared result items.items }
{
    let mut all = Vec::with_capacity(alloc, items.len())?;
    for item in items {
        push_shared(alloc, &mut all, item)?;
    }
    Ok(all)
}

/// Replaces the item at a place; the rest are shared.
pub(crate) fn each_but_one<T: Drop>(
    alloc: Global,
    items: &[Rc<T>],
    at: usize,
    item: T,
) -> Result<Vec<Rc<T>>, AllocError>
    requires { at < length items.now }
    ensures { MakesShared result (slice_set (values items.now) at item) }
{
    let item = Rc::new(alloc, item)?;
    let mut all = items.to_vec(alloc)?;
    all[at] = item;
    Ok(all)
}
