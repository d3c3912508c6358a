//! A stack of the ancestors of a path, while paths are walked in their order.

ghost use Rattle.std.specs.Prelude.{◌≡◌, ◌≤◌, length, map, take};
ghost use Rattle.std.specs.Option.{option_copied};
ghost use Rattle.path_map.specs.Entries.{seen};
ghost use Rattle.path_classes.specs.Walks.{last_of, AllBefore, IsLeftAbove};

use acl_names::Path;

/// Returns how many entries of a stack stay after those that are not ancestors of a path are popped.
pub(crate) fn depth_above<T>(stack: &[(&Path, T)], path: &Path) -> usize
    requires before { AllBefore path.now (map seen stack.now) }
    ensures most { result ≤ length stack.now }
    ensures left { IsLeftAbove path.now (map seen stack.now) (take result (map seen stack.now)) }
{
    let mut depth = stack.len();
    while 0 < depth {
        if path.is_within(stack[depth - 1].0) {
            return depth;
        }
        depth -= 1;
    }
    depth
}

/// Returns what is known at the top of a stack.
pub(crate) fn last<'a, T>(stack: &'a [(&Path, T)]) -> Option<&'a T>
    ensures { option_copied result ≡ last_of (map seen stack.now) }
{
    if stack.is_empty() {
        return None;
    }
    Some(&stack[stack.len() - 1].1)
}
