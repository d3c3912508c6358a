//! A walk over the entries of a map that operands mean, by search. The operands are in path order.

ghost use Rattle.std.specs.Prelude.{◌≡◌, option_map};
ghost use Rattle.path_map.specs.Entries.{IsInOrder, first, seen};
ghost use Rattle.path_map.specs.Inner.{From};
ghost use Rattle.acl_tree.specs.Changed.{outside};
ghost use Rattle.acl_tree.specs.Inner.{Ascend, TakesFirst};
ghost use Rattle.acl_tree.specs.Operands.{means, files_meant};

use acl_names::Path;
use path_map::{Entries, PathMap};
use std::cmp::Ordering;
use std::marker::Model;

/// Tells whether an operand means a file.
fn means(recursive: bool, operand: &Path, path: &Path) -> bool
    ensures { result ≡ means recursive operand.now path.now }
{
    if recursive {
        path.is_within(operand)
    } else {
        path.order(operand) == Ordering::Equal
    }
}

/// The entries of a map and the operands that are left, both in path order.
#[derive(Drop)]
pub(crate) struct Walk<'a, 'p> {
    numbers: &'a PathMap<usize>,
    rest: Entries<'a, usize>,
    recursive: bool,
    operands: &'p [Path],
}

impl<'a, 'p> Model for Walk<'a, 'p> {
    ghost use Rattle.kinds.specs.Numbered.{Numbers};
    ghost use Rattle.path_map.specs.Inner.{IsEndOf};
    ghost use Rattle.acl_tree.specs.Inner.{Ascend};
    ghost use Rattle.acl_tree.specs.Operands.{files_meant};

    ghost Value = { Numbers × Numbers };

    ghost view = { λ w. (files_meant w.recursive w.operands.now w.rest, w.rest) };

    ghost invariant = { λ w. IsEndOf w.rest w.numbers.now × Ascend w.operands.now };
}

impl<'a, 'p> Walk<'a, 'p> {
    pub fn new(numbers: &'a PathMap<usize>, recursive: bool, operands: &'p [Path]) -> Walk<'a, 'p>
        requires { Ascend operands.now }
        ensures { result ≡ (files_meant recursive operands.now numbers.now, numbers.now) }
    {
        Walk {
            numbers,
            rest: numbers.iter(),
            recursive,
            operands,
        }
    }

    /// Returns the next entry that is meant. Skips by search to the first operand; drops an operand once an entry
    /// lies past it.
    pub fn next(&mut self) -> Option<(&'a Path, usize)>
        ensures { TakesFirst self.old (option_map seen result) self.new }
    {
        self.numbers.order_law();
        while let Some(path) = self.rest.peek() {
            let [operand, more @ ..] = self.operands else {
                return None;
            };
            if means(self.recursive, operand, path) {
                return self.rest.next();
            }
            if path.order(operand) == Ordering::Less {
                self.rest = self.numbers.from(operand);
            } else {
                self.operands = more;
            }
        }
        None
    }

    /// Proof only: the entries that are left are in path order.
    pub fn order_law(&self)
        ensures { IsInOrder self.now.1 }
    {
        self.numbers.order_law();
    }

    /// Skips the entries at or below a path, by search, if none that is left is before it.
    pub fn pass_within(&mut self, top: &Path)
        requires { From top.now self.old.1 }
        ensures { self.new ≡ (outside top.now self.old.0, outside top.now self.old.1) }
    {
        self.numbers.order_law();
        let Some(path) = self.rest.peek() else {
            return;
        };
        if path.is_within(top) {
            self.rest = self.numbers.after(top);
        }
    }

    /// Returns the path of the map's next entry.
    pub fn next_path(&self) -> Option<&'a Path>
        ensures { option_map (λ p. p.now) result ≡ option_map (λ e. e.0) (first self.now.1) }
    {
        self.rest.peek()
    }
}
