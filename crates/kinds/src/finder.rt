//! A finder: looks up entries by paths that mostly follow one another in path order.

ghost use Rattle.std.specs.Prelude.{◌≡◌, option_and_then};
ghost use Rattle.std.specs.Option.{option_copied};
ghost use Rattle.std.specs.FinMap.{find};
ghost use Rattle.acl_names.specs.Paths.{path_cmp};
ghost use Rattle.kinds.specs.Kinds.{node_at};
ghost use Rattle.kinds.specs.Numbered.{AreUsed, entries_by, entries_in};

use crate::kinds::Kinds;
use crate::map::KindMap;
use acl_names::Path;
use path_map::Finder;
use std::marker::Model;

/// Returns the node of a number, if there is one.
fn node_of<N>(kinds: &Kinds<N>, number: Option<usize>) -> Option<&N>
    ensures { option_copied result ≡ option_and_then (node_at kinds.now) number }
{
    match number {
        Some(number) => kinds.get(number),
        None => None,
    }
}

/// Looks up entries by path.
#[derive(Drop)]
pub struct KindsFinder<'a, N> {
    numbers: Finder<'a, usize>,
    kinds: &'a Kinds<N>,
}

impl<'a, N> Model for KindsFinder<'a, N> {
    ghost use Rattle.std.specs.Prelude.{List};
    ghost use Rattle.acl_names.specs.Paths.{PathOf};
    ghost use Rattle.kinds.specs.Numbered.{AreUsed, entries_by};

    ghost Value = { List (PathOf × N) };

    ghost view = { λ f. entries_by f.kinds.now f.numbers };

    ghost invariant = { λ f. AreUsed f.kinds.now f.numbers };
}

impl<'a, N> KindsFinder<'a, N> {
    fn new(numbers: Finder<'a, usize>, kinds: &'a Kinds<N>) -> KindsFinder<'a, N>
        requires { AreUsed kinds.now numbers }
        ensures { result ≡ entries_by kinds.now numbers.entry }
    {
        KindsFinder { numbers, kinds }
    }

    /// Returns the node of a path, if it has one.
    pub fn get(&mut self, path: &Path) -> Option<&'a N>
        ensures same { self.new ≡ self.old }
        ensures found { option_copied result ≡ find path_cmp path.now self.old }
    {
        let number = self.numbers.get(path);
        node_of(self.kinds, number)
    }
}

impl<N> KindMap<N> {
    /// Returns a finder, which has not searched yet.
    pub fn finder(&self) -> KindsFinder<'_, N>
        ensures { result ≡ entries_in self.now }
    {
        KindsFinder::new(self.numbers().finder(), self.kinds())
    }
}
