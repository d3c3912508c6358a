//! Borrowed paths: the paths above them and those that two have in common are found whatever memory there is.

ghost use Rattle.std.specs.Prelude.{◌≡◌, ◌-◌, ◌++◌, ◌==◌, ℕ, List, length, take, map, IsTrue};
ghost use Rattle.std.specs.List.{list_all};
ghost use Rattle.acl_names.specs.Paths.{is_component, path_cmp};
ghost use Rattle.acl_names.specs.Below.{encloses, parent, common};
ghost use Rattle.acl_names.specs.Packed.{IsPacked, unpacked, borrowed_names, IsBorrowedForm};

use crate::components::{Components, packed_order, packed_parent, packed_within};
use crate::path::Path;
use std::cmp::Ordering;
use std::marker::Model;

/// A borrowed path, or the first components of one.
#[derive(Debug, Drop)]
pub struct PathRef<'a> {
    form: RefForm<'a>,
}

/// How the components of a borrowed path are kept.
#[derive(Clone, Copy, Debug, Drop)]
pub(crate) enum RefForm<'a> {
    /// Each in an allocation of its own.
    Parts(&'a [Vec<u8>]),
    /// In one list of bytes, each with a NUL byte after it.
    Packed(&'a [u8]),
}

impl<'a> Model for PathRef<'a> {
    ghost Value = { List (List ℕ) };

    ghost view = { λ p. borrowed_names p.form };

    ghost invariant = { λ p. IsBorrowedForm p.form };
}

impl<'a> PathRef<'a> {
    /// Returns the path of these components.
    #[inline]
    pub(crate) fn of_parts(parts: &'a [Vec<u8>]) -> PathRef<'a>
        requires { IsTrue (list_all is_component (map (λ v. v.items) parts.now)) }
        ensures { result ≡ map (λ v. v.items) parts.now }
    {
        PathRef {
            form: RefForm::Parts(parts),
        }
    }

    /// Returns the path of components in one list of bytes.
    #[inline]
    pub(crate) fn of_packed(bytes: &'a [u8]) -> PathRef<'a>
        requires { IsPacked bytes.now }
        ensures { result ≡ unpacked bytes.now }
    {
        PathRef {
            form: RefForm::Packed(bytes),
        }
    }

    /// Copies the reference.
    fn again(&self) -> PathRef<'a>
        ensures { result ≡ self.now }
    {
        PathRef { form: self.form }
    }

    /// Returns the components, from the root on.
    pub fn components(&self) -> Components<'a>
        ensures all { result ≡ self.now }
        ensures valid { IsTrue (list_all is_component self.now) }
    {
        match self.form {
            RefForm::Parts(parts) => Components { parts, bytes: &[] },
            RefForm::Packed(bytes) => Components { parts: &[], bytes },
        }
    }

    /// Tells whether it is the root.
    pub fn is_root(&self) -> bool
        ensures { result ≡ (length self.now == 0) }
    {
        self.components().is_empty()
    }

    /// Compares in path order: by components, bytewise, parents first.
    #[inline]
    pub fn order(&self, other: &Path) -> Ordering
        ensures { result ≡ path_cmp self.now other.now }
    {
        match (self.form, other.borrowed().form) {
            (RefForm::Packed(left), RefForm::Packed(right)) => packed_order(left, right),
            _ => self.components().order(other.components()),
        }
    }

    /// Tells whether it is a path or is below it.
    #[inline]
    pub fn is_within(&self, top: &Path) -> bool
        ensures { result ≡ encloses top.now self.now }
    {
        match (top.borrowed().form, self.form) {
            (RefForm::Packed(front), RefForm::Packed(bytes)) => packed_within(front, bytes),
            _ => self.components().are_within(top.components()),
        }
    }

    /// Tells whether a path is this one or is below it.
    fn encloses(&self, path: &Path) -> bool
        ensures { result ≡ encloses self.now path.now }
    {
        match (self.form, path.borrowed().form) {
            (RefForm::Packed(front), RefForm::Packed(bytes)) => packed_within(front, bytes),
            _ => path.components().are_within(self.components()),
        }
    }

    /// Returns the path without its last component: the root is its own parent.
    pub fn parent(&self) -> PathRef<'a>
        ensures { result ≡ parent self.now }
    {
        match self.form {
            RefForm::Parts(parts) => PathRef::of_parts(all_but_last(parts)),
            RefForm::Packed(bytes) => PathRef::of_packed(packed_parent(bytes)),
        }
    }

    /// Drops up to eight of the last components with which `other` does not begin too.
    fn without_others(&self, other: &Path) -> PathRef<'a>
        ensures { common result other.now ≡ common self.now other.now }
    {
        let mut top = self.again();
        for _ in 0..8 {
            if top.encloses(other) {
                return top;
            }
            top = top.parent();
        }
        top
    }

    /// Drops as many of the last components as `last` has.
    fn without_last(&self, last: Components<'_>) -> PathRef<'a>
        ensures { result ≡ take (length self.now - length last.entry) self.now }
    {
        let mut top = self.again();
        let mut rest = last;
        while let Some(_name) = rest.next() {
            top = top.parent();
        }
        top
    }

    /// Returns the longest common prefix of both paths. If all but a few components are the same, the paths are
    /// compared at once, else one component after another.
    pub fn common(&self, other: &Path) -> PathRef<'a>
        ensures { result ≡ common self.now other.now }
    {
        let top = self.without_others(other);
        if top.encloses(other) {
            return top;
        }
        top.without_last(top.components().after_common(other.components()))
    }
}

fn all_but_last(parts: &[Vec<u8>]) -> &[Vec<u8>]
    ensures { result.now ≡ take (length parts.now - 1) parts.now }
{
    parts.split_at(parts.len().saturating_sub(1)).0
}
