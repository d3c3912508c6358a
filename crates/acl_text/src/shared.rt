//! Values that records share.

ghost use Rattle.std.specs.Prelude.{◌≡◌, IfOk};

use std::alloc::{AllocError, Global};
use std::marker::Model;
use std::rc::Rc;

/// A value that several records may share. To a contract it is the value.
#[derive(Drop)]
pub struct Shared<T> {
    value: Rc<T>,
}

impl<T> Model for Shared<T> {
    ghost Value = { T };

    ghost view = { λ s. s.value.value };
}

impl<T> Shared<T> {
    /// Returns the value.
    pub fn get(&self) -> &T
        ensures { result.now ≡ self.now }
    {
        &self.value
    }
}

impl<T: Drop> Shared<T> {
    /// Wraps a value that nothing shares yet.
    pub(crate) fn new(alloc: Global, value: T) -> Result<Shared<T>, AllocError>
        ensures { IfOk result (λ shared. shared ≡ value) }
    {
        Ok(Shared {
            value: Rc::new(alloc, value)?,
        })
    }

    /// Shares the value.
    pub(crate) fn share(&self) -> Result<Shared<T>, AllocError>
        ensures { IfOk result (λ same. same ≡ self.now) }
    {
        Ok(Shared {
            value: self.value.clone()?,
        })
    }
}
