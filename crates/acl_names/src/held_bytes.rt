//! Bytes that lie in the value itself while they are few, as those of most paths.

ghost use Rattle.std.specs.Prelude.{◌≡◌, ◌+◌, ◌≤◌, ◌++◌, ◌∷◌, [], List, ℕ, length, take, IfOk, OnOk};
ghost use Rattle.acl_names.specs.Held.{few_in, bytes_in, IsFew, IsHeld};

use std::alloc::{AllocError, Global};
use std::marker::Model;

/// How many bytes are kept with no allocation. A `Path` then takes 48 bytes.
const INLINE_BYTES: usize = 38;

/// A list of bytes.
#[derive(Debug, Drop)]
pub(crate) struct Bytes {
    form: BytesForm,
}

/// How bytes are kept.
#[derive(Debug, Drop)]
pub(crate) enum BytesForm {
    /// In the value.
    Few(FewBytes),
    /// In an allocation.
    Many(Vec<u8>),
}

/// The first `count` bytes of an array.
#[derive(Clone, Copy, Debug, Drop)]
pub(crate) struct FewBytes {
    count: u8,
    array: [u8; INLINE_BYTES],
}

impl Model for Bytes {
    ghost Value = { List ℕ };

    ghost view = { λ b. bytes_in b.form };

    ghost invariant = { λ b. IsHeld b.form };
}

impl Bytes {
    pub(crate) fn new() -> Bytes
        ensures { result ≡ [] }
    {
        Bytes {
            form: BytesForm::Few(FewBytes::new()),
        }
    }

    /// Returns no bytes, with room for `count`. May allocate for more than `INLINE_BYTES`.
    pub(crate) fn with_capacity(alloc: Global, count: usize) -> Result<Bytes, AllocError>
        ensures { IfOk result (λ bytes. bytes ≡ []) }
    {
        if count <= INLINE_BYTES {
            return Ok(Bytes::new());
        }
        let bytes = Vec::with_capacity(alloc, count)?;
        Ok(Bytes {
            form: BytesForm::Many(bytes),
        })
    }

    /// Copies a slice. May allocate for more than `INLINE_BYTES`.
    pub(crate) fn from_slice(alloc: Global, slice: &[u8]) -> Result<Bytes, AllocError>
        ensures { IfOk result (λ bytes. bytes ≡ slice.now) }
    {
        let form = if slice.len() <= INLINE_BYTES {
            let mut few = FewBytes::new();
            few.put(slice);
            BytesForm::Few(few)
        } else {
            BytesForm::Many(Vec::from_slice(alloc, slice)?)
        };
        Ok(Bytes { form })
    }

    /// Copies the bytes. May allocate for more than `INLINE_BYTES`.
    pub(crate) fn try_clone(&self, alloc: Global) -> Result<Bytes, AllocError>
        ensures { IfOk result (λ bytes. bytes ≡ self.now) }
    {
        let form = match &self.form {
            BytesForm::Few(few) => BytesForm::Few(*few),
            BytesForm::Many(bytes) => BytesForm::Many(Vec::from_slice(alloc, bytes)?),
        };
        Ok(Bytes { form })
    }

    #[inline]
    pub(crate) fn as_slice(&self) -> &[u8]
        ensures { result.now ≡ self.now }
    {
        match &self.form {
            BytesForm::Few(few) => few.as_slice(),
            BytesForm::Many(bytes) => bytes,
        }
    }

    /// Adds the bytes `more`, then `end`. If memory runs out, some of them may have been added.
    pub(crate) fn add(&mut self, alloc: Global, more: &[u8], end: u8) -> Result<(), AllocError>
        ensures { OnOk result (self.new ≡ self.old ++ (more.now ++ end ∷ [])) }
    {
        match &mut self.form {
            BytesForm::Few(few) => {
                if more.len() < INLINE_BYTES - usize::from(few.count) {
                    few.put(more);
                    few.put(&[end]);
                } else {
                    let bytes = joined(alloc, few.as_slice(), more, end)?;
                    self.form = BytesForm::Many(bytes);
                }
            }
            BytesForm::Many(bytes) => {
                bytes.extend_from_slice(more)?;
                bytes.push(end)?;
            }
        }
        Ok(())
    }
}

impl FewBytes {
    #[inline]
    fn new() -> FewBytes
        ensures none { few_in result ≡ [] }
        ensures few { IsFew result }
        ensures count { result.count ≡ 0 }
    {
        FewBytes {
            count: 0,
            array: [0; INLINE_BYTES],
        }
    }

    #[inline]
    fn as_slice(&self) -> &[u8]
        requires { IsFew self.now }
        ensures { result.now ≡ few_in self.now }
    {
        &self.array[..usize::from(self.count)]
    }

    /// Adds `more`, for which there is room.
    #[inline]
    fn put(&mut self, more: &[u8])
        requires few { IsFew self.old }
        requires room { self.old.count + length more.now ≤ 38 }
        ensures added { few_in self.new ≡ few_in self.old ++ more.now }
        ensures few { IsFew self.new }
        ensures count { self.new.count ≡ self.old.count + length more.now }
    {
        let at = usize::from(self.count);
        copy_in(&mut self.array, at, more);
        self.count = (at + more.len()) as u8;
    }
}

/// Writes `more` over the bytes from `at` on.
#[inline]
fn copy_in(bytes: &mut [u8], at: usize, more: &[u8])
    requires { at + length more.now ≤ length bytes.old }
    ensures front { take (at + length more.now) bytes.new ≡ take at bytes.old ++ more.now }
    ensures len { length bytes.new ≡ length bytes.old }
{
    bytes[at..at + more.len()].copy_from_slice(more);
}

/// Joins `front`, `more` and `end` in one allocation.
fn joined(alloc: Global, front: &[u8], more: &[u8], end: u8) -> Result<Vec<u8>, AllocError>
    ensures { IfOk result (λ bytes. bytes.items ≡ front.now ++ (more.now ++ end ∷ [])) }
{
    let count = front.len().saturating_add(more.len()).saturating_add(1);
    let mut bytes = Vec::with_capacity(alloc, count)?;
    bytes.extend_from_slice(front)?;
    bytes.extend_from_slice(more)?;
    bytes.push(end)?;
    Ok(bytes)
}
