//! Copies and comparisons that are exact.
ghost use Rattle.std.specs.Prelude.{◌≡◌, ◌↔◌, IfOk, IsTrue};

use crate::inlined::Inlined;
use crate::lists::Listed;
use std::alloc::{AllocError, Global};
use std::default::MadeWith;

/// A value of which an equal one can be made, and which can be compared, as contracts see it.
pub trait Exact: Sized + Drop {
    /// The same value again.
    fn copy(&self, alloc: Global) -> Result<Self, AllocError>
        ensures { IfOk result (λ other. other ≡ self.now) };

    /// Whether the two are the same value.
    fn same(&self, other: &Self) -> bool
        ensures { IsTrue result ↔ (self.now ≡ other.now) };
}

impl Exact for u8 {
    fn copy(&self, _alloc: Global) -> Result<u8, AllocError> {
        Ok(*self)
    }

    fn same(&self, other: &u8) -> bool {
        *self == *other
    }
}

impl Exact for u64 {
    fn copy(&self, _alloc: Global) -> Result<u64, AllocError> {
        Ok(*self)
    }

    fn same(&self, other: &u64) -> bool {
        *self == *other
    }
}

impl Exact for i64 {
    fn copy(&self, _alloc: Global) -> Result<i64, AllocError> {
        Ok(*self)
    }

    fn same(&self, other: &i64) -> bool {
        *self == *other
    }
}

impl Exact for bool {
    fn copy(&self, _alloc: Global) -> Result<bool, AllocError> {
        Ok(*self)
    }

    fn same(&self, other: &bool) -> bool {
        *self == *other
    }
}

impl<A: Exact, B: Exact> Exact for (A, B) {
    fn copy(&self, alloc: Global) -> Result<(A, B), AllocError> {
        let first = self.0.copy(alloc)?;
        Ok((first, self.1.copy(alloc)?))
    }

    fn same(&self, other: &(A, B)) -> bool {
        self.0.same(&other.0) && self.1.same(&other.1)
    }
}

impl<T: Exact> Exact for Option<T> {
    fn copy(&self, alloc: Global) -> Result<Option<T>, AllocError> {
        match self {
            None => Ok(None),
            Some(value) => Ok(Some(value.copy(alloc)?)),
        }
    }

    fn same(&self, other: &Option<T>) -> bool {
        match (self, other) {
            (None, None) => true,
            (Some(value), Some(wanted)) => value.same(wanted),
            _ => false,
        }
    }
}

/// The same elements again.
pub fn copied<T: Exact>(alloc: Global, elements: &[T]) -> Result<Vec<T>, AllocError>
    ensures { IfOk result (λ other. other.items ≡ elements.now) }
{
    let mut copies = Vec::with_capacity(alloc, elements.len())?;
    for element in elements {
        copies.push(element.copy(alloc)?)?;
    }
    Ok(copies)
}

/// Whether the two have the same elements.
pub fn are_same<T: Exact>(elements: &[T], others: &[T]) -> bool
    ensures { IsTrue result ↔ (elements.now ≡ others.now) }
{
    if elements.len() != others.len() {
        return false;
    }
    for (i, element) in elements.iter().enumerate() {
        if !element.same(&others[i]) {
            return false;
        }
    }
    true
}

impl<T: Exact> Exact for Listed<T> {
    fn copy(&self, alloc: Global) -> Result<Listed<T>, AllocError> {
        Ok(Listed::from_vec(copied(alloc, self.as_slice())?))
    }

    fn same(&self, other: &Listed<T>) -> bool {
        are_same(self.as_slice(), other.as_slice())
    }
}

impl<T: Exact + MadeWith<Global> + Copy, const N: usize> Exact for Inlined<T, N> {
    #[inline]
    fn copy(&self, alloc: Global) -> Result<Inlined<T, N>, AllocError> {
        Inlined::from_slice(alloc, self.as_slice())
    }

    fn same(&self, other: &Inlined<T, N>) -> bool {
        are_same(self.as_slice(), other.as_slice())
    }
}
