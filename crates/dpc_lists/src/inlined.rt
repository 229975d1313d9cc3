//! A short list that needs no memory, and that contracts see as a list of its elements.
ghost use Rattle.std.specs.Prelude.{◌≡◌, ◌∷◌, ◌++◌, [], length, IfOk, OnOk};
ghost use Rattle.std.specs.Cmp.Lexicographic.{pointwise, slice_cmp, slice_partial_cmp, lists_per, lists_equiv, lists_po, lists_total, lists_agrees, lists_ties};

use smallvec::SmallVec;
use std::alloc::{AllocError, Global};
use std::cmp::Ordering;
use std::default::MadeWith;
use std::marker::Model;

/// The elements in order. Up to `N` of them lie in the value itself, and more in an allocation.
#[derive(Drop)]
pub struct Inlined<T, const N: usize> {
    elements: SmallVec<T, N>,
}

impl<T, const N: usize> Model for Inlined<T, N> {
    ghost use Rattle.std.specs.Prelude.{List};

    ghost Value = { List T };

    ghost view = { λ l. l.elements.items };
}

impl<T, const N: usize> Inlined<T, N> {
    /// The elements as a slice.
    #[inline]
    pub fn as_slice(&self) -> &[T]
        ensures { result.now ≡ self.now }
    {
        self.elements.as_slice()
    }

    /// How many elements there are.
    #[inline]
    pub fn len(&self) -> usize
        ensures { result ≡ length self.now }
    {
        self.elements.len()
    }
}

impl<T: MadeWith<Global> + Copy, const N: usize> Inlined<T, N> {
    /// The list with no element. It takes no memory.
    #[inline]
    pub fn new(alloc: Global) -> Inlined<T, N>
        ensures { result ≡ [] }
    {
        Inlined {
            elements: SmallVec::new(alloc),
        }
    }

    /// The list with no element, and room for so many.
    #[inline]
    pub fn with_capacity(alloc: Global, room: usize) -> Result<Inlined<T, N>, AllocError>
        ensures { IfOk result (λ l. l ≡ []) }
    {
        let elements = SmallVec::with_capacity(alloc, room)?;
        Ok(Inlined { elements })
    }

    /// The list of these elements.
    #[inline]
    pub fn from_slice(alloc: Global, elements: &[T]) -> Result<Inlined<T, N>, AllocError>
        ensures { IfOk result (λ l. l ≡ elements.now) }
    {
        let elements = SmallVec::from_slice(alloc, elements)?;
        Ok(Inlined { elements })
    }

    /// Appends an element.
    #[inline]
    pub fn push(&mut self, element: T) -> Result<(), AllocError>
        ensures { OnOk result (self.new ≡ self.old ++ element ∷ []) }
    {
        self.elements.push(element)?;
        Ok(())
    }

    /// Appends elements.
    #[inline]
    pub fn extend_from_slice(&mut self, elements: &[T]) -> Result<(), AllocError>
        ensures { OnOk result (self.new ≡ self.old ++ elements.now) }
    {
        self.elements.extend_from_slice(elements)
    }
}

impl<T: PartialEq, const N: usize> PartialEq for Inlined<T, N> {
    ghost eq = { λ v w. pointwise T.eq v w };

    ghost laws = { lists_per T.laws };

    #[inline]
    fn eq(&self, other: &Self) -> bool {
        self.as_slice() == other.as_slice()
    }
}

impl<T: Eq, const N: usize> Eq for Inlined<T, N> {
    ghost laws = { lists_equiv T.Eq.laws };
}

impl<T: PartialOrd, const N: usize> PartialOrd for Inlined<T, N> {
    ghost partial_cmp = { λ v w. slice_partial_cmp T.partial_cmp v w };

    ghost laws = { lists_po T.PartialOrd.laws };

    #[inline]
    fn partial_cmp(&self, other: &Self) -> Option<Ordering> {
        self.as_slice().partial_cmp(&other.as_slice())
    }
}

impl<T: Ord, const N: usize> Ord for Inlined<T, N> {
    ghost cmp = { λ v w. slice_cmp T.cmp v w };

    ghost total = { lists_total T.total };

    ghost matches_partial_cmp = { λ v w. lists_agrees T.matches_partial_cmp v w };

    ghost matches_eq = { λ v w. lists_ties T.cmp T.matches_eq v w };

    #[inline]
    fn cmp(&self, other: &Self) -> Ordering {
        self.as_slice().cmp(&other.as_slice())
    }
}
