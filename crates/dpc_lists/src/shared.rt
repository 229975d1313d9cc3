//! A list that several owners share, and that contracts see as a list of its elements.
ghost use Rattle.std.specs.Prelude.{◌≡◌, ◌↔◌, List, [], length, IsTrue, IfOk};

use crate::faults::NoMemory;
use std::alloc::Global;
use std::marker::Model;
use std::sync::ArcSlice;

/// The elements in order. They are made once, go with their last owner, and may cross threads.
#[derive(Drop)]
pub struct Shared<T> {
    elements: ArcSlice<T, Global>,
}

impl<T> Model for Shared<T> {
    ghost use Rattle.std.specs.Arc.{arc_slice_items};
    ghost use Rattle.std.specs.Prelude.{List};

    ghost Value = { List T };

    ghost view = { λ s. arc_slice_items s.elements };
}

impl<T: Drop> Shared<T> {
    /// The list of these elements, with one owner.
    pub fn from_vec(elements: Vec<T>) -> Result<Shared<T>, NoMemory>
        ensures { IfOk result (λ s. s ≡ elements.items) }
    {
        let elements = ArcSlice::from_vec(elements)?;
        Ok(Shared { elements })
    }

    /// One owner more. No element is copied.
    pub fn share(&self) -> Result<Shared<T>, NoMemory>
        ensures { IfOk result (λ s. s ≡ self.now) }
    {
        let elements = self.elements.clone()?;
        Ok(Shared { elements })
    }
}

impl<T> Shared<T> {
    /// The elements as a slice.
    pub fn as_slice(&self) -> &[T]
        ensures { result.now ≡ self.now }
    {
        self.elements.as_slice()
    }

    /// How many elements there are.
    pub fn len(&self) -> usize
        ensures { result ≡ length self.now }
    {
        self.elements.len()
    }

    /// Whether there is none.
    pub fn is_empty(&self) -> bool
        ensures { IsTrue result ↔ (self.now ≡ []) }
    {
        self.as_slice().is_empty()
    }
}
