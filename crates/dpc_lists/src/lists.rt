//! A list that contracts see as a list of its elements.
ghost use Rattle.std.specs.Prelude.{◌≡◌, ◌↔◌, ◌∷◌, ◌++◌, List, [], length, IsTrue, OnOk, OnErr};

use crate::faults::NoMemory;
use std::marker::Model;

/// The elements in order. It is made of a `Vec`, and gives it back, without memory.
#[derive(Drop)]
pub struct Listed<T> {
    elements: Vec<T>,
}

impl<T> Model for Listed<T> {
    ghost use Rattle.std.specs.Prelude.{List};

    ghost Value = { List T };

    ghost view = { λ l. l.elements.items };
}

/// The bytes of a name.
pub type Name = Listed<u8>;

impl<T> Listed<T> {
    /// The list of these elements.
    pub fn from_vec(elements: Vec<T>) -> Listed<T>
        ensures { result ≡ elements.items }
    {
        Listed { elements }
    }

    /// The elements as a `Vec`.
    pub fn into_vec(self) -> Vec<T>
        ensures { result.items ≡ self }
    {
        let Listed { elements } = self;
        elements
    }

    /// The elements as a slice.
    pub fn as_slice(&self) -> &[T]
        ensures { result.now ≡ self.now }
    {
        self.elements.as_slice()
    }

    /// How many elements there are.
    pub fn len(&self) -> usize
        ensures { result ≡ length self.now }
    {
        self.elements.len()
    }

    /// Whether there is none.
    pub fn is_empty(&self) -> bool
        ensures { IsTrue result ↔ (self.now ≡ []) }
    {
        self.elements.is_empty()
    }
}

impl<T: Drop> Listed<T> {
    /// One more element, at the end. Where memory is wanted, the list stays.
    pub fn push(&mut self, element: T) -> Result<(), NoMemory>
        ensures ok { OnOk result (self.new ≡ self.old ++ element ∷ []) }
        ensures err { OnErr result (self.new ≡ self.old) }
    {
        self.elements.push(element)?;
        Ok(())
    }
}
