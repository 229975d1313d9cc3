//! What a telling is acknowledged by.
ghost use Rattle.std.specs.Prelude.{◌≡◌};

use crate::names::ViewName;
use std::marker::PhantomData;

/// How many stable tuples of a client's stream were told, and up to where they are all.
#[derive(Drop)]
pub struct Receipt<N: ViewName> {
    pub(crate) client: u64,
    pub(crate) count: u64,
    pub(crate) bound: u64,
    pub(crate) name: PhantomData<N>,
}

impl<N: ViewName> Receipt<N> {
    /// Whose stream was told. It takes no memory.
    pub fn client(&self) -> u64
        ensures { result ≡ self.now.client }
    {
        self.client
    }

    /// How many stable tuples were told. It takes no memory.
    pub fn count(&self) -> u64
        ensures { result ≡ self.now.count }
    {
        self.count
    }

    /// The greatest bound that was told, 0 where there was none. It takes no memory.
    pub fn bound(&self) -> u64
        ensures { result ≡ self.now.bound }
    {
        self.bound
    }
}
