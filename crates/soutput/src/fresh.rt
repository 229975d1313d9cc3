//! What is new of an output.
use dpc_model::tuples::Tuples;

/// What an event gives the readers. Nothing of it is in an item yet.
#[derive(Drop)]
pub struct Fresh {
    pub stable: Tuples,
    /// Stable output goes up to this time now.
    pub bound: Option<u64>,
    pub tentative: Tuples,
    /// Tentative output goes up to this time now.
    pub passed: Option<u64>,
    /// The corrections are done.
    pub done: bool,
}

impl Fresh {
    ghost use Rattle.std.specs.Prelude.{◌≡◌, not};
    ghost use Rattle.soutput.specs.Giving.{is_nothing};

    /// Whether there is anything to give.
    pub(crate) fn gives_items(&self) -> bool
        ensures { result ≡ not (is_nothing self.now) }
    {
        if self.done || self.bound.is_some() || self.passed.is_some() {
            return true;
        }
        !self.stable.is_empty() || !self.tentative.is_empty()
    }
}
