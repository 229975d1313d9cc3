//! What a recorded stream is found to be.
use dpc_model::tuples::Tuple;

/// What a recorded stream is.
#[derive(Drop)]
pub enum Verdict {
    /// All of the failure-free stream, and nothing in it may still be corrected.
    Whole,
    /// A beginning of it, of so many stable tuples, in which no tuple below the bound is missing.
    Prefix {
        stable: u64,
        bound: u64,
    },
    /// The first difference: the number of the tuple, and which one stands there in the recorded stream and in the
    /// failure-free one. Where one of them has none there, the other has.
    Difference {
        number: u64,
        had: Option<Tuple>,
        ideal: Option<Tuple>,
    },
}
