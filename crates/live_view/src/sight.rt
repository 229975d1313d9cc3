//! What a seat at a view has seen.
use dpc_model::tuples::Tuples;

/// What the writer or a reader knows, which only proofs see: no value of it is made.
pub struct Sight {
    /// Whose stream it is. None before the first look.
    pub client: Option<u64>,
    pub bound: u64,
    pub tuples: Tuples,
}
