//! Work as a node gives it out.
use dpc_lists::lists::Listed;
use dpc_model::tuples::Tagged;
use std::marker::Model;

/// Buckets that a node has ready, with the engine that is to take them. Contracts see an `OrderValue`.
#[derive(Drop)]
pub struct Order<M> {
    /// The node as an actor, and its incarnation.
    pub node: u64,
    pub inc: u64,
    /// The number of the first bucket.
    pub cursor: u64,
    /// The engine at that bucket.
    pub before: M,
    pub buckets: Listed<Listed<Tagged>>,
}

impl<M> Model for Order<M> {
    ghost use Rattle.mill_work.specs.Milling.{OrderValue};

    ghost Value = { OrderValue M };

    ghost view = { λ o. record { node = o.node; inc = o.inc; cursor = o.cursor; before = o.before; buckets = o.buckets } };
}
