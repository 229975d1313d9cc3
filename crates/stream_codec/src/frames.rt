//! What a frame holds.
use dpc_model::messages::Event;
use dpc_model::tuples::Item;

/// One frame of a recorded stream or journal.
#[derive(Drop)]
pub enum Frame {
    Item(Item),
    /// The items of the client of this number follow.
    Head(u64),
    /// How many stable tuples the client has, its bound, and how many tentative tuples.
    Tail {
        stable: u64,
        bound: u64,
        tentative: u64,
    },
    Entry(Event),
}
