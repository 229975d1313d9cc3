//! What a reader makes of a batch.
use crate::tuples::Item;
use dpc_lists::shared::Shared;

/// The answer to a batch.
#[derive(Drop)]
pub enum Taken {
    /// The items that were taken: none that was old or dropped, and no boundary that raises nothing.
    Used(Shared<Item>),
    /// It belongs to an earlier session, or stands before the next one. Nothing changed.
    Old,
    /// One before it is missing, or an item has no reading. The reader is broken until it asks anew.
    Broken,
}
