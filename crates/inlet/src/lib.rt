//! The receiving end of one stream: which batches are taken, and what is held of the stream.
#![tactic(auto)]

mod draft;
pub mod inlet;
mod items;
mod tentative;
