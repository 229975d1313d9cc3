//! What an actor has to do.
use dpc_model::messages::Event;

/// An event that an actor has to do: of a delivery its addressee, else the actor that it names.
#[derive(Clone, Copy, PartialEq, Eq)]
pub struct Due {
    pub actor: u32,
    pub event: Event,
}
