//! What nodes send.
use dpc_model::messages::Message;
use pipeline::snapshots::Snapshot;

/// What an actor is sent.
#[derive(Drop)]
pub enum Packet {
    Plain(Message),
    /// A snapshot, for the recovery that an incarnation and a number name.
    SnapFor(u64, u64, Box<Snapshot>),
}

/// A packet with the actor that it goes to.
#[derive(Drop)]
pub struct Mail {
    pub to: u64,
    pub packet: Packet,
}
