//! Events, and what actors send one another.
use crate::tuples::Item;
use dpc_lists::lists::Listed;
use dpc_lists::shared::Shared;

/// What may happen in a run. Actors have narrow numbers here, since a run keeps all its events.
#[derive(Clone, Copy, PartialEq, Eq)]
pub enum Event {
    Phase(u64),
    Emit(u32, u64),
    Release(u32, u64),
    Cut(u32, u32),
    Heal(u32, u32),
    Crash(u32),
    Restart(u32, u64),
    Deliver(u64),
    Tick(u32, u64),
    Mill(u32, u64),
}

/// The name of a session: the reader's incarnation, and a number within it.
#[derive(Clone, Copy, PartialEq, Eq)]
pub struct Sess {
    pub inc: u64,
    pub number: u64,
}

#[derive(Clone, Copy, PartialEq, Eq)]
pub enum NodeState {
    Stable,
    UpFailure,
    Stabilization,
}

/// A reader asks for the stream from its tuple number `n` on.
#[derive(Clone, Copy, PartialEq, Eq)]
pub struct Subscribe {
    pub sess: Sess,
    pub n: u64,
    pub tentative: bool,
}

/// What a sender tells of itself, and of the addressee's open session: its name and how many batches were sent in it.
#[derive(Clone, Copy, PartialEq, Eq)]
pub struct Beat {
    pub inc: u64,
    pub state: NodeState,
    pub recovering: bool,
    pub over: u64,
    pub tally: Option<(Sess, u64)>,
}

#[derive(Drop)]
pub enum Message {
    /// A batch of a session, by its number. Its items are made once for all readers.
    Batch(Sess, u64, Shared<Item>),
    Subscribe(Subscribe),
    Truncated(Sess, u64),
    Beat(Beat),
    Ack(u64, u64),
    Ask(u64, u64),
    Grant(u64, u64),
    SnapAsk(u64, u64),
}

#[derive(Drop)]
pub struct Out {
    pub to: u64,
    pub message: Message,
}

/// How good a replica is to read from, the best first.
#[derive(Clone, Copy, PartialEq, Eq)]
pub enum Rank {
    Stable,
    UpFailure,
    Stabilizing,
    Absent,
}

/// The ranks of the replicas in order.
pub type Ranks = Listed<Rank>;

/// Events in order.
pub type Journal = Listed<Event>;
