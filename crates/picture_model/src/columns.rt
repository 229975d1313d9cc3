//! The columns of a picture: one for each phase of a run, as things stand at its end.
use dpc_lists::lists::Listed;

/// What a replica is. One that recovers has lost its state, and answers nobody before it has another one.
#[derive(Clone, Copy, PartialEq, Eq)]
pub enum ReplicaState {
    Stable,
    UpFailure,
    Stabilization,
    Recovering,
    Down,
}

/// Two times of a source: it sent what it logged below the first, and said that this is all below the second.
#[derive(Clone, Copy)]
pub struct SourcePoint {
    pub sent: u64,
    pub bound: u64,
}

/// What a client holds and took: its stable tuples and up to where they are all, its tentative ones, how
/// often it took undo and rec_done, and the replica that it reads.
#[derive(Clone, Copy)]
pub struct ClientPoint {
    pub stable: u64,
    pub bound: u64,
    pub tentative: u64,
    pub undos: u64,
    pub dones: u64,
    pub reads: u64,
    pub settled: bool,
}

/// What happened, with actors by number: to the link of two of them; to what the first one sent the second; to a node,
/// a restart with its incarnation; or the first one, a replica, let the second one of its fragment reconcile.
#[derive(Clone, Copy)]
pub enum Mark {
    Cut(u64, u64),
    Heal(u64, u64),
    Lose(u64, u64),
    Repeat(u64, u64),
    Crash(u64),
    Restart(u64, u64),
    Grant(u64, u64),
}

/// A phase: its number from 1, its clock, all sources, replicas and clients in order, how many links are
/// cut at its end, and what happened in it.
#[derive(Drop)]
pub struct Column {
    pub number: u64,
    pub clock: u64,
    pub sources: Listed<SourcePoint>,
    pub replicas: Listed<ReplicaState>,
    pub clients: Listed<ClientPoint>,
    pub cuts: u64,
    pub marks: Listed<Mark>,
}
