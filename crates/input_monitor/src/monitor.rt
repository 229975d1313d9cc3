//! What is known of each replica of a stream.
ghost use Rattle.std.specs.Prelude.{◌≡◌, ◌<◌, ◌≤◌, map, replicate, length};
ghost use Rattle.dpc_lists.specs.Lists.{nth, changed};
ghost use Rattle.dpc_model.specs.Ports.{no_port, all_truncated};
ghost use Rattle.dpc_model.specs.Replicas.{new_watch, after_beat, after_tick, with_mark, after_count, is_absent, rank_of, says_recovering};

use crate::ranks::Ranks;
use crate::watch::Watch;
use arrayvec::ArrayVec;
use dpc_model::messages::{NodeState, Rank};
use dpc_model::plans::MOST_REPLICAS;
use std::marker::Model;

/// What is known of each replica of a stream. No call takes memory. Contracts see a `List Watch`, by the
/// number of the replica.
#[derive(Drop)]
pub struct Monitor {
    watches: ArrayVec<Watch, MOST_REPLICAS>,
    /// Whether a replica was ever marked: else no mark is looked for.
    marked: bool,
}

impl Model for Monitor {
    ghost use Rattle.std.specs.Coded.{codes};
    ghost use Rattle.std.specs.Prelude.{◌≡◌, false, List};
    ghost use Rattle.dpc_model.specs.Replicas.{Watch};
    ghost use Rattle.input_monitor.specs.Marks.{AreUnmarked};

    ghost Value = { List Watch };

    ghost coded = { Prim.hlevel codes };

    ghost view = { λ m. m.watches.items };

    ghost invariant = { λ m. m.marked ≡ false → AreUnmarked m.watches.items };
}

/// One tick more of each replica.
fn tick_all(watches: &mut [Watch])
    ensures { watches.new ≡ map after_tick watches.old }
{
    for watch in watches.iter_mut() {
        watch.tick();
    }
}

/// The reader has so many tuples, whichever replica sent them.
fn reached_by_all(watches: &mut [Watch], count: u64)
    ensures { watches.new ≡ map (after_count count) watches.old }
{
    for watch in watches.iter_mut() {
        watch.reached(count);
    }
}

impl Monitor {
    /// So many replicas, of which nothing is known.
    pub fn new(replicas: usize) -> Monitor
        requires { replicas ≤ MOST_REPLICAS }
        ensures { result ≡ replicate replicas new_watch }
    {
        let mut watches = ArrayVec::new();
        for _ in 0..replicas {
            watches.push(Watch::new());
        }
        Monitor {
            watches,
            marked: false,
        }
    }

    /// How many replicas there are.
    pub fn replicas(&self) -> usize
        ensures count { result ≡ length self.now }
        ensures most { result ≤ MOST_REPLICAS }
    {
        self.watches.len()
    }

    /// A beat of a replica came. One of an earlier incarnation changes nothing.
    pub fn note_beat(&mut self, r: usize, inc: u64, state: NodeState, recovering: bool)
        requires { r < length self.old }
        ensures { self.new ≡ changed r (after_beat inc state recovering) self.old }
    {
        self.watches[r].note_beat(inc, state, recovering);
    }

    /// A replica truncated what was asked of it: it sends from tuple number `base` on.
    pub fn mark_truncated(&mut self, r: usize, base: u64)
        requires { r < length self.old }
        ensures { self.new ≡ changed r (with_mark base) self.old }
    {
        self.watches[r].mark_truncated(base);
        self.marked = true;
    }

    /// The reader has so many tuples. The marks that this reaches end.
    pub fn reached(&mut self, count: u64)
        ensures { self.new ≡ map (after_count count) self.old }
    {
        if self.marked {
            reached_by_all(self.watches.as_mut_slice(), count);
        }
    }

    /// One tick more.
    pub fn tick(&mut self)
        ensures { self.new ≡ map after_tick self.old }
    {
        tick_all(self.watches.as_mut_slice());
    }

    /// How good a replica is to read from.
    pub fn rank(&self, r: usize) -> Rank
        requires { r < length self.now }
        ensures { result ≡ rank_of (nth new_watch self.now r) }
    {
        self.watches[r].rank()
    }

    /// Whether a replica's last beat said recovering.
    pub fn says_recovering(&self, r: usize) -> bool
        requires { r < length self.now }
        ensures { result ≡ says_recovering (nth new_watch self.now r) }
    {
        self.watches[r].says_recovering()
    }

    /// Whether three ticks brought no beat of a replica, or it truncated what was asked of it.
    pub fn is_absent(&self, r: usize) -> bool
        requires { r < length self.now }
        ensures { result ≡ is_absent (nth new_watch self.now r) }
    {
        self.watches[r].is_absent()
    }

    /// Whether every replica truncated what was asked of it.
    pub fn all_truncated(&self) -> bool
        ensures { result ≡ all_truncated (record no_port { watches = self.now }) }
    {
        self.watches.iter().all(|watch| watch.is_truncated())
    }

    /// The ranks of all replicas in order.
    pub fn ranks(&self) -> Ranks
        ensures { result ≡ map rank_of self.now }
    {
        Ranks::of(self.watches.as_slice())
    }
}
