//! What is known of one replica.
ghost use Rattle.std.specs.Prelude.{◌≡◌, is_some};
ghost use Rattle.dpc_model.specs.Replicas.{new_watch, after_beat, after_tick, with_mark, after_count, rank_said, rank_by, is_absent, rank_of, says_recovering};

use dpc_model::messages::{NodeState, Rank};
use std::marker::Model;

/// What is known of one replica. Contracts see a `Watch` of the definitions.
#[derive(Drop)]
pub(crate) struct Watch {
    /// The newest incarnation.
    inc: u64,
    /// The lesser of 4 and the ticks since the last beat.
    ticks: u64,
    /// The state that the last beat told, and whether it said recovering.
    said: Option<(NodeState, bool)>,
    /// The base of a truncation that has not ended.
    truncated: Option<u64>,
}

impl Model for Watch {
    ghost use Rattle.std.specs.Coded.{codes};
    ghost use Rattle.dpc_model.specs.Replicas.{Watch as Known};

    ghost Value = { Known };

    ghost coded = { Prim.hlevel codes };

    ghost view = { λ w. record { inc = w.inc; ticks = w.ticks; said = w.said; truncated = w.truncated } };
}

impl Default for Watch {
    ghost is_default = { λ w. w ≡ new_watch };

    fn default() -> Watch {
        Watch::new()
    }
}

/// The rank of a replica whose last beat told this state.
fn rank_told(state: NodeState) -> Rank
    ensures { result ≡ rank_said state }
{
    match state {
        NodeState::Stable => Rank::Stable,
        NodeState::UpFailure => Rank::UpFailure,
        NodeState::Stabilization => Rank::Stabilizing,
    }
}

impl Watch {
    /// Nothing is known yet.
    pub(crate) fn new() -> Watch
        ensures { result ≡ new_watch }
    {
        Watch {
            inc: 0,
            ticks: 0,
            said: None,
            truncated: None,
        }
    }

    /// A beat came. One of an earlier incarnation changes nothing.
    pub(crate) fn note_beat(&mut self, inc: u64, state: NodeState, recovering: bool)
        ensures { self.new ≡ after_beat inc state recovering self.old }
    {
        if inc < self.inc {
            return;
        }
        self.inc = inc;
        self.ticks = 0;
        self.said = Some((state, recovering));
    }

    /// The replica truncated what was asked for: it sends from tuple number `base` on.
    pub(crate) fn mark_truncated(&mut self, base: u64)
        ensures { self.new ≡ with_mark base self.old }
    {
        self.truncated = Some(base);
    }

    /// The reader has so many tuples: a mark ends where that is at least its base.
    pub(crate) fn reached(&mut self, count: u64)
        ensures { self.new ≡ after_count count self.old }
    {
        if let Some(base) = self.truncated {
            if base <= count {
                self.truncated = None;
            }
        }
    }

    /// One tick more.
    pub(crate) fn tick(&mut self)
        ensures { self.new ≡ after_tick self.old }
    {
        self.ticks = self.ticks.min(3) + 1;
    }

    /// Whether it truncated what was asked for.
    pub(crate) fn is_truncated(&self) -> bool
        ensures { result ≡ is_some self.now.truncated }
    {
        self.truncated.is_some()
    }

    /// Whether three ticks brought no beat, or it truncated what was asked for.
    pub(crate) fn is_absent(&self) -> bool
        ensures { result ≡ is_absent self.now }
    {
        self.ticks >= 3 || self.truncated.is_some()
    }

    /// Whether the last beat said recovering.
    pub(crate) fn says_recovering(&self) -> bool
        ensures { result ≡ says_recovering self.now }
    {
        match self.said {
            Some((_, recovering)) => recovering,
            None => false,
        }
    }

    /// How good it is to read from.
    pub(crate) fn rank(&self) -> Rank
        ensures { result ≡ rank_of self.now }
    {
        if self.is_absent() {
            return Rank::Absent;
        }
        match self.said {
            None => Rank::Stable,
            Some((_, true)) => Rank::Stabilizing,
            Some((state, false)) => rank_told(state),
        }
    }
}
