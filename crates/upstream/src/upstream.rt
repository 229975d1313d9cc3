//! What a reader knows of the replicas that send its stream.
ghost use Rattle.std.specs.Prelude.{◌≡◌, ◌<◌, ◌≤◌, ◌==◌, ℕ, false, length, position, IfOk};
ghost use Rattle.dpc_lists.specs.Lists.{place_of};
ghost use Rattle.dpc_model.specs.Actors.{senders_of};
ghost use Rattle.dpc_model.specs.Ports.{all_truncated};
ghost use Rattle.dpc_model.specs.declared.plans.TheConstants.{MOST_REPLICAS};
ghost use Rattle.upstream.specs.Upstreams.{new_upstream, with_marks_ended, with_beat, with_truncation, with_tick, with_no_tick, port_by, with_choice, asked_actor};

use actor_lists::lists::{place_of, senders_of};
use dpc_lists::faults::NoMemory;
use dpc_model::messages::Beat;
use dpc_model::plans::{Plan, StreamRef};
use input_monitor::monitor::Monitor;
use replica_switch::choice::choose;
use std::alloc::Global;
use std::marker::Model;

/// How many ticks without an answer open a session anew. More are not told apart.
const MOST_UNANSWERED: u64 = 3;

/// The senders of one stream: the replica that is read, what is known of each, and the ticks since the
/// session was opened. But for the making none of its calls takes memory. Contracts see an
/// `UpstreamValue`.
#[derive(Drop)]
pub struct Upstream {
    /// The replicas in order, as actors.
    senders: Vec<u64>,
    chosen: usize,
    monitor: Monitor,
    ticks: u64,
}

impl Model for Upstream {
    ghost use Rattle.std.specs.Coded.{codes};
    ghost use Rattle.std.specs.Prelude.{◌≡◌, ◌<◌, ◌≤◌, length};
    ghost use Rattle.upstream.specs.Upstreams.{UpstreamValue};

    ghost Value = { UpstreamValue };

    ghost coded = { Prim.hlevel codes };

    ghost view = { λ u. record { senders = u.senders.items; known = record { chosen = u.chosen; watches = u.monitor; ticks = u.ticks } } };

    ghost invariant = { λ u. (length u.monitor ≡ length u.senders.items) × (u.chosen < length u.senders.items) × (u.ticks ≤ 3) };
}

impl Upstream {
    /// The senders of a stream, of which nothing is known yet. The first one is read.
    pub fn new(alloc: Global, plan: &Plan, stream: StreamRef) -> Result<Upstream, NoMemory>
        requires some { 0 < length (senders_of plan.now stream) }
        requires most { length (senders_of plan.now stream) ≤ MOST_REPLICAS }
        ensures { IfOk result (λ u. u ≡ new_upstream (senders_of plan.now stream)) }
    {
        let senders = senders_of(alloc, plan, stream)?;
        let monitor = Monitor::new(senders.len());
        Ok(Upstream {
            senders,
            chosen: 0,
            monitor,
            ticks: 0,
        })
    }

    /// The replicas in order, as actors.
    pub fn senders(&self) -> &[u64]
        ensures { result.now ≡ self.now.senders }
    {
        self.senders.as_slice()
    }

    /// The replica that an actor is; `None` exactly where it sends the stream not.
    pub fn replica(&self, actor: u64) -> Option<usize>
        ensures { result ≡ place_of (λ a. actor == a) self.now.senders }
    {
        place_of(self.senders.as_slice(), actor)
    }

    /// The replica that is read.
    pub fn chosen(&self) -> usize
        ensures { result ≡ self.now.known.chosen }
    {
        self.chosen
    }

    /// So many tuples of the stream are known: a mark ends where its base is at most that.
    pub fn end_marks(&mut self, count: u64)
        ensures { self.new ≡ record self.old { known = with_marks_ended count self.old.known } }
    {
        self.monitor.reached(count);
    }

    /// A replica tells of itself. A beat of an earlier incarnation is ignored.
    pub fn note_beat(&mut self, r: usize, beat: Beat)
        requires { r < length self.old.senders }
        ensures { self.new ≡ record self.old { known = with_beat r beat self.old.known } }
    {
        self.monitor
            .note_beat(r, beat.inc, beat.state, beat.recovering);
    }

    /// A replica can send only from this tuple on.
    pub fn mark_truncated(&mut self, r: usize, base: u64)
        requires { r < length self.old.senders }
        ensures { self.new ≡ record self.old { known = with_truncation r base self.old.known } }
    {
        self.monitor.mark_truncated(r, base);
    }

    /// Whether each replica is marked.
    pub fn all_truncated(&self) -> bool
        ensures { result ≡ all_truncated (port_by false false self.now.known) }
    {
        self.monitor.all_truncated()
    }

    /// One tick more, of every replica and of the session.
    pub fn tick(&mut self)
        ensures { self.new ≡ record self.old { known = with_tick self.old.known } }
    {
        self.monitor.tick();
        self.ticks = MOST_UNANSWERED.min(self.ticks + 1);
    }

    /// The session is lost: its ticks are counted anew.
    pub fn forget_session(&mut self)
        ensures { self.new ≡ record self.old { known = with_no_tick self.old.known } }
    {
        self.ticks = 0;
    }

    /// Chooses the replica to read. The answer is the actor to ask for a new session: exactly where the
    /// choice changed, a batch is missing, or the third tick brought no answer.
    pub fn choose(&mut self, broken: bool, answered: bool) -> Option<u64>
        ensures after { self.new ≡ record self.old { known = with_choice broken answered self.old.known } }
        ensures asked { result ≡ asked_actor broken answered self.old }
    {
        let chosen = choose(self.chosen, self.monitor.ranks().as_slice());
        let lost = chosen != self.chosen || broken || (!answered && self.ticks >= MOST_UNANSWERED);
        self.chosen = chosen;
        if !lost {
            return None;
        }
        self.ticks = 0;
        Some(self.senders[chosen])
    }
}
