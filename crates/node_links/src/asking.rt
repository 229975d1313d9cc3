//! Asks, grants and ticks: what the replicas of one fragment tell one another.
ghost use Rattle.std.specs.Prelude.{◌≡◌, ◌+◌, ◌^◌, ◌<◌, ℕ, length, option_map, if◌then◌else◌};
ghost use Rattle.dpc_model.specs.Granting.{Key, grants, with_promise, may_enter_by, with_ask, with_ask_over};
ghost use Rattle.upstream.specs.Upstreams.{with_tick};
ghost use Rattle.node_links.specs.Linking.{with_upstreams, after_clock_tick, nobody_can_help, asking, after_asking};

use crate::links::{Asked, Links};
use crate::peers::{absences, others_are_absent, others_cannot_help};
use dpc_model::messages::NodeState;

impl Links {
    /// Replica r asks to reconcile. Whether that is granted, and then promised.
    pub fn on_ask(&mut self, r: usize, inc: u64, ask: u64, state: NodeState) -> bool
        requires { r < length self.old.replicas }
        ensures granted { result ≡ grants self.old.known.grants state r (inc, ask) }
        ensures after { self.new ≡ (if result then record self.old
            { known = record self.old.known { grants = with_promise self.old.known.grants r (inc, ask) } } else self.old) }
    {
        self.grants.on_ask(r, inc, ask, state)
    }

    /// Whether a grant is for the running ask, while nobody has a promise.
    pub fn on_grant(&self, inc: u64, ask: u64) -> bool
        ensures { result ≡ may_enter_by self.now.known.grants (inc, ask) }
    {
        self.grants.on_grant(inc, ask)
    }

    /// An own ask runs.
    pub fn begin_ask(&mut self)
        ensures { self.new ≡ record self.old { known = record self.old.known { grants = with_ask self.old.known.grants } } }
    {
        self.grants.begin();
    }

    /// The running ask is over, where one runs.
    pub fn finish(&mut self)
        requires { self.old.known.grants.over + 1 < 2 ^ 64 }
        ensures { self.new ≡ record self.old { known = record self.old.known { grants = with_ask_over self.old.known.grants } } }
    {
        self.grants.finish();
    }

    /// One tick, of every replica and of every session. A promise to an absent replica ends.
    pub fn tick(&mut self)
        ensures { self.new ≡ record self.old { known = after_clock_tick self.old.known } }
    {
        self.tick_sessions();
        self.watches.tick();
        let absences = absences(&self.watches);
        self.grants.on_tick(&absences[..self.watches.replicas()]);
    }

    /// One tick, of every session and of whoever can be read there.
    fn tick_sessions(&mut self)
        ensures { self.new ≡ record self.old { known = with_upstreams with_tick self.old.known } }
    {
        self.ports.tick();
    }

    /// Whether no other replica can hand out a snapshot: each is absent, or recovers itself.
    pub fn nobody_can_help(&self) -> bool
        ensures { result ≡ nobody_can_help self.now.me self.now.known }
    {
        others_cannot_help(&self.watches, self.me)
    }

    /// What a node is to do that wants to reconcile: nothing exactly where it has promised another.
    pub fn ask(&mut self) -> Option<Asked>
        requires { self.old.known.grants.over + 1 < 2 ^ 64 }
        ensures asked { result ≡ asking self.old.me self.old.known }
        ensures after { self.new ≡ record self.old { known = after_asking self.old.known } }
    {
        let (inc, ask) = self.grants.want()?;
        if others_are_absent(&self.watches, self.me) {
            return Some(Asked::Enter);
        }
        Some(Asked::Ask(inc, ask))
    }

    /// The own incarnation.
    pub fn inc(&self) -> u64
        ensures { result ≡ self.now.known.grants.inc }
    {
        self.grants.inc()
    }

    /// The number of the last own ask that is over.
    pub fn over(&self) -> u64
        ensures { result ≡ self.now.known.grants.over }
    {
        self.grants.over()
    }

    /// The place of the replica that has its promise.
    pub fn promised_to(&self) -> Option<usize>
        ensures { result ≡ option_map (λ (p : ℕ × Key). p.0) self.now.known.grants.promise }
    {
        self.grants.promised_to()
    }

    /// How often a recovery began.
    pub fn tries(&self) -> u64
        ensures { result ≡ self.now.known.tries }
    {
        self.tries
    }
}
