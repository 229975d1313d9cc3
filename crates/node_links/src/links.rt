//! What a node knows of its neighbours.
ghost use Rattle.std.specs.Prelude.{◌≡◌, ◌+◌, ◌^◌, ◌<◌, ◌≤◌, ◌==◌, ℕ, false, [], length, All, IfOk};
ghost use Rattle.dpc_lists.specs.Lists.{nth, place_of};
ghost use Rattle.dpc_model.specs.Actors.{senders_of, replicas_of};
ghost use Rattle.dpc_model.specs.Ports.{all_truncated};
ghost use Rattle.dpc_model.specs.declared.plans.StreamRef.{StreamRef};
ghost use Rattle.dpc_model.specs.declared.plans.TheConstants.{MOST_REPLICAS};
ghost use Rattle.node_model.specs.Nodes.{Home, spec_of, streams_of};
ghost use Rattle.upstream.specs.Upstreams.{with_marks_ended, with_truncation, with_no_tick, port_by, with_choice, asked_actor};
ghost use Rattle.node_links.specs.Linking.{new_links, sender_among, peers_in, with_upstream, with_upstreams, no_upstream, after_upstream_beat, after_own_beat, chosen_by, with_recovery, upstream_at, HaveNoMarks};

use crate::peers::others;
use crate::ports::Ports;
use actor_lists::lists::{place_of, replicas_of};
use dpc_lists::faults::NoMemory;
use dpc_model::messages::Beat;
use dpc_model::plans::{Plan, StreamRef};
use grant_core::grants::GrantCore;
use input_monitor::monitor::Monitor;
use std::alloc::Global;
use std::marker::Model;

/// What a node that wants to reconcile is to do.
#[derive(Clone, Copy, PartialEq, Eq)]
pub enum Asked {
    /// Every other replica is absent.
    Enter,
    /// Ask the others, by the key of its running ask: incarnation and number.
    Ask(u64, u64),
}

/// The neighbours of one replica: the senders of each port's stream, and the replicas of its own fragment.
/// But for the making none of its calls takes memory. Contracts see a `LinksValue`.
#[derive(Drop)]
pub struct Links {
    pub(crate) ports: Ports,
    pub(crate) grants: GrantCore,
    /// What is known of each replica of the own fragment, itself among them.
    pub(crate) watches: Monitor,
    /// These replicas as actors, and which of them is the own one.
    pub(crate) replicas: Vec<u64>,
    pub(crate) me: usize,
    /// The other ones.
    pub(crate) peers: Vec<u64>,
    /// How often a recovery began.
    pub(crate) tries: u64,
}

impl Model for Links {
    ghost use Rattle.std.specs.Coded.{codes};
    ghost use Rattle.std.specs.Prelude.{◌≡◌, ◌<◌, length, not, ◌==◌, filter};
    ghost use Rattle.dpc_lists.specs.Lists.{nth};
    ghost use Rattle.node_links.specs.Linking.{LinksValue, senders_at, known_at};

    ghost Value = { LinksValue };

    ghost coded = { Prim.hlevel codes };

    ghost view = { λ l. record {
      senders = senders_at l.ports;
      replicas = l.replicas.items;
      me = l.me;
      known = record {
        upstreams = known_at l.ports;
        grants = l.grants;
        peers = l.watches;
        tries = l.tries;
      };
    } };

    ghost invariant = { λ l. (length l.watches ≡ length l.replicas.items)
        × (length l.grants.heard ≡ length l.replicas.items) × (l.me < length l.replicas.items)
        × (l.peers.items ≡ filter (λ a. not (a == nth 0 l.replicas.items l.me)) l.replicas.items) };
}

/// The streams that a fragment reads; none where there is no such fragment.
fn streams_of(plan: &Plan, frag: usize) -> &[StreamRef]
    ensures { (replica : ℕ) → result.now ≡ streams_of (record { plan = plan.now; frag = frag; replica = replica }) }
{
    match plan.frags.as_slice().get(frag) {
        Some(frag) => frag.inputs.as_slice(),
        None => &[],
    }
}

impl Links {
    /// The links of replica `replica` of fragment `frag`, in this incarnation. Nothing is known yet.
    pub fn new(
        alloc: Global,
        plan: &Plan,
        frag: usize,
        replica: usize,
        inc: u64,
    ) -> Result<Links, NoMemory>
        requires inside { replica < length (replicas_of plan.now frag) }
        requires same { (spec_of (record { plan = plan.now; frag = frag; replica = replica })).replicas ≡ length
            (replicas_of plan.now frag) }
        requires most { length (replicas_of plan.now frag) ≤ MOST_REPLICAS }
        requires senders { All (λ (s : StreamRef). (0 < length (senders_of plan.now s))
            × (length (senders_of plan.now s) ≤ MOST_REPLICAS)) (streams_of (record { plan = plan.now; frag = frag; replica = replica })) }
        ensures { IfOk result (λ l. l ≡ new_links (record { plan = plan.now; frag = frag; replica = replica }) inc) }
    {
        let ports = Ports::new(alloc, plan, streams_of(plan, frag))?;
        let replicas = replicas_of(alloc, plan, frag as u64)?;
        let peers = others(alloc, replicas.as_slice(), replicas[replica])?;
        Ok(Links {
            ports,
            grants: GrantCore::new(replica, inc, replicas.len()),
            watches: Monitor::new(replicas.len()),
            replicas,
            me: replica,
            peers,
            tries: 0,
        })
    }

    /// The port and the replica that an actor is: `None` exactly where it sends none of the streams.
    pub fn sender(&self, actor: u64) -> Option<(usize, usize)>
        ensures { result ≡ sender_among 0 self.now.senders actor }
    {
        self.ports.sender(actor)
    }

    /// The replica of the own fragment that an actor is.
    pub fn replica(&self, actor: u64) -> Option<usize>
        ensures { result ≡ place_of (λ a. actor == a) self.now.replicas }
    {
        place_of(self.replicas.as_slice(), actor)
    }

    /// The node itself, as an actor.
    pub fn own(&self) -> u64
        ensures { result ≡ nth 0 self.now.replicas self.now.me }
    {
        self.replicas[self.me]
    }

    /// The other replicas of the fragment, as actors.
    pub fn peers(&self) -> &[u64]
        ensures { result.now ≡ peers_in self.now }
    {
        self.peers.as_slice()
    }

    /// The senders of a port's stream by replica, as actors.
    pub fn senders(&self, port: usize) -> &[u64]
        requires { port < length self.now.senders }
        ensures { result.now ≡ nth [] self.now.senders port }
    {
        self.ports.senders(port)
    }

    /// How many ports there are.
    pub fn ports(&self) -> usize
        ensures { result ≡ length self.now.known.upstreams }
    {
        self.ports.len()
    }

    /// The replica that a port reads.
    pub fn chosen(&self, port: usize) -> usize
        requires { port < length self.now.known.upstreams }
        ensures { result ≡ (nth no_upstream self.now.known.upstreams port).chosen }
    {
        self.ports.chosen(port)
    }

    /// Whether a replica of a port may be marked.
    pub fn has_marks(&self) -> bool
        ensures { result ≡ false → HaveNoMarks self.now.known.upstreams }
    {
        self.ports.has_marks()
    }

    /// So many tuples of a port's stream are known: marks of its replicas end.
    pub fn end_marks(&mut self, port: usize, count: u64)
        requires { port < length self.old.known.upstreams }
        ensures { self.new ≡ record self.old { known = with_upstream port (with_marks_ended count) self.old.known } }
    {
        self.ports.end_marks(port, count);
    }

    /// An actor tells of itself. The answer is the port that reads it now: its inlet is to hear the tally.
    pub fn on_beat(&mut self, sender: u64, beat: Beat) -> Option<usize>
        ensures after { self.new ≡ record self.old {
          known = after_own_beat beat (place_of (λ a. sender == a) self.old.replicas)
              (after_upstream_beat beat (sender_among 0 self.old.senders sender) self.old.known);
        } }
        ensures heard { result ≡ chosen_by (sender_among 0 self.old.senders sender) self.old.known }
    {
        let heard = self.note_upstream_beat(sender, beat);
        self.note_own_beat(sender, beat);
        heard
    }

    /// What a beat says of a port's replica. The answer is the port, where it reads that one.
    fn note_upstream_beat(&mut self, sender: u64, beat: Beat) -> Option<usize>
        ensures after { self.new ≡ record self.old
            { known = after_upstream_beat beat (sender_among 0 self.old.senders sender) self.old.known } }
        ensures heard { result ≡ chosen_by (sender_among 0 self.old.senders sender) self.old.known }
    {
        let (port, r) = self.sender(sender)?;
        let is_read = r == self.ports.chosen(port);
        self.ports.note_beat(port, r, beat);
        if is_read { Some(port) } else { None }
    }

    /// What a beat says of a replica of the own fragment.
    fn note_own_beat(&mut self, sender: u64, beat: Beat)
        ensures { self.new ≡ record self.old {
          known = after_own_beat beat
              (place_of (λ a. sender == a) self.old.replicas) self.old.known;
        } }
    {
        if let Some(r) = self.replica(sender) {
            self.watches
                .note_beat(r, beat.inc, beat.state, beat.recovering);
            self.grants.on_beat(r, beat.inc, beat.over);
        }
    }

    /// Replica r of a port's stream truncated what the port asked for. Whether each of its replicas did.
    pub fn on_truncated(&mut self, port: usize, r: usize, base: u64) -> bool
        requires port { port < length self.old.known.upstreams }
        requires replica { r < length (nth [] self.old.senders port) }
        ensures after { self.new ≡ record self.old { known = with_upstream port (with_truncation r base) self.old.known } }
        ensures all { result ≡ all_truncated (port_by false false (nth no_upstream self.new.known.upstreams port)) }
    {
        self.ports.mark_truncated(port, r, base);
        self.ports.all_truncated(port)
    }

    /// What was held is lost: sessions and the own ask are over, and one more recovery begins.
    pub fn begin_recovery(&mut self)
        requires tries { self.old.known.tries + 1 < 2 ^ 64 }
        requires over { self.old.known.grants.over + 1 < 2 ^ 64 }
        ensures { self.new ≡ record self.old { known = with_recovery self.old.known } }
    {
        self.forget_sessions();
        self.grants.finish();
        self.tries += 1;
    }

    /// The sessions are lost, as where a snapshot is adopted.
    pub fn forget_sessions(&mut self)
        ensures { self.new ≡ record self.old { known = with_upstreams with_no_tick self.old.known } }
    {
        self.ports.forget_sessions();
    }

    /// A port chooses the replica to read. The answer is the actor to ask for a new session: exactly where
    /// the choice changed, a batch is missing, or the third tick brought no answer.
    pub fn choose(&mut self, port: usize, broken: bool, answered: bool) -> Option<u64>
        requires { port < length self.old.known.upstreams }
        ensures after { self.new ≡ record self.old { known = with_upstream port (with_choice broken answered) self.old.known } }
        ensures asked { result ≡ asked_actor broken answered (upstream_at port self.old) }
    {
        self.ports.choose(port, broken, answered)
    }
}
