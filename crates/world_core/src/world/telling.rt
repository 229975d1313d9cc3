//! What is told of a world that is not spent. It takes no memory.
ghost use Rattle.std.specs.Prelude.{◌≡◌, false, length, option_map, slice_get};
ghost use Rattle.node_model.specs.Nodes.{PlainNode};
ghost use Rattle.world_model.specs.Worlds.{Envelope as PlainEnvelope, slot_of, node_at, link_up, is_up, ready_at, all_settled, item_count};
ghost use Rattle.world_model.specs.Schedules.{may_come};
ghost use Rattle.client_fold.specs.Folding.{StandForClients};
ghost use Rattle.world_core.specs.Runs.{world_of};

use crate::world::World;
use client_fold::client::Client;
use dpc_model::messages::NodeState;

impl World {
    /// The sender and the addressee of envelope number k; `None` exactly where it was not sent.
    pub fn ends(&self, k: u64) -> Option<(u64, u64)>
        requires { self.now.spent ≡ false }
        ensures { result ≡ option_map (λ (e : PlainEnvelope). (e.sender, e.to)) (slice_get (world_of self.now).envelopes k) }
    {
        self.parts.ends(k)
    }

    /// Whether two actors have a link, and it is up.
    pub fn link_up(&self, a: u64, b: u64) -> bool
        requires { self.now.spent ≡ false }
        ensures { result ≡ link_up (world_of self.now) a b }
    {
        self.parts.link_up(&self.roster, a, b)
    }

    /// Whether an actor is there and is up.
    pub fn is_up(&self, actor: u64) -> bool
        requires { self.now.spent ≡ false }
        ensures { result ≡ is_up (world_of self.now) actor }
    {
        self.parts.is_up(&self.roster, actor)
    }

    /// How many buckets of an actor may be milled.
    pub fn ready(&self, actor: u64) -> u64
        requires { self.now.spent ≡ false }
        ensures { result ≡ ready_at (world_of self.now) actor }
    {
        self.parts.ready(&self.roster, actor)
    }

    /// The last incarnation of a node.
    pub fn last_inc(&self, actor: u64) -> u64
        requires { self.now.spent ≡ false }
        ensures { result ≡ (slot_of (world_of self.now) actor).last_inc }
    {
        self.parts.last_inc(&self.roster, actor)
    }

    /// The state of the node that an actor is; `None` exactly where it is none, or is down.
    pub fn state(&self, actor: u64) -> Option<NodeState>
        requires { self.now.spent ≡ false }
        ensures { result ≡ option_map (λ (p : PlainNode). p.state) (node_at (world_of self.now) actor) }
    {
        self.parts.state(&self.roster, actor)
    }

    /// Whether envelope number k was sent, and may come now.
    pub fn may_come(&self, k: u64) -> bool
        requires { self.now.spent ≡ false }
        ensures { result ≡ may_come (world_of self.now) (slice_get (world_of self.now).envelopes k) }
    {
        self.parts.may_come(&self.roster, k)
    }

    /// Whether every client is settled.
    pub fn settled(&self) -> bool
        requires { self.now.spent ≡ false }
        ensures { result ≡ all_settled (world_of self.now) }
    {
        self.parts.settled()
    }

    /// The clients in order.
    pub fn clients(&self) -> &[Client]
        requires { self.now.spent ≡ false }
        ensures { StandForClients self.now.plan 0 result.now (world_of self.now).clients }
    {
        self.parts.clients()
    }

    /// How many envelopes were sent.
    pub fn envelope_count(&self) -> u64
        requires { self.now.spent ≡ false }
        ensures { result ≡ length (world_of self.now).envelopes }
    {
        self.parts.envelope_count()
    }

    /// How many items they carry.
    pub fn item_count(&self) -> u64
        requires { self.now.spent ≡ false }
        ensures { result ≡ item_count (world_of self.now) (world_of self.now).envelopes }
    {
        self.parts.item_count()
    }
}
