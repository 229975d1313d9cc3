//! What is told of all actors and envelopes. It takes no memory.
ghost use Rattle.std.specs.Prelude.{◌≡◌, length, option_map, slice_get};
ghost use Rattle.std.specs.Option.{option_copied};
ghost use Rattle.dpc_model.specs.Actors.{role_of};
ghost use Rattle.dpc_model.specs.declared.plans.Plan.{Plan};
ghost use Rattle.node_model.specs.Nodes.{PlainNode};
ghost use Rattle.world_model.specs.Worlds.{World, Envelope as PlainEnvelope, slot_of, node_at, is_up, ready_at, all_settled};
ghost use Rattle.world_model.specs.Schedules.{may_come};
ghost use Rattle.world_parts.specs.Parts.{StandsForWorld};
ghost use Rattle.world_parts.specs.Telling.{StandsForRole};

use crate::parts::WorldParts;
use actor_roster::roster::Roster;
use client_fold::client::Client;
use dpc_model::actors::Role;
use dpc_model::messages::NodeState;
use node_core::node::Node;

impl WorldParts {
    /// The sender and the addressee of envelope number k; `None` exactly where it was not sent.
    pub fn ends(&self, k: u64) -> Option<(u64, u64)>
        ensures { (plan : Plan) (x : World) → StandsForWorld plan self.now x
            → result ≡ option_map (λ (e : PlainEnvelope). (e.sender, e.to)) (slice_get x.envelopes k) }
    {
        let envelope = self.envelopes.get(k as usize)?;
        Some((envelope.sender(), envelope.to()))
    }

    /// The last incarnation of a node.
    pub fn last_inc(&self, roster: &Roster, actor: u64) -> u64
        ensures { (x : World) → StandsForWorld roster.now self.now x → result ≡ (slot_of x actor).last_inc }
    {
        match self.nodes.get(self.node_place(roster, actor)) {
            Some(slot) => slot.last_inc,
            None => 0,
        }
    }

    /// The node that an actor is, where it is one and is up.
    pub fn node(&self, roster: &Roster, actor: u64) -> Option<&Node>
        ensures { (x : World) → StandsForWorld roster.now self.now x
            → StandsForRole roster.now (role_of roster.now actor) (option_copied result) (node_at x actor) }
    {
        let Role::Node(_, _) = roster.role_of(actor) else {
            return None;
        };
        let slot = self.nodes.get(self.node_place(roster, actor))?;
        slot.node.as_ref()
    }

    /// Whether an actor is there and is up.
    pub fn is_up(&self, roster: &Roster, actor: u64) -> bool
        ensures { (x : World) → StandsForWorld roster.now self.now x → result ≡ is_up x actor }
    {
        match roster.role_of(actor) {
            Role::Source(_) | Role::Client(_) => true,
            Role::Node(_, _) => self.node(roster, actor).is_some(),
            Role::Nobody => false,
        }
    }

    /// How many buckets of an actor may be milled.
    pub fn ready(&self, roster: &Roster, actor: u64) -> u64
        ensures { (x : World) → StandsForWorld roster.now self.now x → result ≡ ready_at x actor }
    {
        match self.node(roster, actor) {
            Some(node) => node.ready(),
            None => 0,
        }
    }

    /// The state of the node that an actor is, where it is one and is up.
    pub fn state(&self, roster: &Roster, actor: u64) -> Option<NodeState>
        ensures { (x : World) → StandsForWorld roster.now self.now x → result ≡ option_map (λ (p : PlainNode). p.state) (node_at x actor) }
    {
        let node = self.node(roster, actor)?;
        Some(node.state())
    }

    /// Whether envelope number k was sent, and may come now.
    pub fn may_come(&self, roster: &Roster, k: u64) -> bool
        ensures { (x : World) → StandsForWorld roster.now self.now x → result ≡ may_come x (slice_get x.envelopes k) }
    {
        match self.ends(k) {
            Some((sender, to)) => self.link_up(roster, sender, to) && self.is_up(roster, to),
            None => false,
        }
    }

    /// Whether every client is settled.
    pub fn settled(&self) -> bool
        ensures { (plan : Plan) (x : World) → StandsForWorld plan self.now x → result ≡ all_settled x }
    {
        for client in &self.clients {
            if !client.settled() {
                return false;
            }
        }
        true
    }

    /// The clients in order.
    pub fn clients(&self) -> &[Client]
        ensures { result.now ≡ self.now.clients }
    {
        self.clients.as_slice()
    }

    /// How many envelopes were sent.
    pub fn envelope_count(&self) -> u64
        ensures { (plan : Plan) (x : World) → StandsForWorld plan self.now x → result ≡ length x.envelopes }
    {
        self.envelopes.len() as u64
    }

    /// How many items they carry.
    pub fn item_count(&self) -> u64
        ensures { result ≡ self.now.items }
    {
        self.items
    }
}
