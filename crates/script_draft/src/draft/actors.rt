//! Actors and their names.
ghost use Rattle.std.specs.Prelude.{◌≡◌, ◌<◌, ◌≤◌, ◌++◌, ◌∷◌, Some, None, false, bytes_eq, length, slice_get, MatchOption};
ghost use Rattle.dpc_model.specs.Actors.{nodes_from};
ghost use Rattle.script_rules.specs.Drafts as spec;
ghost use Rattle.script_rules.specs.Reasons as reason;
ghost use Rattle.script_draft.specs.Caches.{HasFewNodes};
ghost use Rattle.script_draft.specs.Nodes.{node_name, names_of_nodes, IsActor, names_of_replicas};

use crate::draft::Draft;
use crate::named::place_of;
use dpc_model::actors::Role;
use dpc_model::plans::FragSpec;

/// Whether an actor is a node.
pub(super) fn is_node(role: Role) -> bool
    ensures { result ≡ reason.is_node role }
{
    matches!(role, Role::Node(_, _))
}

/// An actor by its number, and what it is.
#[derive(Clone, Copy)]
pub(super) struct Actor {
    pub number: u64,
    pub role: Role,
}

/// A node by its place among the nodes: its fragment and its replica.
#[derive(Clone, Copy)]
struct Node {
    place: u64,
    frag: u64,
    replica: u64,
}

/// Whether a name is that of a replica.
fn is_node_name(name: &[u8], fragment: &[u8], replica: u64) -> bool
    requires { replica < 10 }
    ensures { result ≡ bytes_eq name.now (node_name fragment.now replica) }
{
    if name.len() < fragment.len() {
        return false;
    }
    let (front, behind) = name.split_at(fragment.len());
    front == fragment && behind == [b'.', b'0' + replica as u8].as_slice()
}

/// The replica of that name.
fn replica_named(name: &[u8], frag: &FragSpec) -> Option<u64>
    requires { frag.now.replicas ≤ 4 }
    ensures { result ≡ spec.place_of_name name.now (names_of_replicas frag.now) }
{
    for replica in 0..frag.replicas {
        if is_node_name(name, frag.name.as_slice(), replica) {
            return Some(replica);
        }
    }
    None
}

/// The node of that name.
fn node_named(name: &[u8], frags: &[FragSpec]) -> Option<Node>
    requires { HasFewNodes frags.now }
    ensures { MatchOption result (reason.is_among name.now (names_of_nodes frags.now) ≡ false)
        (λ node. (spec.place_of_name name.now (names_of_nodes frags.now) ≡ Some node.place)
        × (slice_get (nodes_from 0 frags.now) node.place ≡ Some (node.frag, node.replica))) }
{
    let mut before = 0;
    for (i, frag) in frags.iter().enumerate() {
        if let Some(replica) = replica_named(name, frag) {
            return Some(Node {
                place: before + replica,
                frag: i as u64,
                replica,
            });
        }
        before += frag.replicas;
    }
    None
}

/// How many nodes there are.
fn count_nodes(frags: &[FragSpec]) -> u64
    requires { HasFewNodes frags.now }
    ensures count { result ≡ length (nodes_from 0 frags.now) }
    ensures few { result ≤ 64 }
{
    let mut count = 0;
    for frag in frags {
        count += frag.replicas;
    }
    count
}

impl Draft {
    /// The actor of that name.
    pub(super) fn actor(&self, name: &[u8]) -> Option<Actor>
        ensures { MatchOption result (spec.actor_named self.now name.now ≡ None)
            (λ actor. IsActor self.now name.now actor.number actor.role) }
    {
        if let Some(source) = self.source_named(name) {
            return Some(Actor {
                number: source,
                role: Role::Source(source),
            });
        }
        let sources = self.sources.len() as u64;
        if let Some(node) = node_named(name, self.frags.as_slice()) {
            return Some(Actor {
                number: sources + node.place,
                role: Role::Node(node.frag, node.replica),
            });
        }
        let client = place_of(name, self.clients.as_slice())?;
        Some(Actor {
            number: sources + count_nodes(self.frags.as_slice()) + client,
            role: Role::Client(client),
        })
    }

    /// The number of the actor of that name.
    pub fn actor_named(&self, name: &[u8]) -> Option<u64>
        ensures { result ≡ spec.actor_named self.now name.now }
    {
        match self.actor(name) {
            Some(actor) => Some(actor.number),
            None => None,
        }
    }
}
