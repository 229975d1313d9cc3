//! The actors of a plan, by number: sources, then the replicas of the fragments, then clients.
ghost use Rattle.std.specs.Prelude.{◌≡◌, ◌+◌, length, slice_get, Some, IfOk, IfErr};
ghost use Rattle.dpc_model.specs.Actors.{nodes_from, role_of, sends_stream, reads_from, are_peers, are_linked};
ghost use Rattle.dpc_lists.specs.Lists.{list_any};

use crate::plans::{FragSpec, Plan, StreamRef};
use dpc_lists::faults::NoMemory;

/// What an actor is: a source, a replica of a fragment (fragment and replica), a client, or nobody.
#[derive(Clone, Copy, PartialEq, Eq, Debug)]
pub enum Role {
    Source(u64),
    Node(u64, u64),
    Client(u64),
    Nobody,
}

/// An actor's number as events and envelopes keep it. One that would pass its range counts as want of
/// memory.
pub fn narrow(actor: u64) -> Result<u32, NoMemory>
    ensures { IfOk result (λ number. number ≡ actor) }
{
    u32::try_from(actor).map_err(|_| NoMemory)
}

/// The fragment and replica of the node of that number, or by how much the number lies past the last one.
fn node_at(frags: &[FragSpec], number: u64) -> Result<(u64, u64), u64>
    ensures found { IfOk result (λ n. slice_get (nodes_from 0 frags.now) number ≡ Some n) }
    ensures past { IfErr result (λ past. number ≡ length (nodes_from 0 frags.now) + past) }
{
    let mut left = number;
    for (f, frag) in frags.iter().enumerate() {
        if left < frag.replicas {
            return Ok((f as u64, left));
        }
        left -= frag.replicas;
    }
    Err(left)
}

/// What the actor of that number is.
pub fn role_of(plan: &Plan, actor: u64) -> Role
    ensures { result ≡ role_of plan.now actor }
{
    let sources = plan.sources.len() as u64;
    if actor < sources {
        return Role::Source(actor);
    }
    match node_at(plan.frags.as_slice(), actor - sources) {
        Ok((frag, replica)) => Role::Node(frag, replica),
        Err(past) => {
            if past < plan.clients.len() as u64 {
                Role::Client(past)
            } else {
                Role::Nobody
            }
        }
    }
}

/// Whether an actor sends a stream.
pub fn sends(stream: StreamRef, sender: Role) -> bool
    ensures { result ≡ sends_stream stream sender }
{
    match (stream, sender) {
        (StreamRef::Source(s), Role::Source(source)) => s == source,
        (StreamRef::Frag(f), Role::Node(frag, _)) => f == frag,
        _ => false,
    }
}

/// Whether an actor sends one of these streams.
pub fn sends_any(streams: &[StreamRef], sender: Role) -> bool
    ensures { result ≡ list_any (λ s. sends_stream s sender) streams.now }
{
    streams.iter().any(|stream| sends(*stream, sender))
}

/// Whether two actors are replicas of one fragment.
pub fn are_replicas(a: Role, b: Role) -> bool
    ensures { result ≡ are_peers a b }
{
    match (a, b) {
        (Role::Node(f, r), Role::Node(g, q)) => f == g && r != q,
        _ => false,
    }
}

/// Whether an actor reads what another one sends.
fn reads_from(plan: &Plan, reader: Role, sender: Role) -> bool
    ensures { result ≡ reads_from plan.now reader sender }
{
    match reader {
        Role::Source(_) | Role::Nobody => false,
        Role::Node(frag, _) => match plan.frags.as_slice().get(frag as usize) {
            Some(frag) => sends_any(frag.inputs.as_slice(), sender),
            None => false,
        },
        Role::Client(client) => match plan.clients.as_slice().get(client as usize) {
            Some(client) => sends(client.input, sender),
            None => false,
        },
    }
}

/// Whether a link joins the actors of these numbers.
pub fn are_linked(plan: &Plan, a: u64, b: u64) -> bool
    ensures { result ≡ are_linked plan.now a b }
{
    let x = role_of(plan, a);
    let y = role_of(plan, b);
    reads_from(plan, x, y) || reads_from(plan, y, x) || are_replicas(x, y)
}
