//! Questions that are asked of every actor.
ghost use Rattle.std.specs.Prelude.{◌≡◌, ◌+◌, ◌^◌, ◌<◌, ◌++◌, ◌==◌, ℕ, map, length, position, IfOk, OnOk};
ghost use Rattle.dpc_lists.specs.Lists.{nth, list_any, range_with_len, place_of};
ghost use Rattle.dpc_model.specs.Actors.{same_stream, inputs_of, nodes_of, roles_of, actors_where, senders_of, readers_of, replicas_of};
ghost use Rattle.dpc_model.specs.declared.actors.Role.TheVariants.{Source as IsSource, Node as IsNode, Client as IsClient};
ghost use Rattle.actor_lists.specs.Questions.{holds};

use dpc_lists::faults::NoMemory;
use dpc_model::actors::{Role, sends};
use dpc_model::plans::{Plan, StreamRef};
use std::alloc::{AllocError, Global};

/// What is asked of an actor.
#[derive(Clone, Copy, PartialEq, Eq)]
enum Question {
    Sends(StreamRef),
    Reads(StreamRef),
    IsReplicaOf(u64),
}

/// Whether this stream is among those.
fn has_stream(stream: StreamRef, streams: &[StreamRef]) -> bool
    ensures { result ≡ list_any (same_stream stream) streams.now }
{
    streams.iter().any(|other| *other == stream)
}

/// Whether an actor reads a stream.
fn reads(plan: &Plan, stream: StreamRef, reader: Role) -> bool
    ensures { result ≡ list_any (same_stream stream) (inputs_of plan.now reader) }
{
    match reader {
        Role::Source(_) | Role::Nobody => false,
        Role::Node(frag, _) => match plan.frags.as_slice().get(frag as usize) {
            Some(frag) => has_stream(stream, frag.inputs.as_slice()),
            None => false,
        },
        Role::Client(client) => match plan.clients.as_slice().get(client as usize) {
            Some(client) => client.input == stream,
            None => false,
        },
    }
}

/// Whether the answer is yes.
fn holds(plan: &Plan, question: Question, role: Role) -> bool
    ensures { result ≡ holds plan.now question role }
{
    match question {
        Question::Sends(stream) => sends(stream, role),
        Question::Reads(stream) => reads(plan, stream, role),
        Question::IsReplicaOf(frag) => match role {
            Role::Node(other, _) => frag == other,
            _ => false,
        },
    }
}

#[tactic(auto, using(crate::proofs::Roles::more))]
fn push_sources(roles: &mut Vec<Role>, count: usize) -> Result<(), AllocError>
    ensures { OnOk result (roles.new.items ≡ roles.old.items ++ map IsSource (range_with_len 0 count)) }
{
    for source in 0..count {
        roles.push(Role::Source(source as u64))?;
    }
    Ok(())
}

#[tactic(auto, using(crate::proofs::Roles::more))]
fn push_replicas(roles: &mut Vec<Role>, frag: u64, replicas: u64) -> Result<(), AllocError>
    ensures { OnOk result (roles.new.items ≡ roles.old.items ++ map (IsNode frag) (range_with_len 0 replicas)) }
{
    for replica in 0..replicas {
        roles.push(Role::Node(frag, replica))?;
    }
    Ok(())
}

fn push_nodes(roles: &mut Vec<Role>, plan: &Plan) -> Result<(), AllocError>
    ensures { OnOk result (roles.new.items ≡ roles.old.items ++ map (λ n. IsNode n.0 n.1) (nodes_of plan.now)) }
{
    for (f, frag) in plan.frags.as_slice().iter().enumerate() {
        push_replicas(roles, f as u64, frag.replicas)?;
    }
    Ok(())
}

#[tactic(auto, using(crate::proofs::Roles::more))]
fn push_clients(roles: &mut Vec<Role>, count: usize) -> Result<(), AllocError>
    ensures { OnOk result (roles.new.items ≡ roles.old.items ++ map IsClient (range_with_len 0 count)) }
{
    for client in 0..count {
        roles.push(Role::Client(client as u64))?;
    }
    Ok(())
}

/// All actors in order of their numbers.
pub fn roles_of(alloc: Global, plan: &Plan) -> Result<Vec<Role>, NoMemory>
    ensures { IfOk result (λ roles. roles.items ≡ roles_of plan.now) }
{
    let mut roles = Vec::new(alloc);
    push_sources(&mut roles, plan.sources.len())?;
    push_nodes(&mut roles, plan)?;
    push_clients(&mut roles, plan.clients.len())?;
    Ok(roles)
}

/// The actors of which it holds, in order.
fn actors_where(alloc: Global, plan: &Plan, question: Question) -> Result<Vec<u64>, NoMemory>
    ensures { IfOk result (λ actors. actors.items ≡ actors_where (holds plan.now question) plan.now) }
{
    let roles = roles_of(alloc, plan)?;
    let mut actors = Vec::new(alloc);
    for (actor, role) in roles.iter().enumerate() {
        if holds(plan, question, *role) {
            actors.push(actor as u64)?;
        }
    }
    Ok(actors)
}

/// The senders of a stream: its source, or the replicas in order.
pub fn senders_of(alloc: Global, plan: &Plan, stream: StreamRef) -> Result<Vec<u64>, NoMemory>
    ensures { IfOk result (λ actors. actors.items ≡ senders_of plan.now stream) }
{
    actors_where(alloc, plan, Question::Sends(stream))
}

/// The readers of a stream in order.
pub fn readers_of(alloc: Global, plan: &Plan, stream: StreamRef) -> Result<Vec<u64>, NoMemory>
    ensures { IfOk result (λ actors. actors.items ≡ readers_of plan.now stream) }
{
    actors_where(alloc, plan, Question::Reads(stream))
}

/// The replicas of a fragment, by number.
pub fn replicas_of(alloc: Global, plan: &Plan, frag: u64) -> Result<Vec<u64>, NoMemory>
    ensures { IfOk result (λ actors. actors.items ≡ replicas_of plan.now frag) }
{
    actors_where(alloc, plan, Question::IsReplicaOf(frag))
}

/// The actor at a place; 0 where there is none.
pub fn actor_at(actors: &[u64], place: u64) -> u64
    ensures { result ≡ nth 0 actors.now place }
{
    actors.get(place as usize).copied().unwrap_or(0)
}

/// The place of the first of the actors that is this one.
fn position_of(actors: &[u64], actor: u64) -> Option<usize>
    ensures { result ≡ position (λ (other : ℕ). other == actor) actors.now }
{
    actors.iter().position(|other| *other == actor)
}

/// The place of an actor among others; `None` exactly where it is none of them.
pub fn place_of(actors: &[u64], actor: u64) -> Option<usize>
    ensures { result ≡ place_of (λ other. actor == other) actors.now }
{
    position_of(actors, actor)
}
