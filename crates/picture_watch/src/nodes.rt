//! What replicas are.
ghost use Rattle.std.specs.Prelude.{◌≡◌, false, map, length, IfOk};
ghost use Rattle.dpc_model.specs.Actors.{nodes_from};
ghost use Rattle.picture_model.specs.Marking.{promises_of};
ghost use Rattle.picture_model.specs.Points.{promise_of, replica_state, shown_state, up_state};
ghost use Rattle.world_core.specs.Runs.{world_of};
ghost use Rattle.world_model.specs.Schedules.{node_actors};
ghost use Rattle.world_model.specs.Worlds.{node_at};

use dpc_lists::faults::NoMemory;
use dpc_model::messages::NodeState;
use dpc_model::plans::FragSpec;
use picture_model::columns::ReplicaState;
use std::alloc::Global;
use world_core::world::World;

fn shown_state(state: NodeState) -> ReplicaState
    ensures { result ≡ shown_state state }
{
    match state {
        NodeState::Stable => ReplicaState::Stable,
        NodeState::UpFailure => ReplicaState::UpFailure,
        NodeState::Stabilization => ReplicaState::Stabilization,
    }
}

/// What a node that is up is shown as.
fn up_state(recovering: bool, state: NodeState) -> ReplicaState
    ensures { result ≡ up_state recovering state }
{
    if recovering {
        ReplicaState::Recovering
    } else {
        shown_state(state)
    }
}

/// What the replica is that an actor is.
fn replica_state(world: &World, actor: u64) -> ReplicaState
    requires { world.now.spent ≡ false }
    ensures { result ≡ replica_state (node_at (world_of world.now) actor) }
{
    match world.node(actor) {
        Some(node) => up_state(node.recovering(), node.state()),
        None => ReplicaState::Down,
    }
}

/// How many replicas there are. A number that would pass its range counts as want of memory.
fn count_nodes(frags: &[FragSpec]) -> Result<u64, NoMemory>
    ensures { IfOk result (λ count. count ≡ length (nodes_from 0 frags.now)) }
{
    let mut count: u64 = 0;
    for frag in frags {
        count = count.checked_add(frag.replicas).ok_or(NoMemory)?;
    }
    Ok(count)
}

/// To whom the node has its promise that an actor is.
fn promise_of(world: &World, actor: u64) -> Option<usize>
    requires { world.now.spent ≡ false }
    ensures { result ≡ promise_of (node_at (world_of world.now) actor) }
{
    match world.node(actor) {
        Some(node) => node.promised_to(),
        None => None,
    }
}

/// All replicas in order: what they are, and to whom each has its promise.
#[derive(Drop)]
pub(crate) struct Replicas {
    pub(crate) states: Vec<ReplicaState>,
    pub(crate) promises: Vec<Option<usize>>,
}

/// Looks at all replicas.
pub(crate) fn look_at_replicas(alloc: Global, world: &World) -> Result<Replicas, NoMemory>
    requires { world.now.spent ≡ false }
    ensures states { IfOk result (λ seen. seen.states.items
        ≡ map (λ a. replica_state (node_at (world_of world.now) a)) (node_actors world.now.plan)) }
    ensures promises { IfOk result (λ seen. seen.promises.items ≡ promises_of world.now.plan (world_of world.now)) }
{
    let plan = world.plan();
    let first = plan.sources.len() as u64;
    let count = count_nodes(plan.frags.as_slice())?;
    let end = first.checked_add(count).ok_or(NoMemory)?;
    let mut states = Vec::new(alloc);
    let mut promises = Vec::new(alloc);
    for actor in first..end {
        states.push(replica_state(world, actor))?;
        promises.push(promise_of(world, actor))?;
    }
    Ok(Replicas { states, promises })
}
