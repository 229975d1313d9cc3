//! All actors, links and envelopes of a run.
ghost use Rattle.std.specs.Prelude.{◌≡◌, ℕ, ◌<◌, List, ◌++◌, map, length, IfOk, OnOk};
ghost use Rattle.dpc_model.specs.Actors.{nodes_of};
ghost use Rattle.dpc_lists.specs.Lists.{nth, range_with_len};
ghost use Rattle.dpc_model.specs.declared.plans.Plan.{Plan};
ghost use Rattle.node_model.specs.Nodes.{no_fragment};
ghost use Rattle.source_core.specs.Emitting.{opening_source};
ghost use Rattle.world_model.specs.Worlds.{new_world, is_clock};
ghost use Rattle.law_fit.specs.Fits.{CanRun};
ghost use Rattle.world_parts.specs.Parts.{StandsForWorld};
ghost use Rattle.world_parts.specs.Opening.{IsNewSlot, AreNewSlots, replicas_below, AreNewClients};

use crate::envelopes::Envelope;
use crate::slots::Slot;
use client_fold::client::Client;
use dpc_lists::faults::NoMemory;
use dpc_model::plans::Plan;
use node_core::node::Node;
use source_core::source::SourceNode;
use std::alloc::Global;
use std::marker::Model;

mod clients;
mod dispatch;
mod handing;
mod lending;
mod links;
mod node_steps;
mod nodes;
mod post;
mod sources;
mod telling;

/// The greatest clock of a run.
const LAST_CLOCK: u64 = 1 << 40;

/// Whether a clock may move on to `now`.
pub(crate) fn is_clock(old: u64, now: u64) -> bool
    ensures { result ≡ is_clock old now }
{
    old <= now && now <= LAST_CLOCK
}

/// All actors by sort, the links that are cut, and every envelope in order of its number. It doesn't keep
/// the plan: each event is handed its roster. After a fault nothing is known of it. Contracts see a
/// `WorldPartsValue`.
#[derive(Drop)]
pub struct WorldParts {
    sources: Vec<SourceNode>,
    /// By fragment, and then by replica.
    nodes: Vec<Slot>,
    clients: Vec<Client>,
    cuts: Vec<(u64, u64)>,
    envelopes: Vec<Envelope>,
    /// How many items the envelopes carry.
    items: u64,
}

impl Model for WorldParts {
    ghost use Rattle.std.specs.Coded.{codes};
    ghost use Rattle.dpc_model.specs.FormulaCode.{coded_formula};
    ghost use Rattle.std.specs.Prelude.{◌≤◌, length};
    ghost use Rattle.dpc_model.specs.Limits.{most_envelopes, most_items};
    ghost use Rattle.world_parts.specs.Parts.{WorldPartsValue};

    ghost Value = { WorldPartsValue };

    ghost coded = { Prim.hlevel (codes, coded_formula) };

    ghost view = { λ w. record {
      sources = w.sources.items;
      nodes = w.nodes.items;
      clients = w.clients.items;
      cuts = w.cuts.items;
      envelopes = w.envelopes.items;
      items = w.items;
    } };

    ghost invariant = { λ w. (length w.envelopes.items ≤ most_envelopes) × (w.items ≤ most_items) };
}

fn new_sources(alloc: Global, plan: &Plan) -> Result<Vec<SourceNode>, NoMemory>
    ensures { IfOk result (λ sources. sources.items ≡ map (opening_source plan.now) (range_with_len 0 (length plan.now.sources))) }
{
    let mut sources = Vec::with_capacity(alloc, plan.sources.len())?;
    for s in 0..plan.sources.len() {
        sources.push(SourceNode::new(alloc, plan, s)?)?;
    }
    Ok(sources)
}

/// The place of a replica of a fragment.
fn new_slot(alloc: Global, plan: &Plan, frag: usize, replica: usize) -> Result<Slot, NoMemory>
    requires plan { CanRun plan.now }
    requires frag { frag < length plan.now.frags }
    requires replica { replica < (nth no_fragment plan.now.frags frag).replicas }
    ensures { IfOk result (λ slot. IsNewSlot plan.now (frag, replica) slot) }
{
    let node = Node::new(alloc, plan, frag, replica)?;
    Ok(Slot {
        last_inc: 1,
        node: Some(node),
    })
}

/// The replicas of fragment `frag`, behind those before it.
fn push_replicas(
    alloc: Global,
    nodes: &mut Vec<Slot>,
    plan: &Plan,
    frag: usize,
) -> Result<(), NoMemory>
    requires plan { CanRun plan.now }
    requires frag { frag < length plan.now.frags }
    ensures { OnOk result ((before : List (ℕ × ℕ)) → AreNewSlots plan.now before nodes.old.items
        → AreNewSlots plan.now (before ++ replicas_below frag (nth no_fragment plan.now.frags frag).replicas) nodes.new.items) }
{
    for replica in 0..plan.frags.as_slice()[frag].replicas as usize {
        nodes.push(new_slot(alloc, plan, frag, replica)?)?;
    }
    Ok(())
}

fn new_nodes(alloc: Global, plan: &Plan) -> Result<Vec<Slot>, NoMemory>
    requires { CanRun plan.now }
    ensures { IfOk result (λ nodes. AreNewSlots plan.now (nodes_of plan.now) nodes.items) }
{
    let mut nodes = Vec::new(alloc);
    for frag in 0..plan.frags.len() {
        push_replicas(alloc, &mut nodes, plan, frag)?;
    }
    Ok(nodes)
}

fn new_clients(alloc: Global, plan: &Plan) -> Result<Vec<Client>, NoMemory>
    requires { CanRun plan.now }
    ensures { IfOk result (λ clients. AreNewClients plan.now (range_with_len 0 (length plan.now.clients)) clients.items) }
{
    let mut clients = Vec::with_capacity(alloc, plan.clients.len())?;
    for c in 0..plan.clients.len() {
        clients.push(Client::new(alloc, plan, c)?)?;
    }
    Ok(clients)
}

impl WorldParts {
    /// The actors at the opening; nothing was sent.
    pub fn new(alloc: Global, plan: &Plan) -> Result<WorldParts, NoMemory>
        requires { CanRun plan.now }
        ensures { IfOk result (λ parts. StandsForWorld plan.now parts (new_world plan.now)) }
    {
        Ok(WorldParts {
            sources: new_sources(alloc, plan)?,
            nodes: new_nodes(alloc, plan)?,
            clients: new_clients(alloc, plan)?,
            cuts: Vec::new(alloc),
            envelopes: Vec::new(alloc),
            items: 0,
        })
    }
}
