//! A replica of a fragment: it delays, processes and corrects.
ghost use Rattle.std.specs.Prelude.{◌≡◌, ◌↔◌, ℕ, true, false, Err, IsTrue, is_err, option_map, IfOk, OnOk};
ghost use Rattle.dpc_model.specs.Granting.{Key};
ghost use Rattle.dpc_model.specs.declared.faults.StepFault.TheVariants as fault;
ghost use Rattle.node_model.specs.Mails.{Packet as PlainPacket};
ghost use Rattle.node_model.specs.Nodes.{Home, PlainNode, new_node, restarted_node, ready};
ghost use Rattle.node_model.specs.NodeSteps.{tick_step};
ghost use Rattle.node_model.specs.Making.{IsReplica};
ghost use Rattle.node_core.specs.Milling.{CanMillNode, MillSteps};
ghost use Rattle.node_core.specs.Standing.{StandsForNode};
ghost use Rattle.node_core.specs.Stepping.{IsSound, Steps, TickServes, CanTake, IsTaken};

use crate::packets::{Mail, Packet};
use actor_lists::lists::readers_of;
use dpc_lists::faults::NoMemory;
use dpc_model::faults::StepFault;
use dpc_model::messages::NodeState;
use dpc_model::plans::{Plan, StreamRef};
use node_links::links::Links;
use pipeline::pipeline::Pipeline;
use std::alloc::Global;
use std::marker::Model;

mod announce;
mod committing;
mod deliver;
mod handing;
mod lending;
mod mill;
mod recover;
mod tick;

/// A replica of a fragment. A call that wants memory leaves it spent. Contracts see a `NodeValue`.
#[derive(Drop)]
pub struct Node {
    path: Pipeline,
    links: Links,
    /// The readers of the output, as actors.
    readers: Vec<u64>,
    clock: u64,
    state: NodeState,
    recovering: bool,
    spent: bool,
}

impl Model for Node {
    ghost use Rattle.std.specs.Coded.{codes};
    ghost use Rattle.dpc_model.specs.FormulaCode.{coded_formula};
    ghost use Rattle.node_core.specs.Standing.{NodeValue};

    ghost Value = { NodeValue };

    ghost coded = { Prim.hlevel (codes, coded_formula) };

    ghost view = { λ n. record {
      path = n.path;
      links = n.links;
      readers = n.readers.items;
      clock = n.clock;
      state = n.state;
      recovering = n.recovering;
      spent = n.spent;
    } };
}

impl Node {
    /// Replica `replica` of fragment `frag` at the opening.
    pub fn new(alloc: Global, plan: &Plan, frag: usize, replica: usize) -> Result<Node, NoMemory>
        requires { IsReplica (record { plan = plan.now; frag = frag; replica = replica }) }
        ensures stands { IfOk result (λ n. StandsForNode (record { plan = plan.now; frag = frag; replica = replica }) n
            (new_node (record { plan = plan.now; frag = frag; replica = replica }))) }
        ensures fresh { IfOk result (λ n. n.spent ≡ false) }
    {
        let readers = readers_of(alloc, plan, StreamRef::Frag(frag as u64))?;
        let path = Pipeline::open(alloc, plan, frag, readers.len(), replica == 0)?;
        Ok(Node {
            path,
            links: Links::new(alloc, plan, frag, replica, 1)?,
            readers,
            clock: 0,
            state: NodeState::Stable,
            recovering: false,
            spent: false,
        })
    }

    /// Replica `replica` of fragment `frag` after a restart with a new incarnation: it has nothing, and is
    /// recovering.
    pub fn restarted(
        alloc: Global,
        plan: &Plan,
        frag: usize,
        replica: usize,
        inc: u64,
    ) -> Result<Node, NoMemory>
        requires { IsReplica (record { plan = plan.now; frag = frag; replica = replica }) }
        ensures stands { IfOk result (λ n. StandsForNode (record { plan = plan.now; frag = frag; replica = replica }) n
            (restarted_node (record { plan = plan.now; frag = frag; replica = replica }) inc)) }
        ensures fresh { IfOk result (λ n. n.spent ≡ false) }
    {
        let readers = readers_of(alloc, plan, StreamRef::Frag(frag as u64))?;
        let path = Pipeline::restart(alloc, plan, frag, readers.len(), inc)?;
        Ok(Node {
            path,
            links: Links::new(alloc, plan, frag, replica, inc)?,
            readers,
            clock: 0,
            state: NodeState::Stabilization,
            recovering: true,
            spent: false,
        })
    }

    /// A packet of an actor comes.
    pub fn deliver(
        &mut self,
        alloc: Global,
        sender: u64,
        packet: &Packet,
    ) -> Result<Vec<Mail>, StepFault>
        requires { self.old.spent ≡ false → (home : Home) × (p : PlainNode) × (q : PlainPacket)
            × CanTake sender self.old packet.now home p q }
        ensures taken { IfOk result (λ mails. (home : Home) → (p : PlainNode) → (q : PlainPacket)
            → CanTake sender self.old packet.now home p q → IsTaken sender self.new mails.items home p q) }
        ensures spent { result ≡ Err fault.Spent ↔ self.old.spent ≡ true }
        ensures stays { IsTrue self.new.spent ↔ IsTrue (is_err result) }
    {
        if self.spent {
            return Err(StepFault::Spent);
        }
        let Ok(mails) = self.take(alloc, sender, packet) else {
            self.spent = true;
            return Err(StepFault::NoMemory);
        };
        Ok(mails)
    }

    /// The clock moves on to `now`. A tick that leaves the node outside STABILIZATION serves: no bucket is due
    /// behind it, and what it processed stands in the last batch of each open session.
    pub fn tick(&mut self, alloc: Global, now: u64) -> Result<Vec<Mail>, StepFault>
        requires { self.old.spent ≡ false → IsSound self.old }
        ensures after { IfOk result (λ mails. Steps (λ home p. tick_step home now p) self.old self.new mails.items) }
        ensures serves { OnOk result (TickServes now self.old) }
        ensures spent { result ≡ Err fault.Spent ↔ self.old.spent ≡ true }
        ensures stays { IsTrue self.new.spent ↔ IsTrue (is_err result) }
    {
        if self.spent {
            return Err(StepFault::Spent);
        }
        let Ok(mails) = self.on_tick(alloc, now) else {
            self.spent = true;
            return Err(StepFault::NoMemory);
        };
        Ok(mails)
    }

    /// Processes so many ready buckets.
    pub fn mill(&mut self, alloc: Global, count: u64) -> Result<Vec<Mail>, StepFault>
        requires { self.old.spent ≡ false → CanMillNode count self.old }
        ensures after { IfOk result (λ mails. MillSteps count self.old self.new mails.items) }
        ensures spent { result ≡ Err fault.Spent ↔ self.old.spent ≡ true }
        ensures stays { IsTrue self.new.spent ↔ IsTrue (is_err result) }
    {
        if self.spent {
            return Err(StepFault::Spent);
        }
        let Ok(mails) = self.process_ready(alloc, count) else {
            self.spent = true;
            return Err(StepFault::NoMemory);
        };
        Ok(mails)
    }

    /// STABLE, UP_FAILURE or STABILIZATION.
    pub fn state(&self) -> NodeState
        ensures { result ≡ self.now.state }
    {
        self.state
    }

    /// The clock of the last tick.
    pub fn clock(&self) -> u64
        ensures { result ≡ self.now.clock }
    {
        self.clock
    }

    /// Whether it has lost its state, and waits for a snapshot or for word that there is none.
    pub fn recovering(&self) -> bool
        ensures { result ≡ self.now.recovering }
    {
        self.recovering
    }

    /// The place, among the replicas of its fragment, of the one that has its promise.
    pub fn promised_to(&self) -> Option<usize>
        ensures { result ≡ option_map (λ (p : ℕ × Key). p.0) self.now.links.known.grants.promise }
    {
        self.links.promised_to()
    }

    /// The first bucket that is not processed stably.
    pub fn cursor(&self) -> u64
        ensures { result ≡ self.now.path.union.union.cursor }
    {
        self.path.inputs().cursor()
    }

    /// How many buckets may be milled. It takes no memory.
    pub fn ready(&self) -> u64
        ensures { (home : Home) (p : PlainNode) → StandsForNode home self.now p → result ≡ ready home p }
    {
        if self.recovering {
            return 0;
        }
        self.path.ready()
    }
}
