//! The place of a node: its last incarnation, and the node where it is up.
ghost use Rattle.std.specs.Prelude.{◌≡◌, ℕ, length, None, Err, IsNone, IfOk, OnOk, IfSome};
ghost use Rattle.node_model.specs.Mails.{Packet as PlainPacket};
ghost use Rattle.node_model.specs.Nodes.{Home};
ghost use Rattle.node_model.specs.Making.{IsReplica};
ghost use Rattle.node_core.specs.declared.faults.Point.{Point};
ghost use Rattle.node_core.specs.declared.faults.CommitFault.TheVariants as fault;
ghost use Rattle.world_model.specs.Worlds.{Slot as PlainSlot, home_of, ready_in, restart_slot};
ghost use Rattle.world_parts.specs.Handing.{IsSlotOrder, IsUpAt, IsSlotStale, down_point};
ghost use Rattle.world_parts.specs.Parts.{StandsForSlot};
ghost use Rattle.world_parts.specs.Slots.{CanStep, CanCome, IsStepped, slot_mills, slot_takes, slot_ticks};

use crate::parts::is_clock;
use dpc_lists::faults::NoMemory;
use dpc_model::faults::StepFault;
use dpc_model::plans::Plan;
use fragment_mill::mill::FragMill;
use mill_work::milling::Milled;
use mill_work::order::Order;
use node_core::faults::{CommitFault, Point, needed_by};
use node_core::node::Node;
use node_core::packets::{Mail, Packet};
use std::alloc::Global;
use std::marker::Model;

mod lending;

/// The most buckets that are milled at once.
pub const MOST_MILLED: u64 = 16;

/// Contracts see a `SlotValue`.
#[derive(Drop)]
pub struct Slot {
    pub(crate) last_inc: u64,
    pub(crate) node: Option<Node>,
}

impl Model for Slot {
    ghost use Rattle.std.specs.Coded.{codes};
    ghost use Rattle.dpc_model.specs.FormulaCode.{coded_formula};
    ghost use Rattle.world_parts.specs.Parts.{SlotValue};

    ghost Value = { SlotValue };

    ghost coded = { Prim.hlevel (codes, coded_formula) };

    ghost view = { λ s. record { last_inc = s.last_inc; node = s.node } };
}

/// Where a node stands that is down.
pub(crate) fn down_point(last_inc: u64) -> Point
    ensures { result ≡ down_point last_inc }
{
    Point {
        up: false,
        inc: last_inc,
        cursor: 0,
        ready: 0,
        fits: false,
    }
}

impl Slot {
    /// The node loses all that it has.
    pub(crate) fn crash(&mut self)
        ensures { self.new ≡ record self.old { node = None } }
    {
        self.node = None;
    }

    /// A node that is down begins anew, with a later incarnation than its last one.
    pub(crate) fn restart(
        &mut self,
        alloc: Global,
        plan: &Plan,
        frag: u64,
        replica: u64,
        inc: u64,
    ) -> Result<(), NoMemory>
        requires { IsReplica (home_of plan.now (frag, replica)) }
        ensures { IfOk result (λ _. (x : PlainSlot) → StandsForSlot (home_of plan.now (frag, replica)) self.old x
            → StandsForSlot (home_of plan.now (frag, replica)) self.new (restart_slot (home_of plan.now (frag, replica)) inc x)) }
    {
        if self.node.is_none() && self.last_inc < inc {
            let node = Node::restarted(alloc, plan, frag as usize, replica as usize, inc)?;
            self.node = Some(node);
            self.last_inc = inc;
        }
        Ok(())
    }

    /// The node processes so many ready buckets, where it is up and may.
    pub(crate) fn mill(&mut self, alloc: Global, count: u64) -> Result<Vec<Mail>, StepFault>
        requires { (home : Home) × (x : PlainSlot) × CanStep home self.old x }
        ensures { IfOk result (λ mails. (home : Home) → (x : PlainSlot) → CanStep home self.old x
            → IsStepped home self.new mails.items (slot_mills home count x)) }
    {
        let Some(node) = self.node.as_mut() else {
            return Ok(Vec::new(alloc));
        };
        if count < 1 || count > MOST_MILLED || count > node.ready() {
            return Ok(Vec::new(alloc));
        }
        let mails = node.mill(alloc, count)?;
        Ok(mails)
    }

    /// A packet of an actor comes to the node, where it is up.
    pub(crate) fn deliver(
        &mut self,
        alloc: Global,
        sender: u64,
        packet: &Packet,
    ) -> Result<Vec<Mail>, StepFault>
        requires { (home : Home) × (x : PlainSlot) × (q : PlainPacket) × CanCome sender home self.old x packet.now q }
        ensures { IfOk result (λ mails. (home : Home) → (x : PlainSlot) → (q : PlainPacket)
            → CanCome sender home self.old x packet.now q → IsStepped home self.new mails.items (slot_takes home sender q x)) }
    {
        let Some(node) = self.node.as_mut() else {
            return Ok(Vec::new(alloc));
        };
        let mails = node.deliver(alloc, sender, packet)?;
        Ok(mails)
    }

    /// The node ticks, where it is up and its clock does not fall.
    pub(crate) fn tick(&mut self, alloc: Global, now: u64) -> Result<Vec<Mail>, StepFault>
        requires { (home : Home) × (x : PlainSlot) × CanStep home self.old x }
        ensures { IfOk result (λ mails. (home : Home) → (x : PlainSlot) → CanStep home self.old x
            → IsStepped home self.new mails.items (slot_ticks home now x)) }
    {
        let Some(node) = self.node.as_mut() else {
            return Ok(Vec::new(alloc));
        };
        if !is_clock(node.clock(), now) {
            return Ok(Vec::new(alloc));
        }
        let mails = node.tick(alloc, now)?;
        Ok(mails)
    }

    /// Work for the node's next ready buckets: all of them, or the most that may be milled at once. `None`
    /// exactly where it is down, or none is ready.
    pub(crate) fn order(&self, alloc: Global) -> Result<Option<Order<FragMill>>, NoMemory>
        requires { (home : Home) × (x : PlainSlot) × CanStep home self.now x }
        ensures none { IfOk result (λ told. IsNone told → (home : Home) (x : PlainSlot) → CanStep home self.now x
            → ready_in home x.node ≡ 0) }
        ensures some { IfOk result (λ told. IfSome told (IsSlotOrder self.now)) }
    {
        let Some(node) = self.node.as_ref() else {
            return Ok(None);
        };
        let count = MOST_MILLED.min(node.ready());
        if count == 0 {
            return Ok(None);
        }
        let Ok(order) = node.order(alloc, count) else {
            return Err(NoMemory);
        };
        Ok(Some(order))
    }

    /// Compares the place with an order: stale exactly where its node is down, or stands elsewhere than where
    /// the order was taken. Nothing changes.
    pub(crate) fn compare(
        &self,
        alloc: Global,
        milled: &Milled<FragMill>,
    ) -> Result<(), CommitFault>
        requires { (home : Home) × (x : PlainSlot) × CanStep home self.now x }
        ensures fits { OnOk result (IsUpAt self.now.node milled.now.order) }
        ensures stale { (had needed : Point) → result ≡ Err (fault.Stale had needed)
            → IsSlotStale self.now milled.now.order had needed }
    {
        let Some(node) = self.node.as_ref() else {
            return Err(CommitFault::Stale {
                had: down_point(self.last_inc),
                needed: needed_by(milled.order()),
            });
        };
        node.compare(alloc, milled)?;
        Ok(())
    }

    /// Puts work back that was done apart: exactly the step of `mill`, where the node is up and still stands
    /// where the order was taken. Where that is stale nothing changes.
    pub(crate) fn commit(
        &mut self,
        alloc: Global,
        milled: Milled<FragMill>,
    ) -> Result<Vec<Mail>, CommitFault>
        requires { (home : Home) × (x : PlainSlot) × CanStep home self.old x }
        ensures ok { IfOk result (λ mails. (home : Home) → (x : PlainSlot) → CanStep home self.old x
            → IsStepped home self.new mails.items (slot_mills home (length milled.order.buckets) x)) }
        ensures fits { OnOk result (IsUpAt self.old.node milled.order) }
        ensures stale { (had needed : Point) → result ≡ Err (fault.Stale had needed) → (self.new ≡ self.old)
            × IsSlotStale self.old milled.order had needed }
    {
        let Some(node) = self.node.as_mut() else {
            return Err(CommitFault::Stale {
                had: down_point(self.last_inc),
                needed: needed_by(milled.order()),
            });
        };
        let mails = node.commit(alloc, milled)?;
        Ok(mails)
    }
}
