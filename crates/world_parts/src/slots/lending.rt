//! The engine of a place's node, lent for work that is done apart, and put back.
ghost use Rattle.std.specs.Prelude.{◌≡◌, ℕ, length, Err, IsNone, IfOk, OnOk, IfSome};
ghost use Rattle.node_core.specs.declared.faults.CommitFault.TheVariants as fault;
ghost use Rattle.node_core.specs.declared.faults.Point.{Point};
ghost use Rattle.node_model.specs.Making.{IsReplica};
ghost use Rattle.node_model.specs.Nodes.{Home};
ghost use Rattle.world_model.specs.Worlds.{Slot as PlainSlot, home_of, ready_in};
ghost use Rattle.world_parts.specs.Handing.{IsSlotOrder};
ghost use Rattle.world_parts.specs.Lending.{CanCompare, IsWorkFor, IsLateFor};
ghost use Rattle.world_parts.specs.Slots.{CanStep, IsStepped, slot_mills};

use crate::slots::{MOST_MILLED, Slot, down_point};
use dpc_lists::faults::NoMemory;
use dpc_model::plans::Plan;
use fragment_mill::mill::FragMill;
use mill_work::lending::Done;
use mill_work::order::Order;
use node_core::faults::{CommitFault, needed_when_done};
use node_core::packets::Mail;
use std::alloc::Global;

impl Slot {
    /// Work for the node's next ready buckets, as `order`, but with the node's own engine: a new one of its
    /// fragment's operators stands in its place. Nothing that contracts see changes.
    pub(crate) fn lend(
        &mut self,
        alloc: Global,
        plan: &Plan,
        frag: u64,
    ) -> Result<Option<Order<FragMill>>, NoMemory>
        requires { (replica : ℕ) × (x : PlainSlot) × IsReplica (home_of plan.now (frag, replica))
            × CanStep (home_of plan.now (frag, replica)) self.old x }
        ensures none { IfOk result (λ told. IsNone told → (home : Home) (x : PlainSlot) → CanStep home self.old x
            → ready_in home x.node ≡ 0) }
        ensures some { IfOk result (λ told. IfSome told (IsSlotOrder self.old)) }
        ensures stays { self.new ≡ self.old }
    {
        let Some(node) = self.node.as_mut() else {
            return Ok(None);
        };
        let count = MOST_MILLED.min(node.ready());
        if count == 0 {
            return Ok(None);
        }
        let spare = FragMill::new(alloc, plan, frag)?;
        let Ok(order) = node.lend(alloc, count, spare) else {
            return Err(NoMemory);
        };
        Ok(Some(order))
    }

    /// Compares the place with work that was done on its node's own engine, by numbers alone: stale exactly
    /// where its node is down, or stands elsewhere than where it was lent. Nothing changes, and it takes no
    /// memory.
    pub(crate) fn compare_done(&self, done: &Done<FragMill>) -> Result<(), CommitFault>
        ensures fits { OnOk result ((home : Home) (x : PlainSlot) → CanCompare done.now.order home self.now x
            → IsWorkFor done.now.order home x) }
        ensures stale { (had needed : Point) → result ≡ Err (fault.Stale had needed)
            → (home : Home) (x : PlainSlot) → CanCompare done.now.order home self.now x
            → IsLateFor done.now.order had needed home x }
        ensures enough { result ≡ Err fault.NoMemory → ⊥ }
        ensures unspent { (home : Home) (x : PlainSlot) → CanStep home self.now x → result ≡ Err fault.Spent → ⊥ }
    {
        let Some(node) = self.node.as_ref() else {
            return Err(CommitFault::Stale {
                had: down_point(self.last_inc),
                needed: needed_when_done(done),
            });
        };
        node.compare_done(done)?;
        Ok(())
    }

    /// Puts work back that was done on the node's own engine: exactly the step of `mill`, where the node is up
    /// and still stands where it was lent. Where that is stale nothing changes.
    pub(crate) fn put_back(
        &mut self,
        alloc: Global,
        done: Done<FragMill>,
    ) -> Result<Vec<Mail>, CommitFault>
        requires { (home : Home) × (x : PlainSlot) × CanCompare done.order home self.old x }
        ensures ok { IfOk result (λ mails. (home : Home) → (x : PlainSlot) → CanCompare done.order home self.old x
            → IsStepped home self.new mails.items (slot_mills home (length done.order.buckets) x)) }
        ensures fits { OnOk result ((home : Home) (x : PlainSlot) → CanCompare done.order home self.old x
            → IsWorkFor done.order home x) }
        ensures stale { (had needed : Point) → result ≡ Err (fault.Stale had needed) → (self.new ≡ self.old)
            × ((home : Home) (x : PlainSlot) → CanCompare done.order home self.old x → IsLateFor done.order had needed home x) }
    {
        let Some(node) = self.node.as_mut() else {
            return Err(CommitFault::Stale {
                had: down_point(self.last_inc),
                needed: needed_when_done(&done),
            });
        };
        let mails = node.put_back(alloc, done)?;
        Ok(mails)
    }
}
