//! Work that a live run hands out, and putting it back when it is done.
ghost use Rattle.std.specs.Prelude.{◌≡◌, ◌↔◌, ℕ, true, false, length, Ok, Err, IsNone, IfOk, IfErr, IfSome};
ghost use Rattle.dpc_model.specs.declared.messages.Event.TheVariants as event;
ghost use Rattle.node_core.specs.declared.faults.Point.{Point};
ghost use Rattle.world_model.specs.Schedules.{may};
ghost use Rattle.world_model.specs.Worlds.{WouldReach, passes_limit, ready_at};
ghost use Rattle.world_core.specs.Handing.{Fits, IsWorkOf, IsStaleAt, is_loss};
ghost use Rattle.world_core.specs.Runs.{world_of};
ghost use Rattle.world_core.specs.declared.faults.ApplyFault.TheVariants as apply;
ghost use Rattle.world_core.specs.declared.faults.CommitFault.TheVariants as fault;
ghost use Rattle.live_run.specs.Lives.{IsLost, world_in, with_event};

use crate::run::LiveRun;
use dpc_lists::faults::NoMemory;
use dpc_model::actors::narrow;
use dpc_model::messages::Event;
use fragment_mill::mill::FragMill;
use mill_work::milling::Milled;
use mill_work::order::Order;
use std::alloc::Global;
use world_core::faults::{ApplyFault, CommitFault};

/// The event of milling an order's buckets.
fn event_of(order: &Order<FragMill>) -> Result<Event, NoMemory>
    ensures { IfOk result (λ e. e ≡ event.Mill order.now.node (length order.now.buckets)) }
{
    Ok(Event::Mill(narrow(order.node)?, order.buckets.len() as u64))
}

/// Whether a fault leaves the run spent.
pub(crate) fn is_loss(fault: CommitFault) -> bool
    ensures { result ≡ is_loss fault }
{
    !matches!(fault, CommitFault::Stale { .. })
}

impl LiveRun {
    /// Work for the next ready buckets of an actor: all of them, or the most that may be milled at once.
    /// `None` exactly where none is ready. Nothing changes.
    pub fn order(&self, alloc: Global, actor: u64) -> Result<Option<Order<FragMill>>, ApplyFault>
        ensures none { IfOk result (λ told. IsNone told ↔ (ready_at (world_of (world_in self.now)) actor ≡ 0)) }
        ensures some { IfOk result (λ told. IfSome told (IsWorkOf (world_in self.now) actor)) }
        ensures long { (envelopes items : ℕ) → result ≡ Err (apply.TooLong envelopes items) → ⊥ }
        ensures spent { result ≡ Err apply.Spent ↔ self.now.spent ≡ true }
    {
        if self.spent {
            return Err(ApplyFault::Spent);
        }
        let order = self.world.order(alloc, actor)?;
        Ok(order)
    }

    /// Puts work back that was done apart. Stale comes first: where the work is stale that is the answer, and
    /// nothing changes. Else the event of milling its buckets happens where it may come next. False comes exactly
    /// where the work is not stale and the event may not come next, and then nothing changes. Each other fault
    /// leaves the run spent.
    pub fn commit(&mut self, alloc: Global, milled: Milled<FragMill>) -> Result<bool, CommitFault>
        ensures may { IfOk result (λ told. told ≡ may self.old.script self.old.events
            (event.Mill milled.order.node (length milled.order.buckets))) }
        ensures fits { IfOk result (λ _. Fits (world_in self.old) milled.order) }
        ensures yes { result ≡ Ok true → self.new ≡ with_event self.old
            (event.Mill milled.order.node (length milled.order.buckets)) }
        ensures within { result ≡ Ok true → passes_limit (world_of (world_in self.old))
            (event.Mill milled.order.node (length milled.order.buckets)) ≡ false }
        ensures no { result ≡ Ok false → self.new ≡ self.old }
        ensures long { (envelopes items : ℕ) → result ≡ Err (fault.TooLong envelopes items)
            → (self.new ≡ record self.old { spent = true })
            × (may self.old.script self.old.events (event.Mill milled.order.node (length milled.order.buckets)) ≡ true)
            × WouldReach (world_of (world_in self.old)) (event.Mill milled.order.node (length milled.order.buckets)) envelopes items }
        ensures stale { (had needed : Point) → result ≡ Err (fault.Stale had needed) → (self.new ≡ self.old)
            × IsStaleAt (world_in self.old) milled.order had needed }
        ensures lost { IfErr result (λ why. is_loss why ≡ true
            → IsLost self.old self.new (event.Mill milled.order.node (length milled.order.buckets))) }
        ensures spent { result ≡ Err fault.Spent ↔ self.old.spent ≡ true }
    {
        if self.spent {
            return Err(CommitFault::Spent);
        }
        let Ok(e) = event_of(milled.order()) else {
            self.spent = true;
            return Err(CommitFault::NoMemory);
        };
        if !self.may(e) {
            if let Err(fault) = self.world.compare(alloc, &milled) {
                self.spent = is_loss(fault);
                return Err(fault);
            }
            return Ok(false);
        }
        // spent, but where all goes well or nothing changes
        self.spent = true;
        let sent = self.world.envelope_count();
        if let Err(fault) = self.world.commit(alloc, milled) {
            self.spent = is_loss(fault);
            return Err(fault);
        }
        self.course
            .note(alloc, &self.world, &self.timetable, sent, e)?;
        self.spent = false;
        Ok(true)
    }
}
