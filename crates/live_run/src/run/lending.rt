//! The engine of a node, which a live run lends for work that is done apart, and putting that back when it is done.
ghost use Rattle.std.specs.Prelude.{◌≡◌, ◌↔◌, ℕ, true, false, length, Ok, Err, None, IsNone, IfOk, IfErr, IfSome};
ghost use Rattle.dpc_model.specs.declared.messages.Event.TheVariants as event;
ghost use Rattle.law_work.specs.TrueWork.{IsTrueWork};
ghost use Rattle.node_core.specs.declared.faults.Point.{Point};
ghost use Rattle.world_model.specs.Schedules.{may};
ghost use Rattle.world_model.specs.Worlds.{WouldReach, passes_limit, ready_at};
ghost use Rattle.world_core.specs.Handing.{Fits, IsWorkOf, IsStaleAt, is_loss};
ghost use Rattle.world_core.specs.Runs.{world_of};
ghost use Rattle.world_core.specs.declared.faults.ApplyFault.TheVariants as apply;
ghost use Rattle.world_core.specs.declared.faults.CommitFault.TheVariants as fault;
ghost use Rattle.live_run.specs.Lives.{IsLost, IsToBeTried, world_in, with_event};

use crate::run::LiveRun;
use crate::run::handing::is_loss;
use dpc_lists::faults::NoMemory;
use dpc_model::actors::narrow;
use dpc_model::messages::Event;
use fragment_mill::mill::FragMill;
use mill_work::lending::Done;
use mill_work::order::Order;
use std::alloc::Global;
use world_core::faults::{ApplyFault, CommitFault};

/// The event of milling the buckets of work that was done.
fn event_of(done: &Done<FragMill>) -> Result<Event, NoMemory>
    ensures { IfOk result (λ e. e ≡ event.Mill done.now.order.node (length done.now.order.buckets)) }
{
    Ok(Event::Mill(narrow(done.node())?, done.count()))
}

impl LiveRun {
    /// Work for the next ready buckets of an actor, as `order`, but with the node's own engine: a spare one stands in
    /// its place until the work is put back, or the node begins anew. Nothing that contracts see changes, also where it
    /// wants memory. Whatever needs the engine while it is out wants memory, and so does this.
    pub fn lend(&mut self, alloc: Global, actor: u64) -> Result<Option<Order<FragMill>>, ApplyFault>
        ensures none { IfOk result (λ told. IsNone told ↔ (ready_at (world_of (world_in self.old)) actor ≡ 0)) }
        ensures some { IfOk result (λ told. IfSome told (IsWorkOf (world_in self.old) actor)) }
        ensures work { IfOk result (λ told. IfSome told (IsTrueWork self.old.script.plan)) }
        ensures stays { self.new ≡ self.old }
        ensures long { (envelopes items : ℕ) → result ≡ Err (apply.TooLong envelopes items) → ⊥ }
        ensures spent { result ≡ Err apply.Spent ↔ self.old.spent ≡ true }
    {
        if self.spent {
            return Err(ApplyFault::Spent);
        }
        let order = self.world.lend(alloc, actor)?;
        Ok(order)
    }

    /// Puts true work back that was done on a node's own engine. Stale comes first: where the work is stale that is the
    /// answer, and nothing changes. Else the event of milling its buckets happens where it may come next. Where it may
    /// not, nothing changes, and the work is given back, to be tried again. Each other fault leaves the run spent.
    pub fn put_back(
        &mut self,
        alloc: Global,
        done: Done<FragMill>,
    ) -> Result<Option<Done<FragMill>>, CommitFault>
        requires { IsTrueWork self.old.script.plan done.order }
        ensures may { IfOk result (λ told. IsNone told ↔ (may self.old.script self.old.events
            (event.Mill done.order.node (length done.order.buckets)) ≡ true)) }
        ensures fits { IfOk result (λ _. Fits (world_in self.old) done.order) }
        ensures yes { result ≡ Ok None → self.new ≡ with_event self.old
            (event.Mill done.order.node (length done.order.buckets)) }
        ensures within { result ≡ Ok None → passes_limit (world_of (world_in self.old))
            (event.Mill done.order.node (length done.order.buckets)) ≡ false }
        ensures no { IfOk result (λ told. IfSome told (IsToBeTried self.old self.new done)) }
        ensures long { (envelopes items : ℕ) → result ≡ Err (fault.TooLong envelopes items)
            → (self.new ≡ record self.old { spent = true })
            × (may self.old.script self.old.events (event.Mill done.order.node (length done.order.buckets)) ≡ true)
            × WouldReach (world_of (world_in self.old)) (event.Mill done.order.node (length done.order.buckets)) envelopes items }
        ensures stale { (had needed : Point) → result ≡ Err (fault.Stale had needed) → (self.new ≡ self.old)
            × IsStaleAt (world_in self.old) done.order had needed }
        ensures lost { IfErr result (λ why. is_loss why ≡ true
            → IsLost self.old self.new (event.Mill done.order.node (length done.order.buckets))) }
        ensures spent { result ≡ Err fault.Spent ↔ self.old.spent ≡ true }
    {
        if self.spent {
            return Err(CommitFault::Spent);
        }
        let Ok(e) = event_of(&done) else {
            self.spent = true;
            return Err(CommitFault::NoMemory);
        };
        if !self.may(e) {
            if let Err(fault) = self.world.compare_done(&done) {
                self.spent = is_loss(fault);
                return Err(fault);
            }
            return Ok(Some(done));
        }
        // spent, but where all goes well or nothing changes
        self.spent = true;
        let sent = self.world.envelope_count();
        if let Err(fault) = self.world.put_back(alloc, done) {
            self.spent = is_loss(fault);
            return Err(fault);
        }
        self.course
            .note(alloc, &self.world, &self.timetable, sent, e)?;
        self.spent = false;
        Ok(None)
    }
}
