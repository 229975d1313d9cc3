//! The engine of a node, lent for work that is done apart, and putting that back when it is done.
ghost use Rattle.std.specs.Prelude.{◌≡◌, ◌↔◌, ℕ, [], ◌∷◌, ◌++◌, true, false, length, Err, IsNone, IfOk, IfErr, OnOk, IfSome};
ghost use Rattle.dpc_model.specs.declared.messages.Event.TheVariants as event;
ghost use Rattle.law_work.specs.TrueWork.{IsTrueWork};
ghost use Rattle.node_core.specs.declared.faults.Point.{Point};
ghost use Rattle.world_model.specs.Worlds.{ready_at, passes_limit, WouldReach};
ghost use Rattle.world_model.specs.Safe.{IsSafeStep};
ghost use Rattle.law_promises.specs.Promises.{KeepsPromises};
ghost use Rattle.world_core.specs.Handing.{Fits, IsWorkOf, IsStaleAt, is_loss};
ghost use Rattle.world_core.specs.Runs.{world_of};
ghost use Rattle.world_core.specs.declared.faults.ApplyFault.TheVariants as apply;
ghost use Rattle.world_core.specs.declared.faults.CommitFault.TheVariants as fault;

use crate::faults::{ApplyFault, CommitFault};
use crate::world::World;
use crate::world::handing::is_loss;
use dpc_lists::faults::NoMemory;
use dpc_model::actors::narrow;
use dpc_model::messages::Event;
use fragment_mill::mill::FragMill;
use mill_work::lending::Done;
use mill_work::order::Order;
use std::alloc::Global;

/// The event of milling the buckets of work that was done.
fn event_of(done: &Done<FragMill>) -> Result<Event, NoMemory>
    ensures { IfOk result (λ e. e ≡ event.Mill done.now.order.node (length done.now.order.buckets)) }
{
    Ok(Event::Mill(narrow(done.node())?, done.count()))
}

impl World {
    /// Work for the next ready buckets of an actor, as `order`, but with the node's own engine: a spare one stands in
    /// its place until the work is put back, or the node begins anew. Nothing that contracts see changes, also where it
    /// wants memory. Whatever needs the engine while it is out wants memory, and so does this.
    pub fn lend(&mut self, alloc: Global, actor: u64) -> Result<Option<Order<FragMill>>, ApplyFault>
        ensures none { IfOk result (λ told. IsNone told ↔ (ready_at (world_of self.old) actor ≡ 0)) }
        ensures some { IfOk result (λ told. IfSome told (IsWorkOf self.old actor)) }
        ensures work { IfOk result (λ told. IfSome told (IsTrueWork self.old.plan)) }
        ensures stays { self.new ≡ self.old }
        ensures long { (envelopes items : ℕ) → result ≡ Err (apply.TooLong envelopes items) → ⊥ }
        ensures spent { result ≡ Err apply.Spent ↔ self.old.spent ≡ true }
    {
        if self.spent {
            return Err(ApplyFault::Spent);
        }
        let order = self.parts.lend(alloc, &self.roster, actor)?;
        Ok(order)
    }

    /// Compares a node with true work that was done on its own engine, by numbers alone: stale exactly as `put_back`
    /// would answer it. Nothing changes, and it takes no memory.
    pub fn compare_done(&self, done: &Done<FragMill>) -> Result<(), CommitFault>
        requires { IsTrueWork self.now.plan done.now.order }
        ensures fits { OnOk result (Fits self.now done.now.order) }
        ensures stale { (had needed : Point) → result ≡ Err (fault.Stale had needed)
            → IsStaleAt self.now done.now.order had needed }
        ensures long { (envelopes items : ℕ) → result ≡ Err (fault.TooLong envelopes items) → ⊥ }
        ensures enough { result ≡ Err fault.NoMemory → ⊥ }
        ensures spent { result ≡ Err fault.Spent ↔ self.now.spent ≡ true }
    {
        if self.spent {
            return Err(CommitFault::Spent);
        }
        self.parts.compare_done(&self.roster, done)?;
        Ok(())
    }

    /// Puts true work back that was done on a node's own engine: the event of milling its buckets happens, where its
    /// node is up and still stands where it was lent; the run keeps all its promises. Where that is stale nothing
    /// changes; each other fault leaves the world spent, and its events those that were.
    pub fn put_back(&mut self, alloc: Global, done: Done<FragMill>) -> Result<(), CommitFault>
        requires { IsTrueWork self.old.plan done.order }
        ensures ok { OnOk result (self.new ≡ record self.old {
          events = self.old.events ++ event.Mill done.order.node (length done.order.buckets) ∷ [];
        }) }
        ensures within { OnOk result (passes_limit (world_of self.old)
            (event.Mill done.order.node (length done.order.buckets)) ≡ false) }
        ensures fits { OnOk result (Fits self.old done.order) }
        ensures keeps { OnOk result (KeepsPromises self.new.plan self.new.events) }
        ensures step { OnOk result (IsSafeStep (world_of self.old)
            (event.Mill done.order.node (length done.order.buckets))) }
        ensures long { (envelopes items : ℕ) → result ≡ Err (fault.TooLong envelopes items)
            → WouldReach (world_of self.old) (event.Mill done.order.node (length done.order.buckets)) envelopes items }
        ensures stale { (had needed : Point) → result ≡ Err (fault.Stale had needed) → (self.new ≡ self.old)
            × IsStaleAt self.old done.order had needed }
        ensures lost { IfErr result (λ why. is_loss why ≡ true → self.new ≡ record self.old { spent = true }) }
        ensures spent { result ≡ Err fault.Spent ↔ self.old.spent ≡ true }
    {
        if self.spent {
            return Err(CommitFault::Spent);
        }
        // spent, but where all goes well or nothing changes
        self.spent = true;
        let event = event_of(&done)?;
        self.events.reserve(1)?;
        if let Err(fault) = self.parts.put_back(alloc, &self.roster, done) {
            let fault = CommitFault::from(fault);
            self.spent = is_loss(fault);
            return Err(fault);
        }
        let Ok(()) = self.events.push(event) else {
            unreachable!()
        };
        self.spent = false;
        Ok(())
    }
}
