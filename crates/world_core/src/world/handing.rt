//! A node of a world, the work that it hands out, and putting that back when it is done.
ghost use Rattle.std.specs.Prelude.{◌≡◌, ◌↔◌, ℕ, [], ◌∷◌, ◌++◌, true, false, length, Err, IsNone, IfOk, IfErr, OnOk, IfSome};
ghost use Rattle.std.specs.Option.{option_copied};
ghost use Rattle.dpc_model.specs.Actors.{role_of};
ghost use Rattle.dpc_model.specs.declared.messages.Event.TheVariants as event;
ghost use Rattle.node_core.specs.declared.faults.Point.{Point};
ghost use Rattle.law_fit.specs.Fits.{CanRun};
ghost use Rattle.world_model.specs.Worlds.{node_at, ready_at, passes_limit, WouldReach};
ghost use Rattle.world_model.specs.Safe.{IsSafeStep};
ghost use Rattle.law_promises.specs.Promises.{KeepsPromises};
ghost use Rattle.world_parts.specs.Telling.{StandsForRole};
ghost use Rattle.world_core.specs.Handing.{Fits, IsWorkOf, IsStaleAt, is_loss};
ghost use Rattle.world_core.specs.Runs.{world_of};
ghost use Rattle.world_core.specs.declared.faults.ApplyFault.TheVariants as apply;
ghost use Rattle.world_core.specs.declared.faults.CommitFault.TheVariants as fault;

use crate::faults::{ApplyFault, CommitFault};
use crate::world::World;
use dpc_lists::faults::NoMemory;
use dpc_model::actors::narrow;
use dpc_model::messages::Event;
use fragment_mill::mill::FragMill;
use mill_work::milling::Milled;
use mill_work::order::Order;
use node_core::node::Node;
use std::alloc::Global;

/// The event of milling an order's buckets.
fn event_of(order: &Order<FragMill>) -> Result<Event, NoMemory>
    ensures { IfOk result (λ e. e ≡ event.Mill order.now.node (length order.now.buckets)) }
{
    Ok(Event::Mill(narrow(order.node)?, order.buckets.len() as u64))
}

/// Whether a fault leaves the run spent.
pub(crate) fn is_loss(fault: CommitFault) -> bool
    ensures { result ≡ is_loss fault }
{
    !matches!(fault, CommitFault::Stale { .. })
}

impl World {
    /// The node that an actor is, where it is one and is up. The plan can be run, so the node is fit.
    pub fn node(&self, actor: u64) -> Option<&Node>
        requires { self.now.spent ≡ false }
        ensures can_run { CanRun self.now.plan }
        ensures stands { StandsForRole self.now.plan (role_of self.now.plan actor) (option_copied result) (node_at (world_of self.now) actor) }
    {
        self.parts.node(&self.roster, actor)
    }

    /// Work for the next ready buckets of an actor: all of them, or the most that may be milled at once.
    /// `None` exactly where none is ready. Nothing changes.
    pub fn order(&self, alloc: Global, actor: u64) -> Result<Option<Order<FragMill>>, ApplyFault>
        ensures none { IfOk result (λ told. IsNone told ↔ (ready_at (world_of self.now) actor ≡ 0)) }
        ensures some { IfOk result (λ told. IfSome told (IsWorkOf self.now actor)) }
        ensures long { (envelopes items : ℕ) → result ≡ Err (apply.TooLong envelopes items) → ⊥ }
        ensures spent { result ≡ Err apply.Spent ↔ self.now.spent ≡ true }
    {
        if self.spent {
            return Err(ApplyFault::Spent);
        }
        let order = self.parts.order(alloc, &self.roster, actor)?;
        Ok(order)
    }

    /// Compares an order's node with the order: stale exactly as `commit` would answer it. Nothing changes.
    pub fn compare(&self, alloc: Global, milled: &Milled<FragMill>) -> Result<(), CommitFault>
        ensures fits { OnOk result (Fits self.now milled.now.order) }
        ensures stale { (had needed : Point) → result ≡ Err (fault.Stale had needed)
            → IsStaleAt self.now milled.now.order had needed }
        ensures long { (envelopes items : ℕ) → result ≡ Err (fault.TooLong envelopes items) → ⊥ }
        ensures spent { result ≡ Err fault.Spent ↔ self.now.spent ≡ true }
    {
        if self.spent {
            return Err(CommitFault::Spent);
        }
        self.parts.compare(alloc, &self.roster, milled)?;
        Ok(())
    }

    /// Puts work back that was done apart: the event of milling its buckets happens, where its node is up
    /// and still stands where the order was taken; the run keeps all its promises. Where that is stale nothing
    /// changes; each other fault leaves the world spent, and its events those that were.
    pub fn commit(&mut self, alloc: Global, milled: Milled<FragMill>) -> Result<(), CommitFault>
        ensures ok { OnOk result (self.new ≡ record self.old {
          events = self.old.events
              ++ event.Mill milled.order.node (length milled.order.buckets) ∷ [];
        }) }
        ensures within { OnOk result (passes_limit (world_of self.old)
            (event.Mill milled.order.node (length milled.order.buckets)) ≡ false) }
        ensures fits { OnOk result (Fits self.old milled.order) }
        ensures keeps { OnOk result (KeepsPromises self.new.plan self.new.events) }
        ensures step { OnOk result (IsSafeStep (world_of self.old)
            (event.Mill milled.order.node (length milled.order.buckets))) }
        ensures long { (envelopes items : ℕ) → result ≡ Err (fault.TooLong envelopes items)
            → WouldReach (world_of self.old) (event.Mill milled.order.node (length milled.order.buckets)) envelopes items }
        ensures stale { (had needed : Point) → result ≡ Err (fault.Stale had needed) → (self.new ≡ self.old)
            × IsStaleAt self.old milled.order had needed }
        ensures lost { IfErr result (λ why. is_loss why ≡ true → self.new ≡ record self.old { spent = true }) }
        ensures spent { result ≡ Err fault.Spent ↔ self.old.spent ≡ true }
    {
        if self.spent {
            return Err(CommitFault::Spent);
        }
        // spent, but where all goes well or nothing changes
        self.spent = true;
        let event = event_of(milled.order())?;
        self.events.reserve(1)?;
        if let Err(fault) = self.parts.commit(alloc, &self.roster, milled) {
            let fault = CommitFault::from(fault);
            self.spent = is_loss(fault);
            return Err(fault);
        }
        let Ok(()) = self.events.push(event) else {
            unreachable!()
        };
        self.spent = false;
        Ok(())
    }
}
