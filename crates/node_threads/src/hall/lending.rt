//! Work on a node's own engine, which is lent for it, and put back when it is done.
ghost use Rattle.std.specs.Prelude.{◌≡◌, ◌↔◌, ℕ, true, length, Ok, Err, Some, None, IfOk, IfErr, IsNone, IsTrue, IfSome};
ghost use Rattle.dpc_model.specs.declared.messages.Event.TheVariants as event;
ghost use Rattle.law_work.specs.TrueWork.{IsTrueWork};
ghost use Rattle.node_core.specs.declared.faults.Point.{Point};
ghost use Rattle.world_model.specs.Worlds.{ready_at};
ghost use Rattle.world_model.specs.Schedules.{may};
ghost use Rattle.world_core.specs.Runs.{world_of};
ghost use Rattle.world_core.specs.Handing.{Fits, IsWorkOf, IsStaleAt, is_loss};
ghost use Rattle.world_core.specs.declared.faults.ApplyFault.TheVariants as apply_fault;
ghost use Rattle.world_core.specs.declared.faults.CommitFault.TheVariants as commit_fault;
ghost use Rattle.live_run.specs.Lives.{IsLost, world_in, with_event};
ghost use Rattle.node_threads.specs.Halls.{GrowTogether, counted_one};

use crate::hall::{Hall, count_of, stop_at_mill};
use event_shares::names::RunName;
use event_shares::share::Share;
use fragment_mill::mill::FragMill;
use mill_work::lending::Done;
use mill_work::order::Order;
use std::alloc::Global;
use world_core::faults::{ApplyFault, CommitFault};

/// Whether the event of work that was put back happened.
fn has_happened(told: &Result<Option<Done<FragMill>>, CommitFault>) -> bool
    ensures { IsTrue result ↔ (told.now ≡ Ok None) }
{
    match told {
        Ok(back) => back.is_none(),
        Err(_) => false,
    }
}

impl<N: RunName> Hall<N> {
    /// Work for the next ready buckets of an actor, as `order`, but with the node's own engine: a spare one stands in
    /// its place until the work is put back, or the node begins anew. Nothing that contracts see changes, also where it
    /// wants memory. Whatever needs the engine while it is out wants memory, and so does this.
    pub fn lend(&mut self, alloc: Global, node: u64) -> Result<Option<Order<FragMill>>, ApplyFault>
        ensures none { IfOk result (λ told. IsNone told ↔ (ready_at (world_of (world_in self.old.run)) node ≡ 0)) }
        ensures some { IfOk result (λ told. IfSome told (IsWorkOf (world_in self.old.run) node)) }
        ensures work { IfOk result (λ told. IfSome told (IsTrueWork N.script.plan)) }
        ensures stays { self.new ≡ self.old }
        ensures long { (envelopes items : ℕ) → result ≡ Err (apply_fault.TooLong envelopes items) → ⊥ }
        ensures spent { result ≡ Err apply_fault.Spent ↔ self.old.run.spent ≡ true }
    {
        self.run.lend(alloc, node)
    }

    /// Tries to put work back that was done on a node's own engine: where it is stale nothing changes; else the event of
    /// milling its buckets happens where it may come next, and is counted in the share, and where it may not nothing
    /// changes, and the work is given back, to be tried again. Any other fault leaves it as one of `event` does.
    pub fn put_back(
        &mut self,
        alloc: Global,
        done: Done<FragMill>,
        share: &mut Share<N>,
    ) -> Result<Option<Done<FragMill>>, CommitFault>
        requires { IsTrueWork N.script.plan done.order }
        ensures asked { IfOk result (λ told. IsNone told ↔ (may N.script self.old.run.events
            (event.Mill done.order.node (length done.order.buckets)) ≡ true)) }
        ensures fits { IfOk result (λ _. Fits (world_in self.old.run) done.order) }
        ensures yes { result ≡ Ok None
            → (self.new ≡ record self.old { run = with_event self.old.run (event.Mill done.order.node (length done.order.buckets)) })
            × (share.new ≡ counted_one share.old) }
        ensures no { IfOk result (λ told. IfSome told (λ back. (back ≡ done) × (self.new ≡ self.old) × (share.new ≡ share.old))) }
        ensures stale { (had needed : Point) → result ≡ Err (commit_fault.Stale had needed)
            → (self.new ≡ self.old) × (share.new ≡ share.old) × IsStaleAt (world_in self.old.run) done.order had needed }
        ensures long { (envelopes items : ℕ) → result ≡ Err (commit_fault.TooLong envelopes items)
            → (self.new ≡ record {
              run = record self.old.run { spent = true };
              stop = Some (record { event = event.Mill done.order.node (length done.order.buckets); envelopes = envelopes; items = items });
            }) × (share.new ≡ share.old) }
        ensures lost { IfErr result (λ why. is_loss why ≡ true
            → IsLost self.old.run self.new.run (event.Mill done.order.node (length done.order.buckets))) }
        ensures together { GrowTogether self.old.run self.new.run share.old share.new }
        ensures spent { result ≡ Err commit_fault.Spent ↔ self.old.run.spent ≡ true }
    {
        if self.run.is_spent() {
            return Err(CommitFault::Spent);
        }
        let before = count_of(&self.run);
        let (node, count) = (done.node(), done.count());
        let told = self.run.put_back(alloc, done);
        if has_happened(&told) {
            share.count(&mut self.book);
            return told;
        }
        match told {
            Ok(_) => {}
            Err(fault) => match fault {
                CommitFault::TooLong { envelopes, items } => {
                    self.stop = Some(stop_at_mill(node, count, envelopes, items)?);
                }
                CommitFault::NoMemory => {
                    if count_of(&self.run) > before {
                        share.count(&mut self.book);
                    }
                }
                CommitFault::Stale { .. } => {}
                CommitFault::Spent => {}
            },
        }
        told
    }
}
