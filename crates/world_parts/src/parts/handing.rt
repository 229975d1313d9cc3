//! Work that a node hands out, and that is put back when it is done.
ghost use Rattle.std.specs.Prelude.{◌≡◌, ◌↔◌, ℕ, length, Err, IsNone, IfOk, OnOk, IfSome};
ghost use Rattle.dpc_model.specs.declared.messages.Event.TheVariants as event;
ghost use Rattle.node_core.specs.declared.faults.Point.{Point};
ghost use Rattle.world_model.specs.Worlds.{World, ready_at};
ghost use Rattle.law_fit.specs.Fits.{CanRun};
ghost use Rattle.world_parts.specs.declared.faults.CommitFault.TheVariants as fault;
ghost use Rattle.world_parts.specs.Events.{IsWorldOf, IsSomeWorld, Happened, WouldPass};
ghost use Rattle.world_parts.specs.Handing.{IsHandedOut, IsTimely, IsStaleAt};

use crate::faults::CommitFault;
use crate::parts::WorldParts;
use crate::slots::down_point;
use actor_roster::roster::Roster;
use dpc_lists::faults::NoMemory;
use dpc_model::actors::Role;
use fragment_mill::mill::FragMill;
use mill_work::milling::Milled;
use mill_work::order::Order;
use node_core::faults::needed_by;
use std::alloc::Global;

impl WorldParts {
    /// Work for the next ready buckets of an actor: all of them, or the most that may be milled at once.
    /// `None` exactly where none is ready.
    pub fn order(
        &self,
        alloc: Global,
        roster: &Roster,
        actor: u64,
    ) -> Result<Option<Order<FragMill>>, NoMemory>
        requires plan { CanRun roster.now }
        requires some { IsSomeWorld roster.now self.now }
        ensures none { IfOk result (λ told. (x : World) (most : ℕ) → IsWorldOf roster.now self.now x most
            → (IsNone told ↔ (ready_at x actor ≡ 0))) }
        ensures some { IfOk result (λ told. IfSome told (IsHandedOut roster.now self.now actor)) }
    {
        let place = self.node_place(roster, actor);
        let Role::Node(_, _) = roster.role_of(actor) else {
            return Ok(None);
        };
        let order = self.nodes[place].order(alloc)?;
        Ok(order)
    }

    /// Compares an order's node with the order: stale exactly where it is down, or stands elsewhere than where
    /// the order was taken. Nothing changes.
    pub fn compare(
        &self,
        alloc: Global,
        roster: &Roster,
        milled: &Milled<FragMill>,
    ) -> Result<(), CommitFault>
        requires plan { CanRun roster.now }
        requires some { IsSomeWorld roster.now self.now }
        ensures fits { OnOk result (IsTimely roster.now self.now milled.now.order) }
        ensures long { (envelopes items : ℕ) → result ≡ Err (fault.TooLong envelopes items) → ⊥ }
        ensures stale { (had needed : Point) → result ≡ Err (fault.Stale had needed)
            → IsStaleAt roster.now self.now milled.now.order had needed }
    {
        let actor = milled.order().node;
        let place = self.node_place(roster, actor);
        let Role::Node(_, _) = roster.role_of(actor) else {
            return Err(CommitFault::Stale {
                had: down_point(self.last_inc(roster, actor)),
                needed: needed_by(milled.order()),
            });
        };
        self.nodes[place].compare(alloc, milled)?;
        Ok(())
    }

    /// Puts work back that was done apart: exactly the event of milling its buckets, where its node is up
    /// and still stands where the order was taken. Where that is stale nothing changes.
    pub fn commit(
        &mut self,
        alloc: Global,
        roster: &Roster,
        milled: Milled<FragMill>,
    ) -> Result<(), CommitFault>
        requires plan { CanRun roster.now }
        requires some { IsSomeWorld roster.now self.old }
        ensures ok { OnOk result (Happened roster.now self.old self.new (event.Mill milled.order.node (length milled.order.buckets))) }
        ensures fits { OnOk result (IsTimely roster.now self.old milled.order) }
        ensures long { (envelopes items : ℕ) → result ≡ Err (fault.TooLong envelopes items)
            → WouldPass roster.now self.old (event.Mill milled.order.node (length milled.order.buckets)) envelopes items }
        ensures stale { (had needed : Point) → result ≡ Err (fault.Stale had needed) → (self.new ≡ self.old)
            × IsStaleAt roster.now self.old milled.order had needed }
    {
        let actor = milled.order().node;
        let place = self.node_place(roster, actor);
        let Role::Node(_, _) = roster.role_of(actor) else {
            return Err(CommitFault::Stale {
                had: down_point(self.last_inc(roster, actor)),
                needed: needed_by(milled.order()),
            });
        };
        let mails = self.nodes[place].commit(alloc, milled)?;
        self.post(actor, mails)?;
        Ok(())
    }
}
