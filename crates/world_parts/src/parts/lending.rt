//! Work on a node's own engine, which is lent for it, and put back when it is done.
ghost use Rattle.std.specs.Prelude.{◌≡◌, ◌↔◌, ℕ, length, Err, IsNone, IfOk, OnOk, IfSome};
ghost use Rattle.dpc_model.specs.declared.messages.Event.TheVariants as event;
ghost use Rattle.law_fit.specs.Fits.{CanRun};
ghost use Rattle.law_work.specs.TrueWork.{IsTrueWork};
ghost use Rattle.node_core.specs.declared.faults.Point.{Point};
ghost use Rattle.world_model.specs.Worlds.{World, ready_at};
ghost use Rattle.world_parts.specs.declared.faults.CommitFault.TheVariants as fault;
ghost use Rattle.world_parts.specs.Events.{IsWorldOf, IsSomeWorld, Happened, WouldPass};
ghost use Rattle.world_parts.specs.Handing.{IsHandedOut};
ghost use Rattle.world_parts.specs.Lending.{IsTimelyIn, IsLateIn};

use crate::faults::CommitFault;
use crate::parts::WorldParts;
use crate::slots::down_point;
use actor_roster::roster::Roster;
use dpc_lists::faults::NoMemory;
use dpc_model::actors::Role;
use fragment_mill::mill::FragMill;
use mill_work::lending::Done;
use mill_work::order::Order;
use node_core::faults::needed_when_done;
use std::alloc::Global;

impl WorldParts {
    /// Work for the next ready buckets of an actor, as `order`, but with the node's own engine: a spare one
    /// stands in its place until the work is put back, or the node begins anew. Nothing that contracts see
    /// changes, also where it wants memory. Whatever needs the engine while it is out wants memory, and so
    /// does this.
    pub fn lend(
        &mut self,
        alloc: Global,
        roster: &Roster,
        actor: u64,
    ) -> Result<Option<Order<FragMill>>, NoMemory>
        requires plan { CanRun roster.now }
        requires some { IsSomeWorld roster.now self.old }
        ensures none { IfOk result (λ told. (x : World) (most : ℕ) → IsWorldOf roster.now self.old x most
            → (IsNone told ↔ (ready_at x actor ≡ 0))) }
        ensures some { IfOk result (λ told. IfSome told (IsHandedOut roster.now self.old actor)) }
        ensures stays { self.new ≡ self.old }
    {
        let place = self.node_place(roster, actor);
        let Role::Node(frag, _) = roster.role_of(actor) else {
            return Ok(None);
        };
        let order = self.nodes[place].lend(alloc, roster.plan(), frag)?;
        Ok(order)
    }

    /// Compares a node with true work that was done on its own engine, by numbers alone: stale exactly where it
    /// is down, or stands elsewhere than where it was lent. Nothing changes, and it takes no memory.
    pub fn compare_done(&self, roster: &Roster, done: &Done<FragMill>) -> Result<(), CommitFault>
        requires plan { CanRun roster.now }
        requires some { IsSomeWorld roster.now self.now }
        requires work { IsTrueWork roster.now done.now.order }
        ensures fits { OnOk result ((x : World) (most : ℕ) → IsWorldOf roster.now self.now x most
            → IsTimelyIn roster.now x done.now.order) }
        ensures long { (envelopes items : ℕ) → result ≡ Err (fault.TooLong envelopes items) → ⊥ }
        ensures stale { (had needed : Point) → result ≡ Err (fault.Stale had needed)
            → (x : World) (most : ℕ) → IsWorldOf roster.now self.now x most
            → IsLateIn roster.now x done.now.order had needed }
        ensures enough { result ≡ Err fault.NoMemory → ⊥ }
    {
        let needed = needed_when_done(done);
        let actor = done.node();
        let place = self.node_place(roster, actor);
        let Role::Node(_, _) = roster.role_of(actor) else {
            let had = down_point(self.last_inc(roster, actor));
            return Err(CommitFault::Stale { had, needed });
        };
        self.nodes[place].compare_done(done)?;
        Ok(())
    }

    /// Puts true work back that was done on a node's own engine: exactly the event of milling its buckets, where
    /// its node is up and still stands where it was lent. Where that is stale nothing changes.
    pub fn put_back(
        &mut self,
        alloc: Global,
        roster: &Roster,
        done: Done<FragMill>,
    ) -> Result<(), CommitFault>
        requires plan { CanRun roster.now }
        requires some { IsSomeWorld roster.now self.old }
        requires work { IsTrueWork roster.now done.order }
        ensures ok { OnOk result (Happened roster.now self.old self.new (event.Mill done.order.node (length done.order.buckets))) }
        ensures fits { OnOk result ((x : World) (most : ℕ) → IsWorldOf roster.now self.old x most
            → IsTimelyIn roster.now x done.order) }
        ensures long { (envelopes items : ℕ) → result ≡ Err (fault.TooLong envelopes items)
            → WouldPass roster.now self.old (event.Mill done.order.node (length done.order.buckets)) envelopes items }
        ensures stale { (had needed : Point) → result ≡ Err (fault.Stale had needed) → (self.new ≡ self.old)
            × ((x : World) (most : ℕ) → IsWorldOf roster.now self.old x most
            → IsLateIn roster.now x done.order had needed) }
    {
        let needed = needed_when_done(&done);
        let actor = done.node();
        let place = self.node_place(roster, actor);
        let Role::Node(_, _) = roster.role_of(actor) else {
            let had = down_point(self.last_inc(roster, actor));
            return Err(CommitFault::Stale { had, needed });
        };
        let mails = self.nodes[place].put_back(alloc, done)?;
        self.post(actor, mails)?;
        Ok(())
    }
}
