//! A node that is up mills, takes what comes, and ticks.
ghost use Rattle.std.specs.Prelude.{◌≡◌, ℕ, Err, OnOk};
ghost use Rattle.dpc_model.specs.Actors.{role_of};
ghost use Rattle.dpc_model.specs.declared.actors.Role.TheVariants.{Node as IsNode};
ghost use Rattle.dpc_model.specs.declared.messages.Event.TheVariants as event;
ghost use Rattle.world_parts.specs.declared.faults.EventFault.TheVariants as fault;
ghost use Rattle.law_fit.specs.Fits.{CanRun};
ghost use Rattle.world_parts.specs.Events.{IsSomeWorld, IsComing, Happened, WouldPass};

use crate::faults::EventFault;
use crate::parts::WorldParts;
use actor_roster::roster::Roster;
use dpc_model::actors::Role;
use std::alloc::Global;

impl WorldParts {
    /// A node processes so many ready buckets.
    pub fn mill(
        &mut self,
        alloc: Global,
        roster: &Roster,
        actor: u64,
        count: u64,
    ) -> Result<(), EventFault>
        requires plan { CanRun roster.now }
        requires some { IsSomeWorld roster.now self.old }
        ensures ok { OnOk result (Happened roster.now self.old self.new (event.Mill actor count)) }
        ensures long { (envelopes items : ℕ) → result ≡ Err (fault.TooLong envelopes items)
            → WouldPass roster.now self.old (event.Mill actor count) envelopes items }
    {
        let place = self.node_place(roster, actor);
        if let Role::Node(_, _) = roster.role_of(actor) {
            let mails = self.nodes[place].mill(alloc, count)?;
            self.post(actor, mails)?;
        }
        Ok(())
    }

    /// Envelope number k comes to that replica of a fragment, where it is up.
    pub(crate) fn deliver_to_node(
        &mut self,
        alloc: Global,
        roster: &Roster,
        k: usize,
        frag: u64,
        replica: u64,
    ) -> Result<(), EventFault>
        requires plan { CanRun roster.now }
        requires some { IsSomeWorld roster.now self.old }
        requires comes { IsComing roster.now self.old k (IsNode frag replica) }
        ensures ok { OnOk result (Happened roster.now self.old self.new (event.Deliver k)) }
        ensures long { (envelopes items : ℕ) → result ≡ Err (fault.TooLong envelopes items)
            → WouldPass roster.now self.old (event.Deliver k) envelopes items }
    {
        let to = self.envelopes[k].to();
        let place = self.node_place(roster, to);
        let envelope = &self.envelopes[k];
        let mails = self.nodes[place].deliver(alloc, envelope.sender(), &envelope.packet)?;
        self.post(to, mails)?;
        Ok(())
    }

    /// That replica of a fragment ticks, where it is up and its clock does not fall.
    pub(crate) fn tick_node(
        &mut self,
        alloc: Global,
        roster: &Roster,
        actor: u64,
        frag: u64,
        replica: u64,
        now: u64,
    ) -> Result<(), EventFault>
        requires plan { CanRun roster.now }
        requires some { IsSomeWorld roster.now self.old }
        requires role { role_of roster.now actor ≡ IsNode frag replica }
        ensures ok { OnOk result (Happened roster.now self.old self.new (event.Tick actor now)) }
        ensures long { (envelopes items : ℕ) → result ≡ Err (fault.TooLong envelopes items)
            → WouldPass roster.now self.old (event.Tick actor now) envelopes items }
    {
        let place = self.node_place(roster, actor);
        let mails = self.nodes[place].tick(alloc, now)?;
        self.post(actor, mails)?;
        Ok(())
    }
}
