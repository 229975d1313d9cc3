//! An envelope comes to its addressee, and an actor's clock moves.
ghost use Rattle.std.specs.Prelude.{◌≡◌, ℕ, Err, OnOk};
ghost use Rattle.dpc_model.specs.declared.messages.Event.TheVariants as event;
ghost use Rattle.world_parts.specs.declared.faults.EventFault.TheVariants as fault;
ghost use Rattle.law_fit.specs.Fits.{CanRun};
ghost use Rattle.world_parts.specs.Events.{IsSomeWorld, Happened, WouldPass};

use crate::faults::EventFault;
use crate::parts::WorldParts;
use actor_roster::roster::Roster;
use dpc_model::actors::Role;
use std::alloc::Global;

impl WorldParts {
    /// A phase opens, which changes nothing.
    pub fn open_phase(&self, roster: &Roster, number: u64)
        ensures { Happened roster.now self.now self.now (event.Phase number) }
    {
        // so that what the type keeps is at hand
        let _ = &self.envelopes;
    }

    /// Envelope number k comes, where it was sent, its link is up, and so is its addressee.
    pub fn deliver(&mut self, alloc: Global, roster: &Roster, k: u64) -> Result<(), EventFault>
        requires plan { CanRun roster.now }
        requires some { IsSomeWorld roster.now self.old }
        ensures ok { OnOk result (Happened roster.now self.old self.new (event.Deliver k)) }
        ensures long { (envelopes items : ℕ) → result ≡ Err (fault.TooLong envelopes items)
            → WouldPass roster.now self.old (event.Deliver k) envelopes items }
    {
        let k = k as usize;
        let Some(envelope) = self.envelopes.get(k) else {
            return Ok(());
        };
        if !self.link_up(roster, envelope.sender(), envelope.to()) {
            return Ok(());
        }
        match roster.role_of(envelope.to()) {
            Role::Source(source) => self.deliver_to_source(alloc, roster, k, source)?,
            Role::Node(frag, replica) => self.deliver_to_node(alloc, roster, k, frag, replica)?,
            Role::Client(client) => self.deliver_to_client(alloc, roster, k, client)?,
            Role::Nobody => {}
        }
        Ok(())
    }

    /// An actor ticks at a clock, where it is up and its clock does not fall.
    pub fn tick(
        &mut self,
        alloc: Global,
        roster: &Roster,
        actor: u64,
        now: u64,
    ) -> Result<(), EventFault>
        requires plan { CanRun roster.now }
        requires some { IsSomeWorld roster.now self.old }
        ensures ok { OnOk result (Happened roster.now self.old self.new (event.Tick actor now)) }
        ensures long { (envelopes items : ℕ) → result ≡ Err (fault.TooLong envelopes items)
            → WouldPass roster.now self.old (event.Tick actor now) envelopes items }
    {
        // the limits hold of what stays as it is
        let _ = &self.envelopes;
        match roster.role_of(actor) {
            Role::Source(source) => self.tick_source(alloc, roster, actor, source, now)?,
            Role::Node(frag, replica) => self.tick_node(alloc, roster, actor, frag, replica, now)?,
            Role::Client(client) => self.tick_client(alloc, roster, actor, client, now)?,
            Role::Nobody => {}
        }
        Ok(())
    }
}
