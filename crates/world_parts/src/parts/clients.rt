//! What events make of a client.
ghost use Rattle.std.specs.Prelude.{◌≡◌, ℕ, Err, OnOk};
ghost use Rattle.dpc_model.specs.Actors.{role_of};
ghost use Rattle.dpc_model.specs.declared.actors.Role.TheVariants.{Client as IsClient};
ghost use Rattle.dpc_model.specs.declared.messages.Event.TheVariants as event;
ghost use Rattle.world_parts.specs.declared.faults.EventFault.TheVariants as fault;
ghost use Rattle.law_fit.specs.Fits.{CanRun};
ghost use Rattle.world_parts.specs.Events.{IsSomeWorld, IsComing, Happened, WouldPass};

use crate::envelopes::as_mails;
use crate::faults::EventFault;
use crate::parts::{WorldParts, is_clock};
use actor_roster::roster::Roster;
use node_core::packets::Packet;
use std::alloc::Global;

impl WorldParts {
    /// Envelope number k comes to the client of that number.
    pub(crate) fn deliver_to_client(
        &mut self,
        alloc: Global,
        roster: &Roster,
        k: usize,
        client: u64,
    ) -> Result<(), EventFault>
        requires plan { CanRun roster.now }
        requires some { IsSomeWorld roster.now self.old }
        requires comes { IsComing roster.now self.old k (IsClient client) }
        ensures ok { OnOk result (Happened roster.now self.old self.new (event.Deliver k)) }
        ensures long { (envelopes items : ℕ) → result ≡ Err (fault.TooLong envelopes items)
            → WouldPass roster.now self.old (event.Deliver k) envelopes items }
    {
        let envelope = &self.envelopes[k];
        let Packet::Plain(message) = &envelope.packet else {
            return Ok(());
        };
        self.clients[client as usize].deliver(alloc, envelope.sender(), message)?;
        Ok(())
    }

    /// The client of that number ticks, where its clock does not fall.
    pub(crate) fn tick_client(
        &mut self,
        alloc: Global,
        roster: &Roster,
        actor: u64,
        client: u64,
        now: u64,
    ) -> Result<(), EventFault>
        requires plan { CanRun roster.now }
        requires some { IsSomeWorld roster.now self.old }
        requires role { role_of roster.now actor ≡ IsClient client }
        ensures ok { OnOk result (Happened roster.now self.old self.new (event.Tick actor now)) }
        ensures long { (envelopes items : ℕ) → result ≡ Err (fault.TooLong envelopes items)
            → WouldPass roster.now self.old (event.Tick actor now) envelopes items }
    {
        let client = client as usize;
        if !is_clock(self.clients[client].clock(), now) {
            return Ok(());
        }
        let outs = self.clients[client].tick(alloc, now)?;
        let mails = as_mails(alloc, outs)?;
        self.post(actor, mails)?;
        Ok(())
    }
}
