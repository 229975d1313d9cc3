//! What events make of a source.
ghost use Rattle.std.specs.Prelude.{◌≡◌, ℕ, true, false, Err, OnOk, IfSome, IsNone};
ghost use Rattle.dpc_model.specs.Actors.{role_of};
ghost use Rattle.dpc_model.specs.declared.actors.Role.TheVariants.{Source as IsSource};
ghost use Rattle.dpc_model.specs.declared.messages.Event.TheVariants as event;
ghost use Rattle.world_parts.specs.declared.faults.EventFault.TheVariants as fault;
ghost use Rattle.world_model.specs.Worlds.{is_release_time};
ghost use Rattle.law_fit.specs.Fits.{CanRun};
ghost use Rattle.world_parts.specs.Events.{IsSomeWorld, IsComing, Happened, WouldPass};

use crate::envelopes::as_mails;
use crate::faults::EventFault;
use crate::parts::{WorldParts, is_clock};
use actor_roster::roster::Roster;
use dpc_model::actors::Role;
use node_core::packets::Packet;
use std::alloc::Global;

/// The source that an actor is, where the time is one of the run.
fn source_at(roster: &Roster, actor: u64, time: u64) -> Option<usize>
    ensures some { IfSome result (λ s. (role_of roster.now actor ≡ IsSource s) × (is_release_time roster.now time ≡ true)) }
    ensures none { IsNone result → (s : ℕ) → role_of roster.now actor ≡ IsSource s → is_release_time roster.now time ≡ false }
{
    match roster.role_of(actor) {
        Role::Source(source) if 1 <= time && time <= roster.plan().end => Some(source as usize),
        _ => None,
    }
}

impl WorldParts {
    /// A source sends what it logs below a time.
    pub fn emit(
        &mut self,
        alloc: Global,
        roster: &Roster,
        actor: u64,
        time: u64,
    ) -> Result<(), EventFault>
        requires plan { CanRun roster.now }
        requires some { IsSomeWorld roster.now self.old }
        ensures ok { OnOk result (Happened roster.now self.old self.new (event.Emit actor time)) }
        ensures long { (envelopes items : ℕ) → result ≡ Err (fault.TooLong envelopes items)
            → WouldPass roster.now self.old (event.Emit actor time) envelopes items }
    {
        let _ = &self.items; // the invariant, for events that change nothing
        let Some(source) = source_at(roster, actor, time) else {
            return Ok(());
        };
        let outs = self.sources[source].emit(alloc, roster.plan(), time)?;
        let mails = as_mails(alloc, outs)?;
        self.post(actor, mails)
    }

    /// A source sends what it logs below a time, and that there is no more.
    pub fn release(
        &mut self,
        alloc: Global,
        roster: &Roster,
        actor: u64,
        time: u64,
    ) -> Result<(), EventFault>
        requires plan { CanRun roster.now }
        requires some { IsSomeWorld roster.now self.old }
        ensures ok { OnOk result (Happened roster.now self.old self.new (event.Release actor time)) }
        ensures long { (envelopes items : ℕ) → result ≡ Err (fault.TooLong envelopes items)
            → WouldPass roster.now self.old (event.Release actor time) envelopes items }
    {
        let _ = &self.items; // the invariant, for events that change nothing
        let Some(source) = source_at(roster, actor, time) else {
            return Ok(());
        };
        let outs = self.sources[source].release(alloc, roster.plan(), time)?;
        let mails = as_mails(alloc, outs)?;
        self.post(actor, mails)
    }

    /// Envelope number k comes to the source of that number.
    pub(crate) fn deliver_to_source(
        &mut self,
        alloc: Global,
        roster: &Roster,
        k: usize,
        source: u64,
    ) -> Result<(), EventFault>
        requires plan { CanRun roster.now }
        requires some { IsSomeWorld roster.now self.old }
        requires comes { IsComing roster.now self.old k (IsSource source) }
        ensures ok { OnOk result (Happened roster.now self.old self.new (event.Deliver k)) }
        ensures long { (envelopes items : ℕ) → result ≡ Err (fault.TooLong envelopes items)
            → WouldPass roster.now self.old (event.Deliver k) envelopes items }
    {
        let envelope = &self.envelopes[k];
        let Packet::Plain(message) = &envelope.packet else {
            return Ok(());
        };
        let (sender, to) = (envelope.sender(), envelope.to());
        let outs = self.sources[source as usize].deliver(alloc, roster.plan(), sender, message)?;
        let mails = as_mails(alloc, outs)?;
        self.post(to, mails)
    }

    /// The source of that number ticks, where its clock does not fall.
    pub(crate) fn tick_source(
        &mut self,
        alloc: Global,
        roster: &Roster,
        actor: u64,
        source: u64,
        now: u64,
    ) -> Result<(), EventFault>
        requires plan { CanRun roster.now }
        requires some { IsSomeWorld roster.now self.old }
        requires role { role_of roster.now actor ≡ IsSource source }
        ensures ok { OnOk result (Happened roster.now self.old self.new (event.Tick actor now)) }
        ensures long { (envelopes items : ℕ) → result ≡ Err (fault.TooLong envelopes items)
            → WouldPass roster.now self.old (event.Tick actor now) envelopes items }
    {
        let source = source as usize;
        if !is_clock(self.sources[source].clock(), now) {
            return Ok(());
        }
        let outs = self.sources[source].tick(alloc, now)?;
        let mails = as_mails(alloc, outs)?;
        self.post(actor, mails)
    }
}
