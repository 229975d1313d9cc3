//! Envelopes, and how many items they carry.
ghost use Rattle.std.specs.Prelude.{◌≡◌, ◌+◌, ◌≤◌, ◌^◌, ◌++◌, length, map, IfOk, OnOk, MatchOption};
ghost use Rattle.dpc_model.specs.declared.messages.Out.{Out};
ghost use Rattle.node_core.specs.declared.packets.Packet.TheVariants as packet;
ghost use Rattle.world_parts.specs.Counting.{items_carried, all_carried, posted};

use dpc_lists::faults::NoMemory;
use dpc_model::actors::narrow;
use dpc_model::messages::{Message, Out};
use node_core::packets::{Mail, Packet};
use std::alloc::Global;
use std::marker::Model;

/// A packet with its sender and its addressee, whose numbers are narrow, since every envelope stays.
/// Contracts see an `EnvelopeValue`.
#[derive(Drop)]
pub struct Envelope {
    sender: u32,
    to: u32,
    pub packet: Packet,
}

impl Model for Envelope {
    ghost use Rattle.std.specs.Coded.{codes};
    ghost use Rattle.dpc_model.specs.FormulaCode.{coded_formula};
    ghost use Rattle.world_parts.specs.Parts.{EnvelopeValue};

    ghost Value = { EnvelopeValue };

    ghost coded = { Prim.hlevel (codes, coded_formula) };

    ghost view = { λ e. record { sender = e.sender; to = e.to; packet = e.packet } };
}

impl Envelope {
    /// The actor that sent it.
    pub fn sender(&self) -> u64
        ensures { result ≡ self.now.sender }
    {
        u64::from(self.sender)
    }

    /// The actor that it goes to.
    pub fn to(&self) -> u64
        ensures { result ≡ self.now.to }
    {
        u64::from(self.to)
    }
}

/// How many items a packet carries: those of a batch, or the tuples that a snapshot keeps.
pub(crate) fn items_in(packet: &Packet) -> u64
    ensures { result ≡ items_carried packet.now }
{
    match packet {
        Packet::Plain(Message::Batch(_, _, items)) => items.as_slice().len() as u64,
        Packet::Plain(_) => 0,
        Packet::SnapFor(_, _, snapshot) => snapshot.kept_count() as u64,
    }
}

/// How many items these mails carry, where that is in range.
pub(crate) fn items_in_all(mails: &[Mail]) -> Option<u64>
    ensures { MatchOption result (2 ^ 64 ≤ all_carried mails.now) (λ n. n ≡ all_carried mails.now) }
{
    let mut items: u64 = 0;
    for mail in mails {
        items = items.checked_add(items_in(&mail.packet))?;
    }
    Some(items)
}

/// Messages as mails.
pub(crate) fn as_mails(alloc: Global, outs: Vec<Out>) -> Result<Vec<Mail>, NoMemory>
    ensures { IfOk result (λ mails. mails.items ≡ map (λ (o : Out). record { to = o.to; packet = packet.Plain o.message }) outs.items) }
{
    let mut mails = Vec::with_capacity(alloc, outs.len())?;
    for out in outs {
        mails.push(Mail {
            to: out.to,
            packet: Packet::Plain(out.message),
        })?;
    }
    Ok(mails)
}

/// Mails become envelopes of their sender.
pub(crate) fn push_mails(
    envelopes: &mut Vec<Envelope>,
    sender: u64,
    mails: Vec<Mail>,
) -> Result<(), NoMemory>
    ensures ok { OnOk result (envelopes.new.items ≡ envelopes.old.items ++ map (posted sender) mails.items) }
    ensures few { length envelopes.new.items ≤ length envelopes.old.items + length mails.items }
{
    let sender = narrow(sender)?;
    envelopes.reserve(mails.len())?;
    for mail in mails {
        envelopes.push(Envelope {
            sender,
            to: narrow(mail.to)?,
            packet: mail.packet,
        })?;
    }
    Ok(())
}
