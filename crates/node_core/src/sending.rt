//! Lists of mails.
ghost use Rattle.std.specs.Prelude.{◌≡◌, ◌++◌, ◌∷◌, [], ℕ, map, IfOk, OnOk};
ghost use Rattle.dpc_lists.specs.Lists.{nth, sort_by};
ghost use Rattle.dpc_model.specs.declared.messages.Message.{Message};
ghost use Rattle.dpc_model.specs.declared.messages.Message.TheVariants as message;
ghost use Rattle.node_core.specs.declared.packets.Mail.{Mail};
ghost use Rattle.node_core.specs.Stepping.{plain_mail, asked_in};

use crate::packets::{Mail, Packet};
use actor_lists::lists::actor_at;
use dpc_lists::faults::NoMemory;
use dpc_model::messages::Message;
use soutput::batches::Sends;
use std::alloc::Global;

/// What is asked of every other replica of the fragment.
#[derive(Clone, Copy)]
pub(crate) enum Request {
    /// May the node reconcile? By the key of its ask: incarnation and number.
    Reconcile(u64, u64),
    /// A snapshot, for the recovery of this incarnation and number.
    Snapshot(u64, u64),
}

impl Request {
    fn message(self) -> Message
        ensures { result ≡ asked_in self }
    {
        match self {
            Request::Reconcile(inc, ask) => Message::Ask(inc, ask),
            Request::Snapshot(inc, number) => Message::SnapAsk(inc, number),
        }
    }
}

/// A message to an actor.
pub(crate) fn mail(to: u64, message: Message) -> Mail
    ensures { result ≡ plain_mail to message }
{
    Mail {
        to,
        packet: Packet::Plain(message),
    }
}

/// One message to an actor.
pub(crate) fn one(alloc: Global, to: u64, message: Message) -> Result<Vec<Mail>, NoMemory>
    ensures { IfOk result (λ mails. mails.items ≡ plain_mail to message ∷ []) }
{
    let mut mails = Vec::new(alloc);
    mails.push(mail(to, message))?;
    Ok(mails)
}

/// A request to each of these actors.
pub(crate) fn to_each(
    alloc: Global,
    actors: &[u64],
    request: Request,
) -> Result<Vec<Mail>, NoMemory>
    ensures { IfOk result (λ mails. mails.items ≡ map (λ a. plain_mail a (asked_in request)) actors.now) }
{
    let mut mails = Vec::with_capacity(alloc, actors.len())?;
    for actor in actors {
        mails.push(mail(*actor, request.message()))?;
    }
    Ok(mails)
}

/// An acknowledgement of so many tuples to each actor.
pub(crate) fn push_acks(
    mails: &mut Vec<Mail>,
    actors: &[u64],
    inc: u64,
    count: u64,
) -> Result<(), NoMemory>
    ensures { OnOk result (mails.new.items ≡ mails.old.items ++ map (λ a. plain_mail a (message.Ack inc count)) actors.now) }
{
    for actor in actors {
        mails.push(mail(*actor, Message::Ack(inc, count)))?;
    }
    Ok(())
}

/// A reader's messages by its place among the readers, to the readers as actors.
pub(crate) fn to_readers(
    alloc: Global,
    readers: &[u64],
    sends: Sends,
) -> Result<Vec<Mail>, NoMemory>
    ensures { IfOk result (λ mails. mails.items ≡ map (λ (m : ℕ × Message). plain_mail (nth 0 readers.now m.0) m.1) sends.items) }
{
    let mut mails = Vec::with_capacity(alloc, sends.len())?;
    for (reader, message) in sends {
        mails.push(mail(actor_at(readers, reader), message))?;
    }
    Ok(mails)
}

/// Mails in order of the actors that they go to; those to one actor stay in order.
pub(crate) fn in_actor_order(mut mails: Vec<Mail>) -> Result<Vec<Mail>, NoMemory>
    ensures { IfOk result (λ sorted. sorted.items ≡ sort_by (λ (m : Mail). m.to) mails.items) }
{
    mails.sort_by_key(|mail| mail.to)?;
    Ok(mails)
}
