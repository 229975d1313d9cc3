//! What a client does at a tick.
ghost use Rattle.std.specs.Prelude.{◌≡◌, ◌+◌, ◌^◌, ◌<◌, option_to_list, vec_len, vec_capacity, IfOk, OnOk, OnErr};
ghost use Rattle.node_model.specs.Clients.{client_tick_step};
ghost use Rattle.client_fold.specs.Folding.{Follows, Sends, IsAsked, acks_of};

use crate::client::Client;
use dpc_lists::faults::NoMemory;
use dpc_model::messages::{Message, Out};
use std::alloc::Global;

/// So many tuples are acknowledged to each sender, with room for one message more.
fn acks(alloc: Global, senders: &[u64], count: u64) -> Result<Vec<Out>, NoMemory>
    ensures acks { IfOk result (λ outs. outs.items ≡ acks_of count senders.now) }
    ensures room { IfOk result (λ outs. vec_len outs < vec_capacity outs) }
{
    let mut outs = Vec::new(alloc);
    for sender in senders {
        let message = Message::Ack(1, count);
        outs.push(Out {
            to: *sender,
            message,
        })?;
    }
    outs.reserve(1)?;
    Ok(outs)
}

impl Client {
    /// The subscription to send, where a session is opened anew.
    fn advance(&mut self, now: u64) -> Option<Out>
        requires { self.old.inlet.state.sess.number + 1 < 2 ^ 64 }
        ensures after { Follows (λ plan c x. (client_tick_step plan c now x).after) self.old self.new }
        ensures asked { IsAsked self.old (option_to_list result) }
    {
        let count = self.inlet.count();
        self.upstream.end_marks(count);
        self.upstream.tick();
        self.clock = now;
        let broken = self.inlet.broken();
        let to = self.upstream.choose(broken, self.inlet.answered())?;
        let message = Message::Subscribe(self.inlet.reopen());
        Some(Out { to, message })
    }

    /// At a tick the replica to read is chosen, and a session opened anew where one is needed. Then each
    /// sender is told how many stable tuples there are. Want of memory changes nothing; a session number
    /// that would pass its range counts as such.
    pub fn tick(&mut self, alloc: Global, now: u64) -> Result<Vec<Out>, NoMemory>
        ensures after { OnOk result (Follows (λ plan c x. (client_tick_step plan c now x).after) self.old self.new) }
        ensures sends { IfOk result (λ outs. Sends now self.old outs.items) }
        ensures err { OnErr result (self.new ≡ self.old) }
    {
        if self.inlet.sess().number == u64::MAX {
            return Err(NoMemory);
        }
        let mut outs = acks(alloc, self.upstream.senders(), self.inlet.count())?;
        if let Some(out) = self.advance(now) {
            let Ok(()) = outs.insert(0, out) else {
                unreachable!()
            };
        }
        Ok(outs)
    }
}
