//! What comes from a replica of the stream.
ghost use Rattle.std.specs.Prelude.{◌≡◌, ◌<◌, length, OnOk, OnErr};
ghost use Rattle.dpc_model.specs.declared.messages.Message.TheVariants as message_of;
ghost use Rattle.node_model.specs.Clients.{client_after_packet, client_message, client_marks_ended};
ghost use Rattle.node_model.specs.Mails.{Plain};
ghost use Rattle.client_fold.specs.Folding.{Follows, IsFolded};

use crate::client::Client;
use dpc_lists::faults::NoMemory;
use dpc_lists::shared::Shared;
use dpc_model::batches::Taken;
use dpc_model::messages::{Beat, Message, Sess};
use dpc_model::tuples::Item;
use std::alloc::Global;

/// Where more items were taken, their number might pass its range with the next batch.
const MOST_TAKEN: u128 = u128::MAX - u64::MAX as u128;

impl Client {
    /// Marks end that the stable tuples reach.
    fn end_marks(&mut self)
        ensures { Follows (λ plan c x. client_marks_ended x) self.old self.new }
    {
        let count = self.inlet.count();
        self.upstream.end_marks(count);
    }

    /// Takes a batch, and lets those stable tuples go that no one asks for. A number that would pass its
    /// range counts as want of memory.
    fn take(
        &mut self,
        alloc: Global,
        sess: Sess,
        index: u64,
        items: &Shared<Item>,
    ) -> Result<(), NoMemory>
        ensures ok { OnOk result (IsFolded sess index items.now self.old self.new) }
        ensures err { OnErr result (self.new ≡ self.old) }
    {
        if !self.inlet.has_room(items.len()) || self.total > MOST_TAKEN {
            return Err(NoMemory);
        }
        self.taken.reserve(1)?;
        let Taken::Used(items) = self.inlet.take(alloc, sess, index, items)? else {
            return Ok(());
        };
        let used = items.len() as u128;
        let Ok(()) = self.taken.push(items) else {
            unreachable!()
        };
        self.total += used;
        let bound = self.inlet.bound();
        self.inlet.drop_below(bound);
        Ok(())
    }

    fn on_batch(
        &mut self,
        alloc: Global,
        r: usize,
        sess: Sess,
        index: u64,
        items: &Shared<Item>,
    ) -> Result<(), NoMemory>
        ensures ok { OnOk result (Follows (λ plan c x. client_message r (message_of.Batch sess index items.now)
            (client_marks_ended x)) self.old self.new) }
        ensures err { OnErr result (self.new ≡ self.old) }
    {
        if self.upstream.chosen() != r {
            self.end_marks();
            return Ok(());
        }
        // what the batch adds ends no mark before the next message or tick
        let before = self.inlet.count();
        self.take(alloc, sess, index, items)?;
        self.upstream.end_marks(before);
        Ok(())
    }

    fn on_beat(&mut self, r: usize, beat: Beat)
        requires { r < length self.old.upstream.senders }
        ensures { Follows (λ plan c x. client_message r (message_of.Beat beat) (client_marks_ended x)) self.old self.new }
    {
        let count = self.inlet.count();
        self.upstream.end_marks(count);
        self.upstream.note_beat(r, beat);
        if self.upstream.chosen() == r {
            self.inlet.heard(beat.tally);
        }
    }

    fn on_truncated(&mut self, r: usize, sess: Sess, base: u64)
        requires { r < length self.old.upstream.senders }
        ensures { Follows (λ plan c x. client_message r (message_of.Truncated sess base) (client_marks_ended x)) self.old self.new }
    {
        let count = self.inlet.count();
        self.upstream.end_marks(count);
        if sess == self.inlet.sess() {
            self.upstream.mark_truncated(r, base);
        }
    }

    /// A message comes. What is no batch, beat or truncation of a sender of the stream changes nothing
    /// but marks. Want of memory changes nothing; a number that would pass its range counts as such.
    pub fn deliver(&mut self, alloc: Global, sender: u64, message: &Message) -> Result<(), NoMemory>
        ensures ok { OnOk result (Follows (λ plan c x. client_after_packet plan c sender (Plain message.now) x) self.old self.new) }
        ensures err { OnErr result (self.new ≡ self.old) }
    {
        let Some(r) = self.upstream.replica(sender) else {
            self.end_marks();
            return Ok(());
        };
        match message {
            Message::Batch(sess, index, items) => {
                self.on_batch(alloc, r, *sess, *index, items)?;
            }
            Message::Truncated(sess, base) => self.on_truncated(r, *sess, *base),
            Message::Beat(beat) => self.on_beat(r, *beat),
            _ => self.end_marks(),
        }
        Ok(())
    }
}
