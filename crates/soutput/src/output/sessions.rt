//! What the readers of an output ask and acknowledge, and what an output tells of itself.
ghost use Rattle.std.specs.Prelude.{◌≡◌, ◌+◌, ◌^◌, ◌<◌, ◌≤◌, Bool, List, length, map, IfOk, OnOk, OnErr, IsTrue, None, Some, false, ◌==◌, if◌then◌else◌};
ghost use Rattle.dpc_lists.specs.Lists.{nth, changed};
ghost use Rattle.dpc_model.specs.Parts.{shown_of};
ghost use Rattle.dpc_model.specs.declared.tuples.Tuple.{Tuple};
ghost use Rattle.dpc_model.specs.NodeStates.{is_stable};
ghost use Rattle.dpc_model.specs.Sessions.{no_session, opening_session, with_session_shut, first_batch, view_items, after_ack, tally_of};
ghost use Rattle.soutput.specs.Giving.{restarted_output, with_base_after, stream_behind, HasRoom, IsAnswered};

use crate::batches::{can_count, open_all, shut_all};
use crate::items::{is_done, push_boundary, push_if, push_passed, push_tentative};
use crate::output::SOutput;
use dpc_lists::faults::NoMemory;
use dpc_lists::lists::Listed;
use dpc_lists::shared::Shared;
use dpc_model::messages::{Message, NodeState, Sess, Subscribe};
use dpc_model::sessions::Sub;
use dpc_model::tuples::{Item, Items, Tuple, Tuples};
use output_buffer::buffer::OutputBuffer;
use std::alloc::Global;

impl SOutput {
    /// How many readers there are. It takes no memory.
    pub fn readers(&self) -> usize
        ensures { result ≡ length self.now.subs }
    {
        self.sessions.len()
    }

    /// Whether no number passes its range by one batch and so many tuples more. It takes no memory.
    pub fn has_room(&self, tuples: usize) -> bool
        ensures yes { IsTrue result → HasRoom self.now tuples }
        ensures no { HasRoom self.now tuples → IsTrue result }
    {
        let count = self.buffer.count().checked_add(tuples as u64);
        count.is_some() && can_count(self.sessions.as_slice())
    }

    /// Answers a reader's subscription: by the first batch of its session, or by `Truncated` where it asks
    /// for tuples that are gone. `None` exactly where the session isn't newer than the reader's last one.
    pub fn open_session(
        &mut self,
        alloc: Global,
        reader: usize,
        asked: Subscribe,
        state: NodeState,
    ) -> Result<Option<Message>, NoMemory>
        requires { reader < length self.old.subs }
        ensures ok { IfOk result (λ told. IsAnswered (is_stable state) reader asked self.old self.new told) }
        ensures err { OnErr result (self.new ≡ self.old) }
    {
        if !self.sessions[reader].is_older_than(asked.sess) {
            return Ok(None);
        }
        let base = self.buffer.base();
        if asked.n < base {
            self.sessions[reader] = Sub::shut(asked.sess);
            return Ok(Some(Message::Truncated(asked.sess, base)));
        }
        let items = Shared::from_vec(self.first_batch(alloc, asked, state)?)?;
        self.sessions[reader] = Sub::opened(asked.sess);
        Ok(Some(Message::Batch(asked.sess, 0, items)))
    }

    /// What a reader that holds nothing tentative is sent first, where it asks for all that is kept. Whether
    /// the sender is STABLE doesn't matter.
    pub fn view(&self, alloc: Global) -> Result<Items, NoMemory>
        ensures { IfOk result (λ items. (gone : List Tuple) (stable_now : Bool) → length gone ≡ self.now.base
            → items ≡ view_items (shown_of (stream_behind gone self.now) self.now.base stable_now)) }
    {
        let asked = Subscribe {
            sess: Sess { inc: 0, number: 0 },
            n: self.buffer.base(),
            tentative: false,
        };
        let items = self.first_batch(alloc, asked, NodeState::Stable)?;
        Ok(Listed::from_vec(items))
    }

    /// A reader acknowledged `count` tuples in an incarnation. What every reader acknowledged goes. It
    /// takes no memory.
    pub fn ack(&mut self, reader: usize, inc: u64, count: u64)
        requires { reader < length self.old.subs }
        ensures { self.new ≡ with_base_after (record self.old { acks = changed reader (after_ack inc count) self.old.acks }) }
    {
        self.buffer.ack(reader, inc, count);
    }

    /// A reader's open session with the number of its batches; `None` exactly where it has none. It takes
    /// no memory.
    pub fn tally(&self, reader: usize) -> Option<(Sess, u64)>
        requires { reader < length self.now.subs }
        ensures { result ≡ tally_of (nth no_session self.now.subs reader) }
    {
        self.sessions[reader].tally()
    }

    /// A reader's newest session, open or not; `None` exactly where none is kept. It takes no memory.
    pub fn newest(&self, reader: usize) -> Option<Sess>
        requires { reader < length self.now.subs }
        ensures { result ≡ (nth no_session self.now.subs reader).kept }
    {
        self.sessions[reader].kept
    }

    /// A reader's newest session is this one, and isn't open. It takes no memory.
    pub fn renumber(&mut self, reader: usize, sess: Sess)
        requires { reader < length self.old.subs }
        ensures { self.new ≡ record self.old {
          subs = changed reader
              (λ _. record { kept = Some sess; is_open = false; batches = 0 }) self.old.subs;
        } }
    {
        self.sessions[reader] = Sub::shut(sess);
    }

    /// Each reader's session is the one of the opening, and nothing was sent in it. It takes no memory.
    pub fn open_first(&mut self)
        ensures { self.new ≡ record self.old { subs = map (λ _. opening_session) self.old.subs } }
    {
        open_all(self.sessions.as_mut_slice());
    }

    /// Begins anew, all stable up to `bound`, with these tuples, numbered from `base` on. No session is
    /// open any more, and nothing is acknowledged. Want of memory may leave some of it.
    pub fn restart_at(
        &mut self,
        alloc: Global,
        base: u64,
        kept: Tuples,
        bound: u64,
    ) -> Result<(), NoMemory>
        requires { base + length kept < 2 ^ 64 }
        ensures { OnOk result (self.new ≡ restarted_output base kept bound self.old) }
    {
        self.buffer = OutputBuffer::start_at(alloc, self.sessions.len(), base, kept)?;
        self.bound = bound;
        self.tentative = Vec::new(alloc);
        self.passed = None;
        self.shut();
        Ok(())
    }

    /// No session is open any more.
    fn shut(&mut self)
        ensures { self.new ≡ record self.old { subs = map with_session_shut self.old.subs } }
    {
        shut_all(self.sessions.as_mut_slice());
    }

    /// The stable output that is kept. It takes no memory.
    pub fn buffer(&self) -> &OutputBuffer
        ensures { result.now ≡ record { base = self.now.base; kept = self.now.kept; acks = self.now.acks } }
    {
        &self.buffer
    }

    /// The tentative output. It takes no memory.
    pub fn tentatives(&self) -> &[Tuple]
        ensures { result.now ≡ self.now.tentative }
    {
        self.tentative.as_slice()
    }

    /// The boundary with the number of tuples below it, where stable output goes past time 0.
    fn boundary(&self) -> Option<(u64, u64)>
        ensures { result ≡ (if self.now.bound == 0 then None else Some (self.now.bound, self.now.count)) }
    {
        if self.bound == 0 {
            return None;
        }
        Some((self.bound, self.buffer.count()))
    }

    /// The items of the first batch of a session.
    fn first_batch(
        &self,
        alloc: Global,
        asked: Subscribe,
        state: NodeState,
    ) -> Result<Vec<Item>, NoMemory>
        requires { self.now.base ≤ asked.n }
        ensures { IfOk result (λ items. (gone : List Tuple) → length gone ≡ self.now.base
            → items.items ≡ first_batch (shown_of (stream_behind gone self.now) self.now.base (is_stable state)) asked) }
    {
        let stable = self.buffer.count().saturating_sub(asked.n) as usize;
        let most = stable
            .saturating_add(self.tentative.len())
            .saturating_add(4);
        let mut items = Vec::with_capacity(alloc, most)?;
        push_if(&mut items, asked.tentative, Item::Undo(asked.n))?;
        let Ok(()) = self.buffer.push_from(alloc, &mut items, asked.n) else {
            return Err(NoMemory);
        };
        push_boundary(&mut items, self.boundary())?;
        push_tentative(alloc, &mut items, self.tentative.as_slice())?;
        push_passed(&mut items, self.passed)?;
        push_if(&mut items, is_done(asked, state), Item::RecDone)?;
        Ok(items)
    }
}
