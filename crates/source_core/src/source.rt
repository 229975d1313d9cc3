//! A source.
ghost use Rattle.std.specs.Prelude.{◌≡◌, ◌≤◌, ◌<◌, map, length, IfOk, OnOk, OnErr, IsTrue};
ghost use Rattle.dpc_model.specs.Sessions.{opening_session};
ghost use Rattle.dpc_model.specs.declared.plans.Plan.{Plan};
ghost use Rattle.node_model.specs.Mails.{mails};
ghost use Rattle.node_model.specs.Sources.{source_emits, source_releases, source_message, source_tick_step};
ghost use Rattle.source_core.specs.Emitting.{IsSourceOf, HasRoom, opening_source, after_step};

use crate::giving::beats;
use crate::log::bound_past;
use actor_lists::lists::{place_of, readers_of};
use dpc_lists::faults::NoMemory;
use dpc_lists::shared::Shared;
use dpc_model::messages::{Message, Out};
use dpc_model::plans::{Plan, StreamRef};
use dpc_model::sessions::Sub;
use dpc_model::tuples::Item;
use soutput::batches::can_count;
use std::alloc::{AllocError, Global};
use std::marker::Model;

mod steps;

/// One source: how much of its log was emitted, and its readers' sessions. The log stays in the plan,
/// which each call is handed. Want of memory changes nothing; a number of batches that would pass its
/// range counts as such. Contracts see a `SourceValue`.
#[derive(Drop)]
pub struct SourceNode {
    number: usize,
    /// Its readers as actors.
    readers: Vec<u64>,
    emitted: usize,
    /// The last boundary, 0 where none was released.
    bound: u64,
    sessions: Vec<Sub>,
    clock: u64,
    /// The items of the last first batch that was made: who asks for the same again gets them.
    made: Option<Shared<Item>>,
}

impl Model for SourceNode {
    ghost use Rattle.std.specs.Coded.{codes};
    ghost use Rattle.std.specs.Prelude.{◌≡◌, length};
    ghost use Rattle.source_core.specs.Emitting.{SourceValue};

    ghost Value = { SourceValue };

    ghost coded = { Prim.hlevel codes };

    ghost view = { λ s. record {
      number = s.number;
      readers = s.readers.items;
      state = record { emitted = s.emitted; bound = s.bound; subs = s.sessions.items; clock = s.clock };
    } };

    ghost invariant = { λ s. length s.sessions.items ≡ length s.readers.items };
}

/// A session of each reader at the opening.
fn openings(alloc: Global, readers: &[u64]) -> Result<Vec<Sub>, AllocError>
    ensures { IfOk result (λ sessions. sessions.items ≡ map (λ _. opening_session) readers.now) }
{
    let sessions = vec![in alloc; Sub::opening(); readers.len()]?;
    Ok(sessions)
}

impl SourceNode {
    /// The source of that number, with a session of each reader.
    pub fn new(alloc: Global, plan: &Plan, number: usize) -> Result<SourceNode, NoMemory>
        requires { number < length plan.now.sources }
        ensures { IfOk result (λ s. s ≡ opening_source plan.now number) }
    {
        let readers = readers_of(alloc, plan, StreamRef::Source(number as u64))?;
        let sessions = openings(alloc, readers.as_slice())?;
        Ok(SourceNode {
            number,
            readers,
            emitted: 0,
            bound: 0,
            sessions,
            clock: 0,
            made: None,
        })
    }

    /// Emits what is logged below a time, in one batch to each open session.
    pub fn emit(&mut self, alloc: Global, plan: &Plan, time: u64) -> Result<Vec<Out>, NoMemory>
        requires source { IsSourceOf plan.now self.old }
        ensures sends { IfOk result (λ outs. mails outs.items ≡ (source_emits plan.now self.old.number time self.old.state).sends) }
        ensures after { OnOk result (self.new ≡ after_step self.old (source_emits plan.now self.old.number time self.old.state)) }
        ensures err { OnErr result (self.new ≡ self.old) }
    {
        let outs = self.give(alloc, plan, time, None)?;
        Ok(outs)
    }

    /// Emits what is logged below a time, and says that it is all, where that goes past the last boundary.
    pub fn release(&mut self, alloc: Global, plan: &Plan, time: u64) -> Result<Vec<Out>, NoMemory>
        requires source { IsSourceOf plan.now self.old }
        ensures sends { IfOk result (λ outs. mails outs.items ≡ (source_releases plan.now self.old.number time self.old.state).sends) }
        ensures after { OnOk result (self.new ≡ after_step self.old (source_releases plan.now self.old.number time self.old.state)) }
        ensures err { OnErr result (self.new ≡ self.old) }
    {
        let boundary = bound_past(plan, self.number, self.bound, time);
        let outs = self.give(alloc, plan, time, boundary)?;
        self.bound = self.bound.max(time);
        Ok(outs)
    }

    /// Answers a subscription, and ignores all else.
    pub fn deliver(
        &mut self,
        alloc: Global,
        plan: &Plan,
        sender: u64,
        message: &Message,
    ) -> Result<Vec<Out>, NoMemory>
        requires { IsSourceOf plan.now self.old }
        ensures sends { IfOk result (λ outs. mails outs.items ≡
            (source_message plan.now self.old.number sender message.now self.old.state).sends) }
        ensures after { OnOk result (self.new ≡ after_step self.old
            (source_message plan.now self.old.number sender message.now self.old.state)) }
        ensures err { OnErr result (self.new ≡ self.old) }
    {
        let Message::Subscribe(asked) = message else {
            return Ok(Vec::new(alloc));
        };
        let Some(reader) = place_of(self.readers.as_slice(), sender) else {
            return Ok(Vec::new(alloc));
        };
        let outs = self.answer(alloc, plan, reader, *asked)?;
        Ok(outs)
    }

    /// The clock goes on, and each reader is told its session.
    pub fn tick(&mut self, alloc: Global, now: u64) -> Result<Vec<Out>, NoMemory>
        ensures sends { IfOk result (λ outs. (plan : Plan) → IsSourceOf plan self.old
            → mails outs.items ≡ (source_tick_step plan self.old.number now self.old.state).sends) }
        ensures after { OnOk result ((plan : Plan) → IsSourceOf plan self.old
            → self.new ≡ after_step self.old (source_tick_step plan self.old.number now self.old.state)) }
        ensures err { OnErr result (self.new ≡ self.old) }
    {
        let outs = beats(alloc, self.readers.as_slice(), self.sessions.as_slice())?;
        self.clock = now;
        Ok(outs)
    }

    /// Whether each session can count one batch more. It takes no memory.
    fn has_room(&self) -> bool
        ensures { IsTrue result → HasRoom self.now }
    {
        can_count(self.sessions.as_slice())
    }

    /// The clock of the last tick. It takes no memory.
    pub fn clock(&self) -> u64
        ensures { result ≡ self.now.state.clock }
    {
        self.clock
    }

    /// How many tuples were emitted. It takes no memory.
    pub fn emitted(&self) -> usize
        ensures { result ≡ self.now.state.emitted }
    {
        self.emitted
    }

    /// The last boundary, 0 where none was released. It takes no memory.
    pub fn bound(&self) -> u64
        ensures { result ≡ self.now.state.bound }
    {
        self.bound
    }

    /// The readers as actors. It takes no memory.
    pub fn readers(&self) -> &[u64]
        ensures { result.now ≡ self.now.readers }
    {
        self.readers.as_slice()
    }
}
