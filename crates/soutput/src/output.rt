//! The output of a sender.
ghost use Rattle.std.specs.Prelude.{◌≡◌, ◌+◌, ◌^◌, ◌<◌, [], ◌∷◌, length, map, IfOk, OnOk, OnErr};
ghost use Rattle.dpc_model.specs.Sessions.{with_batch, batches_of};
ghost use Rattle.dpc_model.specs.declared.tuples.Item.TheVariants as item;
ghost use Rattle.soutput.specs.Giving.{new_output, with_base_after, fresh_items, with_batch_of, with_fresh, after_giving, only_stable, only_tentative, without_tentative, HasRoom};

use crate::batches::{Sends, any_open, batches, count_batches};
use crate::fresh::Fresh;
use crate::items::items_of;
use dpc_lists::faults::NoMemory;
use dpc_lists::lists::Listed;
use dpc_model::sessions::Sub;
use dpc_model::tuples::{Item, Tuple, Tuples};
use output_buffer::buffer::OutputBuffer;
use std::alloc::Global;
use std::marker::Model;

mod sessions;

/// The output of a sender, and the session of each of its readers. Each call that wants memory changes
/// nothing where it doesn't get it. Contracts see an `OutputValue`.
#[derive(Drop)]
pub struct SOutput {
    /// The stable tuples, up to `bound`, and what readers acknowledged of them.
    buffer: OutputBuffer,
    bound: u64,
    tentative: Vec<Tuple>,
    /// How far the tentative output is told to go.
    passed: Option<u64>,
    sessions: Vec<Sub>,
}

impl Model for SOutput {
    ghost use Rattle.std.specs.Coded.{codes};
    ghost use Rattle.std.specs.Prelude.{◌≡◌, length};
    ghost use Rattle.output_buffer.specs.Buffers.{count_of};
    ghost use Rattle.dpc_model.specs.PartStands.{OutputValue};

    ghost Value = { OutputValue };

    ghost coded = { Prim.hlevel codes };

    ghost view = { λ o. record {
      count = count_of o.buffer;
      kept = o.buffer.kept;
      base = o.buffer.base;
      bound = o.bound;
      tentative = o.tentative.items;
      passed = o.passed;
      subs = o.sessions.items;
      acks = o.buffer.acks;
    } };

    ghost invariant = { λ o. length o.sessions.items ≡ length o.buffer.acks };
}

impl SOutput {
    /// The output to so many readers, before the first tuple and without a session.
    pub fn new(alloc: Global, readers: usize) -> Result<SOutput, NoMemory>
        ensures { IfOk result (λ o. o ≡ new_output readers 0 [] 0) }
    {
        SOutput::start_at(alloc, readers, 0, Listed::from_vec(Vec::new(alloc)), 0)
    }

    /// The output to so many readers, all stable up to `bound`, of which it keeps these tuples, numbered
    /// from `base` on.
    pub fn start_at(
        alloc: Global,
        readers: usize,
        base: u64,
        kept: Tuples,
        bound: u64,
    ) -> Result<SOutput, NoMemory>
        requires { base + length kept < 2 ^ 64 }
        ensures { IfOk result (λ o. o ≡ new_output readers base kept bound) }
    {
        let buffer = OutputBuffer::start_at(alloc, readers, base, kept)?;
        let sessions = vec![in alloc; Sub::none(); readers]?;
        Ok(SOutput {
            buffer,
            bound,
            tentative: Vec::new(alloc),
            passed: None,
            sessions,
        })
    }

    /// Appends what is new, and gives it in one batch to each open session, in order of reader: stable
    /// items, the boundary, tentative items, how far these go, and that the corrections are done. Tuples
    /// that every reader acknowledged already go.
    pub fn give(&mut self, alloc: Global, new: Fresh) -> Result<Sends, NoMemory>
        requires { HasRoom self.old (length new.stable) }
        ensures sends { IfOk result (λ sends. sends.items ≡ batches_of (fresh_items self.old new) self.old.subs) }
        ensures after { OnOk result (self.new ≡ after_giving new self.old) }
        ensures err { OnErr result (self.new ≡ self.old) }
    {
        let sends = self.batches_with(alloc, &new)?;
        let gives_items = new.gives_items();
        self.append(new)?;
        if gives_items {
            self.count_batch();
        }
        Ok(sends)
    }

    /// Gives stable tuples, with how far they go.
    pub fn stable(&mut self, alloc: Global, tuples: Tuples, bound: u64) -> Result<Sends, NoMemory>
        requires { HasRoom self.old (length tuples) }
        ensures sends { IfOk result (λ sends. sends.items ≡ batches_of (fresh_items self.old (only_stable tuples bound)) self.old.subs) }
        ensures after { OnOk result (self.new ≡ after_giving (only_stable tuples bound) self.old) }
        ensures err { OnErr result (self.new ≡ self.old) }
    {
        let new = Fresh {
            stable: tuples,
            bound: Some(bound),
            tentative: Listed::from_vec(Vec::new(alloc)),
            passed: None,
            done: false,
        };
        self.give(alloc, new)
    }

    /// Gives tentative tuples.
    pub fn tentative(&mut self, alloc: Global, tuples: Tuples) -> Result<Sends, NoMemory>
        requires { HasRoom self.old 0 }
        ensures sends { IfOk result (λ sends. sends.items ≡ batches_of (fresh_items self.old (only_tentative tuples)) self.old.subs) }
        ensures after { OnOk result (self.new ≡ after_giving (only_tentative tuples) self.old) }
        ensures err { OnErr result (self.new ≡ self.old) }
    {
        let new = Fresh {
            stable: Listed::from_vec(Vec::new(alloc)),
            bound: None,
            tentative: tuples,
            passed: None,
            done: false,
        };
        self.give(alloc, new)
    }

    /// Takes the tentative output back, and says so in each open session.
    pub fn undo(&mut self, alloc: Global) -> Result<Sends, NoMemory>
        requires { HasRoom self.old 0 }
        ensures sends { IfOk result (λ sends. sends.items ≡ batches_of (item.Undo self.old.count ∷ []) self.old.subs) }
        ensures after { OnOk result (self.new ≡ with_batch_of (item.Undo self.old.count ∷ []) (without_tentative self.old)) }
        ensures err { OnErr result (self.new ≡ self.old) }
    {
        let count = self.buffer.count();
        let sends = self.send(alloc, Item::Undo(count))?;
        self.tentative.clear();
        self.passed = None;
        Ok(sends)
    }

    /// Says in each open session that the corrections are done.
    pub fn rec_done(&mut self, alloc: Global) -> Result<Sends, NoMemory>
        requires { HasRoom self.old 0 }
        ensures sends { IfOk result (λ sends. sends.items ≡ batches_of (item.RecDone ∷ []) self.old.subs) }
        ensures after { OnOk result (self.new ≡ with_batch_of (item.RecDone ∷ []) self.old) }
        ensures err { OnErr result (self.new ≡ self.old) }
    {
        self.send(alloc, Item::RecDone)
    }

    /// One item in a batch to each open session.
    fn send(&mut self, alloc: Global, item: Item) -> Result<Sends, NoMemory>
        requires { HasRoom self.old 0 }
        ensures sends { IfOk result (λ sends. sends.items ≡ batches_of (item ∷ []) self.old.subs) }
        ensures after { OnOk result (self.new ≡ with_batch_of (item ∷ []) self.old) }
        ensures err { OnErr result (self.new ≡ self.old) }
    {
        let mut items = Vec::new(alloc);
        items.push(item)?;
        let sends = batches(alloc, items, self.sessions.as_slice())?;
        self.count_batch();
        Ok(sends)
    }

    /// What is new, in one batch to each open session. Where none is open, no item is made.
    fn batches_with(&self, alloc: Global, new: &Fresh) -> Result<Sends, NoMemory>
        requires { self.now.count + length new.now.stable < 2 ^ 64 }
        ensures { IfOk result (λ sends. sends.items ≡ batches_of (fresh_items self.now new.now) self.now.subs) }
    {
        if !any_open(self.sessions.as_slice()) {
            return Ok(Vec::new(alloc));
        }
        let items = items_of(alloc, self.buffer.count(), new)?;
        batches(alloc, items, self.sessions.as_slice())
    }

    /// Appends what is new, without giving it.
    fn append(&mut self, new: Fresh) -> Result<(), NoMemory>
        requires { self.old.count + length new.stable < 2 ^ 64 }
        ensures ok { OnOk result (self.new ≡ with_base_after (with_fresh new self.old)) }
        ensures err { OnErr result (self.new ≡ self.old) }
    {
        let old_len = self.tentative.len();
        self.tentative.append(&mut new.tentative.into_vec())?;
        if let Err(NoMemory) = self.buffer.append(new.stable) {
            self.tentative.truncate(old_len);
            return Err(NoMemory);
        }
        self.bound = new.bound.unwrap_or(self.bound);
        self.passed = new.passed.or(self.passed);
        Ok(())
    }

    /// Counts one batch more in each open session.
    fn count_batch(&mut self)
        requires { HasRoom self.old 0 }
        ensures { self.new ≡ record self.old { subs = map with_batch self.old.subs } }
    {
        count_batches(self.sessions.as_mut_slice());
    }
}
