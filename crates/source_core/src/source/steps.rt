//! The parts of a source's steps.
ghost use Rattle.std.specs.Prelude.{◌≡◌, ◌+◌, ◌^◌, ◌<◌, ◌≤◌, Some, length, drop, take, IfOk, OnOk, OnErr};
ghost use Rattle.dpc_model.specs.Sessions.{first_batch};
ghost use Rattle.node_model.specs.Mails.{mails};
ghost use Rattle.node_model.specs.Sources.{source_shown, source_gives, source_subscribed};
ghost use Rattle.source_core.specs.Emitting.{IsSourceOf, HasRoom, after_step, with_emitted, opening_items};

use crate::giving::{addressed, batches_upto, gives_items};
use crate::log::{bound_at, log_of};
use crate::remade::is_opening;
use crate::source::SourceNode;
use dpc_lists::faults::NoMemory;
use dpc_lists::shared::Shared;
use dpc_model::messages::{Message, NodeState, Out, Subscribe};
use dpc_model::plans::Plan;
use dpc_model::sessions::Sub;
use dpc_model::streams::count_below;
use dpc_model::tuples::{Item, Tuple};
use soutput::batches::count_batches;
use soutput::items::{is_done, push_boundary, push_if, push_stable};
use std::alloc::{AllocError, Global};

/// What was emitted from number `first` on.
fn emitted_from(log: &[Tuple], emitted: usize, first: u64) -> &[Tuple]
    requires { emitted ≤ length log.now }
    ensures { result.now ≡ drop first (take emitted log.now) }
{
    let start = first.min(emitted as u64) as usize;
    &log[start..emitted]
}

/// The items of a first batch: what is asked for of the log, and a boundary.
fn opening_items(
    alloc: Global,
    asked: Subscribe,
    tuples: &[Tuple],
    boundary: Option<(u64, u64)>,
) -> Result<Vec<Item>, AllocError>
    requires { asked.n + length tuples.now < 2 ^ 64 }
    ensures { IfOk result (λ items. items.items ≡ opening_items asked tuples.now boundary) }
{
    let mut items = Vec::with_capacity(alloc, tuples.len().saturating_add(3))?;
    push_if(&mut items, asked.tentative, Item::Undo(asked.n))?;
    push_stable(alloc, &mut items, asked.n, tuples)?;
    push_boundary(&mut items, boundary)?;
    push_if(&mut items, is_done(asked, NodeState::Stable), Item::RecDone)?;
    Ok(items)
}

/// The items of a first batch, shared with the last one that was made where they are the same.
fn opening(
    alloc: Global,
    made: &mut Option<Shared<Item>>,
    asked: Subscribe,
    tuples: &[Tuple],
    boundary: Option<(u64, u64)>,
) -> Result<Shared<Item>, NoMemory>
    requires { asked.n + length tuples.now < 2 ^ 64 }
    ensures { IfOk result (λ items. items ≡ opening_items asked tuples.now boundary) }
{
    if let Some(items) = made {
        if is_opening(items.as_slice(), asked, tuples, boundary) {
            return items.share();
        }
    }
    let items = Shared::from_vec(opening_items(alloc, asked, tuples, boundary)?)?;
    *made = Some(items.share()?);
    Ok(items)
}

impl SourceNode {
    /// Emits what is logged below a time, and gives it with this boundary in one batch to each open session.
    pub(super) fn give(
        &mut self,
        alloc: Global,
        plan: &Plan,
        time: u64,
        boundary: Option<(u64, u64)>,
    ) -> Result<Vec<Out>, NoMemory>
        requires source { IsSourceOf plan.now self.old }
        ensures sends { IfOk result (λ outs. mails outs.items ≡
            (source_gives plan.now self.old.number time boundary self.old.state).sends) }
        ensures after { OnOk result (self.new ≡ after_step self.old (source_gives plan.now self.old.number time boundary self.old.state)) }
        ensures err { OnErr result (self.new ≡ self.old) }
    {
        if !self.has_room() {
            return Err(NoMemory);
        }
        let log = log_of(plan, self.number);
        let first = self.emitted;
        let upto = first.max(count_below(log, time));
        let sends = batches_upto(alloc, log, first, upto, boundary, self.sessions.as_slice())?;
        let outs = addressed(alloc, self.readers.as_slice(), sends)?;
        self.advance(upto, gives_items(first, upto, boundary));
        Ok(outs)
    }

    /// So much is emitted, and a batch was given where it has an item.
    fn advance(&mut self, upto: usize, gives_items: bool)
        requires { HasRoom self.old }
        ensures { self.new ≡ with_emitted upto gives_items self.old }
    {
        if gives_items {
            count_batches(self.sessions.as_mut_slice());
        }
        self.emitted = upto;
    }

    /// The items of the first batch of a session: those of the last one that was made, where they are the same.
    fn first_batch(
        &mut self,
        alloc: Global,
        plan: &Plan,
        asked: Subscribe,
    ) -> Result<Shared<Item>, NoMemory>
        requires { IsSourceOf plan.now self.old }
        ensures items { IfOk result (λ items. items ≡ first_batch (source_shown plan.now self.old.number self.old.state) asked) }
        ensures stays { self.new ≡ self.old }
    {
        let emitted = emitted_from(log_of(plan, self.number), self.emitted, asked.n);
        let boundary = bound_at(plan, self.number, self.bound);
        opening(alloc, &mut self.made, asked, emitted, boundary)
    }

    /// Answers a reader's subscription by the first batch of its session, where the session is newer than
    /// the reader's last one.
    pub(super) fn answer(
        &mut self,
        alloc: Global,
        plan: &Plan,
        reader: usize,
        asked: Subscribe,
    ) -> Result<Vec<Out>, NoMemory>
        requires source { IsSourceOf plan.now self.old }
        requires reader { reader < length self.old.readers }
        ensures sends { IfOk result (λ outs. mails outs.items ≡
            (source_subscribed plan.now self.old.number asked (Some reader) self.old.state).sends) }
        ensures after { OnOk result (self.new ≡ after_step self.old
            (source_subscribed plan.now self.old.number asked (Some reader) self.old.state)) }
        ensures err { OnErr result (self.new ≡ self.old) }
    {
        let mut outs = Vec::with_capacity(alloc, 1)?;
        if !self.sessions[reader].is_older_than(asked.sess) {
            return Ok(outs);
        }
        let items = self.first_batch(alloc, plan, asked)?;
        let message = Message::Batch(asked.sess, 0, items);
        let to = self.readers[reader];
        outs.push(Out { to, message })?;
        self.sessions[reader] = Sub::opened(asked.sess);
        Ok(outs)
    }
}
