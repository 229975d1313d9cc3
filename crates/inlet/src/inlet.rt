//! The receiving end of one stream.
ghost use Rattle.std.specs.Prelude.{◌≡◌, ◌+◌, ◌^◌, ◌<◌, ◌||◌, ◌++◌, if◌then◌else◌, [], nat_lt, length, IfOk, OnOk, OnErr};
ghost use Rattle.dpc_model.specs.Inlets.{is_old};
ghost use Rattle.dpc_model.specs.declared.batches.Taken.{Taken};
ghost use Rattle.held_tuples.specs.Runs.{stable_in};
ghost use Rattle.inlet.specs.Drafts.{IsEmpty, committed};
ghost use Rattle.inlet.specs.Batches.{IsRead};
ghost use Rattle.inlet.specs.Forgotten.{HasRoom, IsTaken, times_of};

use crate::draft::BatchDraft;
use crate::items::{shared, times};
use crate::tentative::Tentative;
use dpc_lists::faults::NoMemory;
use dpc_lists::lists::Listed;
use dpc_lists::shared::Shared;
use dpc_model::batches::Taken;
use dpc_model::messages::Sess;
use dpc_model::tuples::{Item, Tuple};
use held_tuples::held::HeldTuples;
use std::alloc::Global;
use std::marker::Model;

mod held;
mod sessions;

/// What a batch is to an inlet whose caller doesn't keep the items.
#[derive(Drop)]
pub enum Absorbed {
    /// The times of the tuples that were taken, in order.
    Used(Listed<u64>),
    /// It belongs to an earlier session, or stands before the next one. Nothing changed.
    Old,
    /// One before it is missing, or an item has no reading. The inlet is broken until it asks anew.
    Broken,
}

/// A batch as it was read, before anything changed.
#[derive(Drop)]
enum Batch<'a> {
    /// What it adds, and the items that were taken.
    Next(BatchDraft, Vec<&'a Item>),
    Old,
    Broken,
}

/// The receiving end of one stream at one reader. It holds the last stable tuples, from the first one on
/// that was not dropped, and the tentative ones. Contracts see an `InletValue`.
#[derive(Drop)]
pub struct Inlet {
    /// How many stable tuples there were, dropped ones among them.
    count: u64,
    kept: HeldTuples,
    bound: u64,
    tentative: Tentative,
    passed: u64,
    sess: Sess,
    next: u64,
    answered: bool,
    broken: bool,
}

impl Model for Inlet {
    ghost use Rattle.std.specs.Coded.{codes};
    ghost use Rattle.std.specs.Prelude.{◌≤◌, length};
    ghost use Rattle.dpc_model.specs.PartStands.{InletValue};

    ghost Value = { InletValue };

    ghost coded = { Prim.hlevel codes };

    ghost view = { λ i. record {
      count = i.count;
      state = record {
        held = record { stable = i.kept; bound = i.bound; tentative = i.tentative; passed = i.passed };
        sess = i.sess;
        next = i.next;
        answered = i.answered;
        broken = i.broken;
      };
    } };

    ghost invariant = { λ i. length i.kept ≤ i.count };
}

/// Holds the stable tuples among items, and tentative ones behind those that are held or in their place. Want
/// of memory changes nothing.
fn hold(
    kept: &mut HeldTuples,
    tentative: &mut Tentative,
    taken: &Shared<Item>,
    held: bool,
    more: Vec<Tuple>,
) -> Result<(), NoMemory>
    requires { length kept.old + length taken.now < 2 ^ 64 }
    ensures kept { OnOk result (kept.new ≡ kept.old ++ stable_in taken.now) }
    ensures tentative { OnOk result (tentative.new ≡ (if held then tentative.old else []) ++ more.items) }
    ensures err { OnErr result ((kept.new ≡ kept.old) × (tentative.new ≡ tentative.old)) }
{
    if !held {
        kept.push(taken)?;
        tentative.replace(more);
        return Ok(());
    }
    let before = tentative.as_slice().len();
    tentative.append(more)?;
    if let Err(NoMemory) = kept.push(taken) {
        tentative.truncate(before);
        return Err(NoMemory);
    }
    Ok(())
}

impl Inlet {
    /// Whether a batch is of an earlier session or index.
    fn is_old(&self, sess: Sess, index: u64) -> bool
        ensures { result ≡ is_old self.now.state sess index }
    {
        sess != self.sess || index < self.next
    }

    /// Whether one before a batch is missing.
    fn is_behind(&self, index: u64) -> bool
        ensures { result ≡ (self.now.state.broken || nat_lt self.now.state.next index) }
    {
        self.broken || self.next < index
    }

    /// What a batch would add.
    fn read<'a>(
        &self,
        alloc: Global,
        sess: Sess,
        index: u64,
        items: &'a [Item],
    ) -> Result<Batch<'a>, NoMemory>
        requires { HasRoom self.now (length items.now) }
        ensures { IfOk result (IsRead sess index items.now self.now) }
    {
        if self.is_old(sess, index) {
            return Ok(Batch::Old);
        }
        if self.is_behind(index) {
            return Ok(Batch::Broken);
        }
        let mut draft = self.draft(alloc);
        let Some(taken) = draft.fold(alloc, items)? else {
            return Ok(Batch::Broken);
        };
        Ok(Batch::Next(draft, taken))
    }

    /// What the next batch adds, before its first item is read.
    fn draft(&self, alloc: Global) -> BatchDraft
        ensures { IsEmpty self.now result }
    {
        BatchDraft {
            count: self.count,
            bound: self.bound,
            held: !self.tentative.is_empty(),
            tentative: Vec::new(alloc),
            passed: self.passed,
        }
    }

    /// Holds what the next batch adds, of which these items were taken. Want of memory changes nothing.
    fn commit(&mut self, draft: BatchDraft, taken: &Shared<Item>) -> Result<(), NoMemory>
        requires count { self.old.count + length taken.now < 2 ^ 64 }
        requires next { self.old.state.next + 1 < 2 ^ 64 }
        ensures ok { OnOk result (self.new ≡ committed self.old draft taken.now) }
        ensures err { OnErr result (self.new ≡ self.old) }
    {
        let BatchDraft {
            count: _,
            bound,
            held,
            tentative,
            passed,
        } = draft;
        let before = self.kept.len();
        hold(&mut self.kept, &mut self.tentative, taken, held, tentative)?;
        self.count += (self.kept.len() - before) as u64;
        self.bound = bound;
        self.passed = passed;
        self.answered = self.answered || self.next == 0;
        self.next += 1;
        Ok(())
    }

    /// Takes a batch, and answers with the items that were taken: with the batch itself where all were.
    /// Want of memory changes nothing.
    pub fn take(
        &mut self,
        alloc: Global,
        sess: Sess,
        index: u64,
        items: &Shared<Item>,
    ) -> Result<Taken, NoMemory>
        requires { HasRoom self.old (length items.now) }
        ensures ok { IfOk result (λ answer. IsTaken sess index items.now self.old self.new answer) }
        ensures err { OnErr result (self.new ≡ self.old) }
    {
        match self.read(alloc, sess, index, items.as_slice())? {
            Batch::Next(draft, taken) => {
                let taken = shared(alloc, items, taken.as_slice())?;
                self.commit(draft, &taken)?;
                Ok(Taken::Used(taken))
            }
            Batch::Old => Ok(Taken::Old),
            Batch::Broken => {
                self.broken = true;
                Ok(Taken::Broken)
            }
        }
    }

    /// Takes a batch as `take` does, for a caller that needs to know the times alone.
    pub fn absorb(
        &mut self,
        alloc: Global,
        sess: Sess,
        index: u64,
        items: &Shared<Item>,
    ) -> Result<Absorbed, NoMemory>
        requires { HasRoom self.old (length items.now) }
        ensures ok { IfOk result (λ answer. (told : Taken) × (answer ≡ times_of told)
            × IsTaken sess index items.now self.old self.new told) }
        ensures err { OnErr result (self.new ≡ self.old) }
    {
        match self.read(alloc, sess, index, items.as_slice())? {
            Batch::Next(draft, taken) => {
                let times = times(alloc, taken.as_slice())?;
                let taken = shared(alloc, items, taken.as_slice())?;
                self.commit(draft, &taken)?;
                Ok(Absorbed::Used(times))
            }
            Batch::Old => Ok(Absorbed::Old),
            Batch::Broken => {
                self.broken = true;
                Ok(Absorbed::Broken)
            }
        }
    }
}
