//! The buffer of a sender's stable output.
ghost use Rattle.std.specs.Prelude.{◌≡◌, ◌+◌, ◌-◌, ◌^◌, ◌<◌, ◌≤◌, ◌++◌, ℕ, List, [], length, drop, map, IfOk, OnOk, OnErr};
ghost use Rattle.dpc_lists.specs.Lists.{changed, least};
ghost use Rattle.dpc_model.specs.Sessions.{Acked, after_ack, stable_items};
ghost use Rattle.output_buffer.specs.Buffers.{new_buffer, count_of, cut_to_base};

use dpc_lists::exact::Exact;
use dpc_lists::faults::NoMemory;
use dpc_lists::lists::Listed;
use dpc_model::tuples::{Item, Items, Tuple, Tuples};
use std::alloc::{AllocError, AllocFailed, Global};
use std::collections::VecDeque;
use std::marker::Model;

/// Why no items were given.
#[derive(Clone, Copy, PartialEq, Eq, Debug)]
pub enum FromFault {
    NoMemory,
    /// The tuples before this number are gone.
    Truncated { base: u64 },
}

impl From<AllocError> for FromFault {
    ghost use Rattle.output_buffer.specs.declared.buffer.FromFault.TheVariants as fault_of;

    ghost from_gives = { λ _ fault. fault ≡ fault_of.NoMemory };

    fn from(_fault: AllocError) -> FromFault {
        FromFault::NoMemory
    }
}

impl<T: Drop> From<AllocFailed<T>> for FromFault {
    ghost use Rattle.output_buffer.specs.declared.buffer.FromFault.TheVariants as fault_of;

    ghost from_gives = { λ _ fault. fault ≡ fault_of.NoMemory };

    fn from(_fault: AllocFailed<T>) -> FromFault {
        FromFault::NoMemory
    }
}

/// The stable tuples of a sender, numbered from 0, without the first ones: those that every reader
/// acknowledged. Contracts see a `BufferState`.
#[derive(Drop)]
pub struct OutputBuffer {
    base: u64,
    kept: VecDeque<Tuple>,
    /// By reader its incarnation, and the number of tuples that it acknowledged in it.
    acks: Vec<(u64, u64)>,
}

impl Model for OutputBuffer {
    ghost use Rattle.std.specs.Coded.{codes};
    ghost use Rattle.std.specs.Prelude.{◌+◌, ◌^◌, ◌<◌, length};
    ghost use Rattle.output_buffer.specs.Buffers.{BufferState};

    ghost Value = { BufferState };

    ghost coded = { Prim.hlevel codes };

    ghost view = { λ b. record { base = b.base; kept = b.kept.items; acks = b.acks.items } };

    ghost invariant = { λ b. b.base + length b.kept.items < 2 ^ 64 };
}

/// The least number of tuples that a reader acknowledged, 0 where there is no reader.
fn least_acknowledged(acks: &[(u64, u64)]) -> u64
    ensures { result ≡ least 0 (map (λ (a : Acked). a.1) acks.now) }
{
    let Some(first) = acks.first() else {
        return 0;
    };
    let mut found = first.1;
    for ack in acks {
        found = found.min(ack.1);
    }
    found
}

/// What a reader acknowledged, after one acknowledgement more: a newer incarnation's number replaces
/// the old one, and one of the same incarnation raises it.
fn acknowledged(old: (u64, u64), inc: u64, count: u64) -> (u64, u64)
    ensures { result ≡ after_ack inc count old }
{
    if old.0 < inc {
        (inc, count)
    } else if old.0 == inc {
        (inc, old.1.max(count))
    } else {
        old
    }
}

/// Lets the first tuples go, so many.
fn drop_first(tuples: &mut VecDeque<Tuple>, count: usize)
    requires { count ≤ length tuples.old.items }
    ensures { tuples.new.items ≡ drop count tuples.old.items }
{
    for _ in 0..count {
        tuples.pop_front();
    }
}

/// Appends the tuples from a place on, as stable items numbered from `number` on.
fn push_items(
    alloc: Global,
    items: &mut Vec<Item>,
    tuples: &VecDeque<Tuple>,
    place: usize,
    number: u64,
) -> Result<(), AllocError>
    requires inside { place ≤ length tuples.now.items }
    requires range { number + length tuples.now.items < 2 ^ 64 + place }
    ensures { OnOk result (items.new.items ≡ items.old.items ++ stable_items number (drop place tuples.now.items)) }
{
    items.reserve(tuples.len() - place)?;
    for i in place..tuples.len() {
        let tuple = tuples[i].copy(alloc)?;
        items.push(Item::Stable(number + (i - place) as u64, tuple))?;
    }
    Ok(())
}

impl OutputBuffer {
    /// The buffer of so many readers, before the first tuple.
    pub fn new(alloc: Global, readers: usize) -> Result<OutputBuffer, NoMemory>
        ensures { IfOk result (λ b. b ≡ new_buffer readers 0 []) }
    {
        OutputBuffer::start_at(alloc, readers, 0, Listed::from_vec(Vec::new(alloc)))
    }

    /// The buffer of so many readers, which keeps these tuples, numbered from `base` on.
    pub fn start_at(
        alloc: Global,
        readers: usize,
        base: u64,
        kept: Tuples,
    ) -> Result<OutputBuffer, NoMemory>
        requires { base + length kept < 2 ^ 64 }
        ensures { IfOk result (λ b. b ≡ new_buffer readers base kept) }
    {
        Ok(OutputBuffer {
            base,
            kept: VecDeque::from_vec(kept.into_vec()),
            acks: vec![in alloc; (0, 0); readers]?,
        })
    }

    /// Appends tuples, and lets those go that every reader acknowledged already. An error changes
    /// nothing.
    pub fn append(&mut self, tuples: Tuples) -> Result<(), NoMemory>
        requires { count_of self.old + length tuples < 2 ^ 64 }
        ensures ok { OnOk result (self.new ≡ cut_to_base (record self.old { kept = self.old.kept ++ tuples })) }
        ensures err { OnErr result (self.new ≡ self.old) }
    {
        let mut tuples = VecDeque::from_vec(tuples.into_vec());
        if self.kept.is_empty() {
            // none is moved
            self.kept = tuples;
        } else {
            self.kept.append(&mut tuples)?;
        }
        self.cut();
        Ok(())
    }

    /// The stable items from number `n` on: none where `n` is at or past the count. `Truncated` exactly
    /// where `n` is below the base.
    pub fn from(&self, alloc: Global, n: u64) -> Result<Items, FromFault>
        ensures items { IfOk result (λ items. items ≡ stable_items n (drop (n - self.now.base) self.now.kept)) }
        ensures truncated { n < self.now.base → result ≡ Err (FromFault.Truncated self.now.base) }
        ensures only { (base : ℕ) → result ≡ Err (FromFault.Truncated base) → n < self.now.base }
    {
        let mut items = Vec::new(alloc);
        self.push_from(alloc, &mut items, n)?;
        Ok(Listed::from_vec(items))
    }

    /// Appends the stable items from number `n` on to a batch that is under way. `Truncated`, which changes
    /// nothing, exactly where `n` is below the base.
    pub fn push_from(&self, alloc: Global, items: &mut Vec<Item>, n: u64) -> Result<(), FromFault>
        ensures items { OnOk result (items.new.items ≡ items.old.items ++ stable_items n (drop (n - self.now.base) self.now.kept)) }
        ensures truncated { n < self.now.base → (result ≡ Err (FromFault.Truncated self.now.base)) × (items.new.items ≡ items.old.items) }
        ensures only { (base : ℕ) → result ≡ Err (FromFault.Truncated base) → n < self.now.base }
    {
        if n < self.base {
            return Err(FromFault::Truncated { base: self.base });
        }
        let place = (n - self.base) as usize;
        if place < self.kept.len() {
            push_items(alloc, items, &self.kept, place, n)?;
        }
        Ok(())
    }

    /// A reader acknowledged `count` tuples in an incarnation. What every reader acknowledged goes. It
    /// takes no memory.
    pub fn ack(&mut self, reader: usize, inc: u64, count: u64)
        requires { reader < length self.old.acks }
        ensures { self.new ≡ cut_to_base (record self.old { acks = changed reader (after_ack inc count) self.old.acks }) }
    {
        self.acks[reader] = acknowledged(self.acks[reader], inc, count);
        self.cut();
    }

    /// Lets the tuples go that every reader acknowledged.
    fn cut(&mut self)
        ensures { self.new ≡ cut_to_base self.old }
    {
        let least = least_acknowledged(self.acks.as_slice());
        let base = self.base.max(least.min(self.count()));
        drop_first(&mut self.kept, (base - self.base) as usize);
        self.base = base;
    }

    /// The number of the first tuple that is kept. It takes no memory.
    pub fn base(&self) -> u64
        ensures { result ≡ self.now.base }
    {
        self.base
    }

    /// The tuples from the base on. It takes no memory.
    pub fn kept(&self) -> &VecDeque<Tuple>
        ensures { result.now.items ≡ self.now.kept }
    {
        &self.kept
    }

    /// How many tuples there were. It takes no memory.
    pub fn count(&self) -> u64
        ensures { result ≡ count_of self.now }
    {
        self.base + self.kept.len() as u64
    }
}
