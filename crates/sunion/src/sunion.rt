//! The inputs of a node by port, in buckets of time.
ghost use Rattle.std.specs.Prelude.{◌≡◌, ◌↔◌, ◌+◌, ◌-◌, ◌*◌, ◌/◌, ◌^◌, ◌<◌, ◌≤◌, ℕ, List, [], true, false, length, IfOk, OnOk, OnErr};
ghost use Rattle.dpc_lists.specs.Lists.{nth, changed};
ghost use Rattle.dpc_model.specs.Inlets.{InletState, with_next_session, after_tally, shows_loss, asked_by, sess_of, no_inlet};
ghost use Rattle.dpc_model.specs.Parts.{Inputs, frontier_of, AreInOrder};
ghost use Rattle.dpc_model.specs.PartStands.{UnionValue, InletValue};
ghost use Rattle.inlet.specs.Forgotten.{HasRoom};
ghost use Rattle.sunion.specs.Unions.{StandsForInputs, no_value, IsAccepted, complete_upto_in, bucket_in, last_due_in, after_advancing, new_union, union_at, with_inlet_state, with_closed, ForgetsBelow, later_of};

use crate::buckets::bucket;
use crate::clocks::{Clocks, drop_places, farthest, last_waiting, make_places, stamp};
use crate::ports::{drop_below, new_ports, restarted_ports};
use crate::spans::{count_complete, last_reached};
use dpc_lists::faults::NoMemory;
use dpc_lists::shared::Shared;
use dpc_model::messages::{Sess, Subscribe};
use dpc_model::tuples::{Item, Tagged};
use inlet::inlet::{Absorbed, Inlet};
use std::alloc::Global;
use std::collections::VecDeque;
use std::marker::Model;

mod sessions;

/// What a batch was to a port.
#[derive(Clone, Copy, PartialEq, Eq, Debug)]
pub enum Verdict {
    Used,
    /// It belongs to an earlier session, or stands before the next one. Nothing changed.
    Old,
    /// One before it is missing, or an item has no reading. The port is broken until it asks anew.
    Broken,
}

/// The inputs of a node by port, in buckets of `width` units of time. Contracts see a `SUnionValue`.
#[derive(Drop)]
pub struct SUnion {
    width: u64,
    /// How many buckets a run has.
    buckets: u64,
    /// How long a bucket may wait after its first tuple.
    delay: u64,
    ports: Vec<Inlet>,
    /// When the first tuple of each bucket came, from the cursor's bucket on.
    clocks: Clocks,
    /// The first bucket that is not processed stably.
    cursor: u64,
    /// How many buckets are closed from the cursor on.
    closed: u64,
}

impl Model for SUnion {
    ghost use Rattle.std.specs.Coded.{codes};
    ghost use Rattle.std.specs.Prelude.{◌+◌, ◌^◌, ◌<◌};
    ghost use Rattle.dpc_model.specs.PartStands.{UnionValue};
    ghost use Rattle.sunion.specs.Clocks.{stamps_from};
    ghost use Rattle.sunion.specs.Values.{SUnionValue};

    ghost Value = { SUnionValue };

    ghost coded = { Prim.hlevel codes };

    ghost view = { λ u. record {
      width = u.width;
      buckets = u.buckets;
      delay = u.delay;
      union = record { inlets = u.ports.items; stamps = stamps_from u.cursor u.clocks.items; cursor = u.cursor; closed = u.closed };
    } };

    ghost invariant = { λ u. (0 < u.width) × (u.cursor + u.closed < 2 ^ 64) × (u.buckets < 2 ^ 64) };
}

/// The greater of two numbers, where there is one.
fn later(first: Option<u64>, second: Option<u64>) -> Option<u64>
    ensures { result ≡ later_of first second }
{
    match (first, second) {
        (Some(first), Some(second)) => Some(first.max(second)),
        (Some(number), None) | (None, Some(number)) => Some(number),
        (None, None) => None,
    }
}

impl SUnion {
    /// At the opening: each port has session 1 of this incarnation open. A run ends at `end`.
    pub fn new(
        alloc: Global,
        ports: usize,
        width: u64,
        end: u64,
        delay: u64,
        inc: u64,
    ) -> Result<SUnion, NoMemory>
        requires { 0 < width }
        ensures { IfOk result (λ u. u ≡ new_union ports width end delay inc) }
    {
        Ok(SUnion {
            width,
            buckets: end / width,
            delay,
            ports: new_ports(alloc, ports, inc)?,
            clocks: VecDeque::new(alloc),
            cursor: 0,
            closed: 0,
        })
    }

    /// Behind a snapshot: port p had `counts[p]` tuples, all below the cursor's bucket and none of them kept.
    pub fn start_at(
        alloc: Global,
        width: u64,
        end: u64,
        delay: u64,
        inc: u64,
        cursor: u64,
        counts: &[u64],
    ) -> Result<SUnion, NoMemory>
        requires width { 0 < width }
        requires range { cursor * width < 2 ^ 64 }
        ensures { IfOk result (λ u. u ≡ union_at width end delay inc cursor counts.now) }
    {
        Ok(SUnion {
            width,
            buckets: end / width,
            delay,
            ports: restarted_ports(alloc, counts, inc, cursor * width)?,
            clocks: VecDeque::new(alloc),
            cursor,
            closed: 0,
        })
    }

    /// A port takes a batch at the node's clock. Want of memory changes nothing.
    pub fn accept(
        &mut self,
        alloc: Global,
        port: usize,
        sess: Sess,
        index: u64,
        items: &Shared<Item>,
        now: u64,
    ) -> Result<Verdict, NoMemory>
        requires inside { port < length self.old.union.inlets }
        requires room { HasRoom (nth no_value self.old.union.inlets port) (length items.now) }
        ensures ok { IfOk result (λ told. IsAccepted port sess index items.now now self.old self.new told) }
        ensures err { OnErr result (self.new ≡ self.old) }
    {
        let place = farthest(self.width, self.cursor, items.as_slice());
        make_places(&mut self.clocks, place)?;
        match self.ports[port].absorb(alloc, sess, index, items)? {
            Absorbed::Used(times) => {
                stamp(
                    &mut self.clocks,
                    self.width,
                    self.cursor,
                    times.as_slice(),
                    now,
                );
                Ok(Verdict::Used)
            }
            Absorbed::Old => Ok(Verdict::Old),
            Absorbed::Broken => Ok(Verdict::Broken),
        }
    }

    /// How many buckets from the cursor on are complete. It takes no memory.
    pub fn ready(&self) -> u64
        ensures { (x : Inputs) → StandsForInputs self.now x → result ≡ complete_upto_in self.now.width x - x.cursor }
    {
        let Some(first) = self.ports.first() else {
            return 0;
        };
        let most = first.bound() / self.width;
        count_complete(self.ports.as_slice(), self.width, most).saturating_sub(self.cursor)
    }

    /// The last bucket whose first tuple came `delay` ago or earlier, from the first one on that is
    /// neither processed nor closed; `None` exactly where there is none. It takes no memory.
    pub fn overdue(&self, now: u64) -> Option<u64>
        ensures { (x : Inputs) → StandsForInputs self.now x → result ≡ last_due_in self.now false now x }
    {
        let places = (self.clocks.len() as u64).min(self.buckets.saturating_sub(self.cursor));
        let place = last_waiting(&self.clocks, self.closed, places, self.delay, now)?;
        Some(self.cursor + place)
    }

    /// The last bucket that is overdue, or that every port is known to go past while it isn't complete or
    /// one before it is closed; `None` exactly where there is none. It takes no memory.
    pub fn due(&self, now: u64) -> Option<u64>
        ensures { (x : Inputs) → StandsForInputs self.now x → result ≡ last_due_in self.now true now x }
    {
        let frontier = self.cursor + self.closed;
        let ports = self.ports.as_slice();
        let reached = last_reached(ports, self.width, self.buckets, frontier, self.closed > 0);
        later(self.overdue(now), reached)
    }

    /// The tuples of bucket k, in order of time, port and place. It costs what the bucket holds and a search
    /// at each port; where a port's tentative tuples are not in order of time, a look at each of them.
    pub fn bucket(&self, alloc: Global, k: u64) -> Result<Vec<Tagged>, NoMemory>
        requires range { (k + 1) * self.now.width < 2 ^ 64 }
        requires from { self.now.union.cursor ≤ k }
        ensures { IfOk result (λ xs. (x : Inputs) → StandsForInputs self.now x → AreInOrder x → xs.items ≡ bucket_in self.now.width x k) }
    {
        let tagged = bucket(alloc, self.ports.as_slice(), self.width, k)?;
        Ok(tagged)
    }

    /// Closes the next bucket as it stands, and gives it. Want of memory changes nothing.
    pub fn close(&mut self, alloc: Global) -> Result<Vec<Tagged>, NoMemory>
        requires range { (self.old.union.cursor + self.old.union.closed + 1) * self.old.width < 2 ^ 64 }
        ensures bucket { IfOk result (λ xs. (x : Inputs) → StandsForInputs self.old x → AreInOrder x
            → xs.items ≡ bucket_in self.old.width x (frontier_of x)) }
        ensures after { OnOk result (self.new ≡ with_closed (self.old.union.closed + 1) self.old) }
        ensures err { OnErr result (self.new ≡ self.old) }
    {
        let tagged = self.bucket(alloc, self.cursor + self.closed)?;
        self.closed += 1;
        Ok(tagged)
    }

    /// Moves the cursor over `count` buckets, and lets their stable tuples and their stamps go. It costs
    /// what goes, and takes no memory.
    pub fn advance(&mut self, count: u64)
        requires range { (self.old.union.cursor + count) * self.old.width < 2 ^ 64 }
        requires none_closed { 0 < count → self.old.union.closed ≡ 0 }
        ensures fixed { (self.new.width ≡ self.old.width) × (self.new.buckets ≡ self.old.buckets) × (self.new.delay ≡ self.old.delay) }
        ensures after { (x : Inputs) → StandsForInputs self.old x → StandsForInputs self.new (after_advancing count x) }
        ensures forgets { (x : Inputs) → StandsForInputs self.old x → AreInOrder x
            → ForgetsBelow ((self.old.union.cursor + count) * self.old.width) self.new.union.inlets }
    {
        self.cursor += count;
        drop_places(&mut self.clocks, count);
        drop_below(self.ports.as_mut_slice(), self.cursor * self.width);
    }

    /// Forgets which buckets were closed. It takes no memory.
    pub fn undo(&mut self)
        ensures { self.new ≡ with_closed 0 self.old }
    {
        self.closed = 0;
    }
}
