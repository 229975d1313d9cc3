//! Some stable items of a shared list, one behind the other.
ghost use Rattle.std.specs.Prelude.{◌≡◌, ◌+◌, ◌^◌, ◌<◌, ◌≤◌, ◌++◌, ℕ, true, map, take, drop, length, slice_index_or, IfOk, OnOk};
ghost use Rattle.dpc_model.specs.Streams.{InOrder, count_below};
ghost use Rattle.dpc_model.specs.Operators.{between};
ghost use Rattle.dpc_model.specs.Fragments.{tag};
ghost use Rattle.dpc_model.specs.declared.tuples.Item.{Item};
ghost use Rattle.dpc_model.specs.declared.tuples.Item.TheVariants as item_of;
ghost use Rattle.dpc_model.specs.declared.tuples.Tuple.{Tuple};
ghost use Rattle.held_tuples.specs.Runs.{is_stable, stable_in, run_length, from_first, begins_from, ends_below};

use dpc_lists::exact::Exact;
use dpc_lists::faults::NoMemory;
use dpc_lists::shared::Shared;
use dpc_model::tuples::{Item, Tagged, Tuple};
use std::alloc::Global;
use std::marker::Model;

/// The tuples of `len` stable items from one place on. Contracts see the list of the tuples.
#[derive(Drop)]
pub struct Run {
    items: Shared<Item>,
    from: usize,
    len: usize,
}

impl Model for Run {
    ghost use Rattle.std.specs.Coded.{codes};
    ghost use Rattle.std.specs.Prelude.{◌+◌, ◌^◌, ◌<◌, ◌≤◌, List, take, drop, length};
    ghost use Rattle.dpc_model.specs.declared.tuples.Tuple.{Tuple};
    ghost use Rattle.held_tuples.specs.Runs.{stable_in, run_length};

    ghost Value = { List Tuple };

    ghost coded = { Prim.hlevel codes };

    ghost view = { λ r. stable_in (take r.len (drop r.from r.items)) };

    ghost invariant = { λ r. (r.from + r.len < 2 ^ 64) × (r.from + r.len ≤ length r.items) × (r.len ≤ run_length (drop r.from r.items)) };
}

/// Whether an item is a stable tuple.
fn is_stable(item: &Item) -> bool
    ensures { result ≡ is_stable item.now }
{
    matches!(item, Item::Stable(..))
}

/// How many items from a place on are stable, up to the first one that isn't.
pub fn run_length(items: &[Item], from: usize) -> usize
    requires { from ≤ length items.now }
    ensures is { result ≡ run_length (drop from items.now) }
    ensures within { from + result ≤ length items.now }
{
    for place in from..items.len() {
        if !is_stable(&items[place]) {
            return place - from;
        }
    }
    items.len() - from
}

/// The tuple of a stable item.
fn tuple_in(item: &Item) -> &Tuple
    requires { is_stable item.now ≡ true }
    ensures { (number : ℕ) × (item.now ≡ item_of.Stable number result.now) }
{
    match item {
        Item::Stable(_, tuple) => tuple,
        _ => unreachable!(),
    }
}

/// The tuple of the stable item at a place.
fn tuple_at(items: &[Item], place: usize) -> &Tuple
    requires within { place < length items.now }
    requires stable { (d : Item) → is_stable (slice_index_or items.now place d) ≡ true }
    ensures { (d : Item) → (number : ℕ) × (slice_index_or items.now place d ≡ item_of.Stable number result.now) }
{
    tuple_in(&items[place])
}

impl Run {
    /// The stable items from a place on, so many of them. None is copied.
    pub fn new(items: &Shared<Item>, from: usize, len: usize) -> Result<Run, NoMemory>
        requires fits { from + len < 2 ^ 64 }
        requires within { from + len ≤ length items.now }
        requires stable { len ≤ run_length (drop from items.now) }
        ensures { IfOk result (λ run. run ≡ stable_in (take len (drop from items.now))) }
    {
        let items = items.share()?;
        Ok(Run { items, from, len })
    }

    /// How many tuples there are.
    pub fn len(&self) -> usize
        ensures { result ≡ length self.now }
    {
        self.len
    }

    /// The tuple at a place.
    pub fn tuple(&self, place: usize) -> &Tuple
        requires { place < length self.now }
        ensures { (d : Tuple) → result.now ≡ slice_index_or self.now place d }
    {
        tuple_at(self.items.as_slice(), self.from + place)
    }

    /// Whether there is a first tuple, and it isn't below a time.
    pub fn begins_from(&self, time: u64) -> bool
        ensures { result ≡ begins_from time self.now }
    {
        self.len() > 0 && time <= self.tuple(0).stime
    }

    /// Whether there is a last tuple, and it is below a time.
    pub fn ends_below(&self, time: u64) -> bool
        ensures { result ≡ ends_below time self.now }
    {
        self.len() > 0 && self.tuple(self.len() - 1).stime < time
    }

    /// The place of the first of the tuples, where they are in order of time, that isn't below a time. It
    /// searches by halves.
    pub fn first_from(&self, time: u128) -> usize
        ensures within { result ≤ length self.now }
        ensures place { InOrder self.now → result ≡ count_below self.now time }
    {
        let mut low = 0;
        let mut high = self.len();
        while low < high {
            let middle = low + (high - low) / 2;
            if u128::from(self.tuple(middle).stime) < time {
                low = middle + 1;
            } else {
                high = middle;
            }
        }
        low
    }

    /// Appends those of the tuples, where they are in order of time, that lie from one time on and below
    /// another.
    pub fn push_between(
        &self,
        alloc: Global,
        tagged: &mut Vec<Tagged>,
        port: u64,
        from: u64,
        upto: u64,
    ) -> Result<(), NoMemory>
        ensures { OnOk result (InOrder self.now → tagged.new.items ≡ tagged.old.items ++ map (tag port) (between from upto self.now)) }
    {
        let mut place = self.first_from(u128::from(from));
        tagged.reserve(self.first_from(u128::from(upto)).saturating_sub(place))?;
        while place < self.len() {
            let tuple = self.tuple(place);
            if tuple.stime >= upto {
                break;
            }
            let tuple = tuple.copy(alloc)?;
            tagged.push(Tagged { port, tuple })?;
            place += 1;
        }
        Ok(())
    }

    /// How many tuples stand before the first one that isn't below a time.
    pub fn first_below(&self, time: u64) -> usize
        ensures rest { drop result self.now ≡ from_first time self.now }
        ensures within { result ≤ length self.now }
    {
        for place in 0..self.len() {
            if self.tuple(place).stime >= time {
                return place;
            }
        }
        self.len()
    }

    /// Lets so many first tuples go.
    pub fn skip(&mut self, count: usize)
        requires { count ≤ length self.old }
        ensures { self.new ≡ drop count self.old }
    {
        self.from += count;
        self.len -= count;
    }
}
