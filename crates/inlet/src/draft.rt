//! Items being read, before anything of the inlet changes.
ghost use Rattle.std.specs.Prelude.{◌≡◌, ◌+◌, ◌^◌, ◌<◌, length, map, option_map, IfOk};
ghost use Rattle.std.specs.Borrow.{Bor};
ghost use Rattle.dpc_model.specs.declared.tuples.Item.{Item};
ghost use Rattle.dpc_model.specs.Reading.{Reader, is_sure};
ghost use Rattle.dpc_model.specs.declared.tuples.Item.TheVariants as item_of;
ghost use Rattle.inlet.specs.Drafts.{Began, drafted, Reads, IsFold};

use dpc_lists::exact::Exact;
use dpc_lists::faults::NoMemory;
use dpc_model::tuples::{Item, Tuple};
use std::alloc::Global;

/// What became of one item.
#[derive(Clone, Copy, PartialEq, Eq)]
pub enum ItemReading {
    /// It has no reading.
    Refused,
    /// It was read, and changes nothing.
    Skipped,
    Taken,
}

/// What the items of a batch add to what is held.
#[derive(Drop)]
pub struct BatchDraft {
    /// How many stable tuples there are.
    pub count: u64,
    pub bound: u64,
    /// Whether tentative tuples were held before the batch, and still are.
    pub held: bool,
    pub tentative: Vec<Tuple>,
    pub passed: u64,
}

impl BatchDraft {
    /// Whether nothing tentative is held or known of.
    fn is_sure(&self) -> bool
        ensures { (base : Reader) → Began base self.now → result ≡ is_sure (drafted base self.now) }
    {
        !self.held && self.tentative.is_empty() && self.passed == 0
    }

    fn read_stable(&mut self, number: u64, tuple: &Tuple) -> ItemReading
        requires { self.old.count + 1 < 2 ^ 64 }
        ensures { Reads (item_of.Stable number tuple.now) self.old self.new result }
    {
        if number < self.count {
            return ItemReading::Skipped;
        }
        if number > self.count || !self.is_sure() {
            return ItemReading::Refused;
        }
        self.count += 1;
        ItemReading::Taken
    }

    fn read_tentative(&mut self, alloc: Global, tuple: &Tuple) -> Result<ItemReading, NoMemory>
        ensures { IfOk result (Reads (item_of.Tentative tuple.now) self.old self.new) }
    {
        if tuple.stime < self.bound {
            return Ok(ItemReading::Skipped);
        }
        self.tentative.push(tuple.copy(alloc)?)?;
        Ok(ItemReading::Taken)
    }

    fn read_passed(&mut self, upto: u64) -> ItemReading
        ensures { Reads (item_of.Passed upto) self.old self.new result }
    {
        if upto <= self.bound || upto <= self.passed {
            return ItemReading::Skipped;
        }
        self.passed = upto;
        ItemReading::Taken
    }

    fn read_boundary(&mut self, bound: u64, count: u64) -> ItemReading
        ensures { Reads (item_of.Boundary bound count) self.old self.new result }
    {
        if count > self.count || !self.is_sure() {
            return ItemReading::Refused;
        }
        if bound <= self.bound {
            return ItemReading::Skipped;
        }
        self.bound = bound;
        ItemReading::Taken
    }

    fn undo(&mut self, number: u64) -> ItemReading
        ensures { Reads (item_of.Undo number) self.old self.new result }
    {
        self.held = false;
        self.tentative.clear();
        self.passed = 0;
        ItemReading::Taken
    }

    fn end_corrections(&mut self) -> ItemReading
        ensures { Reads item_of.RecDone self.old self.new result }
    {
        if self.is_sure() {
            ItemReading::Taken
        } else {
            ItemReading::Refused
        }
    }

    /// Reads one item.
    fn read(&mut self, alloc: Global, item: &Item) -> Result<ItemReading, NoMemory>
        requires { self.old.count + 1 < 2 ^ 64 }
        ensures { IfOk result (Reads item.now self.old self.new) }
    {
        Ok(match item {
            Item::Stable(number, tuple) => self.read_stable(*number, tuple),
            Item::Tentative(tuple) => self.read_tentative(alloc, tuple)?,
            Item::Passed(upto) => self.read_passed(*upto),
            Item::Boundary(bound, count) => self.read_boundary(*bound, *count),
            Item::Undo(number) => self.undo(*number),
            Item::RecDone => self.end_corrections(),
        })
    }

    /// Reads items in order, and gives those that were taken. There is nothing where one has no reading.
    pub fn fold<'a>(
        &mut self,
        alloc: Global,
        items: &'a [Item],
    ) -> Result<Option<Vec<&'a Item>>, NoMemory>
        requires { self.old.count + length items.now < 2 ^ 64 }
        ensures { IfOk result (λ taken. IsFold items.now self.old self.new
            (option_map (map (λ (item : Bor Item). item.now)) (option_map (λ taken. taken.items) taken))) }
    {
        let mut taken = Vec::with_capacity(alloc, items.len())?;
        for item in items {
            match self.read(alloc, item)? {
                ItemReading::Taken => taken.push(item)?,
                ItemReading::Skipped => {}
                ItemReading::Refused => return Ok(None),
            }
        }
        Ok(Some(taken))
    }
}
