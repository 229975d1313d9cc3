//! The items of a recorded stream, read as a client reads them.
ghost use Rattle.std.specs.Prelude.{◌≡◌, ◌+◌, ℕ, true, Ok, IfOk};
ghost use Rattle.dpc_model.specs.Reading.{Reader, empty_reader, is_sure, is_settled};
ghost use Rattle.dpc_model.specs.declared.tuples.Item.TheVariants as item_of;
ghost use Rattle.audit_core.specs.Audits as spec;
ghost use Rattle.audit_core.specs.Audits.{Holds, HasRead};

use crate::faults::AuditFault;
use dpc_lists::faults::NoMemory;
use dpc_model::tuples::{Item, Tuple};
use std::alloc::Global;

/// What a reader holds, of its tentative tuples only how many there are.
#[derive(Drop)]
pub(crate) struct Recorded {
    pub(crate) stable: Vec<Tuple>,
    pub(crate) bound: u64,
    pub(crate) tentative: u64,
    pub(crate) passed: u64,
}

/// The next number. There is one, but where more items are counted than memory can hold.
fn one_more(count: u64) -> Result<u64, NoMemory>
    ensures { IfOk result (λ next. next ≡ count + 1) }
{
    count.checked_add(1).ok_or(NoMemory)
}

impl Recorded {
    /// Nothing was read.
    fn new(alloc: Global) -> Recorded
        ensures { Holds result empty_reader }
    {
        Recorded {
            stable: Vec::new(alloc),
            bound: 0,
            tentative: 0,
            passed: 0,
        }
    }

    /// Whether nothing may still be corrected.
    pub(crate) fn is_sure(&self) -> bool
        ensures { (r : Reader) → Holds self.now r → result ≡ is_sure r }
    {
        self.tentative == 0 && self.passed == 0
    }

    /// Whether that holds, and all is there up to this end.
    pub(crate) fn is_settled(&self, end: u64) -> bool
        ensures { (r : Reader) → Holds self.now r → result ≡ is_settled end r }
    {
        self.bound == end && self.is_sure()
    }

    /// Reads a stable tuple, and says whether it has a reading.
    fn read_stable(&mut self, number: u64, tuple: Tuple) -> Result<bool, NoMemory>
        ensures { HasRead self.old (item_of.Stable number tuple) result self.new }
    {
        let count = self.stable.len() as u64;
        if number < count {
            return Ok(true);
        }
        if number > count || !self.is_sure() {
            return Ok(false);
        }
        self.stable.push(tuple)?;
        Ok(true)
    }

    /// Counts a tentative tuple, where it is not below the bound.
    fn read_tentative(&mut self, tuple: &Tuple) -> Result<(), NoMemory>
        ensures { HasRead self.old (item_of.Tentative tuple.now) (spec.read_on result) self.new }
    {
        if tuple.stime >= self.bound {
            self.tentative = one_more(self.tentative)?;
        }
        Ok(())
    }

    /// Notes up to where tentative output goes.
    fn read_passed(&mut self, upto: u64)
        ensures { HasRead self.old (item_of.Passed upto) (Ok true) self.new }
    {
        if upto > self.bound && upto > self.passed {
            self.passed = upto;
        }
    }

    /// Reads a bound, and says whether it has a reading.
    fn read_boundary(&mut self, bound: u64, count: u64) -> bool
        ensures { HasRead self.old (item_of.Boundary bound count) (Ok result) self.new }
    {
        if count > self.stable.len() as u64 || !self.is_sure() {
            return false;
        }
        self.bound = self.bound.max(bound);
        true
    }

    /// Forgets what may be corrected.
    fn undo(&mut self)
        ensures { (number : ℕ) → HasRead self.old (item_of.Undo number) (Ok true) self.new }
    {
        self.tentative = 0;
        self.passed = 0;
    }

    /// Reads one item, and says whether it has a reading.
    fn read(&mut self, item: Item) -> Result<bool, NoMemory>
        ensures { HasRead self.old item result self.new }
    {
        match item {
            Item::Stable(number, tuple) => self.read_stable(number, tuple),
            Item::Tentative(tuple) => {
                self.read_tentative(&tuple)?;
                Ok(true)
            }
            Item::Passed(upto) => {
                self.read_passed(upto);
                Ok(true)
            }
            Item::Boundary(bound, count) => Ok(self.read_boundary(bound, count)),
            Item::Undo(_) => {
                self.undo();
                Ok(true)
            }
            Item::RecDone => Ok(self.is_sure()),
        }
    }
}

/// What the items leave at a reader that had nothing, or how many stand before the first that has no reading.
pub(crate) fn read_items(alloc: Global, items: Vec<Item>) -> Result<Recorded, AuditFault>
    ensures { spec.IsRead (spec.read_items 0 empty_reader items.items) result }
{
    let mut recorded = Recorded::new(alloc);
    let mut before = 0;
    for item in items {
        if !recorded.read(item)? {
            return Err(AuditFault::NoReading(before));
        }
        before = one_more(before)?;
    }
    Ok(recorded)
}
