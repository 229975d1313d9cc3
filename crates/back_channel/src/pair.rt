//! One stream of what two readers take of a stream.
ghost use Rattle.std.specs.Prelude.{◌≡◌, ◌++◌, true, false, length, take, List, [], None, Err, IfOk, IfErr, OnOk};
ghost use Rattle.dpc_model.specs.Reading.{Reader, empty_reader};
ghost use Rattle.dpc_model.specs.declared.faults.StepFault.TheVariants as fault;
ghost use Rattle.dpc_model.specs.declared.tuples.Tuple.{Tuple};
ghost use Rattle.back_channel.specs.Merging.{Merged, merge, is_later, items_between, bound_told, told_anew, Leaves, OneBegins};
ghost use Rattle.back_channel.specs.Standing as stand;
ghost use Rattle.back_channel.specs.Standing.{IsSpent, StandsFor};

use crate::known::Known;
use crate::side::Side;
use crate::stable_list::StableList;
use crate::telling::{count_same, tell_stable, tell_tentative};
use dpc_lists::faults::NoMemory;
use dpc_model::faults::StepFault;
use dpc_model::tuples::{Item, Tuple};
use std::alloc::Global;

/// Two readers of a stream, of whose replicas each reads another one, and what was told of them as one stream. The stable
/// tuples are held once.
#[derive(Drop)]
pub struct Pair {
    alloc: Global,
    known: Known,
    first: Side,
    second: Side,
    /// Whose tentative tuples are told.
    shows_second: bool,
    /// So many first tentative tuples of both are known to be the same.
    agree: usize,
    spent: bool,
}

/// What was told before a step.
#[derive(Clone, Copy)]
struct Told {
    stable: usize,
    bound: u64,
    tentative: usize,
    second: bool,
}

/// Whether a time is greater; none is less than any.
fn is_later(time: Option<u64>, other: Option<u64>) -> bool
    ensures { result ≡ is_later time other }
{
    match (time, other) {
        (None, _) => false,
        (Some(_), None) => true,
        (Some(time), Some(other)) => time > other,
    }
}

impl Pair {
    /// Two readers that have nothing, of which nothing was told. It takes no memory.
    pub fn new(alloc: Global) -> Pair
        ensures { StandsFor result empty_reader empty_reader }
    {
        Pair {
            alloc,
            known: Known {
                stable: StableList::new(alloc),
                bound: 0,
            },
            first: Side::new(alloc),
            second: Side::new(alloc),
            shows_second: false,
            agree: 0,
            spent: false,
        }
    }

    /// The stable tuples that were told.
    pub fn stable(&self) -> &[Tuple]
        ensures { (x y : Reader) → StandsFor self.now x y → result.now ≡ (merge x y).stable }
    {
        self.known.stable.as_slice()
    }

    /// Up to where they were told to be all.
    pub fn bound(&self) -> u64
        ensures { (x y : Reader) → StandsFor self.now x y → result ≡ (merge x y).bound }
    {
        self.known.bound
    }

    /// The tentative tuples that were told.
    pub fn tentative(&self) -> &[Tuple]
        ensures { (x y : Reader) → StandsFor self.now x y → result.now ≡ (merge x y).tentative }
    {
        self.shown()
    }

    /// What is held of one reader alone.
    fn side(&self, second: bool) -> &Side
        ensures { result.now ≡ stand.side_of second self.now }
    {
        if second { &self.second } else { &self.first }
    }

    /// The tentative tuples that are shown.
    fn shown(&self) -> &[Tuple]
        ensures { result.now ≡ stand.shown_of self.now }
    {
        self.side(self.shows_second).tentative.as_slice()
    }

    /// What was told.
    fn told(&self) -> Told
        ensures { stand.IsTold self.now result }
    {
        Told {
            stable: self.known.stable.as_slice().len(),
            bound: self.known.bound,
            tentative: self.shown().len(),
            second: self.shows_second,
        }
    }

    /// Each reader reads its items.
    fn read(&mut self, first: &[Item], second: &[Item]) -> Result<(), NoMemory>
        ensures read { OnOk result (stand.HasReadBoth first.now second.now self.old self.new) }
        ensures spent { self.new.spent ≡ self.old.spent }
    {
        self.known.read_all(self.alloc, &mut self.first, first)?;
        self.known.read_all(self.alloc, &mut self.second, second)?;
        Ok(())
    }

    /// Whether both tentative lists are as they were when the step began, but for more behind.
    fn has_grown(&self) -> bool
        ensures { result ≡ true → stand.HasGrown self.now }
    {
        let bound = self.known.bound;
        self.first.floor >= bound
            && self.second.floor >= bound
            && self.first.before.is_none()
            && self.second.before.is_none()
    }

    /// So many first tentative tuples are the same, whatever goes below the bound.
    fn agreeing(&self) -> usize
        ensures { stand.IsAgreeing self.now result }
    {
        if self.has_grown() { self.agree } else { 0 }
    }

    /// Chooses whose tentative tuples are shown, and lets those of them go that are below the bound.
    fn choose(&mut self)
        ensures chosen { stand.HasChosen self.old self.new }
        ensures spent { self.new.spent ≡ self.old.spent }
    {
        let agree = self.agreeing();
        let bound = self.known.bound;
        let first = self.first.last_time(bound);
        let second = self.second.last_time(bound);
        self.agree = agree;
        self.shows_second = is_later(second, first);
        if self.shows_second {
            self.second.clean(bound);
        } else {
            self.first.clean(bound);
        }
    }

    /// Whether the tentative tuples that are shown begin with those that were told.
    fn begins(&mut self, told: Told) -> bool
        ensures { stand.HasCompared told result self.old self.new }
    {
        let old = self.side(told.second);
        let new = self.shown();
        if let Some(before) = &old.before {
            return count_same(before.as_slice(), told.tentative, new, 0) == told.tentative;
        }
        if told.second == self.shows_second {
            return true;
        }
        self.agree = count_same(old.tentative.as_slice(), told.tentative, new, self.agree);
        self.agree == told.tentative
    }

    /// Appends the bound, where it has risen, with the number of stable tuples below it.
    fn tell_bound(&self, told: Told, items: &mut Vec<Item>) -> Result<(), NoMemory>
        ensures { (old new : Merged) → stand.IsToldOf told old → stand.IsNow self.now new
            → OnOk result (items.new.items ≡ items.old.items ++ bound_told old new) }
    {
        if self.known.bound > told.bound {
            let count = self.known.stable.count_below(self.known.bound);
            items.push(Item::Boundary(self.known.bound, count as u64))?;
        }
        Ok(())
    }

    /// Appends all that differs from what was told, and the tentative tuples anew. The boundary stands behind the stable
    /// tuples.
    fn tell_anew(&self, told: Told, items: &mut Vec<Item>) -> Result<(), NoMemory>
        ensures { (old new : Merged) → stand.IsToldOf told old → stand.IsNow self.now new
            → OnOk result (items.new.items ≡ items.old.items ++ told_anew old new) }
    {
        if told.tentative > 0 {
            items.push(Item::Undo(told.stable as u64))?;
        }
        tell_stable(self.alloc, items, self.known.stable.as_slice(), told.stable)?;
        self.tell_bound(told, items)?;
        tell_tentative(self.alloc, items, self.shown(), 0)?;
        if told.tentative > 0 && self.shown().is_empty() {
            items.push(Item::RecDone)?;
        }
        Ok(())
    }

    /// The items from what was told to what is shown.
    fn tell(&mut self, told: Told) -> Result<Vec<Item>, NoMemory>
        ensures items { (old new : Merged) → stand.IsToldOf told old → stand.IsNow self.old new → stand.MayCompare told old self.old
            → IfOk result (λ items. items.items ≡ items_between old new) }
        ensures agrees { (old : Merged) → stand.IsToldOf told old → stand.MayCompare told old self.old → OnOk result (stand.SidesAgree self.new) }
        ensures frame { self.new ≡ stand.with_agree self.new.agree self.old }
    {
        let mut items = Vec::new(self.alloc);
        let stands = self.known.stable.as_slice().len() == told.stable
            && self.known.bound == told.bound;
        if stands && self.begins(told) {
            tell_tentative(self.alloc, &mut items, self.shown(), told.tentative)?;
        } else {
            self.tell_anew(told, &mut items)?;
        }
        Ok(items)
    }

    /// Each reader reads its items, which have a reading there; the items from the merge before to the merge after. After
    /// want of memory the pair is spent.
    pub fn step(&mut self, first: &[Item], second: &[Item]) -> Result<Vec<Item>, StepFault>
        ensures told { (x y x' y' : Reader) → StandsFor self.old x y → Leaves x first.now x' → Leaves y second.now y'
            → OneBegins x'.stable y'.stable
            → IfOk result (λ items. (items.items ≡ items_between (merge x y) (merge x' y')) × StandsFor self.new x' y') }
        ensures err { IfErr result (λ why. IsSpent self.new) }
        ensures spent { IsSpent self.old → result ≡ Err fault.Spent }
        ensures only { result ≡ Err fault.Spent → IsSpent self.old }
    {
        if self.spent {
            return Err(StepFault::Spent);
        }
        self.spent = true;
        let told = self.told();
        let Ok(()) = self.read(first, second) else {
            return Err(StepFault::NoMemory);
        };
        self.choose();
        let Ok(items) = self.tell(told) else {
            return Err(StepFault::NoMemory);
        };
        self.first.before = None;
        self.second.before = None;
        self.spent = false;
        Ok(items)
    }
}
