//! What is held of one reader alone.
ghost use Rattle.std.specs.Prelude.{◌≡◌, List, [], max, length, take, None};
ghost use Rattle.dpc_model.specs.declared.tuples.Tuple.{Tuple};
ghost use Rattle.dpc_model.specs.Reading.{Reader};
ghost use Rattle.back_channel.specs.Merging.{last_time, not_below};
ghost use Rattle.back_channel.specs.Sides.{IsSide, WasHeld, Drops};

use crate::stable_list::last_time;
use dpc_model::tuples::Tuple;
use std::alloc::Global;
use std::mem::replace;

/// How many stable tuples a reader has, and its tentative ones. Those below the bound count for nothing: they go where the
/// last one is looked for, and where the list is to be shown.
#[derive(Drop)]
pub(crate) struct Side {
    pub(crate) count: u64,
    pub(crate) tentative: Vec<Tuple>,
    /// No tentative tuple is below this time.
    pub(crate) floor: u64,
    /// Where they were undone in this step: the tentative tuples before the first Undo.
    pub(crate) before: Option<Vec<Tuple>>,
}

/// Lets the last tuples go that are below a time; the time of the last one that stays.
fn drop_last_below(tuples: &mut Vec<Tuple>, time: u64) -> Option<u64>
    ensures last { result ≡ last_time (not_below time tuples.new.items) }
    ensures kept { not_below time tuples.new.items ≡ not_below time tuples.old.items }
    ensures begins { tuples.new.items ≡ take (length tuples.new.items) tuples.old.items }
{
    while let Some(last) = last_time(tuples.as_slice()) {
        if last >= time {
            return Some(last);
        }
        tuples.pop();
    }
    None
}

/// Lets the tuples go that are below a time.
fn drop_below(tuples: &mut Vec<Tuple>, time: u64)
    ensures { tuples.new.items ≡ not_below time tuples.old.items }
{
    tuples.retain(|tuple| tuple.stime >= time);
}

impl Side {
    /// Of a reader that has nothing.
    pub(crate) fn new(alloc: Global) -> Side
        ensures count { result.count ≡ 0 }
        ensures tentative { result.tentative.items ≡ [] }
        ensures floor { result.floor ≡ 0 }
        ensures before { result.before ≡ None }
    {
        Side {
            count: 0,
            tentative: Vec::new(alloc),
            floor: 0,
            before: None,
        }
    }

    /// The time of the last tentative tuple that is not below the bound.
    pub(crate) fn last_time(&mut self, bound: u64) -> Option<u64>
        ensures last { (x : Reader) → IsSide bound self.old x → result ≡ last_time (not_below bound x.tentative) }
        ensures drops { Drops bound self.old self.new }
        ensures floor { self.new.floor ≡ self.old.floor }
    {
        if self.floor >= bound {
            return last_time(self.tentative.as_slice());
        }
        drop_last_below(&mut self.tentative, bound)
    }

    /// Lets all tentative tuples go that are below the bound.
    pub(crate) fn clean(&mut self, bound: u64)
        ensures drops { Drops bound self.old self.new }
        ensures floor { self.new.floor ≡ max self.old.floor bound }
    {
        if self.floor < bound {
            drop_below(&mut self.tentative, bound);
            self.floor = bound;
        }
    }

    /// Lets the tentative tuples go; those of the step's beginning are taken aside.
    pub(crate) fn undo(&mut self, alloc: Global)
        ensures tentative { self.new.tentative.items ≡ [] }
        ensures count { self.new.count ≡ self.old.count }
        ensures floor { self.new.floor ≡ self.old.floor }
        ensures held { (ts : List Tuple) → WasHeld ts self.old → WasHeld ts self.new }
    {
        let gone = replace(&mut self.tentative, Vec::new(alloc));
        if self.before.is_none() {
            self.before = Some(gone);
        }
    }
}
