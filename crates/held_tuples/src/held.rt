//! Stable tuples as parts of the shared lists in which they came.
ghost use Rattle.std.specs.Prelude.{◌≡◌, ◌↔◌, ◌+◌, ◌^◌, ◌<◌, ◌≤◌, ◌++◌, List, [], map, take, length, IsTrue, IfOk, OnOk, OnErr};
ghost use Rattle.dpc_lists.specs.Lists.{IsPrefixOf};
ghost use Rattle.dpc_model.specs.Streams.{InOrder, count_below};
ghost use Rattle.dpc_model.specs.Operators.{between};
ghost use Rattle.dpc_model.specs.Fragments.{tag};
ghost use Rattle.held_tuples.specs.Runs.{stable_in, joined, AllBelow, from_first};

use crate::run::{Run, run_length};
use dpc_lists::faults::NoMemory;
use dpc_lists::shared::Shared;
use dpc_model::tuples::{Item, Tagged};
use std::alloc::Global;
use std::collections::VecDeque;
use std::marker::Model;

/// Tuples one behind the other. They lie in the lists in which they came, each of which is kept as long
/// as one of them is held. Contracts see the list of the tuples.
#[derive(Drop)]
pub struct HeldTuples {
    runs: VecDeque<Run>,
    len: usize,
}

impl Model for HeldTuples {
    ghost use Rattle.std.specs.Coded.{codes};
    ghost use Rattle.std.specs.Prelude.{◌≡◌, List, length};
    ghost use Rattle.dpc_model.specs.declared.tuples.Tuple.{Tuple};
    ghost use Rattle.held_tuples.specs.Runs.{joined};

    ghost Value = { List Tuple };

    ghost coded = { Prim.hlevel codes };

    ghost view = { λ h. joined h.runs.items };

    ghost invariant = { λ h. h.len ≡ length (joined h.runs.items) };
}

/// Appends a run for each stretch of stable items; how many tuples there are in them. Where memory is
/// wanted, some may be there.
fn push_runs(runs: &mut VecDeque<Run>, items: &Shared<Item>) -> Result<usize, NoMemory>
    ensures ok { OnOk result (joined runs.new.items ≡ joined runs.old.items ++ stable_in items.now) }
    ensures count { IfOk result (λ count. count ≡ length (stable_in items.now)) }
    ensures before { IsPrefixOf runs.old.items runs.new.items }
{
    let mut place = 0;
    let mut count = 0;
    while place < items.len() {
        let len = run_length(items.as_slice(), place);
        if len == 0 {
            place += 1;
        } else {
            runs.push_back(Run::new(items, place, len)?)?;
            place += len;
            count += len;
        }
    }
    Ok(count)
}

/// The place of a run before which every tuple, where they are in order of time, is below a time. It
/// searches by halves.
fn first_run(runs: &VecDeque<Run>, time: u64) -> usize
    ensures { InOrder (joined runs.now.items) → AllBelow time (joined (take result runs.now.items)) }
{
    let mut low = 0;
    let mut high = runs.len();
    while low < high {
        let middle = low + (high - low) / 2;
        if runs[middle].ends_below(time) {
            low = middle + 1;
        } else {
            high = middle;
        }
    }
    low
}

/// Lets the first tuples go that are below a time; how many these are.
fn drop_first_below(runs: &mut VecDeque<Run>, time: u64) -> usize
    requires { length (joined runs.old.items) < 2 ^ 64 }
    ensures from { joined runs.new.items ≡ from_first time (joined runs.old.items) }
    ensures gone { result + length (joined runs.new.items) ≡ length (joined runs.old.items) }
{
    let mut gone = 0;
    while let Some(run) = runs.front() {
        let below = run.first_below(time);
        if below < run.len() {
            runs[0].skip(below);
            return gone + below;
        }
        runs.pop_front();
        gone += below;
    }
    gone
}

/// Appends those of the tuples, where they are in order of time, that lie from one time on and below another.
fn push_runs_between(
    alloc: Global,
    tagged: &mut Vec<Tagged>,
    port: u64,
    runs: &VecDeque<Run>,
    from: u64,
    upto: u64,
) -> Result<(), NoMemory>
    ensures { OnOk result (InOrder (joined runs.now.items)
        → tagged.new.items ≡ tagged.old.items ++ map (tag port) (between from upto (joined runs.now.items))) }
{
    let mut place = first_run(runs, from);
    while place < runs.len() {
        let run = &runs[place];
        if run.begins_from(upto) {
            break;
        }
        run.push_between(alloc, tagged, port, from, upto)?;
        place += 1;
    }
    Ok(())
}

/// How many of the tuples, where they are in order of time, lie below a time.
fn count_runs_below(runs: &VecDeque<Run>, time: u128) -> usize
    requires { length (joined runs.now.items) < 2 ^ 64 }
    ensures within { result ≤ length (joined runs.now.items) }
    ensures count { InOrder (joined runs.now.items) → result ≡ count_below (joined runs.now.items) time }
{
    let mut count = 0;
    let mut place = 0;
    while place < runs.len() {
        let run = &runs[place];
        let below = run.first_from(time);
        count += below;
        if below < run.len() {
            break;
        }
        place += 1;
    }
    count
}

impl HeldTuples {
    /// None. It takes no memory.
    pub fn new(alloc: Global) -> HeldTuples
        ensures { result ≡ [] }
    {
        HeldTuples {
            runs: VecDeque::new(alloc),
            len: 0,
        }
    }

    /// How many tuples there are.
    pub fn len(&self) -> usize
        ensures { result ≡ length self.now }
    {
        self.len
    }

    /// Appends the tuples of the stable items. None is copied, and want of memory changes nothing.
    pub fn push(&mut self, items: &Shared<Item>) -> Result<(), NoMemory>
        requires { length self.old + length items.now < 2 ^ 64 }
        ensures ok { OnOk result (self.new ≡ self.old ++ stable_in items.now) }
        ensures err { OnErr result (self.new ≡ self.old) }
    {
        let before = self.runs.len();
        match push_runs(&mut self.runs, items) {
            Ok(count) => {
                self.len += count;
                Ok(())
            }
            Err(NoMemory) => {
                self.runs.truncate(before);
                Err(NoMemory)
            }
        }
    }

    /// Appends to `tagged` those of the tuples, where they are in order of time, that lie from one time on
    /// and below another. It costs what they are and a search by halves.
    pub fn push_between(
        &self,
        alloc: Global,
        tagged: &mut Vec<Tagged>,
        port: u64,
        from: u64,
        upto: u64,
    ) -> Result<(), NoMemory>
        ensures { OnOk result (InOrder self.now → tagged.new.items ≡ tagged.old.items ++ map (tag port) (between from upto self.now)) }
    {
        push_runs_between(alloc, tagged, port, &self.runs, from, upto)
    }

    /// How many of the tuples, where they are in order of time, lie below a time. It costs a search by
    /// halves in each list in which one of them lies.
    pub fn count_below(&self, time: u128) -> usize
        ensures within { result ≤ length self.now }
        ensures count { InOrder self.now → result ≡ count_below self.now time }
    {
        if self.len == 0 {
            return 0;
        }
        count_runs_below(&self.runs, time)
    }

    /// Lets the first tuples go that are below a time.
    pub fn drop_below(&mut self, time: u64)
        ensures from { self.new ≡ from_first time self.old }
        ensures shorter { length self.new ≤ length self.old }
    {
        self.len -= drop_first_below(&mut self.runs, time);
    }
}
