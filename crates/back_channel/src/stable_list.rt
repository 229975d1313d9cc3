//! The stable tuples of a stream.
ghost use Rattle.std.specs.Prelude.{◌≡◌, true, [], length, OnErr, OnOk};
ghost use Rattle.dpc_lists.specs.Lists.{push};
ghost use Rattle.dpc_model.specs.Streams.{count_below};
ghost use Rattle.back_channel.specs.Merging.{last_time};
ghost use Rattle.back_channel.specs.Ordered.{IsUpto};

use dpc_lists::faults::NoMemory;
use dpc_model::streams::count_below;
use dpc_model::tuples::Tuple;
use std::alloc::Global;
use std::marker::Model;

/// Stable tuples as they came, and whether that is in order of time. Contracts see the list.
#[derive(Drop)]
pub(crate) struct StableList {
    tuples: Vec<Tuple>,
    ordered: bool,
}

impl Model for StableList {
    ghost use Rattle.std.specs.Coded.{codes};
    ghost use Rattle.std.specs.Prelude.{List};
    ghost use Rattle.dpc_model.specs.declared.tuples.Tuple.{Tuple};
    ghost use Rattle.back_channel.specs.Ordered.{IsOrderedIf};

    ghost Value = { List Tuple };

    ghost coded = { Prim.hlevel codes };

    ghost view = { λ s. s.tuples.items };

    ghost invariant = { λ s. IsOrderedIf s.tuples.items s.ordered };
}

/// The time of the last tuple.
pub(crate) fn last_time(tuples: &[Tuple]) -> Option<u64>
    ensures { result ≡ last_time tuples.now }
{
    match tuples.last() {
        None => None,
        Some(last) => Some(last.stime),
    }
}

/// Whether the last tuple is not past a time.
fn is_upto(tuples: &[Tuple], time: u64) -> bool
    ensures { result ≡ true → IsUpto time (last_time tuples.now) }
{
    match last_time(tuples) {
        None => true,
        Some(last) => last <= time,
    }
}

/// How many tuples, in any order, lie below a time.
fn count_all(tuples: &[Tuple], time: u64) -> usize
    ensures { result ≡ count_below tuples.now time }
{
    tuples.iter().filter(|tuple| tuple.stime < time).count()
}

impl StableList {
    /// None.
    pub(crate) fn new(alloc: Global) -> StableList
        ensures { result ≡ [] }
    {
        StableList {
            tuples: Vec::new(alloc),
            ordered: true,
        }
    }

    /// One more. Want of memory changes nothing.
    pub(crate) fn push(&mut self, tuple: Tuple) -> Result<(), NoMemory>
        ensures ok { OnOk result (self.new ≡ push self.old tuple) }
        ensures err { OnErr result (self.new ≡ self.old) }
    {
        let ordered = self.ordered && is_upto(self.tuples.as_slice(), tuple.stime);
        self.tuples.push(tuple)?;
        self.ordered = ordered;
        Ok(())
    }

    /// How many lie below a time. Tuples in order of time are searched by halves.
    pub(crate) fn count_below(&self, time: u64) -> usize
        ensures { result ≡ count_below self.now time }
    {
        if self.ordered {
            count_below(self.tuples.as_slice(), time)
        } else {
            count_all(self.tuples.as_slice(), time)
        }
    }

    /// The tuples as they came.
    pub(crate) fn as_slice(&self) -> &[Tuple]
        ensures { result.now ≡ self.now }
    {
        self.tuples.as_slice()
    }
}
