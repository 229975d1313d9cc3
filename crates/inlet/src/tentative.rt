//! The tentative tuples of a stream.
ghost use Rattle.std.specs.Prelude.{◌≡◌, ◌++◌, ◌↔◌, List, [], take, IsTrue, OnOk, OnErr};
ghost use Rattle.dpc_model.specs.Streams.{InOrder};
ghost use Rattle.dpc_model.specs.declared.tuples.Tuple.{Tuple};
ghost use Rattle.inlet.specs.Ordered.{IsUptoIf};

use dpc_lists::faults::NoMemory;
use dpc_model::tuples::Tuple;
use std::alloc::Global;
use std::marker::Model;

/// Tentative tuples as they came. That is in order of time, but where a sender that restarted was
/// answered twice in one session. Contracts see the list.
#[derive(Drop)]
pub struct Tentative {
    tuples: Vec<Tuple>,
    /// The time of the last one, where they are in order.
    last: Option<u64>,
}

impl Model for Tentative {
    ghost use Rattle.std.specs.Coded.{codes};
    ghost use Rattle.std.specs.Prelude.{List};
    ghost use Rattle.dpc_model.specs.declared.tuples.Tuple.{Tuple};
    ghost use Rattle.inlet.specs.Ordered.{IsUptoIf};

    ghost Value = { List Tuple };

    ghost coded = { Prim.hlevel codes };

    ghost view = { λ t. t.tuples.items };

    ghost invariant = { λ t. IsUptoIf t.tuples.items t.last };
}

/// The time of the last one of tuples in order of time, where more tuples come behind them. There is none
/// where they were not in order, or are not with the new ones.
fn last_behind(last: Option<u64>, tuples: &[Tuple]) -> Option<u64>
    ensures { (before : List Tuple) → IsUptoIf before last → IsUptoIf (before ++ tuples.now) result }
{
    let Some(mut last) = last else {
        return None;
    };
    for tuple in tuples {
        if tuple.stime < last {
            return None;
        }
        last = tuple.stime;
    }
    Some(last)
}

impl Tentative {
    /// None.
    pub fn new(alloc: Global) -> Tentative
        ensures { result ≡ [] }
    {
        Tentative {
            tuples: Vec::new(alloc),
            last: Some(0),
        }
    }

    /// More tuples, behind those that are there. Want of memory changes nothing.
    pub fn append(&mut self, mut more: Vec<Tuple>) -> Result<(), NoMemory>
        ensures ok { OnOk result (self.new ≡ self.old ++ more.items) }
        ensures err { OnErr result (self.new ≡ self.old) }
    {
        let last = last_behind(self.last, more.as_slice());
        self.tuples.append(&mut more)?;
        self.last = last;
        Ok(())
    }

    /// No more than the first `count` tuples.
    pub fn truncate(&mut self, count: usize)
        ensures { self.new ≡ take count self.old }
    {
        self.tuples.truncate(count);
    }

    /// These tuples in the place of all that are there.
    pub fn replace(&mut self, tuples: Vec<Tuple>)
        ensures { self.new ≡ tuples.items }
    {
        self.last = last_behind(Some(0), tuples.as_slice());
        self.tuples = tuples;
    }

    /// The tuples as they came.
    pub fn as_slice(&self) -> &[Tuple]
        ensures { result.now ≡ self.now }
    {
        self.tuples.as_slice()
    }

    /// Whether there is none.
    pub fn is_empty(&self) -> bool
        ensures { IsTrue result ↔ (self.now ≡ []) }
    {
        self.tuples.is_empty()
    }

    /// Whether they are known to be in order of time.
    pub fn is_in_order(&self) -> bool
        ensures { IsTrue result → InOrder self.now }
    {
        self.last.is_some()
    }
}
