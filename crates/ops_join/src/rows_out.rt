//! Rows that are given one behind another, so that they need not be held.
ghost use Rattle.std.specs.Prelude.{◌∷◌, [], List, OnOk, OnErr};
ghost use Rattle.dpc_model.specs.declared.tuples.Tuple.{Tuple};
ghost use Rattle.ops_join.specs.RowsOut.{Takes, TakesFirst};

use dpc_lists::faults::NoMemory;
use dpc_model::tuples::Tuple;
use std::alloc::AllocError;

/// Not all rows were given: memory was wanted, or no more rows are.
#[derive(Clone, Copy, PartialEq, Eq, Debug)]
pub struct Ended;

impl From<AllocError> for Ended {
    fn from(_fault: AllocError) -> Ended {
        Ended
    }
}

impl From<NoMemory> for Ended {
    fn from(_fault: NoMemory) -> Ended {
        Ended
    }
}

/// Takes rows one behind another, and puts out to a `K` what it makes of them.
pub trait RowSink<K> {
    /// Since the second state, with its `K`, it took exactly these rows.
    ghost took: { Self → K → Self → K → List Tuple → Type 0 };

    /// Takes the next row. After an error it wants no more.
    fn give(&mut self, out: &mut K, row: &Tuple) -> Result<(), Ended>
        ensures { Takes (took self.old out.old) (took self.new out.new) (row.now ∷ []) };
}

/// Gives all of these rows.
pub fn give_all<K, R: RowSink<K>>(rows: &[Tuple], sink: &mut R, out: &mut K) -> Result<(), Ended>
    ensures rows { OnOk result (Takes (R.took sink.old out.old) (R.took sink.new out.new) rows.now) }
    ensures first { OnErr result (TakesFirst (R.took sink.old out.old) (R.took sink.new out.new) rows.now) }
{
    for row in rows {
        sink.give(out, row)?;
    }
    Ok(())
}
