//! What a node hands out of its data path, for another one to go on from.
ghost use Rattle.std.specs.Prelude.{◌≡◌, ◌+◌, ◌^◌, ◌<◌, length, IfOk};

use dpc_lists::exact::Exact;
use dpc_lists::faults::NoMemory;
use dpc_lists::lists::Listed;
use dpc_model::engines::Engine;
use dpc_model::tuples::{Tuple, Tuples};
use fragment_mill::mill::FragMill;
use std::alloc::{AllocError, Global};
use std::collections::VecDeque;
use std::marker::Model;

/// A data path at its cursor, without what it holds from there on. Contracts see a `SnapValue`.
#[derive(Drop)]
pub struct Snapshot {
    /// The first bucket that is not processed stably.
    pub cursor: u64,
    /// By port the number of stable tuples below that bucket.
    pub counts: Listed<u64>,
    pub(crate) mill: FragMill,
    /// The number of the first tuple of the output that is kept.
    pub base: u64,
    pub(crate) kept: Tuples,
}

impl Model for Snapshot {
    ghost use Rattle.std.specs.Coded.{codes};
    ghost use Rattle.std.specs.Prelude.{◌+◌, ◌^◌, ◌<◌, length};
    ghost use Rattle.dpc_model.specs.FormulaCode.{coded_formula};
    ghost use Rattle.fragment_mill.specs.Mills.{MillState};
    ghost use Rattle.node_model.specs.Stands.{SnapValue};

    ghost Value = { SnapValue MillState };

    ghost coded = { Prim.hlevel (codes, coded_formula) };

    ghost view = { λ s. record { cursor = s.cursor; counts = s.counts; mill = s.mill; base = s.base; kept = s.kept } };

    ghost invariant = { λ s. s.base + length s.kept < 2 ^ 64 };
}

impl Snapshot {
    /// A snapshot of these parts, as who saved them reads them again. It takes no memory.
    pub fn from_parts(
        cursor: u64,
        counts: Listed<u64>,
        mill: FragMill,
        base: u64,
        kept: Tuples,
    ) -> Snapshot
        requires { base + length kept < 2 ^ 64 }
        ensures { result ≡ record { cursor = cursor; counts = counts; mill = mill; base = base; kept = kept } }
    {
        Snapshot {
            cursor,
            counts,
            mill,
            base,
            kept,
        }
    }

    /// The operators at the cursor. It takes no memory.
    pub fn mill(&self) -> &FragMill
        ensures { result.now ≡ self.now.mill }
    {
        &self.mill
    }

    /// The tuples of the output that are kept, in order. It takes no memory.
    pub fn kept(&self) -> &[Tuple]
        ensures { result.now ≡ self.now.kept }
    {
        self.kept.as_slice()
    }

    /// How many tuples of the output are kept. It takes no memory.
    pub fn kept_count(&self) -> usize
        ensures { result ≡ length self.now.kept }
    {
        self.kept.len()
    }

    /// The same snapshot again.
    pub fn copy(&self, alloc: Global) -> Result<Snapshot, NoMemory>
        ensures { IfOk result (λ other. other ≡ self.now) }
    {
        let Ok(mill) = self.mill.copy(alloc) else {
            return Err(NoMemory);
        };
        let counts = self.counts.copy(alloc)?;
        let kept = self.kept.copy(alloc)?;
        Ok(Snapshot {
            cursor: self.cursor,
            counts,
            mill,
            base: self.base,
            kept,
        })
    }
}

/// The same tuples again.
pub(crate) fn copied(alloc: Global, tuples: &VecDeque<Tuple>) -> Result<Tuples, AllocError>
    ensures { IfOk result (λ copies. copies ≡ tuples.now.items) }
{
    let mut copies = Vec::with_capacity(alloc, tuples.len())?;
    for i in 0..tuples.len() {
        copies.push(tuples[i].copy(alloc)?)?;
    }
    Ok(Listed::from_vec(copies))
}
