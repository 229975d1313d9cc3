//! Rows beside the recorded tuples of their numbers, one behind another.
ghost use Rattle.std.specs.Prelude.{◌≡◌, ◌++◌, ℕ, List, true, Ok, [], slice_get};
ghost use Rattle.dpc_model.specs.Reading.{Reader};
ghost use Rattle.dpc_model.specs.declared.tuples.Tuple.{Tuple};
ghost use Rattle.audit_core.specs.Audits.{Holds, IsAudit, verdict_on, verdict_of};
ghost use Rattle.audit_core.specs.Judging.{IsOther, IsFound, AreFound};
ghost use Rattle.audit_core.specs.declared.verdict.Verdict.TheVariants.{Difference};

use crate::faults::AuditFault;
use crate::reading::Recorded;
use crate::verdict::Verdict;
use dpc_lists::exact::Exact;
use dpc_model::tuples::Tuple;
use ops_join::rows_out::{Ended, RowSink};
use std::alloc::Global;

/// What was found so far.
#[derive(Drop)]
pub(crate) enum Found {
    /// Each row is the recorded tuple of its number.
    Same,
    /// Then came a row behind the recorded tuples, not below their bound.
    Longer,
    /// Then came this row, which is another tuple than the recorded one, or is missing among them.
    Other(Tuple),
    /// Memory was wanting.
    NoMemory,
}

/// Compares rows with the recorded tuples, up to the first that is not the recorded one.
#[derive(Drop)]
pub(crate) struct Judge {
    alloc: Global,
    recorded: Recorded,
    /// How many rows were the recorded ones.
    next: usize,
    found: Found,
}

/// A row that is another one.
fn other(alloc: Global, row: &Tuple) -> Found
    ensures { IsOther row.now result }
{
    match row.copy(alloc) {
        Ok(row) => Found::Other(row),
        Err(_) => Found::NoMemory,
    }
}

/// What a row of this number is.
fn judge_row(alloc: Global, recorded: &Recorded, number: usize, row: &Tuple) -> Found
    ensures { IsFound recorded.now number row.now result }
{
    match recorded.stable.as_slice().get(number) {
        Some(had) => {
            if had.same(row) {
                Found::Same
            } else {
                other(alloc, row)
            }
        }
        None => {
            if row.stime < recorded.bound {
                other(alloc, row)
            } else {
                Found::Longer
            }
        }
    }
}

impl RowSink<()> for Judge {
    ghost took = { λ new out old begin rows.
        (new.recorded ≡ old.recorded) × AreFound new.recorded new.next new.found rows };

    fn give(&mut self, _out: &mut (), row: &Tuple) -> Result<(), Ended> {
        let Found::Same = self.found else {
            return Err(Ended);
        };
        match judge_row(self.alloc, &self.recorded, self.next, row) {
            Found::Same => {
                self.next += 1;
                Ok(())
            }
            found => {
                self.found = found;
                Err(Ended)
            }
        }
    }
}

/// The tuple of a number, taken out of the list.
fn taken_out(tuples: Vec<Tuple>, number: usize) -> Option<Tuple>
    ensures { result ≡ slice_get tuples.items number }
{
    let mut tuples = tuples;
    if number < tuples.len() {
        Some(tuples.swap_remove(number))
    } else {
        None
    }
}

/// Where there is no difference.
fn accepted(recorded: &Recorded, end: u64) -> Verdict
    ensures { (r : Reader) → Holds recorded.now r → result ≡ verdict_of end r None }
{
    if recorded.is_settled(end) {
        Verdict::Whole
    } else {
        Verdict::Prefix {
            stable: recorded.stable.len() as u64,
            bound: recorded.bound,
        }
    }
}

/// Where the recorded tuple of this number is not this one.
fn difference(stable: Vec<Tuple>, number: usize, ideal: Option<Tuple>) -> Verdict
    ensures { result ≡ Difference number (slice_get stable.items number) ideal }
{
    Verdict::Difference {
        number: number as u64,
        had: taken_out(stable, number),
        ideal,
    }
}

impl Judge {
    /// No row was given yet.
    pub(crate) fn new(alloc: Global, recorded: Recorded) -> Judge
        ensures recorded { result.recorded ≡ recorded }
        ensures found { AreFound result.recorded result.next result.found [] }
    {
        Judge {
            alloc,
            recorded,
            next: 0,
            found: Found::Same,
        }
    }

    /// The verdict, where all rows were given, or no more were wanted.
    pub(crate) fn conclude(self, all: bool, end: u64) -> Result<Verdict, AuditFault>
        ensures { (r : Reader) (rows rest : List Tuple) → Holds self.recorded r
            → AreFound self.recorded self.next self.found rows → (all ≡ true → rest ≡ [])
            → IsAudit (Ok (verdict_on end (rows ++ rest) r)) result }
    {
        let Judge {
            alloc: _,
            recorded,
            next,
            found,
        } = self;
        match found {
            Found::NoMemory => Err(AuditFault::NoMemory),
            Found::Longer => Ok(accepted(&recorded, end)),
            Found::Other(row) => Ok(difference(recorded.stable, next, Some(row))),
            Found::Same => {
                if !all {
                    Err(AuditFault::NoMemory)
                } else if next < recorded.stable.len() {
                    Ok(difference(recorded.stable, next, None))
                } else {
                    Ok(accepted(&recorded, end))
                }
            }
        }
    }
}
