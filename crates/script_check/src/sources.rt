//! The lines of sources and of their logs.
ghost use Rattle.std.specs.Prelude.{◌≡◌, [], ℕ, List, map, flat_map};
ghost use Rattle.dpc_model.specs.declared.plans.Plan.{Plan};
ghost use Rattle.dpc_model.specs.declared.plans.SourceSpec.{SourceSpec};
ghost use Rattle.script_rules.specs.Reasons.{first_of_tests};
ghost use Rattle.script_rules.specs.Checking.{source_statements};
ghost use Rattle.script_check.specs.Judging.{told, Judges, declaring};
ghost use Rattle.script_check.specs.Locals.{against_source, against_entry};
ghost use Rattle.script_check.specs.Rooms.{room_behind, with_source, entry_of, BeginsLog};

use dpc_model::plans::{Plan, SourceSpec};
use dpc_model::tuples::Tuple;
use script_draft::limits::{MOST_ENTRIES, MOST_SOURCES};
use script_draft::named::has_name;
use script_rules::reasons::{PlanFault, Reason};

/// The least reason against the line of a source behind these.
fn fault_of_source(before: &[SourceSpec], source: &SourceSpec) -> Option<Reason>
    ensures { result ≡ first_of_tests (against_source before.now source.now) }
{
    if has_name(source.name.as_slice(), before) {
        Some(Reason::NameTaken)
    } else if before.len() >= MOST_SOURCES {
        Some(Reason::PastLimit)
    } else {
        None
    }
}

/// What bounds the entries of a log: the end of the run, the columns of the source, and how many more entries there may be.
#[derive(Clone, Copy)]
struct Bounds {
    end: u64,
    columns: u64,
    room: u64,
}

/// The least reason against the entry of that number, the entry before it being of the time `last`.
fn fault_of_entry(bounds: Bounds, last: u64, number: u64, entry: &Tuple) -> Option<Reason>
    ensures { result ≡ first_of_tests (against_entry bounds.end bounds.columns bounds.room last number entry.now) }
{
    if entry.stime < last || entry.stime >= bounds.end {
        Some(Reason::OutOfTime)
    } else if entry.vals.len() as u64 != bounds.columns {
        Some(Reason::NoSuchColumn)
    } else if number >= bounds.room {
        Some(Reason::PastLimit)
    } else {
        None
    }
}

/// The line behind a log that begins at a line, or its first fault.
fn check_log(bounds: Bounds, log: &[Tuple], line: u64) -> Result<u64, PlanFault>
    ensures { (plan : Plan) → (before : List SourceSpec) → (source : SourceSpec) → (n : ℕ)
        → BeginsLog plan before source bounds.end bounds.columns bounds.room line n
        → Judges result n (declaring plan (with_source before source []) [] []) (map (entry_of source) log.now) }
{
    let mut next = line;
    let mut last = 0;
    for (i, entry) in log.iter().enumerate() {
        if let Some(reason) = fault_of_entry(bounds, last, i as u64, entry) {
            return Err(PlanFault { line: next, reason });
        }
        next = next.saturating_add(1);
        last = entry.stime;
    }
    Ok(next)
}

/// The line behind a source and its log, or the first fault; `room` more entries of logs there may be.
fn check_source(
    plan: &Plan,
    before: &[SourceSpec],
    source: &SourceSpec,
    room: u64,
    line: u64,
) -> Result<u64, PlanFault>
    ensures { (n : ℕ) → line ≡ told n → room ≡ room_behind before.now
        → Judges result n (declaring plan.now before.now [] []) (source_statements source.now) }
{
    if let Some(reason) = fault_of_source(before, source) {
        return Err(PlanFault { line, reason });
    }
    let bounds = Bounds {
        end: plan.end,
        columns: source.columns,
        room,
    };
    check_log(bounds, source.log.as_slice(), line.saturating_add(1))
}

/// The line behind all sources and their logs, or the first fault.
pub fn check_sources(plan: &Plan, line: u64) -> Result<u64, PlanFault>
    ensures { (n : ℕ) → line ≡ told n
        → Judges result n (declaring plan.now [] [] []) (flat_map source_statements plan.now.sources) }
{
    let sources = plan.sources.as_slice();
    let mut next = line;
    let mut room = MOST_ENTRIES;
    for (i, source) in sources.iter().enumerate() {
        match check_source(plan, &sources[..i], source, room, next) {
            Ok(behind) => next = behind,
            Err(fault) => return Err(fault),
        }
        room = room.saturating_sub(source.log.len() as u64);
    }
    Ok(next)
}
