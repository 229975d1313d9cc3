//! What stands at a place, and what stands last.
ghost use Rattle.std.specs.Prelude.{◌≡◌, None, map, unwrap_or};
ghost use Rattle.dpc_lists.specs.Lists.{nth, last_or};
ghost use Rattle.dpc_model.specs.declared.scripts.Phase.{Phase};

use dpc_model::scripts::Phase;

/// The number at a place, and 0 past the end.
pub fn number_at(numbers: &[u64], place: u64) -> u64
    ensures { result ≡ nth 0 numbers.now place }
{
    numbers.get(place as usize).copied().unwrap_or(0)
}

/// The last number, and 0 where there is none.
pub fn last_number(numbers: &[u64]) -> u64
    ensures { result ≡ unwrap_or (last_or None numbers.now) 0 }
{
    match numbers.last() {
        Some(number) => *number,
        None => 0,
    }
}

/// The clock of the last phase, and 0 where there is none.
pub fn clock_of(phases: &[Phase]) -> u64
    ensures { result ≡ unwrap_or (last_or None (map (λ (p : Phase). p.now) phases.now)) 0 }
{
    match phases.last() {
        Some(phase) => phase.now,
        None => 0,
    }
}
