//! The other replicas of a fragment.
ghost use Rattle.std.specs.Prelude.{◌≡◌, ℕ, ◌==◌, ◌||◌, not, map, take, length, filter, IfOk};
ghost use Rattle.dpc_lists.specs.Lists.{list_all};
ghost use Rattle.dpc_model.specs.Replicas.{is_absent, says_recovering};
ghost use Rattle.node_links.specs.Linking.{other_watches};

use dpc_lists::faults::NoMemory;
use dpc_model::plans::MOST_REPLICAS;
use input_monitor::monitor::Monitor;
use std::alloc::Global;

/// The actors other than one.
pub(crate) fn others(alloc: Global, actors: &[u64], one: u64) -> Result<Vec<u64>, NoMemory>
    ensures { IfOk result (λ rest. rest.items ≡ filter (λ a. not (a == one)) actors.now) }
{
    let mut rest = Vec::new(alloc);
    for actor in actors {
        if *actor != one {
            rest.push(*actor)?;
        }
    }
    Ok(rest)
}

/// Whether each replica is absent, in order. The places past the last one mean nothing.
pub(crate) fn absences(watches: &Monitor) -> [bool; MOST_REPLICAS]
    ensures { take (length watches.now) result ≡ map is_absent watches.now }
{
    let mut absences = [false; MOST_REPLICAS];
    for r in 0..watches.replicas() {
        absences[r] = watches.is_absent(r);
    }
    absences
}

/// Whether every replica but this one is absent.
pub(crate) fn others_are_absent(watches: &Monitor, me: usize) -> bool
    ensures { result ≡ list_all is_absent (other_watches me watches.now) }
{
    for r in 0..watches.replicas() {
        if r != me && !watches.is_absent(r) {
            return false;
        }
    }
    true
}

/// Whether every replica but this one is absent, or recovers.
pub(crate) fn others_cannot_help(watches: &Monitor, me: usize) -> bool
    ensures { result ≡ list_all (λ w. is_absent w || says_recovering w) (other_watches me watches.now) }
{
    for r in 0..watches.replicas() {
        if r != me && !watches.is_absent(r) && !watches.says_recovering(r) {
            return false;
        }
    }
    true
}
