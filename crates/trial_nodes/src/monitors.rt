//! Beats, ticks and marks of two replicas, by hand.
use dpc_model::messages::{NodeState, Rank};
use input_monitor::monitor::Monitor;

#[test]
fn beats_and_ticks(rt: HostRuntime) {
    let mut monitor = Monitor::new(2);
    assert!(rt; monitor.rank(0) == Rank::Stable);
    monitor.note_beat(0, 2, NodeState::UpFailure, true);
    assert!(rt; monitor.rank(0) == Rank::Stabilizing && monitor.says_recovering(0));
    monitor.note_beat(0, 1, NodeState::Stable, false);
    assert!(rt; monitor.rank(0) == Rank::Stabilizing && monitor.rank(1) == Rank::Stable);
    monitor.tick();
    monitor.tick();
    assert!(rt; !monitor.is_absent(0));
    monitor.tick();
    assert!(rt; monitor.is_absent(0) && monitor.rank(0) == Rank::Absent);
    monitor.note_beat(0, 2, NodeState::UpFailure, false);
    assert!(rt; monitor.ranks().as_slice() == [Rank::UpFailure, Rank::Absent].as_slice());
}

#[test]
fn a_mark_ends_at_its_base(rt: HostRuntime) {
    let mut monitor = Monitor::new(2);
    monitor.mark_truncated(1, 5);
    assert!(rt; monitor.rank(1) == Rank::Absent && !monitor.all_truncated());
    monitor.mark_truncated(0, 4);
    assert!(rt; monitor.all_truncated() && monitor.replicas() == 2);
    monitor.reached(4);
    assert!(rt; monitor.ranks().as_slice() == [Rank::Stable, Rank::Absent].as_slice());
    monitor.reached(5);
    assert!(rt; monitor.rank(1) == Rank::Stable);
}
