//! Which replica is chosen, by hand.
use dpc_model::messages::Rank;
use replica_switch::choice::choose;

/// The ranks, the current replica, and the chosen one.
const CASES: [([Rank; 3], usize, usize); 5] = [
    ([Rank::Stable, Rank::Stable, Rank::Stable], 1, 1),
    ([Rank::UpFailure, Rank::Absent, Rank::UpFailure], 2, 2),
    ([Rank::Absent, Rank::Stable, Rank::Stable], 0, 1),
    ([Rank::Stabilizing, Rank::Absent, Rank::UpFailure], 0, 2),
    ([Rank::Absent, Rank::Absent, Rank::Absent], 2, 2),
];

#[test]
fn the_first_of_the_best_where_the_current_is_not(rt: HostRuntime) {
    for (ranks, current, wanted) in CASES {
        assert!(rt; current < ranks.len());
        assert_eq!(rt; choose(current, ranks.as_slice()), wanted);
    }
}
