//! The tuples that a join can have kept.
ghost use Rattle.std.specs.Prelude.{◌≡◌};
ghost use Rattle.ops_join.specs.Saving.{can_all_wait as may_all_wait};

use dpc_model::tuples::Tuple;

/// Whether a side of a join may hold these tuples where the next bucket begins at `begin`: they are in
/// order of time and lie below it, and each can still meet a partner from it on, since it is at most
/// `within` away. `begin` may pass 2^64, where only a tuple waits whose time and `within` reach there. How
/// many values a tuple has is not looked at: a join is defined for tuples of any number. It takes no memory.
pub fn can_all_wait(within: u64, begin: u128, tuples: &[Tuple]) -> bool
    ensures { result ≡ may_all_wait within begin tuples.now }
{
    let mut from = 0;
    for tuple in tuples {
        let time = u128::from(tuple.stime);
        if time < from || begin <= time || u128::from(within) < begin - time {
            return false;
        }
        from = time;
    }
    true
}
