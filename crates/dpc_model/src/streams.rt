//! Tuples in order of time.
ghost use Rattle.std.specs.Prelude.{◌≡◌, ◌≤◌, length};
ghost use Rattle.dpc_model.specs.Streams.{InOrder, count_below};

use crate::tuples::Tuple;

/// How many of the tuples, which are in order of time, lie below a time. It searches by halves.
pub fn count_below(tuples: &[Tuple], time: u64) -> usize
    requires { InOrder tuples.now }
    ensures count { result ≡ count_below tuples.now time }
    ensures within { result ≤ length tuples.now }
{
    tuples.partition_point(|tuple| tuple.stime < time)
}
