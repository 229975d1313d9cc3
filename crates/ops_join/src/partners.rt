//! Which tuples are partners.
ghost use Rattle.std.specs.Prelude.{◌≡◌};
ghost use Rattle.dpc_model.specs.Operators.{is_within, keys_agree};
ghost use Rattle.ops_join.specs.Sides.{is_partner};

use crate::ends::End;
use dpc_model::tuples::Tuple;

/// Whether two times are at most so far apart.
fn are_near(within: u64, time: u64, other: u64) -> bool
    ensures { result ≡ is_within within time other }
{
    time.saturating_sub(other) <= within && other.saturating_sub(time) <= within
}

/// Whether the key columns of a left and a right tuple are equal in pairs.
fn have_one_key(keys: &[(u64, u64)], left: &Tuple, right: &Tuple) -> bool
    ensures { result ≡ keys_agree keys.now left.now right.now }
{
    for pair in keys {
        if left.column(pair.0) != right.column(pair.1) {
            return false;
        }
    }
    true
}

/// Whether a tuple of the other side and one of this side are partners.
pub fn are_partners(within: u64, keys: &[(u64, u64)], end: End, of: &Tuple, tuple: &Tuple) -> bool
    ensures { result ≡ is_partner end within keys.now of.now tuple.now }
{
    let (left, right) = match end {
        End::Left => (tuple, of),
        End::Right => (of, tuple),
    };
    are_near(within, left.stime, right.stime) && have_one_key(keys, left, right)
}
