//! How many buckets are complete, or reached, at every port.
ghost use Rattle.std.specs.Prelude.{◌≡◌, ◌<◌};
ghost use Rattle.dpc_model.specs.Due.{is_reached};
ghost use Rattle.dpc_lists.specs.Lists.{last_below};
ghost use Rattle.sunion.specs.Ports.{least_over, complete_at, reached_at, passing_inputs};

use inlet::inlet::Inlet;

/// How many buckets are complete, counted up to `most`.
pub fn count_complete(ports: &[Inlet], width: u64, most: u64) -> u64
    requires { 0 < width }
    ensures { result ≡ least_over (complete_at width) most ports.now }
{
    let mut least = most;
    for port in ports {
        least = least.min(port.bound() / width);
    }
    least
}

/// How many buckets every port is known to go past, counted up to `most`.
fn count_reached(ports: &[Inlet], width: u64, most: u64) -> u64
    requires { 0 < width }
    ensures { result ≡ least_over (reached_at width) most ports.now }
{
    let mut least = most;
    for port in ports {
        least = least.min(port.bound().max(port.passed()) / width);
    }
    least
}

/// The last bucket from `frontier` on and below `buckets` that every port is known to go past, and that isn't
/// complete or has one closed before it.
pub fn last_reached(
    ports: &[Inlet],
    width: u64,
    buckets: u64,
    frontier: u64,
    any_closed: bool,
) -> Option<u64>
    requires { 0 < width }
    ensures { result ≡ last_below (is_reached (passing_inputs width ports.now frontier any_closed)) buckets }
{
    let end = count_reached(ports, width, buckets);
    let start = if any_closed {
        frontier
    } else {
        frontier.max(count_complete(ports, width, buckets))
    };
    if start < end { Some(end - 1) } else { None }
}
