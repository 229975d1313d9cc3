//! The line in front of a stream: a key word and the client's name.
ghost use Rattle.std.specs.Prelude.{◌≡◌};
ghost use Rattle.recorded_streams.specs.Streams as spec;

use dpc_model::plans::Plan;
use script_draft::named::place_of;

/// The client whose name stands in a line behind this key and its space.
pub fn client_behind(key: &[u8], plan: &Plan, line: &[u8]) -> Option<u64>
    ensures { result ≡ spec.client_behind key.now plan.now line.now }
{
    if line.len() < key.len() {
        return None;
    }
    let (front, name) = line.split_at(key.len());
    if front == key {
        place_of(name, plan.clients.as_slice())
    } else {
        None
    }
}
