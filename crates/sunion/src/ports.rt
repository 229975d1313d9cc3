//! An inlet for each port.
ghost use Rattle.std.specs.Prelude.{◌≡◌, map, replicate, length, IfOk};
ghost use Rattle.sunion.specs.Ports.{at_opening, behind_snapshot, begun_anew, forgetting};

use dpc_lists::faults::NoMemory;
use dpc_model::messages::Sess;
use inlet::inlet::Inlet;
use std::alloc::Global;

/// So many inlets, each with session 1 of this incarnation open.
pub fn new_ports(alloc: Global, count: usize, inc: u64) -> Result<Vec<Inlet>, NoMemory>
    ensures { IfOk result (λ ports. ports.items ≡ replicate count (at_opening inc)) }
{
    let mut ports = Vec::with_capacity(alloc, count)?;
    for _ in 0..count {
        ports.push(Inlet::new(alloc, inc))?;
    }
    Ok(ports)
}

/// An inlet for each count of tuples that it had, all of them below a time and none kept. Each has to ask
/// for session 1 of this incarnation.
pub fn restarted_ports(
    alloc: Global,
    counts: &[u64],
    inc: u64,
    time: u64,
) -> Result<Vec<Inlet>, NoMemory>
    ensures { IfOk result (λ ports. ports.items ≡ map (behind_snapshot inc time) counts.now) }
{
    let last = Sess { inc, number: 0 };
    let mut ports = Vec::with_capacity(alloc, counts.len())?;
    for count in counts {
        ports.push(Inlet::start_at(alloc, last, *count, time))?;
    }
    Ok(ports)
}

/// For each of these inlets one that had so many tuples, all of them below a time and none kept. Each has
/// to ask for a session behind its last one.
pub fn ports_begun_anew(
    alloc: Global,
    ports: &[Inlet],
    counts: &[u64],
    time: u64,
) -> Result<Vec<Inlet>, NoMemory>
    requires { length counts.now ≡ length ports.now }
    ensures { IfOk result (λ others. others.items ≡ begun_anew time counts.now ports.now) }
{
    let mut others = Vec::with_capacity(alloc, ports.len())?;
    for (port, inlet) in ports.iter().enumerate() {
        others.push(Inlet::start_at(alloc, inlet.sess(), counts[port], time))?;
    }
    Ok(others)
}

/// Lets each port's first stable tuples go that lie below a time.
pub fn drop_below(ports: &mut [Inlet], time: u64)
    ensures { ports.new ≡ map (forgetting time) ports.old }
{
    for port in ports.iter_mut() {
        port.drop_below(time);
    }
}
