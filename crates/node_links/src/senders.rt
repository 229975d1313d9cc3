//! Who sends to which port: sought among all senders, and as a table by actor.
ghost use Rattle.std.specs.Prelude.{◌≡◌, IfOk};
ghost use Rattle.node_links.specs.Linking.{sender_among, senders_at, IsTable};

use dpc_lists::faults::NoMemory;
use dpc_model::actors::narrow;
use std::alloc::Global;
use upstream::upstream::Upstream;

/// The first port whose stream an actor sends, and which of its replicas that is.
pub(crate) fn sender(upstreams: &[Upstream], actor: u64) -> Option<(usize, usize)>
    ensures { result ≡ sender_among 0 (senders_at upstreams.now) actor }
{
    for (port, upstream) in upstreams.iter().enumerate() {
        if let Some(r) = upstream.replica(actor) {
            return Some((port, r));
        }
    }
    None
}

/// What the table is to hold of an actor.
fn entry(upstreams: &[Upstream], actor: u64) -> Result<Option<(u32, u32)>, NoMemory>
    ensures { IfOk result (λ place. place ≡ sender_among 0 (senders_at upstreams.now) actor) }
{
    match sender(upstreams, actor) {
        Some((port, r)) => Ok(Some((narrow(port as u64)?, narrow(r as u64)?))),
        None => Ok(None),
    }
}

/// The port and the replica that each of so many actors is.
pub(crate) fn table_of(
    alloc: Global,
    upstreams: &[Upstream],
    actors: usize,
) -> Result<Vec<Option<(u32, u32)>>, NoMemory>
    ensures { IfOk result (λ table. IsTable table.items (senders_at upstreams.now)) }
{
    let mut table = Vec::with_capacity(alloc, actors)?;
    for actor in 0..actors {
        table.push(entry(upstreams, actor as u64)?)?;
    }
    Ok(table)
}
