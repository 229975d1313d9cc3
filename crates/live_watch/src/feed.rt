//! Reads under the lock of a run what its clients took.
ghost use Rattle.std.specs.Prelude.{◌≡◌, false, IfOk};
ghost use Rattle.law_fit.specs.Fits.{CanRun};
ghost use Rattle.node_model.specs.Clients.{client_stream};
ghost use Rattle.world_model.specs.Safe.{AreTrueItems};
ghost use Rattle.live_view.specs.Telling.{in_batches};

use client_views::ending::shares;
use client_views::telling::Feed;
use dpc_edge::gate::Gate;
use dpc_lists::faults::NoMemory;
use dpc_lists::shared::Shared;
use dpc_model::tuples::Item;
use event_shares::names::RunName;
use live_view::names::ViewName;
use node_threads::hall::Hall;
use node_threads::post::Post;
use std::alloc::Global;
use std::sync::Wait;

/// What clients took, where one has to take the lock to read it. No item is copied there.
#[derive(Drop)]
pub(crate) struct AtLock<'a, N: RunName, R, G> {
    pub rt: &'a R,
    pub post: &'a Post<'a, N, G>,
}

/// What a client took behind so many batches; nothing where the run does not go on.
fn news<N: RunName>(
    alloc: Global,
    hall: &Hall<N>,
    client: usize,
    told: usize,
) -> Result<Vec<Shared<Item>>, NoMemory>
    requires { CanRun N.script.plan }
    ensures { IfOk result (λ news. AreTrueItems N.script.plan (client_stream N.script.plan client) (in_batches news.items)) }
{
    if hall.is_spent() {
        return Ok(Vec::new(alloc));
    }
    let Some(client) = hall.world().clients().get(client) else {
        return Ok(Vec::new(alloc));
    };
    let taken = client.taken();
    shares(alloc, &taken[told.min(taken.len())..])
}

impl<N: RunName + ViewName, R: Wait, G: Gate> Feed<N> for AtLock<'_, N, R, G> {
    ghost can_tell = { λ _. CanRun N.script.plan × (N.plan ≡ N.script.plan) };

    fn read(
        &self,
        alloc: Global,
        client: usize,
        told: usize,
    ) -> Result<Vec<Shared<Item>>, NoMemory> {
        news(alloc, &self.post.hall.lock(self.rt), client, told)
    }
}
