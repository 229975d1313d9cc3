//! What is shown of clients.
ghost use Rattle.std.specs.Prelude.{◌≡◌, ◌<◌, ℕ, length, slice_get, Some, IfOk};
ghost use Rattle.client_fold.specs.Folding.{StandForClients, StandsForClient};
ghost use Rattle.dpc_model.specs.declared.plans.Plan.{Plan};
ghost use Rattle.node_model.specs.Clients.{ClientState};
ghost use Rattle.world_model.specs.Worlds.{World};
ghost use Rattle.picture_model.specs.Points.{client_point};
ghost use Rattle.picture_watch.specs.Tallies.{tally_of, AreSeen, AreTallied};

use crate::tallies::{Tally, renewed};
use client_fold::client::Client;
use dpc_lists::faults::NoMemory;
use picture_model::columns::ClientPoint;
use std::alloc::Global;

/// What is shown of all clients, and their tallies.
#[derive(Drop)]
pub(crate) struct Seen {
    pub(crate) points: Vec<ClientPoint>,
    pub(crate) tallies: Vec<Tally>,
}

/// What is shown of a client, by the tally of all that it took.
fn client_point(client: &Client, tally: Tally) -> ClientPoint
    ensures { (plan : Plan) (c : ℕ) (x : ClientState) → StandsForClient plan c client.now x → tally ≡ tally_of x.taken
        → result ≡ client_point plan x }
{
    ClientPoint {
        stable: client.count(),
        bound: client.bound(),
        tentative: client.tentatives() as u64,
        undos: tally.undos,
        dones: tally.dones,
        reads: client.upstream().chosen() as u64,
        settled: client.settled(),
    }
}

/// The tally at a place.
fn tally_at(tallies: &[Tally], i: usize) -> Tally
    requires { i < length tallies.now }
    ensures { slice_get tallies.now i ≡ Some result }
{
    tallies[i]
}

/// What is shown of clients, by their tallies.
pub(crate) fn look_at(
    alloc: Global,
    clients: &[Client],
    tallies: &[Tally],
) -> Result<Seen, NoMemory>
    ensures { IfOk result (λ seen. (plan : Plan) (w : World) → StandForClients plan 0 clients.now w.clients
        → AreTallied plan w tallies.now → AreSeen plan w seen) }
{
    let mut points = Vec::new(alloc);
    let mut renewals = Vec::new(alloc);
    for i in 0..clients.len().min(tallies.len()) {
        let client = &clients[i];
        let tally = renewed(tally_at(tallies, i), client)?;
        points.push(client_point(client, tally))?;
        renewals.push(tally)?;
    }
    Ok(Seen {
        points,
        tallies: renewals,
    })
}
