//! Watches one client's stream.
ghost use Rattle.std.specs.Prelude.{◌≡◌, ◌≤◌, length, IfOk};
ghost use Rattle.dpc_model.specs.Fragments.{ideal, ideal_upto};
ghost use Rattle.node_model.specs.Clients.{client_stream};

use crate::watched::Watched;
use client_fold::client::Client;
use dpc_lists::faults::NoMemory;
use live_view::looker::Looker;
use live_view::names::ViewName;
use live_view::receipt::Receipt;
use std::alloc::Global;
use std::marker::Model;
use std::sync::Wait;

/// A looker at one client's stream, and how many tuples it saw. Contracts see the client's number.
#[derive(Drop)]
pub(crate) struct Watch<N: ViewName> {
    client: u64,
    seen: u64,
    looker: Looker<N>,
}

impl<N: ViewName> Model for Watch<N> {
    ghost use Rattle.std.specs.Coded.{codes};
    ghost use Rattle.std.specs.Prelude.{◌≡◌, ℕ};

    ghost Value = { ℕ };

    ghost coded = { Prim.hlevel codes };

    ghost view = { λ w. w.client };

    ghost invariant = { λ w. w.looker.client ≡ w.client };
}

impl<N: ViewName> Watch<N> {
    /// Nothing of this client was seen.
    pub fn new(client: u64, looker: Looker<N>) -> Watch<N>
        requires { looker.client ≡ client }
        ensures { result ≡ client }
    {
        Watch {
            client,
            seen: 0,
            looker,
        }
    }

    /// Looks at what is new: whether there is anything.
    pub fn look<R: Wait>(&mut self, rt: &R, alloc: Global) -> Result<bool, NoMemory>
        ensures { self.new ≡ self.old }
    {
        let seen = self.looker.look(rt, alloc, self.seen)?;
        let more = self.seen < seen.count;
        self.seen = seen.count;
        Ok(more)
    }

    /// From now on it sees no less than what this receipt tells, where that is of its client.
    pub fn learn(&mut self, receipt: &Receipt<N>)
        ensures { self.new ≡ self.old }
    {
        if receipt.client() == self.client {
            self.looker.learn(receipt);
        }
    }

    /// Looks until it sees no less than its client holds, as which this one is given.
    pub fn look_last<R: Wait>(
        &mut self,
        rt: &R,
        alloc: Global,
        reader: u64,
        client: &Client,
    ) -> Result<Watched, NoMemory>
        ensures same { self.new ≡ self.old }
        ensures place { IfOk result (λ w. (w.reader ≡ reader) × (w.client ≡ self.old)) }
        ensures within { IfOk result (λ w. w.count ≤ length (ideal N.plan (client_stream N.plan w.client))) }
        ensures whole { IfOk result (λ w. length (ideal_upto N.plan (client_stream N.plan w.client) w.bound) ≤ w.count) }
        ensures held { IfOk result (λ w. (client.now.inlet.count ≤ w.count) × (client.now.inlet.state.held.bound ≤ w.bound)) }
    {
        for _ in rt.forever() {
            let seen = self.looker.look(rt, alloc, u64::MAX)?;
            if client.count() <= seen.count && client.bound() <= seen.bound {
                return Ok(Watched {
                    reader,
                    client: self.client,
                    count: seen.count,
                    bound: seen.bound,
                });
            }
        }
        unreachable!()
    }
}
