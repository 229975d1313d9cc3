//! Who tells what some clients take, or watches all of them.
ghost use Rattle.std.specs.Prelude.{◌≡◌, [], ◌++◌, ◌∷◌, ◌+◌, List, length, IfOk};
ghost use Rattle.std.specs.List.{range_with_len};
ghost use Rattle.node_model.specs.Clients.{ClientState};
ghost use Rattle.client_fold.specs.Folding.{StandForClients};
ghost use Rattle.client_views.specs.Watching.{AreWatchedBy};

use crate::telling::{Feed, Telling};
use crate::watch::Watch;
use crate::watched::Watched;
use client_fold::client::Client;
use dpc_lists::faults::NoMemory;
use live_view::looker::Looker;
use live_view::names::ViewName;
use live_view::receipt::Receipt;
use live_view::teller::Teller;
use std::alloc::Global;
use std::marker::Model;
use std::sync::Wait;

/// The tellers of a worker's clients, or a reader's watches of all clients. It isn't dropped: end it by `close`.
/// Contracts see the numbers of the clients that are watched.
pub struct Seat<N: ViewName> {
    tellings: Vec<Telling<N>>,
    watches: Vec<Watch<N>>,
}

impl<N: ViewName> Model for Seat<N> {
    ghost use Rattle.std.specs.Coded.{codes};
    ghost use Rattle.std.specs.Prelude.{ℕ, List};

    ghost Value = { List ℕ };

    ghost coded = { Prim.hlevel codes };

    ghost view = { λ s. s.watches.items };
}

/// Ends what is told.
fn close_all<N: ViewName, R: Wait>(rt: &R, tellings: Vec<Telling<N>>) {
    let mut tellings = tellings;
    let count = tellings.len();
    for _ in 0..count {
        tellings.take_last().close(rt);
    }
    tellings.destroy_empty();
}

impl<N: ViewName> Seat<N> {
    /// Nobody's clients. It takes no memory.
    pub fn new(alloc: Global) -> Seat<N>
        ensures { result ≡ [] }
    {
        Seat {
            tellings: Vec::new(alloc),
            watches: Vec::new(alloc),
        }
    }

    /// One client more is told here.
    pub(crate) fn tell_also<R: Wait>(
        &mut self,
        rt: &R,
        client: usize,
        teller: Teller<N>,
    ) -> Result<(), NoMemory>
        requires { teller.client ≡ client }
        ensures { self.new ≡ self.old }
    {
        match self.tellings.push(Telling::new(client, teller)) {
            Ok(()) => Ok(()),
            Err(back) => {
                back.value.close(rt);
                Err(NoMemory)
            }
        }
    }

    /// One client more is watched here.
    pub(crate) fn watch_also(&mut self, client: u64, looker: Looker<N>) -> Result<(), NoMemory>
        requires { looker.client ≡ client }
        ensures { IfOk result (λ _. self.new ≡ self.old ++ client ∷ []) }
    {
        self.watches.push(Watch::new(client, looker))?;
        Ok(())
    }

    /// Tells what is to be read of its clients.
    pub fn tell<R: Wait, F: Feed<N>>(
        &mut self,
        rt: &R,
        alloc: Global,
        feed: &F,
    ) -> Result<(), NoMemory>
        requires { F.can_tell feed.now }
        ensures { self.new ≡ self.old }
    {
        for i in 0..self.tellings.len() {
            self.tellings[i].tell(rt, alloc, feed)?;
        }
        Ok(())
    }

    /// Adds what its tellings were acknowledged by last.
    pub(crate) fn hand_in(&mut self, receipts: &mut Vec<Receipt<N>>) -> Result<(), NoMemory>
        ensures { self.new ≡ self.old }
    {
        for i in 0..self.tellings.len() {
            if let Some(receipt) = self.tellings[i].take_receipt() {
                receipts.push(receipt)?;
            }
        }
        Ok(())
    }

    /// Looks at each client that is watched: whether anything was new.
    pub fn look<R: Wait>(&mut self, rt: &R, alloc: Global) -> Result<bool, NoMemory>
        ensures { self.new ≡ self.old }
    {
        let mut more = false;
        for i in 0..self.watches.len() {
            if self.watches[i].look(rt, alloc)? {
                more = true;
            }
        }
        Ok(more)
    }

    /// From now on no less is seen than what this receipt tells.
    fn learn_one(&mut self, receipt: &Receipt<N>)
        ensures { self.new ≡ self.old }
    {
        for i in 0..self.watches.len() {
            self.watches[i].learn(receipt);
        }
    }

    /// From now on no less is seen than what these receipts tell.
    pub(crate) fn learn(&mut self, receipts: &[Receipt<N>])
        ensures { self.new ≡ self.old }
    {
        for receipt in receipts {
            self.learn_one(receipt);
        }
    }

    /// Looks at each client until no less is seen than it holds.
    pub(crate) fn look_last<R: Wait>(
        &mut self,
        rt: &R,
        alloc: Global,
        reader: u64,
        clients: &[Client],
    ) -> Result<Vec<Watched>, NoMemory>
        requires { self.old ≡ range_with_len 0 (length clients.now) }
        ensures same { self.new ≡ self.old }
        ensures watched { IfOk result (λ ws. (xs : List ClientState) → StandForClients N.plan 0 clients.now xs → AreWatchedBy N.plan reader 0 xs ws.items) }
    {
        let mut watched = Vec::new(alloc);
        for c in 0..clients.len() {
            watched.push(self.watches[c].look_last(rt, alloc, reader, &clients[c])?)?;
        }
        Ok(watched)
    }

    /// Ends what is told here.
    pub fn close<R: Wait>(self, rt: &R) {
        let Self {
            tellings,
            watches: _,
        } = self;
        close_all(rt, tellings);
    }
}
