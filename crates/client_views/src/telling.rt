//! Tells what one client takes.
ghost use Rattle.std.specs.Prelude.{◌≡◌, ℕ, IfOk};
ghost use Rattle.node_model.specs.Clients.{client_stream};
ghost use Rattle.world_model.specs.Safe.{AreTrueItems};
ghost use Rattle.live_view.specs.Telling.{in_batches};

use dpc_lists::faults::NoMemory;
use dpc_lists::shared::Shared;
use dpc_model::tuples::Item;
use live_view::names::ViewName;
use live_view::receipt::Receipt;
use live_view::teller::Teller;
use std::alloc::Global;
use std::marker::Model;
use std::sync::Wait;

/// Where one reads what clients took.
pub trait Feed<N: ViewName> {
    /// What has to hold of it for it to be true.
    ghost can_tell: { Self → Type 0 };

    /// What a client took behind so many batches, or any other part of what it took.
    fn read(&self, alloc: Global, client: usize, told: usize) -> Result<Vec<Shared<Item>>, NoMemory>
        requires { can_tell self.now }
        ensures { IfOk result (λ news. AreTrueItems N.plan (client_stream N.plan client) (in_batches news.items)) };
}

/// The teller of one client, how many batches it told, and what it was acknowledged by last. It isn't dropped: end it by
/// `close`. Contracts see the client's number.
pub(crate) struct Telling<N: ViewName> {
    client: usize,
    told: usize,
    teller: Teller<N>,
    last: Option<Receipt<N>>,
}

impl<N: ViewName> Model for Telling<N> {
    ghost use Rattle.std.specs.Coded.{codes};
    ghost use Rattle.std.specs.Prelude.{◌≡◌, ℕ};

    ghost Value = { ℕ };

    ghost coded = { Prim.hlevel codes };

    ghost view = { λ t. t.client };

    ghost invariant = { λ t. t.teller.client ≡ t.client };
}

impl<N: ViewName> Telling<N> {
    /// Nothing of this client was told.
    pub fn new(client: usize, teller: Teller<N>) -> Telling<N>
        requires { teller.client ≡ client }
        ensures { result ≡ client }
    {
        Telling {
            client,
            told: 0,
            teller,
            last: None,
        }
    }

    /// Tells what is to be read of its client. Once memory was wanted it tells nothing more, and says so.
    pub fn tell<R: Wait, F: Feed<N>>(
        &mut self,
        rt: &R,
        alloc: Global,
        feed: &F,
    ) -> Result<(), NoMemory>
        requires { F.can_tell feed.now }
        ensures { self.new ≡ self.old }
    {
        let news = feed.read(alloc, self.client, self.told)?;
        if news.is_empty() {
            return Ok(());
        }
        let Ok(receipt) = self.teller.tell(rt, alloc, news.as_slice()) else {
            return Err(NoMemory);
        };
        self.told = self.told.saturating_add(news.len());
        self.last = Some(receipt);
        Ok(())
    }

    /// What it was acknowledged by last, once.
    pub fn take_receipt(&mut self) -> Option<Receipt<N>>
        ensures { self.new ≡ self.old }
    {
        self.last.take()
    }

    /// Ends it.
    pub fn close<R: Wait>(self, rt: &R) {
        let Self {
            client: _,
            told: _,
            teller,
            last: _,
        } = self;
        teller.close(rt);
    }
}
