//! An order on its way from one seat of a pool to another.
ghost use Rattle.std.specs.Prelude.{◌≡◌};
ghost use Rattle.mill_work.specs.Milling.{IsOrder};

use crate::kind::OrderKind;
use dpc_model::engines::Engine;
use mill_work::order::Order;
use std::marker::{Model, PhantomData};

/// The seat that put an order, and how many it had put before.
#[derive(Clone, Copy, PartialEq, Eq, Hash, Debug, Drop)]
pub struct Ticket {
    pub seat: u64,
    pub number: u64,
}

/// An order of the pool's kind that can be milled, with its ticket. Contracts see a `JobValue`.
#[derive(Drop)]
pub struct Job<M: Engine, K: OrderKind<M>> {
    pub ticket: Ticket,
    pub(crate) order: Order<M>,
    kind: PhantomData<K>,
}

impl<M: Engine, K: OrderKind<M>> Model for Job<M, K> {
    ghost use Rattle.mill_work.specs.Milling.{IsOrder};
    ghost use Rattle.mill_pool.specs.Jobs.{JobValue};

    ghost Value = { JobValue M };

    ghost view = { λ j. record { ticket = j.ticket; order = j.order } };

    ghost invariant = { λ j. IsOrder M.next M.width M.is_spent j.order × K.takes j.order };
}

impl<M: Engine, K: OrderKind<M>> Job<M, K> {
    /// A job. It takes no memory.
    pub(crate) fn new(ticket: Ticket, order: Order<M>) -> Job<M, K>
        requires ready { IsOrder M.next M.width M.is_spent order }
        requires kind { K.takes order }
        ensures { result ≡ record { ticket = ticket; order = order } }
    {
        Job {
            ticket,
            order,
            kind: PhantomData,
        }
    }

    /// The order, which can be milled and is of the pool's kind. It takes no memory.
    pub fn into_order(self) -> Order<M>
        ensures order { result ≡ self.order }
        ensures ready { IsOrder M.next M.width M.is_spent result }
        ensures kind { K.takes result }
    {
        let Job { order, .. } = self;
        order
    }
}

/// A job as seats know it, which only proofs see: no value of it is made.
pub struct KnownJob<M: Engine> {
    pub ticket: Ticket,
    pub order: Order<M>,
}

impl<M: Engine> Model for KnownJob<M> {
    ghost use Rattle.mill_pool.specs.Jobs.{JobValue};

    ghost Value = { JobValue M };

    ghost view = { λ j. record { ticket = j.ticket; order = j.order } };
}
