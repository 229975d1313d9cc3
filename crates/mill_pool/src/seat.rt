//! What one worker carries of a pool.
ghost use Rattle.std.specs.Prelude.{◌≡◌, ◌<◌};
ghost use Rattle.mill_pool.specs.Jobs.{tickets};
ghost use Rattle.mill_pool.specs.Seats.{IsFresh, known};

use crate::job::Ticket;
use crate::kind::OrderKind;
use crate::rule::SeatPass;
use dpc_model::engines::Engine;
use std::alloc::Global;
use std::marker::Model;

/// A pass of a pool's queue, with the tickets that its worker put and took. It goes into a thread and comes back out of
/// it. Contracts see the pass, and by `known` what it knows.
#[derive(Drop)]
pub struct Seat<M: Engine, K: OrderKind<M>> {
    pub(crate) pass: SeatPass<M, K>,
    pub(crate) number: u64,
    pub(crate) put: Vec<Ticket>,
    pub(crate) taken: Vec<Ticket>,
}

impl<M: Engine, K: OrderKind<M>> Model for Seat<M, K> {
    ghost use Rattle.mill_pool.specs.Seats.{SeatOf, IsSeat, known};

    ghost Value = { SeatOf M };

    ghost view = { λ s. s.pass };

    ghost invariant = { λ s. IsSeat s.number s.put.items s.taken.items (known s.pass) };
}

impl<M: Engine, K: OrderKind<M>> Seat<M, K> {
    /// A seat by which nothing was put or taken.
    pub(crate) fn new(alloc: Global, pass: SeatPass<M, K>, number: u64) -> Seat<M, K>
        requires fresh { IsFresh number (known pass) }
        requires live { 0 < (known pass).parts }
        ensures { result ≡ pass }
    {
        Seat {
            pass,
            number,
            put: Vec::new(alloc),
            taken: Vec::new(alloc),
        }
    }

    /// Its number, from 0. It takes no memory.
    pub fn number(&self) -> u64
        ensures { result ≡ (known self.now).number }
    {
        self.number
    }

    /// Its pass.
    pub(crate) fn into_pass(self) -> SeatPass<M, K>
        ensures { result ≡ self }
    {
        let Seat {
            pass,
            number: _,
            put: _,
            taken: _,
        } = self;
        pass
    }

    /// The tickets that it put, in order.
    pub(crate) fn put_tickets(&self) -> &[Ticket]
        ensures { result.now ≡ tickets (known self.now).put }
    {
        self.put.as_slice()
    }

    /// The tickets that it took, in order.
    pub(crate) fn taken_tickets(&self) -> &[Ticket]
        ensures { result.now ≡ tickets (known self.now).taken }
    {
        self.taken.as_slice()
    }
}
