//! A pool: a queue of orders, and the seats of those who put and take them.
ghost use Rattle.std.specs.Prelude.{◌≡◌, ◌+◌, ◌≤◌, length, IfOk, IfErr, OnOk, OnErr, IfSome, IfNone};
ghost use Rattle.crossbeam_queue.specs.Fifo.{Held};
ghost use Rattle.crossbeam_queue.specs.Passes.{IsPassOf};
ghost use Rattle.mill_work.specs.Milling.{IsOrder};
ghost use Rattle.mill_pool.specs.Rule.{SawQueue, put_view, taken_view};
ghost use Rattle.mill_pool.specs.Seats.{AreFresh, AreMade, known, maker_at, next_ticket, put_by, taken_by};
ghost use Rattle.mill_pool.specs.Answers.{room_of, IsSeatOf, AreSeatsOf, IsRefused, IsAccount, IsHandedBack};

use crate::account::{Account, account_of};
use crate::closing::gather_all;
use crate::job::{Job, Ticket};
use crate::kind::OrderKind;
use crate::rule::{JobQueue, Making, Putting, SeatPass, Taking};
use crate::seat::Seat;
use dpc_lists::faults::NoMemory;
use dpc_model::engines::Engine;
use mill_work::order::Order;
use std::alloc::Global;
use std::sync::Wait;

/// Why an order was not put. It is handed back.
#[derive(Drop)]
pub enum PutFault<M: Engine> {
    /// The seat has no memory for one ticket more.
    NoMemory(Order<M>),
    /// The queue held as many jobs as it has room for.
    Full(Order<M>),
}

/// Why a pool was not closed. It is handed back with its seats.
#[derive(Drop)]
pub enum CloseFault<M: Engine, K: OrderKind<M>> {
    /// There is no memory for the account.
    NoMemory(Pool<M, K>, Vec<Seat<M, K>>),
}

/// The seats from number 1 on.
fn make_seats<M: Engine + Drop, K: OrderKind<M>>(
    alloc: Global,
    queue: &JobQueue<M, K>,
    pass: &mut SeatPass<M, K>,
    seats: u64,
) -> Result<Vec<Seat<M, K>>, NoMemory>
    requires seats { (1 ≤ seats) × (seats ≤ 32) }
    requires queue { IsPassOf queue.now pass.old }
    requires first { known pass.old ≡ maker_at 1 }
    ensures queue { OnOk result (IsPassOf queue.now pass.new) }
    ensures first { OnOk result (known pass.new ≡ maker_at seats) }
    ensures made { IfOk result (λ made. AreMade queue.now made.items × (length made.items + 1 ≡ seats)) }
{
    let mut made = Vec::new(alloc);
    for number in 1..seats {
        let next = queue.another::<Making>(pass);
        made.push(Seat::new(alloc, next, number))?;
    }
    Ok(made)
}

/// Orders on their way from seat to seat. Threads share a pool, and each has a seat of its own.
#[derive(Drop)]
pub struct Pool<M: Engine, K: OrderKind<M>> {
    queue: JobQueue<M, K>,
}

impl<M: Engine + Drop, K: OrderKind<M>> Pool<M, K> {
    /// A pool with room for so many orders, and its seats, numbered from 0.
    pub fn new(
        alloc: Global,
        room: u64,
        seats: u64,
    ) -> Result<(Pool<M, K>, Vec<Seat<M, K>>), NoMemory>
        requires room { (1 ≤ room) × (room ≤ 1024) }
        requires seats { (1 ≤ seats) × (seats ≤ 32) }
        ensures room { IfOk result (λ made. room_of made.0 ≡ room) }
        ensures all { IfOk result (λ made. AreSeatsOf made.0 made.1.items) }
        ensures fresh { IfOk result (λ made. AreFresh made.1.items) }
        ensures many { IfOk result (λ made. length made.1.items ≡ seats) }
    {
        let (queue, mut pass) = JobQueue::<M, K>::ruled(alloc, room as usize)?;
        let mut all = make_seats(alloc, &queue, &mut pass, seats)?;
        all.insert(0, Seat::new(alloc, pass, 0))?;
        Ok((Pool { queue }, all))
    }

    /// Puts an order at the back of the queue, under the ticket that is answered. An order that is refused is handed
    /// back, and nothing changes. Past 2^62 orders it waits for ever.
    pub fn put<R: Wait>(
        &self,
        rt: &R,
        seat: &mut Seat<M, K>,
        order: Order<M>,
    ) -> Result<Ticket, PutFault<M>>
        requires seat { IsSeatOf self.now seat.old }
        requires order { IsOrder M.next M.width M.is_spent order }
        requires kind { K.takes order }
        ensures seat { IsSeatOf self.now seat.new }
        ensures parts { (known seat.new).parts ≡ (known seat.old).parts }
        ensures number { (known seat.new).number ≡ (known seat.old).number }
        ensures ticket { IfOk result (λ ticket. ticket ≡ next_ticket (known seat.old)) }
        ensures put { IfOk result (λ t. known seat.new ≡ put_view (known seat.old) (record { ticket = t; order = order })) }
        ensures refused { IfErr result (IsRefused (room_of self.now) (known seat.old) order) }
        ensures stays { OnErr result (known seat.new ≡ known seat.old) }
    {
        if seat.put.reserve(1).is_err() {
            return Err(PutFault::NoMemory(order));
        }
        let ticket = Ticket {
            seat: seat.number,
            number: seat.put.len() as u64,
        };
        match self
            .queue
            .push_as::<Putting, R>(rt, &mut seat.pass, Job::new(ticket, order))
        {
            Ok(()) => {
                seat.put.push_reserved(ticket);
                Ok(ticket)
            }
            Err(job) => Err(PutFault::Full(job.into_order())),
        }
    }

    /// Takes the job at the front of the queue, whose order can be milled. `None`: the queue was empty at one moment of
    /// the call. Where memory is wanted nothing is taken.
    pub fn take<R: Wait>(
        &self,
        rt: &R,
        seat: &mut Seat<M, K>,
    ) -> Result<Option<Job<M, K>>, NoMemory>
        requires { IsSeatOf self.now seat.old }
        ensures seat { IsSeatOf self.now seat.new }
        ensures parts { (known seat.new).parts ≡ (known seat.old).parts }
        ensures number { (known seat.new).number ≡ (known seat.old).number }
        ensures taken { IfOk result (λ found. IfSome found (λ job. known seat.new ≡ taken_view (known seat.old) job)) }
        ensures none { IfOk result (λ found. IfNone found (known seat.new ≡ known seat.old)) }
        ensures empty { IfOk result (λ found. IfNone found (Held 0 (SawQueue (known seat.old)))) }
        ensures stays { OnErr result (known seat.new ≡ known seat.old) }
    {
        if seat.taken.reserve(1).is_err() {
            return Err(NoMemory);
        }
        match self.queue.pop_as::<Taking, R>(rt, &mut seat.pass) {
            Some(job) => {
                seat.taken.push_reserved(job.ticket);
                Ok(Some(job))
            }
            None => Ok(None),
        }
    }

    /// What was put, taken and left, by tickets; the jobs that are left go with the queue. It takes all its memory before
    /// anything changes: where that is wanted, the pool and the seats are handed back as they were.
    pub fn close(self, alloc: Global, seats: Vec<Seat<M, K>>) -> Result<Account, CloseFault<M, K>>
        requires { AreSeatsOf self seats.items }
        ensures account { IfOk result (IsAccount (put_by seats.items) (taken_by seats.items)) }
        ensures stays { IfErr result (IsHandedBack self seats) }
    {
        let Ok(account) = account_of(alloc, seats.as_slice()) else {
            return Err(CloseFault::NoMemory(self, seats));
        };
        gather_all(&self.queue, seats);
        Ok(account)
    }
}
