//! A seat of a run's pool: who works there puts orders, or mills what others put.
ghost use Rattle.std.specs.Prelude.{◌≡◌, ◌<◌};
ghost use Rattle.law_work.specs.TrueWork.{IsTrueWork};
ghost use Rattle.mill_pool.specs.Answers.{IsSeatOf};
ghost use Rattle.mill_pool.specs.Seats.{known};

use crate::milling::Milling;
use crate::post::{Post, give_up, mill};
use crate::turn::{Turn, pause};
use crate::worker::Role;
use dpc_edge::gate::Gate;
use dpc_lists::steps::Steps;
use event_shares::names::RunName;
use event_shares::share::Share;
use fragment_mill::mill::FragMill;
use mill_pool::job::Job;
use mill_pool::kind::OrderKind;
use mill_pool::pool::{Pool, PutFault};
use mill_pool::seat::Seat;
use std::marker::{Brand, PhantomData};
use std::sync::Wait;
use std::sync::ledger::{Blank, Ledger};

/// The orders of a run's pool: true work of the script that N names, of a node with its own engine.
#[derive(Drop)]
pub struct TrueWork<N: RunName> {
    of: PhantomData<N>,
}

impl<N: RunName> OrderKind<FragMill> for TrueWork<N> {
    ghost takes = { IsTrueWork N.script.plan };
}

/// A pool for the orders of a run.
pub type RunPool<N> = Pool<FragMill, TrueWork<N>>;

/// A seat of it.
pub type RunSeat<N> = Seat<FragMill, TrueWork<N>>;

/// A seat with its pool.
#[derive(Drop)]
pub(crate) struct PoolSeat<'a, N: RunName> {
    pub pool: &'a RunPool<N>,
    pub seat: RunSeat<N>,
    ghost fits: { IsSeatOf pool.now seat },
}

impl<'a, N: RunName> PoolSeat<'a, N> {
    /// A seat with its pool.
    pub fn new(pool: &'a RunPool<N>, seat: RunSeat<N>) -> PoolSeat<'a, N>
        requires { IsSeatOf pool.now seat }
        ensures seat { result.seat ≡ seat }
        ensures pool { result.pool.now ≡ pool.now }
    {
        PoolSeat { pool, seat }
    }

    /// Puts the next work of a node into the pool, or does it where the pool is full.
    fn put_next<R: Wait, G: Gate, S: Ledger>(
        &mut self,
        rt: &R,
        post: &Post<'_, N, G>,
        node: u64,
        share: &mut Share<N>,
        steps: &mut Steps<S>,
    ) -> Turn
        ensures share { share.new.parts ≡ share.old.parts }
        ensures pool { self.new.pool ≡ self.old.pool }
        ensures number { (known self.new.seat).number ≡ (known self.old.seat).number }
        ensures parts { (known self.new.seat).parts ≡ (known self.old.seat).parts }
    {
        let order = post.hall.lock(rt).lend(post.alloc, node);
        let Ok(order) = order else {
            return give_up(rt, post);
        };
        let Some(order) = order else {
            return Turn::Idle;
        };
        let number = self.seat.number();
        post.signals.put(number);
        match self.pool.put(rt, &mut self.seat, order) {
            Ok(_) => Turn::Done,
            Err(PutFault::Full(order)) => {
                post.signals.done(number);
                mill(rt, post, order, share, steps)
            }
            Err(PutFault::NoMemory(_)) => give_up(rt, post),
        }
    }

    /// Puts the next work of each of these nodes: idle where there is none.
    fn put_all<R: Wait, G: Gate, S: Ledger>(
        &mut self,
        rt: &R,
        post: &Post<'_, N, G>,
        nodes: &[u32],
        share: &mut Share<N>,
        steps: &mut Steps<S>,
    ) -> Turn
        ensures share { share.new.parts ≡ share.old.parts }
        ensures pool { self.new.pool ≡ self.old.pool }
        ensures number { (known self.new.seat).number ≡ (known self.old.seat).number }
        ensures parts { (known self.new.seat).parts ≡ (known self.old.seat).parts }
    {
        let mut came = Turn::Idle;
        for node in nodes {
            match self.put_next(rt, post, u64::from(*node), share, steps) {
                Turn::Idle => {}
                Turn::Over => return Turn::Over,
                Turn::Done | Turn::Left => came = Turn::Done,
            }
        }
        came
    }

    /// Waits until each order that was put at this seat is done.
    fn wait_for_all<R: Wait, G: Gate>(&self, rt: &R, post: &Post<'_, N, G>) -> Turn {
        let number = self.seat.number();
        let mut idle: u64 = 0;
        for _ in rt.forever() {
            if post.signals.has_ended() {
                return Turn::Over;
            }
            if post.signals.all_done(number) {
                return Turn::Done;
            }
            if post.signals.is_milling() {
                idle = 0;
            } else if idle >= post.most_idle() {
                return Turn::Left;
            } else {
                idle += 1;
            }
            pause(idle);
        }
        unreachable!()
    }

    /// Mills a job outside the lock, and tells whose order is done. A stale one is dropped.
    fn mill_job<R: Wait, G: Gate, S: Ledger>(
        rt: &R,
        post: &Post<'_, N, G>,
        job: Job<FragMill, TrueWork<N>>,
        share: &mut Share<N>,
        steps: &mut Steps<S>,
    ) -> Turn
        ensures { share.new.parts ≡ share.old.parts }
    {
        let putter = job.ticket.seat;
        post.signals.begin_milling();
        let turn = mill(rt, post, job.into_order(), share, steps);
        post.signals.end_milling();
        post.signals.done(putter);
        if turn == Turn::Over {
            Turn::Over
        } else {
            Turn::Done
        }
    }
}

/// A worker that puts what is ready into a pool.
impl<'a, N: RunName> Milling<N> for PoolSeat<'a, N> {
    type Kept = (&'a RunPool<N>, (u64, u64));

    ghost kept = { λ s. (s.pool, ((known s.seat).number, (known s.seat).parts)) };

    fn mill_all<R: Wait, G: Gate, S: Ledger>(
        &mut self,
        rt: &R,
        post: &Post<'_, N, G>,
        nodes: &[u32],
        share: &mut Share<N>,
        steps: &mut Steps<S>,
    ) -> Turn {
        for _ in rt.forever() {
            match self.put_all(rt, post, nodes, share, steps) {
                Turn::Idle => return Turn::Done,
                Turn::Over => return Turn::Over,
                Turn::Done | Turn::Left => {}
            }
            let turn = self.wait_for_all(rt, post);
            if turn != Turn::Done {
                return turn;
            }
        }
        unreachable!()
    }
}

/// Who mills what others put, and makes no other events. It is idle only where nothing is in the pool.
impl<'a, N: RunName> Role<N> for PoolSeat<'a, N> {
    type Kept = (&'a RunPool<N>, (u64, u64));

    ghost kept = { λ s. (s.pool, ((known s.seat).number, (known s.seat).parts)) };

    ghost may_act = { λ _. Unit {0} };

    fn act<R: Wait, G: Gate, S: Ledger>(
        &mut self,
        rt: &R,
        post: &Post<'_, N, G>,
        share: &mut Share<N>,
        steps: &mut Steps<S>,
    ) -> Turn {
        if post.signals.has_ended() {
            return Turn::Over;
        }
        match self.pool.take(rt, &mut self.seat) {
            Ok(Some(job)) => PoolSeat::mill_job(rt, post, job, share, steps),
            Ok(None) => Turn::Idle,
            Err(_) => give_up(rt, post),
        }
    }
}

/// Mills what is left in a pool, as long as the run goes on.
fn drain_counted<N: RunName, R: Wait, G: Gate, S: Ledger>(
    rt: &R,
    post: &Post<'_, N, G>,
    seat: &mut PoolSeat<'_, N>,
    share: &mut Share<N>,
    blank: Blank,
)
    requires name { blank.name ≡ S.name }
    requires parts { blank.parts ≡ S.parts }
    requires some { 0 < S.parts }
    ensures share { share.new.parts ≡ share.old.parts }
    ensures pool { seat.new.pool ≡ seat.old.pool }
    ensures number { (known seat.new.seat).number ≡ (known seat.old.seat).number }
    ensures parts { (known seat.new.seat).parts ≡ (known seat.old.seat).parts }
{
    let mut steps = Steps::<S>::new(blank);
    for _ in rt.forever() {
        if seat.act(rt, post, share, &mut steps) != Turn::Done {
            return;
        }
    }
}

/// Mills what is left in a pool, as long as the run goes on.
pub(crate) fn drain<N: RunName, R: Wait, G: Gate>(
    rt: &R,
    post: &Post<'_, N, G>,
    seat: &mut PoolSeat<'_, N>,
    share: &mut Share<N>,
)
    ensures share { share.new.parts ≡ share.old.parts }
    ensures pool { seat.new.pool ≡ seat.old.pool }
    ensures number { (known seat.new.seat).number ≡ (known seat.old.seat).number }
    ensures parts { (known seat.new.seat).parts ≡ (known seat.old.seat).parts }
{
    drain_counted::<N, R, G, Brand>(rt, post, seat, share, Blank::new(1));
}
