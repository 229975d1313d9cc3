//! How the passes of a pool come together again.
ghost use Rattle.std.specs.Prelude.{◌≡◌, ◌+◌, ◌++◌, ◌<◌, List};
ghost use Rattle.crossbeam_queue.specs.Passes.{IsPassOf};
ghost use Rattle.mill_pool.specs.Jobs.{JobValue, TakenOrLeft};
ghost use Rattle.mill_pool.specs.Seats.{AreAllOf, AreOf, known, parts_of, put_by, taken_by};

use crate::kind::OrderKind;
use crate::rule::{Gathering, JobQueue, SeatPass, Whole};
use crate::seat::Seat;
use dpc_model::engines::Engine;

/// The passes of these seats come to this one.
fn gather<M: Engine + Drop, K: OrderKind<M>>(
    queue: &JobQueue<M, K>,
    pass: &mut SeatPass<M, K>,
    seats: Vec<Seat<M, K>>,
)
    requires queue { IsPassOf queue.now pass.old }
    requires seats { AreOf queue.now seats.items }
    requires live { 0 < (known pass.old).parts }
    ensures queue { IsPassOf queue.now pass.new }
    ensures put { (known pass.new).put ≡ (known pass.old).put ++ put_by seats.items }
    ensures taken { (known pass.new).taken ≡ (known pass.old).taken ++ taken_by seats.items }
    ensures parts { (known pass.new).parts ≡ (known pass.old).parts + parts_of seats.items }
{
    for seat in seats {
        queue.absorb::<Gathering>(pass, seat.into_pass());
    }
}

/// What all seats of a pool know together: each job that they put was taken or is left.
pub(crate) fn gather_all<M: Engine + Drop, K: OrderKind<M>>(
    queue: &JobQueue<M, K>,
    seats: Vec<Seat<M, K>>,
)
    requires { AreAllOf queue.now seats.items }
    ensures { (left : List (JobValue M)) × TakenOrLeft (put_by seats.items) (taken_by seats.items) left }
{
    let mut others = seats;
    let Some(last) = others.pop() else {
        unreachable!();
    };
    let mut pass = last.into_pass();
    gather(queue, &mut pass, others);
    queue.learn_as::<Whole>(&mut pass);
}
