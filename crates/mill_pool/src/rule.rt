//! The rule of a pool: what each seat knows, and what each kind of step makes of it.
use crate::job::{Job, KnownJob};
use crate::kind::OrderKind;
use crossbeam_queue::protocol::{Join, Lesson, Outcome, Protocol, Split};
use crossbeam_queue::{Pass, RuledArrayQueue};
use dpc_model::engines::Engine;
use std::collections::LinkedList;

/// What a seat knows, which only proofs see: no value of it is made.
pub struct SeatView<M: Engine> {
    pub number: u64,
    /// How many jobs the seat put.
    pub puts: u64,
    /// Its parts of the right to know the whole. A view without one has ended.
    pub parts: u64,
    /// How many views there are, where this one may make more; else 0.
    pub made: u64,
    pub put: LinkedList<KnownJob<M>>,
    pub taken: LinkedList<KnownJob<M>>,
}

/// What holds of a pool at each moment.
pub struct PoolRule;

impl<M: Engine, K: OrderKind<M>> Protocol<Job<M, K>, SeatView<M>> for PoolRule {
    ghost use Rattle.mill_pool.specs.Rule.{IsPool, first_view};

    ghost holds = { IsPool };

    ghost first = { first_view };
}

/// One seat more.
pub struct Making;

impl<M: Engine> Split<SeatView<M>> for Making {
    ghost use Rattle.mill_pool.specs.Rule.{maker_view, made_view};

    ghost left = { maker_view };

    ghost right = { made_view };
}

/// A push, or one that was refused.
pub struct Putting;

impl<M: Engine, K: OrderKind<M>> Outcome<Job<M, K>, SeatView<M>> for Putting {
    ghost use Rattle.std.specs.Prelude.{◌≡◌};
    ghost use Rattle.mill_pool.specs.Rule.{put_view};

    ghost then = { λ before job after. after ≡ put_view before job };
}

impl<M: Engine, K: OrderKind<M>> Lesson<Job<M, K>, SeatView<M>> for Putting {
    ghost use Rattle.mill_pool.specs.Rule.{SawQueue};

    ghost fact = { SawQueue };
}

/// A pop, or one that found nothing.
pub struct Taking;

impl<M: Engine, K: OrderKind<M>> Outcome<Job<M, K>, SeatView<M>> for Taking {
    ghost use Rattle.std.specs.Prelude.{◌≡◌};
    ghost use Rattle.mill_pool.specs.Rule.{taken_view};

    ghost then = { λ before job after. after ≡ taken_view before job };
}

impl<M: Engine, K: OrderKind<M>> Lesson<Job<M, K>, SeatView<M>> for Taking {
    ghost use Rattle.mill_pool.specs.Rule.{SawQueue};

    ghost fact = { SawQueue };
}

/// A seat's pass comes to another's.
pub struct Gathering;

impl<M: Engine> Join<SeatView<M>> for Gathering {
    ghost use Rattle.mill_pool.specs.Rule.{gathered_view, ended_view};

    ghost both = { gathered_view };

    ghost spent = { ended_view };
}

/// What the seat with every part knows.
pub struct Whole;

impl<M: Engine, K: OrderKind<M>> Lesson<Job<M, K>, SeatView<M>> for Whole {
    ghost use Rattle.mill_pool.specs.Jobs.{TakenOrLeft};

    ghost fact = { λ v items. TakenOrLeft v.put v.taken items };
}

/// A queue under the rule.
pub type JobQueue<M, K> = RuledArrayQueue<Job<M, K>, SeatView<M>, PoolRule>;

/// What one seat carries through its calls. It takes no memory.
pub type SeatPass<M, K> = Pass<Job<M, K>, SeatView<M>>;
