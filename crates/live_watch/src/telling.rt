//! A worker that tells what its clients take.
ghost use Rattle.std.specs.Prelude.{◌≡◌};
ghost use Rattle.law_fit.specs.Fits.{CanRun};

use crate::feed::AtLock;
use client_views::seat::Seat;
use dpc_edge::gate::Gate;
use dpc_lists::lists::Listed;
use dpc_lists::steps::Steps;
use event_shares::names::RunName;
use event_shares::share::Share;
use live_view::names::ViewName;
use node_threads::milling::ByHand;
use node_threads::post::{Post, give_up};
use node_threads::turn::Turn;
use node_threads::worker::{Role, Worker};
use std::sync::Wait;
use std::sync::ledger::Ledger;

/// A worker at a seat, who tells what its clients took behind each part of its work.
pub(crate) struct Announcer<N: ViewName> {
    pub worker: Worker<ByHand>,
    pub seat: Seat<N>,
}

impl<N: RunName + ViewName> Role<N> for Announcer<N> {
    type Kept = Listed<u64>;

    ghost kept = { λ a. a.seat };

    ghost may_act = { λ _. CanRun N.script.plan × (N.plan ≡ N.script.plan) };

    fn act<R: Wait, G: Gate, S: Ledger>(
        &mut self,
        rt: &R,
        post: &Post<'_, N, G>,
        share: &mut Share<N>,
        steps: &mut Steps<S>,
    ) -> Turn {
        let turn = self.worker.act(rt, post, share, steps);
        if turn != Turn::Done {
            return turn;
        }
        let feed = AtLock { rt, post };
        match self.seat.tell(rt, post.alloc, &feed) {
            Ok(()) => Turn::Done,
            Err(_) => give_up(rt, post),
        }
    }
}
