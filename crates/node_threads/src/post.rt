//! What those who work for a run need, and what each of them does with work of a node.
ghost use Rattle.std.specs.Prelude.{◌≡◌, ◌≤◌};
ghost use Rattle.law_work.specs.TrueWork.{IsTrueWork};
ghost use Rattle.node_core.specs.Milling.{CanBeMilled};

use crate::hall::Hall;
use crate::signals::Signals;
use crate::turn::{MOST_ALONE, MOST_IDLE, Turn};
use dpc_edge::gate::Gate;
use dpc_lists::steps::Steps;
use event_shares::names::RunName;
use event_shares::share::Share;
use fragment_mill::mill::FragMill;
use mill_work::lending::{Done, mill_in_place};
use mill_work::order::Order;
use std::alloc::Global;
use std::sync::ledger::Ledger;
use std::sync::{Mutex, Wait};
use std::thread;
use world_core::faults::CommitFault;

/// What somebody needs to work for a run, and which worker of how many it is, if it is one.
#[derive(Drop)]
pub struct Post<'a, N: RunName, G> {
    pub alloc: Global,
    pub hall: &'a Mutex<Hall<N>>,
    pub signals: &'a Signals,
    pub gate: &'a G,
    pub worker: u64,
    pub workers: u64,
}

impl<N: RunName, G> Post<'_, N, G> {
    /// How often in a row there may be nothing to do for this one before it leaves. Who is left alone leaves too.
    pub(crate) fn most_idle(&self) -> u64
        ensures { result ≤ 1000000 }
    {
        if self.signals.is_left() {
            0
        } else if self.signals.have_come(self.workers) {
            MOST_IDLE
        } else {
            MOST_ALONE
        }
    }
}

/// Memory was wanting for work: nobody goes on.
pub fn give_up<N: RunName, R: Wait, G>(rt: &R, post: &Post<'_, N, G>) -> Turn {
    post.hall.lock(rt).give_up();
    Turn::Over
}

/// Puts work back that was done on a node's own engine, as soon as its event may come.
fn put_back<N: RunName, R: Wait, G>(
    rt: &R,
    post: &Post<'_, N, G>,
    done: Done<FragMill>,
    share: &mut Share<N>,
) -> Turn
    requires { IsTrueWork N.script.plan done.order }
    ensures { share.new.parts ≡ share.old.parts }
{
    let mut done = done;
    for _ in rt.forever() {
        let told = post.hall.lock(rt).put_back(post.alloc, done, share);
        match told {
            Ok(None) => return Turn::Done,
            Ok(Some(back)) => done = back,
            Err(CommitFault::Stale { .. }) => return Turn::Idle,
            Err(_) => return Turn::Over,
        }
        if post.signals.has_ended() {
            return Turn::Over;
        }
        thread::yield_now();
    }
    unreachable!()
}

/// Does work on a node's own engine outside the lock, and puts it back.
pub(crate) fn mill<N: RunName, R: Wait, G: Gate, S: Ledger>(
    rt: &R,
    post: &Post<'_, N, G>,
    order: Order<FragMill>,
    share: &mut Share<N>,
    steps: &mut Steps<S>,
) -> Turn
    requires ready { CanBeMilled order }
    requires work { IsTrueWork N.script.plan order }
    ensures { share.new.parts ≡ share.old.parts }
{
    let node = order.node;
    post.gate.at_mill(node);
    let Ok(done) = mill_in_place(post.alloc, order, steps) else {
        return give_up(rt, post);
    };
    post.gate.at_event(node);
    put_back(rt, post, done, share)
}
