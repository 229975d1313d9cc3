//! How a worker has the ready buckets of its nodes milled.
ghost use Rattle.std.specs.Prelude.{◌≡◌};

use crate::post::{Post, give_up, mill};
use crate::turn::Turn;
use dpc_edge::gate::Gate;
use dpc_lists::steps::Steps;
use event_shares::names::RunName;
use event_shares::share::Share;
use std::sync::Wait;
use std::sync::ledger::Ledger;

/// How a worker has ready buckets milled.
pub trait Milling<N: RunName> {
    /// What milling leaves as it is.
    type Kept;

    ghost kept: { Self → Self.Kept };

    /// Has what is ready at some nodes milled, until each of them has its engine back.
    fn mill_all<R: Wait, G: Gate, S: Ledger>(
        &mut self,
        rt: &R,
        post: &Post<'_, N, G>,
        nodes: &[u32],
        share: &mut Share<N>,
        steps: &mut Steps<S>,
    ) -> Turn
        ensures share { share.new.parts ≡ share.old.parts }
        ensures kept { kept self.new ≡ kept self.old };
}

/// A worker that mills what is ready itself.
#[derive(Drop)]
pub struct ByHand;

impl<N: RunName> Milling<N> for ByHand {
    type Kept = ();

    ghost kept = { λ _. tt };

    fn mill_all<R: Wait, G: Gate, S: Ledger>(
        &mut self,
        rt: &R,
        post: &Post<'_, N, G>,
        nodes: &[u32],
        share: &mut Share<N>,
        steps: &mut Steps<S>,
    ) -> Turn {
        for node in nodes {
            if mill_whole(rt, post, u64::from(*node), share, steps) == Turn::Over {
                return Turn::Over;
            }
        }
        Turn::Done
    }
}

/// Takes work of a node with its engine, does it outside the lock, and puts it back.
fn try_mill<N: RunName, R: Wait, G: Gate, S: Ledger>(
    rt: &R,
    post: &Post<'_, N, G>,
    node: u64,
    share: &mut Share<N>,
    steps: &mut Steps<S>,
) -> Turn
    ensures { share.new.parts ≡ share.old.parts }
{
    let order = post.hall.lock(rt).lend(post.alloc, node);
    match order {
        Ok(Some(order)) => mill(rt, post, order, share, steps),
        Ok(None) => Turn::Idle,
        Err(_) => give_up(rt, post),
    }
}

/// Mills what is ready at a node, as long as anything is.
fn mill_whole<N: RunName, R: Wait, G: Gate, S: Ledger>(
    rt: &R,
    post: &Post<'_, N, G>,
    node: u64,
    share: &mut Share<N>,
    steps: &mut Steps<S>,
) -> Turn
    ensures { share.new.parts ≡ share.old.parts }
{
    for _ in rt.forever() {
        let turn = try_mill(rt, post, node, share, steps);
        if turn != Turn::Done {
            return turn;
        }
    }
    unreachable!()
}
