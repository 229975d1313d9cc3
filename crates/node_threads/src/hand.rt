//! A worker's number, with its share of the events.
ghost use Rattle.std.specs.Prelude.{◌≡◌, ◌+◌, ◌<◌, ◌≤◌, ◌^◌, IfOk, vec_len};

use dpc_lists::faults::NoMemory;
use event_shares::names::RunName;
use event_shares::share::Share;
use std::alloc::Global;
use std::sync::{Mutex, Wait};

/// A worker, with a share of one part. It goes into a thread and comes back out of it.
#[derive(Drop)]
pub struct Hand<N: RunName> {
    pub worker: u64,
    pub share: Share<N>,
    ghost one_part: { share.parts ≡ 1 },
}

/// One worker's hand.
fn of_one_part<N: RunName>(worker: u64, share: Share<N>) -> Hand<N>
    requires { share.parts ≡ 1 }
{
    Hand { worker, share }
}

/// A hand for each worker.
pub fn deal<N: RunName>(
    alloc: Global,
    rest: &mut Share<N>,
    workers: u64,
) -> Result<Vec<Hand<N>>, NoMemory>
    requires { workers < rest.old.parts }
    ensures hands { IfOk result (λ hands. vec_len hands ≡ workers) }
    ensures rest { IfOk result (λ hands. rest.new.parts + workers ≡ rest.old.parts) }
{
    let mut hands = Vec::new(alloc);
    for worker in 0..workers {
        hands.push(of_one_part(worker, rest.split()))?;
    }
    Ok(hands)
}

/// Takes back the share of each hand.
pub fn gather<N: RunName>(rest: &mut Share<N>, hands: Vec<Hand<N>>)
    requires { N.parts < 2 ^ 64 }
    ensures { rest.new.parts ≡ rest.old.parts + vec_len hands }
{
    for hand in hands {
        let Hand { worker: _, share } = hand;
        rest.join(share);
    }
}

/// A share of one part out of what is shared, where there is one to take.
pub fn take_share<N: RunName, R: Wait>(rt: &R, shares: &Mutex<Share<N>>) -> Option<Share<N>> {
    let mut rest = shares.lock(rt);
    if rest.parts() < 2 {
        return None;
    }
    Some(rest.split())
}

/// Gives a share back.
pub fn give_share<N: RunName, R: Wait>(rt: &R, shares: &Mutex<Share<N>>, share: Share<N>)
    requires { N.parts < 2 ^ 64 }
{
    shares.lock(rt).join(share);
}
