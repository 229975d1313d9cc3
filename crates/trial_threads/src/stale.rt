//! Work on the engine of a node which crashed before that was put back.
ghost use Rattle.std.specs.Prelude.{◌≡◌, ◌<◌, IfOk};
ghost use Rattle.law_fit.specs.Fits.{CanRun};
ghost use Rattle.node_core.specs.Milling.{CanBeMilled};

use diagram_reader::read_script;
use dpc_lists::faults::NoMemory;
use dpc_lists::steps::Steps;
use dpc_model::messages::Event;
use dpc_model::scripts::Script;
use event_shares::names::RunName;
use event_shares::share::Share;
use fragment_mill::mill::FragMill;
use mill_work::lending::{Done, mill_in_place};
use mill_work::order::Order;
use node_threads::hall::Hall;
use std::alloc::Global;
use std::marker::Brand;
use std::sync::ledger::{Blank, Ledger};
use world_core::faults::CommitFault;

/// The source is actor 0, the node 1, the client 2. The node takes the log in the first phase, and crashes in the second.
const SCRIPT: &str =
    "borealis 1\nwidth 10\ndelay 50\nend 10\nsource a 1\nlog a 1 10\nfragment f 1 a\nfilter k a 1\nclient c f\nbegin\nrelease a 10\ntick 1\ncrash f.0\ntick 2\n";

/// The events before the work is taken, all of the first phase.
const BEFORE: [Event; 6] = [
    Event::Phase(1),
    Event::Release(0, 10),
    Event::Deliver(0),
    Event::Tick(0, 1),
    Event::Tick(1, 1),
    Event::Tick(2, 1),
];

/// Whether each of these events happens.
fn all_happen<N: RunName>(
    alloc: Global,
    hall: &mut Hall<N>,
    events: &[Event],
    share: &mut Share<N>,
) -> bool {
    for e in events {
        let Ok(true) = hall.event(alloc, *e, share) else {
            return false;
        };
    }
    true
}

/// Does the work of an order on its own engine.
fn mill_apart<L: Ledger>(
    alloc: Global,
    order: Order<FragMill>,
    blank: Blank,
) -> Result<Done<FragMill>, NoMemory>
    requires order { CanBeMilled order }
    requires name { blank.name ≡ L.name }
    requires parts { blank.parts ≡ L.parts }
    requires some { 0 < L.parts }
    ensures { IfOk result (λ done. done.order ≡ order) }
{
    let mut steps = Steps::<L>::new(blank);
    mill_in_place(alloc, order, &mut steps)
}

/// Whether the node of the work is up where it is put back, and the work is stale.
fn crashed_in<N: RunName>(alloc: Global, script: Script, blank: Blank) -> Option<bool>
    requires can { CanRun script.plan }
    requires script { N.script ≡ script }
    requires name { blank.name ≡ N.name }
    requires parts { blank.parts ≡ N.parts }
    requires cut { blank.parts ≡ 64 }
{
    let Ok((mut hall, mut share)) = Hall::<N>::new(alloc, script, blank) else {
        return None;
    };
    if !all_happen(alloc, &mut hall, &BEFORE, &mut share) {
        return None;
    }
    let Ok(Some(order)) = hall.lend(alloc, 1) else {
        return None;
    };
    if !all_happen(
        alloc,
        &mut hall,
        &[Event::Phase(2), Event::Crash(1)],
        &mut share,
    ) {
        return None;
    }
    let Ok(done) = mill_apart::<Brand>(alloc, order, Blank::new(1)) else {
        return None;
    };
    match hall.put_back(alloc, done, &mut share) {
        Err(CommitFault::Stale { had, .. }) => Some(had.up),
        _ => None,
    }
}

/// Whether the node of work that is stale is up, though it crashed. None: there was no work, or it is not stale.
pub fn crashed_meanwhile(alloc: Global) -> Option<bool> {
    let Ok(script) = read_script(alloc, SCRIPT.as_bytes()) else {
        return None;
    };
    crashed_in::<Brand>(alloc, script, Blank::new(64))
}
