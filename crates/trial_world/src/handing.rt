//! Orders of a replica: put back, put back twice, and put back where the node is another one by then.
ghost use Rattle.std.specs.Prelude.{◌≡◌, ◌<◌, false, IfOk, OnOk};
ghost use Rattle.node_core.specs.Milling.{CanBeMilled};

use diagram_reader::read_script;
use dpc_lists::faults::NoMemory;
use dpc_lists::steps::Steps;
use dpc_model::messages::Event;
use fragment_mill::mill::FragMill;
use mill_work::milling::{Milled, mill};
use mill_work::order::Order;
use node_core::faults::Point;
use std::alloc::Global;
use std::marker::Brand;
use std::sync::ledger::{Blank, Ledger};
use std::test::Fail;
use world_core::faults::CommitFault;
use world_core::world::World;

/// A fragment of two replicas: the source is actor 0, the replicas are 1 and 2, the client is 3.
const SCRIPT: &str =
    "borealis 1\nwidth 10\ndelay 20\nend 30\nsource s 1\nlog s 3 5\nlog s 12 7\nlog s 25 2\nfragment f 2 s\nfilter k s gt c0 4\nclient c f\nbegin\nrelease s 30\ntick 1\n";

/// The first replica.
const REPLICA: u64 = 1;

/// Where its order was taken.
const TAKEN: Point = Point {
    up: true,
    inc: 1,
    cursor: 0,
    ready: 3,
    fits: true,
};

/// The world after the source released all, and both replicas took it: three buckets are ready at each.
fn ready_world(alloc: Global) -> Result<World, Fail>
    ensures { IfOk result (λ w. w.spent ≡ false) }
{
    let Ok(script) = read_script(alloc, SCRIPT.as_bytes()) else {
        return Err(Fail::new("the script is refused"));
    };
    let mut world = World::new(alloc, script.plan)?;
    world.apply(alloc, Event::Release(0, 30))?;
    world.apply(alloc, Event::Deliver(0))?;
    world.apply(alloc, Event::Deliver(1))?;
    Ok(world)
}

/// Does the work of an order.
fn mill_apart<L: Ledger>(
    alloc: Global,
    order: Order<FragMill>,
    blank: Blank,
) -> Result<Milled<FragMill>, NoMemory>
    requires order { CanBeMilled order }
    requires name { blank.name ≡ L.name }
    requires parts { blank.parts ≡ L.parts }
    requires some { 0 < L.parts }
{
    let mut steps = Steps::<L>::new(blank);
    mill(alloc, order, &mut steps)
}

/// The work of the replica's next ready buckets, done.
fn work(alloc: Global, world: &World) -> Result<Milled<FragMill>, Fail> {
    let Some(order) = world.order(alloc, REPLICA)? else {
        return Err(Fail::new("no bucket is ready"));
    };
    Ok(mill_apart::<Brand>(alloc, order, Blank::new(1))?)
}

/// Where the node stood and would have had to, where work is stale.
fn stale(answer: Result<(), CommitFault>) -> Option<(Point, Point)> {
    match answer {
        Err(CommitFault::Stale { had, needed }) => Some((had, needed)),
        _ => None,
    }
}

/// What was sent from number `first` on comes, and then all tick. The answer is how many envelopes had been sent.
fn round(alloc: Global, world: &mut World, first: u64, now: u64) -> Result<u64, Fail>
    requires { world.old.spent ≡ false }
    ensures { OnOk result (world.new.spent ≡ false) }
{
    let sent = world.envelope_count();
    for k in first..sent {
        world.apply(alloc, Event::Deliver(k))?;
    }
    for actor in 0..4 {
        world.apply(alloc, Event::Tick(actor, now))?;
    }
    Ok(sent)
}

#[test]
fn an_order_is_put_back_once(rt: HostRuntime) -> Result<(), Fail> {
    let alloc = rt.alloc();
    let mut world = ready_world(alloc)?;
    let first = work(alloc, &world)?;
    let second = work(alloc, &world)?;
    assert!(rt; world.commit(alloc, first).is_ok());
    let had = Point {
        up: true,
        inc: 1,
        cursor: 3,
        ready: 0,
        fits: false,
    };
    assert!(rt; stale(world.commit(alloc, second)) == Some((had, TAKEN)));
    Ok(())
}

#[test]
fn the_node_of_an_order_crashed(rt: HostRuntime) -> Result<(), Fail> {
    let alloc = rt.alloc();
    let mut world = ready_world(alloc)?;
    let done = work(alloc, &world)?;
    world.apply(alloc, Event::Crash(1))?;
    let had = Point {
        up: false,
        inc: 1,
        cursor: 0,
        ready: 0,
        fits: false,
    };
    assert!(rt; stale(world.commit(alloc, done)) == Some((had, TAKEN)));
    Ok(())
}

/// It holds again all that it held, and is another incarnation.
#[test]
fn the_node_of_an_order_came_back(rt: HostRuntime) -> Result<(), Fail> {
    let alloc = rt.alloc();
    let mut world = ready_world(alloc)?;
    let done = work(alloc, &world)?;
    world.apply(alloc, Event::Crash(1))?;
    world.apply(alloc, Event::Restart(1, 2))?;
    let mut come = world.envelope_count();
    for now in 1..9 {
        come = round(alloc, &mut world, come, now)?;
    }
    let had = Point { inc: 2, ..TAKEN };
    assert!(rt; stale(world.commit(alloc, done)) == Some((had, TAKEN)));
    Ok(())
}
