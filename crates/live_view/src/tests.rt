//! What no clause says: that calls succeed where there is memory, and looks beside tellings return.
ghost use Rattle.std.specs.Prelude.{◌≡◌, pos, [], ◌∷◌, IfOk};
ghost use Rattle.live_view.specs.Tellers.{new_teller};
ghost use Rattle.live_view.specs.Samples.{tuple_of, sample_plan, first_items, later_items};

use crate::live::LiveView;
use crate::looker::{Looker, Seen};
use crate::names::ViewName;
use crate::receipt::Receipt;
use crate::teller::Teller;
use dpc_lists::exact::Exact;
use dpc_lists::faults::NoMemory;
use dpc_lists::lists::Listed;
use dpc_lists::shared::Shared;
use dpc_model::plans::{ClientSpec, Plan, SourceSpec, StreamRef};
use dpc_model::tuples::{Item, Tuple, Vals};
use std::alloc::{AllocError, Global};
use std::marker::Brand;
use std::sync::Wait;
use std::test::Fail;
use std::thread::{Threads, join};

fn tuple(alloc: Global, stime: u64, value: i64) -> Result<Tuple, AllocError>
    ensures { IfOk result (λ t. t ≡ record { stime = stime; vals = value ∷ [] }) }
{
    let vals = Vals::from_slice(alloc, &[value])?;
    Ok(Tuple { stime, vals })
}

fn plan(alloc: Global) -> Result<Plan, AllocError>
    ensures { IfOk result (λ p. p ≡ sample_plan) }
{
    let log = Listed::from_vec(vec![in alloc; tuple(alloc, 1, 10)?, tuple(alloc, 11, 11)?]?);
    let source = SourceSpec {
        name: Listed::from_vec(Vec::new(alloc)),
        columns: 1,
        log,
    };
    let client = ClientSpec {
        name: Listed::from_vec(Vec::new(alloc)),
        input: StreamRef::Source(0),
    };
    Ok(Plan {
        version: 1,
        passing: false,
        width: 10,
        delay: 30,
        end: 20,
        sources: Listed::from_vec(vec![in alloc; source]?),
        frags: Listed::from_vec(Vec::new(alloc)),
        clients: Listed::from_vec(vec![in alloc; client]?),
    })
}

fn first(alloc: Global) -> Result<Shared<Item>, NoMemory>
    ensures { IfOk result (λ items. items ≡ first_items) }
{
    let stable = Item::Stable(0, tuple(alloc, 1, 10)?);
    Shared::from_vec(vec![in alloc; stable, Item::Boundary(10, 1)]?)
}

fn later(alloc: Global) -> Result<Shared<Item>, NoMemory>
    ensures { IfOk result (λ items. items ≡ later_items) }
{
    let tentative = Item::Tentative(tuple(alloc, 11, 1)?);
    let stable = Item::Stable(1, tuple(alloc, 11, 11)?);
    Shared::from_vec(vec![in alloc; tentative, Item::Undo(1), stable, Item::Boundary(20, 2)]?)
}

/// Whether one tuple was seen.
fn is_one(seen: &Seen, count: u64, bound: u64, tuple: &Tuple) -> bool {
    let tuples = seen.tuples.as_slice();
    seen.count == count && seen.bound == bound && tuples.len() == 1 && tuples[0].same(tuple)
}

/// Whether so many tuples were told, up to that bound.
fn is_of<N: ViewName>(receipt: &Receipt<N>, count: u64, bound: u64) -> bool {
    receipt.count() == count && receipt.bound() == bound
}

/// Two tellings, a look after the first, and one after the second was learnt.
fn told_and_seen<N: ViewName, R: Wait>(
    rt: &R,
    alloc: Global,
    teller: &mut Teller<N>,
    looker: &mut Looker<N>,
) -> Result<bool, Fail>
    requires plan { N.plan ≡ sample_plan }
    requires teller { teller.old ≡ new_teller 0 }
    requires looker { looker.old.client ≡ 0 }
{
    let told = teller.tell(rt, alloc, &[first(alloc)?])?;
    let before = is_of(&told, 1, 10);
    let seen = looker.look(rt, alloc, 0)?;
    let before = before && is_one(&seen, 1, 10, &tuple(alloc, 1, 10)?);
    let told = teller.tell(rt, alloc, &[later(alloc)?])?;
    looker.learn(&told);
    let seen = looker.look(rt, alloc, 1)?;
    Ok(before && is_of(&told, 2, 20) && is_one(&seen, 2, 20, &tuple(alloc, 11, 11)?))
}

fn one_view<N: ViewName, R: Wait>(rt: &R, alloc: Global, plan: &Plan) -> Result<bool, Fail>
    requires name { plan.now ≡ N.plan }
    requires plan { plan.now ≡ sample_plan }
{
    let (mut teller, mut lookers) = LiveView::new::<N, R>(rt, alloc, plan, 0, 1)?;
    let done = told_and_seen(rt, alloc, &mut teller, &mut lookers[0]);
    teller.close(rt);
    done
}

/// Whether what is first was told.
fn tells<N: ViewName, R: Wait>(rt: &R, alloc: Global, teller: &mut Teller<N>) -> bool
    requires plan { N.plan ≡ sample_plan }
    requires teller { teller.old ≡ new_teller 0 }
{
    match first(alloc) {
        Ok(items) => teller.tell(rt, alloc, &[items]).is_ok(),
        Err(_) => false,
    }
}

/// Whether no look shows less than the one before.
fn looks<N: ViewName, R: Wait>(rt: &R, alloc: Global, mut looker: Looker<N>) -> bool {
    let mut last = 0;
    for _ in 0..1000 {
        let Ok(seen) = looker.look(rt, alloc, 0) else {
            return false;
        };
        if seen.count < last {
            return false;
        }
        last = seen.count;
    }
    true
}

fn looks_beside<N: ViewName + Send + Sync, R: Threads + Wait + Sync>(
    rt: &R,
    alloc: Global,
    plan: &Plan,
) -> Result<bool, Fail>
    requires name { plan.now ≡ N.plan }
    requires plan { plan.now ≡ sample_plan }
{
    let (mut teller, mut lookers) = LiveView::new::<N, R>(rt, alloc, plan, 0, 1)?;
    let Some(looker) = lookers.pop() else {
        teller.close(rt);
        return Ok(false);
    };
    let lent = &mut teller;
    let (seen, told) = join(
        rt,
        move || looks(rt, alloc, looker),
        move ||
            requires { (N.plan ≡ sample_plan) × (lent.now ≡ new_teller 0) }
        { tells(rt, alloc, lent) },
    );
    teller.close(rt);
    Ok(seen && told)
}

#[test]
fn what_is_told_is_seen(rt: HostRuntime) -> Result<(), Fail> {
    let plan = plan(rt.alloc())?;
    let done = one_view::<Brand, HostRuntime>(&rt, rt.alloc(), &plan)?;
    assert!(rt; done);
    Ok(())
}

#[test]
fn looks_beside_tellings_return(rt: HostRuntime) -> Result<(), Fail> {
    let plan = plan(rt.alloc())?;
    let done = looks_beside::<Brand, HostRuntime>(&rt, rt.alloc(), &plan)?;
    assert!(rt; done);
    Ok(())
}
