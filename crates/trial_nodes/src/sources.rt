//! One source by hand. Values are counted by a person.
ghost use Rattle.std.specs.Prelude.{◌≡◌, ◌<◌, length, IfOk, OnOk};
ghost use Rattle.dpc_model.specs.Streams.{InOrder};
ghost use Rattle.dpc_model.specs.Fragments.{log_of};
ghost use Rattle.source_core.specs.Emitting.{IsSourceOf};

use dpc_lists::exact::Exact;
use dpc_lists::faults::NoMemory;
use dpc_lists::lists::{Listed, Name};
use dpc_model::messages::{Message, Out, Sess, Subscribe};
use dpc_model::plans::{ClientSpec, Plan, SourceSpec, StreamRef};
use dpc_model::tuples::{Item, Tuple, Tuples, Vals};
use source_core::source::SourceNode;
use std::alloc::{AllocError, Global};
use std::test::Fail;

const FIRST: Sess = Sess { inc: 1, number: 1 };

const SECOND: Sess = Sess { inc: 1, number: 2 };

fn tuple(alloc: Global, stime: u64) -> Result<Tuple, AllocError>
    ensures { IfOk result (λ tuple. tuple.stime ≡ stime) }
{
    let vals = Vals::from_slice(alloc, &[7])?;
    Ok(Tuple { stime, vals })
}

fn log(alloc: Global) -> Result<Tuples, AllocError>
    ensures { IfOk result (λ log. InOrder log) }
{
    let mut log = Vec::new(alloc);
    log.push(tuple(alloc, 3)?)?;
    log.push(tuple(alloc, 5)?)?;
    log.push(tuple(alloc, 9)?)?;
    Ok(Listed::from_vec(log))
}

fn name(alloc: Global) -> Result<Name, AllocError> {
    Ok(Listed::from_vec(b"n".to_vec(alloc)?))
}

/// A source and a client that reads it.
fn plan(alloc: Global) -> Result<Plan, AllocError>
    ensures number { IfOk result (λ plan. 0 < length plan.sources) }
    ensures in_order { IfOk result (λ plan. InOrder (log_of plan 0)) }
{
    let source = SourceSpec {
        name: name(alloc)?,
        columns: 1,
        log: log(alloc)?,
    };
    let client = ClientSpec {
        name: name(alloc)?,
        input: StreamRef::Source(0),
    };
    Ok(Plan {
        version: 3,
        passing: false,
        width: 10,
        delay: 20,
        end: 30,
        sources: Listed::from_vec(vec![in alloc; source]?),
        frags: Listed::from_vec(Vec::new(alloc)),
        clients: Listed::from_vec(vec![in alloc; client]?),
    })
}

fn opened(alloc: Global, plan: &Plan) -> Result<SourceNode, NoMemory>
    requires number { 0 < length plan.now.sources }
    requires in_order { InOrder (log_of plan.now 0) }
    ensures { IfOk result (λ source. IsSourceOf plan.now source) }
{
    let source = SourceNode::new(alloc, plan, 0)?;
    Ok(source)
}

/// What is sent where all below a time is emitted, and perhaps released.
fn given(
    alloc: Global,
    plan: &Plan,
    source: &mut SourceNode,
    time: u64,
    released: bool,
) -> Result<Vec<Out>, NoMemory>
    requires { IsSourceOf plan.now source.old }
    ensures { OnOk result (IsSourceOf plan.now source.new) }
{
    let outs = if released {
        source.release(alloc, plan, time)?
    } else {
        source.emit(alloc, plan, time)?
    };
    Ok(outs)
}

/// Whether exactly this batch goes to actor 1.
fn is_batch(outs: &[Out], wanted: Sess, number: u64, items: &[Item]) -> bool {
    let [out] = outs else {
        return false;
    };
    let Message::Batch(sess, index, sent) = &out.message else {
        return false;
    };
    let sent = sent.as_slice();
    out.to == 1
        && *sess == wanted
        && *index == number
        && sent.len() == items.len()
        && sent.iter().zip(items).all(|(item, other)| item.same(other))
}

/// Whether exactly a beat with this session goes to actor 1.
fn is_beat(outs: &[Out], tally: Option<(Sess, u64)>) -> bool {
    let [out] = outs else {
        return false;
    };
    let Message::Beat(beat) = &out.message else {
        return false;
    };
    out.to == 1 && beat.tally == tally
}

#[test]
fn a_source_gives_its_log(rt: HostRuntime) -> Result<(), Fail> {
    let alloc = rt.alloc();
    let plan = plan(alloc)?;
    let mut source = opened(alloc, &plan)?;
    assert!(rt; source.readers() == [1].as_slice());

    let outs = given(alloc, &plan, &mut source, 6, false)?;
    let wanted = [
        Item::Stable(0, tuple(alloc, 3)?),
        Item::Stable(1, tuple(alloc, 5)?),
    ];
    assert!(rt; is_batch(outs.as_slice(), FIRST, 0, &wanted));
    let outs = given(alloc, &plan, &mut source, 8, true)?;
    assert!(rt; is_batch(outs.as_slice(), FIRST, 1, &[Item::Boundary(8, 2)]));
    assert!(rt; source.emitted() == 2 && source.bound() == 8);

    let asked = Subscribe {
        sess: SECOND,
        n: 1,
        tentative: false,
    };
    let outs = source.deliver(alloc, &plan, 1, &Message::Subscribe(asked))?;
    let wanted = [Item::Stable(1, tuple(alloc, 5)?), Item::Boundary(8, 2)];
    assert!(rt; is_batch(outs.as_slice(), SECOND, 0, &wanted));
    let outs = source.tick(alloc, 4)?;
    assert!(rt; is_beat(outs.as_slice(), Some((SECOND, 1))));
    Ok(())
}
