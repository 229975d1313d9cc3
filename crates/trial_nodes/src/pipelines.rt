//! What no clause says: that calls succeed where there is memory. Values are counted by a person.
ghost use Rattle.std.specs.Prelude.{◌≡◌, ◌∷◌, [], None, List, IfOk};
ghost use Rattle.dpc_model.specs.Fragments.{AreSoundOps};
ghost use Rattle.dpc_model.specs.Parts.{Inputs, Outputs};
ghost use Rattle.dpc_model.specs.declared.operators.OpSpec.{OpSpec};
ghost use Rattle.dpc_model.specs.declared.plans.FragSpec.{FragSpec};
ghost use Rattle.dpc_model.specs.declared.sessions.Sub.{Sub};
ghost use Rattle.fragment_mill.specs.Mills.{MillAfter};
ghost use Rattle.soutput.specs.Giving.{new_output};
ghost use Rattle.sunion.specs.Unions.{StandsForInputs, complete_upto_in};
ghost use Rattle.law_buckets.specs.Series.{AreReady};
ghost use Rattle.pipeline.specs.Flowing.{IsMillOf, CanMill, CanProcess};

use checkpoint_redo::keeper::Keeper;
use dpc_lists::exact::Exact;
use dpc_lists::faults::NoMemory;
use dpc_lists::lists::Listed;
use dpc_lists::shared::Shared;
use dpc_model::expressions::{Expr, ExprNode};
use dpc_model::messages::{Message, NodeState, Sess, Subscribe};
use dpc_model::operators::{OpKind, OpSpec, Wire};
use dpc_model::plans::{FragSpec, Plan};
use dpc_model::tuples::{Item, Tuple, Vals};
use fragment_mill::mill::FragMill;
use mill_work::order::Order;
use pipeline::pipeline::Pipeline;
use pipeline::snapshots::Snapshot;
use soutput::batches::Sends;
use soutput::output::SOutput;
use std::alloc::{AllocError, Global};
use std::test::Fail;
use sunion::sunion::SUnion;

mod messages;

/// A filter of port 0 by its first column.
fn operators(alloc: Global) -> Result<Vec<OpSpec>, AllocError>
    ensures { IfOk result (λ ops. AreSoundOps ops.items) }
{
    let node = ExprNode::Col(0);
    let filter = OpSpec {
        name: Listed::from_vec(Vec::new(alloc)),
        kind: OpKind::Filter(Expr { node }),
        reads: Listed::from_vec(vec![in alloc; Wire::Port(0)]?),
    };
    Ok(vec![in alloc; filter]?)
}

/// A plan of one fragment, of which no more than the operators counts here.
fn plan(alloc: Global) -> Result<Plan, AllocError>
    ensures one { IfOk result (λ p. (f : FragSpec) × (p.frags ≡ f ∷ []) × AreSoundOps f.ops) }
    ensures width { IfOk result (λ p. p.width ≡ 10) }
{
    let ops = operators(alloc)?;
    let frag = FragSpec {
        name: Listed::from_vec(Vec::new(alloc)),
        replicas: 1,
        delay: None,
        inputs: Listed::from_vec(Vec::new(alloc)),
        ops: Listed::from_vec(ops),
    };
    Ok(Plan {
        version: 1,
        passing: true,
        width: 10,
        delay: 20,
        end: 20,
        sources: Listed::from_vec(Vec::new(alloc)),
        frags: Listed::from_vec(vec![in alloc; frag]?),
        clients: Listed::from_vec(Vec::new(alloc)),
    })
}

fn keeper(alloc: Global) -> Result<Keeper<FragMill>, NoMemory>
    ensures held { IfOk result (λ k. k.keeper.held ≡ None) }
    ensures after { IfOk result (λ k. MillAfter k.keeper.state [] 0) }
    ensures mill { IfOk result (λ k. (ops : List OpSpec) × AreSoundOps ops × IsMillOf ops 10 k.keeper.state) }
{
    let mill = FragMill::new(alloc, &plan(alloc)?, 0)?;
    Ok(Keeper::new(mill))
}

fn row(alloc: Global, stime: u64) -> Result<Tuple, AllocError>
    ensures { IfOk result (λ t. t.stime ≡ stime) }
{
    let vals = Vals::from_slice(alloc, &[7])?;
    Ok(Tuple { stime, vals })
}

/// One port, whose first bucket is complete; a tentative tuple lies in the second one.
fn inputs(alloc: Global) -> Result<SUnion, Fail>
    ensures width { IfOk result (λ u. u.width ≡ 10) }
    ensures ready { IfOk result (λ u. (x : Inputs) × StandsForInputs u x × AreReady 10 x 1 × (x.cursor ≡ 0) × (complete_upto_in 10 x ≡ 1)) }
{
    let first = row(alloc, 3)?;
    let second = row(alloc, 15)?;
    let items = vec![in alloc;
        Item::Stable(0, first),
        Item::Boundary(10, 1),
        Item::Tentative(second),
    ]?;
    let mut inputs = SUnion::new(alloc, 1, 10, 20, 5, 1)?;
    let sess = Sess { inc: 1, number: 1 };
    let batch = Shared::from_vec(items)?;
    inputs.accept(alloc, 0, sess, 0, &batch, 1)?;
    Ok(inputs)
}

/// One reader, whose session is open.
fn output(alloc: Global) -> Result<SOutput, NoMemory>
    ensures { IfOk result (λ o. (subs : List Sub) × (o ≡ record (new_output 1 0 [] 0) { subs = subs })) }
{
    let mut output = SOutput::new(alloc, 1)?;
    let asked = Subscribe {
        sess: Sess { inc: 1, number: 1 },
        n: 0,
        tentative: true,
    };
    output.open_session(alloc, 0, asked, NodeState::Stable)?;
    Ok(output)
}

fn pipeline(alloc: Global) -> Result<Pipeline, Fail>
    ensures { IfOk result (λ p. (p.union.width ≡ 10)
        × ((ops : List OpSpec) × (x : Inputs) × (o : Outputs) × CanMill ops p x o 1 × (x.cursor ≡ 0)
        × (complete_upto_in 10 x ≡ 1))) }
{
    let inputs = inputs(alloc)?;
    let keeper = keeper(alloc)?;
    let output = output(alloc)?;
    Ok(Pipeline::new(inputs, keeper, output, true))
}

/// How many buckets are ready, how many are handed out, and whether they are the next ones.
fn counts(alloc: Global) -> Result<(u64, usize, bool), Fail> {
    let pipeline = pipeline(alloc)?;
    let (before, buckets) = pipeline.work(alloc, 1)?;
    let handed_out = buckets.len();
    let order = Order {
        node: 0,
        inc: 1,
        cursor: 0,
        before,
        buckets,
    };
    let same = pipeline.is_at(alloc, &order)?;
    Ok((pipeline.ready(), handed_out, same))
}

/// The complete bucket is milled; the next one can be closed.
fn milled(alloc: Global) -> Result<(Pipeline, Sends), Fail>
    ensures { IfOk result (λ r. (ops : List OpSpec) × (x : Inputs) × (o : Outputs) × CanProcess ops r.0 x o 1) }
{
    let mut pipeline = pipeline(alloc)?;
    let sends = pipeline.mill(alloc, 1, false)?;
    Ok((pipeline, sends))
}

/// The next bucket is closed.
fn closed(alloc: Global) -> Result<(Pipeline, Sends), Fail> {
    let (mut pipeline, _sends) = milled(alloc)?;
    let sends = pipeline.process_upto(alloc, 1)?;
    Ok((pipeline, sends))
}

/// The data path hands out a snapshot behind its first bucket, loses all, and goes on from a copy.
fn recovered(alloc: Global) -> Result<(Snapshot, Pipeline), Fail> {
    let (mut pipeline, _sends) = milled(alloc)?;
    let snapshot = pipeline.snapshot(alloc)?;
    let copy = snapshot.copy(alloc)?;
    pipeline.lose(alloc)?;
    pipeline.adopt(alloc, &copy)?;
    Ok((snapshot, pipeline))
}

/// A data path at the opening, and one in a later incarnation, each with two readers.
fn begun(alloc: Global) -> Result<(Pipeline, Pipeline), Fail> {
    let plan = plan(alloc)?;
    let opened = Pipeline::open(alloc, &plan, 0, 2, true)?;
    let restarted = Pipeline::restart(alloc, &plan, 0, 2, 7)?;
    Ok((opened, restarted))
}

/// Whether one batch of this number went to reader 0, with exactly these items.
fn is_batch(sends: &Sends, number: u64, wanted: &[Item]) -> bool {
    let [(reader, Message::Batch(_, index, items))] = sends.as_slice() else {
        return false;
    };
    let items = items.as_slice();
    *reader == 0
        && *index == number
        && items.len() == wanted.len()
        && items
            .iter()
            .zip(wanted)
            .all(|(item, other)| item.same(other))
}

#[test]
fn a_bucket_is_milled(rt: HostRuntime) -> Result<(), Fail> {
    let alloc = rt.alloc();
    let (ready, handed_out, same) = counts(alloc)?;
    assert!(rt; ready == 1 && handed_out == 1 && same);
    let (_pipeline, sends) = milled(alloc)?;
    let wanted = [Item::Stable(0, row(alloc, 3)?), Item::Boundary(10, 1)];
    assert!(rt; is_batch(&sends, 1, &wanted));
    Ok(())
}

#[test]
fn a_closed_bucket_is_undone(rt: HostRuntime) -> Result<(), Fail> {
    let alloc = rt.alloc();
    let (mut pipeline, sends) = closed(alloc)?;
    let wanted = [Item::Tentative(row(alloc, 15)?), Item::Passed(20)];
    assert!(rt; is_batch(&sends, 2, &wanted));
    let sends = pipeline.undo(alloc)?;
    assert!(rt; is_batch(&sends, 3, &[Item::Undo(1)]));
    assert!(rt; pipeline.inputs().closed() == 0 && pipeline.output().tentatives().is_empty());
    Ok(())
}

#[test]
fn a_lost_data_path_goes_on_from_a_snapshot(rt: HostRuntime) -> Result<(), Fail> {
    let alloc = rt.alloc();
    let (snapshot, pipeline) = recovered(alloc)?;
    let counts = Listed::from_vec(vec![in alloc; 1]?);
    assert!(rt; snapshot.cursor == 1 && snapshot.counts.same(&counts));
    assert!(rt; snapshot.base == 0 && snapshot.kept_count() == 1);
    assert!(rt; pipeline.inputs().cursor() == 1 && pipeline.output().buffer().count() == 1);
    Ok(())
}

#[test]
fn sessions_are_open_at_the_opening_alone(rt: HostRuntime) -> Result<(), Fail> {
    let alloc = rt.alloc();
    let (mut opened, mut restarted) = begun(alloc)?;
    let told = opened.undo(alloc)?;
    let untold = restarted.undo(alloc)?;
    assert!(rt; told.len() == 2 && untold.is_empty());
    Ok(())
}
