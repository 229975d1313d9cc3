//! The plan: two sources, six fragments and three clients.
ghost use Rattle.std.specs.Prelude.{◌≡◌, ◌+◌, ◌*◌, ◌<◌, ◌^◌, IfOk, OnOk, ℕ, List, [], ◌∷◌, codes};
ghost use Rattle.load_gen.specs.Generated.{state_after, entry, entries, log_of, source_of, frag_of, frags, client_of, plan_of};
ghost use Rattle.std.specs.Prelude.{None, pos};
ghost use Rattle.dpc_model.specs.Formula.{Bin, Col, Num};
ghost use Rattle.dpc_model.specs.declared.expressions.BinOp.TheVariants.{Add};
ghost use Rattle.dpc_model.specs.declared.operators.Agg.TheVariants.{Count};
ghost use Rattle.dpc_model.specs.declared.operators.OpKind.TheVariants as kind;
ghost use Rattle.dpc_model.specs.declared.plans.StreamRef.TheVariants.{Frag};

use crate::draws::Generator;
use dpc_lists::faults::NoMemory;
use dpc_lists::lists::{Listed, Name};
use dpc_model::expressions::{BinOp, Expr, ExprNode};
use dpc_model::operators::{Agg, OpKind, OpSpec, Wire};
use dpc_model::plans::{ClientSpec, FragSpec, Plan, SourceSpec, StreamRef};
use dpc_model::tuples::{Tuple, Tuples, Vals};
use std::alloc::Global;

/// Entries of a log.
const ENTRIES: u64 = 10_000;

/// One value.
fn single(alloc: Global, value: i64) -> Result<Vals, NoMemory>
    ensures { IfOk result (λ vals. vals ≡ value ∷ []) }
{
    Ok(Vals::from_slice(alloc, &[value])?)
}

/// Entry i of a log: its time, and its value.
fn entry_of(alloc: Global, generator: &mut Generator, i: u64) -> Result<Tuple, NoMemory>
    requires { i < 10000 }
    ensures state { OnOk result ((seed done : ℕ) → generator.old.state ≡ state_after seed done
        → generator.new.state ≡ state_after seed (done + 2)) }
    ensures entry { IfOk result (λ t. (seed first : ℕ) → generator.old.state ≡ state_after seed (first + 2 * i) → t ≡ entry seed first i) }
{
    let stime = 10 * i + u64::from(generator.draw() % 10);
    let value = i64::from(generator.draw() % 1000);
    let vals = single(alloc, value)?;
    Ok(Tuple { stime, vals })
}

/// A log.
fn log(alloc: Global, generator: &mut Generator) -> Result<Tuples, NoMemory>
    ensures state { OnOk result ((seed first : ℕ) → generator.old.state ≡ state_after seed first
        → generator.new.state ≡ state_after seed (first + 2 * entries)) }
    ensures log { IfOk result (λ log. (seed first : ℕ) → generator.old.state ≡ state_after seed first → log ≡ log_of seed first) }
{
    let mut tuples = Vec::with_capacity(alloc, ENTRIES as usize)?;
    for i in 0..ENTRIES {
        tuples.push(entry_of(alloc, generator, i)?)?;
    }
    Ok(Listed::from_vec(tuples))
}

/// A name of its own.
fn name(alloc: Global, bytes: &[u8]) -> Result<Name, NoMemory>
    ensures { IfOk result (λ n. n ≡ bytes.now) }
{
    Ok(Listed::from_vec(bytes.to_vec(alloc)?))
}

/// A source of one column.
fn source(alloc: Global, bytes: &[u8], generator: &mut Generator) -> Result<SourceSpec, NoMemory>
    ensures state { OnOk result ((seed first : ℕ) → generator.old.state ≡ state_after seed first
        → generator.new.state ≡ state_after seed (first + 2 * entries)) }
    ensures source { IfOk result (λ s. (seed first : ℕ) → generator.old.state ≡ state_after seed first
        → s ≡ source_of seed bytes.now first) }
{
    let log = log(alloc, generator)?;
    let name = name(alloc, bytes)?;
    Ok(SourceSpec {
        name,
        columns: 1,
        log,
    })
}

/// A fragment of one operator on three replicas.
fn frag(
    alloc: Global,
    bytes: &[u8],
    inputs: &[StreamRef],
    op: &[u8],
    kind: OpKind,
    reads: &[Wire],
) -> Result<FragSpec, NoMemory>
    ensures { IfOk result (λ f. f ≡ frag_of bytes.now inputs.now op.now kind reads.now) }
{
    let reads = Listed::from_vec(Vec::from_slice(alloc, reads)?);
    let op = OpSpec {
        name: name(alloc, op)?,
        kind,
        reads,
    };
    let mut ops = Vec::with_capacity(alloc, 1)?;
    ops.push(op)?;
    Ok(FragSpec {
        name: name(alloc, bytes)?,
        replicas: 3,
        delay: None,
        inputs: Listed::from_vec(Vec::from_slice(alloc, inputs)?),
        ops: Listed::from_vec(ops),
    })
}

/// The map that adds 1.
fn plus_one(alloc: Global) -> Result<OpKind, NoMemory>
    ensures { IfOk result (λ k. k ≡ kind.Map (Bin Add (Col 0) (Num (pos 1)) ∷ [])) }
{
    let column = Box::new(
        alloc,
        Expr {
            node: ExprNode::Col(0),
        },
    )?;
    let one = Box::new(
        alloc,
        Expr {
            node: ExprNode::Num(1),
        },
    )?;
    let mut exprs = Vec::with_capacity(alloc, 1)?;
    exprs.push(Expr {
        node: ExprNode::Bin(BinOp::Add, column, one),
    })?;
    Ok(OpKind::Map(Listed::from_vec(exprs)))
}

/// The filter that every tuple passes.
fn passing() -> OpKind
    ensures { result ≡ kind.Filter (Num (pos 1)) }
{
    OpKind::Filter(Expr {
        node: ExprNode::Num(1),
    })
}

/// The count of the tuples in windows of 200 that begin every 100.
fn counting(alloc: Global) -> Result<OpKind, NoMemory>
    ensures { IfOk result (λ k. k ≡ kind.Aggregate 200 100 None (Count ∷ [])) }
{
    let aggs = Vec::from_slice(alloc, &[Agg::Count])?;
    Ok(OpKind::Aggregate(200, 100, None, Listed::from_vec(aggs)))
}

/// The six fragments.
fn fragments(alloc: Global) -> Result<Listed<FragSpec>, NoMemory>
    ensures { IfOk result (λ fs. fs ≡ frags) }
{
    let (one, both) = ([Wire::Port(0)], [Wire::Port(0), Wire::Port(1)]);
    let mut frags = Vec::with_capacity(alloc, 6)?;
    let inputs = [StreamRef::Source(0), StreamRef::Source(1)];
    frags.push(frag(alloc, b"f1", &inputs, b"u1", OpKind::Union, &both)?)?;
    let add = plus_one(alloc)?;
    frags.push(frag(alloc, b"f2", &[StreamRef::Frag(0)], b"m2", add, &one)?)?;
    frags.push(frag(alloc, b"f3", &[StreamRef::Frag(1)], b"k3", passing(), &one)?)?;
    let inputs = [StreamRef::Frag(1), StreamRef::Frag(2)];
    frags.push(frag(alloc, b"f4", &inputs, b"u4", OpKind::Union, &both)?)?;
    let count = counting(alloc)?;
    frags.push(frag(alloc, b"f5", &[StreamRef::Frag(3)], b"g5", count, &one)?)?;
    frags.push(frag(alloc, b"f6", &[StreamRef::Frag(0)], b"k6", passing(), &one)?)?;
    Ok(Listed::from_vec(frags))
}

/// A client of the output of a fragment.
fn client(alloc: Global, bytes: &[u8], frag: u64) -> Result<ClientSpec, NoMemory>
    ensures { IfOk result (λ c. c ≡ client_of bytes.now (Frag frag)) }
{
    Ok(ClientSpec {
        name: name(alloc, bytes)?,
        input: StreamRef::Frag(frag),
    })
}

/// The three clients.
fn clients(alloc: Global) -> Result<Listed<ClientSpec>, NoMemory>
    ensures { IfOk result (λ cs. cs ≡ client_of (codes "x") (Frag 2) ∷ client_of (codes "y") (Frag 4) ∷
        client_of (codes "z") (Frag 5) ∷ []) }
{
    let mut clients = Vec::with_capacity(alloc, 3)?;
    clients.push(client(alloc, b"x", 2)?)?;
    clients.push(client(alloc, b"y", 4)?)?;
    clients.push(client(alloc, b"z", 5)?)?;
    Ok(Listed::from_vec(clients))
}

/// The plan, whose logs take the first draws.
pub fn plan(alloc: Global, generator: &mut Generator) -> Result<Plan, NoMemory>
    ensures state { OnOk result ((seed : ℕ) → generator.old.state ≡ state_after seed 0
        → generator.new.state ≡ state_after seed (4 * entries)) }
    ensures plan { IfOk result (λ p. (seed : ℕ) → generator.old.state ≡ state_after seed 0 → p ≡ plan_of seed) }
{
    let mut sources = Vec::with_capacity(alloc, 2)?;
    sources.push(source(alloc, b"a", generator)?)?;
    sources.push(source(alloc, b"b", generator)?)?;
    Ok(Plan {
        version: 1,
        passing: false,
        width: 100,
        delay: 4,
        end: 100_000,
        sources: Listed::from_vec(sources),
        frags: fragments(alloc)?,
        clients: clients(alloc)?,
    })
}
