//! Fragments of one operator and of several, and streams for them.
use dpc_lists::faults::NoMemory;
use dpc_lists::lists::{Listed, Name};
use dpc_model::expressions::{BinOp, Expr, ExprNode};
use dpc_model::operators::{Agg, OpKind, OpSpec, Wire};
use dpc_model::plans::{FragSpec, Plan, SourceSpec, StreamRef};
use dpc_model::tuples::{Tuple, Tuples, Vals};
use std::alloc::Global;

/// The width of a bucket of generated streams.
const WIDTH: u64 = 100;

/// A fragment over two streams of a key and a value.
#[derive(Clone, Copy, PartialEq, Eq, Debug)]
pub enum Diagram {
    Filter,
    Map,
    Union,
    Join,
    Aggregate,
    /// All five, one after another.
    Chain,
}

impl Diagram {
    /// The diagram of this name.
    pub fn named(name: &str) -> Option<Diagram> {
        match name {
            "filter" => Some(Diagram::Filter),
            "map" => Some(Diagram::Map),
            "union" => Some(Diagram::Union),
            "join" => Some(Diagram::Join),
            "aggregate" => Some(Diagram::Aggregate),
            "chain" => Some(Diagram::Chain),
            _ => None,
        }
    }

    /// Its operators.
    fn operators(self, alloc: Global) -> Result<Vec<OpSpec>, NoMemory> {
        let mut ops = Vec::new(alloc);
        match self {
            Diagram::Filter => ops.push(filter(alloc, Wire::Port(0))?)?,
            Diagram::Map => ops.push(map(alloc, Wire::Port(0))?)?,
            Diagram::Union => ops.push(union(alloc, Wire::Port(0), Wire::Port(1))?)?,
            Diagram::Join => ops.push(join(alloc, Wire::Port(0), Wire::Port(1))?)?,
            Diagram::Aggregate => ops.push(aggregate(alloc, Wire::Port(0))?)?,
            Diagram::Chain => {
                ops.push(filter(alloc, Wire::Port(0))?)?;
                ops.push(map(alloc, Wire::Op(0))?)?;
                ops.push(union(alloc, Wire::Op(1), Wire::Port(1))?)?;
                ops.push(join(alloc, Wire::Op(2), Wire::Port(1))?)?;
                ops.push(aggregate(alloc, Wire::Op(3))?)?;
            }
        }
        Ok(ops)
    }
}

/// An expression.
pub fn leaf(node: ExprNode) -> Expr {
    Expr { node }
}

/// An operator over two columns or numbers.
pub fn binary(alloc: Global, op: BinOp, left: ExprNode, right: ExprNode) -> Result<Expr, NoMemory> {
    let left = Box::new(alloc, leaf(left))?;
    let right = Box::new(alloc, leaf(right))?;
    Ok(leaf(ExprNode::Bin(op, left, right)))
}

/// An operator that reads these wires.
pub fn operator(alloc: Global, kind: OpKind, wires: &[Wire]) -> Result<OpSpec, NoMemory> {
    let name = Listed::from_vec(Vec::new(alloc));
    let reads = Listed::from_vec(Vec::from_slice(alloc, wires)?);
    Ok(OpSpec { name, kind, reads })
}

/// `lt c1 900`
fn filter(alloc: Global, wire: Wire) -> Result<OpSpec, NoMemory> {
    let test = binary(alloc, BinOp::Lt, ExprNode::Col(1), ExprNode::Num(900))?;
    operator(alloc, OpKind::Filter(test), &[wire])
}

/// `c0`, and `add c1 1`
fn map(alloc: Global, wire: Wire) -> Result<OpSpec, NoMemory> {
    let mut exprs = Vec::new(alloc);
    exprs.push(leaf(ExprNode::Col(0)))?;
    exprs.push(binary(alloc, BinOp::Add, ExprNode::Col(1), ExprNode::Num(1))?)?;
    operator(alloc, OpKind::Map(Listed::from_vec(exprs)), &[wire])
}

fn union(alloc: Global, first: Wire, second: Wire) -> Result<OpSpec, NoMemory> {
    operator(alloc, OpKind::Union, &[first, second])
}

/// Equal keys, at most a bucket apart.
fn join(alloc: Global, left: Wire, right: Wire) -> Result<OpSpec, NoMemory> {
    let keys = Listed::from_vec(Vec::from_slice(alloc, &[(0, 0)])?);
    operator(alloc, OpKind::Join(WIDTH, keys), &[left, right])
}

/// Count, sum, least and greatest for each key, over four buckets, every bucket.
fn aggregate(alloc: Global, wire: Wire) -> Result<OpSpec, NoMemory> {
    let aggs = [Agg::Count, Agg::Sum(1), Agg::Min(1), Agg::Max(1)];
    let aggs = Listed::from_vec(Vec::from_slice(alloc, &aggs)?);
    let kind = OpKind::Aggregate(4 * WIDTH, WIDTH, Some(0), aggs);
    operator(alloc, kind, &[wire])
}

/// A plan of one fragment over sources with these logs.
pub fn plan(
    alloc: Global,
    width: u64,
    end: u64,
    logs: Vec<Tuples>,
    ops: Vec<OpSpec>,
) -> Result<Plan, NoMemory> {
    let mut sources = Vec::new(alloc);
    let mut inputs = Vec::new(alloc);
    let mut number = 0;
    for log in logs {
        let name = Listed::from_vec(Vec::new(alloc));
        sources.push(SourceSpec {
            name,
            columns: 2,
            log,
        })?;
        inputs.push(StreamRef::Source(number))?;
        number = number.saturating_add(1);
    }
    let name: Name = Listed::from_vec(Vec::new(alloc));
    let inputs = Listed::from_vec(inputs);
    let ops = Listed::from_vec(ops);
    let frag = FragSpec {
        name,
        replicas: 1,
        delay: None,
        inputs,
        ops,
    };
    let mut frags = Vec::new(alloc);
    frags.push(frag)?;
    Ok(Plan {
        version: 1,
        passing: false,
        width,
        delay: 0,
        end,
        sources: Listed::from_vec(sources),
        frags: Listed::from_vec(frags),
        clients: Listed::from_vec(Vec::new(alloc)),
    })
}

/// A tuple of a key and a value.
pub fn tuple(alloc: Global, stime: u64, key: i64, value: i64) -> Result<Tuple, NoMemory> {
    let vals = Vals::from_slice(alloc, &[key, value])?;
    Ok(Tuple { stime, vals })
}

/// A plan of a diagram over two streams that have so many tuples together, spread evenly over so many
/// buckets. The keys go round through 100, and the values through 1,000.
pub fn generated(
    alloc: Global,
    diagram: Diagram,
    tuples: u64,
    buckets: u64,
) -> Result<Plan, NoMemory> {
    let end = buckets.saturating_mul(WIDTH);
    let (mut first, mut second) = (Vec::new(alloc), Vec::new(alloc));
    for i in 0..tuples {
        let stime = (u128::from(i) * u128::from(end) / u128::from(tuples)) as u64;
        let key = (i / 2 % 100) as i64;
        let value = (i.wrapping_mul(7919) % 1000) as i64;
        let tuple = tuple(alloc, stime, key, value)?;
        if i % 2 == 0 {
            first.push(tuple)?;
        } else {
            second.push(tuple)?;
        }
    }
    let mut logs = Vec::new(alloc);
    logs.push(Listed::from_vec(first))?;
    logs.push(Listed::from_vec(second))?;
    plan(alloc, WIDTH, end, logs, diagram.operators(alloc)?)
}
