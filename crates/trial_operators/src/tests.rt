//! A table of small diagrams: their rows, counted by hand, and that they are bucket by bucket those of
//! the plain program over whole lists.
use crate::diagrams::{Diagram, binary, generated, leaf, operator, plan};
use crate::driver::{Miller, Trouble, milled};
use dpc_lists::exact::Exact;
use dpc_lists::faults::NoMemory;
use dpc_lists::lists::Listed;
use dpc_model::engines::{Engine, fits_bucket};
use dpc_model::expressions::{BinOp, ExprNode};
use dpc_model::operators::{Agg, OpKind, OpSpec, Wire};
use dpc_model::plans::{Plan, StreamRef};
use dpc_model::tuples::{Tuple, Tuples, Vals};
use fragment_mill::mill::FragMill;
use std::alloc::Global;
use std::test::Fail;
use trial_ideal::ideal;
use trial_ideal::sound::is_sound;

/// A time and values.
type Row = (u64, &'static [i64]);

/// A diagram with its streams.
#[derive(Clone, Copy, PartialEq, Eq)]
enum Case {
    /// Two tuples of one time.
    Ties,
    /// Ties at the edge of a bucket.
    EdgeTies,
    /// Eight inputs with equal times.
    EightInputs,
    /// Values that leave the range.
    Expressions,
    /// A pair exactly as far apart as may be, over a bucket's edge, and one past it.
    JoinEdge,
    /// A stream with itself, without keys.
    SelfJoin,
    /// A sum past i64.
    Windows,
    /// Groups with negative values, and the ends of i64.
    Groups,
    /// A window that begins before the first bucket with a tuple and ends within one, and windows that
    /// end after the last.
    LateWindow,
    /// Windows with time between them.
    ApartWindows,
    /// One port and one operator read twice.
    ReadTwice,
    /// All five operators.
    Chain,
}

const CASES: [Case; 12] = [
    Case::Ties,
    Case::EdgeTies,
    Case::EightInputs,
    Case::Expressions,
    Case::JoinEdge,
    Case::SelfJoin,
    Case::Windows,
    Case::Groups,
    Case::LateWindow,
    Case::ApartWindows,
    Case::ReadTwice,
    Case::Chain,
];

/// A log.
fn log(alloc: Global, rows: &[Row]) -> Result<Tuples, NoMemory> {
    let mut tuples = Vec::new(alloc);
    for (stime, vals) in rows {
        let vals = Vals::from_slice(alloc, vals)?;
        tuples.push(Tuple {
            stime: *stime,
            vals,
        })?;
    }
    Ok(Listed::from_vec(tuples))
}

/// The plan of one operator over one or two streams.
fn single(
    alloc: Global,
    end: u64,
    first: &[Row],
    second: &[Row],
    kind: OpKind,
    wires: &[Wire],
) -> Result<Plan, NoMemory> {
    let mut logs = Vec::new(alloc);
    logs.push(log(alloc, first)?)?;
    logs.push(log(alloc, second)?)?;
    let mut ops = Vec::new(alloc);
    ops.push(operator(alloc, kind, wires)?)?;
    plan(alloc, 10, end, logs, ops)
}

/// The rows of eight inputs.
const EIGHT: [Row; 8] = [
    (5, &[8]),
    (5, &[7]),
    (5, &[6]),
    (5, &[5]),
    (5, &[4]),
    (5, &[3]),
    (5, &[2]),
    (5, &[1]),
];

const PORT: Wire = Wire::Port(0);

const PORTS: [Wire; 2] = [Wire::Port(0), Wire::Port(1)];

/// `mul c0 c0`, and `if lt c0 0 neg c0 time`
fn expressions(alloc: Global) -> Result<OpKind, NoMemory> {
    let test = binary(alloc, BinOp::Lt, ExprNode::Col(0), ExprNode::Num(0))?;
    let column = Box::new(alloc, leaf(ExprNode::Col(0)))?;
    let choice = ExprNode::If(
        Box::new(alloc, test)?,
        Box::new(alloc, leaf(ExprNode::Neg(column)))?,
        Box::new(alloc, leaf(ExprNode::Time))?,
    );
    let mut exprs = Vec::new(alloc);
    exprs.push(binary(alloc, BinOp::Mul, ExprNode::Col(0), ExprNode::Col(0))?)?;
    exprs.push(leaf(choice))?;
    Ok(OpKind::Map(Listed::from_vec(exprs)))
}

fn join(alloc: Global, within: u64, keys: &[(u64, u64)]) -> Result<OpKind, NoMemory> {
    let keys = Listed::from_vec(Vec::from_slice(alloc, keys)?);
    Ok(OpKind::Join(within, keys))
}

fn aggregate(
    alloc: Global,
    size: u64,
    step: u64,
    group: Option<u64>,
    aggs: &[Agg],
) -> Result<OpKind, NoMemory> {
    let aggs = Listed::from_vec(Vec::from_slice(alloc, aggs)?);
    Ok(OpKind::Aggregate(size, step, group, aggs))
}

/// A union of eight streams of one tuple each, all at one time.
fn eight(alloc: Global) -> Result<Plan, NoMemory> {
    let (mut logs, mut wires) = (Vec::new(alloc), Vec::new(alloc));
    for port in 0..8 {
        let vals = Vals::from_slice(alloc, &[8 - port as i64])?;
        let mut tuples = Vec::new(alloc);
        tuples.push(Tuple { stime: 5, vals })?;
        logs.push(Listed::from_vec(tuples))?;
        wires.push(Wire::Port(port))?;
    }
    let mut ops = Vec::new(alloc);
    ops.push(operator(alloc, OpKind::Union, wires.as_slice())?)?;
    plan(alloc, 10, 10, logs, ops)
}

/// A filter of a port, a union of both, and a join of the two.
fn read_twice(alloc: Global) -> Result<Vec<OpSpec>, NoMemory> {
    let test = binary(alloc, BinOp::Gt, ExprNode::Col(0), ExprNode::Num(1))?;
    let mut ops = Vec::new(alloc);
    ops.push(operator(alloc, OpKind::Filter(test), &[PORT])?)?;
    ops.push(operator(alloc, OpKind::Union, &[PORT, Wire::Op(0)])?)?;
    let near = join(alloc, 1, &[])?;
    ops.push(operator(alloc, near, &[Wire::Op(1), Wire::Op(0)])?)?;
    Ok(ops)
}

/// The plans of unions.
fn unions(alloc: Global, case: Case) -> Result<Plan, NoMemory> {
    match case {
        Case::EightInputs => eight(alloc),
        Case::EdgeTies => {
            let first: [Row; 3] = [(9, &[1]), (10, &[2]), (10, &[3])];
            let second: [Row; 2] = [(9, &[4]), (10, &[5])];
            single(alloc, 20, &first, &second, OpKind::Union, &PORTS)
        }
        _ => single(alloc, 10, &[(5, &[1])], &[(5, &[2])], OpKind::Union, &PORTS),
    }
}

/// The plans of joins.
fn joins(alloc: Global, case: Case) -> Result<Plan, NoMemory> {
    if case == Case::SelfJoin {
        let log: [Row; 3] = [(3, &[1]), (6, &[2]), (12, &[3])];
        return single(alloc, 20, &log, &[], join(alloc, 5, &[])?, &[PORT, PORT]);
    }
    let left: [Row; 2] = [(9, &[1]), (20, &[2])];
    let right: [Row; 4] = [(10, &[1]), (14, &[1]), (25, &[2]), (26, &[2])];
    single(alloc, 30, &left, &right, join(alloc, 5, &[(0, 0)])?, &PORTS)
}

/// The plans of aggregates.
fn aggregates(alloc: Global, case: Case) -> Result<Plan, NoMemory> {
    match case {
        Case::Groups => {
            let aggs = [Agg::Min(1), Agg::Max(1), Agg::Sum(1)];
            let kind = aggregate(alloc, 10, 10, Some(0), &aggs)?;
            let log: [Row; 4] = [
                (1, &[-3, -5]),
                (2, &[2, -7]),
                (3, &[-3, i64::MIN]),
                (11, &[2, i64::MAX]),
            ];
            single(alloc, 20, &log, &[], kind, &[PORT])
        }
        Case::LateWindow => {
            let kind = aggregate(alloc, 35, 15, None, &[Agg::Count, Agg::Min(0)])?;
            let log: [Row; 3] = [(13, &[7]), (34, &[8]), (35, &[9])];
            single(alloc, 40, &log, &[], kind, &[PORT])
        }
        Case::ApartWindows => {
            let kind = aggregate(alloc, 5, 20, None, &[Agg::Sum(0)])?;
            let log: [Row; 4] = [(4, &[1]), (5, &[2]), (22, &[3]), (25, &[4])];
            single(alloc, 30, &log, &[], kind, &[PORT])
        }
        _ => {
            let kind = aggregate(alloc, 30, 10, None, &[Agg::Count, Agg::Sum(0)])?;
            let log: [Row; 3] = [(5, &[i64::MAX]), (12, &[6]), (35, &[1])];
            single(alloc, 40, &log, &[], kind, &[PORT])
        }
    }
}

impl Case {
    fn plan(self, alloc: Global) -> Result<Plan, NoMemory> {
        match self {
            Case::Ties | Case::EdgeTies | Case::EightInputs => unions(alloc, self),
            Case::JoinEdge | Case::SelfJoin => joins(alloc, self),
            Case::Windows | Case::Groups | Case::LateWindow | Case::ApartWindows => {
                aggregates(alloc, self)
            }
            Case::Expressions => {
                let log: [Row; 3] = [(3, &[4_000_000_000]), (7, &[-5]), (8, &[i64::MIN])];
                single(alloc, 10, &log, &[], expressions(alloc)?, &[PORT])
            }
            Case::ReadTwice => {
                let mut logs = Vec::new(alloc);
                let rows: [Row; 3] = [(3, &[i64::MIN]), (4, &[i64::MAX]), (10, &[3])];
                logs.push(log(alloc, &rows)?)?;
                plan(alloc, 10, 20, logs, read_twice(alloc)?)
            }
            Case::Chain => generated(alloc, Diagram::Chain, 120, 12),
        }
    }

    /// Its rows, where they were counted by hand.
    fn rows(self) -> &'static [Row] {
        match self {
            Case::Ties => &[(5, &[1]), (5, &[2])],
            Case::EdgeTies => &[(9, &[1]), (9, &[4]), (10, &[2]), (10, &[3]), (10, &[5])],
            Case::EightInputs => &EIGHT,
            Case::Expressions => &[
                (3, &[i64::MAX, 3]),
                (7, &[25, 5]),
                (8, &[i64::MAX, i64::MAX]),
            ],
            Case::JoinEdge => &[(10, &[1, 1]), (14, &[1, 1]), (25, &[2, 2])],
            Case::SelfJoin => &[
                (3, &[1, 1]),
                (6, &[1, 2]),
                (6, &[2, 1]),
                (6, &[2, 2]),
                (12, &[3, 3]),
            ],
            Case::Windows => &[(29, &[2, i64::MAX]), (39, &[2, 7])],
            Case::Groups => &[
                (9, &[-3, i64::MIN, -5, i64::MIN]),
                (9, &[2, -7, -7, -7]),
                (19, &[2, i64::MAX, i64::MAX, i64::MAX]),
            ],
            Case::LateWindow => &[(34, &[2, 7])],
            Case::ApartWindows => &[(4, &[1]), (24, &[3])],
            Case::ReadTwice => &[
                (4, &[i64::MIN, i64::MAX]),
                (4, &[i64::MAX, i64::MAX]),
                (4, &[i64::MAX, i64::MAX]),
                (10, &[3, 3]),
                (10, &[3, 3]),
            ],
            Case::Chain => &[],
        }
    }
}

/// Whether these are the tuples, by their times and values.
fn are_rows(tuples: &[Tuple], rows: &[Row]) -> bool {
    tuples.len() == rows.len()
        && tuples.iter().zip(rows.iter()).all(|(tuple, row)| tuple.stime == row.0
            && tuple.vals.as_slice() == row.1)
}

/// Whether a mill gives over so many buckets what the plain program gives up to their end.
fn agrees(alloc: Global, plan: &Plan, buckets: u64, miller: Miller) -> Result<bool, Trouble> {
    if !is_sound(plan) {
        return Err(Trouble::BadPlan);
    }
    let milled = Listed::from_vec(milled(alloc, plan, buckets, miller)?);
    let end = buckets.saturating_mul(plan.width);
    let wanted = ideal(alloc, plan, StreamRef::Frag(0), end)?;
    Ok(milled.same(&wanted))
}

#[test]
fn mills_agree_with_whole_lists(rt: HostRuntime) -> Result<(), Fail> {
    let alloc = rt.alloc();
    for case in CASES {
        let Ok(plan) = case.plan(alloc) else {
            return Ok(assert!(rt; false));
        };
        let buckets = plan.end.checked_div(plan.width).unwrap_or(0);
        for k in 0..=buckets {
            assert_eq!(rt; agrees(alloc, &plan, k, Miller::Itself), Ok(true));
        }
        if case != Case::Chain {
            let Ok(rows) = milled(alloc, &plan, buckets, Miller::Itself) else {
                return Ok(assert!(rt; false));
            };
            assert!(rt; are_rows(rows.as_slice(), case.rows()));
        }
    }
    Ok(())
}

#[test]
fn copies_go_on_alike(rt: HostRuntime) -> Result<(), Fail> {
    let alloc = rt.alloc();
    let Ok(plan) = Case::Chain.plan(alloc) else {
        return Ok(assert!(rt; false));
    };
    assert_eq!(rt; agrees(alloc, &plan, 12, Miller::Copy), Ok(true));
    assert!(rt; is_sound(&plan) && !plan.frags.is_empty());
    let (Ok(mut mill), Ok(other)) = (
        FragMill::new(alloc, &plan, 0),
        FragMill::new(alloc, &plan, 0),
    ) else {
        return Ok(assert!(rt; false));
    };
    assert!(rt; mill.same(&other));
    assert!(rt; fits_bucket(&[], plan.width, 0));
    assert!(rt; mill.bucket(alloc, &[], 0).is_ok());
    assert!(rt; !mill.same(&other));
    mill.reset();
    assert!(rt; mill.same(&other));
    Ok(())
}
