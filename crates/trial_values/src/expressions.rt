//! What no clause says: values counted by a person, and that calls succeed where there is memory.
use dpc_lists::lists::Listed;
use dpc_model::engines::{Engine, fits_bucket};
use dpc_model::expressions::{BinOp, Expr, ExprNode};
use dpc_model::tuples::{Tagged, Tuple, Vals};
use ops_stateless::eval;
use ops_stateless::filter::Filter;
use ops_stateless::map::MapOp;
use ops_stateless::union::Union;
use std::alloc::{AllocError, Global};
use std::test::Fail;

fn leaf(node: ExprNode) -> Expr {
    Expr { node }
}

fn binary(alloc: Global, op: BinOp, left: Expr, right: Expr) -> Result<Expr, AllocError> {
    let left = Box::new(alloc, left)?;
    let right = Box::new(alloc, right)?;
    Ok(leaf(ExprNode::Bin(op, left, right)))
}

/// `mul c0 c0`
fn square(alloc: Global) -> Result<Expr, AllocError> {
    binary(
        alloc,
        BinOp::Mul,
        leaf(ExprNode::Col(0)),
        leaf(ExprNode::Col(0)),
    )
}

/// `if lt c0 0 neg c0 time`
fn size_or_time(alloc: Global) -> Result<Expr, AllocError> {
    let zero = leaf(ExprNode::Num(0));
    let test = binary(alloc, BinOp::Lt, leaf(ExprNode::Col(0)), zero)?;
    let test = Box::new(alloc, test)?;
    let column = Box::new(alloc, leaf(ExprNode::Col(0)))?;
    let yes = Box::new(alloc, leaf(ExprNode::Neg(column)))?;
    let no = Box::new(alloc, leaf(ExprNode::Time))?;
    Ok(leaf(ExprNode::If(test, yes, no)))
}

/// The negative of 32 times column 0, in 64 words.
fn longest(alloc: Global) -> Result<Expr, AllocError> {
    let mut sum = leaf(ExprNode::Col(0));
    for _ in 1..32 {
        sum = binary(alloc, BinOp::Add, leaf(ExprNode::Col(0)), sum)?;
    }
    let sum = Box::new(alloc, sum)?;
    Ok(leaf(ExprNode::Neg(sum)))
}

fn tuple(alloc: Global, stime: u64, value: i64) -> Result<Tuple, AllocError> {
    let vals = Vals::from_slice(alloc, &[value])?;
    Ok(Tuple { stime, vals })
}

/// Inputs of these ports, times and values.
fn tagged(alloc: Global, rows: &[(u64, u64, i64)]) -> Result<Vec<Tagged>, AllocError> {
    let mut inputs = Vec::new(alloc);
    for (port, stime, value) in rows {
        let tuple = tuple(alloc, *stime, *value)?;
        inputs.push(Tagged { port: *port, tuple })?;
    }
    Ok(inputs)
}

/// Whether there is a tuple of this time and these values at a place.
fn is_row(rows: &[Tuple], place: usize, stime: u64, vals: &[i64]) -> bool {
    match rows.get(place) {
        Some(row) => row.stime == stime && row.vals.as_slice() == vals,
        None => false,
    }
}

#[test]
fn expressions_of_64_words_have_a_value(rt: HostRuntime) -> Result<(), Fail> {
    let alloc = rt.alloc();
    let longest = longest(alloc)?;
    for (value, wanted) in [(3, -96), (i64::MAX, -i64::MAX), (i64::MIN, i64::MAX)] {
        assert_eq!(rt; eval(&longest, &tuple(alloc, 0, value)?), wanted);
    }
    Ok(())
}

#[test]
fn map_stays_within_the_range(rt: HostRuntime) -> Result<(), Fail> {
    let alloc = rt.alloc();
    let rows = [
        (0, 3, 4_000_000_000),
        (0, 7, -5),
        (1, 7, 1),
        (0, 8, i64::MIN),
    ];
    let inputs = tagged(alloc, &rows)?;
    let mut exprs = Vec::new(alloc);
    exprs.push(square(alloc)?)?;
    exprs.push(size_or_time(alloc)?)?;
    let mut map = MapOp::new(Listed::from_vec(exprs));
    let Ok(out) = map.bucket(alloc, inputs.as_slice(), 0) else {
        return Ok(assert!(rt; false));
    };
    let out = out.as_slice();
    assert_eq!(rt; out.len(), 3);
    assert!(rt; is_row(out, 0, 3, &[i64::MAX, 3]));
    assert!(rt; is_row(out, 1, 7, &[25, 5]));
    assert!(rt; is_row(out, 2, 8, &[i64::MAX, i64::MAX]));
    let Ok(copy) = map.copy(alloc) else {
        return Ok(assert!(rt; false));
    };
    assert!(rt; copy.same(&map));
    map.reset();
    assert!(rt; !copy.same(&map));
    Ok(())
}

#[test]
fn union_orders_equal_times_by_port(rt: HostRuntime) -> Result<(), Fail> {
    let alloc = rt.alloc();
    let mut rows = Vec::new(alloc);
    for port in 0..8 {
        rows.push((port, 5, 7))?;
        rows.push((port, 5, i64::MIN))?;
    }
    let inputs = tagged(alloc, rows.as_slice())?;
    assert!(rt; fits_bucket(inputs.as_slice(), 10, 0));
    let mut union = Union::new(8, 10);
    let Ok(out) = union.bucket(alloc, inputs.as_slice(), 0) else {
        return Ok(assert!(rt; false));
    };
    let out = out.as_slice();
    assert_eq!(rt; out.len(), 16);
    assert!(rt; is_row(out, 14, 5, &[7]) && is_row(out, 15, 5, &[i64::MIN]));
    let Ok(copy) = union.copy(alloc) else {
        return Ok(assert!(rt; false));
    };
    assert!(rt; copy.same(&union));
    union.reset();
    assert!(rt; !copy.same(&union));
    Ok(())
}

#[test]
fn filter_takes_a_bucket(rt: HostRuntime) -> Result<(), Fail> {
    let alloc = rt.alloc();
    let inputs = tagged(alloc, &[(0, 3, 5), (0, 3, 0), (0, 3, -1)])?;
    let mut filter = Filter::new(leaf(ExprNode::Col(0)));
    let Ok(copy) = filter.copy(alloc) else {
        return Ok(assert!(rt; false));
    };
    assert!(rt; copy.same(&filter));
    let output = filter.bucket(alloc, inputs.as_slice(), 0);
    assert_eq!(rt; output.map_or(0, |tuples| tuples.len()), 2);
    assert!(rt; !copy.same(&filter));
    Ok(())
}
