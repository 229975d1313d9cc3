//! What no clause says: that copies are made where there is memory.
use dpc_lists::exact::Exact;
use dpc_lists::lists::{Listed, Name};
use dpc_model::expressions::{BinOp, Expr, ExprNode};
use dpc_model::operators::{Agg, OpKind, OpSpec, Wire};
use dpc_model::plans::{ClientSpec, FragSpec, Plan, SourceSpec, StreamRef};
use dpc_model::tuples::{Item, Items, Tagged, Tuple, Vals};
use std::alloc::{AllocError, Global};
use std::test::Fail;

fn leaf(node: ExprNode) -> Expr {
    Expr { node }
}

/// `if not c0 neg time min c1 -3`
fn expression(alloc: Global) -> Result<Expr, AllocError> {
    let test = leaf(ExprNode::Not(Box::new(alloc, leaf(ExprNode::Col(0)))?));
    let yes = leaf(ExprNode::Neg(Box::new(alloc, leaf(ExprNode::Time))?));
    let column = Box::new(alloc, leaf(ExprNode::Col(1)))?;
    let number = Box::new(alloc, leaf(ExprNode::Num(-3)))?;
    let no = leaf(ExprNode::Bin(BinOp::Min, column, number));
    let no = Box::new(alloc, no)?;
    Ok(leaf(ExprNode::If(Box::new(alloc, test)?, Box::new(alloc, yes)?, no)))
}

fn named(alloc: Global, name: &[u8]) -> Result<Name, AllocError> {
    Ok(Listed::from_vec(name.to_vec(alloc)?))
}

fn tuple(alloc: Global, stime: u64, value: i64) -> Result<Tuple, AllocError> {
    let vals = Vals::from_slice(alloc, &[value, 1])?;
    Ok(Tuple { stime, vals })
}

fn operator(alloc: Global, kind: OpKind) -> Result<OpSpec, AllocError> {
    let name = named(alloc, b"o")?;
    let reads = Listed::from_vec(vec![in alloc; Wire::Port(0), Wire::Op(0)]?);
    Ok(OpSpec { name, kind, reads })
}

fn operators(alloc: Global) -> Result<Listed<OpSpec>, AllocError> {
    let mut ops = Vec::new(alloc);
    let columns = Listed::from_vec(vec![in alloc; expression(alloc)?]?);
    let keys = Listed::from_vec(vec![in alloc; (0, 1)]?);
    let aggs = Listed::from_vec(vec![in alloc; Agg::Count, Agg::Sum(1)]?);
    ops.push(operator(alloc, OpKind::Filter(expression(alloc)?))?)?;
    ops.push(operator(alloc, OpKind::Map(columns))?)?;
    ops.push(operator(alloc, OpKind::Union)?)?;
    ops.push(operator(alloc, OpKind::Join(5, keys))?)?;
    ops.push(operator(alloc, OpKind::Aggregate(30, 10, Some(1), aggs))?)?;
    Ok(Listed::from_vec(ops))
}

fn plan(alloc: Global, log_time: u64) -> Result<Plan, AllocError> {
    let log = Listed::from_vec(vec![in alloc; tuple(alloc, log_time, 7)?]?);
    let source = SourceSpec {
        name: named(alloc, b"s")?,
        columns: 2,
        log,
    };
    let frag = FragSpec {
        name: named(alloc, b"f")?,
        replicas: 3,
        delay: Some(4),
        inputs: Listed::from_vec(vec![in alloc; StreamRef::Source(0)]?),
        ops: operators(alloc)?,
    };
    let client = ClientSpec {
        name: named(alloc, b"c")?,
        input: StreamRef::Frag(0),
    };
    Ok(Plan {
        version: 3,
        passing: true,
        width: 10,
        delay: 20,
        end: 30,
        sources: Listed::from_vec(vec![in alloc; source]?),
        frags: Listed::from_vec(vec![in alloc; frag]?),
        clients: Listed::from_vec(vec![in alloc; client]?),
    })
}

fn items(alloc: Global) -> Result<Items, AllocError> {
    let mut items = Vec::new(alloc);
    items.push(Item::Stable(0, tuple(alloc, 3, 5)?))?;
    items.push(Item::Tentative(tuple(alloc, 4, 6)?))?;
    items.push(Item::Passed(9))?;
    items.push(Item::Boundary(10, 1))?;
    items.push(Item::Undo(1))?;
    items.push(Item::RecDone)?;
    Ok(Listed::from_vec(items))
}

#[test]
fn copies_are_made_and_are_the_same(rt: HostRuntime) -> Result<(), Fail> {
    let alloc = rt.alloc();
    let original = plan(alloc, 12)?;
    assert!(rt; original.copy(alloc)?.same(&original));
    assert!(rt; !plan(alloc, 13)?.same(&original));

    let batch = items(alloc)?;
    assert!(rt; batch.copy(alloc)?.same(&batch));

    let port = 1;
    let tagged = Tagged {
        port,
        tuple: tuple(alloc, 1, 2)?,
    };
    assert!(rt; tagged.copy(alloc)?.same(&tagged));
    Ok(())
}
