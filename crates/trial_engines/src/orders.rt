//! What no clause says: that an order is done where there is memory, with a filter as the engine.
ghost use Rattle.std.specs.Prelude.{◌≡◌, ◌<◌};

use dpc_lists::lists::Listed;
use dpc_lists::steps::Steps;
use dpc_model::engines::Engine;
use dpc_model::expressions::{Expr, ExprNode};
use dpc_model::tuples::{Tagged, Tuple, Vals};
use mill_work::lending::mill_in_place;
use mill_work::milling::mill;
use mill_work::order::Order;
use ops_stateless::filter::Filter;
use std::alloc::{AllocError, Global};
use std::marker::Brand;
use std::sync::ledger::{Blank, Ledger};
use std::test::Fail;

/// A bucket of one input.
fn bucket(alloc: Global, stime: u64) -> Result<Listed<Tagged>, AllocError> {
    let vals = Vals::from_slice(alloc, &[1])?;
    let mut inputs = Vec::new(alloc);
    inputs.push(Tagged {
        port: 0,
        tuple: Tuple { stime, vals },
    })?;
    Ok(Listed::from_vec(inputs))
}

/// Two buckets of a filter that lets all pass: both come out, and the order is given back. Done again on its
/// own engine it comes to the same.
fn two_buckets<L: Ledger>(alloc: Global, blank: Blank) -> Result<bool, Fail>
    requires name { blank.name ≡ L.name }
    requires parts { blank.parts ≡ L.parts }
    requires some { 0 < L.parts }
{
    let mut steps = Steps::<L>::new(blank);
    let all = Expr {
        node: ExprNode::Num(1),
    };
    let mut buckets = Vec::new(alloc);
    buckets.push(bucket(alloc, 5)?)?;
    buckets.push(bucket(alloc, 15)?)?;
    let order = Order {
        node: 3,
        inc: 1,
        cursor: 0,
        before: Filter::new(all),
        buckets: Listed::from_vec(buckets),
    };
    let milled = mill(alloc, order, &mut steps)?;
    let (order, after, outputs) = milled.into_parts();
    let apart = order.node == 3 && outputs.len() == 2 && !after.same(&order.before);
    let done = mill_in_place(alloc, order, &mut steps)?;
    let told = done.node() == 3 && done.inc() == 1 && done.cursor() == 0 && done.count() == 2;
    let (engine, again) = done.into_parts();
    Ok(apart && told && again.len() == 2 && engine.same(&after))
}

#[test]
fn an_order_is_done(rt: HostRuntime) -> Result<(), Fail> {
    let done = two_buckets::<Brand>(rt.alloc(), Blank::new(1))?;
    assert!(rt; done);
    Ok(())
}
