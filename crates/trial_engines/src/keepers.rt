//! What no clause says: that calls succeed where there is memory, with a filter as the engine.
ghost use Rattle.std.specs.Prelude.{◌≡◌, ◌<◌, pos};
ghost use Rattle.dpc_model.specs.Formula.{Num};
ghost use Rattle.ops_stateless.specs.FilterOp.{new_filter};

use checkpoint_redo::keeper::Keeper;
use checkpoint_redo::redoing::redo;
use dpc_lists::lists::Listed;
use dpc_lists::steps::Steps;
use dpc_model::engines::Engine;
use dpc_model::expressions::{Expr, ExprNode};
use dpc_model::tuples::{Tagged, Tuple, Vals};
use ops_stateless::filter::Filter;
use std::alloc::{AllocError, Global};
use std::marker::Brand;
use std::sync::ledger::{Blank, Ledger};
use std::test::Fail;

/// One input at a time.
fn bucket(alloc: Global, stime: u64) -> Result<Vec<Tagged>, AllocError> {
    let vals = Vals::from_slice(alloc, &[1])?;
    let tuple = Tuple { stime, vals };
    let mut inputs = Vec::new(alloc);
    inputs.push(Tagged { port: 0, tuple })?;
    Ok(inputs)
}

/// A filter that lets all pass.
fn all_pass() -> Filter
    ensures { result ≡ new_filter (Num (pos 1)) }
{
    Filter::new(Expr {
        node: ExprNode::Num(1),
    })
}

/// Two buckets are redone, a third one is tried and taken back, and the state is again the one before.
fn tried_and_taken_back<L: Ledger>(alloc: Global, blank: Blank) -> Result<bool, Fail>
    requires name { blank.name ≡ L.name }
    requires parts { blank.parts ≡ L.parts }
    requires some { 0 < L.parts }
{
    let mut steps = Steps::<L>::new(blank);
    let mut engine = all_pass();
    let mut buckets = Vec::new(alloc);
    buckets.push(Listed::from_vec(bucket(alloc, 5)?))?;
    buckets.push(Listed::from_vec(bucket(alloc, 15)?))?;
    let redone = redo(alloc, &mut engine, buckets.as_slice(), 0, &mut steps)?;
    let mut keeper = Keeper::new(engine);
    let before = keeper.stand(alloc)?;
    keeper.hold(alloc)?;
    let third = bucket(alloc, 25)?;
    let tried = keeper.ahead(alloc, third.as_slice(), 2)?;
    let held = keeper.is_held() && keeper.same(&before)?;
    keeper.restore();
    Ok(redone.len() == 2 && tried.len() == 1 && held && keeper.same(&before)?)
}

#[test]
fn a_tentative_bucket_is_taken_back(rt: HostRuntime) -> Result<(), Fail> {
    let done = tried_and_taken_back::<Brand>(rt.alloc(), Blank::new(1))?;
    assert!(rt; done);
    Ok(())
}

/// A filter is lent, processes a bucket elsewhere, and comes back. While it is out no copy of it can be had.
fn lent_and_given_back(alloc: Global) -> Result<bool, Fail> {
    let mut keeper = Keeper::new(all_pass());
    let inputs = bucket(alloc, 5)?;
    let mut engine = keeper.lend(all_pass())?;
    let is_out = keeper.stand(alloc).is_err();
    let output = engine.bucket(alloc, inputs.as_slice(), 0)?;
    keeper.replace(engine);
    let after = keeper.stand(alloc)?;
    Ok(is_out && output.len() == 1 && keeper.same(&after)? && !after.same(&all_pass()))
}

#[test]
fn a_filter_is_lent(rt: HostRuntime) -> Result<(), Fail> {
    let done = lent_and_given_back(rt.alloc())?;
    assert!(rt; done);
    Ok(())
}
