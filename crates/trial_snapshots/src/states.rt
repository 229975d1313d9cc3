//! The state of an engine, taken and made again.
use crate::plans::{join_operators, plan, tuple};
use dpc_model::engines::{Engine, fits_bucket};
use dpc_model::tuples::Tagged;
use fragment_mill::mill::FragMill;
use fragment_mill::states::OperatorParts;
use std::alloc::{AllocError, Global};
use std::test::Fail;

fn input(alloc: Global, port: u64, stime: u64) -> Result<Tagged, AllocError> {
    let tuple = tuple(alloc, stime, &[7])?;
    Ok(Tagged { port, tuple })
}

#[test]
fn a_state_comes_back(rt: HostRuntime) -> Result<(), Fail> {
    let alloc = rt.alloc();
    let plan = plan(alloc, join_operators(alloc)?)?;
    let mut mill = FragMill::new(alloc, &plan, 0)?;
    let inputs = vec![in alloc;
        input(alloc, 0, 3)?,
        input(alloc, 0, 6)?,
        input(alloc, 1, 8)?,
    ]?;
    let k = mill.next_bucket();
    assert_eq!(rt; k, 0);
    assert!(rt; fits_bucket(inputs.as_slice(), plan.width, k));
    mill.bucket(alloc, inputs.as_slice(), k)?;

    let parts = mill.parts(alloc)?;
    assert_eq!(rt; parts.next, 1);
    // the tuple of time 3 can meet no partner any more
    let [
        OperatorParts::Join(left, right),
        OperatorParts::Aggregate(cells),
    ] = parts.operators.as_slice()
    else {
        assert!(rt; false, "other operators");
        return Ok(());
    };
    assert_eq!(rt; left.len(), 1);
    assert_eq!(rt; right.len(), 1);
    assert_eq!(rt; cells.len(), 1);
    let back = FragMill::from_parts(alloc, &plan, 0, parts)?;
    assert!(rt; back.same(&mill));
    Ok(())
}
