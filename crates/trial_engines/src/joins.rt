//! What no clause says: rows counted by a person, and that calls succeed where there is memory.
ghost use Rattle.std.specs.Prelude.{◌≡◌, IfOk};
ghost use Rattle.dpc_model.specs.Engines.{FitsBucket};

use dpc_lists::lists::Listed;
use dpc_model::engines::Engine;
use dpc_model::tuples::{Tagged, Tuple, Tuples, Vals};
use ops_join::join::Join;
use std::alloc::{AllocError, Global};
use std::test::Fail;

fn tagged(alloc: Global, port: u64, stime: u64, value: i64) -> Result<Tagged, AllocError>
    ensures { IfOk result (λ x. (x.port ≡ port) × (x.tuple.stime ≡ stime)) }
{
    let vals = Vals::from_slice(alloc, &[value])?;
    Ok(Tagged {
        port,
        tuple: Tuple { stime, vals },
    })
}

fn bucket_0(alloc: Global) -> Result<Vec<Tagged>, AllocError>
    ensures { IfOk result (λ inputs. FitsBucket 10 0 inputs.items) }
{
    Ok(vec![in alloc; tagged(alloc, 0, 9, 1)?]?)
}

fn bucket_1(alloc: Global) -> Result<Vec<Tagged>, AllocError>
    ensures { IfOk result (λ inputs. FitsBucket 10 1 inputs.items) }
{
    Ok(vec![in alloc; tagged(alloc, 1, 10, 1)?, tagged(alloc, 1, 14, 1)?]?)
}

fn bucket_2(alloc: Global) -> Result<Vec<Tagged>, AllocError>
    ensures { IfOk result (λ inputs. FitsBucket 10 2 inputs.items) }
{
    let left = tagged(alloc, 0, 20, 2)?;
    Ok(vec![in alloc; left, tagged(alloc, 1, 25, 2)?, tagged(alloc, 1, 26, 2)?]?)
}

/// Whether these are the rows, by time and by the left and the right value.
fn are_rows(rows: &Tuples, wanted: &[(u64, i64, i64)]) -> bool {
    let rows = rows.as_slice();
    if rows.len() != wanted.len() {
        return false;
    }
    for (i, (stime, left, right)) in wanted.iter().enumerate() {
        if rows[i].stime != *stime || rows[i].vals.as_slice() != [*left, *right].as_slice() {
            return false;
        }
    }
    true
}

#[test]
fn partners_meet_over_the_edge_of_a_bucket(rt: HostRuntime) -> Result<(), Fail> {
    let alloc = rt.alloc();
    let keys = Listed::from_vec(vec![in alloc; (0, 0)]?);
    let mut join = Join::new(alloc, 5, keys, 10);
    let inputs = bucket_0(alloc)?;
    let Ok(rows) = join.bucket(alloc, &inputs, 0) else {
        return Ok(assert!(rt; false));
    };
    assert!(rt; are_rows(&rows, &[]));
    let inputs = bucket_1(alloc)?;
    let Ok(rows) = join.bucket(alloc, &inputs, 1) else {
        return Ok(assert!(rt; false));
    };
    assert!(rt; are_rows(&rows, &[(10, 1, 1), (14, 1, 1)]));
    let Ok(copy) = join.copy(alloc) else {
        return Ok(assert!(rt; false));
    };
    assert!(rt; copy.same(&join));
    let inputs = bucket_2(alloc)?;
    let Ok(rows) = join.bucket(alloc, &inputs, 2) else {
        return Ok(assert!(rt; false));
    };
    assert!(rt; are_rows(&rows, &[(25, 2, 2)]));
    assert!(rt; !copy.same(&join));
    assert_eq!(rt; join.left().len(), 0);
    assert_eq!(rt; join.right().len(), 2);
    join.reset();
    assert_eq!(rt; join.right().len(), 0);
    Ok(())
}
