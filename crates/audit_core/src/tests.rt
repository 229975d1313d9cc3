//! What no clause says: that verdicts are given where there is memory, of a stream that is counted by hand.
ghost use Rattle.std.specs.Prelude.{◌≡◌, IfOk};
ghost use Rattle.ideal_run.specs.IdealPlans.{IsIdealPlan};

use crate::audit;
use crate::faults::AuditFault;
use crate::verdict::Verdict;
use dpc_lists::lists::Listed;
use dpc_model::plans::{Plan, SourceSpec, StreamRef};
use dpc_model::tuples::{Item, Tuple, Vals};
use std::alloc::{AllocError, Global};
use std::test::Fail;

fn tuple(alloc: Global, stime: u64, value: i64) -> Result<Tuple, AllocError>
    ensures { IfOk result (λ t. t.stime ≡ stime) }
{
    let vals = Vals::from_slice(alloc, &[value])?;
    Ok(Tuple { stime, vals })
}

/// A source with a tuple of time 3 and one of time 12, and nothing else.
fn plan(alloc: Global) -> Result<Plan, AllocError>
    ensures { IfOk result IsIdealPlan }
{
    let first = tuple(alloc, 3, 5)?;
    let second = tuple(alloc, 12, 6)?;
    let source = SourceSpec {
        name: Listed::from_vec(Vec::new(alloc)),
        columns: 1,
        log: Listed::from_vec(vec![in alloc; first, second]?),
    };
    Ok(Plan {
        version: 1,
        passing: false,
        width: 10,
        delay: 5,
        end: 20,
        sources: Listed::from_vec(vec![in alloc; source]?),
        frags: Listed::from_vec(Vec::new(alloc)),
        clients: Listed::from_vec(Vec::new(alloc)),
    })
}

/// The verdict on the first tuple, one of time 12 with this value, and this bound.
fn verdict(alloc: Global, value: i64, bound: u64) -> Result<Verdict, Fail> {
    let plan = plan(alloc)?;
    let first = Item::Stable(0, tuple(alloc, 3, 5)?);
    let second = Item::Stable(1, tuple(alloc, 12, value)?);
    let items = vec![in alloc; first, second, Item::Boundary(bound, 2)]?;
    match audit(alloc, &plan, StreamRef::Source(0), items) {
        Ok(verdict) => Ok(verdict),
        Err(AuditFault::NoMemory) => Err(Fail::new("memory was wanting")),
        Err(AuditFault::NoReading(_)) => Err(Fail::new("an item had no reading")),
    }
}

#[test]
fn a_stream_is_whole_or_differs(rt: HostRuntime) -> Result<(), Fail> {
    let alloc = rt.alloc();
    assert!(rt; matches!(verdict(alloc, 6, 20)?, Verdict::Whole));
    assert!(rt;
        matches!(
            verdict(alloc, 6, 13)?,
            Verdict::Prefix {
                stable: 2,
                bound: 13
            }
        )
    );
    let Verdict::Difference { number, had, ideal } = verdict(alloc, 7, 20)? else {
        return Err(Fail::new("no difference is told"));
    };
    let (Some(had), Some(ideal)) = (had, ideal) else {
        return Err(Fail::new("a tuple is missing"));
    };
    assert_eq!(rt; number, 1);
    assert_eq!(rt; had.vals.as_slice(), [7].as_slice());
    assert_eq!(rt; ideal.vals.as_slice(), [6].as_slice());
    Ok(())
}

#[test]
fn a_missing_tuple_is_told(rt: HostRuntime) -> Result<(), Fail> {
    let alloc = rt.alloc();
    let plan = plan(alloc)?;
    let stream = StreamRef::Source(0);
    let missing = audit(alloc, &plan, stream, vec![in alloc; Item::Boundary(4, 0)]?);
    assert!(rt;
        matches!(
            missing,
            Ok(Verdict::Difference {
                number: 0,
                had: None,
                ideal: Some(_)
            })
        )
    );
    let early = audit(alloc, &plan, stream, vec![in alloc; Item::Boundary(3, 0)]?);
    assert!(rt;
        matches!(
            early,
            Ok(Verdict::Prefix {
                stable: 0,
                bound: 3
            })
        )
    );
    let refused = audit(alloc, &plan, stream, vec![in alloc; Item::Boundary(4, 1)]?);
    assert!(rt; matches!(refused, Err(AuditFault::NoReading(0))));
    Ok(())
}
