//! What no clause says: the answers of a small fragment, counted by a person, and that calls succeed
//! where there is memory.
ghost use Rattle.std.specs.Prelude.{◌≡◌, ◌+◌, ◌*◌, ◌<◌, ◌≤◌, ℕ, [], ◌∷◌, IfOk};
ghost use Rattle.dpc_model.specs.Engines.{IsBucket};
ghost use Rattle.dpc_model.specs.Fragments.{AreSoundFrags, AreSoundOps};
ghost use Rattle.dpc_model.specs.declared.plans.FragSpec.{FragSpec};

use dpc_lists::exact::Exact;
use dpc_lists::faults::NoMemory;
use dpc_lists::lists::Listed;
use dpc_model::engines::Engine;
use dpc_model::expressions::{Expr, ExprNode};
use dpc_model::operators::{OpKind, OpSpec, Wire};
use dpc_model::plans::{FragSpec, Plan};
use dpc_model::tuples::{Tagged, Tuple, Tuples, Vals};
use fragment_mill::mill::FragMill;
use std::alloc::{AllocError, Global};
use std::test::Fail;

/// A filter of port 0 by its first column, and a union of port 0 and the filter.
fn operators(alloc: Global) -> Result<Vec<OpSpec>, AllocError>
    ensures { IfOk result (λ ops. AreSoundOps ops.items) }
{
    let node = ExprNode::Col(0);
    let filter = OpSpec {
        name: Listed::from_vec(Vec::new(alloc)),
        kind: OpKind::Filter(Expr { node }),
        reads: Listed::from_vec(vec![in alloc; Wire::Port(0)]?),
    };
    let union = OpSpec {
        name: Listed::from_vec(Vec::new(alloc)),
        kind: OpKind::Union,
        reads: Listed::from_vec(vec![in alloc; Wire::Port(0), Wire::Op(0)]?),
    };
    Ok(vec![in alloc; filter, union]?)
}

/// A plan of one fragment, of which no more than the operators counts here.
fn plan(alloc: Global) -> Result<Plan, AllocError>
    ensures one { IfOk result (λ p. (f : FragSpec) × (p.frags ≡ f ∷ [])) }
    ensures sound { IfOk result (λ p. AreSoundFrags p.frags) }
    ensures width { IfOk result (λ p. p.width ≡ 10) }
{
    let ops = operators(alloc)?;
    let frag = FragSpec {
        name: Listed::from_vec(Vec::new(alloc)),
        replicas: 1,
        delay: None,
        inputs: Listed::from_vec(Vec::new(alloc)),
        ops: Listed::from_vec(ops),
    };
    Ok(Plan {
        version: 1,
        passing: true,
        width: 10,
        delay: 20,
        end: 20,
        sources: Listed::from_vec(Vec::new(alloc)),
        frags: Listed::from_vec(vec![in alloc; frag]?),
        clients: Listed::from_vec(Vec::new(alloc)),
    })
}

fn mill(alloc: Global) -> Result<FragMill, NoMemory>
    ensures next { IfOk result (λ m. m.next ≡ 0) }
    ensures width { IfOk result (λ m. m.width ≡ 10) }
{
    FragMill::new(alloc, &plan(alloc)?, 0)
}

fn tuple(alloc: Global, row: (u64, i64)) -> Result<Tuple, AllocError>
    ensures { IfOk result (λ t. t.stime ≡ row.0) }
{
    let vals = Vals::from_slice(alloc, &[row.1])?;
    Ok(Tuple { stime: row.0, vals })
}

/// Two inputs of port 0 in order, each a time and a value.
fn pair(alloc: Global, first: (u64, i64), second: (u64, i64)) -> Result<Vec<Tagged>, AllocError>
    requires { first.0 ≤ second.0 }
    ensures { IfOk result (λ xs. (k : ℕ) → k * 10 ≤ first.0 → second.0 < (k + 1) * 10 → IsBucket 10 k xs.items) }
{
    let port = 0;
    let early = Tagged {
        port,
        tuple: tuple(alloc, first)?,
    };
    let late = Tagged {
        port,
        tuple: tuple(alloc, second)?,
    };
    Ok(vec![in alloc; early, late]?)
}

fn tuples(alloc: Global, rows: &[(u64, i64)]) -> Result<Tuples, AllocError> {
    let mut tuples = Vec::new(alloc);
    for row in rows {
        tuples.push(tuple(alloc, *row)?)?;
    }
    Ok(Listed::from_vec(tuples))
}

#[test]
fn a_port_is_read_twice(rt: HostRuntime) -> Result<(), Fail> {
    let alloc = rt.alloc();
    let Ok(mut mill) = mill(alloc) else {
        return Ok(assert!(rt; false));
    };

    let inputs = pair(alloc, (3, 5), (4, 0))?;
    let Ok(output) = mill.bucket(alloc, inputs.as_slice(), 0) else {
        return Ok(assert!(rt; false));
    };
    assert!(rt; output.same(&tuples(alloc, &[(3, 5), (3, 5), (4, 0)])?));

    let inputs = pair(alloc, (12, 0), (12, 7))?;
    let Ok(output) = mill.bucket(alloc, inputs.as_slice(), 1) else {
        return Ok(assert!(rt; false));
    };
    assert!(rt; output.same(&tuples(alloc, &[(12, 0), (12, 7), (12, 7)])?));
    Ok(())
}
