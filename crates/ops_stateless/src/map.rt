//! The map.
ghost use Rattle.std.specs.Prelude.{◌≡◌, None, IfOk, map};
ghost use Rattle.dpc_model.specs.Operators.{mapped, mapped_tuple};
ghost use Rattle.dpc_model.specs.Fragments.{at_port};
ghost use Rattle.dpc_model.specs.Engines.{lone_operator};
ghost use Rattle.dpc_model.specs.declared.operators.OpKind.TheVariants as kind;
ghost use Rattle.ops_stateless.specs.MapOps.{new_map, map_before};

use crate::eval;
use dpc_lists::exact::Exact;
use dpc_lists::lists::Listed;
use dpc_model::engines::Engine;
use dpc_model::expressions::Expr;
use dpc_model::faults::StepFault;
use dpc_model::tuples::{Tagged, Tuple, Tuples, Vals};
use std::alloc::{AllocError, Global};
use std::marker::Model;

/// Gives the values of its expressions on each tuple of port 0, at the tuple's time. Contracts see a
/// `MapState`.
#[derive(Drop)]
pub struct MapOp {
    exprs: Listed<Expr>,
    next: u64,
    spent: bool,
}

impl Model for MapOp {
    ghost use Rattle.std.specs.Coded.{codes};
    ghost use Rattle.dpc_model.specs.FormulaCode.{coded_formula};
    ghost use Rattle.ops_stateless.specs.MapOps.{MapState};

    ghost Value = { MapState };

    ghost coded = { Prim.hlevel (codes, coded_formula) };

    ghost view = { λ m. record { exprs = m.exprs; next = m.next; spent = m.spent } };
}

impl MapOp {
    /// The map by these expressions, before bucket 0. It takes no memory.
    pub fn new(exprs: Listed<Expr>) -> MapOp
        ensures { result ≡ new_map exprs }
    {
        MapOp::before(exprs, 0)
    }

    /// The map by these expressions before bucket `next`: as it is after the buckets below, whatever came
    /// in them, since it keeps none of it. `next` may be any number. It takes no memory.
    pub fn before(exprs: Listed<Expr>, next: u64) -> MapOp
        ensures { result ≡ map_before exprs next }
    {
        MapOp {
            exprs,
            next,
            spent: false,
        }
    }
}

/// The values of the expressions, at the tuple's time.
pub fn mapped_one(alloc: Global, exprs: &[Expr], tuple: &Tuple) -> Result<Tuple, AllocError>
    ensures { IfOk result (λ out. out ≡ mapped_tuple exprs.now tuple.now) }
{
    let mut vals = Vals::with_capacity(alloc, exprs.len())?;
    for expr in exprs {
        vals.push(eval(expr, tuple))?;
    }
    Ok(Tuple {
        stime: tuple.stime,
        vals,
    })
}

/// What the tuples of port 0 become, in order.
fn mapped_all(alloc: Global, exprs: &[Expr], inputs: &[Tagged]) -> Result<Tuples, AllocError>
    ensures { IfOk result (λ out. out ≡ mapped exprs.now (at_port 0 inputs.now)) }
{
    let mut out = Vec::with_capacity(alloc, inputs.len())?;
    for x in inputs {
        if x.port == 0 {
            out.push(mapped_one(alloc, exprs, &x.tuple)?)?;
        }
    }
    Ok(Listed::from_vec(out))
}

impl Engine for MapOp {
    ghost width = { λ m. None };

    ghost operators = { λ m. lone_operator (kind.Map m.exprs) 1 };

    ghost next = { λ m. m.next };

    ghost is_spent = { λ m. m.spent };

    ghost after = { λ m xs k. m.next ≡ k };

    fn bucket(&mut self, alloc: Global, inputs: &[Tagged], k: u64) -> Result<Tuples, StepFault> {
        if self.spent {
            return Err(StepFault::Spent);
        }
        match mapped_all(alloc, self.exprs.as_slice(), inputs) {
            Ok(out) => {
                self.next = k + 1;
                Ok(out)
            }
            Err(_) => {
                self.spent = true;
                Err(StepFault::NoMemory)
            }
        }
    }

    fn copy(&self, alloc: Global) -> Result<Self, StepFault> {
        if self.spent {
            return Err(StepFault::Spent);
        }
        let exprs = self.exprs.copy(alloc)?;
        Ok(MapOp {
            exprs,
            next: self.next,
            spent: false,
        })
    }

    fn same(&self, other: &Self) -> bool {
        self.exprs.same(&other.exprs) && self.next == other.next && self.spent == other.spent
    }

    fn reset(&mut self) {
        self.next = 0;
        self.spent = false;
    }
}
