//! The filter.
ghost use Rattle.std.specs.Prelude.{◌≡◌, ◌+◌, ◌^◌, ◌<◌, ◌↔◌, true, None, IfOk, OnOk, OnErr};
ghost use Rattle.dpc_model.specs.Operators.{filtered};
ghost use Rattle.dpc_model.specs.Fragments.{at_port};
ghost use Rattle.dpc_model.specs.Engines.{lone_operator};
ghost use Rattle.dpc_model.specs.declared.operators.OpKind.TheVariants as kind;
ghost use Rattle.ops_stateless.specs.FilterOp.{new_filter, filter_before};

use crate::eval;
use dpc_lists::exact::Exact;
use dpc_lists::lists::Listed;
use dpc_model::engines::Engine;
use dpc_model::expressions::Expr;
use dpc_model::faults::StepFault;
use dpc_model::tuples::{Tagged, Tuples};
use std::alloc::{AllocError, Global};
use std::marker::Model;

/// Keeps the tuples of port 0 whose value counts as true. Contracts see a `FilterState`.
#[derive(Drop)]
pub struct Filter {
    expr: Expr,
    next: u64,
    spent: bool,
}

impl Model for Filter {
    ghost use Rattle.std.specs.Coded.{codes};
    ghost use Rattle.dpc_model.specs.FormulaCode.{coded_formula};
    ghost use Rattle.ops_stateless.specs.FilterOp.{FilterState};

    ghost Value = { FilterState };

    ghost coded = { Prim.hlevel (codes, coded_formula) };

    ghost view = { λ f. record { expr = f.expr; next = f.next; spent = f.spent } };
}

impl Filter {
    /// The filter by this expression, before bucket 0.
    pub fn new(expr: Expr) -> Filter
        ensures { result ≡ new_filter expr }
    {
        Filter::before(expr, 0)
    }

    /// The filter by this expression before bucket `next`: as it is after the buckets below, whatever
    /// came in them, since it keeps none of it. `next` may be any number.
    pub fn before(expr: Expr, next: u64) -> Filter
        ensures { result ≡ filter_before expr next }
    {
        Filter {
            expr,
            next,
            spent: false,
        }
    }

    /// Takes the inputs of a bucket, of which it keeps nothing, and answers the tuples that pass.
    pub fn take(&mut self, alloc: Global, inputs: &[Tagged], k: u64) -> Result<Tuples, StepFault>
        requires { k + 1 < 2 ^ 64 }
        ensures passing { IfOk result (λ out. out ≡ filtered self.old.expr (at_port 0 inputs.now)) }
        ensures ok { OnOk result (self.new ≡ record self.old { next = k + 1 }) }
        ensures err { OnErr result (self.new ≡ record self.old { spent = true }) }
        ensures spent { result ≡ Err StepFault.Spent ↔ self.old.spent ≡ true }
    {
        if self.spent {
            return Err(StepFault::Spent);
        }
        match passing(alloc, &self.expr, inputs) {
            Ok(out) => {
                self.next = k + 1;
                Ok(out)
            }
            Err(_) => {
                self.spent = true;
                Err(StepFault::NoMemory)
            }
        }
    }
}

/// The tuples of port 0 that pass, in order.
fn passing(alloc: Global, expr: &Expr, inputs: &[Tagged]) -> Result<Tuples, AllocError>
    ensures { IfOk result (λ out. out ≡ filtered expr.now (at_port 0 inputs.now)) }
{
    let mut out = Vec::with_capacity(alloc, inputs.len())?;
    for x in inputs {
        if x.port == 0 && eval(expr, &x.tuple) != 0 {
            out.push(x.tuple.copy(alloc)?)?;
        }
    }
    Ok(Listed::from_vec(out))
}

impl Engine for Filter {
    ghost width = { λ f. None };

    ghost operators = { λ f. lone_operator (kind.Filter f.expr) 1 };

    ghost next = { λ f. f.next };

    ghost is_spent = { λ f. f.spent };

    ghost after = { λ f xs k. f.next ≡ k };

    fn bucket(&mut self, alloc: Global, inputs: &[Tagged], k: u64) -> Result<Tuples, StepFault> {
        self.take(alloc, inputs, k)
    }

    fn copy(&self, alloc: Global) -> Result<Self, StepFault> {
        if self.spent {
            return Err(StepFault::Spent);
        }
        let expr = self.expr.copy(alloc)?;
        Ok(Filter {
            expr,
            next: self.next,
            spent: false,
        })
    }

    fn same(&self, other: &Self) -> bool {
        self.expr.same(&other.expr) && self.next == other.next && self.spent == other.spent
    }

    fn reset(&mut self) {
        self.next = 0;
        self.spent = false;
    }
}
