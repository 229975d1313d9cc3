//! The union.
ghost use Rattle.std.specs.Prelude.{◌≡◌, ◌*◌, nat_lt, List, filter, map, Some, IfOk, All};
ghost use Rattle.dpc_model.specs.Engines.{lone_operator, LiesBelow};
ghost use Rattle.dpc_model.specs.declared.operators.OpKind.TheVariants as kind;
ghost use Rattle.dpc_model.specs.declared.tuples.Tagged.{Tagged};
ghost use Rattle.ops_stateless.specs.Unions.{new_union, union_before, UnionAfter};

use dpc_lists::exact::Exact;
use dpc_lists::lists::Listed;
use dpc_model::engines::Engine;
use dpc_model::faults::StepFault;
use dpc_model::tuples::{Tagged, Tuples};
use std::alloc::{AllocError, Global};
use std::marker::Model;

/// Gives the tuples of its ports, which are numbered from 0, in order of time, port and place.
/// Contracts see a `UnionState`.
#[derive(Drop)]
pub struct Union {
    ports: u64,
    width: u64,
    next: u64,
    spent: bool,
}

impl Model for Union {
    ghost use Rattle.ops_stateless.specs.Unions.{UnionState};

    ghost Value = { UnionState };

    ghost view = { λ u. record { ports = u.ports; width = u.width; next = u.next; spent = u.spent } };
}

impl Union {
    /// The union of so many ports over buckets of this width, before bucket 0. It takes no memory.
    pub fn new(ports: u64, width: u64) -> Union
        ensures { result ≡ new_union ports width }
    {
        Union::before(ports, width, 0)
    }

    /// The union of so many ports over buckets of this width before bucket `next`: as it is after the
    /// buckets below, whatever came in them, since it keeps none of it. `next` may be any number, and
    /// `next * width` any product. It takes no memory.
    pub fn before(ports: u64, width: u64, next: u64) -> Union
        ensures made { result ≡ union_before ports width next }
        ensures took { (xs : List Tagged) → All (LiesBelow (next * width)) xs → UnionAfter result xs next }
    {
        Union {
            ports,
            width,
            next,
            spent: false,
        }
    }
}

/// The tuples of the first ports, as they stand.
fn passing(alloc: Global, ports: u64, inputs: &[Tagged]) -> Result<Tuples, AllocError>
    ensures { IfOk result (λ out. out ≡ map (λ (x : Tagged). x.tuple) (filter (λ (x : Tagged). nat_lt x.port ports) inputs.now)) }
{
    let mut out = Vec::with_capacity(alloc, inputs.len())?;
    for x in inputs {
        if x.port < ports {
            out.push(x.tuple.copy(alloc)?)?;
        }
    }
    Ok(Listed::from_vec(out))
}

impl Engine for Union {
    ghost width = { λ u. Some u.width };

    ghost operators = { λ u. lone_operator kind.Union u.ports };

    ghost next = { λ u. u.next };

    ghost is_spent = { λ u. u.spent };

    ghost after = { λ u xs k. UnionAfter u xs k };

    fn bucket(&mut self, alloc: Global, inputs: &[Tagged], k: u64) -> Result<Tuples, StepFault> {
        if self.spent {
            return Err(StepFault::Spent);
        }
        match passing(alloc, self.ports, inputs) {
            Ok(out) => {
                self.next = k + 1;
                Ok(out)
            }
            Err(_) => {
                self.spent = true;
                Err(StepFault::NoMemory)
            }
        }
    }

    fn copy(&self, _alloc: Global) -> Result<Self, StepFault> {
        if self.spent {
            return Err(StepFault::Spent);
        }
        Ok(Union {
            ports: self.ports,
            width: self.width,
            next: self.next,
            spent: false,
        })
    }

    fn same(&self, other: &Self) -> bool {
        self.ports == other.ports
            && self.width == other.width
            && self.next == other.next
            && self.spent == other.spent
    }

    fn reset(&mut self) {
        self.next = 0;
        self.spent = false;
    }
}
