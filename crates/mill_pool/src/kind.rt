//! Which orders a pool takes.
ghost use Rattle.mill_work.specs.Milling.{OrderValue};

use dpc_model::engines::Engine;
use std::marker::Brand;

/// Which orders a pool takes, of those that can be milled. It adds no call; each use picks it.
pub trait OrderKind<M: Engine> {
    ghost takes: { OrderValue M → Type 0 };
}

/// Any of them.
impl<M: Engine> OrderKind<M> for Brand {
    ghost takes = { λ _. Unit {0} };
}
