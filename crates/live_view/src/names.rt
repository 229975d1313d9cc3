//! Which plan a view is of.
ghost use Rattle.std.specs.Prelude.{false, []};
ghost use Rattle.dpc_model.specs.declared.plans.Plan.{Plan};

use std::marker::Brand;

/// A type that stands for a plan in contracts. It has no call, and one name serves the views of all clients of a run.
pub trait ViewName {
    ghost plan: { Plan };
}

// Whoever calls a function that is generic in the name picks the plan at the call; this one only fills the place.
impl ViewName for Brand {
    ghost plan = { record { version = 1; passing = false; width = 1; delay = 0; end = 0; sources = []; frags = []; clients = [] } };
}
