//! What stays of a source.
ghost use Rattle.source_core.specs.Laws.{Opens, StaysOne};

/// A new source is one of its plan.
pub fn a_new_source_is_one()
    ensures { Opens }
{}

/// It stays one at each step.
pub fn a_source_stays_one()
    ensures { StaysOne }
{}
