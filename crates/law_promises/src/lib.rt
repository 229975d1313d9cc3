//! What every run of a checked plan promises, as one statement, so that who runs a world reads it at the call.
#![tactic(auto)]

ghost use Rattle.std.specs.Prelude.{List};
ghost use Rattle.dpc_model.specs.declared.messages.Event.{Event};
ghost use Rattle.dpc_model.specs.declared.plans.Plan.{Plan};
ghost use Rattle.world_model.specs.Worlds.{run};
ghost use Rattle.world_model.specs.Safe.{IsSafeStep};
ghost use Rattle.law_safety.specs.Plans.{IsCheckedPlan};
ghost use Rattle.law_promises.specs.Promises.{KeepsPromises};

/// Whatever events happen in whatever order, a run of a checked plan keeps all promises.
pub fn every_run_keeps_its_promises()
    ensures { (plan : Plan) (events : List Event) → IsCheckedPlan plan → KeepsPromises plan events }
{}

/// And the event that comes next does what is promised of it: a tick serves, and rec_done is sent surely.
pub fn the_next_event_keeps_its_promises()
    ensures { (plan : Plan) (events : List Event) (e : Event) → IsCheckedPlan plan → IsSafeStep (run plan events) e }
{}
