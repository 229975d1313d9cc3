//! Asking and granting over whole runs of a checked plan.
#![tactic(auto)]

ghost use Rattle.std.specs.Prelude.{List};
ghost use Rattle.dpc_model.specs.declared.messages.Event.{Event};
ghost use Rattle.dpc_model.specs.declared.plans.Plan.{Plan};
ghost use Rattle.world_model.specs.Worlds.{run};
ghost use Rattle.law_safety.specs.Plans.{IsCheckedPlan};
ghost use Rattle.law_granting.specs.Asking.{AreAsksInOrder};
ghost use Rattle.law_granting.specs.Meanwhile.{ServesMeanwhile};
ghost use Rattle.law_granting.specs.Taken.{TakenInOrder, PrefixTaken};

/// Whatever events happen, asks and promises are in order.
pub fn asks_are_in_order()
    ensures { (plan : Plan) (events : List Event) → IsCheckedPlan plan → AreAsksInOrder (run plan events) }
{}

/// While an ask that was granted is not over, the replica that granted it serves, unless it found the asker absent.
pub fn granters_serve_meanwhile()
    ensures { (plan : Plan) → IsCheckedPlan plan → ServesMeanwhile plan }
{}

/// The batches that a port took in its present session are of the replica that it reads, and are numbered from 0 on.
pub fn batches_are_taken_in_order()
    ensures { (plan : Plan) (events : List Event) → IsCheckedPlan plan → TakenInOrder plan events }
{}

/// They are the first ones that this replica sent in the session, in order, each once, where the session was answered in one incarnation.
pub fn a_prefix_is_taken()
    ensures { (plan : Plan) (events : List Event) → IsCheckedPlan plan → PrefixTaken plan events }
{}
