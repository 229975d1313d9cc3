//! Every run of a checked plan is safe and orderly, and what that promises, a sentence each.
#![tactic(auto)]

ghost use Rattle.std.specs.Prelude.{◌≡◌, ℕ, ◌+◌, List, [], ◌∷◌, ◌++◌, length};
ghost use Rattle.dpc_model.specs.Actors.{nodes_of};
ghost use Rattle.dpc_model.specs.declared.messages.Event.{Event};
ghost use Rattle.dpc_model.specs.declared.plans.Plan.{Plan};
ghost use Rattle.world_model.specs.Worlds.{World, happens, run};
ghost use Rattle.world_model.specs.Safe.{IsSafe, IsSafeStep};
ghost use Rattle.world_model.specs.Orderly.{IsOrderlyWorld};
ghost use Rattle.law_safety.specs.Plans.{IsCheckedPlan};
ghost use Rattle.law_safety.specs.Keeps.{IsFineWorld};
ghost use Rattle.law_safety.specs.Promises.{AllSentIsTrue, ReadersAreRight, OutputsAreRight, DoneLeavesNothing, DoneIsSurelySent, NoneWaits};

/// A run of one more event is one step more.
pub fn one_event_more()
    ensures { (plan : Plan) (events : List Event) (e : Event) → run plan (events ++ e ∷ []) ≡ happens (run plan events) e }
{}

/// Whatever events happen in whatever order, every run of a checked plan is safe.
pub fn every_run_is_safe()
    ensures { (plan : Plan) (events : List Event) → IsCheckedPlan plan → IsSafe plan events }
{}

/// And it is orderly, with the number of events plus 1 as the limit of its numbers.
pub fn every_run_is_orderly()
    ensures { (plan : Plan) (events : List Event) → IsCheckedPlan plan →
        IsOrderlyWorld (run plan events) (nodes_of plan) (1 + length events) }
{}

/// One event keeps a world safe and orderly, whatever world it is.
pub fn an_event_keeps_safe()
    ensures keeps { (w : World) (most : ℕ) (e : Event) → IsCheckedPlan w.plan → IsFineWorld w most → IsFineWorld (happens w e) (most + 1) }
    ensures step { (w : World) (most : ℕ) (e : Event) → IsCheckedPlan w.plan → IsFineWorld w most → IsSafeStep w e }
{}

/// Every envelope that was sent agrees with the failure-free output.
pub fn what_is_sent_is_true()
    ensures { (plan : Plan) (events : List Event) → IsCheckedPlan plan → AllSentIsTrue plan events }
{}

/// What a client, or a port of a node that is up, holds stably is a beginning of the failure-free output, and is all of it
/// below the holder's bound.
pub fn readers_hold_a_beginning()
    ensures { (plan : Plan) (events : List Event) → IsCheckedPlan plan → ReadersAreRight plan events }
{}

/// The stable output of a node that is up and does not recover is the failure-free output up to its cursor.
pub fn outputs_are_failure_free()
    ensures { (plan : Plan) (events : List Event) → IsCheckedPlan plan → OutputsAreRight plan events }
{}

/// A client that takes RecDone holds nothing tentative then.
pub fn done_leaves_nothing_tentative()
    ensures { (plan : Plan) (events : List Event) → IsCheckedPlan plan → DoneLeavesNothing plan events }
{}

/// Whoever sends RecDone at an event has nothing left to correct after it: a source, or a STABLE node without tentative output.
pub fn done_is_surely_sent()
    ensures { (plan : Plan) (events : List Event) → IsCheckedPlan plan → DoneIsSurelySent plan events }
{}

/// A tick that leaves a node outside STABILIZATION leaves it with no bucket due.
pub fn no_due_bucket_waits()
    ensures { (plan : Plan) (events : List Event) → IsCheckedPlan plan → NoneWaits plan events }
{}
