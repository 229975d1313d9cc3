//! A node that every run keeps good is fit, as the code's node wants its plain node, and so is what comes to it.
#![tactic(auto)]

ghost use Rattle.std.specs.Prelude.{◌≡◌, ℕ, ◌^◌, ◌<◌, true, List, length};
ghost use Rattle.dpc_model.specs.Actors.{role_of};
ghost use Rattle.dpc_model.specs.declared.actors.Role.TheVariants.{Node as IsNode};
ghost use Rattle.dpc_model.specs.declared.messages.Event.{Event};
ghost use Rattle.dpc_model.specs.declared.plans.Plan.{Plan};
ghost use Rattle.node_model.specs.Nodes.{Home, PlainNode};
ghost use Rattle.world_model.specs.Worlds.{World, Envelope, home_of, run};
ghost use Rattle.world_model.specs.Safe.{IsSafeNode, IsTrueEnvelope};
ghost use Rattle.world_model.specs.Orderly.{IsOrderlyNode, is_fitting};
ghost use Rattle.law_safety.specs.Plans.{IsChecked, IsCheckedPlan};
ghost use Rattle.law_safety.specs.Keeps.{IsFineWorld};
ghost use Rattle.node_model.specs.Fitting.{IsFit, IsFitPacket};
ghost use Rattle.law_session_origins.specs.Numbers.{replicas_at};
ghost use Rattle.node_model.specs.Making.{IsReplica};
ghost use Rattle.law_fit.specs.Fits.{NodesAreFit, PacketsAreFit, HasFewReplicas};

/// A node that is safe and orderly is fit, where the run ends below 2^63.
pub fn a_good_node_is_fit()
    ensures { (home : Home) (most : ℕ) (p : PlainNode) → IsChecked home.plan → home.plan.end < 2 ^ 63
        → IsSafeNode home p → IsOrderlyNode home most p → IsFit home p }
{}

/// An envelope that is true and goes a right way, with tuples that fit its stream, carries a fit packet to such a node.
pub fn a_packet_is_fit()
    ensures { (home : Home) (most : ℕ) (e : Envelope) (p : PlainNode) → IsCheckedPlan home.plan
        → role_of home.plan e.to ≡ IsNode home.frag home.replica → is_fitting home.plan e ≡ true
        → IsTrueEnvelope home.plan e → IsSafeNode home p → IsOrderlyNode home most p → IsFitPacket home e.sender p e.packet }
{}

/// In a world that is safe and orderly, as every event keeps it, each node that is up is fit, and so is each packet for the node that it was sent to.
pub fn worlds_are_fit()
    ensures nodes { (w : World) (most : ℕ) → IsCheckedPlan w.plan → w.plan.end < 2 ^ 63 → IsFineWorld w most → NodesAreFit w }
    ensures packets { (w : World) (most : ℕ) → IsCheckedPlan w.plan → IsFineWorld w most → PacketsAreFit w }
{}

/// So they are after every run of a checked plan.
pub fn every_run_is_fit()
    ensures nodes { (plan : Plan) (events : List Event) → IsCheckedPlan plan → plan.end < 2 ^ 63 → NodesAreFit (run plan events) }
    ensures packets { (plan : Plan) (events : List Event) → IsCheckedPlan plan → PacketsAreFit (run plan events) }
{}

/// Each replica of a checked plan, of which no fragment has too many, can be made: by its number, or by its actor.
pub fn a_checked_plan_gives_places()
    ensures by_number { (plan : Plan) (f r : ℕ) → IsCheckedPlan plan → HasFewReplicas plan → f < length plan.frags
        → r < replicas_at plan f → IsReplica (home_of plan (f, r)) }
    ensures by_actor { (plan : Plan) (a f r : ℕ) → IsCheckedPlan plan → HasFewReplicas plan
        → role_of plan a ≡ IsNode f r → IsReplica (home_of plan (f, r)) }
{}
