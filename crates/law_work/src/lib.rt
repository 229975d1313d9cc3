//! Work that is taken out of a node is as it is where nothing fails, and whether it fits a node is a matter of numbers alone.
#![tactic(auto)]

ghost use Rattle.std.specs.Prelude.{◌≡◌, ◌↔◌, ℕ, ◌+◌, ◌≤◌, false, List, length};
ghost use Rattle.dpc_model.specs.Actors.{role_of};
ghost use Rattle.dpc_model.specs.Parts.{processed};
ghost use Rattle.dpc_model.specs.declared.actors.Role.TheVariants.{Node as IsNode};
ghost use Rattle.dpc_model.specs.declared.messages.Event.{Event};
ghost use Rattle.dpc_model.specs.declared.plans.Plan.{Plan};
ghost use Rattle.fragment_mill.specs.Mills.{MillState};
ghost use Rattle.mill_work.specs.Milling.{OrderValue};
ghost use Rattle.node_model.specs.Nodes.{Home, PlainNode, bucket_of, complete_upto};
ghost use Rattle.node_model.specs.NodeParts.{inputs_of};
ghost use Rattle.node_core.specs.Milling.{Fits, FitsInNumbers, IsWorkAt};
ghost use Rattle.world_model.specs.Worlds.{World, run};
ghost use Rattle.law_safety.specs.Plans.{IsCheckedPlan};
ghost use Rattle.law_safety.specs.Keeps.{IsFineWorld};
ghost use Rattle.law_work.specs.TrueWork.{true_inputs, true_bucket, IsTrueWork, IsSoundNode, NodesAreSound, WorkIsTrue, TrueWorkFitsByNumbers};

/// Each node that is up is sound, in a world that is safe and orderly and after every run of a checked plan. What such a node has
/// processed while it doesn't recover are the failure-free inputs below its cursor, and each complete bucket is the failure-free one.
pub fn what_a_node_holds_is_true()
    ensures of_world { (plan : Plan) (w : World) (most : ℕ) → IsCheckedPlan plan → w.plan ≡ plan → IsFineWorld w most → NodesAreSound plan w }
    ensures of_run { (plan : Plan) (events : List Event) → IsCheckedPlan plan → NodesAreSound plan (run plan events) }
    ensures inputs { (home : Home) (p : PlainNode) → IsSoundNode home p → p.recovering ≡ false
        → processed home.plan.width (inputs_of p) ≡ true_inputs home.plan home.frag p.cursor }
    ensures bucket { (home : Home) (p : PlainNode) (k : ℕ) → IsSoundNode home p → k + 1 ≤ complete_upto home p
        → bucket_of home p k ≡ true_bucket home.plan home.frag k }
{}

/// What is work for a sound node is true: its engine took exactly the failure-free inputs of the fragment below its first bucket, and its
/// buckets are the failure-free ones. So it is in a world that is safe and orderly, and after every run of a checked plan.
pub fn work_is_true()
    ensures of_node { (home : Home) (p : PlainNode) (o : OrderValue MillState) → IsSoundNode home p
        → role_of home.plan o.node ≡ IsNode home.frag home.replica → 1 ≤ length o.buckets → IsWorkAt home p o → IsTrueWork home.plan o }
    ensures of_world { (plan : Plan) (w : World) (most : ℕ) → IsCheckedPlan plan → w.plan ≡ plan → IsFineWorld w most → WorkIsTrue plan w }
    ensures of_run { (plan : Plan) (events : List Event) → IsCheckedPlan plan → WorkIsTrue plan (run plan events) }
{}

/// True work of a sound node's actor fits the node exactly where it begins at the node's cursor and as many buckets are ready; it is work
/// for the node where the incarnation is the node's, too. So it is in a world that is safe and orderly, and after every run.
pub fn true_work_fits_by_numbers()
    ensures of_node { (home : Home) (p : PlainNode) (o : OrderValue MillState) → IsSoundNode home p
        → role_of home.plan o.node ≡ IsNode home.frag home.replica → 1 ≤ length o.buckets → IsTrueWork home.plan o
        → Fits home p o ↔ FitsInNumbers home p o }
    ensures work { (home : Home) (p : PlainNode) (o : OrderValue MillState) → IsSoundNode home p
        → role_of home.plan o.node ≡ IsNode home.frag home.replica → 1 ≤ length o.buckets → IsTrueWork home.plan o
        → IsWorkAt home p o ↔ ((o.inc ≡ p.grants.inc) × FitsInNumbers home p o) }
    ensures of_world { (plan : Plan) (w : World) (most : ℕ) → IsCheckedPlan plan → w.plan ≡ plan → IsFineWorld w most
        → TrueWorkFitsByNumbers plan w }
    ensures of_run { (plan : Plan) (events : List Event) → IsCheckedPlan plan → TrueWorkFitsByNumbers plan (run plan events) }
{}
