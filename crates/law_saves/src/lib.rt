//! What nodes save at the ends of phases, in every run.
#![tactic(auto)]

ghost use Rattle.std.specs.Prelude.{◌≡◌, ◌<◌, ◌*◌, ◌^◌, ℕ, false, if◌then◌else◌, List, [], ◌∷◌, ◌++◌, length, Some, None};
ghost use Rattle.dpc_model.specs.Actors.{role_of};
ghost use Rattle.dpc_model.specs.declared.actors.Role.TheVariants.{Node as IsNode};
ghost use Rattle.dpc_model.specs.Fragments.{ideal_upto};
ghost use Rattle.dpc_model.specs.declared.messages.Event.{Event};
ghost use Rattle.dpc_model.specs.declared.plans.Plan.{Plan};
ghost use Rattle.dpc_model.specs.declared.plans.StreamRef.TheVariants.{Frag};
ghost use Rattle.dpc_model.specs.declared.scripts.Script.{Script};
ghost use Rattle.node_model.specs.Mails.{Snap};
ghost use Rattle.node_model.specs.Nodes.{PlainNode, spec_of};
ghost use Rattle.node_model.specs.NodeSteps.{snapshot};
ghost use Rattle.node_model.specs.Stands.{SnapValue, snap_output};
ghost use Rattle.world_model.specs.Worlds.{home_of, slot_of, run};
ghost use Rattle.law_safety.specs.Plans.{IsCheckedPlan};
ghost use Rattle.script_rules.specs.Checking.{IsChecked};
ghost use Rattle.fragment_mill.specs.Mills.{MillState};
ghost use Rattle.pipeline.specs.Recovery.{StandsForSnapshot};
ghost use Rattle.snapshot_form.specs.Bytes.{snapshot_bytes};
ghost use Rattle.snapshot_form.specs.Savable.{IsSavable};
ghost use Rattle.law_saves.specs.Saves.{snap_at, later, ends_phase, saved_before, saved_last};
ghost use Rattle.law_saves.specs.Typed.{IsTyped};

/// Nothing is saved before the first event; an event that ends a phase adds what the node could save before it, and any other
/// event nothing.
pub fn an_event_goes_on()
    ensures none { (plan : Plan) (a : ℕ) → saved_before plan [] a ≡ None }
    ensures one { (plan : Plan) (events : List Event) (e : Event) (a : ℕ) → saved_before plan (events ++ e ∷ []) a
        ≡ (if ends_phase e then later (saved_before plan events a) (snap_at (run plan events) a) else saved_before plan events a) }
{}

/// What was saved last is true: the output that its inputs make is the failure-free output below its cursor.
pub fn what_is_saved_is_true()
    ensures { (plan : Plan) (events : List Event) (a f r : ℕ) (s : Snap) → IsCheckedPlan plan → role_of plan a ≡ IsNode f r →
        saved_last plan events a ≡ Some s → snap_output (home_of plan (f, r)) s ≡ ideal_upto plan (Frag f) (s.cursor * plan.width) }
{}

/// A snapshot of code that stands for that of a node in a run of a checked script, with numbers of their types and not too long, is
/// read back from its bytes.
pub fn what_a_node_hands_out_can_be_saved()
    ensures { (script : Script) (events : List Event) (a f r : ℕ) (p : PlainNode) (v : SnapValue MillState) → IsChecked script
        → role_of script.plan a ≡ IsNode f r → (slot_of (run script.plan events) a).node ≡ Some p → p.recovering ≡ false
        → StandsForSnapshot (spec_of (home_of script.plan (f, r))).ops script.plan.width v (snapshot (home_of script.plan (f, r)) p)
        → IsTyped v → length (snapshot_bytes v) < 2 ^ 32 → IsSavable script.plan f v }
{}
