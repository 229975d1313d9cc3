//! From whatever point of a journal that is live so far, its phase can be completed, and then the run.
#![tactic(auto)]

ghost use Rattle.std.specs.Prelude.{◌≡◌, ℕ, ◌+◌, ◌-◌, ◌≤◌, true, List, [], ◌++◌, Some, slice_get};
ghost use Rattle.dpc_model.specs.declared.messages.Event.{Event};
ghost use Rattle.dpc_model.specs.declared.scripts.Script.{Script};
ghost use Rattle.node_model.specs.Nodes.{PlainNode};
ghost use Rattle.world_model.specs.Worlds.{node_at, ready_at, run};
ghost use Rattle.world_model.specs.Schedules.{progress, is_live_so_far, is_live, is_phase_complete};
ghost use Rattle.law_schedules.specs.Journals.{phases_in, most_phases};
ghost use Rattle.law_completion.specs.Completing.{directing, behind_directives, completing, finishing};

/// The events of the directives that are left may follow one after another, and the directives are done then.
pub fn the_directives_may_follow()
    ensures follow { (script : Script) (es : List Event) → is_live_so_far script es ≡ true
        → is_live_so_far script (es ++ directing (run script.plan es) (progress script es).todo) ≡ true }
    ensures done { (script : Script) (es : List Event) → is_live_so_far script es ≡ true
        → (progress script (es ++ directing (run script.plan es) (progress script es).todo)).todo ≡ [] }
{}

/// Whatever was delivered, milled and ticked since the directives were done, a node that did not recover since has ready what it lacks of
/// its target.
pub fn targets_stay_within_reach()
    ensures { (script : Script) (es : List Event) (i a goal : ℕ) (n : PlainNode) → is_live_so_far script es ≡ true
        → slice_get (progress script es).targets i ≡ Some (a, goal) → node_at (run script.plan es) a ≡ Some n
        → goal ≤ n.cursor + ready_at (run script.plan es) a }
{}

/// With the directives done, the milling that the phase asks for, the pending envelopes that can come and the open ticks may follow in this
/// order, and the phase is complete then.
pub fn what_a_phase_asks_for_may_follow()
    ensures follow { (script : Script) (es : List Event) → is_live_so_far script es ≡ true → 1 ≤ phases_in es
        → (progress script es).todo ≡ [] → is_live_so_far script (es ++ behind_directives script (progress script es)) ≡ true }
    ensures complete { (script : Script) (es : List Event) → is_live_so_far script es ≡ true → 1 ≤ phases_in es
        → (progress script es).todo ≡ []
        → is_phase_complete (progress script (es ++ behind_directives script (progress script es))) ≡ true }
{}

/// So each phase can be completed, from whatever point of it.
pub fn phases_can_be_completed()
    ensures follow { (script : Script) (es : List Event) → is_live_so_far script es ≡ true
        → is_live_so_far script (es ++ completing script (progress script es)) ≡ true }
    ensures complete { (script : Script) (es : List Event) → is_live_so_far script es ≡ true
        → is_phase_complete (progress script (es ++ completing script (progress script es))) ≡ true }
{}

/// And each journal that is live so far is the beginning of a live one.
pub fn journals_can_go_on_to_the_end()
    ensures finishes { (script : Script) (es : List Event) → is_live_so_far script es ≡ true
        → is_live script (es ++ finishing (most_phases script - phases_in es) script (progress script es)) ≡ true }
    ensures begins { (script : Script) (es : List Event) → is_live_so_far script es ≡ true
        → (fs : List Event) × (is_live script (es ++ fs) ≡ true) }
{}
