//! What of a run's past decides which event may come next.
#![tactic(auto)]

ghost use Rattle.std.specs.Prelude.{◌≡◌, Bool, true, not, ◌&&◌, List};
ghost use Rattle.dpc_model.specs.declared.messages.Event.{Event};
ghost use Rattle.dpc_model.specs.declared.scripts.Script.{Script};
ghost use Rattle.world_model.specs.Worlds.{run};
ghost use Rattle.world_model.specs.Schedules.{progress, may, may_follow, is_live_so_far, is_live, is_phase_complete, phase_left};
ghost use Rattle.world_model.specs.Notes.{notes, progress_told};

/// The progress after a journal that is live so far is told by its world and its notes: so they decide which event may come next, and
/// whether the run is at its end.
pub fn notes_tell_the_progress()
    ensures progress { (script : Script) (es : List Event) → is_live_so_far script es ≡ true
        → progress script es ≡ progress_told script (run script.plan es) (notes script.plan es) }
    ensures may { (script : Script) (es : List Event) (e : Event) → is_live_so_far script es ≡ true
        → may script es e ≡ may_follow script (progress_told script (run script.plan es) (notes script.plan es)) e }
    ensures live { (script : Script) (es : List Event) → is_live_so_far script es ≡ true
        → is_live script es ≡ (is_phase_complete (progress_told script (run script.plan es) (notes script.plan es))
        && not (phase_left script (progress_told script (run script.plan es) (notes script.plan es)))) }
{}
