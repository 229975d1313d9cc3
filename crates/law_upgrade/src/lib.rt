//! A script and the one of version 3 that says the same: the same runs, the same journals, the same report.
#![tactic(auto)]

ghost use Rattle.std.specs.Prelude.{◌≡◌, List};
ghost use Rattle.dpc_model.specs.declared.messages.Event.{Event};
ghost use Rattle.dpc_model.specs.declared.plans.Plan.{Plan};
ghost use Rattle.dpc_model.specs.declared.scripts.Script.{Script};
ghost use Rattle.dpc_model.specs.ScriptText.{upgraded};
ghost use Rattle.world_model.specs.Worlds.{World, happens, run};
ghost use Rattle.world_model.specs.Replays.{replay_end};
ghost use Rattle.world_model.specs.Schedules.{progress, may, is_live_so_far, is_live, lockstep_journal};
ghost use Rattle.script_rules.specs.Checking.{IsChecked};
ghost use Rattle.law_safety.specs.Plans.{IsCheckedPlan};
ghost use Rattle.report.specs.Text.{report_text, report_short, ideal_text};
ghost use Rattle.client_reports.specs.Json.{report_json};
ghost use Rattle.law_upgrade.specs.Upgrading.{upgraded_plan, upgraded_world, upgraded_progress};

/// Any event makes the same of any world, whatever version its plan has.
pub fn upgraded_events_are_the_same()
    ensures { (w : World) (e : Event) → happens (upgraded_world w) e ≡ upgraded_world (happens w e) }
{}

/// A plan's run and that of its upgrade differ in the version alone: the same sources, nodes, clients and cuts, and the same envelopes.
pub fn upgraded_runs_are_the_same()
    ensures whole { (plan : Plan) (events : List Event)
        → run (upgraded_plan plan) events ≡ record (run plan events) { plan = upgraded_plan (run plan events).plan } }
    ensures plan { (plan : Plan) (events : List Event) → (run (upgraded_plan plan) events).plan ≡ upgraded_plan plan }
    ensures sources { (plan : Plan) (events : List Event) → (run (upgraded_plan plan) events).sources ≡ (run plan events).sources }
    ensures nodes { (plan : Plan) (events : List Event) → (run (upgraded_plan plan) events).nodes ≡ (run plan events).nodes }
    ensures clients { (plan : Plan) (events : List Event) → (run (upgraded_plan plan) events).clients ≡ (run plan events).clients }
    ensures cuts { (plan : Plan) (events : List Event) → (run (upgraded_plan plan) events).cuts ≡ (run plan events).cuts }
    ensures envelopes { (plan : Plan) (events : List Event) → (run (upgraded_plan plan) events).envelopes ≡ (run plan events).envelopes }
{}

/// The same events may come next after the same journals, the same journals are live, a replay stops at the same place, and the one-thread
/// journal is the same.
pub fn upgraded_scripts_have_the_same_journals()
    ensures next { (s : Script) (es : List Event) (e : Event) → may (upgraded s) es e ≡ may s es e }
    ensures so_far { (s : Script) (es : List Event) → is_live_so_far (upgraded s) es ≡ is_live_so_far s es }
    ensures live { (s : Script) (es : List Event) → is_live (upgraded s) es ≡ is_live s es }
    ensures lock { (s : Script) → lockstep_journal (upgraded s) ≡ lockstep_journal s }
    ensures world { (s : Script) (es : List Event) → run (upgraded s).plan es ≡ upgraded_world (run s.plan es) }
    ensures replay { (s : Script) (es : List Event) → replay_end (upgraded s) es ≡ replay_end s es }
    ensures stands { (s : Script) (es : List Event) → progress (upgraded s) es ≡ upgraded_progress (progress s es) }
{}

/// And a report of a run is the same text, also in JSON, as the failure-free streams are.
pub fn upgraded_reports_are_the_same()
    ensures report { (plan : Plan) (events : List Event) → report_text (run (upgraded_plan plan) events) ≡ report_text (run plan events) }
    ensures short { (plan : Plan) (events : List Event) → report_short (run (upgraded_plan plan) events) ≡ report_short (run plan events) }
    ensures json { (plan : Plan) (events : List Event) → report_json (run (upgraded_plan plan) events) ≡ report_json (run plan events) }
    ensures ideal { (plan : Plan) → ideal_text (upgraded_plan plan) ≡ ideal_text plan }
{}

/// A plan has what the laws of every run need exactly where its upgrade has it.
pub fn upgraded_plans_are_checked_as_before()
    ensures stays { (plan : Plan) → IsCheckedPlan plan → IsCheckedPlan (upgraded_plan plan) }
    ensures was { (plan : Plan) → IsCheckedPlan (upgraded_plan plan) → IsCheckedPlan plan }
{}

/// A checked script, of whatever version, is checked once it is upgraded.
pub fn upgraded_scripts_are_checked()
    ensures { (s : Script) → IsChecked s → IsChecked (upgraded s) }
{}
