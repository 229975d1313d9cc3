//! Where no node is crashed, none recovers: what a replica forgets each of its readers holds.
#![tactic(auto)]

ghost use Rattle.std.specs.Prelude.{◌≡◌, true, IsTrue, List};
ghost use Rattle.dpc_lists.specs.Lists.{list_all};
ghost use Rattle.dpc_model.specs.declared.messages.Event.{Event};
ghost use Rattle.dpc_model.specs.declared.plans.Plan.{Plan};
ghost use Rattle.dpc_model.specs.declared.scripts.Script.{Script};
ghost use Rattle.world_model.specs.Worlds.{run};
ghost use Rattle.world_model.specs.Schedules.{is_live};
ghost use Rattle.world_model.specs.Steady.{NoneRecovers};
ghost use Rattle.law_safety.specs.Plans.{IsCheckedPlan};
ghost use Rattle.law_lockstep.specs.Calm.{IsCalm};
ghost use Rattle.law_calm.specs.Crashes.{crashes_none, has_no_crash};

/// In every run of deliveries, losses, cuts and ticks without a crash no node recovers, at any point.
pub fn without_crashes_none_recovers()
    ensures { (plan : Plan) (events : List Event) → IsCheckedPlan plan → list_all crashes_none events ≡ true
        → NoneRecovers (run plan events).nodes }
{}

/// So it is in every live run of a script that crashes nobody.
pub fn a_script_without_crashes_is_calm()
    ensures { (script : Script) (events : List Event) → IsCheckedPlan script.plan → has_no_crash script ≡ true
        → IsTrue (is_live script events) → IsCalm script events }
{}
