//! A live run of a checked script that ends with `settle` settles: every client has its whole stream, and nothing tentative.
#![tactic(auto)]

ghost use Rattle.std.specs.Prelude.{◌≡◌, true, IsTrue, List};
ghost use Rattle.dpc_model.specs.declared.messages.Event.{Event};
ghost use Rattle.dpc_model.specs.declared.scripts.Script.{Script};
ghost use Rattle.script_rules.specs.Checking.{IsChecked};
ghost use Rattle.world_model.specs.Worlds.{run, all_settled};
ghost use Rattle.world_model.specs.Schedules.{is_live, lockstep_journal};
ghost use Rattle.world_model.specs.Steady.{Settles};
ghost use Rattle.law_healing.specs.Healing.{heals};
ghost use Rattle.law_lockstep.specs.Calm.{IsCalm};
ghost use Rattle.law_calm.specs.Crashes.{has_no_crash};
ghost use Rattle.law_settling_whole.specs.Heard.{IsHeard};

/// Whatever was lost, cut, crashed or restarted before: where the quiet phases open with every log released, every link up and every
/// node up, no node recovers past the first 38 of them, and no reader misses three beats in a row of one of several replicas, every
/// client is settled at the end of the run.
pub fn checked_scripts_settle()
    ensures { (script : Script) (events : List Event) → IsChecked script → Settles script events }
{}

/// So it is of the one-thread journal, which the program runs. Its readers hear every beat, so all that is asked is that the script heals
/// (what its directives cut, crash and hold back later ones heal, restart and release) and that past the first 38 quiet phases no node
/// recovers: then the program's answer is not 4.
pub fn a_script_that_heals_settles()
    ensures { (script : Script) → IsChecked script → IsTrue script.settle → heals script ≡ true
        → IsCalm script (lockstep_journal script) → IsTrue (all_settled (run script.plan (lockstep_journal script))) }
{}

/// Where no node is crashed at all, none recovers: so a script that cuts, loses and repeats, but crashes nobody, and mends what it breaks
/// settles, whatever came between, and the program's answer is never 4.
pub fn a_script_that_crashes_nobody_settles()
    ensures { (script : Script) → IsChecked script → IsTrue script.settle → heals script ≡ true
        → has_no_crash script ≡ true → IsTrue (all_settled (run script.plan (lockstep_journal script))) }
{}

/// So does every live run of such a script, by whatever threads, in which past the first 38 quiet phases no reader misses three beats
/// in a row of one of several replicas: that is all that is left to ask.
pub fn a_heard_run_that_crashes_nobody_settles()
    ensures { (script : Script) (events : List Event) → IsChecked script → IsTrue script.settle → heals script ≡ true
        → has_no_crash script ≡ true → IsTrue (is_live script events) → IsHeard script events
        → IsTrue (all_settled (run script.plan events)) }
{}
