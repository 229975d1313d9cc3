//! Where all has healed behind a script's directives, the quiet phases of each of its live runs open well.
#![tactic(auto)]

ghost use Rattle.std.specs.Prelude.{◌≡◌, true, IsTrue, List};
ghost use Rattle.dpc_model.specs.declared.messages.Event.{Event};
ghost use Rattle.dpc_model.specs.declared.scripts.Script.{Script};
ghost use Rattle.world_model.specs.Schedules.{is_live};
ghost use Rattle.world_model.specs.Steady.{OpensWell};
ghost use Rattle.law_healing.specs.Healing.{heals};

/// Whether a script heals is read off its directives: what one cuts a later one heals, what one crashes a later one restarts, and
/// each source releases its whole log.
pub fn what_heals_opens_well()
    ensures { (script : Script) (events : List Event) → heals script ≡ true → IsTrue (is_live script events) → OpensWell script events }
{}
