//! In the one-thread journal of a script each beat comes in the phase behind the one in which it was sent, before the next ticks.
#![tactic(auto)]

ghost use Rattle.dpc_model.specs.declared.scripts.Script.{Script};
ghost use Rattle.world_model.specs.Schedules.{lockstep_journal};
ghost use Rattle.world_model.specs.Steady.{IsSteady, OpensWell};
ghost use Rattle.law_readers.specs.Settling.{CanSettle};
ghost use Rattle.law_lockstep.specs.Calm.{IsCalm, RestingReadersHear};

/// So where its quiet phases open well and past the first 38 of them no node recovers, no reader misses three beats in a row of one of
/// several replicas either: it is steady.
pub fn a_calm_lockstep_journal_is_steady()
    ensures { (script : Script) → CanSettle script → OpensWell script (lockstep_journal script)
        → IsCalm script (lockstep_journal script) → IsSteady script (lockstep_journal script) }
{}

/// In the one-thread journal, as far as one looks, a reader that does not recover past some quiet phase misses no three beats in a row of
/// one of several replicas behind it, whether others recover or not.
pub fn a_reader_that_rests_hears_every_beat()
    ensures { (script : Script) → RestingReadersHear script }
{}
