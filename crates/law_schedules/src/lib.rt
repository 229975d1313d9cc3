//! The one-thread journal of a script is live, and what holds of live journals.
#![tactic(auto)]

ghost use Rattle.std.specs.Prelude.{◌≡◌, ℕ, ◌+◌, ◌-◌, ◌≤◌, true, List, [], ◌∷◌, ◌++◌, length, ◌⊎◌};
ghost use Rattle.dpc_model.specs.declared.messages.Event.{Event};
ghost use Rattle.dpc_model.specs.declared.messages.Event.TheVariants.{Deliver, Tick, Mill};
ghost use Rattle.dpc_model.specs.declared.scripts.Script.{Script};
ghost use Rattle.world_model.specs.Worlds.{run, all_settled};
ghost use Rattle.world_model.specs.Schedules.{lockstep, lockstep_journal, progress, may, is_live_so_far, is_live, is_phase_complete, phase_of, last_clock, quiet_limit};
ghost use Rattle.law_schedules.specs.Journals.{phases_in, most_phases, Comes, Mills, Ticks, are_rising, IsClocked};

/// A script's one-thread run ends in the world that its journal leads to.
pub fn the_lockstep_journal_gives_its_world()
    ensures { (script : Script) → (lockstep script).world ≡ run script.plan (lockstep_journal script) }
{}

/// And that journal is live, whatever the script says, with its quiet phases where the script ends with settle.
pub fn the_lockstep_journal_is_live()
    ensures { (script : Script) → is_live script (lockstep_journal script) ≡ true }
{}

/// A journal is live so far exactly where each event may follow those before it; a live one is live so far. The progress after any journal has the world of its run.
pub fn live_journals_grow()
    ensures none { (script : Script) → is_live_so_far script [] ≡ true }
    ensures so_far { (script : Script) (es : List Event) → is_live script es ≡ true → is_live_so_far script es ≡ true }
    ensures prefix { (script : Script) (es fs : List Event) → is_live_so_far script (es ++ fs) ≡ true → is_live_so_far script es ≡ true }
    ensures each { (script : Script) (es : List Event) (e : Event) (fs : List Event) →
        is_live_so_far script (es ++ e ∷ fs) ≡ true → may script es e ≡ true }
    ensures more { (script : Script) (es : List Event) (e : Event) →
        is_live_so_far script es ≡ true → may script es e ≡ true → is_live_so_far script (es ++ e ∷ []) ≡ true }
    ensures world { (script : Script) (es : List Event) → (progress script es).world ≡ run script.plan es }
{}

/// Its progress counts the phases of a journal that is live so far; they are no more than the script has, with the quiet ones where it ends with settle.
pub fn live_phases_are_few()
    ensures counted { (script : Script) (es : List Event) → is_live_so_far script es ≡ true → (progress script es).phase ≡ phases_in es }
    ensures few { (script : Script) (es : List Event) → is_live_so_far script es ≡ true → phases_in es ≤ most_phases script }
{}

/// A live journal opens all phases of its script, and the last one is complete. Where the script ends with settle, every client is settled at its end, or all quiet phases were opened too.
pub fn live_journals_end()
    ensures complete { (script : Script) (es : List Event) → is_live script es ≡ true → is_phase_complete (progress script es) ≡ true }
    ensures whole { (script : Script) (es : List Event) → is_live script es ≡ true →
        (length script.phases ≤ phases_in es) × (script.settle ≡ true →
        (all_settled (run script.plan es) ≡ true) ⊎ (phases_in es ≡ length script.phases + quiet_limit script.plan)) }
{}

/// A tick has its phase's clock. Where a script's clocks don't fall, those of its phases don't, the quiet ones included, and none passes the script's last clock by more than the number of quiet phases up to it.
pub fn live_clocks_are_the_phases()
    ensures tick { (script : Script) (es : List Event) (a now : ℕ) →
        is_live_so_far script es ≡ true → may script es (Tick a now) ≡ true → now ≡ (phase_of script (phases_in es)).now }
    ensures rises { (script : Script) (p : ℕ) → are_rising 0 script.phases ≡ true →
        (phase_of script p).now ≤ (phase_of script (p + 1)).now }
    ensures within { (script : Script) (p : ℕ) → are_rising 0 script.phases ≡ true →
        (phase_of script p).now ≤ last_clock script + (p - length script.phases) }
{}

/// A delivery or milling that may come next is not void. Nor is a tick, where the script's clocks don't fall and stay in range through all phases that may come.
pub fn live_events_are_not_void()
    ensures delivers { (script : Script) (es : List Event) (k : ℕ) → may script es (Deliver k) ≡ true → Comes (run script.plan es) k }
    ensures mills { (script : Script) (es : List Event) (a r : ℕ) → may script es (Mill a r) ≡ true → Mills (run script.plan es) a r }
    ensures ticks { (script : Script) (es : List Event) (a now : ℕ) → IsClocked script →
        is_live_so_far script es ≡ true → may script es (Tick a now) ≡ true → Ticks (run script.plan es) a now }
{}
