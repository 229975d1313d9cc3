//! What inputs and upgraded texts are, by their parts.
ghost use Rattle.std.specs.Prelude.{◌≡◌, ◌⊎◌, ◌∷◌, [], ◌++◌, ◌≤◌, ◌<◌, ◌^◌, ℕ, true, List, None, Some, length, Ok, Err, codes, unwrap_or};
ghost use Rattle.dpc_lists.specs.Lists.{list_all};
ghost use Rattle.dpc_model.specs.ScriptText.{script_text, upgraded};
ghost use Rattle.dpc_model.specs.declared.messages.Event.{Event};
ghost use Rattle.dpc_model.specs.declared.scripts.Script.{Script};
ghost use Rattle.script_rules.specs.Checking.{IsChecked};
ghost use Rattle.script_rules.specs.Reading.{read, refusal};
ghost use Rattle.script_rules.specs.declared.reasons.PlanFault.{PlanFault};
ghost use Rattle.journal_text.specs.Entries.{is_named, has_small_numbers};
ghost use Rattle.journal_text.specs.Journals.{journal_text, journal_of};
ghost use Rattle.input_parts.specs.Parts.{part_before, part_from};
ghost use Rattle.stream_codec.specs.Frames.{is_in_range};
ghost use Rattle.stream_codec.specs.declared.frames.Frame.TheVariants as frame;
ghost use Rattle.journal_inputs.specs.Framed.{framed_journal, framed_input_of, framed_text};
ghost use Rattle.journal_inputs.specs.Parts.{script_part, journal_part};
ghost use Rattle.journal_inputs.specs.Inputs.{input_of, upgraded_text, newest_fault};
ghost use Rattle.journal_inputs.specs.Upgrades.{IsOldScript, IsUpgrade};
ghost use Rattle.journal_inputs.specs.declared.faults.Refusal.TheVariants as refused;

/// An input that is taken is a script, and behind it a journal for that script's plan.
pub fn an_input_is_a_script_and_its_journal()
    ensures script { (text : List ℕ) (s : Script) (events : List Event) → input_of text ≡ Ok (s, events)
        → read (script_part text) ≡ Some s }
    ensures journal { (text : List ℕ) (s : Script) (events : List Event) → input_of text ≡ Ok (s, events)
        → journal_of s.plan (unwrap_or (journal_part text) []) ≡ Ok events }
{}

/// One that is refused is refused as its script is, or as the journal is behind a script that is read.
pub fn a_refused_input_has_a_refused_part()
    ensures script { (text : List ℕ) (fault : PlanFault) → input_of text ≡ Err (refused.Script fault)
        → refusal (script_part text) ≡ Some fault }
    ensures journal { (text : List ℕ) (entry reason : ℕ) → input_of text ≡ Err (refused.Journal entry reason)
        → (s : Script) × (read (script_part text) ≡ Some s)
        × (journal_of s.plan (unwrap_or (journal_part text) []) ≡ Err (entry, reason)) }
{}

/// A text that is read as a script and ends with a line feed, and a text that is read as a journal for it, are an input together.
pub fn a_script_and_its_journal_are_an_input()
    ensures { (front script journal : List ℕ) (s : Script) (events : List Event) → script ≡ front ++ 10 ∷ []
        → read script ≡ Some s → journal_of s.plan journal ≡ Ok events → input_of (script ++ journal) ≡ Ok (s, events) }
{}

/// So it is of an input whose journal is in frames.
pub fn an_input_in_frames_is_a_script_and_its_journal()
    ensures script { (bytes : List ℕ) (s : Script) (events : List Event) → framed_input_of bytes ≡ Ok (s, events)
        → read (part_before (codes "frames") bytes) ≡ Some s }
    ensures journal { (bytes : List ℕ) (s : Script) (events : List Event) → framed_input_of bytes ≡ Ok (s, events)
        → framed_journal (part_from (codes "frames") bytes) ≡ Ok events }
{}

/// And a text that is read as a script and ends with a line feed, the line `frames`, and the frames of entries in range are such an
/// input together.
pub fn a_script_and_frames_are_an_input()
    ensures { (front script : List ℕ) (s : Script) (events : List Event) → script ≡ front ++ 10 ∷ [] → read script ≡ Some s
        → list_all (λ e. is_in_range (frame.Entry e)) events ≡ true
        → framed_input_of (script ++ framed_text events) ≡ Ok (s, events) }
{}

/// So what is printed of a checked script and of a journal with its end is read back as both.
pub fn what_is_printed_is_read_back()
    ensures { (s : Script) (events : List Event) → IsChecked s → list_all (is_named s.plan) events ≡ true
        → list_all has_small_numbers events ≡ true → length events < 2 ^ 64 → length (script_text s) ≤ 2 ^ 26
        → input_of (script_text s ++ journal_text s.plan events true) ≡ Ok (s, events) }
{}

/// What is upgraded is a script of version 1 or 2, and the journal that stood behind it.
pub fn an_upgraded_text_is_of_an_old_script()
    ensures { (text new : List ℕ) → upgraded_text text ≡ Ok new → IsUpgrade text new }
{}

/// What is not upgraded is refused as its script is, or since that has version 3, or as the journal is behind a script of version 1
/// or 2.
pub fn a_text_that_is_not_upgraded_has_a_refused_part()
    ensures script { (text : List ℕ) (fault : PlanFault) → upgraded_text text ≡ Err (refused.Script fault)
        → (refusal (script_part text) ≡ Some fault)
        ⊎ ((s : Script) × (read (script_part text) ≡ Some s) × (s.plan.version ≡ 3) × (fault ≡ newest_fault)) }
    ensures journal { (text : List ℕ) (entry reason : ℕ) → upgraded_text text ≡ Err (refused.Journal entry reason)
        → (s : Script) × (journal : List ℕ) × IsOldScript text s × (journal_part text ≡ Some journal)
        × (journal_of s.plan journal ≡ Err (entry, reason)) }
{}

/// An upgraded text is read back, where its script is no longer than the longest: as the upgraded script, and with the events of
/// the journal that it was made of.
pub fn what_is_upgraded_is_read_back()
    ensures script { (text new : List ℕ) (s : Script) → upgraded_text text ≡ Ok new → read (script_part text) ≡ Some s
        → journal_part text ≡ None → length (script_text (upgraded s)) ≤ 2 ^ 26 → read new ≡ Some (upgraded s) }
    ensures journal { (text new journal : List ℕ) (s : Script) (events : List Event) → upgraded_text text ≡ Ok new
        → read (script_part text) ≡ Some s → journal_part text ≡ Some journal → journal_of s.plan journal ≡ Ok events
        → length events < 2 ^ 64 → length (script_text (upgraded s)) ≤ 2 ^ 26
        → input_of new ≡ Ok (upgraded s, events) }
{}
