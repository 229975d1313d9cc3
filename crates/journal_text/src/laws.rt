//! What holds of every journal's text.
ghost use Rattle.std.specs.Prelude.{◌≡◌, ◌<◌, ◌≤◌, ◌^◌, ℕ, true, false, List, length, Ok, Err};
ghost use Rattle.dpc_lists.specs.Lists.{list_all};
ghost use Rattle.dpc_model.specs.declared.messages.Event.{Event};
ghost use Rattle.dpc_model.specs.declared.plans.Plan.{Plan};
ghost use Rattle.dpc_model.specs.declared.scripts.Script.{Script};
ghost use Rattle.script_rules.specs.Checking.{IsChecked};
ghost use Rattle.script_rules.specs.Lines.{lines_of};
ghost use Rattle.journal_text.specs.Entries.{is_named, has_small_numbers};
ghost use Rattle.journal_text.specs.Journals.{IsReason, IsTextOf, journal_text, journal_of};

/// What is printed of a journal with its end, for the plan of a checked script, is read back as these entries.
pub fn what_is_printed_is_read_back()
    ensures { (s : Script) (events : List Event) → IsChecked s → list_all (is_named s.plan) events ≡ true
        → list_all has_small_numbers events ≡ true → length events < 2 ^ 64
        → journal_of s.plan (journal_text s.plan events true) ≡ Ok events }
{}

/// Without its end it is refused behind its last entry, with reason 3.
pub fn a_journal_without_its_end_is_refused()
    ensures { (s : Script) (events : List Event) → IsChecked s → list_all (is_named s.plan) events ≡ true
        → list_all has_small_numbers events ≡ true → length events < 2 ^ 64
        → journal_of s.plan (journal_text s.plan events false) ≡ Err (length events, 3) }
{}

/// And a text that is read, for any plan, is what is printed of the journal that it is read as, byte by byte, where
/// the last line may lack its line feed. Its entries name actors of their forms' sorts.
pub fn what_is_read_is_what_is_printed()
    ensures text { (plan : Plan) (text : List ℕ) (events : List Event) → journal_of plan text ≡ Ok events
        → IsTextOf text (journal_text plan events true) }
    ensures named { (plan : Plan) (text : List ℕ) (events : List Event) → journal_of plan text ≡ Ok events
        → list_all (is_named plan) events ≡ true }
    ensures small { (plan : Plan) (text : List ℕ) (events : List Event) → journal_of plan text ≡ Ok events
        → list_all has_small_numbers events ≡ true }
{}

/// A text that is refused is refused with reason 1 or 3, or in version 3 with reason 4, behind no more entries than it has lines.
pub fn a_refusal_has_its_reason()
    ensures reason { (plan : Plan) (text : List ℕ) (entry reason : ℕ) → journal_of plan text ≡ Err (entry, reason) → IsReason plan reason }
    ensures entry { (plan : Plan) (text : List ℕ) (entry reason : ℕ) → journal_of plan text ≡ Err (entry, reason)
        → entry ≤ length (lines_of text) }
{}
