//! What is printed of a live journal is read back, and so are its frames.
#![tactic(auto)]

ghost use Rattle.std.specs.Prelude.{◌≡◌, ◌∷◌, [], ◌++◌, ◌<◌, ◌^◌, ℕ, true, false, List, None, Some, length, Ok, Err};
ghost use Rattle.dpc_lists.specs.Lists.{list_all};
ghost use Rattle.dpc_model.specs.declared.messages.Event.{Event};
ghost use Rattle.dpc_model.specs.declared.scripts.Script.{Script};
ghost use Rattle.script_rules.specs.Checking.{IsChecked};
ghost use Rattle.script_rules.specs.Reading.{read};
ghost use Rattle.world_model.specs.Worlds.{excess};
ghost use Rattle.world_model.specs.Schedules.{is_live_so_far, is_live};
ghost use Rattle.world_model.specs.Replays.{Whole, replay_end};
ghost use Rattle.stream_codec.specs.Frames.{is_in_range};
ghost use Rattle.stream_codec.specs.declared.frames.Frame.TheVariants as frame;
ghost use Rattle.journal_text.specs.Entries.{is_named, has_small_numbers};
ghost use Rattle.journal_text.specs.Journals.{journal_text};
ghost use Rattle.journal_inputs.specs.Inputs.{input_of};
ghost use Rattle.journal_inputs.specs.Framed.{framed_input_of, framed_text};
ghost use Rattle.journal_inputs.specs.declared.faults.Refusal.TheVariants as refused;

/// The entries of a journal that is live so far, of a checked script, name actors of their forms' sorts; in one that passes no limit
/// and has less than 2^62 entries they have numbers of 64 bits.
pub fn entries_of_live_journals_are_printable()
    ensures named { (script : Script) (events : List Event) → IsChecked script → is_live_so_far script events ≡ true
        → list_all (is_named script.plan) events ≡ true }
    ensures small { (script : Script) (events : List Event) → IsChecked script → is_live_so_far script events ≡ true
        → excess script.plan events ≡ None → length events < 2 ^ 62 → list_all has_small_numbers events ≡ true }
{}

/// They are in the ranges of frames too.
pub fn entries_of_live_journals_are_in_range()
    ensures { (script : Script) (events : List Event) → IsChecked script → is_live_so_far script events ≡ true
        → excess script.plan events ≡ None → length events < 2 ^ 62 → list_all (λ e. is_in_range (frame.Entry e)) events ≡ true }
{}

/// So the text of such a journal with its end, behind the text that its script was read from, is read back as both, where that ends
/// with a line feed; without its end it is refused there with reason 3, behind all its entries. Its frames, behind that text, are
/// read back as both too. And its replay is whole, where the journal is live to its end.
pub fn printed_live_journals_are_read_back()
    ensures whole { (front text : List ℕ) (script : Script) (events : List Event) → text ≡ front ++ 10 ∷ []
        → read text ≡ Some script → is_live_so_far script events ≡ true → excess script.plan events ≡ None → length events < 2 ^ 62
        → input_of (text ++ journal_text script.plan events true) ≡ Ok (script, events) }
    ensures unfinished { (front text : List ℕ) (script : Script) (events : List Event) → text ≡ front ++ 10 ∷ []
        → read text ≡ Some script → is_live_so_far script events ≡ true → excess script.plan events ≡ None → length events < 2 ^ 62
        → input_of (text ++ journal_text script.plan events false) ≡ Err (refused.Journal (length events) 3) }
    ensures framed { (front text : List ℕ) (script : Script) (events : List Event) → text ≡ front ++ 10 ∷ []
        → read text ≡ Some script → is_live_so_far script events ≡ true → excess script.plan events ≡ None → length events < 2 ^ 62
        → framed_input_of (text ++ framed_text events) ≡ Ok (script, events) }
    ensures ended { (script : Script) (events : List Event) → is_live script events ≡ true → excess script.plan events ≡ None
        → replay_end script events ≡ Whole }
{}
