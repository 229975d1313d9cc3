//! What is promised of an input that is answered. The function does nothing; its contract is the law.
ghost use Rattle.std.specs.Prelude.{ℕ, List};
ghost use Rattle.journal_commands.specs.Promises.{Holds};
ghost use Rattle.journal_commands.specs.declared.outcome.JournalCommand as command;

/// The run of a whole journal is safe, live to its end, within the limits, and leaves no client open where it is
/// steady and heals; a script that is upgraded has the same live journals, whose replays come to the same; and what
/// a verdict says of a recorded stream is so.
pub fn what_is_answered_holds()
    ensures { (what : command.JournalCommand) (input : List ℕ) → Holds what input }
{}
