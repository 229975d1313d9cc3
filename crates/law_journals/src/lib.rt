//! What replays, pairs of runs and saved points ask of journals: what was taken, where a replay stops, what snapshots say, and which
//! numbers there are.
#![tactic(auto)]

ghost use Rattle.std.specs.Prelude.{◌≡◌, ◌↔◌, ℕ, ◌^◌, ◌<◌, ◌≤◌, true, false, List, [], ◌++◌, ◌∷◌, length, None};
ghost use Rattle.dpc_lists.specs.Lists.{IsPrefixOf};
ghost use Rattle.dpc_model.specs.Actors.{roles_of};
ghost use Rattle.dpc_model.specs.declared.messages.Event.{Event};
ghost use Rattle.dpc_model.specs.declared.plans.Plan.{Plan};
ghost use Rattle.dpc_model.specs.declared.scripts.Script.{Script};
ghost use Rattle.node_model.specs.Clients.{client_stream};
ghost use Rattle.world_model.specs.Worlds.{World, Sums, client_at, happens, run, passes_limit, excess};
ghost use Rattle.world_model.specs.Schedules.{progress, is_live_so_far};
ghost use Rattle.world_model.specs.Replays.{Refused, Passes, Unfinished, Whole, replay_from, replay_end};
ghost use Rattle.world_model.specs.Safe.{AreTrueItems};
ghost use Rattle.script_rules.specs.Checking.{IsChecked};
ghost use Rattle.law_safety.specs.Plans.{IsCheckedPlan};
ghost use Rattle.law_schedules.specs.Journals.{IsClocked};
ghost use Rattle.law_session_origins.specs.Standing.{takes};
ghost use Rattle.law_journals.specs.Stops.{EndsWhole, EndsEarly, IsRefusedAt, PassesAt};
ghost use Rattle.law_journals.specs.Snapshots.{SnapshotsAreTrue};
ghost use Rattle.law_journals.specs.Prefixes.{PrefixesAreTaken};
ghost use Rattle.law_journals.specs.Views.{AreHeldAsAsked};
ghost use Rattle.law_journals.specs.Entries.{IsEntryOf, restarts_in, HasSmallNumbers, IsWithinLimits, most_actors};

/// Whatever event comes next, in whatever world, a client goes on with what it took before, so along a run too; and each item that it
/// took in a run is true.
pub fn a_client_takes_true_items()
    ensures more { (w : World) (e : Event) (c : ℕ) → (client_at (happens w e) c).taken ≡ (client_at w c).taken ++ takes w e c }
    ensures grows { (plan : Plan) (events later : List Event) (c : ℕ) →
        IsPrefixOf (client_at (run plan events) c).taken (client_at (run plan (events ++ later)) c).taken }
    ensures are_true { (plan : Plan) (events : List Event) (c : ℕ) → IsCheckedPlan plan →
        AreTrueItems plan (client_stream plan c) (client_at (run plan events) c).taken }
{}

/// A replay is whole exactly where the journal is live and no entry passes a limit; it is unfinished where the journal is live so far
/// and no more; else it stops at the first entry that may not come or would pass a limit. Behind a journal that is live so far and
/// passes no limit it goes on from there; an entry that passes none leaves it so.
pub fn a_replay_stops_where_it_must()
    ensures whole { (script : Script) (events : List Event) → (replay_end script events ≡ Whole) ↔ EndsWhole script events }
    ensures unfinished { (script : Script) (events : List Event) → (replay_end script events ≡ Unfinished) ↔ EndsEarly script events }
    ensures refused { (script : Script) (events : List Event) (k : ℕ) →
        (replay_end script events ≡ Refused k) ↔ IsRefusedAt script events k }
    ensures passes { (script : Script) (events : List Event) (k : ℕ) (reached : Sums) →
        (replay_end script events ≡ Passes k reached) ↔ PassesAt script events k reached }
    ensures on { (script : Script) (events more : List Event) → is_live_so_far script events ≡ true → excess script.plan events ≡ None →
        replay_end script (events ++ more) ≡ replay_from script (progress script events) (length events) more }
    ensures within { (plan : Plan) (events : List Event) (e : Event) → excess plan events ≡ None →
        passes_limit (run plan events) e ≡ false → excess plan (events ++ e ∷ []) ≡ None }
{}

/// What a node that is up and does not recover says in a snapshot agrees with the failure-free run.
pub fn snapshots_of_what_does_not_recover_are_true()
    ensures { (plan : Plan) (events : List Event) → IsCheckedPlan plan → SnapshotsAreTrue plan events }
{}

/// Each entry of a journal that is live so far, of a checked script, names actors of its sort: a source with a time from 1 to end, two
/// actors with a link, a node with its next incarnation, an envelope that was sent and can come, an actor that is up with its phase's
/// clock, a node that is up with buckets that may be milled. No more than 96 actors are there, and in a journal that passes no limit
/// all numbers are below 2^63: there are at most 8,000,000 envelopes and 4,000,000 items. A checked script's clocks do not fall, and
/// stay in range through the quiet phases.
pub fn entries_name_what_is_there()
    ensures entry { (script : Script) (events : List Event) (e : Event) (more : List Event) → IsChecked script →
        is_live_so_far script (events ++ e ∷ more) ≡ true → IsEntryOf script events e }
    ensures numbers { (script : Script) (events : List Event) (e : Event) (more : List Event) → IsChecked script →
        is_live_so_far script (events ++ e ∷ more) ≡ true → excess script.plan events ≡ None → length events < 2 ^ 62 →
        HasSmallNumbers script.plan e }
    ensures actors { (script : Script) → IsChecked script → length (roles_of script.plan) ≤ most_actors }
    ensures restarts { (events : List Event) → restarts_in events ≤ length events }
    ensures limits { (plan : Plan) (events : List Event) → excess plan events ≡ None → IsWithinLimits (run plan events) }
    ensures clocked { (script : Script) → IsChecked script → IsClocked script }
{}

/// In every journal that is live so far, of a checked script, the batches that a reader took in its session are the first ones that its
/// sender sent in it, in order, each once, whatever session it is.
pub fn a_prefix_of_each_session_is_taken()
    ensures { (script : Script) (events : List Event) → IsChecked script → is_live_so_far script events ≡ true →
        PrefixesAreTaken script.plan events }
{}

/// So a port that took as many batches of its session as its sender sent in it holds the sender's view, from what it held when it asked
/// for the session, by the subscription that opened it, which its reader sent to the sender where it isn't the opening's.
pub fn readers_hold_the_view_as_they_asked()
    ensures { (script : Script) (events : List Event) → IsChecked script → is_live_so_far script events ≡ true →
        AreHeldAsAsked script.plan events }
{}
