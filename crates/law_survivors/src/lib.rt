//! A replica that a script never crashes never recovers, whoever else is crashed: what its senders forget it holds. So a script that
//! crashes at most one replica of each fragment settles.
#![tactic(auto)]

ghost use Rattle.std.specs.Prelude.{List};
ghost use Rattle.dpc_model.specs.declared.messages.Event.{Event};
ghost use Rattle.dpc_model.specs.declared.scripts.Script.{Script};
ghost use Rattle.law_survivors.specs.Spared.{SparedStandWhole, KeepsOneWhole, SendersKeepForSpared, SnapshotsSuffice, SparedAreNotRefused, HearWhole, RefusedAreNotAnswered, AckedIsDone, KnowsPresently, KnowNoMore, KeptWhileRecovering, NoneStartsAfresh, StandsOnceTicked, NeverAgain, BeginsOnce, EndsInTime, RecoversTogether, BeginnersLack, RestsOnceWhole};
ghost use Rattle.law_survivors.specs.Finishing.{FedFragmentsFinish, AllFragmentsFinish, SettlesWithCrashes};

/// In every live run a replica that the script never crashes is up at each point, and does not recover, whichever others are crashed, of
/// its own fragment and of those that it reads.
pub fn the_spared_never_recover()
    ensures { (script : Script) (events : List Event) → SparedStandWhole script events }
{}

/// So where a script keeps one replica of each fragment, which one reads off it, each fragment has one that stays up and never recovers.
pub fn each_fragment_keeps_a_whole_one()
    ensures { (script : Script) → KeepsOneWhole script }
{}

/// What the replicas of a fragment may forget, and what was acknowledged to them by such a reader, is at most what the reader holds, in
/// each replica that is up, in each snapshot that one of them sent, and in each acknowledgement under way.
pub fn senders_keep_for_the_spared()
    ensures { (script : Script) (events : List Event) → SendersKeepForSpared script events }
{}

/// It is even at most what a snapshot of the reader carries: whoever goes on from one lacks nothing that was forgotten when it was made.
pub fn snapshots_of_the_spared_suffice()
    ensures { (script : Script) (events : List Event) → SnapshotsSuffice script events }
{}

/// So none of them ever refuses such a reader its present session.
pub fn the_spared_are_not_refused()
    ensures { (script : Script) (events : List Event) → SparedAreNotRefused script events }
{}

/// No other replica of its fragment ever heard that a replica which the script never crashes recovers, whatever it missed.
pub fn the_spared_are_heard_whole()
    ensures { (script : Script) (events : List Event) → HearWhole script events }
{}

/// A session that a replica refused a reader, whichever of them was crashed, it never answers by a batch, neither before nor after.
pub fn refused_sessions_are_not_answered()
    ensures { (script : Script) (events : List Event) → RefusedAreNotAnswered script events }
{}

/// What a replica that recovers acknowledged in its present incarnation, a replica of its fragment that the script never crashes has
/// processed: so a snapshot of that one lies at or above all that senders may forget on the word of the first one.
pub fn the_spared_have_done_what_others_acknowledged()
    ensures { (script : Script) (events : List Event) → AckedIsDone script events }
{}

/// In a live run whose quiet phases open well, from the fourth of them on, what a replica knows a node that reads it to have acknowledged
/// was acknowledged in the node's present incarnation, or is nothing: no number of an earlier incarnation lets it forget more.
pub fn acknowledgements_are_of_the_present_incarnation()
    ensures { (script : Script) (events : List Event) → KnowsPresently script events }
{}

/// So while a replica recovers, what its senders know it to have acknowledged a replica of its fragment that the script never crashes
/// has processed: a snapshot of that one lies at or above all that they may forget before the first one acknowledges again.
pub fn senders_know_no_more_of_one_that_recovers()
    ensures { (script : Script) (events : List Event) → KnowNoMore script events }
{}

/// And as long as it recovers they forget no more: what that other replica had processed at a point of the fourth quiet phase or behind
/// it, and so what a snapshot of that point carries, stays at or above all bases, in snapshots too.
pub fn senders_keep_for_one_that_recovers()
    ensures { (script : Script) (events : List Event) → KeptWhileRecovering script events }
{}

/// Past the first quiet phase of the one-thread journal no replica that recovers starts afresh, where another one of its fragment is
/// never crashed.
pub fn nobody_starts_afresh()
    ensures { (script : Script) → NoneStartsAfresh script }
{}

/// Who goes on from a snapshot that such a replica made for it in the fourth quiet phase or behind it, and does not recover before its next
/// tick, never recovers again: it holds what its senders may forget, and the sessions that it opens then are new to them.
pub fn who_goes_on_from_a_good_snapshot_stands_once_it_ticks()
    ensures { (script : Script) (events : List Event) → StandsOnceTicked script events }
{}

/// In the one-thread journal nothing that could make it recover comes before that tick. So whoever goes on from such a snapshot never
/// recovers again.
pub fn who_goes_on_from_a_good_snapshot_never_recovers_again()
    ensures { (script : Script) → NeverAgain script }
{}

/// Where the script crashes at most one replica of each fragment, and another one is there, no replica begins twice to recover from the
/// fourth quiet phase of the one-thread journal on: it goes on from the snapshot of one that is never crashed, made behind its beginning.
pub fn no_replica_begins_twice_to_recover()
    ensures { (script : Script) → BeginsOnce script }
{}

/// In quiet phases of the one-thread journal a replica that recovers beside one which the script never crashes goes on within three phases:
/// its asks are answered in the next one, and the answer comes in the one behind that, or once more for a refusal that came late.
pub fn recoveries_end_in_time()
    ensures { (script : Script) → EndsInTime script }
{}

/// So all points past the seventh quiet phase of such a run at which a replica recovers lie within three phases: it begins once, and ends
/// in time.
pub fn recoveries_of_a_replica_lie_together()
    ensures { (script : Script) → RecoversTogether script }
{}

/// Whoever begins to recover beside a replica that the script never crashes, and ticked since it last recovered, lacks something of the
/// stream of a fragment that it reads: who holds whole streams is never refused them.
pub fn who_begins_to_recover_lacks_something()
    ensures { (script : Script) (events : List Event) → BeginnersLack script events }
{}

/// And where it holds whole streams whenever it did not recover for so many phases, counted from some phase past the seventh quiet one, it
/// recovers no more so many and four phases behind that one.
pub fn recoveries_are_over_once_streams_are_whole()
    ensures { (script : Script) → RestsOnceWhole script }
{}

/// Where the script crashes at most one replica of each fragment, and all replicas of those that a fragment reads have finished from some
/// phase on, past the seventh quiet one: all of its own have finished 2 (3M + 12) + R (3R + 9) + 5 phases later, for good, M being the most
/// replicas of one that it reads and R its own. Those that were crashed have gone on from a good snapshot, and recover no more.
pub fn fragments_whose_inputs_have_finished_finish()
    ensures { (script : Script) → FedFragmentsFinish script }
{}

/// So one fragment after another finishes: the first f of them 38 f (R + 1) phases behind the eighth quiet one, R being the most replicas of
/// one.
pub fn all_fragments_finish()
    ensures { (script : Script) → AllFragmentsFinish script }
{}

/// A script that mends what it breaks, crashes at most one replica of each fragment, of which another one is there, and ends with `settle`
/// settles, whatever it lost, cut, crashed and held back: every client has its whole stream at the end of the one-thread run, and the
/// program's answer is not 4.
pub fn a_script_that_crashes_one_replica_of_each_settles()
    ensures { (script : Script) → SettlesWithCrashes script }
{}
