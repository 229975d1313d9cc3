//! What a live run comes to in its quiet phases: they are full, what waits in one is delivered, sources are read, and replicas that
//! have their inputs finish.
#![tactic(auto)]

ghost use Rattle.std.specs.Prelude.{◌≡◌, ◌≤◌, ◌++◌, ℕ, List, length, IsTrue, ◌⊎◌};
ghost use Rattle.dpc_model.specs.declared.messages.Event.{Event};
ghost use Rattle.dpc_model.specs.declared.scripts.Script.{Script};
ghost use Rattle.world_model.specs.Schedules.{is_live, progress};
ghost use Rattle.law_settling.specs.Phased.{ArePhases, events_of, DeliversWaiting};
ghost use Rattle.law_settling.specs.Read.{ReaderHasLog, ReadsSources};
ghost use Rattle.law_settling.specs.Promised.{OverPromisesEnd};
ghost use Rattle.law_settling.specs.Finished.{RestingReplicaFinishes, WholeReplicasFinish};
ghost use Rattle.law_settling.specs.Entered.{OneRestingEnters, OneEnters, RestingReplicasFinish, ReplicasFinish};
ghost use Rattle.law_settling.specs.Firsts.{FirstFragmentsFinish};

/// A live journal is that of the script's phases, and then full quiet phases.
pub fn a_live_journal_has_phases()
    ensures { (script : Script) (events : List Event) → IsTrue (is_live script events) →
        ((progress script events).phase ≤ length script.phases)
        ⊎ ((before : List Event) × (phases : List (List Event)) × (events ≡ before ++ events_of (length script.phases) phases)
        × ((progress script before).phase ≡ length script.phases) × ArePhases script (progress script before) phases) }
{}

/// What was sent and waits in a quiet phase is delivered in the rest of that phase, or in the next one.
pub fn what_waits_is_delivered()
    ensures { (script : Script) (events : List Event) → DeliversWaiting script events }
{}

/// A reader, a node or a client, that does not recover past some quiet phase: each of its ports that reads a source has that source's
/// whole log and its last boundary eight phases later, and nothing that may be corrected, whatever was lost before. The run need be
/// live so far alone, and whether others recover does not matter.
pub fn a_reader_that_rests_has_its_logs()
    ensures { (script : Script) (events : List Event) → ReaderHasLog script events }
{}

/// Where nobody recovers past the first quiet phases, each port that reads a source has its whole log and its last boundary eight
/// phases later, whatever was lost before: ports of nodes as of clients. It holds nothing that may be corrected, and stays so.
pub fn sources_are_read()
    ensures { (script : Script) (events : List Event) → ReadsSources script events }
{}

/// An ask that is over in a quiet phase: once the next two phases have passed whole, no replica has a promise to it, nor to an
/// earlier ask of that replica. This needs no steadiness: beats are sent and heard in recoveries too.
pub fn promises_to_what_is_over_end()
    ensures { (script : Script) (events : List Event) → OverPromisesEnd script events }
{}

/// A replica that does not recover past some quiet phase, has all of its inputs when a later one opens, and is not UP_FAILURE then,
/// has processed every bucket stably when that phase is over, and stays so, whether others recover or not.
pub fn a_whole_replica_that_rests_finishes()
    ensures { (script : Script) (events : List Event) → RestingReplicaFinishes script events }
{}

/// Past the last recovery, a replica that has all of its inputs when a phase opens, and is not UP_FAILURE then, has processed
/// every bucket stably when the phase is over, and stays so: its output is the whole failure-free one, and it has nothing to correct.
pub fn whole_replicas_finish()
    ensures { (script : Script) (events : List Event) → WholeReplicasFinish script events }
{}

/// Where the replicas of a fragment do not recover past some quiet phase, and from a later point on have whole inputs, each of them has
/// finished or is UP_FAILURE there, and each heard of the others' asks that are over: 3R + 4 phases later one that was UP_FAILURE is so
/// no more. Whether other fragments' replicas recover does not matter.
pub fn one_replica_that_rests_enters()
    ensures { (script : Script) (events : List Event) → OneRestingEnters script events }
{}

/// Past the last recovery, where the replicas of a fragment have whole inputs from some point on, each of them has finished or is
/// UP_FAILURE, and each heard of the others' asks that are over: 3R + 4 phases later one that was UP_FAILURE is so no more.
pub fn one_replica_enters()
    ensures { (script : Script) (events : List Event) → OneEnters script events }
{}

/// Where the replicas of a fragment do not recover past some quiet phase, and have whole inputs from a later point on: R(3R + 9) + 2
/// phases behind that all of them have finished. The run need be live so far alone.
pub fn replicas_that_rest_finish()
    ensures { (script : Script) (events : List Event) → RestingReplicasFinish script events }
{}

/// Past the last recovery, where the replicas of a fragment have whole inputs from some point on: R(3R + 9) + 2 phases later all of
/// them have finished: each is STABLE, its output is the whole failure-free one, and it has nothing to correct.
pub fn all_replicas_finish()
    ensures { (script : Script) (events : List Event) → ReplicasFinish script events }
{}

/// The replicas of a fragment that reads sources alone have finished R(3R + 9) + 2 phases after the sources were read.
pub fn first_fragments_finish()
    ensures { (script : Script) (events : List Event) → FirstFragmentsFinish script events }
{}
