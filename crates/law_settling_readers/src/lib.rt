//! What the readers of a fragment come to, all of whose replicas have finished: sessions are asked for once and answered in one
//! incarnation, who took all batches of a finished replica has the whole stream, and every reader comes to that.
#![tactic(auto)]

ghost use Rattle.std.specs.Prelude.{List};
ghost use Rattle.dpc_model.specs.declared.messages.Event.{Event};
ghost use Rattle.dpc_model.specs.declared.plans.Plan.{Plan};
ghost use Rattle.dpc_model.specs.declared.scripts.Script.{Script};
ghost use Rattle.law_safety.specs.Plans.{IsCheckedPlan};
ghost use Rattle.law_settling_readers.specs.Asked.{AreAskedOnce, AreAnsweredOnce};
ghost use Rattle.law_settling_readers.specs.Streams.{TakersHaveAll, RestingReaderHasStream, ReadersHaveStreams};

/// In a run the senders of a stream are asked for each session of its only port by one envelope.
pub fn sessions_are_asked_for_once()
    ensures { (plan : Plan) (events : List Event) → IsCheckedPlan plan → AreAskedOnce plan events }
{}

/// In a live journal each session was answered in one incarnation of each sender of its stream: an envelope comes in one phase only,
/// and no node goes down or comes back in a phase behind its first delivery.
pub fn sessions_are_answered_in_one_incarnation()
    ensures { (script : Script) (events : List Event) → AreAnsweredOnce script events }
{}

/// In a live journal a port that took as many batches as a finished replica sent in its session has the whole failure-free stream,
/// and nothing that may be corrected.
pub fn takers_of_a_finished_replica_have_the_stream()
    ensures { (script : Script) (events : List Event) → TakersHaveAll script events }
{}

/// Where all replicas of a fragment have finished from some point on, and a reader of it, a node or a client, does not recover behind the
/// point's phase and misses no three beats in a row of one of several replicas: each of its ports that reads the fragment has the whole
/// failure-free stream 3R + 12 phases later. The run need be live so far alone, and whether others recover does not matter.
pub fn a_reader_that_rests_has_the_stream()
    ensures { (script : Script) (events : List Event) → RestingReaderHasStream script events }
{}

/// Past the last recovery, where all replicas of a fragment have finished from some point on, each port that reads the fragment, of a
/// node or a client, has its whole failure-free stream 3R + 12 phases later, and nothing that may be corrected, whatever was lost before.
pub fn readers_of_finished_fragments_have_the_stream()
    ensures { (script : Script) (events : List Event) → ReadersHaveStreams script events }
{}
