//! What the laws on sessions left open: the first session, who asked for the others, and where tentative tuples came from.
#![tactic(auto)]

ghost use Rattle.std.specs.Prelude.{◌≡◌, ℕ, List, Some};
ghost use Rattle.dpc_model.specs.declared.messages.Event.{Event};
ghost use Rattle.dpc_model.specs.declared.plans.Plan.{Plan};
ghost use Rattle.dpc_model.specs.declared.scripts.Script.{Script};
ghost use Rattle.script_rules.specs.Reading.{read};
ghost use Rattle.script_rules.specs.Checking.{IsChecked};
ghost use Rattle.law_safety.specs.Plans.{IsCheckedPlan};
ghost use Rattle.law_session_origins.specs.FirstSession.{FirstIsNeverAsked, FirstIsOpening, FirstStaysShut, FirstPrefixTaken};
ghost use Rattle.law_session_origins.specs.Asking.{AreOpenedByAsking};
ghost use Rattle.law_session_origins.specs.Standing.{TakenStood, AllTakenStood};
ghost use Rattle.law_session_origins.specs.Numbers.{HasNumbers, ReadsOnce, FindsSenders};

/// No envelope of any run asks for session (1, 1).
pub fn the_first_is_never_asked_for()
    ensures { (plan : Plan) (events : List Event) → FirstIsNeverAsked plan events }
{}

/// So the subscription that opened it is the opening's.
pub fn the_first_is_opened_by_the_opening()
    ensures { (plan : Plan) (events : List Event) → FirstIsOpening plan events }
{}

/// And once it is not open, it never is again.
pub fn the_first_is_not_opened_again()
    ensures { (plan : Plan) (events more : List Event) → IsCheckedPlan plan → FirstStaysShut plan events more }
{}

/// Each other session that a sender keeps open was opened by a subscription that its reader sent to it.
pub fn the_others_were_asked_for()
    ensures { (plan : Plan) (events : List Event) → IsCheckedPlan plan → AreOpenedByAsking plan events }
{}

/// The batches that a port took in session (1, 1) are the first ones that its replica sent in it, in order, each once.
pub fn a_prefix_of_the_first_is_taken()
    ensures { (plan : Plan) (events : List Event) → IsCheckedPlan plan → FirstPrefixTaken plan events }
{}

/// Each tentative tuple that a client takes came in an envelope that was sent while the tuple stood in its sender's tentative output.
pub fn taken_tentative_tuples_stood()
    ensures { (plan : Plan) (events : List Event) (e : Event) → IsCheckedPlan plan → TakenStood plan events e }
{}

/// And so did each of all those that it took in a run.
pub fn all_taken_tentative_tuples_stood()
    ensures { (plan : Plan) (events : List Event) → IsCheckedPlan plan → AllTakenStood plan events }
{}

/// A source is the only sender of its stream, the replicas of a fragment are consecutive actors, and readers come in this order too.
pub fn actors_have_numbers()
    ensures { (plan : Plan) → HasNumbers plan }
{}

/// No actor of a checked script reads a stream at two ports.
pub fn a_checked_script_reads_once()
    ensures { (s : Script) → IsChecked s → ReadsOnce s.plan }
{}

/// Nor does one of the script that a text is read as.
pub fn what_is_read_reads_once()
    ensures { (text : List ℕ) (s : Script) → read text ≡ Some s → ReadsOnce s.plan }
{}

/// So a reader finds each sender at its port, under its number.
pub fn each_sender_has_its_port()
    ensures { (plan : Plan) → ReadsOnce plan → FindsSenders plan }
{}
