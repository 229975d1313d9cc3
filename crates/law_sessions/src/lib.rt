//! What a session's reader gets, over every run of a checked plan; that no tentative tuple is invented, and nobody disagrees.
#![tactic(auto)]

ghost use Rattle.std.specs.Prelude.{List};
ghost use Rattle.dpc_model.specs.declared.messages.Event.{Event};
ghost use Rattle.dpc_model.specs.declared.plans.Plan.{Plan};
ghost use Rattle.law_safety.specs.Plans.{IsCheckedPlan};
ghost use Rattle.world_model.specs.SessionLaw.{Channel};
ghost use Rattle.law_sessions.specs.Laws.{SessionLaw, NoneIsInvented, WasAsked};
ghost use Rattle.law_sessions.specs.Agreement.{NoneDisagree};

/// Each reader that fits the subscription of an open session, and reads all that was sent in it, has the sender's view.
pub fn every_session_leaves_the_view()
    ensures { (plan : Plan) (events : List Event) → IsCheckedPlan plan → SessionLaw plan events }
{}

/// And that subscription is the opening's, or one that the reader sent to the sender.
pub fn every_session_was_asked_for()
    ensures { (plan : Plan) (events : List Event) (l : Channel) → WasAsked plan events l }
{}

/// Each tentative tuple that an event sends stands in its sender's tentative output after that event.
pub fn no_tuple_is_invented()
    ensures { (plan : Plan) (events : List Event) → IsCheckedPlan plan → NoneIsInvented plan events }
{}

/// Two stable lists of one stream, at readers or replicas, at whatever moments of whatever runs: one is a beginning of the other.
pub fn no_two_disagree()
    ensures { (plan : Plan) (events others : List Event) → IsCheckedPlan plan → NoneDisagree plan events others }
{}
