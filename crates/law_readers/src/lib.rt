//! What every run keeps between senders and readers: what sources send, what may be forgotten, which sessions are known, and
//! what a reader holds that took all of its sender's batches.
#![tactic(auto)]

ghost use Rattle.std.specs.Prelude.{List};
ghost use Rattle.dpc_model.specs.declared.messages.Event.{Event};
ghost use Rattle.dpc_model.specs.declared.plans.Plan.{Plan};
ghost use Rattle.law_safety.specs.Plans.{IsCheckedPlan};
ghost use Rattle.law_readers.specs.Sure.{SourcesAreSure};
ghost use Rattle.law_readers.specs.Counts.{ClientsAreKeptFor};
ghost use Rattle.law_readers.specs.Newest.{NoneIsNewer};
ghost use Rattle.law_readers.specs.Held.{PortsHaveRead, ViewsAreHeld};

/// A source sends nothing that may be corrected: beats, and batches of stable tuples and boundaries. A reader that asked with
/// tentative tuples is told first that they go, and last that the corrections end.
pub fn sources_send_what_stays()
    ensures { (plan : Plan) (events : List Event) → SourcesAreSure plan events }
{}

/// What a replica forgets, or leaves out of a snapshot, each client of its output holds: the base is at most each client's
/// count, and so is what the client told of it.
pub fn clients_are_kept_for()
    ensures { (plan : Plan) (events : List Event) → IsCheckedPlan plan → ClientsAreKeptFor plan events }
{}

/// Of the only port of a stream no session is known that is newer than the port's own: not at the stream's senders, in no
/// subscription, and in no batch. While the reader is down, none is of an incarnation that it did not reach.
pub fn no_known_session_is_newer()
    ensures { (plan : Plan) (events : List Event) → IsCheckedPlan plan → NoneIsNewer plan events }
{}

/// The only port of a stream that misses no batch holds what it held when it asked for its session, read on with the first
/// batches of the session; and what it held then is what it told the senders of the stream.
pub fn ports_hold_what_they_read()
    ensures { (plan : Plan) (events : List Event) → IsCheckedPlan plan → PortsHaveRead plan events }
{}

/// A port that took as many batches of its session as the sender that it reads sent in it holds the sender's view, from what it held
/// when it asked, which fits the subscription that opened the session, where the session was answered in one incarnation of the sender.
pub fn readers_hold_the_view()
    ensures { (plan : Plan) (events : List Event) → IsCheckedPlan plan → ViewsAreHeld plan events }
{}
