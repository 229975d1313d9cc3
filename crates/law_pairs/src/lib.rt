//! What holds of the stream that is made of two clients of one stream, in every run.
#![tactic(auto)]

ghost use Rattle.std.specs.Prelude.{◌≡◌, ℕ, ◌<◌, List, [], ◌∷◌, ◌++◌, length};
ghost use Rattle.dpc_model.specs.Reading.{empty_reader};
ghost use Rattle.dpc_model.specs.declared.messages.Event.{Event};
ghost use Rattle.dpc_model.specs.declared.plans.Plan.{Plan};
ghost use Rattle.world_model.specs.Worlds.{client_at, happens, run};
ghost use Rattle.law_safety.specs.Plans.{IsCheckedPlan};
ghost use Rattle.law_session_origins.specs.Standing.{takes};
ghost use Rattle.law_pairs.specs.Pairs.{held_at, told_of, pair_items, AreReaders, GoTogether, IsOneStream};

/// Nothing is told before the first event, and each event adds what leads from the merge before it to the merge after it.
pub fn an_event_adds_to_the_stream()
    ensures none { (plan : Plan) (x y : ℕ) → pair_items plan [] x y ≡ [] }
    ensures one { (plan : Plan) (events : List Event) (e : Event) (x y : ℕ) →
        pair_items plan (events ++ e ∷ []) x y ≡ pair_items plan events x y ++ told_of (run plan events) e x y }
{}

/// A client begins with nothing taken and nothing held, and at each event goes on by what it takes. Two of one stream never part: one's stable tuples begin with
/// the other's.
pub fn two_clients_go_together()
    ensures taken { (plan : Plan) (c : ℕ) → (client_at (run plan []) c).taken ≡ [] }
    ensures held { (plan : Plan) (c : ℕ) → held_at (run plan []) c ≡ empty_reader }
    ensures next { (plan : Plan) (events : List Event) (e : Event) (x y : ℕ) → IsCheckedPlan plan → AreReaders plan x y →
        GoTogether (run plan events) e x y }
{}

/// An event at which a client takes nothing leaves what it holds, and one at which neither takes anything adds nothing.
pub fn nothing_is_told_of_nothing()
    ensures held { (plan : Plan) (events : List Event) (e : Event) (c : ℕ) → IsCheckedPlan plan → c < length plan.clients →
        takes (run plan events) e c ≡ [] → held_at (happens (run plan events) e) c ≡ held_at (run plan events) c }
    ensures told { (plan : Plan) (events : List Event) (e : Event) (x y : ℕ) → IsCheckedPlan plan → AreReaders plan x y →
        takes (run plan events) e x ≡ [] → takes (run plan events) e y ≡ [] → told_of (run plan events) e x y ≡ [] }
{}

/// Whatever happens, the stream of two clients is one that a single client could have had: each item has a reading, the stable tuples and
/// boundaries are the failure-free ones, and no tentative tuple is told that neither of the two took.
pub fn two_clients_make_one_stream()
    ensures { (plan : Plan) (events : List Event) (x y : ℕ) → IsCheckedPlan plan → AreReaders plan x y → IsOneStream plan events x y }
{}
