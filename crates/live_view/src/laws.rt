//! What follows of looks, and which items may be told. Each function does nothing; its contract is the law.
ghost use Rattle.std.specs.Prelude.{◌≡◌, false, ℕ, ◌≤◌, ◌++◌, List, length, Some};
ghost use Rattle.dpc_lists.specs.Lists.{IsPrefixOf};
ghost use Rattle.dpc_model.specs.Reading.{Reader, Folded, fold_items};
ghost use Rattle.dpc_model.specs.declared.plans.Plan.{Plan};
ghost use Rattle.dpc_model.specs.declared.tuples.Item.{Item};
ghost use Rattle.dpc_model.specs.declared.tuples.Tuple.{Tuple};
ghost use Rattle.node_model.specs.Clients.{ClientState, client_stream, reader_of};
ghost use Rattle.world_model.specs.Safe.{IsSafeClient};
ghost use Rattle.live_view.specs.Telling.{GoOn, stable_tuples, greatest_bound};
ghost use Rattle.live_view.specs.Tellers.{TellerState, new_teller, told};
ghost use Rattle.live_view.specs.Looking.{IsLook};

/// Of two looks at a client's stream from one number, the one that counts no more shows a beginning of what the other
/// shows.
pub fn a_lesser_look_begins_a_greater()
    ensures { (plan : Plan) (c from count bound more later : ℕ) (xs ys : List Tuple) → IsLook plan c from count bound xs → IsLook plan c from more later ys → count ≤ more
        → IsPrefixOf xs ys }
{}

/// The items that a reader took may be told one after the other, from its number of stable tuples on. They tell what it
/// then holds.
pub fn taken_items_go_on()
    ensures go_on { (r : Reader) (items : List Item) (f : Folded) → fold_items r items ≡ Some f → GoOn (length r.stable) f.taken }
    ensures stable { (r : Reader) (items : List Item) (f : Folded) → fold_items r items ≡ Some f → f.after.stable ≡ r.stable ++ stable_tuples f.taken }
    ensures bound { (r : Reader) (items : List Item) (f : Folded) → fold_items r items ≡ Some f → f.after.bound ≡ greatest_bound r.bound f.taken }
{}

/// Items that go on are all told.
pub fn items_that_go_on_are_told()
    ensures { (t : TellerState) (items : List Item) → GoOn (length t.tuples) items
        → told items t ≡ record t { tuples = t.tuples ++ stable_tuples items; bound = greatest_bound t.bound items } }
{}

/// Items tell the same in two parts, and take nothing away.
pub fn items_are_told_in_parts()
    ensures same { (t : TellerState) (xs ys : List Item) → told (xs ++ ys) t ≡ told ys (told xs t) }
    ensures tuples { (t : TellerState) (items : List Item) → IsPrefixOf t.tuples (told items t).tuples }
    ensures bound { (t : TellerState) (items : List Item) → t.bound ≤ (told items t).bound }
{}

/// What a safe client took tells what it holds. Where more, or less, was told before, nothing of that is wanting then.
pub fn a_client_is_told()
    ensures held { (plan : Plan) (c : ℕ) (x : ClientState) → IsSafeClient plan (client_stream plan c) x
        → told x.taken (new_teller c) ≡ record { client = c; tuples = (reader_of x).stable; bound = (reader_of x).bound; spent = false } }
    ensures count { (plan : Plan) (c : ℕ) (x : ClientState) (t : TellerState) → IsSafeClient plan (client_stream plan c) x
        → length (reader_of x).stable ≤ length (told x.taken t).tuples }
    ensures bound { (plan : Plan) (c : ℕ) (x : ClientState) (t : TellerState) → IsSafeClient plan (client_stream plan c) x
        → (reader_of x).bound ≤ (told x.taken t).bound }
{}
