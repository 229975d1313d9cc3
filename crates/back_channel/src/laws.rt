//! What holds of the items that are told of two readers.
ghost use Rattle.std.specs.Prelude.{◌≡◌, List, length, take, Contains};
ghost use Rattle.dpc_model.specs.Reading.{Reader};
ghost use Rattle.dpc_model.specs.declared.tuples.Item.{Item};
ghost use Rattle.dpc_model.specs.declared.tuples.Tuple.{Tuple};
ghost use Rattle.back_channel.specs.Merging.{Merged, merge, items_between, Leaves, OneBegins};
ghost use Rattle.back_channel.specs.Standing.{StandsFor};
ghost use Rattle.back_channel.specs.declared.pair.Pair.{Pair};
ghost use Rattle.back_channel.specs.Told.{Goes, IsLater, IsOfOne, reader_of};

/// The items from a merge to a later one have a reading each, behind all that were told before, and leave a reader that
/// held the one merge with the other.
pub fn items_lead_from_merge_to_merge()
    ensures { (old new : Merged) → IsLater old new → Leaves (reader_of old) (items_between old new) (reader_of new) }
{}

/// Readers that go on give later merges.
pub fn merges_go_on()
    ensures { (x y x' y' : Reader) → Goes x x' → Goes y y' → OneBegins x.stable y.stable → OneBegins x'.stable y'.stable
        → IsLater (merge x y) (merge x' y') }
{}

/// So what is told of readers that go on has a reading each, and leaves a reader of the merge before with the merge after.
pub fn a_reader_of_the_merge_goes_on()
    ensures { (x y x' y' : Reader) → Goes x x' → Goes y y' → OneBegins x.stable y.stable → OneBegins x'.stable y'.stable
        → Leaves (reader_of (merge x y)) (items_between (merge x y) (merge x' y')) (reader_of (merge x' y')) }
{}

/// Nothing is told but what a reader holds: each stable tuple stands at its number in the stable list of one of the two,
/// and each tentative one among the tentative tuples of one. A boundary that is told is the greater one of both, and counts
/// the stable tuples below it.
pub fn told_tuples_are_of_one_reader()
    ensures { (x y x' y' : Reader) (item : Item) → Goes x x' → Goes y y' → OneBegins x.stable y.stable → OneBegins x'.stable y'.stable
        → Contains (items_between (merge x y) (merge x' y')) item → IsOfOne x' y' item }
{}

/// Where the stable tuples of both are a beginning of one list, so are those of the merge.
pub fn a_merge_begins_what_both_begin()
    ensures { (x y : Reader) (ts : List Tuple) → x.stable ≡ take (length x.stable) ts → y.stable ≡ take (length y.stable) ts
        → (merge x y).stable ≡ take (length (merge x y).stable) ts }
{}

/// Of two readers that a pair stands for one's stable list begins with the other's.
pub fn readers_of_a_pair_go_together()
    ensures { (pair : Pair) (x y : Reader) → StandsFor pair x y → OneBegins x.stable y.stable }
{}
