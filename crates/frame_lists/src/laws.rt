//! What holds of every list of frames.
ghost use Rattle.std.specs.Prelude.{◌≡◌, ◌<◌, ℕ, true, List, All, Ok};
ghost use Rattle.dpc_lists.specs.Lists.{list_all};
ghost use Rattle.dpc_model.specs.declared.messages.Event.{Event};
ghost use Rattle.dpc_model.specs.declared.tuples.Item.{Item};
ghost use Rattle.frame_lists.specs.Lists.{entry_frames, item_frames, entry_in, item_in, parts_of};
ghost use Rattle.stream_codec.specs.Frames.{is_in_range};
ghost use Rattle.stream_codec.specs.declared.frames.Frame.TheVariants as frame;

/// The frames of entries in range are read back as these entries, and those of items as these items.
pub fn what_is_written_is_read_back()
    ensures entries { (events : List Event) → list_all (λ e. is_in_range (frame.Entry e)) events ≡ true
        → parts_of entry_in (entry_frames events) ≡ Ok events }
    ensures items { (items : List Item) → list_all (λ i. is_in_range (frame.Item i)) items ≡ true
        → parts_of (item_in true) (item_frames items) ≡ Ok items }
{}

/// And bytes that are read as entries, or as items, are their frames, and no other bytes are read as them.
pub fn what_is_read_is_what_is_written()
    ensures entries { (bytes : List ℕ) (events : List Event) → All (λ b. b < 256) bytes → parts_of entry_in bytes ≡ Ok events
        → bytes ≡ entry_frames events }
    ensures items { (bytes : List ℕ) (items : List Item) → All (λ b. b < 256) bytes → parts_of (item_in true) bytes ≡ Ok items
        → bytes ≡ item_frames items }
{}
