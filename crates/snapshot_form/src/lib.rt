//! Snapshots as bytes: what stands for one, and that it is read back.
#![tactic(auto)]

ghost use Rattle.std.specs.Prelude.{◌≡◌, ◌<◌, ℕ, List, All, Some};
ghost use Rattle.std.specs.List.{concat};
ghost use Rattle.dpc_model.specs.declared.plans.Plan.{Plan};
ghost use Rattle.node_model.specs.Stands.{SnapValue};
ghost use Rattle.fragment_mill.specs.Mills.{MillState};
ghost use Rattle.snapshot_form.specs.Bytes.{snapshot_bytes};
ghost use Rattle.snapshot_form.specs.Pieces.{pieces_of};
ghost use Rattle.snapshot_form.specs.Reading.{snapshot_in};
ghost use Rattle.snapshot_form.specs.Savable.{IsSavable};

/// The bytes of a snapshot are read back as that snapshot.
pub fn what_is_saved_is_read_back()
    ensures { (plan : Plan) (frag : ℕ) (s : SnapValue MillState) → IsSavable plan frag s → snapshot_in plan frag (snapshot_bytes s) ≡ Some s }
{}

/// And bytes that are read as a snapshot of a plan's fragment are just its bytes: no other bytes are read as it.
pub fn what_is_read_is_what_is_saved()
    ensures { (plan : Plan) (frag : ℕ) (bytes : List ℕ) (s : SnapValue MillState) → All (λ b. b < 256) bytes → snapshot_in plan frag bytes ≡ Some s → bytes ≡ snapshot_bytes s }
{}

/// The pieces in which a snapshot is saved, one behind another, are its bytes.
pub fn the_pieces_are_the_bytes()
    ensures { (s : SnapValue MillState) → concat (pieces_of s) ≡ snapshot_bytes s }
{}
