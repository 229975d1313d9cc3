//! A snapshot as what is saved.
ghost use Rattle.std.specs.Prelude.{◌≡◌, ◌≤◌, ◌^◌, length, IfOk, OnErr};
ghost use Rattle.snapshot_form.specs.Bytes.{snapshot_bytes};

use crate::counting::count_snapshot;
use crate::writing::{count_kept_pieces, put_piece};
use dpc_lists::faults::NoMemory;
use pipeline::snapshots::Snapshot;
use saved_slots::payload::Payload;
use std::alloc::AllocError;
use std::marker::Model;

/// A snapshot as what is saved, with the count of its bytes. Contracts see the snapshot. Its pieces are the head, the
/// kept tuples, 512 to a piece, and what each operator keeps.
#[derive(Drop)]
pub struct SnapshotPayload<'a> {
    snapshot: &'a Snapshot,
    count: u64,
}

impl<'a> Model for SnapshotPayload<'a> {
    ghost use Rattle.std.specs.Coded.{codes};
    ghost use Rattle.std.specs.Prelude.{◌≡◌, ◌<◌, ◌^◌, length};
    ghost use Rattle.dpc_model.specs.FormulaCode.{coded_formula};
    ghost use Rattle.fragment_mill.specs.Mills.{MillState};
    ghost use Rattle.node_model.specs.Stands.{SnapValue};
    ghost use Rattle.snapshot_form.specs.Bytes.{snapshot_bytes};

    ghost Value = { SnapValue MillState };

    ghost coded = { Prim.hlevel (codes, coded_formula) };

    ghost view = { λ payload. payload.snapshot.now };

    ghost invariant = { λ payload. (payload.count ≡ length (snapshot_bytes payload.snapshot.now)) × (payload.count < 2 ^ 63) };
}

impl<'a> SnapshotPayload<'a> {
    /// Counts its bytes, and takes no memory. A count of 2^63 or more is more than memory has, and the only error.
    pub fn new(snapshot: &'a Snapshot) -> Result<SnapshotPayload<'a>, NoMemory>
        ensures holds { IfOk result (λ payload. payload ≡ snapshot.now) }
        ensures long { OnErr result (2 ^ 63 ≤ length (snapshot_bytes snapshot.now)) }
    {
        let count = count_snapshot(snapshot);
        if count >= 1 << 63 {
            return Err(NoMemory);
        }
        Ok(SnapshotPayload { snapshot, count })
    }
}

impl Payload for SnapshotPayload<'_> {
    ghost use Rattle.snapshot_form.specs.Bytes.{snapshot_bytes};
    ghost use Rattle.snapshot_form.specs.Pieces.{pieces_of};
    ghost use Rattle.snapshot_form.proofs.Pieces.{pieces-joined};

    ghost bytes = { λ payload. snapshot_bytes payload };

    ghost pieces = { λ payload. pieces_of payload };

    ghost joined = { λ payload. pieces-joined payload };

    fn count_bytes(&self) -> u64 {
        self.count
    }

    fn count_pieces(&self) -> u64 {
        let kept = count_kept_pieces(self.snapshot.kept_count());
        1 + kept + self.snapshot.mill().operator_count() as u64
    }

    fn give_piece(&self, number: u64, buf: &mut Vec<u8>) -> Result<(), AllocError> {
        buf.clear();
        match put_piece(buf, self.snapshot, number) {
            Ok(()) => Ok(()),
            Err(NoMemory) => Err(AllocError),
        }
    }
}
