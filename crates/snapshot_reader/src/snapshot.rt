//! Snapshots, read.
ghost use Rattle.std.specs.Prelude.{◌≡◌, ◌<◌, length, [], Some, None, IfOk, IsErrOf};
ghost use Rattle.dpc_model.specs.Fragments.{AreSoundFrags};
ghost use Rattle.snapshot_form.specs.Reading.{snapshot_in, whole_snapshot};
ghost use Rattle.snapshot_reader.specs.Told.{IsTold};

use crate::bytes::Bytes;
use crate::faults::ReadFault;
use crate::plain::{Plain, read_plain};
use dpc_model::plans::Plan;
use fragment_mill::mill::FragMill;
use fragment_mill::states::{MillParts, PartsFault};
use pipeline::snapshots::Snapshot;
use std::alloc::Global;

/// The snapshot that plain data is, where it can be one of a plan's fragment.
fn made_of(alloc: Global, plan: &Plan, frag: u64, plain: Plain) -> Result<Snapshot, ReadFault>
    requires known { frag < length plan.now.frags }
    requires sound { AreSoundFrags plan.now.frags }
    ensures { IsTold (whole_snapshot plan.now frag (Some (plain, []))) result }
{
    let ports = plan.frags.as_slice()[frag as usize].inputs.len();
    let Plain {
        cursor,
        counts,
        base,
        kept,
        operators,
    } = plain;
    if counts.len() != ports || base.checked_add(kept.len() as u64).is_none() {
        return Err(ReadFault::NoReading);
    }
    let parts = MillParts {
        next: cursor,
        operators,
    };
    match FragMill::from_parts(alloc, plan, frag, parts) {
        Ok(mill) => Ok(Snapshot::from_parts(cursor, counts, mill, base, kept)),
        Err(PartsFault::NoMemory) => Err(ReadFault::NoMemory),
        Err(PartsFault::BadShape(_)) => Err(ReadFault::NoReading),
    }
}

/// The snapshot of fragment `frag` of a plan that these bytes are, whatever bytes they are. `NoReading` says that they are none: they end
/// early or go on behind it; a frame is no tuple's; the byte of a form is none; there is not one count for each port; the kept tuples'
/// numbers pass 2^64; or an operator can't have had its state before the bucket at the cursor. `NoMemory` says nothing of the bytes. It
/// is one pass, and believes no count: memory is taken for what was read alone.
pub fn read_snapshot(
    alloc: Global,
    plan: &Plan,
    frag: u64,
    bytes: &[u8],
) -> Result<Snapshot, ReadFault>
    requires known { frag < length plan.now.frags }
    requires sound { AreSoundFrags plan.now.frags }
    ensures reading { IfOk result (λ s. snapshot_in plan.now frag bytes.now ≡ Some s) }
    ensures none { IsErrOf result ReadFault.NoReading → snapshot_in plan.now frag bytes.now ≡ None }
{
    let ops = plan.frags.as_slice()[frag as usize].ops.as_slice();
    let mut bytes = Bytes::new(bytes);
    let plain = read_plain(alloc, &mut bytes, ops)?;
    if !bytes.is_at_end() {
        return Err(ReadFault::NoReading);
    }
    made_of(alloc, plan, frag, plain)
}
