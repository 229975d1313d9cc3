//! Saves one after another.
ghost use Rattle.std.specs.Prelude.{◌≡◌, ◌⊎◌, ◌<◌, ◌+◌, ◌^◌, ℕ, true, length, map, Some, None, Err, OnOk, OnErr, IsErrOf};
ghost use Rattle.saved_slots.specs.Series.{last_kept, first_too_long, GivesWay, IsCutShort};
ghost use Rattle.saved_slots.specs.Resting.{history_in, room_in, number_in, kept_in, faults_in, must_reopen, IsResting};
ghost use Rattle.saved_slots.specs.declared.fault.SaveFault.TheVariants.{NoMemory, DiskFault, Full, Broken, Reopen};

use crate::fault::SaveFault;
use crate::payload::Payload;
use crate::slots::SavedSlots;
use disk_model::disk::Disk;
use std::alloc::Global;

/// Saves each, up to the first that is refused. One that was acknowledged gives way only to what was saved later.
/// What an error says of the disk is what `save` says; `Full` tells what the first one needs that is too long.
pub fn save_each<D: Disk, P: Payload>(
    slots: &mut SavedSlots<D>,
    alloc: Global,
    payloads: &[P],
) -> Result<(), SaveFault>
    requires { number_in slots.old + length payloads.now < 2 ^ 64 }
    ensures rests { IsResting slots.old → OnOk result (IsResting slots.new) }
    ensures gives_way { IsResting slots.old → OnOk result (GivesWay (room_in slots.old) (kept_in slots.old) (map P.bytes payloads.now) (history_in slots.old) (history_in slots.new)) }
    ensures kept { IsResting slots.old → OnOk result (kept_in slots.new ≡ last_kept (kept_in slots.old) (map P.bytes payloads.now)) }
    ensures cut_short { IsResting slots.old → OnErr result (IsCutShort (room_in slots.old) (kept_in slots.old) (map P.bytes payloads.now) (history_in slots.old) (history_in slots.new)) }
    ensures disk_fault { IsErrOf result DiskFault → faults_in slots.old < faults_in slots.new }
    ensures fit { OnOk result (first_too_long (room_in slots.old) (map P.bytes payloads.now) ≡ None) }
    ensures full { (need room : ℕ) → result ≡ Err (Full need room) → (room ≡ room_in slots.old) × (first_too_long (room_in slots.old) (map P.bytes payloads.now) ≡ Some need) }
    ensures reopen { IsErrOf result Reopen → must_reopen slots.old ≡ true }
    ensures stopped { IsErrOf result DiskFault ⊎ IsErrOf result NoMemory → must_reopen slots.new ≡ true }
    ensures never_broken { (slot : ℕ) → IsErrOf result (Broken slot) → ⊥ }
{
    for payload in payloads {
        slots.save(alloc, payload)?;
    }
    Ok(())
}
