//! Lists of frames, read.
ghost use Rattle.std.specs.Prelude.{◌≡◌, ℕ, Some, drop, IfOk, IfErr};
ghost use Rattle.frame_lists.specs.Lists as spec;

use crate::faults::ListFault;
use crate::sorts::Sort;
use std::alloc::Global;
use stream_codec::decoding::decode;
use stream_codec::faults::DecodeFault;

/// What the first frame holds, and the bytes behind it, where it is a frame of the sort; `count` stand before it.
fn next_part<'a, T, S: Sort<T>>(
    alloc: Global,
    sort: &S,
    bytes: &'a [u8],
    count: u64,
) -> Result<(T, &'a [u8]), ListFault>
    ensures part { IfOk result (λ x. (n : ℕ) × (spec.part_at (S.part sort.now) bytes.now ≡ Some (x.0, n)) × (x.1.now ≡ drop n bytes.now)) }
    ensures none { IfErr result (spec.IsNone (spec.part_at (S.part sort.now) bytes.now) count) }
    ensures memory { IfErr result (spec.WantsMemory bytes.now) }
{
    match decode(alloc, bytes) {
        Ok((frame, taken)) => match sort.part(frame) {
            Some(part) => Ok((part, bytes.split_at(taken).1)),
            None => Err(ListFault::NoFrame(count)),
        },
        Err(DecodeFault::NoMemory) => Err(ListFault::NoMemory),
        Err(_) => Err(ListFault::NoFrame(count)),
    }
}

/// What frames of one sort hold that stand one behind another to the end of the bytes, or how many stand in front of the first place
/// where no such frame begins. Want of memory is told only where the bytes begin with a frame. It is one pass, and takes memory for what
/// they hold.
pub fn read_frames<T: Drop, S: Sort<T>>(
    alloc: Global,
    sort: &S,
    bytes: &[u8],
) -> Result<Vec<T>, ListFault>
    ensures { spec.IsList (spec.parts_of (S.part sort.now) bytes.now) bytes.now result }
{
    let mut parts = Vec::new(alloc);
    let mut rest = bytes;
    while !rest.is_empty() {
        let (part, behind) = next_part(alloc, sort, rest, parts.len() as u64)?;
        let Ok(()) = parts.push(part) else {
            return Err(ListFault::NoMemory);
        };
        rest = behind;
    }
    Ok(parts)
}
