//! Whole inputs, over sources that move pieces.
ghost use Rattle.std.specs.Prelude.{◌≡◌, ◌≢◌, ◌+◌, ◌^◌, ◌<◌, ◌≤◌, ◌++◌, ℕ, List, take, length, vec_len, IfOk, OnOk, OnErr, Err};
ghost use Rattle.std.specs.Io.KnownBytes.{IsAtEnd};
ghost use Rattle.dpc_edge.specs.Faults.{Rises};
ghost use Rattle.dpc_edge.specs.Edges.{Gave};
ghost use Rattle.borealis_top.specs.Transfers.{GaveAtMost};

use dpc_edge::faults::Failed;
use dpc_edge::source::Source;
use std::alloc::{AllocError, Global};

/// The longest script, in bytes: 64 MiB.
pub const MOST_INPUT: usize = 1 << 26;

/// The longest script with a journal behind it, in bytes: 512 MiB.
pub const MOST_JOURNAL_INPUT: usize = 1 << 29;

/// The most bytes that one read asks for.
const PIECE: usize = 1 << 16;

/// Why an input was not read whole.
#[derive(Clone, Copy, PartialEq, Eq, Debug)]
pub enum InputFault {
    NoMemory,
    /// The source failed.
    Failed,
    /// It is longer than the longest input. One byte past that was read.
    TooLong,
}

impl From<Failed> for InputFault {
    ghost use Rattle.borealis_top.specs.declared.transfer.InputFault.TheVariants as input;

    ghost from_gives = { λ _ fault. fault ≡ input.Failed };

    fn from(_failed: Failed) -> InputFault {
        InputFault::Failed
    }
}

impl From<AllocError> for InputFault {
    ghost use Rattle.borealis_top.specs.declared.transfer.InputFault.TheVariants as input;

    ghost from_gives = { λ _ fault. fault ≡ input.NoMemory };

    fn from(_fault: AllocError) -> InputFault {
        InputFault::NoMemory
    }
}

/// Room for one piece.
fn piece_room(alloc: Global) -> Result<Vec<u8>, AllocError>
    ensures { IfOk result (λ room. vec_len room ≡ PIECE) }
{
    vec![in alloc; 0u8; PIECE]
}

/// Reads the next bytes into a buffer, appends them, and answers how many there are.
fn read_more<S: Source>(
    input: &mut S,
    buffer: &mut [u8],
    bytes: &mut Vec<u8>,
) -> Result<usize, InputFault>
    ensures bound { IfOk result (λ n. n ≤ length buffer.new) }
    ensures gave { IfOk result (λ n. Gave (S.edge input.old) (S.edge input.new) (take n buffer.new)) }
    ensures bytes { IfOk result (λ n. bytes.new.items ≡ bytes.old.items ++ take n buffer.new) }
    ensures end { result ≡ Ok 0 → 0 < length buffer.old → IsAtEnd (S.edge input.new).bytes }
    ensures failed { result ≡ Err InputFault.Failed → Rises (S.edge input.old).faults (S.edge input.new).faults }
    ensures others { result ≢ Err InputFault.Failed → (S.edge input.new).faults ≡ (S.edge input.old).faults }
    ensures long { result ≢ Err InputFault.TooLong }
    ensures most { OnErr result (GaveAtMost (length buffer.old) (S.edge input.old) (S.edge input.new)) }
{
    let given = input.read(buffer)?;
    bytes.extend_from_slice(&buffer[..given])?;
    Ok(given)
}

/// Reads an input to its end, or to one byte past the longest, which has `longest` bytes.
pub fn read_whole<S: Source>(
    alloc: Global,
    input: &mut S,
    longest: usize,
) -> Result<Vec<u8>, InputFault>
    requires { longest + 1 < 2 ^ 62 }
    ensures gave { IfOk result (λ bytes. Gave (S.edge input.old) (S.edge input.new) bytes.items) }
    ensures end { OnOk result (IsAtEnd (S.edge input.new).bytes) }
    ensures short { IfOk result (λ bytes. vec_len bytes ≤ longest) }
    ensures long { result ≡ Err InputFault.TooLong
        → (bytes : List ℕ) × Gave (S.edge input.old) (S.edge input.new) bytes × (length bytes ≡ longest + 1) }
    ensures failed { result ≡ Err InputFault.Failed → Rises (S.edge input.old).faults (S.edge input.new).faults }
    ensures others { result ≢ Err InputFault.Failed → (S.edge input.new).faults ≡ (S.edge input.old).faults }

    // Whatever ends it, at most one byte past the longest input is read.
    ensures most { OnErr result (GaveAtMost (longest + 1) (S.edge input.old) (S.edge input.new)) }
{
    let mut room = piece_room(alloc)?;
    let mut bytes = Vec::new(alloc);
    while bytes.len() <= longest {
        let most = PIECE.min(longest + 1 - bytes.len());
        if read_more(input, &mut room[..most], &mut bytes)? == 0 {
            return Ok(bytes);
        }
    }
    Err(InputFault::TooLong)
}
