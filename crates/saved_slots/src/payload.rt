//! What is saved: bytes, given piece by piece, so that no second copy of them all is needed.
ghost use Rattle.std.specs.Prelude.{◌≡◌, ◌<◌, ◌^◌, ℕ, List, [], ◌∷◌, length, slice_index_or, OnOk};
ghost use Rattle.std.specs.List.{concat};
ghost use Rattle.std.proofs.Common.{append-nil};

use std::alloc::AllocError;

/// Bytes in pieces. A length of 2^63 bytes is more than memory has.
pub trait Payload {
    /// Its bytes.
    ghost bytes: { Self → List ℕ };

    /// Its pieces, in order.
    ghost pieces: { Self → List (List ℕ) };

    /// How many bytes there are.
    fn count_bytes(&self) -> u64
        ensures many { result ≡ length (bytes self.now) }
        ensures short { result < 2 ^ 63 };

    /// How many pieces there are.
    fn count_pieces(&self) -> u64
        ensures { result ≡ length (pieces self.now) };

    /// Puts the piece of a number, from 0 on, in the place of what the buffer had. It may want memory.
    fn give_piece(&self, number: u64, buf: &mut Vec<u8>) -> Result<(), AllocError>
        requires { number < length (pieces self.now) }
        ensures { OnOk result ((other : List ℕ) → buf.new.items ≡ slice_index_or (pieces self.now) number other) };

    /// The pieces, one behind another, are the bytes.
    ghost joined: { (payload : Self) → concat (pieces payload) ≡ bytes payload };
}

// One piece.
impl Payload for &[u8] {
    ghost bytes = { λ slice. slice.now };

    ghost pieces = { λ slice. slice.now ∷ [] };

    ghost joined = { λ slice. append-nil slice.now };

    fn count_bytes(&self) -> u64 {
        let bytes: &[u8] = self;
        bytes.len() as u64
    }

    fn count_pieces(&self) -> u64 {
        1
    }

    fn give_piece(&self, _number: u64, buf: &mut Vec<u8>) -> Result<(), AllocError> {
        buf.clear();
        buf.extend_from_slice(self)?;
        Ok(())
    }
}
