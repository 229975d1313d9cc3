//! Where bytes come from.
ghost use Rattle.std.specs.Prelude.{◌≡◌, ◌<◌, ◌≤◌, length, take, IfOk, OnErr};
ghost use Rattle.std.specs.Io.KnownBytes.{IsAtEnd};
ghost use Rattle.dpc_edge.specs.Edges.{Edge, Gave, Fails};

use crate::faults::Failed;

/// Gives bytes, once each and in order.
pub trait Source {
    /// The bytes that were not read yet, where the source tells them, and how many calls failed.
    ghost edge: { Self → Edge };

    /// Puts the next bytes at the front of the buffer, and answers how many there are. `Ok(0)` into a
    /// buffer that is not empty is the end of the input. What stands behind them is left open.
    fn read(&mut self, buffer: &mut [u8]) -> Result<usize, Failed>
        ensures bound { IfOk result (λ n. n ≤ length buffer.new) }
        ensures gave { IfOk result (λ n. Gave (edge self.old) (edge self.new) (take n buffer.new)) }
        ensures end { result ≡ Ok 0 → 0 < length buffer.new → IsAtEnd (edge self.new).bytes }

        // A failed call takes nothing.
        ensures failed { OnErr result (Fails (edge self.old) (edge self.new)) };
}
