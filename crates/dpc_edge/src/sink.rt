//! Where bytes go to.
ghost use Rattle.std.specs.Prelude.{◌<◌, ◌≤◌, length, take, IfOk, OnErr};
ghost use Rattle.dpc_edge.specs.Edges.{Edge, Took, Fails};

use crate::faults::Failed;

/// Takes bytes, in order.
pub trait Sink {
    /// The bytes that were taken, where the sink tells them, and how many calls failed.
    ghost edge: { Self → Edge };

    /// Takes the first bytes of a piece, and answers how many: at least one of a piece that is not
    /// empty.
    fn write(&mut self, piece: &[u8]) -> Result<usize, Failed>
        ensures bound { IfOk result (λ n. n ≤ length piece.now) }
        ensures some { IfOk result (λ n. 0 < length piece.now → 0 < n) }
        ensures took { IfOk result (λ n. Took (edge self.old) (edge self.new) (take n piece.now)) }

        // A failed call takes nothing.
        ensures failed { OnErr result (Fails (edge self.old) (edge self.new)) };
}
