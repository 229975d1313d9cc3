//! What is asked of one inlet.
ghost use Rattle.std.specs.Prelude.{◌≡◌};
ghost use Rattle.dpc_model.specs.Inlets.{InletState};
ghost use Rattle.dpc_model.specs.PartStands.{StandsForInlet};
ghost use Rattle.dpc_model.specs.Streams.{InOrder, count_below};

use inlet::inlet::Inlet;

/// How many stable tuples lie below a time, where those that were dropped do.
pub(crate) fn count_done(inlet: &Inlet, time: u128) -> u64
    ensures { (x : InletState) → InOrder x.held.stable → StandsForInlet time inlet.now x → result ≡ count_below x.held.stable time }
{
    let kept = inlet.kept();
    let after = kept.len() - kept.count_below(time);
    inlet.count().saturating_sub(after as u64)
}
