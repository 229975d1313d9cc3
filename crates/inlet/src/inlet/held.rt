//! What an inlet holds of its stream.
ghost use Rattle.std.specs.Prelude.{◌≡◌, ◌+◌, not, length, IsTrue};
ghost use Rattle.dpc_model.specs.Reading.{is_sure};
ghost use Rattle.dpc_model.specs.Streams.{InOrder};
ghost use Rattle.dpc_model.specs.PartStands.{with_stable};
ghost use Rattle.inlet.specs.Forgotten.{HasRoom, from_first};

use crate::inlet::Inlet;
use dpc_model::tuples::Tuple;
use held_tuples::held::HeldTuples;

impl Inlet {
    /// Lets the first stable tuples go that are below a time; how many were let go in all. Where tuples are
    /// in order of time, none below `time` is kept, and so many of the stream lie below it.
    pub fn drop_below(&mut self, time: u64) -> u64
        ensures after { self.new ≡ record self.old { state = with_stable (from_first time self.old.state.held.stable) self.old.state } }
        ensures gone { result + length self.new.state.held.stable ≡ self.new.count }
    {
        self.kept.drop_below(time);
        self.count - self.kept.len() as u64
    }

    /// How many stable tuples there were, dropped ones among them.
    pub fn count(&self) -> u64
        ensures { result ≡ self.now.count }
    {
        self.count
    }

    /// Whether no number passes its range by a batch of so many items.
    pub fn has_room(&self, items: usize) -> bool
        ensures yes { IsTrue result → HasRoom self.now items }
        ensures no { HasRoom self.now items → IsTrue result }
    {
        self.count.checked_add(items as u64).is_some() && self.next < u64::MAX
    }

    /// Up to where the stable tuples are known to be all.
    pub fn bound(&self) -> u64
        ensures { result ≡ self.now.state.held.bound }
    {
        self.bound
    }

    /// How far tentative output goes.
    pub fn passed(&self) -> u64
        ensures { result ≡ self.now.state.held.passed }
    {
        self.passed
    }

    /// Whether something tentative is held or known of.
    pub fn unsure(&self) -> bool
        ensures { result ≡ not (is_sure self.now.state.held) }
    {
        !self.tentative.is_empty() || self.passed != 0
    }

    /// The tentative tuples.
    pub fn tentative(&self) -> &[Tuple]
        ensures { result.now ≡ self.now.state.held.tentative }
    {
        self.tentative.as_slice()
    }

    /// Whether the tentative tuples are known to be in order of time. They are but where a sender that
    /// restarted was answered twice in one session.
    pub fn is_tentative_in_order(&self) -> bool
        ensures { IsTrue result → InOrder self.now.state.held.tentative }
    {
        self.tentative.is_in_order()
    }

    /// The last stable tuples, from the first one on that was not dropped.
    pub fn kept(&self) -> &HeldTuples
        ensures { result.now ≡ self.now.state.held.stable }
    {
        &self.kept
    }
}
