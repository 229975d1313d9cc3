//! How a node's data path is made, lost, and taken over.
ghost use Rattle.std.specs.Prelude.{◌≡◌, ◌*◌, ◌^◌, ◌<◌, List, length, slice_get, Some, IfOk, OnOk};
ghost use Rattle.dpc_model.specs.Fragments.{AreSoundFrags};
ghost use Rattle.dpc_model.specs.Parts.{Inputs, Outputs, AreInOrder};
ghost use Rattle.dpc_model.specs.declared.operators.OpSpec.{OpSpec};
ghost use Rattle.dpc_model.specs.declared.plans.FragSpec.{FragSpec};
ghost use Rattle.node_model.specs.Mails.{Snap};
ghost use Rattle.sunion.specs.Laws.{new_inputs};
ghost use Rattle.pipeline.specs.Flowing.{StandsForData, IsSetAs};
ghost use Rattle.pipeline.specs.Recovery.{IsSetFor, opened_outputs, restarted_inputs, restarted_outputs, lost_inputs, lost_outputs, StandsForSnapshot, snap_of, CanAdopt, adopted_inputs, adopted_outputs};

use crate::beginning::{first_mill, first_output, zeros};
use crate::counting::done_counts;
use crate::pipeline::Pipeline;
use crate::snapshots::{Snapshot, copied};
use checkpoint_redo::keeper::Keeper;
use dpc_lists::exact::Exact;
use dpc_lists::faults::NoMemory;
use dpc_lists::lists::Listed;
use dpc_model::engines::Engine;
use dpc_model::plans::Plan;
use soutput::output::SOutput;
use std::alloc::Global;
use sunion::sunion::SUnion;

impl Pipeline {
    /// The data path of a fragment at the opening, with its output to so many readers. Where it serves,
    /// each reader's session is open.
    pub fn open(
        alloc: Global,
        plan: &Plan,
        frag: usize,
        readers: usize,
        serves: bool,
    ) -> Result<Pipeline, NoMemory>
        requires known { frag < length plan.now.frags }
        requires sound { AreSoundFrags plan.now.frags }
        requires width { 0 < plan.now.width }
        ensures set { IfOk result (λ p. (f : FragSpec) → slice_get plan.now.frags frag ≡ Some f → IsSetFor plan.now f p) }
        ensures stands { IfOk result (λ p. (f : FragSpec) → slice_get plan.now.frags frag ≡ Some f
            → StandsForData f.ops p (new_inputs (length f.inputs) 1) (opened_outputs readers serves)) }
    {
        let spec = &plan.frags.as_slice()[frag];
        let delay = spec.delay.unwrap_or(plan.delay);
        let ports = spec.inputs.len();
        let inputs = SUnion::new(alloc, ports, plan.width, plan.end, delay, 1)?;
        let keeper = first_mill(alloc, plan, frag)?;
        let output = first_output(alloc, readers, serves)?;
        Ok(Pipeline {
            inputs,
            keeper,
            output,
            passing: plan.passing,
        })
    }

    /// The data path of a fragment in a later incarnation, before its ports ask for sessions.
    pub fn restart(
        alloc: Global,
        plan: &Plan,
        frag: usize,
        readers: usize,
        inc: u64,
    ) -> Result<Pipeline, NoMemory>
        requires known { frag < length plan.now.frags }
        requires sound { AreSoundFrags plan.now.frags }
        requires width { 0 < plan.now.width }
        ensures set { IfOk result (λ p. (f : FragSpec) → slice_get plan.now.frags frag ≡ Some f → IsSetFor plan.now f p) }
        ensures stands { IfOk result (λ p. (f : FragSpec) → slice_get plan.now.frags frag ≡ Some f
            → StandsForData f.ops p (restarted_inputs (length f.inputs) inc) (restarted_outputs readers)) }
    {
        let spec = &plan.frags.as_slice()[frag];
        let delay = spec.delay.unwrap_or(plan.delay);
        let counts = zeros(alloc, spec.inputs.len())?;
        let counts = counts.as_slice();
        let inputs = SUnion::start_at(alloc, plan.width, plan.end, delay, inc, 0, counts)?;
        let keeper = first_mill(alloc, plan, frag)?;
        let output = SOutput::new(alloc, readers)?;
        Ok(Pipeline {
            inputs,
            keeper,
            output,
            passing: plan.passing,
        })
    }

    /// Loses all that is held, but the number of each port's last session and each reader's newest one.
    pub fn lose(&mut self, alloc: Global) -> Result<(), NoMemory>
        ensures fixed { OnOk result (IsSetAs self.old self.new) }
        ensures lost { OnOk result ((ops : List OpSpec) → (x : Inputs) → (o : Outputs) → StandsForData ops self.old x o
            → StandsForData ops self.new (lost_inputs x) (lost_outputs o)) }
    {
        let counts = zeros(alloc, self.inputs.ports())?;
        self.inputs.restart_at(alloc, 0, counts.as_slice())?;
        self.keeper.reset();
        let none = Listed::from_vec(Vec::new(alloc));
        self.output.restart_at(alloc, 0, none, 0)?;
        Ok(())
    }

    /// What stands at the cursor, for another data path to go on from.
    pub fn snapshot(&self, alloc: Global) -> Result<Snapshot, NoMemory>
        ensures { IfOk result (λ s. (ops : List OpSpec) → (x : Inputs) → (o : Outputs) → StandsForData ops self.now x o → AreInOrder x
            → StandsForSnapshot ops self.now.union.width s (snap_of self.now.union.width x o)) }
    {
        let counts = done_counts(alloc, &self.inputs)?;
        let Ok(mill) = self.keeper.stand(alloc) else {
            return Err(NoMemory);
        };
        let buffer = self.output.buffer();
        let base = buffer.base();
        let _count = buffer.count();
        let kept = copied(alloc, buffer.kept())?;
        Ok(Snapshot {
            cursor: self.inputs.cursor(),
            counts: Listed::from_vec(counts),
            mill,
            base,
            kept,
        })
    }

    /// Goes on from a snapshot. Each port keeps the number of its last session, and each reader its newest
    /// one.
    pub fn adopt(&mut self, alloc: Global, snapshot: &Snapshot) -> Result<(), NoMemory>
        requires ports { length snapshot.now.counts ≡ length self.old.union.union.inlets }
        requires range { snapshot.now.cursor * self.old.union.width < 2 ^ 64 }
        ensures fixed { OnOk result (IsSetAs self.old self.new) }
        ensures adopted { OnOk result ((ops : List OpSpec) → (x : Inputs) → (o : Outputs) → (s : Snap)
            → CanAdopt ops self.old x o snapshot.now s
            → StandsForData ops self.new (adopted_inputs self.old.union.width s x) (adopted_outputs s o)) }
    {
        let cursor = snapshot.cursor;
        let Ok(mill) = snapshot.mill.copy(alloc) else {
            return Err(NoMemory);
        };
        let kept = snapshot.kept.copy(alloc)?;
        let bound = cursor * self.inputs.width();
        self.inputs
            .restart_at(alloc, cursor, snapshot.counts.as_slice())?;
        self.keeper = Keeper::new(mill);
        self.output.restart_at(alloc, snapshot.base, kept, bound)?;
        Ok(())
    }
}
