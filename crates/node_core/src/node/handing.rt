//! Work and snapshots that a node hands out, and going on from a snapshot.
ghost use Rattle.std.specs.Prelude.{◌≡◌, ◌↔◌, false, true, ℕ, Err, IsTrue, is_err, IfOk, OnOk};
ghost use Rattle.dpc_model.specs.Sessions.{view_items};
ghost use Rattle.dpc_model.specs.declared.faults.StepFault.TheVariants as fault;
ghost use Rattle.node_model.specs.Mails.{Snap};
ghost use Rattle.node_model.specs.Nodes.{Home, PlainNode, spec_of, shown};
ghost use Rattle.node_model.specs.NodeSteps.{snapshot, after_adoption};
ghost use Rattle.pipeline.specs.Recovery.{StandsForSnapshot};
ghost use Rattle.node_model.specs.Fitting.{IsFit};
ghost use Rattle.node_core.specs.Milling.{CanMillNode, IsOrderOf};
ghost use Rattle.node_core.specs.Standing.{StandsForNode};
ghost use Rattle.node_core.specs.Stepping.{IsSound, CanAdopt};

use crate::node::Node;
use dpc_model::faults::StepFault;
use dpc_model::tuples::Items;
use fragment_mill::mill::FragMill;
use mill_work::order::Order;
use pipeline::snapshots::Snapshot;
use std::alloc::Global;

impl Node {
    /// The next `count` ready buckets with a copy of the engine at the cursor, for work that is done apart.
    pub fn order(&self, alloc: Global, count: u64) -> Result<Order<FragMill>, StepFault>
        requires { self.now.spent ≡ false → CanMillNode count self.now }
        ensures order { IfOk result (λ o. IsOrderOf self.now count o) }
        ensures spent { result ≡ Err fault.Spent ↔ self.now.spent ≡ true }
    {
        if self.spent {
            return Err(StepFault::Spent);
        }
        let Ok((before, buckets)) = self.path.work(alloc, count) else {
            return Err(StepFault::NoMemory);
        };
        Ok(Order {
            node: self.links.own(),
            inc: self.links.inc(),
            cursor: self.cursor(),
            before,
            buckets,
        })
    }

    /// A snapshot of a node that does not recover.
    pub fn snapshot(&self, alloc: Global) -> Result<Snapshot, StepFault>
        requires { self.now.spent ≡ false → IsSound self.now }
        ensures snapshot { IfOk result (λ s. (home : Home) (p : PlainNode) → StandsForNode home self.now p
            → IsFit home p → StandsForSnapshot (spec_of home).ops home.plan.width s (snapshot home p)) }
        ensures spent { result ≡ Err fault.Spent ↔ self.now.spent ≡ true }
    {
        if self.spent {
            return Err(StepFault::Spent);
        }
        let Ok(snapshot) = self.path.snapshot(alloc) else {
            return Err(StepFault::NoMemory);
        };
        Ok(snapshot)
    }

    /// What a reader that holds nothing tentative is sent first, where it asks for all that is kept.
    pub fn view(&self, alloc: Global) -> Result<Items, StepFault>
        ensures view { IfOk result (λ items. (home : Home) (p : PlainNode) → StandsForNode home self.now p
            → items ≡ view_items (shown home p)) }
        ensures spent { result ≡ Err fault.Spent ↔ self.now.spent ≡ true }
    {
        if self.spent {
            return Err(StepFault::Spent);
        }
        let Ok(items) = self.path.view(alloc) else {
            return Err(StepFault::NoMemory);
        };
        Ok(items)
    }

    /// A recovering node goes on from a snapshot.
    pub fn adopt(&mut self, alloc: Global, snapshot: &Snapshot) -> Result<(), StepFault>
        requires recovering { self.old.recovering ≡ true }
        requires can { self.old.spent ≡ false → (home : Home) × (p : PlainNode) × (s : Snap) × CanAdopt self.old snapshot.now home p s }
        ensures after { OnOk result ((home : Home) → (p : PlainNode) → (s : Snap)
            → CanAdopt self.old snapshot.now home p s → StandsForNode home self.new (after_adoption home s p)) }
        ensures spent { result ≡ Err fault.Spent ↔ self.old.spent ≡ true }
        ensures stays { IsTrue self.new.spent ↔ IsTrue (is_err result) }
    {
        if self.spent {
            return Err(StepFault::Spent);
        }
        let Ok(()) = self.go_on_from(alloc, snapshot) else {
            self.spent = true;
            return Err(StepFault::NoMemory);
        };
        Ok(())
    }
}
