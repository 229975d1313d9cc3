//! The engine, lent for work that is done apart, and put back.
ghost use Rattle.std.specs.Prelude.{◌≡◌, ◌↔◌, false, true, Err, IfOk, OnOk};
ghost use Rattle.dpc_model.specs.declared.faults.StepFault.TheVariants as fault;
ghost use Rattle.node_model.specs.Fitting.{IsFit};
ghost use Rattle.node_model.specs.Nodes.{Home, PlainNode, spec_of};
ghost use Rattle.node_core.specs.declared.faults.CommitFault.TheVariants as commit;
ghost use Rattle.node_core.specs.declared.faults.Point.{Point};
ghost use Rattle.node_core.specs.Lending.{IsPutBack, WasStaleInNumbers};
ghost use Rattle.node_core.specs.Milling.{CanMillNode, IsBeside, IsKnownAt, IsOrderOf, IsWorkAt};
ghost use Rattle.node_core.specs.Standing.{StandsForNode};
ghost use Rattle.pipeline.specs.Flowing.{IsMillOf};

use crate::faults::{CommitFault, Point, is_stale, needed_when_done};
use crate::node::Node;
use crate::packets::Mail;
use dpc_model::faults::StepFault;
use fragment_mill::mill::FragMill;
use mill_work::lending::Done;
use mill_work::order::Order;
use std::alloc::Global;

impl Node {
    /// The next `count` ready buckets with the engine at the cursor itself, for work that is done apart. Until
    /// the work is put back, or the node begins anew, a spare engine of the same operators stands in its place.
    /// What contracts see stays, also where it wants memory. Whatever needs the engine while it is out wants
    /// memory, and so does this.
    pub fn lend(
        &mut self,
        alloc: Global,
        count: u64,
        spare: FragMill,
    ) -> Result<Order<FragMill>, StepFault>
        requires can { self.old.spent ≡ false → CanMillNode count self.old }
        requires spare { self.old.spent ≡ false → (home : Home) × (p : PlainNode) × StandsForNode home self.old p
            × IsMillOf (spec_of home).ops home.plan.width spare }
        ensures order { IfOk result (λ o. IsOrderOf self.old count o) }
        ensures stays { self.new ≡ self.old }
        ensures spent { result ≡ Err fault.Spent ↔ self.old.spent ≡ true }
    {
        if self.spent {
            return Err(StepFault::Spent);
        }
        let Ok((before, buckets)) = self.path.lend(alloc, count, spare) else {
            return Err(StepFault::NoMemory);
        };
        Ok(Order {
            node: self.links.own(),
            inc: self.links.inc(),
            cursor: self.cursor(),
            before,
            buckets,
        })
    }

    /// Compares the node with work that was done on its own engine, by numbers alone: stale exactly where the
    /// node stands elsewhere than where it was lent. Nothing changes, and it takes no memory.
    pub fn compare_done(&self, done: &Done<FragMill>) -> Result<(), CommitFault>
        ensures ok { OnOk result ((home : Home) (p : PlainNode) → StandsForNode home self.now p → IsFit home p
            → IsKnownAt home p done.now.order → IsWorkAt home p done.now.order) }
        ensures stale { (had needed : Point) → result ≡ Err (commit.Stale had needed)
            → WasStaleInNumbers done.now.order self.now self.now had needed }
        ensures spent { result ≡ Err commit.Spent ↔ self.now.spent ≡ true }
        ensures enough { result ≡ Err commit.NoMemory → ⊥ }
    {
        if self.spent {
            return Err(CommitFault::Spent);
        }
        let had = self.point_in_numbers(done);
        let needed = needed_when_done(done);
        if is_stale(had, needed) {
            return Err(CommitFault::Stale { had, needed });
        }
        Ok(())
    }

    /// Puts work back that was done on the node's own engine: exactly the step of `mill`, where the node still
    /// stands where it was lent. Where that is stale nothing changes.
    pub fn put_back(
        &mut self,
        alloc: Global,
        done: Done<FragMill>,
    ) -> Result<Vec<Mail>, CommitFault>
        requires { self.old.spent ≡ false → (home : Home) × (p : PlainNode) × StandsForNode home self.old p × IsFit home p
            × IsKnownAt home p done.order }
        ensures ok { IfOk result (λ mails. IsPutBack done.order self.old self.new mails.items) }
        ensures stale { (had needed : Point) → result ≡ Err (commit.Stale had needed)
            → WasStaleInNumbers done.order self.old self.new had needed }
        ensures spent { result ≡ Err commit.Spent ↔ self.old.spent ≡ true }
        ensures lost { result ≡ Err commit.NoMemory → self.new.spent ≡ true }
        ensures kept { IfOk result (λ mails. self.new.spent ≡ false) }
        ensures stays { result ≡ Err commit.Spent → self.new ≡ self.old }
    {
        if let Err(fault) = self.compare_done(&done) {
            return Err(fault);
        }
        let count = done.count();
        let (after, outputs) = done.into_parts();
        let Ok(mails) = self.put(alloc, after, outputs, count) else {
            self.spent = true;
            return Err(CommitFault::NoMemory);
        };
        Ok(mails)
    }

    /// Where the node stands beside work that was done on its own engine, by numbers alone.
    fn point_in_numbers(&self, done: &Done<FragMill>) -> Point
        ensures { (home : Home) (p : PlainNode) → StandsForNode home self.now p → IsKnownAt home p done.now.order
            → IsBeside home p done.now.order result }
    {
        let cursor = self.cursor();
        let ready = self.ready();
        Point {
            up: true,
            inc: self.links.inc(),
            cursor,
            ready,
            fits: done.cursor() == cursor && done.count() <= ready,
        }
    }
}
