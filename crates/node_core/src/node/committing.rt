//! Work that was done apart and is put back.
ghost use Rattle.std.specs.Prelude.{◌≡◌, ◌↔◌, false, true, Err, IsTrue, IfOk, OnOk};
ghost use Rattle.node_model.specs.Nodes.{Home, PlainNode};
ghost use Rattle.node_model.specs.NodeSteps.{mill_step};
ghost use Rattle.node_model.specs.Fitting.{IsFit};
ghost use Rattle.node_core.specs.declared.faults.Point.{Point};
ghost use Rattle.node_core.specs.declared.faults.CommitFault.TheVariants as commit;
ghost use Rattle.node_core.specs.Milling.{CanPutAt, Fits, IsWorkAt, IsBeside, IsCommitted, WasStale};
ghost use Rattle.node_core.specs.Standing.{StandsForNode};
ghost use Rattle.node_core.specs.Stepping.{IsSound, IsTakenAs};

use crate::faults::{CommitFault, Point, is_stale, needed_by};
use crate::node::Node;
use crate::packets::Mail;
use crate::sending::to_readers;
use dpc_lists::faults::NoMemory;
use dpc_model::tuples::Tuples;
use fragment_mill::mill::FragMill;
use mill_work::milling::Milled;
use mill_work::order::Order;
use std::alloc::Global;

impl Node {
    /// Compares the node with an order: stale exactly where it stands elsewhere than where the order was taken.
    /// Nothing changes.
    pub fn compare(&self, alloc: Global, milled: &Milled<FragMill>) -> Result<(), CommitFault>
        requires { self.now.spent ≡ false → IsSound self.now }
        ensures ok { OnOk result ((home : Home) (p : PlainNode) → StandsForNode home self.now p → IsFit home p
            → IsWorkAt home p milled.now.order) }
        ensures stale { (had needed : Point) → result ≡ Err (commit.Stale had needed)
            → WasStale milled.now.order self.now self.now had needed }
        ensures spent { result ≡ Err commit.Spent ↔ self.now.spent ≡ true }
    {
        if self.spent {
            return Err(CommitFault::Spent);
        }
        let Ok(had) = self.point(alloc, milled.order()) else {
            return Err(CommitFault::NoMemory);
        };
        let needed = needed_by(milled.order());
        if is_stale(had, needed) {
            return Err(CommitFault::Stale { had, needed });
        }
        Ok(())
    }

    /// Puts work back that was done apart: exactly the step of `mill`, where the node still stands where
    /// the order was taken. Where that is stale nothing changes.
    pub fn commit(
        &mut self,
        alloc: Global,
        milled: Milled<FragMill>,
    ) -> Result<Vec<Mail>, CommitFault>
        requires { self.old.spent ≡ false → IsSound self.old }
        ensures ok { IfOk result (λ mails. IsCommitted milled.order self.old self.new mails.items) }
        ensures stale { (had needed : Point) → result ≡ Err (commit.Stale had needed) → WasStale milled.order self.old self.new had needed }
        ensures spent { result ≡ Err commit.Spent ↔ self.old.spent ≡ true }
        ensures lost { result ≡ Err commit.NoMemory → self.new.spent ≡ true }
        ensures kept { IfOk result (λ mails. self.new.spent ≡ false) }
        ensures stays { result ≡ Err commit.Spent → self.new ≡ self.old }
    {
        match self.compare(alloc, &milled) {
            Ok(()) => {}
            Err(CommitFault::NoMemory) => {
                self.spent = true;
                return Err(CommitFault::NoMemory);
            }
            Err(CommitFault::Spent) => return Err(CommitFault::Spent),
            Err(CommitFault::Stale { had, needed }) => {
                return Err(CommitFault::Stale { had, needed });
            }
        }
        let (order, after, outputs) = milled.into_parts();
        let count = order.buckets.len() as u64;
        let Ok(mails) = self.put(alloc, after, outputs, count) else {
            self.spent = true;
            return Err(CommitFault::NoMemory);
        };
        Ok(mails)
    }

    /// Puts the work of so many ready buckets back that was done apart.
    pub(crate) fn put(
        &mut self,
        alloc: Global,
        after: FragMill,
        outputs: Tuples,
        count: u64,
    ) -> Result<Vec<Mail>, NoMemory>
        requires { (home : Home) × (p : PlainNode) × CanPutAt count self.old after outputs home p }
        ensures spent { self.new.spent ≡ self.old.spent }
        ensures after { IfOk result (λ mails. (home : Home) (p : PlainNode) → CanPutAt count self.old after outputs home p
            → IsTakenAs self.new mails.items home (mill_step home count p)) }
    {
        let done = self.is_last(count);
        let sends = self.path.put(alloc, after, outputs, count, done)?;
        self.end_corrections(done)?;
        let mails = to_readers(alloc, self.readers.as_slice(), sends)?;
        Ok(mails)
    }

    /// Whether an order's engine is the one at the cursor, and its buckets are the next ready ones.
    fn fits(&self, alloc: Global, order: &Order<FragMill>) -> Result<bool, NoMemory>
        requires { IsSound self.now }
        ensures { IfOk result (λ fits. (home : Home) (p : PlainNode) → StandsForNode home self.now p → IsFit home p
            → (IsTrue fits ↔ Fits home p order.now)) }
    {
        if self.ready() < order.buckets.len() as u64 {
            return Ok(false);
        }
        let fits = self.path.is_at(alloc, order)?;
        Ok(fits)
    }

    /// Where the node stands beside an order.
    fn point(&self, alloc: Global, order: &Order<FragMill>) -> Result<Point, NoMemory>
        requires { IsSound self.now }
        ensures { IfOk result (λ had. (home : Home) (p : PlainNode) → StandsForNode home self.now p → IsFit home p
            → IsBeside home p order.now had) }
    {
        let fits = self.fits(alloc, order)?;
        Ok(Point {
            up: true,
            inc: self.links.inc(),
            cursor: self.cursor(),
            ready: self.ready(),
            fits,
        })
    }
}
