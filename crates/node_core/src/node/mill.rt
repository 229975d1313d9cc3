//! Processing ready buckets.
ghost use Rattle.std.specs.Prelude.{◌≡◌, ◌≤◌, ◌&&◌, ◌==◌, IfOk, OnOk};
ghost use Rattle.dpc_model.specs.NodeStates.{is_stabilization};
ghost use Rattle.node_model.specs.Nodes.{Home, PlainNode, ready};
ghost use Rattle.node_model.specs.NodeSteps.{after_stable_buckets};
ghost use Rattle.node_core.specs.Milling.{CanMill, CanMillNode, MillSteps, corrected};

use crate::node::Node;
use crate::packets::Mail;
use crate::sending::to_readers;
use dpc_lists::faults::NoMemory;
use dpc_model::messages::NodeState;
use std::alloc::Global;

impl Node {
    /// Whether these are the last corrections: the node reconciles, and no more buckets are ready.
    pub(crate) fn is_last(&self, count: u64) -> bool
        requires { 1 ≤ count }
        ensures { (home : Home) (p : PlainNode) → CanMill count home self.now p
            → result ≡ (is_stabilization p.state && ready home (after_stable_buckets home count p) == 0) }
    {
        self.state == NodeState::Stabilization && self.path.ready() == count
    }

    /// Behind the last corrections the ask is over, and the node is STABLE.
    pub(crate) fn end_corrections(&mut self, done: bool) -> Result<(), NoMemory>
        ensures spent { self.new.spent ≡ self.old.spent }
        ensures corrected { OnOk result (self.new ≡ corrected done self.old) }
    {
        if !done {
            return Ok(());
        }
        if self.links.over() == u64::MAX {
            return Err(NoMemory);
        }
        self.links.finish();
        self.state = NodeState::Stable;
        Ok(())
    }

    /// Processes so many ready buckets.
    pub(crate) fn process_ready(&mut self, alloc: Global, count: u64) -> Result<Vec<Mail>, NoMemory>
        requires { CanMillNode count self.old }
        ensures spent { self.new.spent ≡ self.old.spent }
        ensures after { IfOk result (λ mails. MillSteps count self.old self.new mails.items) }
    {
        let done = self.is_last(count);
        let sends = self.path.mill(alloc, count, done)?;
        self.end_corrections(done)?;
        let mails = to_readers(alloc, self.readers.as_slice(), sends)?;
        Ok(mails)
    }
}
