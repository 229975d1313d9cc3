//! Reconciling, losing what is held, and going on from a snapshot.
ghost use Rattle.std.specs.Prelude.{◌≡◌, true, IfOk, OnOk};
ghost use Rattle.node_model.specs.Mails.{Snap};
ghost use Rattle.node_model.specs.Nodes.{Home, PlainNode};
ghost use Rattle.node_model.specs.NodeSteps.{after_loss, after_adoption, with_fresh_start};
ghost use Rattle.node_core.specs.Standing.{StandsForNode};
ghost use Rattle.node_core.specs.Stepping.{IsSound, Follows, Steps, taken_back, CanAdopt};

use crate::node::Node;
use crate::packets::Mail;
use crate::sending::to_readers;
use dpc_lists::faults::NoMemory;
use dpc_model::messages::NodeState;
use pipeline::snapshots::Snapshot;
use std::alloc::Global;

impl Node {
    /// Tentative output goes, and the node reconciles from its cursor on.
    pub(crate) fn enter(&mut self, alloc: Global) -> Result<Vec<Mail>, NoMemory>
        requires { IsSound self.old }
        ensures spent { self.new.spent ≡ self.old.spent }
        ensures after { IfOk result (λ mails. Steps taken_back self.old self.new mails.items) }
    {
        let sends = self.path.undo(alloc)?;
        self.state = NodeState::Stabilization;
        let mails = to_readers(alloc, self.readers.as_slice(), sends)?;
        Ok(mails)
    }

    /// What the node holds is lost, and it recovers.
    pub(crate) fn begin_recovery(&mut self, alloc: Global) -> Result<(), NoMemory>
        ensures spent { self.new.spent ≡ self.old.spent }
        ensures after { OnOk result (Follows (λ home p. after_loss home p) self.old self.new) }
    {
        if self.links.tries() == u64::MAX || self.links.over() == u64::MAX {
            return Err(NoMemory);
        }
        self.links.begin_recovery();
        self.path.lose(alloc)?;
        self.state = NodeState::Stabilization;
        self.recovering = true;
        Ok(())
    }

    /// A recovering node goes on from a snapshot.
    pub(crate) fn go_on_from(&mut self, alloc: Global, snapshot: &Snapshot) -> Result<(), NoMemory>
        requires recovering { self.old.recovering ≡ true }
        requires can { (home : Home) × (p : PlainNode) × (s : Snap) × CanAdopt self.old snapshot.now home p s }
        ensures spent { self.new.spent ≡ self.old.spent }
        ensures after { OnOk result ((home : Home) → (p : PlainNode) → (s : Snap)
            → CanAdopt self.old snapshot.now home p s → StandsForNode home self.new (after_adoption home s p)) }
    {
        self.path.adopt(alloc, snapshot)?;
        self.links.forget_sessions();
        self.state = NodeState::Stable;
        self.recovering = false;
        Ok(())
    }

    /// A recovering node starts at the first bucket.
    pub(crate) fn start_afresh(&mut self)
        ensures spent { self.new.spent ≡ self.old.spent }
        ensures after { Follows (λ home p. with_fresh_start p) self.old self.new }
    {
        self.state = NodeState::Stable;
        self.recovering = false;
    }
}
