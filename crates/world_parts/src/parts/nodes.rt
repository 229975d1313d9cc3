//! A node crashes, and restarts.
ghost use Rattle.std.specs.Prelude.{◌≡◌, OnOk};
ghost use Rattle.dpc_model.specs.declared.messages.Event.TheVariants as event;
ghost use Rattle.world_model.specs.Worlds.{node_place};
ghost use Rattle.law_fit.specs.Fits.{CanRun};
ghost use Rattle.world_parts.specs.Events.{IsSomeWorld, Happened};

use crate::parts::WorldParts;
use actor_roster::roster::Roster;
use dpc_lists::faults::NoMemory;
use dpc_model::actors::Role;
use std::alloc::Global;

impl WorldParts {
    /// The place of a node among the nodes.
    pub(crate) fn node_place(&self, roster: &Roster, actor: u64) -> usize
        ensures { result ≡ node_place roster.now actor }
    {
        (actor as usize).saturating_sub(roster.plan().sources.len())
    }

    /// A node loses all that it has.
    pub fn crash(&mut self, roster: &Roster, actor: u64)
        requires plan { CanRun roster.now }
        requires some { IsSomeWorld roster.now self.old }
        ensures { Happened roster.now self.old self.new (event.Crash actor) }
    {
        if let Role::Node(_, _) = roster.role_of(actor) {
            let place = self.node_place(roster, actor);
            self.nodes[place].crash();
        }
    }

    /// A node that is down begins anew, with a later incarnation than its last one.
    pub fn restart(
        &mut self,
        alloc: Global,
        roster: &Roster,
        actor: u64,
        inc: u64,
    ) -> Result<(), NoMemory>
        requires plan { CanRun roster.now }
        requires some { IsSomeWorld roster.now self.old }
        ensures { OnOk result (Happened roster.now self.old self.new (event.Restart actor inc)) }
    {
        if let Role::Node(frag, replica) = roster.role_of(actor) {
            let place = self.node_place(roster, actor);
            self.nodes[place].restart(alloc, roster.plan(), frag, replica, inc)?;
        }
        Ok(())
    }
}
