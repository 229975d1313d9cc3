//! Links that are cut and healed.
ghost use Rattle.std.specs.Prelude.{◌≡◌, not, filter, OnOk};
ghost use Rattle.dpc_lists.specs.Lists.{list_any};
ghost use Rattle.world_model.specs.Worlds.{World, same_pair, link_up};
ghost use Rattle.world_parts.specs.Parts.{StandsForWorld};
ghost use Rattle.dpc_model.specs.declared.messages.Event.TheVariants as event;
ghost use Rattle.law_fit.specs.Fits.{CanRun};
ghost use Rattle.world_parts.specs.Events.{IsSomeWorld, Happened};

use crate::parts::WorldParts;
use actor_roster::roster::Roster;
use dpc_lists::faults::NoMemory;

/// Whether these are the same two actors, in either order.
fn same_pair(a: u64, b: u64, pair: (u64, u64)) -> bool
    ensures { result ≡ same_pair a b pair }
{
    pair == (a, b) || pair == (b, a)
}

/// Whether a link is among those that are cut.
fn is_among(cuts: &[(u64, u64)], a: u64, b: u64) -> bool
    ensures { result ≡ list_any (same_pair a b) cuts.now }
{
    cuts.iter().any(|pair| same_pair(a, b, *pair))
}

/// A link is up again, however often it was cut.
fn mend(cuts: &mut Vec<(u64, u64)>, a: u64, b: u64)
    ensures { cuts.new.items ≡ filter (λ pair. not (same_pair a b pair)) cuts.old.items }
{
    cuts.retain(|pair| !same_pair(a, b, *pair));
}

impl WorldParts {
    /// Whether two actors have a link, and it is up.
    pub fn link_up(&self, roster: &Roster, a: u64, b: u64) -> bool
        ensures { (x : World) → StandsForWorld roster.now self.now x → result ≡ link_up x a b }
    {
        roster.are_linked(a, b) && !is_among(self.cuts.as_slice(), a, b)
    }

    /// A link is cut, where it is up.
    pub fn cut(&mut self, roster: &Roster, a: u64, b: u64) -> Result<(), NoMemory>
        requires plan { CanRun roster.now }
        requires some { IsSomeWorld roster.now self.old }
        ensures { OnOk result (Happened roster.now self.old self.new (event.Cut a b)) }
    {
        if self.link_up(roster, a, b) {
            self.cuts.push((a, b))?;
        }
        Ok(())
    }

    /// A link is up again.
    pub fn heal(&mut self, roster: &Roster, a: u64, b: u64)
        requires plan { CanRun roster.now }
        requires some { IsSomeWorld roster.now self.old }
        ensures { Happened roster.now self.old self.new (event.Heal a b) }
    {
        mend(&mut self.cuts, a, b);
    }
}
