//! Who looks at a run.
ghost use Rattle.std.specs.Prelude.{⊤, ◌≡◌, false, OnOk};
ghost use Rattle.run_watchers.specs.Watching.{gone_on, StaysOn};
ghost use Rattle.world_core.specs.Runs.{RunOf};

use dpc_lists::faults::NoMemory;
use dpc_model::messages::Event;
use std::alloc::Global;
use world_core::world::World;

/// Looks at a run after each of its events.
pub trait Watcher {
    /// What one that began so has made of a run whose events it saw, each when it had happened.
    ghost saw: { Self → RunOf → Self → Type 0 };

    /// What stays true of one that began so, whatever comes: where a call fails, too.
    ghost stays: { Self → Self → Type 0 };

    /// One more event happened.
    fn see(&mut self, alloc: Global, world: &World, event: Event) -> Result<(), NoMemory>
        requires { world.now.spent ≡ false }
        ensures saw { (start : Self) (before : RunOf) → world.now ≡ gone_on before event → saw start before self.old
            → OnOk result (saw start world.now self.new) }
        ensures stays { StaysOn stays self.old self.new };
}

/// Nobody looks.
#[derive(Clone, Copy)]
pub struct Unwatched;

impl Watcher for Unwatched {
    ghost saw = { λ _ _ _. ⊤ };

    ghost stays = { λ _ _. ⊤ };

    fn see(&mut self, _alloc: Global, _world: &World, _event: Event) -> Result<(), NoMemory> {
        Ok(())
    }
}
