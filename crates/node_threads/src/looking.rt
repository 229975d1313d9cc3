//! What a worker finds to do under the lock.
ghost use Rattle.std.specs.Prelude.{◌≡◌, false};

use crate::hall::Hall;
use dpc_lists::faults::NoMemory;
use dpc_model::actors::narrow;
use dpc_model::messages::Event;
use event_shares::names::RunName;
use event_shares::share::Share;
use live_parts::due::Due;
use live_run::run::LiveRun;
use std::alloc::Global;
use world_core::faults::ApplyFault;

/// What a worker is to do.
#[derive(Clone, Copy, PartialEq, Eq)]
pub(crate) enum Look {
    /// The run is at its end, or does not go on.
    Over,
    /// Nothing now.
    Wait,
    /// An event that is the first worker's: of a directive, or of the next phase.
    Lead(Event),
    /// What its actors have to do in the phase of this number was put down.
    Share(u64),
}

/// Which worker of how many looks, of which phase it took its work last, and how many phases it opened to the others.
#[derive(Clone, Copy)]
pub(crate) struct Station {
    pub worker: u64,
    pub workers: u64,
    pub taken: u64,
    pub opened: u64,
}

impl Station {
    /// Whether all workers did their work of each phase that was opened to them, where they did it so often in all.
    pub fn all_rested(self, rested: u64) -> bool {
        rested >= self.opened.saturating_mul(self.workers)
    }
}

/// What a worker's actors have to do in a phase: nodes that have ready buckets, and then events in order.
#[derive(Drop)]
pub(crate) struct Work {
    pub ready: Vec<u32>,
    pub due: Vec<Due>,
}

impl Work {
    pub fn new(alloc: Global) -> Work {
        Work {
            ready: Vec::new(alloc),
            due: Vec::new(alloc),
        }
    }

    /// Puts down what a worker's actors have to do in the open phase.
    fn put_down(&mut self, run: &LiveRun, station: Station) -> Result<(), NoMemory>
        requires { run.now.spent ≡ false }
    {
        self.ready.clear();
        self.due.clear();
        for actor in 0..narrow(run.actor_count() as u64)? {
            if u64::from(actor) % station.workers.max(1) == station.worker {
                if run.world().ready(u64::from(actor)) > 0 {
                    self.ready.push(actor)?;
                }
                run.add_due(actor, &mut self.due)?;
            }
        }
        Ok(())
    }
}

impl<N: RunName> Hall<N> {
    /// What a worker may do next. The work of a phase is put down once. The first worker makes the events of
    /// directives and phases; it comes here where all others rest.
    pub(crate) fn look(&self, station: Station, work: &mut Work) -> Result<Look, ApplyFault> {
        if self.run.is_spent() {
            return Err(ApplyFault::Spent);
        }
        if self.wanting {
            return Ok(Look::Over);
        }
        let phase = self.run.phase();
        if self.run.is_free() && phase != station.taken {
            work.put_down(&self.run, station)?;
            return Ok(Look::Share(phase));
        }
        if station.worker != 0 {
            return Ok(Look::Wait);
        }
        if let Some(e) = self.run.next_directive()? {
            return Ok(Look::Lead(e));
        }
        Ok(if self.run.is_complete() {
            Look::Over
        } else {
            Look::Lead(Event::Phase(phase.saturating_add(1)))
        })
    }

    /// Tries events one after another, and goes on behind one that may not come.
    pub(crate) fn try_all(
        &mut self,
        alloc: Global,
        due: &[Due],
        share: &mut Share<N>,
    ) -> Result<(), ApplyFault>
        ensures { share.new.parts ≡ share.old.parts }
    {
        for one in due {
            self.event(alloc, one.event, share)?;
        }
        Ok(())
    }

    /// Memory was wanting for work: the run does not go on.
    pub(crate) fn give_up(&mut self) {
        self.wanting = true;
    }

    /// Whether it does not go on.
    pub(crate) fn gave_up(&self) -> bool {
        self.wanting
    }
}
