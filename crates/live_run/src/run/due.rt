//! What is to be done in the open phase: a list for who looks for work. `apply` decides what may come.
ghost use Rattle.std.specs.Prelude.{◌≡◌, ◌++◌, false, length, IfOk, OnOk};
ghost use Rattle.dpc_model.specs.Actors.{roles_of};
ghost use Rattle.live_parts.specs.Dues.{dues_of};
ghost use Rattle.live_parts.specs.Moments.{next_event};
ghost use Rattle.world_model.specs.Schedules.{progress, is_free, phase_left};

use crate::run::LiveRun;
use dpc_lists::faults::NoMemory;
use dpc_model::messages::Event;
use live_parts::due::Due;

impl LiveRun {
    /// The number of the open phase, 0 before the first one.
    pub fn phase(&self) -> u64
        requires { self.now.spent ≡ false }
        ensures { result ≡ (progress self.now.script self.now.events).phase }
    {
        self.course.moment.phase
    }

    /// Whether a phase is open, and its directives are done.
    pub fn is_free(&self) -> bool
        requires { self.now.spent ≡ false }
        ensures { result ≡ is_free (progress self.now.script self.now.events) }
    {
        self.course.moment.is_free()
    }

    /// Whether a phase may follow the open one.
    pub fn has_next_phase(&self) -> bool
        requires { self.now.spent ≡ false }
        ensures { result ≡ phase_left self.now.script (progress self.now.script self.now.events) }
    {
        self.course.has_next(&self.world, &self.timetable)
    }

    /// The event of the open phase's next directive, where one is left.
    pub fn next_directive(&self) -> Result<Option<Event>, NoMemory>
        requires { self.now.spent ≡ false }
        ensures { IfOk result (λ told. told ≡ next_event (progress self.now.script self.now.events)) }
    {
        let told = self.course.moment.next_event(&self.world)?;
        Ok(told)
    }

    /// How many actors there are.
    pub fn actor_count(&self) -> usize
        ensures { self.now.spent ≡ false → result ≡ length (roles_of self.now.script.plan) }
    {
        self.course.moment.ticked.len()
    }

    /// Appends what an actor has to do behind the directives of the open phase: to take what is pending for it, in
    /// order of number, and to tick.
    pub fn add_due(&self, actor: u32, due: &mut Vec<Due>) -> Result<(), NoMemory>
        requires { self.now.spent ≡ false }
        ensures { OnOk result (due.new.items ≡ due.old.items ++ dues_of self.now.script (progress self.now.script self.now.events) actor) }
    {
        self.course
            .add_due(&self.world, &self.timetable, actor, due)?;
        Ok(())
    }
}
