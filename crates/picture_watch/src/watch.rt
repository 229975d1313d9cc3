//! The watcher that makes the columns.
ghost use Rattle.std.specs.Prelude.{◌≡◌, false, map, replicate, IfOk, OnOk};
ghost use Rattle.picture_model.specs.Drawing.{picture_of, with_losses};
ghost use Rattle.picture_model.specs.Marking.{losses_of};
ghost use Rattle.picture_model.specs.Points.{first_point};
ghost use Rattle.run_watchers.specs.Watching.{unstarted};
ghost use Rattle.picture_watch.specs.Tallies.{first_tally};

use crate::clients::{Seen, look_at};
use crate::grants::put_grants;
use crate::links::{cut, heal};
use crate::losses::{losses_of, put_all_losses};
use crate::nodes::{Replicas, look_at_replicas};
use crate::sources::{emit, release};
use crate::tallies::Tally;
use dpc_lists::faults::NoMemory;
use dpc_lists::lists::Listed;
use dpc_model::messages::Event;
use dpc_model::plans::Plan;
use dpc_model::scripts::Script;
use picture_model::columns::{Column, Mark, ReplicaState, SourcePoint};
use run_watchers::watchers::Watcher;
use std::alloc::Global;
use std::mem;
use world_core::world::World;

/// The columns of the phases that are over, and what is known of the phase that runs.
#[derive(Drop)]
pub struct Picturing {
    columns: Vec<Column>,
    /// Its number, 0 before the first one.
    number: u64,
    clock: u64,
    sources: Vec<SourcePoint>,
    marks: Vec<Mark>,
    /// To whom each replica had its promise when the last phase was over.
    promises: Vec<Option<usize>>,
    /// The links that are cut.
    cuts: Vec<(u32, u32)>,
    /// What each client took in the phases that are over.
    tallies: Vec<Tally>,
    /// What the script loses and repeats, by phase.
    losses: Vec<Listed<Mark>>,
}

/// Sources that sent nothing.
fn first_points(alloc: Global, count: usize) -> Result<Vec<SourcePoint>, NoMemory>
    ensures { IfOk result (λ points. points.items ≡ replicate count first_point) }
{
    let points = vec![in alloc; SourcePoint { sent: 0, bound: 0 }; count]?;
    Ok(points)
}

/// Clients that took nothing.
fn first_tallies(alloc: Global, count: usize) -> Result<Vec<Tally>, NoMemory>
    ensures { IfOk result (λ tallies. tallies.items ≡ replicate count first_tally) }
{
    let nothing = Tally {
        mark: 0,
        undos: 0,
        dones: 0,
    };
    let tallies = vec![in alloc; nothing; count]?;
    Ok(tallies)
}

impl Picturing {
    ghost use Rattle.picture_watch.specs.Seen.{HasDrawn, IsAdded, IsClosed, IsNoted, IsLinked};

    /// Before the first event of a run of this script.
    pub fn new(alloc: Global, script: &Script) -> Result<Picturing, NoMemory>
        ensures drawn { IfOk result (λ p. HasDrawn (unstarted script.now.plan) p) }
        ensures losses { IfOk result (λ p. p.losses.items ≡ losses_of script.now) }
    {
        let plan = &script.plan;
        let sources = first_points(alloc, plan.sources.len())?;
        let tallies = first_tallies(alloc, plan.clients.len())?;
        let losses = losses_of(alloc, script.phases.as_slice())?;
        Ok(Picturing {
            columns: Vec::new(alloc),
            number: 0,
            clock: 0,
            sources,
            marks: Vec::new(alloc),
            promises: Vec::new(alloc),
            cuts: Vec::new(alloc),
            tallies,
            losses,
        })
    }

    /// The column of the phase that runs, with what the replicas are and have promised.
    fn add_column(
        &mut self,
        alloc: Global,
        world: &World,
        states: Vec<ReplicaState>,
        promises: &[Option<usize>],
    ) -> Result<(), NoMemory>
        requires { world.now.spent ≡ false }
        ensures { OnOk result (IsAdded world.now states.items promises.now self.old self.new) }
    {
        let sources = Vec::from_slice(alloc, self.sources.as_slice())?;
        let Seen { points, tallies } = look_at(alloc, world.clients(), self.tallies.as_slice())?;
        let mut marks = mem::replace(&mut self.marks, Vec::new(alloc));
        put_grants(&mut marks, world.plan(), self.promises.as_slice(), promises)?;
        self.columns.push(Column {
            number: self.number,
            clock: self.clock,
            sources: Listed::from_vec(sources),
            replicas: Listed::from_vec(states),
            clients: Listed::from_vec(points),
            cuts: self.cuts.len() as u64,
            marks: Listed::from_vec(marks),
        })?;
        self.tallies = tallies;
        Ok(())
    }

    /// The phase that runs is over: its column, where there is one, as the world stands.
    fn close(&mut self, alloc: Global, world: &World) -> Result<(), NoMemory>
        requires { world.now.spent ≡ false }
        ensures { OnOk result (IsClosed world.now self.old self.new) }
    {
        let Replicas { states, promises } = look_at_replicas(alloc, world)?;
        if self.number > 0 {
            self.add_column(alloc, world, states, promises.as_slice())?;
        }
        self.promises = promises;
        Ok(())
    }

    /// What an event tells that opens no phase.
    fn note(&mut self, plan: &Plan, event: Event) -> Result<(), NoMemory>
        ensures { OnOk result (IsNoted plan.now event self.old self.new) }
    {
        match event {
            Event::Emit(source, time) => emit(&mut self.sources, plan, source as usize, time),
            Event::Release(source, time) => release(&mut self.sources, plan, source as usize, time),
            Event::Cut(a, b) => self.marks.push(Mark::Cut(u64::from(a), u64::from(b)))?,
            Event::Heal(a, b) => self.marks.push(Mark::Heal(u64::from(a), u64::from(b)))?,
            Event::Crash(node) => self.marks.push(Mark::Crash(u64::from(node)))?,
            Event::Restart(node, inc) => self.marks.push(Mark::Restart(u64::from(node), inc))?,
            Event::Tick(_, now) => self.clock = now,
            Event::Phase(_) | Event::Deliver(_) | Event::Mill(..) => {}
        }
        Ok(())
    }

    /// Which links are cut behind an event.
    fn link(&mut self, plan: &Plan, event: Event) -> Result<(), NoMemory>
        ensures { OnOk result (IsLinked plan.now event self.old self.new) }
    {
        match event {
            Event::Cut(a, b) => cut(&mut self.cuts, plan, a, b)?,
            Event::Heal(a, b) => heal(&mut self.cuts, a, b),
            _ => {}
        }
        Ok(())
    }

    /// The columns of all phases, the last one as the world stands, with what the script loses and repeats.
    pub fn finish(mut self, alloc: Global, world: &World) -> Result<Vec<Column>, NoMemory>
        requires fresh { world.now.spent ≡ false }
        requires seen { HasDrawn world.now self }
        ensures { IfOk result (λ columns. columns.items
            ≡ map (with_losses self.losses.items) (picture_of world.now.plan world.now.events)) }
    {
        self.close(alloc, world)?;
        put_all_losses(alloc, self.losses.as_slice(), self.columns.as_mut_slice())?;
        Ok(self.columns)
    }
}

impl Watcher for Picturing {
    ghost use Rattle.std.specs.Prelude.{⊤, ◌≡◌};
    ghost use Rattle.picture_watch.specs.Seen.{HasDrawn};

    ghost saw = { λ start run now. HasDrawn run now × (now.losses ≡ start.losses) };

    ghost stays = { λ _ _. ⊤ };

    fn see(&mut self, alloc: Global, world: &World, event: Event) -> Result<(), NoMemory> {
        if let Event::Phase(number) = event {
            self.close(alloc, world)?;
            self.number = number;
            self.marks = Vec::new(alloc);
            return Ok(());
        }
        self.note(world.plan(), event)?;
        self.link(world.plan(), event)?;
        Ok(())
    }
}
