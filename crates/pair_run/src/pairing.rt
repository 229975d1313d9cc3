//! The one stream of two clients, made while a run goes on.
ghost use Rattle.std.specs.Prelude.{◌≡◌, ◌≤◌, ◌++◌, length, drop, IfOk, OnOk};
ghost use Rattle.run_watchers.specs.Watching.{unstarted};
ghost use Rattle.dpc_model.specs.declared.plans.Plan.{Plan};
ghost use Rattle.pair_run.specs.Seen.{HasSeen};

use back_channel::pair::Pair;
use client_fold::client::Client;
use dpc_lists::exact::copied;
use dpc_lists::faults::NoMemory;
use dpc_model::messages::Event;
use dpc_model::tuples::Item;
use run_watchers::watchers::Watcher;
use std::alloc::Global;
use world_core::world::World;

/// Two clients, how many items of each were looked at, and what was made of them.
#[derive(Drop)]
pub struct Pairing {
    pub first: usize,
    pub second: usize,
    first_mark: u128,
    second_mark: u128,
    /// What both hold.
    pub pair: Pair,
    /// The items of the one stream so far.
    pub items: Vec<Item>,
}

/// The last items that a client took, at least those behind the first so many, and how many in front are not of these.
fn taken_behind(alloc: Global, client: &Client, mark: u128) -> Result<(Vec<Item>, usize), NoMemory>
    ensures within { IfOk result (λ taken. taken.1 ≤ length taken.0.items) }
    ensures taken { mark ≤ length client.now.taken → IfOk result (λ taken. drop taken.1 taken.0.items ≡ drop mark client.now.taken) }
{
    let mut items = Vec::new(alloc);
    if mark > client.total() {
        return Ok((items, 0));
    }
    let (batches, known) = client.taken_behind(mark);
    for batch in batches.iter() {
        let mut copies = copied(alloc, batch.as_slice())?;
        items.append(&mut copies)?;
    }
    let known = known.min(items.len() as u128) as usize;
    Ok((items, known))
}

impl Pairing {
    /// Of two clients under these numbers, before the first event.
    pub fn new(alloc: Global, first: usize, second: usize) -> Pairing
        ensures first { result.first ≡ first }
        ensures second { result.second ≡ second }
        ensures seen { (plan : Plan) → HasSeen result (unstarted plan) result }
    {
        Pairing {
            first,
            second,
            first_mark: 0,
            second_mark: 0,
            pair: Pair::new(alloc),
            items: Vec::new(alloc),
        }
    }
}

impl Watcher for Pairing {
    ghost use Rattle.std.specs.Prelude.{⊤};
    ghost use Rattle.pair_run.specs.Seen.{HasSeen};

    ghost saw = { λ start run p. HasSeen start run p };

    ghost stays = { λ _ _. ⊤ };

    fn see(&mut self, alloc: Global, world: &World, _event: Event) -> Result<(), NoMemory> {
        let clients = world.clients();
        let (Some(first), Some(second)) = (clients.get(self.first), clients.get(self.second)) else {
            return Ok(());
        };
        if first.total() == self.first_mark && second.total() == self.second_mark {
            return Ok(());
        }
        let (taken, known) = taken_behind(alloc, first, self.first_mark)?;
        let (others, others_known) = taken_behind(alloc, second, self.second_mark)?;
        let taken = taken.as_slice().split_at(known).1;
        let others = others.as_slice().split_at(others_known).1;
        let Ok(mut told) = self.pair.step(taken, others) else {
            return Err(NoMemory);
        };
        self.items.append(&mut told)?;
        self.first_mark = first.total();
        self.second_mark = second.total();
        Ok(())
    }
}
