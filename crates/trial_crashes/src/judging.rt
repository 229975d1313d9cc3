//! What the audit says of what clients took.
ghost use Rattle.std.specs.Prelude.{◌≡◌, false};
ghost use Rattle.ideal_run.specs.IdealPlans.{IsIdealPlan};

use audit_core::audit;
use audit_core::faults::AuditFault;
use audit_core::verdict::Verdict;
use client_fold::client::Client;
use dpc_lists::exact::Exact;
use dpc_lists::faults::NoMemory;
use dpc_model::plans::{Plan, StreamRef};
use dpc_model::tuples::Item;
use std::alloc::Global;
use world_core::world::World;

/// What was found of the clients of runs.
#[derive(Clone, Copy, PartialEq, Eq)]
pub(crate) struct Tally {
    /// How many clients took the whole stream.
    pub whole: u64,
    /// How many took a beginning of it.
    pub beginnings: u64,
    /// How many took what is neither: none should.
    pub others: u64,
    /// How many stable tuples they took.
    pub tuples: u64,
}

impl Tally {
    /// No client was looked at.
    pub fn new() -> Tally {
        Tally {
            whole: 0,
            beginnings: 0,
            others: 0,
            tuples: 0,
        }
    }

    /// One more client, that took so many stable tuples.
    fn count(&mut self, told: Result<Verdict, AuditFault>, tuples: u64) -> Result<(), NoMemory> {
        match told {
            Ok(Verdict::Whole) => self.whole = self.whole.saturating_add(1),
            Ok(Verdict::Prefix { .. }) => self.beginnings = self.beginnings.saturating_add(1),
            Ok(Verdict::Difference { .. }) | Err(AuditFault::NoReading(_)) => {
                self.others = self.others.saturating_add(1);
            }
            Err(AuditFault::NoMemory) => return Err(NoMemory),
        }
        self.tuples = self.tuples.saturating_add(tuples);
        Ok(())
    }
}

/// The items that a client took, in order.
fn taken_items(alloc: Global, client: &Client) -> Result<Vec<Item>, NoMemory> {
    let mut items = Vec::new(alloc);
    for batch in client.taken() {
        for item in batch.as_slice() {
            items.push(item.copy(alloc)?)?;
        }
    }
    Ok(items)
}

/// Judges what one client took of a stream.
fn judge(
    alloc: Global,
    plan: &Plan,
    stream: StreamRef,
    client: &Client,
    tally: &mut Tally,
) -> Result<(), NoMemory>
    requires { IsIdealPlan plan.now }
{
    let items = taken_items(alloc, client)?;
    tally.count(audit(alloc, plan, stream, items), client.count())
}

/// Judges what each client of a world took.
pub(crate) fn judge_all(
    alloc: Global,
    plan: &Plan,
    world: &World,
    tally: &mut Tally,
) -> Result<(), NoMemory>
    requires ideal { IsIdealPlan plan.now }
    requires live { world.now.spent ≡ false }
{
    for (spec, client) in plan.clients.as_slice().iter().zip(world.clients()) {
        judge(alloc, plan, spec.input, client, tally)?;
    }
    Ok(())
}
