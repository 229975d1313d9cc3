//! A client, and what it has.
ghost use Rattle.std.specs.Prelude.{◌≡◌, ◌<◌, ◌≤◌, ℕ, length, drop, IfOk};
ghost use Rattle.dpc_model.specs.Actors.{senders_of};
ghost use Rattle.dpc_model.specs.Reading.{is_settled};
ghost use Rattle.dpc_model.specs.declared.plans.Plan.{Plan};
ghost use Rattle.dpc_model.specs.declared.plans.TheConstants.{MOST_REPLICAS};
ghost use Rattle.node_model.specs.Clients.{ClientState, client_stream, new_client, client_settled};
ghost use Rattle.client_fold.specs.Folding.{all_taken, StandsForClient};

use dpc_lists::faults::NoMemory;
use dpc_lists::shared::Shared;
use dpc_model::plans::Plan;
use dpc_model::tuples::Item;
use inlet::inlet::Inlet;
use std::alloc::Global;
use std::marker::Model;
use upstream::upstream::Upstream;

mod deliver;
mod tick;

/// One client: the receiving end of one stream, and the items that it took. Contracts see a
/// `ClientValue`.
#[derive(Drop)]
pub struct Client {
    upstream: Upstream,
    inlet: Inlet,
    /// What was taken of each batch, in order.
    taken: Vec<Shared<Item>>,
    /// How many items those are.
    total: u128,
    end: u64,
    clock: u64,
}

impl Model for Client {
    ghost use Rattle.std.specs.Prelude.{◌≡◌, length};
    ghost use Rattle.std.specs.Coded.{codes};
    ghost use Rattle.client_fold.specs.Folding.{ClientValue, all_taken};

    ghost Value = { ClientValue };

    ghost coded = { Prim.hlevel codes };

    ghost view = { λ c. record { end = c.end; upstream = c.upstream; inlet = c.inlet; taken = all_taken c.taken.items; clock = c.clock } };

    ghost invariant = { λ c. c.total ≡ length (all_taken c.taken.items) };
}

/// The last batches, as few as hold all items from number `mark` on, and how many items in front of these. There are
/// `total` items in all batches.
fn last_batches(batches: &[Shared<Item>], total: u128, mark: u128) -> (&[Shared<Item>], u128)
    requires total { total ≡ length (all_taken batches.now) }
    requires mark { mark ≤ total }
    ensures { drop result.1 (all_taken result.0.now) ≡ drop mark (all_taken batches.now) }
{
    let mut first = batches.len();
    let mut before = total;
    while before > mark {
        first -= 1;
        before -= batches[first].len() as u128;
    }
    (&batches[first..], mark - before)
}

impl Client {
    /// A client that took nothing yet.
    pub fn new(alloc: Global, plan: &Plan, c: usize) -> Result<Client, NoMemory>
        requires is_client { c < length plan.now.clients }
        requires some { 0 < length (senders_of plan.now (client_stream plan.now c)) }
        requires most { length (senders_of plan.now (client_stream plan.now c)) ≤ MOST_REPLICAS }
        ensures { IfOk result (λ client. StandsForClient plan.now c client (new_client plan.now c)) }
    {
        let upstream = Upstream::new(alloc, plan, plan.clients.as_slice()[c].input)?;
        Ok(Client {
            upstream,
            inlet: Inlet::new(alloc, 1),
            taken: Vec::new(alloc),
            total: 0,
            end: plan.end,
            clock: 0,
        })
    }

    /// What was taken of each batch, in order.
    pub fn taken(&self) -> &[Shared<Item>]
        ensures { all_taken result.now ≡ self.now.taken }
    {
        self.taken.as_slice()
    }

    /// How many items were taken.
    pub fn total(&self) -> u128
        ensures { result ≡ length self.now.taken }
    {
        self.total
    }

    /// What was taken behind the first so many items: the last batches, as few as hold it, and how many items in front of
    /// them are not part of it. It looks at these batches alone.
    pub fn taken_behind(&self, mark: u128) -> (&[Shared<Item>], u128)
        requires { mark ≤ length self.now.taken }
        ensures { drop result.1 (all_taken result.0.now) ≡ drop mark self.now.taken }
    {
        last_batches(self.taken.as_slice(), self.total, mark)
    }

    /// What is known of the replicas that it may read, and which it reads.
    pub fn upstream(&self) -> &Upstream
        ensures { result.now ≡ self.now.upstream }
    {
        &self.upstream
    }

    /// How many stable tuples there were.
    pub fn count(&self) -> u64
        ensures { result ≡ self.now.inlet.count }
    {
        self.inlet.count()
    }

    /// The clock of the last tick.
    pub fn clock(&self) -> u64
        ensures { result ≡ self.now.clock }
    {
        self.clock
    }

    /// Up to where the stable tuples are known to be all.
    pub fn bound(&self) -> u64
        ensures { result ≡ self.now.inlet.state.held.bound }
    {
        self.inlet.bound()
    }

    /// How many tentative tuples are held.
    pub fn tentatives(&self) -> usize
        ensures { result ≡ length self.now.inlet.state.held.tentative }
    {
        self.inlet.tentative().len()
    }

    /// Whether the whole stream was taken, and nothing of it may be corrected.
    pub fn settled(&self) -> bool
        ensures is { result ≡ is_settled self.now.end self.now.inlet.state.held }
        ensures stands { (plan : Plan) (c : ℕ) (x : ClientState) → StandsForClient plan c self.now x → result ≡ client_settled plan x }
    {
        self.inlet.bound() == self.end && !self.inlet.unsure()
    }
}
