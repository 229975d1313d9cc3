//! The value behind the lock of a run.
ghost use Rattle.std.specs.Prelude.{◌≡◌, ◌↔◌, ℕ, ◌+◌, ◌≤◌, true, false, [], length, Ok, Err, Some, None, IfOk, OnOk, IfErr, OnErr, IsNone, IfSome};
ghost use Rattle.dpc_model.specs.declared.messages.Event.TheVariants as event;
ghost use Rattle.node_core.specs.declared.faults.Point.{Point};
ghost use Rattle.world_model.specs.Worlds.{ready_at, excess};
ghost use Rattle.world_model.specs.Schedules.{may, is_live_so_far, is_live};
ghost use Rattle.law_fit.specs.Fits.{CanRun};
ghost use Rattle.world_core.specs.Runs.{world_of};
ghost use Rattle.world_core.specs.Handing.{Fits, IsWorkOf, IsStaleAt, is_loss};
ghost use Rattle.world_core.specs.declared.faults.ApplyFault.TheVariants as apply_fault;
ghost use Rattle.world_core.specs.declared.faults.CommitFault.TheVariants as commit_fault;
ghost use Rattle.live_run.specs.Lives.{IsLost, world_in, with_event};
ghost use Rattle.node_threads.specs.Halls.{HallOf, StopFits, GrowTogether, counted_one};
ghost use Rattle.node_threads.specs.Lives.{IsStopped};
ghost use Rattle.node_threads.specs.declared.stop.Stop as stops;

use crate::stop::Stop;
use dpc_lists::faults::NoMemory;
use dpc_model::actors::narrow;
use dpc_model::messages::Event;
use dpc_model::scripts::Script;
use event_shares::names::RunName;
use event_shares::share::Share;
use fragment_mill::mill::FragMill;
use live_run::run::LiveRun;
use mill_work::milling::Milled;
use mill_work::order::Order;
use std::alloc::Global;
use std::marker::Model;
use std::sync::ledger::{Blank, Book};
use world_core::faults::{ApplyFault, CommitFault};
use world_core::world::World;

mod lending;

/// A live run of the script that N names, and the book in which its events are counted. Contracts see a `HallOf`.
#[derive(Drop)]
pub struct Hall<N: RunName> {
    pub(crate) run: LiveRun,
    book: Book<N>,
    stop: Option<Stop>,
    /// A worker wanted memory for work that was not put back.
    pub(crate) wanting: bool,
}

impl<N: RunName> Model for Hall<N> {
    ghost use Rattle.std.specs.Coded.{codes};
    ghost use Rattle.dpc_model.specs.FormulaCode.{coded_formula};
    ghost use Rattle.node_threads.specs.Halls.{HallOf, IsHall};

    ghost Value = { HallOf };

    ghost coded = { Prim.hlevel (codes, coded_formula) };

    ghost view = { λ h. record { run = h.run; stop = h.stop } };

    ghost invariant = { λ h. IsHall N.script h.run h.book.total h.stop };
}

/// How many events happened.
fn count_of(run: &LiveRun) -> usize
    ensures { result ≡ length run.now.events }
{
    run.world().journal().len()
}

/// The event that would have passed a limit, where that is of milling so many buckets.
fn stop_at_mill(node: u64, count: u64, envelopes: u64, items: u64) -> Result<Stop, NoMemory>
    ensures { IfOk result (λ s. s ≡ record { event = event.Mill node count; envelopes = envelopes; items = items }) }
{
    Ok(Stop {
        event: Event::Mill(narrow(node)?, count),
        envelopes,
        items,
    })
}

impl<N: RunName> Hall<N> {
    /// No event happened yet. All 64 parts of the ledger come with it.
    pub fn new(alloc: Global, script: Script, blank: Blank) -> Result<(Hall<N>, Share<N>), NoMemory>
        requires can { CanRun script.plan }
        requires script { N.script ≡ script }
        requires name { blank.name ≡ N.name }
        requires parts { blank.parts ≡ N.parts }
        requires cut { blank.parts ≡ 64 }
        ensures hall { IfOk result (λ r. r.0 ≡ record { run = record { script = script; events = []; spent = false }; stop = None }) }
        ensures share { IfOk result (λ r. r.1 ≡ record { parts = 64; amount = 0 }) }
    {
        let run = LiveRun::open(alloc, script)?;
        let (book, token) = blank.open::<N>();
        let hall = Hall {
            run,
            book,
            stop: None,
            wanting: false,
        };
        Ok((hall, Share::whole(token, 64)))
    }

    /// The world so far.
    pub fn world(&self) -> &World
        ensures plan { result.now.plan ≡ self.now.run.script.plan }
        ensures events { result.now.events ≡ self.now.run.events }
        ensures spent { self.now.run.spent ≡ false → result.now.spent ≡ false }
        ensures script { self.now.run.script ≡ N.script }
        ensures live { is_live_so_far N.script self.now.run.events ≡ true }
    {
        self.run.world()
    }

    /// Whether memory was wanting, or an event would have passed a limit.
    pub fn is_spent(&self) -> bool
        ensures { result ≡ self.now.run.spent }
    {
        self.run.is_spent()
    }

    /// The event that would have passed a limit, where there was one.
    pub fn stopped(&self) -> Option<Stop>
        ensures stop { result ≡ self.now.stop }
        ensures fits { StopFits self.now.run result }
    {
        self.stop
    }

    /// Tries an event: it happens where it may come next, and is counted in the share. Where it may not
    /// nothing changes. After a fault the journal has at most this event more, and the share counts what it has.
    pub fn event(
        &mut self,
        alloc: Global,
        e: Event,
        share: &mut Share<N>,
    ) -> Result<bool, ApplyFault>
        ensures asked { IfOk result (λ told. told ≡ may N.script self.old.run.events e) }
        ensures yes { result ≡ Ok true → (self.new ≡ record self.old { run = with_event self.old.run e }) × (share.new ≡ counted_one share.old) }
        ensures no { result ≡ Ok false → (self.new ≡ self.old) × (share.new ≡ share.old) }
        ensures long { (envelopes items : ℕ) → result ≡ Err (apply_fault.TooLong envelopes items)
            → (self.new ≡ record { run = record self.old.run { spent = true }; stop = Some (record { event = e; envelopes = envelopes; items = items }) })
            × (share.new ≡ share.old) }
        ensures err { OnErr result (IsLost self.old.run self.new.run e) }
        ensures together { GrowTogether self.old.run self.new.run share.old share.new }
        ensures spent { result ≡ Err apply_fault.Spent ↔ self.old.run.spent ≡ true }
    {
        if self.run.is_spent() {
            return Err(ApplyFault::Spent);
        }
        let before = count_of(&self.run);
        let told = self.run.apply(alloc, e);
        match told {
            Ok(true) => share.count(&mut self.book),
            Ok(false) => {}
            Err(ApplyFault::TooLong { envelopes, items }) => {
                self.stop = Some(Stop {
                    event: e,
                    envelopes,
                    items,
                });
            }
            Err(ApplyFault::NoMemory | ApplyFault::Spent) => {
                if count_of(&self.run) > before {
                    share.count(&mut self.book);
                }
            }
        }
        told
    }

    /// Work for the next ready buckets of an actor: all of them, or the most that may be milled at once. `None`
    /// exactly where none is ready. Nothing changes.
    pub fn order(&self, alloc: Global, node: u64) -> Result<Option<Order<FragMill>>, ApplyFault>
        ensures none { IfOk result (λ told. IsNone told ↔ (ready_at (world_of (world_in self.now.run)) node ≡ 0)) }
        ensures some { IfOk result (λ told. IfSome told (IsWorkOf (world_in self.now.run) node)) }
        ensures long { (envelopes items : ℕ) → result ≡ Err (apply_fault.TooLong envelopes items) → ⊥ }
        ensures spent { result ≡ Err apply_fault.Spent ↔ self.now.run.spent ≡ true }
    {
        self.run.order(alloc, node)
    }

    /// Tries to put work back that was done apart: where it is stale nothing changes; else the event of milling
    /// its buckets happens where it may come next, and is counted in the share, and where it may not the answer is
    /// false, and nothing changes. Any other fault leaves it as one of `event` does.
    pub fn commit(
        &mut self,
        alloc: Global,
        milled: Milled<FragMill>,
        share: &mut Share<N>,
    ) -> Result<bool, CommitFault>
        ensures asked { IfOk result (λ told. told ≡ may N.script self.old.run.events (event.Mill milled.order.node (length milled.order.buckets))) }
        ensures fits { IfOk result (λ _. Fits (world_in self.old.run) milled.order) }
        ensures yes { result ≡ Ok true
            → (self.new ≡ record self.old { run = with_event self.old.run (event.Mill milled.order.node (length milled.order.buckets)) })
            × (share.new ≡ counted_one share.old) }
        ensures no { result ≡ Ok false → (self.new ≡ self.old) × (share.new ≡ share.old) }
        ensures stale { (had needed : Point) → result ≡ Err (commit_fault.Stale had needed)
            → (self.new ≡ self.old) × (share.new ≡ share.old) × IsStaleAt (world_in self.old.run) milled.order had needed }
        ensures long { (envelopes items : ℕ) → result ≡ Err (commit_fault.TooLong envelopes items)
            → (self.new ≡ record {
              run = record self.old.run { spent = true };
              stop = Some (record { event = event.Mill milled.order.node (length milled.order.buckets); envelopes = envelopes; items = items });
            }) × (share.new ≡ share.old) }
        ensures lost { IfErr result (λ why. is_loss why ≡ true
            → IsLost self.old.run self.new.run (event.Mill milled.order.node (length milled.order.buckets))) }
        ensures together { GrowTogether self.old.run self.new.run share.old share.new }
        ensures spent { result ≡ Err commit_fault.Spent ↔ self.old.run.spent ≡ true }
    {
        if self.run.is_spent() {
            return Err(CommitFault::Spent);
        }
        let before = count_of(&self.run);
        let (node, count) = (milled.order().node, milled.order().buckets.len() as u64);
        let told = self.run.commit(alloc, milled);
        match told {
            Ok(true) => share.count(&mut self.book),
            Ok(false) => {}
            Err(fault) => match fault {
                CommitFault::TooLong { envelopes, items } => {
                    self.stop = Some(stop_at_mill(node, count, envelopes, items)?);
                }
                CommitFault::NoMemory => {
                    if count_of(&self.run) > before {
                        share.count(&mut self.book);
                    }
                }
                CommitFault::Stale { .. } => {}
                CommitFault::Spent => {}
            },
        }
        told
    }

    /// The share of all parts has counted every event.
    pub fn audit(&mut self, share: &mut Share<N>)
        ensures hall { self.new ≡ self.old }
        ensures share { share.new ≡ share.old }
        ensures bound { share.old.amount ≤ length self.old.run.events }
        ensures whole { share.old.parts ≡ N.parts → share.old.amount ≡ length self.old.run.events }
    {
        share.audit(&mut self.book);
    }

    /// Whether the journal is a complete live one of the script.
    pub fn is_over(&self) -> bool
        requires { self.now.run.spent ≡ false }
        ensures { result ≡ is_live N.script self.now.run.events }
    {
        self.run.is_complete()
    }

    /// The world alone.
    pub fn into_world(self) -> World
        ensures plan { result.plan ≡ N.script.plan }
        ensures events { result.events ≡ self.run.events }
        ensures spent { self.run.spent ≡ false → result.spent ≡ false }
        ensures live { is_live_so_far N.script result.events ≡ true }
        ensures within { self.run.spent ≡ false → excess N.script.plan result.events ≡ None }
        ensures stopped { (s : stops.Stop) → self.stop ≡ Some s → IsStopped N.script result s }
    {
        let Hall { run, .. } = self;
        run.into_world()
    }
}
