//! A tick: one function for each of its steps.
ghost use Rattle.std.specs.Prelude.{◌≡◌, ℕ, ◌==◌, ◌<◌, if◌then◌else◌, length, IfOk, OnOk, option_to_list};
ghost use Rattle.dpc_model.specs.Due.{is_complete};
ghost use Rattle.dpc_model.specs.declared.messages.NodeState.TheVariants.{UpFailure};
ghost use Rattle.node_model.specs.Nodes.{Home, PlainNode, held_by, wants_to_reconcile};
ghost use Rattle.node_model.specs.NodeSteps.{after_clock, choice_step, ask_step, processing_step, serving_step, rest_of_tick, tick_step, snapshot_ask_step};
ghost use Rattle.node_core.specs.Stepping.{IsSound, Follows, Steps, choice_at_port};
ghost use Rattle.node_model.specs.Fitting.{IsFit};
ghost use Rattle.node_core.specs.Standing.{StandsForNode};

use crate::node::Node;
use crate::packets::Mail;
use crate::sending::{Request, in_actor_order, mail, to_each, to_readers};
use dpc_lists::faults::NoMemory;
use dpc_model::messages::{Message, NodeState};
use node_links::links::Asked;
use std::alloc::Global;

impl Node {
    /// A tick, whole.
    pub(crate) fn on_tick(&mut self, alloc: Global, now: u64) -> Result<Vec<Mail>, NoMemory>
        requires { IsSound self.old }
        ensures spent { self.new.spent ≡ self.old.spent }
        ensures after { IfOk result (λ mails. Steps (λ home p. tick_step home now p) self.old self.new mails.items) }
    {
        self.end_marks();
        self.count_tick(now);
        if !self.recovering {
            let mails = self.serve(alloc)?;
            return Ok(mails);
        }
        if self.links.nobody_can_help() {
            self.start_afresh();
            let mails = self.serve(alloc)?;
            return Ok(mails);
        }
        let mut mails = self.ask_for_snapshots(alloc)?;
        mails.append(&mut self.announce(alloc)?)?;
        Ok(mails)
    }

    /// The clock moves, every replica's ticks are counted, and a promise to an absent one ends.
    fn count_tick(&mut self, now: u64)
        ensures spent { self.new.spent ≡ self.old.spent }
        ensures after { Follows (λ home p. after_clock now p) self.old self.new }
    {
        self.links.tick();
        self.clock = now;
    }

    /// The steps of a tick of a node that does not recover.
    fn serve(&mut self, alloc: Global) -> Result<Vec<Mail>, NoMemory>
        requires { IsSound self.old }
        ensures spent { self.new.spent ≡ self.old.spent }
        ensures after { IfOk result (λ mails. Steps serving_step self.old self.new mails.items) }
    {
        let mut mails = self.choose(alloc)?;
        mails.append(&mut self.ask(alloc)?)?;
        mails.append(&mut self.process(alloc)?)?;
        mails.append(&mut self.announce(alloc)?)?;
        Ok(mails)
    }

    /// A replica is chosen for each port, and sessions are opened anew.
    fn choose(&mut self, alloc: Global) -> Result<Vec<Mail>, NoMemory>
        requires { IsSound self.old }
        ensures spent { self.new.spent ≡ self.old.spent }
        ensures after { IfOk result (λ mails. Steps choice_step self.old self.new mails.items) }
    {
        let mut mails = Vec::new(alloc);
        for port in 0..self.links.ports() {
            if let Some(asked) = self.choose_at(port)? {
                mails.push(asked)?;
            }
        }
        let mails = in_actor_order(mails)?;
        Ok(mails)
    }

    /// A replica is chosen for one port. The answer is the subscription, where a session is opened anew.
    fn choose_at(&mut self, port: usize) -> Result<Option<Mail>, NoMemory>
        requires port { port < length self.old.links.known.upstreams }
        requires sound { IsSound self.old }
        ensures spent { self.new.spent ≡ self.old.spent }
        ensures ports { OnOk result (length self.new.links.known.upstreams ≡ length self.old.links.known.upstreams) }
        ensures after { IfOk result (λ asked. Steps (choice_at_port port) self.old self.new (option_to_list asked)) }
    {
        let broken = self.path.is_broken(port);
        let answered = self.path.is_answered(port);
        let Some(to) = self.links.choose(port, broken, answered) else {
            return Ok(None);
        };
        let asked = self.path.reopen(port)?;
        Ok(Some(mail(to, Message::Subscribe(asked))))
    }

    /// Whether the node has tentative output and could correct it.
    fn wants_to_reconcile(&self) -> bool
        ensures { (home : Home) (p : PlainNode) → StandsForNode home self.now p → result ≡ wants_to_reconcile home p }
    {
        self.state == NodeState::UpFailure && self.cursor_is_complete()
    }

    /// Whether the cursor's bucket is complete. Without a port every bucket is.
    fn cursor_is_complete(&self) -> bool
        ensures { (home : Home) (p : PlainNode) → StandsForNode home self.now p
            → result ≡ is_complete home.plan.width (held_by p) p.cursor }
    {
        if self.links.ports() == 0 {
            return true;
        }
        self.path.inputs().ready() > 0
    }

    /// The node asks to reconcile, or enters where every other replica is absent.
    fn ask(&mut self, alloc: Global) -> Result<Vec<Mail>, NoMemory>
        requires { IsSound self.old }
        ensures spent { self.new.spent ≡ self.old.spent }
        ensures after { IfOk result (λ mails. Steps ask_step self.old self.new mails.items) }
    {
        if !self.wants_to_reconcile() {
            return Ok(Vec::new(alloc));
        }
        if self.links.over() == u64::MAX {
            return Err(NoMemory);
        }
        match self.links.ask() {
            None => Ok(Vec::new(alloc)),
            Some(Asked::Enter) => {
                let mails = self.enter(alloc)?;
                Ok(mails)
            }
            Some(Asked::Ask(inc, ask)) => {
                let request = Request::Reconcile(inc, ask);
                let mails = to_each(alloc, self.links.peers(), request)?;
                Ok(mails)
            }
        }
    }

    /// Every bucket up to the last one that can't wait is processed, but while the node reconciles.
    fn process(&mut self, alloc: Global) -> Result<Vec<Mail>, NoMemory>
        requires { IsSound self.old }
        ensures spent { self.new.spent ≡ self.old.spent }
        ensures after { IfOk result (λ mails. Steps processing_step self.old self.new mails.items) }
    {
        if self.state == NodeState::Stabilization {
            return Ok(Vec::new(alloc));
        }
        let Some(last) = self.path.due(self.clock) else {
            return Ok(Vec::new(alloc));
        };
        let sends = self.path.process_upto(alloc, last)?;
        self.state = state_with(self.path.inputs().closed(), self.state);
        let mails = to_readers(alloc, self.readers.as_slice(), sends)?;
        Ok(mails)
    }

    /// A recovering node asks each other replica for a snapshot.
    fn ask_for_snapshots(&self, alloc: Global) -> Result<Vec<Mail>, NoMemory>
        ensures { IfOk result (λ mails. Steps snapshot_ask_step self.now self.now mails.items) }
    {
        let request = Request::Snapshot(self.links.inc(), self.links.tries());
        let mails = to_each(alloc, self.links.peers(), request)?;
        Ok(mails)
    }
}

/// The state that so many closed buckets mean.
fn state_with(closed: u64, state: NodeState) -> NodeState
    ensures { result ≡ (if closed == 0 then state else UpFailure) }
{
    if closed == 0 {
        state
    } else {
        NodeState::UpFailure
    }
}
