//! What comes from other actors: one function for each kind of message.
ghost use Rattle.std.specs.Prelude.{◌≡◌, ℕ, if◌then◌else◌, IfOk, OnOk};
ghost use Rattle.dpc_model.specs.Ports.{sender_at};
ghost use Rattle.dpc_model.specs.declared.messages.Message.TheVariants as message_of;
ghost use Rattle.node_model.specs.Mails.{Packet as PlainPacket, Snap};
ghost use Rattle.node_model.specs.Nodes.{Home, PlainNode, streams_of};
ghost use Rattle.node_model.specs.NodeSteps.{with_marks_ended, on_message, on_batch, on_subscribe, on_truncation, on_upstream_beat, on_peer_beat, on_ack, on_ask, on_grant, on_snap_ask, on_snap, reader_place, replica_number};
ghost use Rattle.node_core.specs.Standing.{StandsForNode};
ghost use Rattle.node_core.specs.Stepping.{IsSound, Follows, Steps, unless_recovering, CanTake, IsTaken, CanTakeMessage, IsTakenAs, CanAdopt};

use crate::node::Node;
use crate::packets::{Mail, Packet};
use crate::sending::one;
use actor_lists::lists::place_of;
use dpc_lists::faults::NoMemory;
use dpc_lists::shared::Shared;
use dpc_model::messages::{Beat, Message, NodeState, Sess, Subscribe};
use dpc_model::tuples::Item;
use pipeline::snapshots::Snapshot;
use std::alloc::Global;

impl Node {
    /// A packet is taken, after the marks that the node has reached are ended.
    pub(crate) fn take(
        &mut self,
        alloc: Global,
        sender: u64,
        packet: &Packet,
    ) -> Result<Vec<Mail>, NoMemory>
        requires { (home : Home) × (p : PlainNode) × (q : PlainPacket) × CanTake sender self.old packet.now home p q }
        ensures spent { self.new.spent ≡ self.old.spent }
        ensures taken { IfOk result (λ mails. (home : Home) → (p : PlainNode) → (q : PlainPacket)
            → CanTake sender self.old packet.now home p q → IsTaken sender self.new mails.items home p q) }
    {
        self.end_marks();
        match packet {
            Packet::Plain(message) => return self.on_message(alloc, sender, message),
            Packet::SnapFor(inc, number, snapshot) => self.on_snap(alloc, *inc, *number, snapshot)?,
        }
        Ok(Vec::new(alloc))
    }

    /// Marks end that the stable tuples of their port reach.
    pub(crate) fn end_marks(&mut self)
        requires { IsSound self.old }
        ensures spent { self.new.spent ≡ self.old.spent }
        ensures after { Follows (λ home p. with_marks_ended p) self.old self.new }
    {
        if !self.links.has_marks() {
            return;
        }
        for port in 0..self.links.ports() {
            let count = self.path.count(port);
            self.links.end_marks(port, count);
        }
    }

    fn on_message(
        &mut self,
        alloc: Global,
        sender: u64,
        message: &Message,
    ) -> Result<Vec<Mail>, NoMemory>
        requires { (home : Home) × (p : PlainNode) × CanTakeMessage sender self.old message.now home p }
        ensures spent { self.new.spent ≡ self.old.spent }
        ensures taken { IfOk result (λ mails. (home : Home) → (p : PlainNode)
            → CanTakeMessage sender self.old message.now home p
            → IsTakenAs self.new mails.items home (on_message home sender message.now p)) }
    {
        match message {
            Message::Batch(sess, index, items) => {
                self.on_batch(alloc, sender, *sess, *index, items)?;
            }
            Message::Subscribe(asked) => return self.on_subscribe(alloc, sender, *asked),
            Message::Truncated(sess, base) => self.on_truncated(alloc, sender, *sess, *base)?,
            Message::Beat(beat) => self.on_beat(sender, *beat),
            Message::Ack(inc, count) => self.on_ack(sender, *inc, *count),
            Message::Ask(inc, ask) => return self.on_ask(alloc, sender, *inc, *ask),
            Message::Grant(inc, ask) => return self.on_grant(alloc, *inc, *ask),
            Message::SnapAsk(inc, number) => {
                return self.on_snap_ask(alloc, sender, *inc, *number);
            }
        }
        Ok(Vec::new(alloc))
    }

    /// A batch is taken from the replica that its port reads, and from no other.
    fn on_batch(
        &mut self,
        alloc: Global,
        sender: u64,
        sess: Sess,
        index: u64,
        items: &Shared<Item>,
    ) -> Result<(), NoMemory>
        requires { (home : Home) × (p : PlainNode) × CanTakeMessage sender self.old (message_of.Batch sess index items.now) home p }
        ensures spent { self.new.spent ≡ self.old.spent }
        ensures taken { OnOk result ((home : Home) → (p : PlainNode)
            → CanTakeMessage sender self.old (message_of.Batch sess index items.now) home p
            → StandsForNode home self.new (on_batch home sess index items.now (sender_at home.plan (streams_of home) sender) p)) }
    {
        let Some((port, r)) = self.links.sender(sender) else {
            return Ok(());
        };
        if self.links.chosen(port) != r {
            return Ok(());
        }
        self.path
            .accept(alloc, port, sess, index, items, self.clock)?;
        Ok(())
    }

    /// A reader's subscription is answered, but by a node that recovers.
    fn on_subscribe(
        &mut self,
        alloc: Global,
        sender: u64,
        asked: Subscribe,
    ) -> Result<Vec<Mail>, NoMemory>
        requires { IsSound self.old }
        ensures spent { self.new.spent ≡ self.old.spent }
        ensures after { IfOk result (λ mails. Steps
            (unless_recovering (λ home p. on_subscribe home asked (reader_place home sender) p)) self.old self.new mails.items) }
    {
        if self.recovering {
            return Ok(Vec::new(alloc));
        }
        let Some(reader) = place_of(self.readers.as_slice(), sender) else {
            return Ok(Vec::new(alloc));
        };
        let Some(answer) = self.path.open_session(alloc, reader, asked, self.state)? else {
            return Ok(Vec::new(alloc));
        };
        one(alloc, sender, answer)
    }

    /// A replica truncated what a session asks for. Where each of them did, the node recovers.
    fn on_truncated(
        &mut self,
        alloc: Global,
        sender: u64,
        sess: Sess,
        base: u64,
    ) -> Result<(), NoMemory>
        requires { IsSound self.old }
        ensures spent { self.new.spent ≡ self.old.spent }
        ensures after { OnOk result (Follows (λ home p. on_truncation home sess base
            (sender_at home.plan (streams_of home) sender) p) self.old self.new) }
    {
        let Some((port, r)) = self.links.sender(sender) else {
            return Ok(());
        };
        if sess != self.path.session(port) {
            return Ok(());
        }
        if self.links.on_truncated(port, r, base) {
            self.begin_recovery(alloc)?;
        }
        Ok(())
    }

    /// What an actor tells of itself is noted, and of the session, where its port reads it.
    fn on_beat(&mut self, sender: u64, beat: Beat)
        requires { IsSound self.old }
        ensures spent { self.new.spent ≡ self.old.spent }
        ensures after { Follows (λ home p. on_peer_beat beat (replica_number home sender)
            (on_upstream_beat beat (sender_at home.plan (streams_of home) sender) p)) self.old self.new }
    {
        if let Some(port) = self.links.on_beat(sender, beat) {
            self.path.heard(port, beat.tally);
        }
    }

    /// A reader acknowledges so many tuples.
    fn on_ack(&mut self, sender: u64, inc: u64, count: u64)
        requires { IsSound self.old }
        ensures spent { self.new.spent ≡ self.old.spent }
        ensures after { Follows (λ home p. if p.recovering then p else on_ack home inc count
            (reader_place home sender) p) self.old self.new }
    {
        if self.recovering {
            return;
        }
        if let Some(reader) = place_of(self.readers.as_slice(), sender) {
            self.path.ack(reader, inc, count);
        }
    }

    /// Another replica asks to reconcile: it is granted, or nothing is said.
    fn on_ask(
        &mut self,
        alloc: Global,
        sender: u64,
        inc: u64,
        ask: u64,
    ) -> Result<Vec<Mail>, NoMemory>
        requires { IsSound self.old }
        ensures spent { self.new.spent ≡ self.old.spent }
        ensures after { IfOk result (λ mails. Steps
            (λ home p. on_ask home inc ask (replica_number home sender) p) self.old self.new mails.items) }
    {
        let Some(r) = self.links.replica(sender) else {
            return Ok(Vec::new(alloc));
        };
        if !self.links.on_ask(r, inc, ask, self.state) {
            return Ok(Vec::new(alloc));
        }
        one(alloc, sender, Message::Grant(inc, ask))
    }

    /// The own ask is granted: where tentative output is to be corrected, the node reconciles.
    fn on_grant(&mut self, alloc: Global, inc: u64, ask: u64) -> Result<Vec<Mail>, NoMemory>
        requires { IsSound self.old }
        ensures spent { self.new.spent ≡ self.old.spent }
        ensures after { IfOk result (λ mails. Steps (λ home p. on_grant home inc ask p) self.old self.new mails.items) }
    {
        if self.state != NodeState::UpFailure || !self.links.on_grant(inc, ask) {
            return Ok(Vec::new(alloc));
        }
        self.links.begin_ask();
        self.enter(alloc)
    }

    /// Another replica recovers: it gets a snapshot, but of a node that recovers itself.
    fn on_snap_ask(
        &mut self,
        alloc: Global,
        sender: u64,
        inc: u64,
        number: u64,
    ) -> Result<Vec<Mail>, NoMemory>
        requires { IsSound self.old }
        ensures spent { self.new.spent ≡ self.old.spent }
        ensures after { IfOk result (λ mails. Steps
            (unless_recovering (λ home p. on_snap_ask home sender inc number p)) self.old self.new mails.items) }
    {
        if self.recovering {
            return Ok(Vec::new(alloc));
        }
        let snapshot = self.path.snapshot(alloc)?;
        let packet = Packet::SnapFor(inc, number, Box::new(alloc, snapshot)?);
        let mut mails = Vec::new(alloc);
        mails.push(Mail { to: sender, packet })?;
        Ok(mails)
    }

    /// A snapshot comes: it is adopted where it is for the recovery that goes on.
    fn on_snap(
        &mut self,
        alloc: Global,
        inc: u64,
        number: u64,
        snapshot: &Snapshot,
    ) -> Result<(), NoMemory>
        requires { (home : Home) × (p : PlainNode) × (s : Snap) × CanAdopt self.old snapshot.now home p s }
        ensures spent { self.new.spent ≡ self.old.spent }
        ensures after { OnOk result ((home : Home) → (p : PlainNode) → (s : Snap)
            → CanAdopt self.old snapshot.now home p s → StandsForNode home self.new (on_snap home inc number s p)) }
    {
        if self.recovering && inc == self.links.inc() && number == self.links.tries() {
            self.go_on_from(alloc, snapshot)?;
        }
        Ok(())
    }
}
