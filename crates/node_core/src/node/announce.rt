//! What a node tells its neighbours at the end of a tick.
ghost use Rattle.std.specs.Prelude.{◌≡◌, ℕ, ◌<◌, length, IfOk};
ghost use Rattle.dpc_lists.specs.Lists.{nth};
ghost use Rattle.dpc_model.specs.Ports.{no_port};
ghost use Rattle.node_model.specs.Nodes.{Home, PlainNode, streams_of};
ghost use Rattle.node_model.specs.NodeSteps.{announcing_step, done_at, acks_from, beats};
ghost use Rattle.node_model.specs.Mails.{in_actor_order};
ghost use Rattle.node_model.specs.Fitting.{IsFit};
ghost use Rattle.node_core.specs.Standing.{StandsForNode, AreMails};
ghost use Rattle.node_core.specs.Stepping.{IsSound, Steps, beat_with};

use crate::node::Node;
use crate::packets::Mail;
use crate::sending::{in_actor_order, mail, push_acks};
use dpc_lists::faults::NoMemory;
use dpc_model::messages::{Beat, Message, Sess};
use std::alloc::Global;

impl Node {
    /// Senders are told how many tuples are done with, and neighbours that the node is there.
    pub(crate) fn announce(&self, alloc: Global) -> Result<Vec<Mail>, NoMemory>
        requires { IsSound self.now }
        ensures { IfOk result (λ mails. Steps announcing_step self.now self.now mails.items) }
    {
        let mut mails = self.acks(alloc)?;
        mails.append(&mut self.beats(alloc)?)?;
        Ok(mails)
    }

    /// To each sender of each port: the number of tuples below the cursor's bucket.
    fn acks(&self, alloc: Global) -> Result<Vec<Mail>, NoMemory>
        requires { IsSound self.now }
        ensures { IfOk result (λ mails. (home : Home) (p : PlainNode) → StandsForNode home self.now p → IsFit home p
            → AreMails home mails.items (in_actor_order (acks_from home p p.ports (streams_of home)))) }
    {
        let inc = self.links.inc();
        let mut mails = Vec::new(alloc);
        for port in 0..self.links.ports() {
            let count = self.done(port);
            push_acks(&mut mails, self.links.senders(port), inc, count)?;
        }
        let mails = in_actor_order(mails)?;
        Ok(mails)
    }

    /// How many of a port's tuples lie below the cursor's bucket; none while the node recovers.
    fn done(&self, port: usize) -> u64
        requires port { port < length self.now.links.known.upstreams }
        requires sound { IsSound self.now }
        ensures { (home : Home) (p : PlainNode) → StandsForNode home self.now p → IsFit home p
            → result ≡ done_at home p (nth no_port p.ports port) }
    {
        if self.recovering {
            return 0;
        }
        self.path.done(port)
    }

    /// What the node tells of itself: to the other replicas, and to each reader with its session.
    fn beats(&self, alloc: Global) -> Result<Vec<Mail>, NoMemory>
        requires { IsSound self.now }
        ensures { IfOk result (λ mails. (home : Home) (p : PlainNode) → StandsForNode home self.now p → IsFit home p
            → AreMails home mails.items (in_actor_order (beats home p))) }
    {
        let mut mails = Vec::new(alloc);
        for peer in self.links.peers() {
            mails.push(mail(*peer, self.beat(None)))?;
        }
        for (reader, actor) in self.readers.iter().enumerate() {
            mails.push(mail(*actor, self.beat(self.path.tally(reader))))?;
        }
        let mails = in_actor_order(mails)?;
        Ok(mails)
    }

    /// What the node tells of itself, with the session of the addressee.
    fn beat(&self, tally: Option<(Sess, u64)>) -> Message
        ensures { result ≡ beat_with self.now tally }
    {
        Message::Beat(Beat {
            inc: self.links.inc(),
            state: self.state,
            recovering: self.recovering,
            over: self.links.over(),
            tally,
        })
    }
}
