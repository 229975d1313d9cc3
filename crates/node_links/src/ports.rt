//! The senders of each port's stream.
ghost use Rattle.std.specs.Prelude.{◌≡◌, ◌<◌, ◌≤◌, false, [], length, map, All, IfOk};
ghost use Rattle.dpc_lists.specs.Lists.{nth, changed};
ghost use Rattle.dpc_model.specs.Actors.{senders_of};
ghost use Rattle.dpc_model.specs.Ports.{all_truncated};
ghost use Rattle.dpc_model.specs.declared.plans.StreamRef.{StreamRef};
ghost use Rattle.dpc_model.specs.declared.plans.TheConstants.{MOST_REPLICAS};
ghost use Rattle.upstream.specs.Upstreams.{new_upstream, with_marks_ended, with_beat, with_truncation, with_tick, with_no_tick, port_by, with_choice, asked_actor};
ghost use Rattle.node_links.specs.Linking.{sender_among, seen_otherwise, senders_at, known_at, no_upstream, no_value, HaveNoMarks};

use crate::senders::{sender, table_of};
use actor_lists::lists::roles_of;
use dpc_lists::faults::NoMemory;
use dpc_model::messages::Beat;
use dpc_model::plans::{Plan, StreamRef};
use std::alloc::Global;
use std::marker::Model;
use upstream::upstream::Upstream;

/// The senders of each port's stream. But for the making none of its calls takes memory. Contracts see a
/// `List UpstreamValue`, by port.
#[derive(Drop)]
pub(crate) struct Ports {
    upstreams: Vec<Upstream>,
    /// The port and the replica that each actor of the plan is.
    table: Vec<Option<(u32, u32)>>,
    /// Whether a replica was ever marked: else no mark is looked for.
    marked: bool,
}

impl Model for Ports {
    ghost use Rattle.std.specs.Coded.{codes};
    ghost use Rattle.std.specs.Prelude.{◌≡◌, false, List};
    ghost use Rattle.upstream.specs.Upstreams.{UpstreamValue};
    ghost use Rattle.node_links.specs.Linking.{senders_at, known_at, IsTable, HaveNoMarks};

    ghost Value = { List UpstreamValue };

    ghost coded = { Prim.hlevel codes };

    ghost view = { λ p. p.upstreams.items };

    ghost invariant = { λ p. IsTable p.table.items (senders_at p.upstreams.items)
        × (p.marked ≡ false → HaveNoMarks (known_at p.upstreams.items)) };
}

/// The senders of each of these streams, of which nothing is known yet.
fn new_upstreams(
    alloc: Global,
    plan: &Plan,
    streams: &[StreamRef],
) -> Result<Vec<Upstream>, NoMemory>
    requires { All (λ (s : StreamRef). (0 < length (senders_of plan.now s))
        × (length (senders_of plan.now s) ≤ MOST_REPLICAS)) streams.now }
    ensures { IfOk result (λ us. us.items ≡ map (λ (s : StreamRef). new_upstream (senders_of plan.now s)) streams.now) }
{
    let mut upstreams = Vec::with_capacity(alloc, streams.len())?;
    for stream in streams {
        upstreams.push(Upstream::new(alloc, plan, *stream)?)?;
    }
    Ok(upstreams)
}

/// One tick more at each port.
fn tick_all(upstreams: &mut [Upstream])
    ensures { upstreams.new ≡ map (seen_otherwise with_tick) upstreams.old }
{
    for upstream in upstreams.iter_mut() {
        upstream.tick();
    }
}

/// The session of each port is lost.
fn forget_all(upstreams: &mut [Upstream])
    ensures { upstreams.new ≡ map (seen_otherwise with_no_tick) upstreams.old }
{
    for upstream in upstreams.iter_mut() {
        upstream.forget_session();
    }
}

impl Ports {
    /// A port for each of these streams. Nothing is known yet.
    pub(crate) fn new(alloc: Global, plan: &Plan, streams: &[StreamRef]) -> Result<Ports, NoMemory>
        requires { All (λ (s : StreamRef). (0 < length (senders_of plan.now s))
            × (length (senders_of plan.now s) ≤ MOST_REPLICAS)) streams.now }
        ensures { IfOk result (λ ports. ports ≡ map (λ (s : StreamRef). new_upstream (senders_of plan.now s)) streams.now) }
    {
        let upstreams = new_upstreams(alloc, plan, streams)?;
        let actors = roles_of(alloc, plan)?.len();
        let table = table_of(alloc, upstreams.as_slice(), actors)?;
        Ok(Ports {
            upstreams,
            table,
            marked: false,
        })
    }

    /// How many there are.
    pub(crate) fn len(&self) -> usize
        ensures { result ≡ length self.now }
    {
        self.upstreams.len()
    }

    /// The first port whose stream an actor sends, and which of its replicas that is.
    pub(crate) fn sender(&self, actor: u64) -> Option<(usize, usize)>
        ensures { result ≡ sender_among 0 (senders_at self.now) actor }
    {
        let Some(entry) = self.table.get(actor as usize) else {
            return sender(self.upstreams.as_slice(), actor);
        };
        let (port, r) = (*entry)?;
        Some((port as usize, r as usize))
    }

    /// The senders of a port's stream by replica, as actors.
    pub(crate) fn senders(&self, port: usize) -> &[u64]
        requires { port < length self.now }
        ensures { result.now ≡ nth [] (senders_at self.now) port }
    {
        self.upstreams[port].senders()
    }

    /// The replica that a port reads.
    pub(crate) fn chosen(&self, port: usize) -> usize
        requires { port < length self.now }
        ensures { result ≡ (nth no_upstream (known_at self.now) port).chosen }
    {
        self.upstreams[port].chosen()
    }

    /// Whether each replica of a port is marked.
    pub(crate) fn all_truncated(&self, port: usize) -> bool
        requires { port < length self.now }
        ensures { result ≡ all_truncated (port_by false false (nth no_upstream (known_at self.now) port)) }
    {
        self.upstreams[port].all_truncated()
    }

    /// Whether a replica may be marked.
    pub(crate) fn has_marks(&self) -> bool
        ensures { result ≡ false → HaveNoMarks (known_at self.now) }
    {
        self.marked
    }

    /// So many tuples of a port's stream are known: marks of its replicas end.
    pub(crate) fn end_marks(&mut self, port: usize, count: u64)
        requires { port < length self.old }
        ensures { self.new ≡ changed port (seen_otherwise (with_marks_ended count)) self.old }
    {
        self.upstreams[port].end_marks(count);
    }

    /// A replica of a port tells of itself.
    pub(crate) fn note_beat(&mut self, port: usize, r: usize, beat: Beat)
        requires port { port < length self.old }
        requires replica { r < length (nth [] (senders_at self.old) port) }
        ensures { self.new ≡ changed port (seen_otherwise (with_beat r beat)) self.old }
    {
        self.upstreams[port].note_beat(r, beat);
    }

    /// A replica of a port can send only from this tuple on.
    pub(crate) fn mark_truncated(&mut self, port: usize, r: usize, base: u64)
        requires port { port < length self.old }
        requires replica { r < length (nth [] (senders_at self.old) port) }
        ensures { self.new ≡ changed port (seen_otherwise (with_truncation r base)) self.old }
    {
        self.upstreams[port].mark_truncated(r, base);
        self.marked = true;
    }

    /// A port chooses the replica to read. The answer is the actor to ask for a new session.
    pub(crate) fn choose(&mut self, port: usize, broken: bool, answered: bool) -> Option<u64>
        requires { port < length self.old }
        ensures after { self.new ≡ changed port (seen_otherwise (with_choice broken answered)) self.old }
        ensures asked { result ≡ asked_actor broken answered (nth no_value self.old port) }
    {
        self.upstreams[port].choose(broken, answered)
    }

    /// One tick more.
    pub(crate) fn tick(&mut self)
        ensures { self.new ≡ map (seen_otherwise with_tick) self.old }
    {
        tick_all(self.upstreams.as_mut_slice());
    }

    /// The sessions are lost.
    pub(crate) fn forget_sessions(&mut self)
        ensures { self.new ≡ map (seen_otherwise with_no_tick) self.old }
    {
        forget_all(self.upstreams.as_mut_slice());
    }
}
