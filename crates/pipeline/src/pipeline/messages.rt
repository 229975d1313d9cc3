//! What comes to single ports, what goes to single readers, and what a node needs to know of both.
ghost use Rattle.std.specs.Prelude.{◌≡◌, ◌*◌, ◌<◌, Bool, List, length, IfOk, OnErr};
ghost use Rattle.dpc_lists.specs.Lists.{nth, changed};
ghost use Rattle.dpc_model.specs.Inlets.{InletState, after_tally, no_inlet};
ghost use Rattle.dpc_model.specs.NodeStates.{is_stable};
ghost use Rattle.dpc_model.specs.Parts.{Inputs, Outputs, shown_of, AreInOrder};
ghost use Rattle.dpc_model.specs.Sessions.{no_session, after_ack, tally_of, view_items};
ghost use Rattle.dpc_model.specs.Streams.{count_below};
ghost use Rattle.dpc_model.specs.declared.operators.OpSpec.{OpSpec};
ghost use Rattle.soutput.specs.Laws.{outputs_at};
ghost use Rattle.sunion.specs.Laws.{with_inlet};
ghost use Rattle.sunion.specs.Unions.{no_value, last_due_in};
ghost use Rattle.pipeline.specs.Flowing.{StandsForData, IsSetAs, stream_at};
ghost use Rattle.pipeline.specs.Messages.{IsTakenAt, IsReopened, HasAnswered};

use crate::inlets::count_done;
use crate::pipeline::Pipeline;
use dpc_lists::faults::NoMemory;
use dpc_lists::shared::Shared;
use dpc_model::messages::{Message, NodeState, Sess, Subscribe};
use dpc_model::tuples::{Item, Items};
use std::alloc::Global;
use sunion::sunion::Verdict;

impl Pipeline {
    /// A port takes a batch at the node's clock. A number that would pass its range counts as want of
    /// memory, and want of memory changes nothing.
    pub fn accept(
        &mut self,
        alloc: Global,
        port: usize,
        sess: Sess,
        index: u64,
        items: &Shared<Item>,
        now: u64,
    ) -> Result<Verdict, NoMemory>
        requires inside { port < length self.old.union.union.inlets }
        ensures fixed { IfOk result (λ told. IsSetAs self.old self.new) }
        ensures taken { IfOk result (λ told. (ops : List OpSpec) → (x : Inputs) → (o : Outputs) → StandsForData ops self.old x o
            → IsTakenAt ops port sess index items.now now self.old self.new x o told) }
        ensures err { OnErr result (self.new ≡ self.old) }
    {
        if !self.inputs.inlet(port).has_room(items.len()) {
            return Err(NoMemory);
        }
        let verdict = self.inputs.accept(alloc, port, sess, index, items, now)?;
        Ok(verdict)
    }

    /// What the sender of a port's stream tells of the session. Where it shows that a batch is missing the
    /// port is broken. It takes no memory.
    pub fn heard(&mut self, port: usize, tally: Option<(Sess, u64)>)
        requires inside { port < length self.old.union.union.inlets }
        ensures fixed { IsSetAs self.old self.new }
        ensures stands { (ops : List OpSpec) → (x : Inputs) → (o : Outputs) → StandsForData ops self.old x o
            → StandsForData ops self.new (with_inlet port (λ (i : InletState). after_tally i tally) x) o }
    {
        self.inputs.heard(port, tally);
    }

    /// The next session of a port is asked for. Where its number would pass its range, nothing changes.
    pub fn reopen(&mut self, port: usize) -> Result<Subscribe, NoMemory>
        requires inside { port < length self.old.union.union.inlets }
        ensures fixed { IfOk result (λ asked. IsSetAs self.old self.new) }
        ensures reopened { IfOk result (λ asked. (ops : List OpSpec) → (x : Inputs) → (o : Outputs) → StandsForData ops self.old x o
            → IsReopened ops port self.new x o asked) }
        ensures err { OnErr result (self.new ≡ self.old) }
    {
        if self.inputs.inlet(port).sess().number == u64::MAX {
            return Err(NoMemory);
        }
        Ok(self.inputs.reopen(port))
    }

    /// Answers a reader's subscription. Want of memory changes nothing.
    pub fn open_session(
        &mut self,
        alloc: Global,
        reader: usize,
        asked: Subscribe,
        state: NodeState,
    ) -> Result<Option<Message>, NoMemory>
        requires inside { reader < length self.old.output.subs }
        ensures fixed { IfOk result (λ told. IsSetAs self.old self.new) }
        ensures answered { IfOk result (λ told. (ops : List OpSpec) → (x : Inputs) → (o : Outputs) → StandsForData ops self.old x o
            → HasAnswered ops reader asked (is_stable state) self.old self.new x o told) }
        ensures err { OnErr result (self.new ≡ self.old) }
    {
        let told = self.output.open_session(alloc, reader, asked, state)?;
        Ok(told)
    }

    /// What a reader that holds nothing tentative is sent first, where it asks for all that is kept. Whether
    /// the node is STABLE doesn't matter.
    pub fn view(&self, alloc: Global) -> Result<Items, NoMemory>
        ensures { IfOk result (λ items. (ops : List OpSpec) (x : Inputs) (o : Outputs) (stable_now : Bool) → StandsForData ops self.now x o
            → items ≡ view_items (shown_of (stream_at ops self.now x) o.base stable_now)) }
    {
        let items = self.output.view(alloc)?;
        Ok(items)
    }

    /// A reader acknowledged `count` tuples in an incarnation. What every reader acknowledged goes. It
    /// takes no memory.
    pub fn ack(&mut self, reader: usize, inc: u64, count: u64)
        requires inside { reader < length self.old.output.subs }
        ensures fixed { IsSetAs self.old self.new }
        ensures stands { (ops : List OpSpec) → (x : Inputs) → (o : Outputs) → StandsForData ops self.old x o
            → StandsForData ops self.new x (outputs_at (length (stream_at ops self.old x).stable)
            (record o { acks = changed reader (after_ack inc count) o.acks })) }
    {
        self.output.ack(reader, inc, count);
    }

    /// The last bucket that can't wait; `None` exactly where there is none. Where the plan passes on how
    /// far tentative output goes, that counts too. It takes no memory.
    pub fn due(&self, now: u64) -> Option<u64>
        ensures { (ops : List OpSpec) → (x : Inputs) → (o : Outputs) → StandsForData ops self.now x o
            → result ≡ last_due_in self.now.union self.now.passing now x }
    {
        if self.passing {
            self.inputs.due(now)
        } else {
            self.inputs.overdue(now)
        }
    }

    /// How many stable tuples of a port are processed stably. It costs a search, and takes no memory.
    pub fn done(&self, port: usize) -> u64
        requires inside { port < length self.now.union.union.inlets }
        ensures { (ops : List OpSpec) → (x : Inputs) → (o : Outputs) → StandsForData ops self.now x o → AreInOrder x
            → result ≡ count_below (nth no_inlet x.inlets port).held.stable (x.cursor * self.now.union.width) }
    {
        let time = u128::from(self.inputs.cursor()) * u128::from(self.inputs.width());
        count_done(self.inputs.inlet(port), time)
    }

    /// How many stable tuples came to a port.
    pub fn count(&self, port: usize) -> u64
        requires inside { port < length self.now.union.union.inlets }
        ensures { result ≡ (nth no_value self.now.union.union.inlets port).count }
    {
        self.inputs.inlet(port).count()
    }

    /// Whether a batch is missing at a port.
    pub fn is_broken(&self, port: usize) -> bool
        requires inside { port < length self.now.union.union.inlets }
        ensures { result ≡ (nth no_value self.now.union.union.inlets port).state.broken }
    {
        self.inputs.inlet(port).broken()
    }

    /// Whether the first batch of a port's session came.
    pub fn is_answered(&self, port: usize) -> bool
        requires inside { port < length self.now.union.union.inlets }
        ensures { result ≡ (nth no_value self.now.union.union.inlets port).state.answered }
    {
        self.inputs.inlet(port).answered()
    }

    /// The session of a port that was asked for last.
    pub fn session(&self, port: usize) -> Sess
        requires inside { port < length self.now.union.union.inlets }
        ensures { result ≡ (nth no_value self.now.union.union.inlets port).state.sess }
    {
        self.inputs.inlet(port).sess()
    }

    /// A reader's open session with the number of its batches; `None` exactly where it has none.
    pub fn tally(&self, reader: usize) -> Option<(Sess, u64)>
        requires inside { reader < length self.now.output.subs }
        ensures { result ≡ tally_of (nth no_session self.now.output.subs reader) }
    {
        self.output.tally(reader)
    }
}
