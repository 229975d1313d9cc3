//! The sessions of the ports, and what is told of them.
ghost use Rattle.std.specs.Prelude.{◌≡◌, ◌+◌, ◌*◌, ◌^◌, ◌<◌, length, OnOk};
ghost use Rattle.dpc_lists.specs.Lists.{nth};
ghost use Rattle.dpc_model.specs.Inlets.{with_next_session, after_tally, shows_loss, asked_by, sess_of, no_inlet};
ghost use Rattle.dpc_model.specs.Parts.{Inputs};
ghost use Rattle.sunion.specs.Unions.{StandsForInputs, no_value, with_inlet_state, restarted_union};

use crate::ports::ports_begun_anew;
use crate::sunion::SUnion;
use dpc_lists::faults::NoMemory;
use dpc_model::messages::{Sess, Subscribe};
use inlet::inlet::Inlet;
use std::alloc::Global;
use std::collections::VecDeque;

impl SUnion {
    /// The next session of a port is asked for. It takes no memory.
    pub fn reopen(&mut self, port: usize) -> Subscribe
        requires inside { port < length self.old.union.inlets }
        requires range { (nth no_value self.old.union.inlets port).state.sess.number + 1 < 2 ^ 64 }
        ensures after { self.new ≡ with_inlet_state port with_next_session self.old }
        ensures asked { (x : Inputs) → StandsForInputs self.old x → result ≡ asked_by (with_next_session (nth no_inlet x.inlets port)) }
    {
        self.ports[port].reopen()
    }

    /// What the sender of a port's stream tells of the session, and whether it shows that a batch is
    /// missing. Then the port is broken. It takes no memory.
    pub fn heard(&mut self, port: usize, tally: Option<(Sess, u64)>) -> bool
        requires inside { port < length self.old.union.inlets }
        ensures after { self.new ≡ with_inlet_state port (λ i. after_tally i tally) self.old }
        ensures told { result ≡ shows_loss (nth no_value self.old.union.inlets port).state tally }
    {
        self.ports[port].heard(tally)
    }

    /// The last session of a port gets a number. It takes no memory.
    pub fn renumber(&mut self, port: usize, number: u64)
        requires inside { port < length self.old.union.inlets }
        ensures { self.new ≡ with_inlet_state port (λ i. record i { sess = sess_of i.sess.inc number }) self.old }
    {
        self.ports[port].renumber(number);
    }

    /// Begins anew behind a snapshot: port p had `counts[p]` tuples, all below the cursor's bucket and none of
    /// them kept. Each port has to ask for a session behind its last one. Want of memory may leave some of it.
    pub fn restart_at(&mut self, alloc: Global, cursor: u64, counts: &[u64]) -> Result<(), NoMemory>
        requires ports { length counts.now ≡ length self.old.union.inlets }
        requires range { cursor * self.old.width < 2 ^ 64 }
        ensures { OnOk result (self.new ≡ restarted_union cursor counts.now self.old) }
    {
        self.ports = ports_begun_anew(alloc, self.ports.as_slice(), counts, cursor * self.width)?;
        self.clocks = VecDeque::new(alloc);
        self.cursor = cursor;
        self.closed = 0;
        Ok(())
    }

    /// The first bucket that is not processed stably.
    pub fn cursor(&self) -> u64
        ensures { result ≡ self.now.union.cursor }
    {
        self.cursor
    }

    /// How many buckets are closed from the cursor on.
    pub fn closed(&self) -> u64
        ensures { result ≡ self.now.union.closed }
    {
        self.closed
    }

    /// How many units of time a bucket has.
    pub fn width(&self) -> u64
        ensures { result ≡ self.now.width }
    {
        self.width
    }

    /// How many ports there are.
    pub fn ports(&self) -> usize
        ensures { result ≡ length self.now.union.inlets }
    {
        self.ports.len()
    }

    /// The inlet of a port.
    pub fn inlet(&self, port: usize) -> &Inlet
        requires { port < length self.now.union.inlets }
        ensures { result.now ≡ nth no_value self.now.union.inlets port }
    {
        &self.ports[port]
    }
}
