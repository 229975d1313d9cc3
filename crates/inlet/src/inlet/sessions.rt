//! The session of an inlet: how it is opened, and which batches belong to it.
ghost use Rattle.std.specs.Prelude.{◌≡◌, ◌+◌, ◌^◌, ◌<◌, List, []};
ghost use Rattle.dpc_model.specs.Reading.{stable_reader};
ghost use Rattle.dpc_model.specs.Inlets.{InletState, new_inlet, restarted_inlet, sess_of, shows_loss, after_tally, with_next_session, asked_by};
ghost use Rattle.dpc_model.specs.declared.tuples.Tuple.{Tuple};
ghost use Rattle.inlet.specs.Forgotten.{Keeps};

use crate::inlet::Inlet;
use crate::tentative::Tentative;
use dpc_model::messages::{Sess, Subscribe};
use held_tuples::held::HeldTuples;
use std::alloc::Global;

impl Inlet {
    /// At the opening: the session (inc, 1) is open and answered. It takes no memory.
    pub fn new(alloc: Global, inc: u64) -> Inlet
        ensures { result ≡ record { count = 0; state = new_inlet inc } }
    {
        Inlet {
            count: 0,
            kept: HeldTuples::new(alloc),
            bound: 0,
            tentative: Tentative::new(alloc),
            passed: 0,
            sess: Sess { inc, number: 1 },
            next: 0,
            answered: true,
            broken: false,
        }
    }

    /// An inlet that had `count` tuples, all of them below `bound` and none of them kept, and has to ask
    /// for a session behind `last`. It takes no memory.
    pub fn start_at(alloc: Global, last: Sess, count: u64, bound: u64) -> Inlet
        ensures { result ≡ record { count = count; state = restarted_inlet (stable_reader [] bound) last } }
    {
        Inlet {
            count,
            kept: HeldTuples::new(alloc),
            bound,
            tentative: Tentative::new(alloc),
            passed: 0,
            sess: last,
            next: 0,
            answered: false,
            broken: true,
        }
    }

    /// What the sender tells of the session, and whether it shows that a batch is missing. Then the inlet
    /// is broken. It takes no memory.
    pub fn heard(&mut self, tally: Option<(Sess, u64)>) -> bool
        ensures after { self.new ≡ record self.old { state = after_tally self.old.state tally } }
        ensures told { result ≡ shows_loss self.old.state tally }
    {
        let lost = self.answered
            && match tally {
                None => true,
                Some((sess, sent)) => sess != self.sess || sent > self.next,
            };
        self.broken = self.broken || lost;
        lost
    }

    /// The next session is asked for. It takes no memory.
    pub fn reopen(&mut self) -> Subscribe
        requires { self.old.state.sess.number + 1 < 2 ^ 64 }
        ensures after { self.new ≡ record self.old { state = with_next_session self.old.state } }
        ensures asked { (gone : List Tuple) (x : InletState) → Keeps gone self.old x → result ≡ asked_by (with_next_session x) }
    {
        self.sess.number += 1;
        self.next = 0;
        self.answered = false;
        self.broken = false;
        Subscribe {
            sess: self.sess,
            n: self.count,
            tentative: self.unsure(),
        }
    }

    /// The last session gets a number. It takes no memory.
    pub fn renumber(&mut self, number: u64)
        ensures { self.new ≡ record self.old { state = record self.old.state { sess = sess_of self.old.state.sess.inc number } } }
    {
        self.sess.number = number;
    }

    /// The session that was asked for last.
    pub fn sess(&self) -> Sess
        ensures { result ≡ self.now.state.sess }
    {
        self.sess
    }

    /// The index of the batch that is taken next.
    pub fn next(&self) -> u64
        ensures { result ≡ self.now.state.next }
    {
        self.next
    }

    /// Whether the session's first batch came.
    pub fn answered(&self) -> bool
        ensures { result ≡ self.now.state.answered }
    {
        self.answered
    }

    /// Whether a batch is missing.
    pub fn broken(&self) -> bool
        ensures { result ≡ self.now.state.broken }
    {
        self.broken
    }
}
