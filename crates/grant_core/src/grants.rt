//! One replica's asks and promises.
ghost use Rattle.std.specs.Prelude.{◌≡◌, ◌+◌, ◌^◌, ◌<◌, ◌≤◌, ℕ, is_none, length, option_map, replicate, Some, None, if◌then◌else◌};
ghost use Rattle.dpc_model.specs.Granting.{Key, new_grants, own_key, promised_other, grants, with_promise, may_enter_by, promise_after, after_peer_beat, after_absence, with_ask, with_ask_over};

use crate::keys::{Key, Promise, greater, is_at_most, is_over_by, later};
use arrayvec::ArrayVec;
use dpc_model::messages::NodeState;
use dpc_model::plans::MOST_REPLICAS;
use std::marker::Model;

/// One replica's asks and promises. While it reconciles the others of its fragment serve: it asks each of
/// them, and a replica that granted doesn't begin to reconcile before the ask is over. No call takes memory.
/// Contracts see a `Grants`.
#[derive(Drop)]
pub struct GrantCore {
    /// Its place among the replicas.
    me: usize,
    inc: u64,
    promise: Option<Promise>,
    /// Whether an ask of its own runs.
    running: bool,
    /// The number of the last own ask that is over.
    over: u64,
    /// By replica the last ask that one of its beats said to be over.
    heard: ArrayVec<Option<Key>, MOST_REPLICAS>,
}

impl Model for GrantCore {
    ghost use Rattle.std.specs.Coded.{codes};
    ghost use Rattle.dpc_model.specs.Granting.{Grants};

    ghost Value = { Grants };

    ghost coded = { Prim.hlevel codes };

    ghost view = { λ g. record { me = g.me; inc = g.inc; promise = g.promise; running = g.running; over = g.over; heard = g.heard.items } };
}

/// Nothing was heard of so many replicas.
fn nothing_heard(replicas: usize) -> ArrayVec<Option<Key>, MOST_REPLICAS>
    requires { replicas ≤ MOST_REPLICAS }
    ensures { result.items ≡ replicate replicas None }
{
    let mut heard = ArrayVec::new();
    for _ in 0..replicas {
        heard.push(None);
    }
    heard
}

impl GrantCore {
    /// A replica that neither asked nor promised anything, in an incarnation of its own, by its place
    /// among so many replicas.
    pub fn new(me: usize, inc: u64, replicas: usize) -> GrantCore
        requires { replicas ≤ MOST_REPLICAS }
        ensures { result ≡ new_grants me inc replicas }
    {
        GrantCore {
            me,
            inc,
            promise: None,
            running: false,
            over: 0,
            heard: nothing_heard(replicas),
        }
    }

    /// Its incarnation.
    pub fn inc(&self) -> u64
        ensures { result ≡ self.now.inc }
    {
        self.inc
    }

    /// The number of its last ask that is over, 0 before the first.
    pub fn over(&self) -> u64
        ensures { result ≡ self.now.over }
    {
        self.over
    }

    /// Whether an ask of its own runs.
    pub fn running(&self) -> bool
        ensures { result ≡ self.now.running }
    {
        self.running
    }

    /// The place of the replica that has its promise.
    pub fn promised_to(&self) -> Option<usize>
        ensures { result ≡ option_map (λ (p : ℕ × Key). p.0) self.now.promise }
    {
        match &self.promise {
            Some(promise) => Some(promise.to),
            None => None,
        }
    }

    /// The ask to send to the other replicas: the own one that runs, and where none runs, one begins.
    /// `None` exactly where somebody has its promise.
    pub fn want(&mut self) -> Option<Key>
        requires { self.old.over + 1 < 2 ^ 64 }
        ensures ask { result ≡ (if is_none self.old.promise then Some (own_key self.old) else None) }
        ensures after { self.new ≡ (if is_none self.old.promise then with_ask self.old else self.old) }
    {
        if self.promise.is_some() {
            return None;
        }
        self.running = true;
        Some((self.inc, self.over + 1))
    }

    /// An own ask runs from now on.
    pub fn begin(&mut self)
        ensures { self.new ≡ with_ask self.old }
    {
        self.running = true;
    }

    /// The own ask is over, where one runs.
    pub fn finish(&mut self)
        requires { self.old.over + 1 < 2 ^ 64 }
        ensures { self.new ≡ with_ask_over self.old }
    {
        if self.running {
            self.running = false;
            self.over += 1;
        }
    }

    /// A replica asks, while this one is in this state. Whether it is granted, and then promised too.
    pub fn on_ask(&mut self, r: usize, inc: u64, ask: u64, state: NodeState) -> bool
        requires { r < length self.old.heard }
        ensures granted { result ≡ grants self.old state r (inc, ask) }
        ensures after { self.new ≡ (if result then with_promise self.old r (inc, ask) else self.old) }
    {
        let granted = self.may_grant(r, (inc, ask), state);
        if granted {
            self.promise_to(r, (inc, ask));
        }
        granted
    }

    /// Whether a grant of this ask lets it reconcile: it is the own ask that runs, and nobody has its promise.
    pub fn on_grant(&self, inc: u64, ask: u64) -> bool
        ensures { result ≡ may_enter_by self.now (inc, ask) }
    {
        let is_own = self.running && inc == self.inc && ask.checked_sub(1) == Some(self.over);
        is_own && self.promise.is_none()
    }

    /// A beat of a replica tells its incarnation, and the number of its last ask that is over. A promise
    /// for that ask or an earlier one ends.
    pub fn on_beat(&mut self, r: usize, inc: u64, over: u64)
        requires { r < length self.old.heard }
        ensures { self.new ≡ after_peer_beat self.old r (inc, over) }
    {
        if self.is_promised_until(r, (inc, over)) {
            self.promise = None;
        }
        self.heard[r] = later((inc, over), self.heard[r]);
    }

    /// A tick, with whether each replica is absent. A promise to an absent one ends.
    pub fn on_tick(&mut self, absent: &[bool])
        ensures { self.new ≡ after_absence self.old absent.now }
    {
        if let Some(promise) = &self.promise {
            if absent.get(promise.to).copied().unwrap_or(false) {
                self.promise = None;
            }
        }
    }

    /// Whether a replica's ask is granted in this state.
    fn may_grant(&self, r: usize, key: Key, state: NodeState) -> bool
        requires { r < length self.now.heard }
        ensures { result ≡ grants self.now state r key }
    {
        let reconciles = matches!(state, NodeState::Stabilization);
        let has_precedence = self.running && self.me < r;
        let is_over = is_over_by(key, self.heard[r]);
        !(reconciles || self.promised_other(r) || has_precedence || is_over)
    }

    /// Whether a replica other than this one has the promise.
    fn promised_other(&self, r: usize) -> bool
        ensures { result ≡ promised_other self.now r }
    {
        match &self.promise {
            Some(promise) => promise.to != r,
            None => false,
        }
    }

    /// Whether the promise is this replica's, for this ask or an earlier one.
    fn is_promised_until(&self, r: usize, key: Key) -> bool
        ensures { promise_after self.now.promise r key ≡ (if result then None else self.now.promise) }
    {
        match &self.promise {
            Some(promise) => promise.to == r && is_at_most(promise.key, key),
            None => false,
        }
    }

    /// The replica has the promise, for this ask, or for a later one that was promised to it.
    fn promise_to(&mut self, r: usize, key: Key)
        ensures { self.new ≡ with_promise self.old r key }
    {
        let key = match &self.promise {
            Some(promise) => greater(promise.key, key),
            None => key,
        };
        self.promise = Some(Promise { to: r, key });
    }
}
