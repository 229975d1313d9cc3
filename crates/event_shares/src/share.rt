//! The events that a worker counts.
ghost use Rattle.std.specs.Prelude.{◌≡◌, ◌+◌, ◌-◌, ◌^◌, ◌<◌, ◌≤◌, min};
ghost use Rattle.event_shares.specs.Shares.{ShareOf};

use std::marker::Model;
use std::sync::ledger::{Book, Ledger, Share as Token};

/// Some parts of the ledger of a run, and how many of its events are counted in them. Its calls take no
/// memory. Contracts see a `ShareOf`.
#[derive(Drop)]
pub struct Share<L: Ledger> {
    token: Token<L>,
    parts: u64,
    /// The amount, or the greatest number where it is past that.
    amount: u64,
}

impl<L: Ledger> Model for Share<L> {
    ghost use Rattle.std.specs.Prelude.{◌≡◌, ◌-◌, ◌^◌, ◌<◌, min};
    ghost use Rattle.event_shares.specs.Shares.{ShareOf};

    ghost Value = { ShareOf };

    ghost view = { λ s. record { parts = s.token.parts; amount = s.token.amount } };

    ghost invariant = { λ s. (s.parts ≡ s.token.parts) × (s.amount ≡ min s.token.amount (2 ^ 64 - 1)) × (0 < s.token.parts) };
}

impl<L: Ledger> Share<L> {
    /// The share that a new ledger comes with.
    pub fn whole(token: Token<L>, parts: u64) -> Share<L>
        requires parts { token.parts ≡ parts }
        requires some { 0 < token.parts }
        requires amount { token.amount ≡ 0 }
        ensures { result ≡ record { parts = parts; amount = 0 } }
    {
        Share {
            token,
            parts,
            amount: 0,
        }
    }

    /// A new share of one part, in which nothing is counted.
    pub fn split(&mut self) -> Share<L>
        requires { 2 ≤ self.old.parts }
        ensures new { result ≡ record { parts = 1; amount = 0 } }
        ensures left { self.new ≡ record { parts = self.old.parts - 1; amount = self.old.amount } }
    {
        let token = self.token.split_off(1, 0);
        self.parts -= 1;
        Share {
            token,
            parts: 1,
            amount: 0,
        }
    }

    /// Takes the other's parts and amount.
    pub fn join(&mut self, other: Share<L>)
        requires { L.parts < 2 ^ 64 }
        ensures { self.new ≡ record { parts = self.old.parts + other.parts; amount = self.old.amount + other.amount } }
    {
        let Share {
            token,
            parts,
            amount,
        } = other;
        self.token.merge(token);
        self.parts += parts;
        self.amount = self.amount.saturating_add(amount);
    }

    /// How many events are counted in it.
    pub fn amount(&self) -> u64
        ensures { result ≡ min self.now.amount (2 ^ 64 - 1) }
    {
        self.amount
    }

    /// How many parts it has.
    pub fn parts(&self) -> u64
        ensures { result ≡ self.now.parts }
    {
        self.parts
    }

    /// Counts one event more.
    pub fn count(&mut self, book: &mut Book<L>)
        ensures book { book.new.total ≡ book.old.total + 1 }
        ensures share { self.new ≡ record { parts = self.old.parts; amount = self.old.amount + 1 } }
    {
        book.add(&mut self.token, 1);
        self.amount = self.amount.saturating_add(1);
    }

    /// The book tells how much is counted in all.
    pub fn audit(&mut self, book: &mut Book<L>)
        ensures book { book.new.total ≡ book.old.total }
        ensures share { self.new ≡ self.old }
        ensures bound { self.old.amount ≤ book.old.total }
        ensures whole { self.old.parts ≡ L.parts → self.old.amount ≡ book.old.total }
    {
        book.audit(&mut self.token);
    }
}
