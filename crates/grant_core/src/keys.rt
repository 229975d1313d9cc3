//! Asks by name, and the promise for one.
ghost use Rattle.std.specs.Prelude.{◌≡◌, ◌==◌};
ghost use Rattle.dpc_model.specs.Granting.{key_le, greater_key, over_by, later_key};

use std::marker::Model;

/// The name of an ask: the incarnation of the replica that asks, and the ask's number in it.
pub type Key = (u64, u64);

/// To whom something was promised, and for which ask. Contracts see the pair of them.
#[derive(Drop)]
pub(crate) struct Promise {
    pub(crate) to: usize,
    pub(crate) key: Key,
}

impl Model for Promise {
    ghost use Rattle.std.specs.Coded.{codes};
    ghost use Rattle.std.specs.Prelude.{ℕ};
    ghost use Rattle.dpc_model.specs.Granting.{Key};

    ghost Value = { ℕ × Key };

    ghost coded = { Prim.hlevel codes };

    ghost view = { λ p. (p.to, p.key) };
}

/// Whether the first ask is at most the second: by incarnation, then by number.
pub(crate) fn is_at_most(first: Key, second: Key) -> bool
    ensures { result ≡ key_le first second }
{
    first.0 < second.0 || first.0 == second.0 && first.1 <= second.1
}

/// The later one of two asks.
pub(crate) fn greater(first: Key, second: Key) -> Key
    ensures { result ≡ greater_key first second }
{
    if is_at_most(first, second) {
        second
    } else {
        first
    }
}

/// Whether an ask is known to be over, where the last one known to be over is this one.
pub(crate) fn is_over_by(key: Key, heard: Option<Key>) -> bool
    ensures { result ≡ over_by key heard }
{
    match heard {
        Some(over) => is_at_most(key, over),
        None => false,
    }
}

/// The last ask known to be over, after one beat more.
pub(crate) fn later(key: Key, heard: Option<Key>) -> Option<Key>
    ensures { result ≡ later_key key heard }
{
    match heard {
        Some(over) => Some(greater(over, key)),
        None => Some(key),
    }
}
