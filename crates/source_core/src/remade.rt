//! Whether a batch that was made before is just the one that is wanted now: then it is shared, and not
//! made again.
ghost use Rattle.std.specs.Prelude.{◌≡◌, ◌+◌, ◌^◌, ◌<◌, ◌++◌, length, IfSome, IsTrue};
ghost use Rattle.dpc_model.specs.Sessions.{item_if, stable_items, boundary_item};
ghost use Rattle.source_core.specs.Emitting.{opening_items};

use dpc_lists::exact::Exact;
use dpc_model::messages::{NodeState, Subscribe};
use dpc_model::tuples::{Item, Tuple};
use soutput::items::is_done;

/// The items behind one that stands first, where it is wanted.
fn behind_if<'a>(items: &'a [Item], wanted: bool, item: &Item) -> Option<&'a [Item]>
    ensures { IfSome result (λ rest. items.now ≡ item_if wanted item.now ++ rest.now) }
{
    if !wanted {
        return Some(items);
    }
    match items.split_first() {
        Some((first, rest)) if first.same(item) => Some(rest),
        _ => None,
    }
}

/// Whether an item is the stable one of this number with this tuple.
fn is_stable(item: &Item, number: u64, tuple: &Tuple) -> bool
    ensures { IsTrue result → item.now ≡ Item.Stable number tuple.now }
{
    match item {
        Item::Stable(other, stable) => *other == number && stable.same(tuple),
        _ => false,
    }
}

/// The items behind the stable ones of these tuples, of which the first has this number.
fn behind_stable<'a>(items: &'a [Item], first: u64, tuples: &[Tuple]) -> Option<&'a [Item]>
    requires { first + length tuples.now < 2 ^ 64 }
    ensures { IfSome result (λ rest. items.now ≡ stable_items first tuples.now ++ rest.now) }
{
    if items.len() < tuples.len() {
        return None;
    }
    for (i, tuple) in tuples.iter().enumerate() {
        if !is_stable(&items[i], first + i as u64, tuple) {
            return None;
        }
    }
    Some(&items[tuples.len()..])
}

/// The items behind a boundary, where there is one.
fn behind_boundary(items: &[Item], boundary: Option<(u64, u64)>) -> Option<&[Item]>
    ensures { IfSome result (λ rest. items.now ≡ boundary_item boundary ++ rest.now) }
{
    match boundary {
        Some((bound, count)) => behind_if(items, true, &Item::Boundary(bound, count)),
        None => Some(items),
    }
}

/// The items behind those of a first batch.
fn behind_opening<'a>(
    items: &'a [Item],
    asked: Subscribe,
    tuples: &[Tuple],
    boundary: Option<(u64, u64)>,
) -> Option<&'a [Item]>
    requires { asked.n + length tuples.now < 2 ^ 64 }
    ensures { IfSome result (λ rest. items.now ≡ opening_items asked tuples.now boundary ++ rest.now) }
{
    let items = behind_if(items, asked.tentative, &Item::Undo(asked.n))?;
    let items = behind_stable(items, asked.n, tuples)?;
    let items = behind_boundary(items, boundary)?;
    behind_if(items, is_done(asked, NodeState::Stable), &Item::RecDone)
}

/// Whether these are just the items of a first batch: what is asked for of the log, and a boundary.
pub(crate) fn is_opening(
    items: &[Item],
    asked: Subscribe,
    tuples: &[Tuple],
    boundary: Option<(u64, u64)>,
) -> bool
    requires { asked.n + length tuples.now < 2 ^ 64 }
    ensures { IsTrue result → items.now ≡ opening_items asked tuples.now boundary }
{
    match behind_opening(items, asked, tuples, boundary) {
        Some(rest) => rest.is_empty(),
        None => false,
    }
}
