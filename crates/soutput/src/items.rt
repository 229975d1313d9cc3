//! The items of a batch.
ghost use Rattle.std.specs.Prelude.{◌≡◌, ◌+◌, ◌^◌, ◌<◌, ◌++◌, length, IfOk, OnOk, ◌&&◌};
ghost use Rattle.dpc_model.specs.NodeStates.{is_stable};
ghost use Rattle.dpc_model.specs.Sessions.{stable_items, tentative_items, boundary_item, passed_item, item_if, given_items};
ghost use Rattle.soutput.specs.Giving.{given_behind};

use crate::fresh::Fresh;
use dpc_lists::exact::Exact;
use dpc_model::messages::{NodeState, Subscribe};
use dpc_model::tuples::{Item, Tuple};
use std::alloc::{AllocError, Global};

/// Appends stable items, the first of this number.
pub fn push_stable(
    alloc: Global,
    items: &mut Vec<Item>,
    first: u64,
    tuples: &[Tuple],
) -> Result<(), AllocError>
    requires { first + length tuples.now < 2 ^ 64 }
    ensures { OnOk result (items.new.items ≡ items.old.items ++ stable_items first tuples.now) }
{
    for (i, tuple) in tuples.iter().enumerate() {
        let tuple = tuple.copy(alloc)?;
        items.push(Item::Stable(first + i as u64, tuple))?;
    }
    Ok(())
}

/// Appends tentative items.
pub fn push_tentative(
    alloc: Global,
    items: &mut Vec<Item>,
    tuples: &[Tuple],
) -> Result<(), AllocError>
    ensures { OnOk result (items.new.items ≡ items.old.items ++ tentative_items tuples.now) }
{
    for tuple in tuples {
        let tuple = tuple.copy(alloc)?;
        items.push(Item::Tentative(tuple))?;
    }
    Ok(())
}

/// Appends a boundary, where there is one.
pub fn push_boundary(items: &mut Vec<Item>, boundary: Option<(u64, u64)>) -> Result<(), AllocError>
    ensures { OnOk result (items.new.items ≡ items.old.items ++ boundary_item boundary) }
{
    if let Some((bound, count)) = boundary {
        items.push(Item::Boundary(bound, count))?;
    }
    Ok(())
}

/// Appends how far tentative output goes, where that is told.
pub fn push_passed(items: &mut Vec<Item>, passed: Option<u64>) -> Result<(), AllocError>
    ensures { OnOk result (items.new.items ≡ items.old.items ++ passed_item passed) }
{
    if let Some(upto) = passed {
        items.push(Item::Passed(upto))?;
    }
    Ok(())
}

/// Appends an item where it is wanted.
pub fn push_if(items: &mut Vec<Item>, wanted: bool, item: Item) -> Result<(), AllocError>
    ensures { OnOk result (items.new.items ≡ items.old.items ++ item_if wanted item) }
{
    if wanted {
        items.push(item)?;
    }
    Ok(())
}

/// The items of what is new, whose first stable tuple has this number.
pub fn items_of(alloc: Global, first: u64, new: &Fresh) -> Result<Vec<Item>, AllocError>
    requires { first + length new.now.stable < 2 ^ 64 }
    ensures { IfOk result (λ items. items.items ≡ given_items first (given_behind first new.now)) }
{
    let stable = new.stable.as_slice();
    let tentative = new.tentative.as_slice();
    let boundary = match new.bound {
        Some(bound) => Some((bound, first + stable.len() as u64)),
        None => None,
    };
    let mut items = Vec::with_capacity(alloc, stable.len() + tentative.len() + 3)?;
    push_stable(alloc, &mut items, first, stable)?;
    push_boundary(&mut items, boundary)?;
    push_tentative(alloc, &mut items, tentative)?;
    push_passed(&mut items, new.passed)?;
    push_if(&mut items, new.done, Item::RecDone)?;
    Ok(items)
}

/// Whether the first batch ends a reader's corrections.
pub fn is_done(asked: Subscribe, state: NodeState) -> bool
    ensures { result ≡ (asked.tentative && is_stable state) }
{
    asked.tentative && matches!(state, NodeState::Stable)
}
