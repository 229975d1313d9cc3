//! The items that were taken of a batch.
ghost use Rattle.std.specs.Prelude.{◌≡◌, ◌∷◌, [], map, option_to_list, length, IfOk};
ghost use Rattle.std.specs.Borrow.{Bor};
ghost use Rattle.dpc_model.specs.Reading.{tuples_in};
ghost use Rattle.dpc_model.specs.declared.tuples.Tuple.{Tuple};
ghost use Rattle.dpc_model.specs.declared.tuples.Item.{Item};

use dpc_lists::exact::Exact;
use dpc_lists::faults::NoMemory;
use dpc_lists::lists::Listed;
use dpc_lists::shared::Shared;
use dpc_model::tuples::Item;
use std::alloc::{AllocError, Global};

/// The items again.
fn copied(alloc: Global, items: &[&Item]) -> Result<Vec<Item>, AllocError>
    ensures { IfOk result (λ copies. copies.items ≡ map (λ (item : Bor Item). item.now) items.now) }
{
    let mut copies = Vec::with_capacity(alloc, items.len())?;
    for item in items {
        copies.push(item.copy(alloc)?)?;
    }
    Ok(copies)
}

/// The items of a batch that were taken. Where all were it is the batch, and nothing is copied.
pub fn shared(
    alloc: Global,
    batch: &Shared<Item>,
    taken: &[&Item],
) -> Result<Shared<Item>, NoMemory>
    requires { length taken.now ≡ length batch.now → map (λ (item : Bor Item). item.now) taken.now ≡ batch.now }
    ensures { IfOk result (λ s. s ≡ map (λ (item : Bor Item). item.now) taken.now) }
{
    if taken.len() == batch.len() {
        return batch.share();
    }
    Shared::from_vec(copied(alloc, taken)?)
}

/// The time of an item's tuple.
fn time_in(item: &Item) -> Option<u64>
    ensures { option_to_list result ≡ map (λ (t : Tuple). t.stime) (tuples_in (item.now ∷ [])) }
{
    match item {
        Item::Stable(_, tuple) | Item::Tentative(tuple) => Some(tuple.stime),
        _ => None,
    }
}

/// The times of the tuples among the items.
pub fn times(alloc: Global, items: &[&Item]) -> Result<Listed<u64>, AllocError>
    ensures { IfOk result (λ times. times ≡ map (λ (t : Tuple). t.stime) (tuples_in (map (λ (item : Bor Item). item.now) items.now))) }
{
    let mut times = Vec::with_capacity(alloc, items.len())?;
    for item in items {
        if let Some(time) = time_in(item) {
            times.push(time)?;
        }
    }
    Ok(Listed::from_vec(times))
}
