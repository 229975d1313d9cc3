//! Items of the tuples that are told.
ghost use Rattle.std.specs.Prelude.{◌≡◌, ◌++◌, ◌==◌, List, drop, OnOk};
ghost use Rattle.dpc_model.specs.declared.tuples.Tuple.{Tuple};
ghost use Rattle.dpc_model.specs.Sessions.{stable_items, tentative_items};
ghost use Rattle.back_channel.specs.Merging.{begins_with};
ghost use Rattle.back_channel.specs.Standing.{IsFront, Agrees};

use dpc_lists::exact::Exact;
use dpc_lists::faults::NoMemory;
use dpc_model::tuples::{Item, Tuple};
use std::alloc::Global;

/// Appends the tuples from a number on, as stable items.
pub(crate) fn tell_stable(
    alloc: Global,
    items: &mut Vec<Item>,
    tuples: &[Tuple],
    from: usize,
) -> Result<(), NoMemory>
    ensures { OnOk result (items.new.items ≡ items.old.items ++ stable_items from (drop from tuples.now)) }
{
    for i in from..tuples.len() {
        items.push(Item::Stable(i as u64, tuples[i].copy(alloc)?))?;
    }
    Ok(())
}

/// Appends the tuples from a place on, as tentative items.
pub(crate) fn tell_tentative(
    alloc: Global,
    items: &mut Vec<Item>,
    tuples: &[Tuple],
    from: usize,
) -> Result<(), NoMemory>
    ensures { OnOk result (items.new.items ≡ items.old.items ++ tentative_items (drop from tuples.now)) }
{
    for i in from..tuples.len() {
        items.push(Item::Tentative(tuples[i].copy(alloc)?))?;
    }
    Ok(())
}

/// How many first tuples of two lists are the same, of the first list's first `count` ones, where `known` are known to be.
pub(crate) fn count_same(old: &[Tuple], count: usize, new: &[Tuple], known: usize) -> usize
    ensures agrees { (ts : List Tuple) → IsFront count ts old.now → Agrees known ts new.now → Agrees result ts new.now }
    ensures begins { (ts : List Tuple) → IsFront count ts old.now → Agrees known ts new.now → (result == count) ≡ begins_with ts new.now }
{
    let mut same = known;
    while same < count && same < old.len() && same < new.len() && old[same].same(&new[same]) {
        same += 1;
    }
    same
}
