//! What two readers know together, and how one of them reads.
ghost use Rattle.std.specs.Prelude.{OnOk};
ghost use Rattle.dpc_model.specs.declared.tuples.Item.TheVariants as item_of;
ghost use Rattle.back_channel.specs.Sides.{ReadsOne, ReadsAll};

use crate::side::Side;
use crate::stable_list::StableList;
use dpc_lists::exact::Exact;
use dpc_lists::faults::NoMemory;
use dpc_model::tuples::{Item, Tuple};
use std::alloc::Global;

/// The longer one of two stable lists, of which one begins with the other, and the greater bound.
#[derive(Drop)]
pub(crate) struct Known {
    pub(crate) stable: StableList,
    pub(crate) bound: u64,
}

impl Known {
    /// Counts a stable tuple, and holds it where the other reader doesn't have it yet.
    fn read_stable(
        &mut self,
        alloc: Global,
        side: &mut Side,
        number: u64,
        tuple: &Tuple,
    ) -> Result<(), NoMemory>
        ensures { OnOk result (ReadsOne (item_of.Stable number tuple.now) self.old side.old self.new side.new) }
    {
        let held = self.stable.as_slice().len() as u64;
        if number != side.count || number > held {
            return Ok(());
        }
        if number == held {
            self.stable.push(tuple.copy(alloc)?)?;
        }
        side.count = number + 1;
        Ok(())
    }

    /// Holds a tentative tuple, but where it is below the bound.
    fn read_tentative(
        &mut self,
        alloc: Global,
        side: &mut Side,
        tuple: &Tuple,
    ) -> Result<(), NoMemory>
        ensures { OnOk result (ReadsOne (item_of.Tentative tuple.now) self.old side.old self.new side.new) }
    {
        if tuple.stime >= self.bound {
            side.tentative.push(tuple.copy(alloc)?)?;
        }
        Ok(())
    }

    /// Raises the bound.
    fn read_boundary(&mut self, side: &mut Side, bound: u64, count: u64)
        ensures { ReadsOne (item_of.Boundary bound count) self.old side.old self.new side.new }
    {
        self.bound = self.bound.max(bound);
    }

    /// Lets the tentative tuples go.
    fn read_undo(&mut self, alloc: Global, side: &mut Side, number: u64)
        ensures { ReadsOne (item_of.Undo number) self.old side.old self.new side.new }
    {
        side.undo(alloc);
    }

    /// Reads one item of a side's reader.
    fn read(&mut self, alloc: Global, side: &mut Side, item: &Item) -> Result<(), NoMemory>
        ensures { OnOk result (ReadsOne item.now self.old side.old self.new side.new) }
    {
        match item {
            Item::Stable(number, tuple) => self.read_stable(alloc, side, *number, tuple)?,
            Item::Tentative(tuple) => self.read_tentative(alloc, side, tuple)?,
            Item::Boundary(bound, count) => self.read_boundary(side, *bound, *count),
            Item::Undo(number) => self.read_undo(alloc, side, *number),
            Item::Passed(_) => {}
            Item::RecDone => {}
        }
        Ok(())
    }

    /// Reads items of a side's reader, in order.
    pub(crate) fn read_all(
        &mut self,
        alloc: Global,
        side: &mut Side,
        items: &[Item],
    ) -> Result<(), NoMemory>
        ensures { OnOk result (ReadsAll items.now self.old side.old self.new side.new) }
    {
        for item in items {
            self.read(alloc, side, item)?;
        }
        Ok(())
    }
}
