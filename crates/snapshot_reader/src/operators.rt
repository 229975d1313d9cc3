//! What the operators keep, read.
ghost use Rattle.std.specs.Prelude.{◌≡◌};
ghost use Rattle.snapshot_form.specs.Reading.{total_count as totals_of, form_at, operator_at, operators_at};
ghost use Rattle.snapshot_reader.specs.Told.{IsRead};

use crate::bytes::Bytes;
use crate::faults::ReadFault;
use crate::forms::{Cells, Frames};
use dpc_lists::lists::Listed;
use dpc_model::operators::{OpKind, OpSpec};
use fragment_mill::states::OperatorParts;
use std::alloc::Global;

/// How many totals a cell of an operator has.
fn total_count(kind: &OpKind) -> usize
    ensures { result ≡ totals_of kind.now }
{
    match kind {
        OpKind::Aggregate(_, _, _, aggs) => aggs.len(),
        _ => 0,
    }
}

/// What follows the byte of a form, where an operator's cells have so many totals.
fn read_form(
    alloc: Global,
    bytes: &mut Bytes<'_>,
    totals: usize,
    form: u8,
) -> Result<OperatorParts, ReadFault>
    ensures { IsRead (form_at totals form bytes.old) result bytes.new }
{
    match form {
        0 => Ok(OperatorParts::Plain),
        1 => {
            let left = bytes.counted(alloc, &Frames)?;
            let right = bytes.counted(alloc, &Frames)?;
            Ok(OperatorParts::Join(left, right))
        }
        2 => {
            let cells = bytes.counted(alloc, &Cells { totals })?;
            Ok(OperatorParts::Aggregate(cells))
        }
        _ => Err(ReadFault::NoReading),
    }
}

/// What an operator of this kind keeps.
fn read_operator(
    alloc: Global,
    bytes: &mut Bytes<'_>,
    kind: &OpKind,
) -> Result<OperatorParts, ReadFault>
    ensures { IsRead (operator_at kind.now bytes.old) result bytes.new }
{
    let form = bytes.byte()?;
    read_form(alloc, bytes, total_count(kind), form)
}

/// What each of these operators keeps, in their order.
pub(crate) fn read_operators(
    alloc: Global,
    bytes: &mut Bytes<'_>,
    ops: &[OpSpec],
) -> Result<Listed<OperatorParts>, ReadFault>
    ensures { IsRead (operators_at ops.now bytes.old) result bytes.new }
{
    let mut parts = Vec::new(alloc);
    for op in ops {
        let part = read_operator(alloc, bytes, &op.kind)?;
        let Ok(()) = parts.push(part) else {
            return Err(ReadFault::NoMemory);
        };
    }
    Ok(Listed::from_vec(parts))
}
