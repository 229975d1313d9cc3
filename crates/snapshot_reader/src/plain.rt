//! A snapshot whose engine is still plain data, read.
ghost use Rattle.std.specs.Prelude.{◌≡◌};
ghost use Rattle.snapshot_form.specs.Reading.{plain_at};
ghost use Rattle.snapshot_reader.specs.Told.{IsRead};

use crate::bytes::Bytes;
use crate::faults::ReadFault;
use crate::forms::{Frames, Numbers};
use crate::operators::read_operators;
use dpc_lists::lists::Listed;
use dpc_model::operators::OpSpec;
use dpc_model::tuples::Tuples;
use fragment_mill::states::OperatorParts;
use std::alloc::Global;
use std::marker::Model;

/// A snapshot whose engine is still plain data. Contracts see a `PlainSnapshot`.
#[derive(Drop)]
pub(crate) struct Plain {
    pub(crate) cursor: u64,
    pub(crate) counts: Listed<u64>,
    pub(crate) base: u64,
    pub(crate) kept: Tuples,
    pub(crate) operators: Listed<OperatorParts>,
}

impl Model for Plain {
    ghost use Rattle.snapshot_form.specs.Reading.{PlainSnapshot};

    ghost Value = { PlainSnapshot };

    ghost view = { λ p. record { cursor = p.cursor; counts = p.counts; base = p.base; kept = p.kept; operators = p.operators } };
}

/// The snapshot of these operators that stands in front of bytes.
pub(crate) fn read_plain(
    alloc: Global,
    bytes: &mut Bytes<'_>,
    ops: &[OpSpec],
) -> Result<Plain, ReadFault>
    ensures { IsRead (plain_at ops.now bytes.old) result bytes.new }
{
    let cursor = bytes.number()?;
    let counts = bytes.counted(alloc, &Numbers)?;
    let base = bytes.number()?;
    let kept = bytes.counted(alloc, &Frames)?;
    let operators = read_operators(alloc, bytes, ops)?;
    Ok(Plain {
        cursor,
        counts,
        base,
        kept,
        operators,
    })
}
