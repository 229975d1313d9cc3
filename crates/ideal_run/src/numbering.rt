//! The rows of a stream as numbered lines, which are held until there is a piece of them.
ghost use Rattle.std.specs.Prelude.{◌≡◌, ◌+◌, ◌++◌, ◌∷◌, [], OnOk, OnErr, IfOk, IfErr, None};
ghost use Rattle.dpc_edge.specs.Edges.{Took, TookPart};
ghost use Rattle.ideal_run.specs.Buckets.{IsUnderWay, Stopped, numbered, LinesTook};

use crate::faults::WriteFault;
use dpc_edge::faults::Failed;
use dpc_edge::sink::Sink;
use dpc_edge::whole::write_whole;
use dpc_lists::faults::NoMemory;
use dpc_model::tuples::Tuple;
use ops_join::rows_out::{Ended, RowSink};
use report::text::put_numbered;
use std::slice;

/// A piece of text that is worth a write.
const PIECE: usize = 1 << 16;

/// Numbers rows, and writes their lines.
#[derive(Drop)]
pub(crate) struct Lines {
    /// What is held.
    pub text: Vec<u8>,
    /// The number of the next row.
    pub count: u64,
    /// Why it wants no more rows.
    pub fault: Option<WriteFault>,
}

/// Writes what is held.
pub(crate) fn write_held<K: Sink>(out: &mut K, text: &mut Vec<u8>) -> Result<(), Failed>
    ensures took { OnOk result (Took (K.edge out.old) (K.edge out.new) text.old.items) }
    ensures none { OnOk result (text.new.items ≡ []) }
    ensures failed { OnErr result (TookPart (K.edge out.old) (K.edge out.new) text.old.items) }
{
    write_whole(out, text.as_slice())?;
    text.clear();
    Ok(())
}

/// Writes what is held, where that is a piece.
fn write_piece<K: Sink>(out: &mut K, text: &mut Vec<u8>) -> Result<(), Failed>
    ensures took { OnOk result (IsUnderWay (K.edge out.old) (K.edge out.new) text.old.items text.new.items) }
    ensures failed { OnErr result (TookPart (K.edge out.old) (K.edge out.new) text.old.items) }
{
    if text.len() >= PIECE {
        write_held(out, text)?;
    }
    Ok(())
}

/// Holds the line of a row of this number, writes what is held where that is a piece, and answers the next
/// number.
fn put_row<K: Sink>(
    out: &mut K,
    text: &mut Vec<u8>,
    number: u64,
    row: &Tuple,
) -> Result<u64, WriteFault>
    ensures next { IfOk result (λ next. next ≡ number + 1) }
    ensures way { OnOk result (IsUnderWay (K.edge out.old) (K.edge out.new)
        (text.old.items ++ numbered number (row.now ∷ [])) text.new.items) }
    ensures err { IfErr result (λ why. Stopped why (K.edge out.old) (K.edge out.new)
        (text.old.items ++ numbered number (row.now ∷ []))) }
{
    let next = number.checked_add(1).ok_or(NoMemory)?;
    put_numbered(text, number, slice::from_ref(row))?;
    write_piece(out, text)?;
    Ok(next)
}

impl<K: Sink> RowSink<K> for Lines {
    ghost took = { λ new out old begin rows.
        LinesTook new.fault (K.edge begin) (K.edge out) old.text.items old.count rows new.text.items new.count };

    fn give(&mut self, out: &mut K, row: &Tuple) -> Result<(), Ended> {
        if self.fault.is_some() {
            return Err(Ended);
        }
        match put_row(out, &mut self.text, self.count, row) {
            Ok(next) => {
                self.count = next;
                Ok(())
            }
            Err(why) => {
                self.fault = Some(why);
                Err(Ended)
            }
        }
    }
}
