//! Whole texts, over sinks that take pieces.
ghost use Rattle.std.specs.Prelude.{OnOk, OnErr};
ghost use Rattle.dpc_edge.specs.Edges.{Took, TookPart};

use crate::faults::Failed;
use crate::sink::Sink;

/// Writes a whole text, in as many pieces as the sink takes.
pub fn write_whole<K: Sink>(out: &mut K, text: &[u8]) -> Result<(), Failed>
    ensures took { OnOk result (Took (K.edge out.old) (K.edge out.new) text.now) }
    ensures failed { OnErr result (TookPart (K.edge out.old) (K.edge out.new) text.now) }
{
    let mut done = 0;
    while done < text.len() {
        done += out.write(&text[done..])?;
    }
    Ok(())
}
