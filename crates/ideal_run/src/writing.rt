//! The failure-free stream of a client, written as it is milled.
ghost use Rattle.std.specs.Prelude.{◌++◌, OnOk, IfErr};
ghost use Rattle.ideal_run.specs.Buckets.{client_text, IsUnderWay, Stopped};
ghost use Rattle.ideal_run.specs.IdealPlans.{IsIdealPlan};

use crate::faults::WriteFault;
use crate::giving::give_stream;
use crate::numbering::Lines;
use dpc_edge::sink::Sink;
use dpc_model::plans::{ClientSpec, Plan};
use report::text::{put_name, put_total};
use std::alloc::Global;

/// Writes the failure-free stream of a client, as it is milled; what is less than a piece is held.
pub(crate) fn write_stream<K: Sink>(
    alloc: Global,
    plan: &Plan,
    client: &ClientSpec,
    out: &mut K,
    lines: &mut Lines,
) -> Result<(), WriteFault>
    requires { IsIdealPlan plan.now }
    ensures ok { OnOk result (IsUnderWay (K.edge out.old) (K.edge out.new)
        (lines.old.text.items ++ client_text plan.now client.now) lines.new.text.items) }
    ensures err { IfErr result (λ why. Stopped why (K.edge out.old) (K.edge out.new)
        (lines.old.text.items ++ client_text plan.now client.now)) }
{
    put_name(&mut lines.text, client.name.as_slice())?;
    lines.count = 0;
    lines.fault = None;
    let given = give_stream(alloc, plan, client.input, lines, out);
    if let Some(why) = lines.fault {
        return Err(why);
    }
    if given.is_err() {
        return Err(WriteFault::NoMemory);
    }
    put_total(&mut lines.text, lines.count)?;
    Ok(())
}
