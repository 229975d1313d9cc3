//! The failure-free streams of a plan, bucket by bucket through the mills of its fragments, written as they come.
#![tactic(auto)]

ghost use Rattle.std.specs.Prelude.{OnOk, IfErr};
ghost use Rattle.dpc_edge.specs.Edges.{Took};
ghost use Rattle.report.specs.Text.{ideal_text};
ghost use Rattle.ideal_run.specs.Buckets.{Stopped};
ghost use Rattle.ideal_run.specs.IdealPlans.{IsIdealPlan};

pub mod faults;
mod giving;
mod inputs;
mod milling;
mod numbering;
mod writing;

use crate::faults::WriteFault;
use crate::numbering::{Lines, write_held};
use crate::writing::write_stream;
use dpc_edge::sink::Sink;
use dpc_model::plans::Plan;
pub use giving::give_stream;
use std::alloc::Global;

/// Writes the failure-free stream of each client in order, as it is milled: a line of its name, one line for
/// each tuple, and how many there are. No stream is held, nor a bucket of what a join makes that stands last in
/// the client's own fragment, so that memory is for the operators' state, a bucket of each other operator and one
/// piece of the text; that fragment is milled anew for each client, with those before it. Where it ends early, a
/// beginning of the text stands on the sink.
pub fn write_ideal<K: Sink>(alloc: Global, plan: &Plan, out: &mut K) -> Result<(), WriteFault>
    requires { IsIdealPlan plan.now }
    ensures took { OnOk result (Took (K.edge out.old) (K.edge out.new) (ideal_text plan.now)) }
    ensures err { IfErr result (λ why. Stopped why (K.edge out.old) (K.edge out.new) (ideal_text plan.now)) }
{
    let mut lines = Lines {
        text: Vec::new(alloc),
        count: 0,
        fault: None,
    };
    for client in plan.clients.as_slice() {
        write_stream(alloc, plan, client, out, &mut lines)?;
    }
    write_held(out, &mut lines.text)?;
    Ok(())
}
