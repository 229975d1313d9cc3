//! Recorded stable tuples beside the failure-free ones, as these are milled.
ghost use Rattle.std.specs.Prelude.{Ok};
ghost use Rattle.dpc_model.specs.Fragments.{ideal};
ghost use Rattle.dpc_model.specs.Reading.{Reader};
ghost use Rattle.ideal_run.specs.IdealPlans.{IsIdealPlan};
ghost use Rattle.audit_core.specs.Audits as spec;

use crate::faults::AuditFault;
use crate::judging::Judge;
use crate::reading::Recorded;
use crate::verdict::Verdict;
use dpc_model::plans::{Plan, StreamRef};
use ideal_run::give_stream;
use std::alloc::Global;

/// The verdict on what a reader holds. The only error is want of memory.
pub(crate) fn compare(
    alloc: Global,
    plan: &Plan,
    stream: StreamRef,
    recorded: Recorded,
) -> Result<Verdict, AuditFault>
    requires { IsIdealPlan plan.now }
    ensures { (r : Reader) → spec.Holds recorded r → spec.IsAudit (Ok (spec.verdict_on plan.now.end (ideal plan.now stream) r)) result }
{
    let mut judge = Judge::new(alloc, recorded);
    let given = give_stream(alloc, plan, stream, &mut judge, &mut ());
    judge.conclude(given.is_ok(), plan.end)
}
