//! Whether a recorded stream of a client is what the failure-free run gives.
#![tactic(auto)]

mod comparing;
pub mod faults;
mod judging;
pub mod laws;
mod reading;
#[cfg(test)]
mod tests;
pub mod verdict;

ghost use Rattle.ideal_run.specs.IdealPlans.{IsIdealPlan};
ghost use Rattle.audit_core.specs.Audits.{audited, IsAudit};

use crate::comparing::compare;
use crate::faults::AuditFault;
use crate::reading::read_items;
use crate::verdict::Verdict;
use dpc_model::plans::{Plan, StreamRef};
use dpc_model::tuples::Item;
use std::alloc::Global;

/// Reads the items of a recorded stream as its client does, and compares the stable tuples with the failure-free
/// stream, which is milled bucket by bucket, up to the first difference or the first tuple behind the recorded ones. An
/// item without a reading is refused, by how many items stand before it. It takes memory for the operators' state,
/// a bucket, and a list of the stable tuples, which are moved.
pub fn audit(
    alloc: Global,
    plan: &Plan,
    stream: StreamRef,
    items: Vec<Item>,
) -> Result<Verdict, AuditFault>
    requires { IsIdealPlan plan.now }
    ensures { IsAudit (audited plan.now stream items.items) result }
{
    let recorded = read_items(alloc, items)?;
    compare(alloc, plan, stream, recorded)
}
