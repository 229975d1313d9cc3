//! The lines of the header.
ghost use Rattle.std.specs.Prelude.{nat_lt, ◌≡◌, ◌/◌};
ghost use Rattle.script_rules.specs.Drafts.{nothing_yet};
ghost use Rattle.script_rules.specs.Checking.{header_statements};
ghost use Rattle.script_check.specs.Judging.{Judges};

use dpc_model::plans::Plan;
use script_draft::limits::MOST_BUCKETS;
use script_rules::reasons::{PlanFault, Reason};

/// The line that names the end.
const END_LINE: u64 = 4;

/// Whether a run has too many buckets.
fn has_many_buckets(plan: &Plan) -> bool
    ensures { result ≡ nat_lt 10000 (plan.now.end / plan.now.width) }
{
    plan.width > 0 && plan.end / plan.width > MOST_BUCKETS
}

/// The line behind the header, or its fault.
pub fn check_header(plan: &Plan) -> Result<u64, PlanFault>
    ensures { Judges result 1 nothing_yet (header_statements plan.now) }
{
    if has_many_buckets(plan) {
        return Err(PlanFault {
            line: END_LINE,
            reason: Reason::PastLimit,
        });
    }
    if plan.version == 3 { Ok(6) } else { Ok(5) }
}
