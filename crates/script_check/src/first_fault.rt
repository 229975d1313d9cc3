//! The first fault of a script.
ghost use Rattle.std.specs.Prelude.{◌≡◌, ◌<◌, ◌-◌, ◌^◌, true, Some, None, option_map, OnOk, IfErr};
ghost use Rattle.script_rules.specs.Checking as rule;
ghost use Rattle.script_check.specs.Judging.{told_fault, bare};
ghost use Rattle.script_check.specs.Behind.{JudgesPlan};

use crate::clients::{check_begin, check_clients};
use crate::directives::check_phases;
use crate::fragments::check_fragments;
use crate::headers::check_header;
use crate::sources::check_sources;
use dpc_model::plans::Plan;
use dpc_model::scripts::Script;
use script_rules::reasons::PlanFault;

/// The line behind `begin`, or the first fault of a plan.
fn check_plan(plan: &Plan) -> Result<u64, PlanFault>
    ensures { JudgesPlan result plan.now }
{
    let sources = match check_header(plan) {
        Ok(line) => line,
        Err(fault) => return Err(fault),
    };
    let frags = match check_sources(plan, sources) {
        Ok(line) => line,
        Err(fault) => return Err(fault),
    };
    let clients = match check_fragments(plan, frags) {
        Ok(line) => line,
        Err(fault) => return Err(fault),
    };
    match check_clients(plan, clients) {
        Ok(line) => check_begin(plan, line),
        Err(fault) => Err(fault),
    }
}

/// The first fault of a script in range, and its line in the canonical text; a line past 2^64 - 1 is told as that
/// number. It takes no memory. Time: each name is compared with at most all names of the plan, and a crash or a restart looks back
/// over the directives up to the node's last one.
pub fn check(script: &Script) -> Result<(), PlanFault>
    requires { rule.is_in_range script.now ≡ true }
    ensures ok { OnOk result (rule.check script.now ≡ None) }
    ensures err { IfErr result (λ fault. option_map told_fault (rule.check script.now) ≡ Some fault) }
    ensures exact { IfErr result (λ fault. fault.line < 2 ^ 64 - 1 → rule.check script.now ≡ Some fault) }
{
    let line = match check_plan(&script.plan) {
        Ok(line) => line,
        Err(fault) => return Err(fault),
    };
    match check_phases(&script.plan, script.phases.as_slice(), line) {
        Ok(_) => Ok(()),
        Err(fault) => Err(fault),
    }
}
